//! Sets as sorted lists in chunks. Once room is reserved, entries are inserted without allocation.
ghost use Rattle.std.specs.Prelude.{length, vec_len, count_by, filter, slice_index_or, ◌≡◌, ◌+◌, ◌<◌, ◌≤◌, ◌^◌, ◌↔◌, true, false, IsTrue, OnOk, IfOk, IfErr};
ghost use Rattle.std.specs.List.Sorted.{IsStrictlySortedBy};
ghost use Rattle.std.specs.Ordering.{is_eq, is_le, is_lt};
ghost use Rattle.chunked_sets.specs.Entries.{entries_left};
ghost use Rattle.rbac_sets.specs.Sets.{IsDisjoint, empty, contains, insert, remove, union, difference, from_list, len, members};
ghost use Rattle.rbac_sets.specs.SortedSet.{set_of};

use crate::chunks::{chunk_of, insert_into, make_room};
use crate::entries::Entries;
use crate::making::{chunks_from, copy_chunks, entry_at};
use crate::pass::merge_into;
use crate::removing::{remove_from, tidy};
use crate::run::{Run, count_below, run_of};
use rbac_sets::{Entry, Prefix, Probe, Refusal, place};
use std::alloc::Global;
use std::marker::Model;
use std::mem;

/// A set of entries, kept in their order in chunks of at most 128.
///
/// An entry is found by binary search. Only `reserve`, `copy` and `of_sorted` allocate: once room is
/// reserved, entries are inserted without allocation, and so without a refusal. An insertion moves the
/// entries of one chunk, and takes a spare chunk if that one is full. In contracts the value is the
/// entries in their order and the room for more; `set_of` is the set of the entries.
#[derive(Drop)]
pub struct ChunkedSet<K: Entry> {
    chunks: Vec<Vec<K>>,
    // Empty chunks, for insertions into full ones.
    spare: Vec<Vec<K>>,
    len: usize,
    // How many more entries were promised room. The chunks and the spare ones are enough for them, wherever they belong.
    room: usize,
}

impl<K: Entry> Model for ChunkedSet<K> {
    ghost use Rattle.std.specs.Prelude.{◌≡◌, ◌≤◌, ◌^◌, length, vec_len, vec_capacity};
    ghost use Rattle.std.specs.List.Sorted.{IsStrictlySortedBy};
    ghost use Rattle.rbac_sets.specs.SortedSet.{Stored, stored_code};
    ghost use Rattle.chunked_sets.specs.Chunks.{entries_of};
    ghost use Rattle.chunked_sets.specs.private.Chunks.{AreChunks, AreSpare};
    ghost use Rattle.chunked_sets.specs.private.Rooms.{HasRoom};

    ghost Value = { Stored K };

    ghost coded = { stored_code K.code };

    ghost view = { λ s. record { in_order = entries_of s.chunks.items; room = s.room } };

    ghost invariant = { λ s. AreChunks s.chunks.items × AreSpare s.spare.items × IsStrictlySortedBy K.cmp (entries_of s.chunks.items)
        × (s.len ≡ length (entries_of s.chunks.items)) × (vec_len s.chunks ≤ 2 ^ 56) × HasRoom s.room s.chunks.items (vec_capacity s.chunks) s.spare };
}

impl<K: Entry> ChunkedSet<K> {
    /// The set without entries. It doesn't allocate yet.
    pub fn new(alloc: Global) -> ChunkedSet<K>
        ensures { set_of K.cmp result ≡ empty }
    {
        ChunkedSet {
            chunks: Vec::new(alloc),
            spare: Vec::new(alloc),
            len: 0,
            room: 0,
        }
    }

    /// How many entries there are.
    pub fn len(&self) -> usize
        ensures { result ≡ len (set_of K.cmp self.now) }
    {
        self.len
    }

    /// Whether there is no entry.
    pub fn is_empty(&self) -> bool
        ensures { IsTrue result ↔ (len (set_of K.cmp self.now) ≡ 0) }
    {
        self.len() == 0
    }

    /// How many more entries can be inserted without allocation.
    pub fn room(&self) -> usize
        ensures { result ≡ self.now.room }
    {
        self.room
    }

    /// Whether the entry that `probe` looks for is there.
    pub fn contains<P: Probe<K>>(&self, probe: P) -> bool
        ensures { result ≡ contains (set_of K.cmp self.now) (P.entry probe) }
    {
        if self.chunks.is_empty() {
            return false;
        }
        let at = chunk_of(&self.chunks, probe);
        place(&self.chunks[at], probe).is_ok()
    }

    /// Reserves room for at least `count` more entries, with as many spare chunks as are enough wherever the entries belong.
    ///
    /// # Errors
    ///
    /// `Memory` if allocation failed. The entries are kept in any case.
    pub fn reserve(&mut self, count: usize) -> Result<(), Refusal>
        ensures ok { OnOk result (count ≤ self.new.room) }
        ensures keeps { set_of K.cmp self.new ≡ set_of K.cmp self.old }
        ensures room { self.old.room ≤ self.new.room }
        ensures cause { IfErr result (λ refusal. refusal ≡ Refusal.Memory) }
    {
        if count <= self.room {
            return Ok(());
        }
        let alloc = *self.chunks.allocator();
        make_room(&mut self.chunks, &mut self.spare, count, alloc)?;
        self.room = count;
        Ok(())
    }

    /// Inserts an entry that is not there, into reserved room.
    ///
    /// It doesn't allocate and can't fail.
    pub fn insert_reserved(&mut self, entry: K)
        requires absent { contains (set_of K.cmp self.old) entry ≡ false }
        requires room { 1 ≤ self.old.room }
        ensures inserted { set_of K.cmp self.new ≡ insert (set_of K.cmp self.old) entry }
        ensures room { self.old.room ≤ self.new.room + 1 }
    {
        insert_into(&mut self.chunks, &mut self.spare, entry);
        self.len += 1;
        self.room -= 1;
    }

    /// Inserts an entry that is not there.
    ///
    /// # Errors
    ///
    /// `Memory` if allocation failed. The entry is dropped then, and the set is as it was.
    pub fn insert(&mut self, entry: K) -> Result<(), Refusal>
        requires { contains (set_of K.cmp self.old) entry ≡ false }
        ensures ok { OnOk result (set_of K.cmp self.new ≡ insert (set_of K.cmp self.old) entry) }
        ensures err { IfErr result (λ refusal. (refusal ≡ Refusal.Memory) × (set_of K.cmp self.new ≡ set_of K.cmp self.old)) }
    {
        self.reserve(1)?;
        self.insert_reserved(entry);
        Ok(())
    }

    /// Removes the entry that `probe` looks for, and returns whether it was there.
    ///
    /// It doesn't allocate.
    pub fn remove<P: Probe<K>>(&mut self, probe: P) -> bool
        ensures was_there { result ≡ contains (set_of K.cmp self.old) (P.entry probe) }
        ensures removed { set_of K.cmp self.new ≡ remove (set_of K.cmp self.old) (P.entry probe) }
        ensures room { self.old.room ≤ self.new.room }
    {
        match remove_from(&mut self.chunks, &mut self.spare, probe) {
            Some(at) => {
                self.len -= 1;
                tidy(&mut self.chunks, &mut self.spare, at);
                true
            }
            None => false,
        }
    }

    /// Inserts all of these sorted entries, none of which is there, into reserved room.
    ///
    /// It goes once through the chunks, doesn't allocate and can't fail.
    pub fn merge_reserved(&mut self, others: Vec<K>)
        requires sorted { IsStrictlySortedBy K.cmp others.items }
        requires disjoint { IsDisjoint (set_of K.cmp self.old) (from_list {R = K.cmp} others.items) }
        requires room { vec_len others ≤ self.old.room }
        ensures merged { set_of K.cmp self.new ≡ union (set_of K.cmp self.old) (from_list {R = K.cmp} others.items) }
        ensures room { self.old.room ≤ self.new.room + vec_len others }
    {
        self.len += others.len();
        self.room -= others.len();
        let nothing = Vec::new(*self.chunks.allocator());
        let chunks = mem::replace(&mut self.chunks, nothing);
        self.chunks = merge_into(chunks, &mut self.spare, others);
    }

    /// Removes each of these entries that is there.
    ///
    /// It doesn't allocate.
    pub fn take_all(&mut self, others: &[K])
        ensures taken { set_of K.cmp self.new ≡ difference (set_of K.cmp self.old) (from_list {R = K.cmp} others.now) }
        ensures room { self.old.room ≤ self.new.room }
    {
        for other in others {
            self.remove(other);
        }
    }

    /// The entries one by one, in their order.
    pub fn iter(&self) -> Entries<'_, K>
        ensures { entries_left result ≡ members (set_of K.cmp self.now) }
    {
        Entries {
            chunk: &[],
            chunks: &self.chunks,
            last: &[],
        }
    }

    /// All entries, in their order.
    pub fn as_run(&self) -> Run<'_, K>
        ensures { result ≡ members (set_of K.cmp self.now) }
    {
        Run::new(&[], &self.chunks, &[])
    }

    /// The entry at a place in the order. Its time grows with the number of chunks.
    pub fn at(&self, index: usize) -> &K
        requires { index < len (set_of K.cmp self.now) }
        ensures { result.now ≡ slice_index_or (members (set_of K.cmp self.now)) index result.now }
    {
        entry_at(&self.chunks, index)
    }

    /// The entries that begin with the parts of `prefix`, in their order.
    pub fn with_first<P: Prefix<K>>(&self, prefix: P) -> Run<'_, K>
        ensures { result ≡ filter (λ entry. is_eq (P.place prefix entry)) (members (set_of K.cmp self.now)) }
    {
        run_of(&self.chunks, prefix)
    }

    // How many entries begin with lesser parts than those of `prefix`.
    fn count_below<P: Prefix<K>>(&self, prefix: P) -> usize
        ensures count { result ≡ count_by (λ entry. is_lt (P.place prefix entry)) (members (set_of K.cmp self.now)) }
        ensures few { length (members (set_of K.cmp self.now)) ≤ 2 ^ 63 }
    {
        count_below(&self.chunks, prefix)
    }

    /// How many entries begin with lesser parts than those of `prefix`, and how many with parts that aren't greater. Its
    /// time grows with the number of chunks.
    pub fn range<P: Prefix<K>>(&self, prefix: P) -> (usize, usize)
        ensures start { result.0 ≡ count_by (λ entry. is_lt (P.place prefix entry)) (members (set_of K.cmp self.now)) }
        ensures end { result.1 ≡ count_by (λ entry. is_le (P.place prefix entry)) (members (set_of K.cmp self.now)) }
    {
        let start = self.count_below(prefix);
        (start, start + self.with_first(prefix).len())
    }

    /// The set of these sorted entries, in chunks that have space for a few more.
    ///
    /// # Errors
    ///
    /// `Memory` if allocation failed.
    pub fn of_sorted(alloc: Global, entries: Vec<K>) -> Result<ChunkedSet<K>, Refusal>
        requires { IsStrictlySortedBy K.cmp entries.items }
        ensures ok { IfOk result (λ set. members (set_of K.cmp set) ≡ entries.items) }
        ensures cause { IfErr result (λ refusal. refusal ≡ Refusal.Memory) }
    {
        let len = entries.len();
        let chunks = chunks_from(entries, alloc)?;
        Ok(ChunkedSet {
            chunks,
            spare: Vec::new(alloc),
            len,
            room: 0,
        })
    }

    /// A copy of the set, in memory of its own, without room for more.
    ///
    /// # Errors
    ///
    /// `Memory` if allocation failed.
    pub fn copy(&self, alloc: Global) -> Result<ChunkedSet<K>, Refusal>
        ensures ok { IfOk result (λ copy. set_of K.cmp copy ≡ set_of K.cmp self.now) }
        ensures room { IfOk result (λ copy. copy.room ≡ 0) }
        ensures cause { IfErr result (λ refusal. refusal ≡ Refusal.Memory) }
    {
        let chunks = copy_chunks(&self.chunks, alloc)?;
        Ok(ChunkedSet {
            chunks,
            spare: Vec::new(alloc),
            len: self.len,
            room: 0,
        })
    }

    /// Gives back the spare chunks, so that there is no room for more.
    pub fn release(&mut self)
        ensures keeps { set_of K.cmp self.new ≡ set_of K.cmp self.old }
        ensures room { self.new.room ≡ 0 }
    {
        let alloc = *self.chunks.allocator();
        self.spare = Vec::new(alloc);
        self.room = 0;
    }
}
