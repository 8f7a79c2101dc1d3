//! Sets as sorted lists. Once room is reserved, entries are inserted without allocation.
ghost use Rattle.std.specs.Prelude.{◌≡◌, ◌+◌, ◌<◌, ◌≤◌, ◌↔◌, length, take, drop, vec_len, vec_capacity, true, false, not, IsTrue, filter, OnOk, IfOk, IfErr};
ghost use Rattle.std.specs.List.{HoldsAt, list_all, AllWithin, remove_range};
ghost use Rattle.std.specs.Slice.Iter.{iter_rest};
ghost use Rattle.std.specs.List.Sorted.{IsStrictlySortedBy, IsPartitionPoint, IsPartitionedBy};
ghost use Rattle.std.specs.declared.cmp.Ordering.{Ordering};
ghost use Rattle.std.specs.declared.cmp.Ordering.TheVariants.{Less, Equal, Greater};
ghost use Rattle.std.specs.Ordering.{is_eq, ordering_index};
ghost use Rattle.std.specs.FinMap.{IsAntisymmetric};
ghost use Rattle.rbac_sets.specs.Sets.{IsDisjoint, empty, contains, insert, remove, retain, union, difference, from_list, len, members};
ghost use Rattle.rbac_sets.specs.SortedSet.{set_of};

use crate::refusal::Refusal;
use crate::removal::SetRemoval;
use crate::ring::merge;
use std::alloc::Global;
use std::cmp::Ordering;
use std::marker::Model;
use std::mem;
use std::slice::Iter;

/// An entry of a set: a value of a type with a total order in which only equal values tie.
pub trait Entry: Ord + Drop {
    /// A copy of the entry, in memory of its own.
    ///
    /// # Errors
    ///
    /// `Memory` if allocation failed.
    fn copy(&self, alloc: Global) -> Result<Self, Refusal>
        ensures ok { IfOk result (λ entry. entry ≡ self.now) }
        ensures cause { IfErr result (λ refusal. refusal ≡ Refusal.Memory) };

    // Only equal entries tie.
    ghost exact: { IsAntisymmetric Self.cmp };
}

/// A key to search for an entry: `&entry` itself, or a tuple of references to its parts, so that
/// nothing has to be copied for the search.
pub trait Probe<K: Ord>: Copy {
    // The entry with these parts.
    ghost entry: { Self → K };

    /// How `other` compares with the entry with these parts.
    fn compare(&self, other: &K) -> Ordering
        ensures { result ≡ K.cmp other.now (entry self.now) };
}

/// A key to search for all entries that begin with the same parts: a reference to a name, or a pair
/// of references to names for triples.
pub trait Prefix<K: Ord>: Copy {
    // How the first parts of an entry compare with these.
    ghost place: { Self → K → Ordering };

    /// How the first parts of `other` compare with these.
    fn compare(&self, other: &K) -> Ordering
        ensures { result ≡ place self.now other.now };

    // The first parts of a greater entry are not less.
    ghost rises: { (prefix : Self) (x y : K) → K.cmp x y ≡ Less → ordering_index (place prefix x) ≤ ordering_index (place prefix y) };
}

/// A set of entries, kept in their order in one piece of memory.
///
/// An entry is found by binary search. Only `reserve` and `copy` allocate: once room is reserved,
/// entries are inserted without allocation, and so without a refusal. In contracts the value is the
/// entries in their order and the room for more; `set_of` is the set of the entries.
#[derive(Drop)]
pub struct SortedSet<K: Entry> {
    entries: Vec<K>,
}

impl<K: Entry> Model for SortedSet<K> {
    ghost use Rattle.std.specs.Prelude.{vec_len, vec_capacity, ◌-◌};
    ghost use Rattle.std.specs.List.Sorted.{IsStrictlySortedBy};
    ghost use Rattle.rbac_sets.specs.SortedSet.{Stored, stored_code};

    ghost Value = { Stored K };

    ghost coded = { stored_code K.code };

    ghost view = { λ s. record { in_order = s.entries.items; room = vec_capacity s.entries - vec_len s.entries } };

    ghost invariant = { λ s. IsStrictlySortedBy K.cmp s.entries.items };
}

impl<K: Entry> SortedSet<K> {
    /// The set without entries. It doesn't allocate yet.
    pub fn new(alloc: Global) -> SortedSet<K>
        ensures { set_of K.cmp result ≡ empty }
    {
        SortedSet {
            entries: Vec::new(alloc),
        }
    }

    /// How many entries there are.
    pub fn len(&self) -> usize
        ensures { result ≡ len (set_of K.cmp self.now) }
    {
        self.entries.len()
    }

    /// Whether there is no entry.
    pub fn is_empty(&self) -> bool
        ensures { IsTrue result ↔ (len (set_of K.cmp self.now) ≡ 0) }
    {
        self.len() == 0
    }

    /// How many more entries can be inserted without allocation.
    pub fn room(&self) -> usize
        ensures { result ≡ self.now.room }
    {
        self.entries.capacity() - self.entries.len()
    }

    /// Whether the entry that `probe` looks for is there.
    pub fn contains<P: Probe<K>>(&self, probe: P) -> bool
        ensures { result ≡ contains (set_of K.cmp self.now) (P.entry probe) }
    {
        place(&self.entries, probe).is_ok()
    }

    /// Whether no entry is in both sets.
    pub fn is_disjoint(&self, other: &SortedSet<K>) -> bool
        ensures { IsTrue result ↔ IsDisjoint (set_of K.cmp self.now) (set_of K.cmp other.now) }
    {
        has_none_of(&self.entries, other)
    }

    /// Reserves room for at least `count` more entries.
    ///
    /// # Errors
    ///
    /// `Memory` if allocation failed. The entries are kept in any case.
    pub fn reserve(&mut self, count: usize) -> Result<(), Refusal>
        ensures ok { OnOk result (count ≤ self.new.room) }
        ensures keeps { set_of K.cmp self.new ≡ set_of K.cmp self.old }
        ensures room { self.old.room ≤ self.new.room }
        ensures cause { IfErr result (λ refusal. refusal ≡ Refusal.Memory) }
    {
        self.entries.reserve(count)?;
        Ok(())
    }

    /// Inserts an entry that is not there, into reserved room.
    ///
    /// It doesn't allocate and can't fail.
    pub fn insert_reserved(&mut self, entry: K)
        requires absent { contains (set_of K.cmp self.old) entry ≡ false }
        requires room { 1 ≤ self.old.room }
        ensures inserted { set_of K.cmp self.new ≡ insert (set_of K.cmp self.old) entry }
        ensures room { self.old.room ≤ self.new.room + 1 }
    {
        let gap = place(&self.entries, &entry).unwrap_err();
        self.entries.insert(gap, entry).unwrap();
    }

    /// Removes the entry that `probe` looks for, and returns whether it was there.
    pub fn remove<P: Probe<K>>(&mut self, probe: P) -> bool
        ensures was_there { result ≡ contains (set_of K.cmp self.old) (P.entry probe) }
        ensures removed { set_of K.cmp self.new ≡ remove (set_of K.cmp self.old) (P.entry probe) }
        ensures room { self.old.room ≤ self.new.room }
    {
        match place(&self.entries, probe) {
            Ok(at) => {
                self.entries.remove(at);
                true
            }
            Err(_) => false,
        }
    }

    /// The entries in their order.
    pub fn as_slice(&self) -> &[K]
        ensures { result.now ≡ members (set_of K.cmp self.now) }
    {
        &self.entries
    }

    /// The entries in their order, without the set around them. It doesn't allocate.
    pub fn into_entries(self) -> Vec<K>
        ensures entries { result.items ≡ members (set_of K.cmp self) }
        ensures sorted { IsStrictlySortedBy K.cmp result.items }
    {
        let SortedSet { entries } = self;
        entries
    }

    /// The entries one by one, in their order.
    pub fn iter(&self) -> Iter<'_, K>
        ensures { iter_rest result ≡ members (set_of K.cmp self.now) }
    {
        self.as_slice().iter()
    }

    /// The entries that begin with the parts of `prefix`, in their order.
    pub fn with_first<P: Prefix<K>>(&self, prefix: P) -> &[K]
        ensures { result.now ≡ filter (λ entry. is_eq (P.place prefix entry)) (members (set_of K.cmp self.now)) }
    {
        run(&self.entries, prefix)
    }

    /// Inserts an entry that is greater than all that are there, into reserved room, without a search. It
    /// doesn't allocate and can't fail.
    pub fn push_last(&mut self, entry: K)
        requires above { (x : K) → contains (set_of K.cmp self.old) x ≡ true → K.cmp x entry ≡ Less }
        requires room { 1 ≤ self.old.room }
        ensures inserted { set_of K.cmp self.new ≡ insert (set_of K.cmp self.old) entry }
        ensures room { self.old.room ≤ self.new.room + 1 }
    {
        self.entries.push(entry).unwrap();
    }

    /// Inserts all entries of `other`, none of which is there, into reserved room.
    ///
    /// It searches the place of each entry of `other`, and moves what lies between two of them as a block. It doesn't allocate and
    /// can't fail.
    pub fn merge_reserved(&mut self, other: SortedSet<K>)
        requires disjoint { IsDisjoint (set_of K.cmp self.old) (set_of K.cmp other) }
        requires room { len (set_of K.cmp other) ≤ self.old.room }
        ensures merged { set_of K.cmp self.new ≡ union (set_of K.cmp self.old) (set_of K.cmp other) }
        ensures room { self.old.room ≤ self.new.room + len (set_of K.cmp other) }
    {
        let nothing = Vec::new(*self.entries.allocator());
        let entries = mem::replace(&mut self.entries, nothing);
        self.entries = merge(entries, other.entries);
    }

    /// Removes each entry of `other` that is there.
    ///
    /// It searches each entry of `other` from the place of the one before it on, and moves no entry more than once.
    pub fn take_all(&mut self, other: &SortedSet<K>)
        ensures taken { set_of K.cmp self.new ≡ difference (set_of K.cmp self.old) (set_of K.cmp other.now) }
        ensures room { self.old.room ≤ self.new.room }
    {
        let mut removal = self.start_removal();
        for entry in &other.entries {
            removal.take(entry);
        }
        *self = removal.into_set();
    }

    /// Starts the removal of entries one after another: returns the set from which they are removed, and
    /// leaves an empty set here. It doesn't allocate.
    pub fn start_removal(&mut self) -> SetRemoval<K>
        ensures taking { set_of K.cmp result ≡ set_of K.cmp self.old }
        ensures room { self.old.room ≤ result.room }
        ensures left { set_of K.cmp self.new ≡ empty }
    {
        let nothing = Vec::new(*self.entries.allocator());
        SetRemoval::new(mem::replace(&mut self.entries, nothing))
    }

    // The set of these sorted entries.
    pub(crate) fn of_entries(entries: Vec<K>) -> SortedSet<K>
        requires { IsStrictlySortedBy K.cmp entries.items }
        ensures entries { result.in_order ≡ entries.items }
        ensures room { vec_len entries + result.room ≡ vec_capacity entries }
    {
        SortedSet { entries }
    }

    /// A copy of the set, in memory of its own.
    ///
    /// # Errors
    ///
    /// `Memory` if allocation failed.
    pub fn copy(&self, alloc: Global) -> Result<SortedSet<K>, Refusal>
        ensures ok { IfOk result (λ copy. set_of K.cmp copy ≡ set_of K.cmp self.now) }
        ensures cause { IfErr result (λ refusal. refusal ≡ Refusal.Memory) }
    {
        let mut entries = Vec::new(alloc);
        entries.reserve(self.entries.len())?;
        for entry in &self.entries {
            entries.push(entry.copy(alloc)?)?;
        }
        Ok(SortedSet { entries })
    }
}

impl<K: Entry> Probe<K> for &K {
    ghost entry = { λ r. r.now };

    fn compare(&self, other: &K) -> Ordering {
        other.cmp(*self)
    }
}

/// The place of the entry that `probe` looks for in these sorted entries.
///
/// # Errors
///
/// The place at which the entry would have to be inserted, if it is not there.
pub fn place<K: Entry, P: Probe<K>>(entries: &[K], probe: P) -> Result<usize, usize>
    requires { IsStrictlySortedBy K.cmp entries.now }
    ensures found { IfOk result (λ i. (i < length entries.now) × HoldsAt (λ y. K.cmp y (P.entry probe) ≡ Equal) entries.now i) }
    ensures gap { IfErr result (λ i. (i ≤ length entries.now)
        × IsPartitionPoint (λ y. K.cmp y (P.entry probe) ≡ Less) (λ y. K.cmp y (P.entry probe) ≡ Greater) entries.now i) }
{
    entries.binary_search_by(|entry| probe.compare(entry))
}

// Whether none of the entries is in the set.
fn has_none_of<K: Entry>(entries: &[K], set: &SortedSet<K>) -> bool
    ensures { result ≡ list_all (λ entry. not (contains (set_of K.cmp set.now) entry)) entries.now }
{
    entries.iter().all(|entry| !set.contains(entry))
}

// The entries that begin with these parts.
fn run<K: Entry, P: Prefix<K>>(entries: &[K], prefix: P) -> &[K]
    requires { IsStrictlySortedBy K.cmp entries.now }
    ensures { result.now ≡ filter (λ entry. is_eq (P.place prefix entry)) entries.now }
{
    let (start, count) = span(entries, prefix);
    &entries[start..start + count]
}

// The place of the first entry that begins with these parts, and how many such entries there are.
fn span<K: Entry, P: Prefix<K>>(entries: &[K], prefix: P) -> (usize, usize)
    requires { IsStrictlySortedBy K.cmp entries.now }
    ensures within { result.0 + result.1 ≤ length entries.now }
    ensures those { take result.1 (drop result.0 entries.now) ≡ filter (λ entry. is_eq (P.place prefix entry)) entries.now }
{
    let start = entries.partition_point(|entry| prefix.compare(entry).is_lt());
    let count = count_first(&entries[start..], prefix);
    (start, count)
}

// How many entries begin with these parts, if they come first. Its time grows with the logarithm of
// this number, not with that of the number of entries.
fn count_first<K: Entry, P: Prefix<K>>(entries: &[K], prefix: P) -> usize
    requires { IsPartitionedBy (λ entry. is_eq (P.place prefix entry)) entries.now }
    ensures bound { result ≤ length entries.now }
    ensures ends { IsPartitionPoint (λ entry. is_eq (P.place prefix entry) ≡ true) (λ entry. is_eq (P.place prefix entry) ≡ false) entries.now result }
{
    let bound = bound_of_first(entries, prefix);
    let near = &entries[..bound];
    near.partition_point(|entry| prefix.compare(entry).is_eq())
}

// A place after all entries that begin with these parts, if they come first. It is found by doubling,
// and is at most twice the place of the last of them, or is 1.
fn bound_of_first<K: Entry, P: Prefix<K>>(entries: &[K], prefix: P) -> usize
    requires { IsPartitionedBy (λ entry. is_eq (P.place prefix entry)) entries.now }
    ensures bound { result ≤ length entries.now }
    ensures behind { AllWithin (λ entry. is_eq (P.place prefix entry) ≡ false) entries.now result (length entries.now) }
{
    let mut bound = 1;
    while bound < entries.len() && prefix.compare(&entries[bound]).is_eq() {
        bound = bound.saturating_mul(2);
    }
    bound.min(entries.len())
}
