//! A pass over chunks, in which entries are inserted in their order. Each chunk is moved at most once.
ghost use Rattle.std.specs.Prelude.{ℕ, ◌≡◌, ◌+◌, ◌-◌, ◌<◌, ◌≤◌, ◌^◌, ◌||◌, [], length, drop, vec_len, vec_capacity, false};
ghost use Rattle.std.specs.VecDeque.{deque_len, deque_capacity};
ghost use Rattle.std.specs.List.{list_any};
ghost use Rattle.std.specs.List.Sorted.{IsStrictlySortedBy};
ghost use Rattle.rbac_sets.specs.Sets.{IsDisjoint, contains, insert, union, from_list};
ghost use Rattle.chunked_sets.specs.Chunks.{entries_of};
ghost use Rattle.chunked_sets.specs.private.Chunks.{AreChunks, AreSpare};
ghost use Rattle.chunked_sets.specs.private.Rooms.{HasRoom};
ghost use Rattle.chunked_sets.specs.private.Growth.{GrowsBy};
ghost use Rattle.chunked_sets.specs.private.Places.{IsHome};
ghost use Rattle.chunked_sets.specs.private.Passes.{chunks_in, entries_in, HasPassed};

use crate::chunks::{CHUNK, begins_before, halve, insert_into, take_spare};
use rbac_sets::{Entry, Probe, place};
use std::collections::VecDeque;
use std::mem;

/// Chunks in the course of a pass. The ring has first the chunks ahead, then those that were passed.
#[derive(Drop)]
struct Pass<K: Entry> {
    ring: VecDeque<Vec<K>>,
    ahead: usize,
    current: Vec<K>,
}

/// Starts at the first chunk.
fn start<K: Entry>(chunks: Vec<Vec<K>>) -> Pass<K>
    requires { 0 < vec_len chunks }
    ensures same { chunks_in result ≡ chunks.items }
    ensures first { drop result.ahead result.ring.items ≡ [] }
    ensures ahead { result.ahead ≤ deque_len result.ring }
    ensures len { deque_len result.ring + 1 ≡ vec_len chunks }
    ensures capacity { deque_capacity result.ring ≡ vec_capacity chunks }
{
    let mut ring = VecDeque::from_vec(chunks);
    let current = ring.pop_front().unwrap();
    let ahead = ring.len();
    Pass {
        ring,
        ahead,
        current,
    }
}

/// All chunks after the pass.
fn finish<K: Entry>(pass: Pass<K>) -> Vec<Vec<K>>
    requires ahead { pass.ahead ≤ deque_len pass.ring }
    requires room { deque_len pass.ring < deque_capacity pass.ring }
    ensures same { result.items ≡ chunks_in pass }
    ensures len { vec_len result ≡ deque_len pass.ring + 1 }
    ensures capacity { vec_capacity result ≡ deque_capacity pass.ring }
{
    let Pass {
        mut ring,
        ahead,
        current,
    } = pass;
    ring.push_front(current).unwrap();
    ring.rotate_left(ahead + 1);
    ring.into_vec()
}

/// Goes on to the chunk in which an entry is, or belongs if it isn't there.
fn seek<K: Entry, P: Probe<K>>(pass: &mut Pass<K>, probe: P)
    requires chunks { AreChunks (chunks_in pass.old) }
    requires sorted { IsStrictlySortedBy K.cmp (entries_in pass.old) }
    requires passed { HasPassed K.cmp (P.entry probe) pass.old.ahead pass.old.ring.items }
    requires ahead { pass.old.ahead ≤ deque_len pass.old.ring }
    requires room { deque_len pass.old.ring < deque_capacity pass.old.ring }
    ensures same { chunks_in pass.new ≡ chunks_in pass.old }
    ensures home { IsHome K.cmp (P.entry probe) (chunks_in pass.new) (length pass.new.ring.items - pass.new.ahead) }
    ensures ahead { pass.new.ahead ≤ deque_len pass.new.ring }
    ensures len { deque_len pass.new.ring ≡ deque_len pass.old.ring }
    ensures capacity { deque_capacity pass.new.ring ≡ deque_capacity pass.old.ring }
{
    while pass.ahead > 0 && begins_before(&pass.ring[0], probe) {
        let next = pass.ring.pop_front().unwrap();
        let passed = mem::replace(&mut pass.current, next);
        pass.ring.push_back(passed).unwrap();
        pass.ahead -= 1;
    }
}

/// Splits the current chunk, which is full, and goes on to the half in which an entry belongs.
fn split<K: Entry>(pass: &mut Pass<K>, mut upper: Vec<K>, entry: &K)
    requires chunks { AreChunks (chunks_in pass.old) }
    requires sorted { IsStrictlySortedBy K.cmp (entries_in pass.old) }
    requires home { IsHome K.cmp entry.now (chunks_in pass.old) (length pass.old.ring.items - pass.old.ahead) }
    requires full { vec_len pass.old.current ≡ CHUNK }
    requires empty { vec_len upper ≡ 0 }
    requires memory { CHUNK ≤ vec_capacity upper }
    requires ahead { pass.old.ahead ≤ deque_len pass.old.ring }
    requires room { deque_len pass.old.ring < deque_capacity pass.old.ring }
    ensures same { entries_in pass.new ≡ entries_in pass.old }
    ensures chunks { AreChunks (chunks_in pass.new) }
    ensures weight { GrowsBy 0 (chunks_in pass.old) (chunks_in pass.new) }
    ensures home { IsHome K.cmp entry.now (chunks_in pass.new) (length pass.new.ring.items - pass.new.ahead) }
    ensures free { vec_len pass.new.current < CHUNK }
    ensures ahead { pass.new.ahead ≤ deque_len pass.new.ring }
    ensures len { deque_len pass.new.ring ≡ deque_len pass.old.ring + 1 }
    ensures capacity { deque_capacity pass.new.ring ≡ deque_capacity pass.old.ring }
{
    halve(&mut pass.current, &mut upper);
    if begins_before(&upper, entry) {
        let lower = mem::replace(&mut pass.current, upper);
        pass.ring.push_back(lower).unwrap();
    } else {
        pass.ring.push_front(upper).unwrap();
        pass.ahead += 1;
    }
}

/// Goes on to the chunk in which an entry belongs, and splits it if it is full.
fn make_space<K: Entry>(pass: &mut Pass<K>, spare: &mut Vec<Vec<K>>, entry: &K)
    requires chunks { AreChunks (chunks_in pass.old) }
    requires sorted { IsStrictlySortedBy K.cmp (entries_in pass.old) }
    requires passed { HasPassed K.cmp entry.now pass.old.ahead pass.old.ring.items }
    requires ahead { pass.old.ahead ≤ deque_len pass.old.ring }
    requires listed { deque_len pass.old.ring < deque_capacity pass.old.ring }
    requires few { deque_len pass.old.ring < 2 ^ 56 }
    requires spare { AreSpare spare.old.items }
    requires room { HasRoom 1 (chunks_in pass.old) (deque_capacity pass.old.ring) spare.old }
    ensures same { entries_in pass.new ≡ entries_in pass.old }
    ensures chunks { AreChunks (chunks_in pass.new) }
    ensures weight { GrowsBy 0 (chunks_in pass.old) (chunks_in pass.new) }
    ensures home { IsHome K.cmp entry.now (chunks_in pass.new) (length pass.new.ring.items - pass.new.ahead) }
    ensures free { vec_len pass.new.current < CHUNK }
    ensures ahead { pass.new.ahead ≤ deque_len pass.new.ring }
    ensures len { deque_len pass.new.ring ≤ deque_len pass.old.ring + 1 }
    ensures listed { deque_len pass.new.ring < deque_capacity pass.new.ring }
    ensures few { deque_len pass.new.ring < 2 ^ 56 }
    ensures capacity { deque_capacity pass.new.ring ≡ deque_capacity pass.old.ring }
    ensures spare { AreSpare spare.new.items }
    ensures total { deque_len pass.new.ring + vec_len spare.new ≡ deque_len pass.old.ring + vec_len spare.old }
    ensures spare_capacity { vec_capacity spare.new ≡ vec_capacity spare.old }
{
    seek(pass, entry);
    if pass.current.len() == CHUNK {
        let upper = take_spare(spare);
        split(pass, upper, entry);
    }
}

/// Inserts an entry that is not there, in the course of a pass.
fn put<K: Entry>(pass: &mut Pass<K>, spare: &mut Vec<Vec<K>>, entry: K)
    requires chunks { AreChunks (chunks_in pass.old) }
    requires sorted { IsStrictlySortedBy K.cmp (entries_in pass.old) }
    requires passed { HasPassed K.cmp entry pass.old.ahead pass.old.ring.items }
    requires absent { contains (from_list {R = K.cmp} (entries_in pass.old)) entry ≡ false }
    requires ahead { pass.old.ahead ≤ deque_len pass.old.ring }
    requires listed { deque_len pass.old.ring < deque_capacity pass.old.ring }
    requires few { deque_len pass.old.ring < 2 ^ 56 }
    requires spare { AreSpare spare.old.items }
    requires room { HasRoom 1 (chunks_in pass.old) (deque_capacity pass.old.ring) spare.old }
    ensures chunks { AreChunks (chunks_in pass.new) }
    ensures sorted { IsStrictlySortedBy K.cmp (entries_in pass.new) }
    ensures passed { HasPassed K.cmp entry pass.new.ahead pass.new.ring.items }
    ensures inserted { from_list {R = K.cmp} (entries_in pass.new) ≡ insert (from_list (entries_in pass.old)) entry }
    ensures entry_count { length (entries_in pass.new) ≡ length (entries_in pass.old) + 1 }
    ensures ahead { pass.new.ahead ≤ deque_len pass.new.ring }
    ensures listed { deque_len pass.new.ring < deque_capacity pass.new.ring }
    ensures few { deque_len pass.new.ring < 2 ^ 56 }
    ensures spare { AreSpare spare.new.items }
    ensures room { (k : ℕ) → HasRoom (k + 1) (chunks_in pass.old) (deque_capacity pass.old.ring) spare.old → HasRoom k (chunks_in pass.new) (deque_capacity pass.new.ring) spare.new }
{
    make_space(pass, spare, &entry);
    let gap = place(&pass.current, &entry).unwrap_err();
    pass.current.insert(gap, entry).unwrap();
}

/// Inserts all of these sorted entries, none of which is there, in one pass.
fn merge_pass<K: Entry>(chunks: Vec<Vec<K>>, spare: &mut Vec<Vec<K>>, others: Vec<K>) -> Vec<Vec<K>>
    requires some { 0 < vec_len chunks }
    requires chunks { AreChunks chunks.items }
    requires sorted { IsStrictlySortedBy K.cmp (entries_of chunks.items) }
    requires others_sorted { IsStrictlySortedBy K.cmp others.items }
    requires disjoint { IsDisjoint (from_list {R = K.cmp} (entries_of chunks.items)) (from_list {R = K.cmp} others.items) }
    requires few { vec_len chunks ≤ 2 ^ 56 }
    requires spare { AreSpare spare.old.items }
    requires room { HasRoom (vec_len others) chunks.items (vec_capacity chunks) spare.old }
    ensures chunks { AreChunks result.items }
    ensures sorted { IsStrictlySortedBy K.cmp (entries_of result.items) }
    ensures both { from_list {R = K.cmp} (entries_of result.items) ≡ union (from_list (entries_of chunks.items)) (from_list others.items) }
    ensures entry_count { length (entries_of result.items) ≡ length (entries_of chunks.items) + vec_len others }
    ensures few { vec_len result ≤ 2 ^ 56 }
    ensures spare { AreSpare spare.new.items }
    ensures room { (k : ℕ) → HasRoom (k + vec_len others) chunks.items (vec_capacity chunks) spare.old → HasRoom k result.items (vec_capacity result) spare.new }
{
    let mut pass = start(chunks);
    let mut rest = VecDeque::from_vec(others);
    while let Some(entry) = rest.pop_front() {
        put(&mut pass, spare, entry);
    }
    finish(pass)
}

/// Inserts all of these sorted entries, none of which is there, into chunks of which there may be none.
fn insert_each<K: Entry>(
    chunks: Vec<Vec<K>>,
    spare: &mut Vec<Vec<K>>,
    others: Vec<K>,
) -> Vec<Vec<K>>
    requires chunks { AreChunks chunks.items }
    requires sorted { IsStrictlySortedBy K.cmp (entries_of chunks.items) }
    requires others_sorted { IsStrictlySortedBy K.cmp others.items }
    requires disjoint { IsDisjoint (from_list {R = K.cmp} (entries_of chunks.items)) (from_list {R = K.cmp} others.items) }
    requires few { vec_len chunks ≤ 2 ^ 56 }
    requires spare { AreSpare spare.old.items }
    requires room { HasRoom (vec_len others) chunks.items (vec_capacity chunks) spare.old }
    ensures chunks { AreChunks result.items }
    ensures sorted { IsStrictlySortedBy K.cmp (entries_of result.items) }
    ensures both { from_list {R = K.cmp} (entries_of result.items) ≡ union (from_list (entries_of chunks.items)) (from_list others.items) }
    ensures entry_count { length (entries_of result.items) ≡ length (entries_of chunks.items) + vec_len others }
    ensures few { vec_len result ≤ 2 ^ 56 }
    ensures spare { AreSpare spare.new.items }
    ensures room { (k : ℕ) → HasRoom (k + vec_len others) chunks.items (vec_capacity chunks) spare.old → HasRoom k result.items (vec_capacity result) spare.new }
{
    let mut all = chunks;
    let mut rest = VecDeque::from_vec(others);
    while let Some(entry) = rest.pop_front() {
        insert_into(&mut all, spare, entry);
    }
    all
}

/// Inserts all of these sorted entries, none of which is there. It goes once through the chunks, and takes a spare chunk for
/// each one that is full when an entry belongs in it.
pub(crate) fn merge_into<K: Entry>(
    chunks: Vec<Vec<K>>,
    spare: &mut Vec<Vec<K>>,
    others: Vec<K>,
) -> Vec<Vec<K>>
    requires chunks { AreChunks chunks.items }
    requires sorted { IsStrictlySortedBy K.cmp (entries_of chunks.items) }
    requires others_sorted { IsStrictlySortedBy K.cmp others.items }
    requires disjoint { IsDisjoint (from_list {R = K.cmp} (entries_of chunks.items)) (from_list {R = K.cmp} others.items) }
    requires few { vec_len chunks ≤ 2 ^ 56 }
    requires spare { AreSpare spare.old.items }
    requires room { HasRoom (vec_len others) chunks.items (vec_capacity chunks) spare.old }
    ensures chunks { AreChunks result.items }
    ensures sorted { IsStrictlySortedBy K.cmp (entries_of result.items) }
    ensures both { from_list {R = K.cmp} (entries_of result.items) ≡ union (from_list (entries_of chunks.items)) (from_list others.items) }
    ensures entry_count { length (entries_of result.items) ≡ length (entries_of chunks.items) + vec_len others }
    ensures few { vec_len result ≤ 2 ^ 56 }
    ensures spare { AreSpare spare.new.items }
    ensures room { (k : ℕ) → HasRoom (k + vec_len others) chunks.items (vec_capacity chunks) spare.old → HasRoom k result.items (vec_capacity result) spare.new }
{
    if chunks.is_empty() {
        return insert_each(chunks, spare, others);
    }
    merge_pass(chunks, spare, others)
}
