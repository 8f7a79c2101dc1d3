//! Lists of chunks: the chunk of an entry, and insertion and removal in one chunk.
ghost use Rattle.std.specs.Prelude.{ℕ, ◌∷◌, OnOk, IfErr, MatchOption, ◌≡◌, ◌+◌, ◌*◌, ◌<◌, ◌≤◌, ◌^◌, ◌⊎◌, length, vec_len, vec_capacity, true, false, [], ◌++◌, IsTrue};
ghost use Rattle.std.specs.List.{HoldsAt};
ghost use Rattle.std.specs.List.Sorted.{IsStrictlySortedBy};
ghost use Rattle.std.specs.Ordering.{is_le};
ghost use Rattle.rbac_sets.specs.Sets.{contains, insert, remove, from_list};
ghost use Rattle.chunked_sets.specs.Chunks.{entries_of};
ghost use Rattle.chunked_sets.specs.private.Chunks.{AreChunks, AreSpare};
ghost use Rattle.chunked_sets.specs.private.Rooms.{weight_of, IsLight, HasRoom};
ghost use Rattle.chunked_sets.specs.private.Growth.{GrowsBy};
ghost use Rattle.chunked_sets.specs.private.Places.{first_passes, IsHome};

use rbac_sets::{Entry, Probe, Refusal, place};
use std::alloc::Global;

/// How many entries a chunk has at most.
pub(crate) const CHUNK: usize = 128;

/// How many chunks there are at most, so that their entries can be counted.
pub(crate) const MOST_CHUNKS: usize = 0x0100_0000_0000_0000;

/// Whether the chunk's first entry is not greater than the one that `probe` looks for.
pub(crate) fn begins_before<K: Entry, P: Probe<K>>(chunk: &[K], probe: P) -> bool
    ensures { result ≡ first_passes (λ y. is_le (K.cmp y (P.entry probe))) chunk.now }
{
    match chunk.first() {
        Some(first) => probe.compare(first).is_le(),
        None => false,
    }
}

/// The place of the chunk in which the entry that `probe` looks for is, or belongs if it isn't there.
pub(crate) fn chunk_of<K: Entry, P: Probe<K>>(chunks: &[Vec<K>], probe: P) -> usize
    requires chunks { AreChunks chunks.now }
    requires sorted { IsStrictlySortedBy K.cmp (entries_of chunks.now) }
    requires some { 0 < length chunks.now }
    ensures { IsHome K.cmp (P.entry probe) chunks.now result }
{
    let after = chunks.partition_point(|chunk| begins_before(chunk, probe));
    if after == 0 { 0 } else { after - 1 }
}

/// Moves the upper half of a full chunk into an empty one.
pub(crate) fn halve<K>(lower: &mut Vec<K>, upper: &mut Vec<K>)
    requires full { vec_len lower.old ≡ CHUNK }
    requires empty { vec_len upper.old ≡ 0 }
    requires memory { CHUNK ≤ vec_capacity upper.old }
    ensures same { lower.new.items ++ upper.new.items ≡ lower.old.items }
    ensures half { vec_len lower.new ≡ 64 }
    ensures rest { vec_len upper.new ≡ 64 }
    ensures capacity { vec_capacity lower.new ≡ vec_capacity lower.old }
    ensures upper_capacity { CHUNK ≤ vec_capacity upper.new }
{
    while lower.len() > CHUNK / 2 {
        let last = lower.pop().unwrap();
        upper.push(last).unwrap();
    }
    upper.reverse();
}

/// Inserts an entry that is not there into its chunk, which isn't full.
pub(crate) fn put_in<K: Entry>(chunks: &mut Vec<Vec<K>>, at: usize, entry: K)
    requires chunks { AreChunks chunks.old.items }
    requires sorted { IsStrictlySortedBy K.cmp (entries_of chunks.old.items) }
    requires home { IsHome K.cmp entry chunks.old.items at }
    requires free { HoldsAt (λ chunk. vec_len chunk < CHUNK) chunks.old.items at }
    requires absent { contains (from_list {R = K.cmp} (entries_of chunks.old.items)) entry ≡ false }
    ensures chunks { AreChunks chunks.new.items }
    ensures sorted { IsStrictlySortedBy K.cmp (entries_of chunks.new.items) }
    ensures inserted { from_list {R = K.cmp} (entries_of chunks.new.items) ≡ insert (from_list (entries_of chunks.old.items)) entry }
    ensures entry_count { length (entries_of chunks.new.items) ≡ length (entries_of chunks.old.items) + 1 }
    ensures weight { GrowsBy 1 chunks.old.items chunks.new.items }
    ensures len { vec_len chunks.new ≡ vec_len chunks.old }
    ensures capacity { vec_capacity chunks.new ≡ vec_capacity chunks.old }
{
    let chunk = &mut chunks[at];
    let gap = place(chunk, &entry).unwrap_err();
    chunk.insert(gap, entry).unwrap();
}

/// Splits a full chunk, with an empty one for its upper half, and returns which half an entry belongs in.
pub(crate) fn split_for<K: Entry>(
    chunks: &mut Vec<Vec<K>>,
    at: usize,
    mut upper: Vec<K>,
    entry: &K,
) -> usize
    requires chunks { AreChunks chunks.old.items }
    requires sorted { IsStrictlySortedBy K.cmp (entries_of chunks.old.items) }
    requires home { IsHome K.cmp entry.now chunks.old.items at }
    requires full { HoldsAt (λ chunk. vec_len chunk ≡ CHUNK) chunks.old.items at }
    requires empty { vec_len upper ≡ 0 }
    requires memory { CHUNK ≤ vec_capacity upper }
    requires room { vec_len chunks.old < vec_capacity chunks.old }
    ensures home { IsHome K.cmp entry.now chunks.new.items result }
    ensures free { HoldsAt (λ chunk. vec_len chunk < CHUNK) chunks.new.items result }
    ensures same { entries_of chunks.new.items ≡ entries_of chunks.old.items }
    ensures chunks { AreChunks chunks.new.items }
    ensures weight { GrowsBy 0 chunks.old.items chunks.new.items }
    ensures len { vec_len chunks.new ≡ vec_len chunks.old + 1 }
    ensures capacity { vec_capacity chunks.new ≡ vec_capacity chunks.old }
{
    halve(&mut chunks[at], &mut upper);
    let is_above = begins_before(&upper, entry);
    chunks.insert(at + 1, upper).unwrap();
    if is_above { at + 1 } else { at }
}

/// Makes the first chunk of an empty one.
fn begin<K: Entry>(chunks: &mut Vec<Vec<K>>, mut chunk: Vec<K>, entry: K)
    requires nothing { vec_len chunks.old ≡ 0 }
    requires empty { vec_len chunk ≡ 0 }
    requires memory { CHUNK ≤ vec_capacity chunk }
    requires room { 1 ≤ vec_capacity chunks.old }
    ensures entries { entries_of chunks.new.items ≡ entry ∷ [] }
    ensures chunks { AreChunks chunks.new.items }
    ensures weight { GrowsBy 1 chunks.old.items chunks.new.items }
    ensures len { vec_len chunks.new ≡ 1 }
    ensures capacity { vec_capacity chunks.old ≤ vec_capacity chunks.new }
{
    chunk.push(entry).unwrap();
    chunks.push(chunk).unwrap();
}

/// Takes a spare chunk.
pub(crate) fn take_spare<K: Entry>(spare: &mut Vec<Vec<K>>) -> Vec<K>
    requires spare { AreSpare spare.old.items }
    requires one { 1 ≤ vec_len spare.old }
    ensures empty { vec_len result ≡ 0 }
    ensures memory { CHUNK ≤ vec_capacity result }
    ensures spare { AreSpare spare.new.items }
    ensures len { vec_len spare.new + 1 ≡ vec_len spare.old }
    ensures capacity { vec_capacity spare.new ≡ vec_capacity spare.old }
{
    spare.pop().unwrap()
}

/// Finds the chunk in which an entry belongs, and splits it if it is full.
fn home_for<K: Entry>(chunks: &mut Vec<Vec<K>>, spare: &mut Vec<Vec<K>>, entry: &K) -> usize
    requires chunks { AreChunks chunks.old.items }
    requires sorted { IsStrictlySortedBy K.cmp (entries_of chunks.old.items) }
    requires some { 0 < vec_len chunks.old }
    requires few { vec_len chunks.old ≤ 2 ^ 56 }
    requires spare { AreSpare spare.old.items }
    requires room { HasRoom 1 chunks.old.items (vec_capacity chunks.old) spare.old }
    ensures home { IsHome K.cmp entry.now chunks.new.items result }
    ensures free { HoldsAt (λ chunk. vec_len chunk < CHUNK) chunks.new.items result }
    ensures same { entries_of chunks.new.items ≡ entries_of chunks.old.items }
    ensures chunks { AreChunks chunks.new.items }
    ensures weight { GrowsBy 0 chunks.old.items chunks.new.items }
    ensures len { vec_len chunks.new ≤ vec_len chunks.old + 1 }
    ensures few { vec_len chunks.new ≤ 2 ^ 56 }
    ensures capacity { vec_capacity chunks.new ≡ vec_capacity chunks.old }
    ensures spare { AreSpare spare.new.items }
    ensures total { vec_len chunks.new + vec_len spare.new ≡ vec_len chunks.old + vec_len spare.old }
    ensures spare_capacity { vec_capacity spare.new ≡ vec_capacity spare.old }
{
    let at = chunk_of(chunks, entry);
    if chunks[at].len() < CHUNK {
        return at;
    }
    let upper = take_spare(spare);
    split_for(chunks, at, upper, entry)
}

/// Inserts an entry that is not there. It takes a spare chunk if there is none, or if the entry's is full.
pub(crate) fn insert_into<K: Entry>(chunks: &mut Vec<Vec<K>>, spare: &mut Vec<Vec<K>>, entry: K)
    requires chunks { AreChunks chunks.old.items }
    requires sorted { IsStrictlySortedBy K.cmp (entries_of chunks.old.items) }
    requires absent { contains (from_list {R = K.cmp} (entries_of chunks.old.items)) entry ≡ false }
    requires few { vec_len chunks.old ≤ 2 ^ 56 }
    requires spare { AreSpare spare.old.items }
    requires room { HasRoom 1 chunks.old.items (vec_capacity chunks.old) spare.old }
    ensures chunks { AreChunks chunks.new.items }
    ensures sorted { IsStrictlySortedBy K.cmp (entries_of chunks.new.items) }
    ensures inserted { from_list {R = K.cmp} (entries_of chunks.new.items) ≡ insert (from_list (entries_of chunks.old.items)) entry }
    ensures entry_count { length (entries_of chunks.new.items) ≡ length (entries_of chunks.old.items) + 1 }
    ensures few { vec_len chunks.new ≤ 2 ^ 56 }
    ensures spare { AreSpare spare.new.items }
    ensures room { (k : ℕ) → HasRoom (k + 1) chunks.old.items (vec_capacity chunks.old) spare.old → HasRoom k chunks.new.items (vec_capacity chunks.new) spare.new }
{
    if chunks.is_empty() {
        let chunk = take_spare(spare);
        begin(chunks, chunk, entry);
        return;
    }
    let at = home_for(chunks, spare, &entry);
    put_in(chunks, at, entry);
}

/// Allocates spare chunks until there are `count`.
pub(crate) fn add_spare<K: Entry>(
    spare: &mut Vec<Vec<K>>,
    count: usize,
    alloc: Global,
) -> Result<(), Refusal>
    requires { AreSpare spare.old.items }
    ensures ok { OnOk result (count ≤ vec_len spare.new) }
    ensures spare { AreSpare spare.new.items }
    ensures len { vec_len spare.old ≤ vec_len spare.new }
    ensures capacity { vec_capacity spare.old ≤ vec_capacity spare.new }
    ensures cause { IfErr result (λ refusal. refusal ≡ Refusal.Memory) }
{
    while spare.len() < count {
        let chunk = Vec::with_capacity(alloc, CHUNK)?;
        spare.push(chunk)?;
    }
    Ok(())
}

/// What chunks weigh: `width` each, and 1 more for each entry in the last `width` places of its chunk.
fn weight<K: Entry>(chunks: &[Vec<K>], width: usize) -> usize
    requires chunks { AreChunks chunks.now }
    requires few { length chunks.now ≤ 2 ^ 56 }
    requires narrow { width ≤ 64 }
    ensures weight { result ≡ weight_of width chunks.now }
    ensures bound { result ≤ 128 * length chunks.now }
{
    let mut weight = 0;
    for chunk in chunks {
        weight += width + (chunk.len() + width).saturating_sub(CHUNK);
    }
    weight
}

/// The fewer of `most` chunks and of so many that they are enough by their weight at this width.
fn enough_at<K: Entry>(chunks: &[Vec<K>], count: usize, width: usize, most: usize) -> usize
    requires chunks { AreChunks chunks.now }
    requires few { length chunks.now + count ≤ 2 ^ 56 }
    requires narrow { width ≤ 64 }
    requires wide { 1 ≤ width }
    requires least { length chunks.now ≤ most }
    requires enough { (length chunks.now + count ≤ most) ⊎ IsLight count chunks.now most }
    ensures least { length chunks.now ≤ result }
    ensures fewer { result ≤ most }
    ensures enough { (length chunks.now + count ≤ result) ⊎ IsLight count chunks.now result }
{
    let enough = (weight(chunks, width) + count) / width + 1;
    if most <= enough {
        return most;
    }
    enough
}

/// How many chunks are enough for those that are there and `count` more entries, wherever these belong.
///
/// A half is full again after 64 insertions, but a chunk that is nearly full can be split at once. So the chunks are weighed.
/// At the width 64 there is a chunk more for each 64 of the entries and of those that chunks have beyond 64. At a lesser width
/// fewer entries of the chunks count, and those that come are divided by less. The least of these numbers is taken.
fn enough_for<K: Entry>(chunks: &[Vec<K>], count: usize) -> usize
    requires chunks { AreChunks chunks.now }
    requires few { length chunks.now + count ≤ 2 ^ 56 }
    ensures least { length chunks.now ≤ result }
    ensures fewer { result ≤ length chunks.now + count }
    ensures enough { (length chunks.now + count ≤ result) ⊎ IsLight count chunks.now result }
{
    let mut most = chunks.len() + count;
    // For few entries beside many chunks a chunk for each is about as few as can be, and not worth a pass over the chunks.
    if count <= 1 + chunks.len() / 64 {
        return most;
    }
    let mut width = CHUNK / 2;
    while width >= 4 {
        most = enough_at(chunks, count, width, most);
        width /= 2;
    }
    most
}

/// Makes room for `count` more entries.
pub(crate) fn make_room<K: Entry>(
    chunks: &mut Vec<Vec<K>>,
    spare: &mut Vec<Vec<K>>,
    count: usize,
    alloc: Global,
) -> Result<(), Refusal>
    requires chunks { AreChunks chunks.old.items }
    requires few { vec_len chunks.old ≤ 2 ^ 56 }
    requires spare { AreSpare spare.old.items }
    ensures ok { OnOk result (HasRoom count chunks.new.items (vec_capacity chunks.new) spare.new) }
    ensures same { chunks.new.items ≡ chunks.old.items }
    ensures len { vec_len chunks.new ≡ vec_len chunks.old }
    ensures spare { AreSpare spare.new.items }
    ensures room { (k : ℕ) → HasRoom k chunks.old.items (vec_capacity chunks.old) spare.old → HasRoom k chunks.new.items (vec_capacity chunks.new) spare.new }
    ensures cause { IfErr result (λ refusal. refusal ≡ Refusal.Memory) }
{
    if count > MOST_CHUNKS - chunks.len() {
        return Err(Refusal::Memory);
    }
    let most = enough_for(chunks, count);
    let more = most - chunks.len();
    chunks.reserve(more)?;
    if more == count {
        return add_spare(spare, more, alloc);
    }
    // The list of spare chunks can keep each chunk that is freed, since the room may rest on it.
    spare.reserve(most)?;
    add_spare(spare, more, alloc)
}
