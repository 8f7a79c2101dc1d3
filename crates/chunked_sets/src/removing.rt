//! Removal of an entry from its chunk. What is freed becomes a spare chunk.
ghost use Rattle.std.specs.Prelude.{ℕ, ◌≡◌, ◌+◌, ◌<◌, ◌≤◌, ◌↔◌, min, length, vec_len, vec_capacity, take, true, IsTrue, IsSome, IfSome};
ghost use Rattle.std.specs.Option.{is_some, OnSome};
ghost use Rattle.std.specs.List.{HoldsAt};
ghost use Rattle.std.specs.List.{remove as remove_at};
ghost use Rattle.std.specs.List.Sorted.{IsStrictlySortedBy};
ghost use Rattle.rbac_sets.specs.Sets.{contains, remove, from_list};
ghost use Rattle.chunked_sets.specs.Chunks.{entries_of};
ghost use Rattle.chunked_sets.specs.private.Chunks.{AreChunks, AreSpare};
ghost use Rattle.chunked_sets.specs.private.Rooms.{HasRoom};

use crate::chunks::chunk_of;
use rbac_sets::{Entry, Probe, place};

/// Two neighbours with no more entries than this together are joined. It is less than the size of a chunk, so
/// that a few insertions don't split them again.
const JOINED: usize = 112;

/// Keeps an empty chunk as a spare one, if there is memory for it in the list of these.
pub(crate) fn keep<K: Entry>(spare: &mut Vec<Vec<K>>, chunk: Vec<K>)
    requires spare { AreSpare spare.old.items }
    requires empty { vec_len chunk ≡ 0 }
    requires memory { 128 ≤ vec_capacity chunk }
    ensures spare { AreSpare spare.new.items }
    ensures len { vec_len spare.old ≤ vec_len spare.new }
    ensures kept { min (vec_len spare.old + 1) (vec_capacity spare.old) ≤ vec_len spare.new }
    ensures capacity { vec_capacity spare.old ≤ vec_capacity spare.new }
{
    if spare.len() < spare.capacity() {
        spare.push(chunk).unwrap();
    }
}

/// Joins a chunk with the next one if they have few entries together.
fn join<K: Entry>(chunks: &mut Vec<Vec<K>>, spare: &mut Vec<Vec<K>>, at: usize)
    requires chunks { AreChunks chunks.old.items }
    requires spare { AreSpare spare.old.items }
    requires within { at ≤ vec_len chunks.old }
    ensures within { at ≤ vec_len chunks.new }
    ensures same { entries_of chunks.new.items ≡ entries_of chunks.old.items }
    ensures chunks { AreChunks chunks.new.items }
    ensures len { vec_len chunks.new ≤ vec_len chunks.old }
    ensures spare { AreSpare spare.new.items }
    ensures room { (k : ℕ) → HasRoom k chunks.old.items (vec_capacity chunks.old) spare.old → HasRoom k chunks.new.items (vec_capacity chunks.new) spare.new }
{
    if at + 1 < chunks.len() && chunks[at].len() + chunks[at + 1].len() <= JOINED {
        let mut next = chunks.remove(at + 1);
        chunks[at].append(&mut next).unwrap();
        keep(spare, next);
    }
}

/// Joins the chunk at a place with its neighbours if they have few entries together.
pub(crate) fn tidy<K: Entry>(chunks: &mut Vec<Vec<K>>, spare: &mut Vec<Vec<K>>, at: usize)
    requires chunks { AreChunks chunks.old.items }
    requires spare { AreSpare spare.old.items }
    requires within { at ≤ vec_len chunks.old }
    ensures same { entries_of chunks.new.items ≡ entries_of chunks.old.items }
    ensures chunks { AreChunks chunks.new.items }
    ensures len { vec_len chunks.new ≤ vec_len chunks.old }
    ensures spare { AreSpare spare.new.items }
    ensures room { (k : ℕ) → HasRoom k chunks.old.items (vec_capacity chunks.old) spare.old → HasRoom k chunks.new.items (vec_capacity chunks.new) spare.new }
{
    join(chunks, spare, at);
    if at == 0 {
        return;
    }
    join(chunks, spare, at - 1);
}

/// Removes an entry from a chunk, and the chunk if it was the only one in it.
fn take_out<K: Entry>(chunks: &mut Vec<Vec<K>>, spare: &mut Vec<Vec<K>>, at: usize, found: usize)
    requires chunks { AreChunks chunks.old.items }
    requires spare { AreSpare spare.old.items }
    requires within { at < vec_len chunks.old }
    requires inside { HoldsAt (λ chunk. found < vec_len chunk) chunks.old.items at }
    ensures out { entries_of chunks.new.items ≡ remove_at (entries_of chunks.old.items) (length (entries_of (take at chunks.old.items)) + found) }
    ensures chunks { AreChunks chunks.new.items }
    ensures within { at ≤ vec_len chunks.new }
    ensures len { vec_len chunks.new ≤ vec_len chunks.old }
    ensures spare { AreSpare spare.new.items }
    ensures room { (k : ℕ) → HasRoom k chunks.old.items (vec_capacity chunks.old) spare.old → HasRoom k chunks.new.items (vec_capacity chunks.new) spare.new }
{
    if chunks[at].len() > 1 {
        chunks[at].remove(found);
        return;
    }
    let mut chunk = chunks.remove(at);
    chunk.clear();
    keep(spare, chunk);
}

/// Removes the entry that `probe` looks for, and returns the place of its chunk if it was there.
pub(crate) fn remove_from<K: Entry, P: Probe<K>>(
    chunks: &mut Vec<Vec<K>>,
    spare: &mut Vec<Vec<K>>,
    probe: P,
) -> Option<usize>
    requires chunks { AreChunks chunks.old.items }
    requires sorted { IsStrictlySortedBy K.cmp (entries_of chunks.old.items) }
    requires spare { AreSpare spare.old.items }
    ensures was_there { is_some result ≡ contains (from_list {R = K.cmp} (entries_of chunks.old.items)) (P.entry probe) }
    ensures removed { from_list {R = K.cmp} (entries_of chunks.new.items) ≡ remove (from_list (entries_of chunks.old.items)) (P.entry probe) }
    ensures sorted { IsStrictlySortedBy K.cmp (entries_of chunks.new.items) }
    ensures chunks { AreChunks chunks.new.items }
    ensures entry_count { OnSome result (length (entries_of chunks.new.items) + 1 ≡ length (entries_of chunks.old.items)) }
    ensures same_count { result ≡ None → length (entries_of chunks.new.items) ≡ length (entries_of chunks.old.items) }
    ensures within { IfSome result (λ at. at ≤ vec_len chunks.new) }
    ensures len { vec_len chunks.new ≤ vec_len chunks.old }
    ensures spare { AreSpare spare.new.items }
    ensures room { (k : ℕ) → HasRoom k chunks.old.items (vec_capacity chunks.old) spare.old → HasRoom k chunks.new.items (vec_capacity chunks.new) spare.new }
{
    if chunks.is_empty() {
        return None;
    }
    let at = chunk_of(chunks, probe);
    match place(&chunks[at], probe) {
        Ok(found) => {
            take_out(chunks, spare, at, found);
            Some(at)
        }
        Err(_) => None,
    }
}
