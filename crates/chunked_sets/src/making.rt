//! Chunks made from entries, and the entry at a place in all chunks.
ghost use Rattle.std.specs.Prelude.{◌≡◌, ◌+◌, ◌<◌, ◌≤◌, ◌^◌, [], ◌∷◌, ◌++◌, length, vec_len, vec_capacity, slice_index_or, OnOk, IfOk, IfErr};
ghost use Rattle.chunked_sets.specs.Chunks.{entries_of};
ghost use Rattle.chunked_sets.specs.private.Chunks.{AreChunks};

use crate::chunks::{CHUNK, MOST_CHUNKS};
use rbac_sets::{Entry, Refusal};
use std::alloc::Global;

/// How many entries a chunk has that is made from a sorted list: it is not full, so that the first insertions
/// don't split each chunk.
const FILLED: usize = 112;

/// The entry at a place in all chunks.
pub(crate) fn entry_at<K: Entry>(chunks: &[Vec<K>], index: usize) -> &K
    requires { index < length (entries_of chunks.now) }
    ensures { result.now ≡ slice_index_or (entries_of chunks.now) index result.now }
{
    let mut left = index;
    for chunk in chunks {
        if left < chunk.len() {
            return &chunk[left];
        }
        left -= chunk.len();
    }
    unreachable!()
}

/// Puts an entry behind all others, into the last chunk or a new one.
fn append<K: Entry>(chunks: &mut Vec<Vec<K>>, entry: K, alloc: Global) -> Result<(), Refusal>
    requires { AreChunks chunks.old.items }
    ensures ok { OnOk result (entries_of chunks.new.items ≡ entries_of chunks.old.items ++ entry ∷ []) }
    ensures chunks { AreChunks chunks.new.items }
    ensures few { vec_len chunks.old ≤ 2 ^ 56 → vec_len chunks.new ≤ 2 ^ 56 }
    ensures cause { IfErr result (λ refusal. refusal ≡ Refusal.Memory) }
{
    let count = chunks.len();
    if count > 0 && chunks[count - 1].len() < FILLED {
        chunks[count - 1].push(entry).unwrap();
        return Ok(());
    }
    if count >= MOST_CHUNKS {
        return Err(Refusal::Memory);
    }
    let mut chunk = Vec::with_capacity(alloc, CHUNK)?;
    chunk.push(entry).unwrap();
    chunks.push(chunk)?;
    Ok(())
}

/// Chunks of these entries.
pub(crate) fn chunks_from<K: Entry>(entries: Vec<K>, alloc: Global) -> Result<Vec<Vec<K>>, Refusal>
    ensures ok { IfOk result (λ chunks. entries_of chunks.items ≡ entries.items) }
    ensures chunks { IfOk result (λ chunks. AreChunks chunks.items) }
    ensures few { IfOk result (λ chunks. vec_len chunks ≤ 2 ^ 56) }
    ensures cause { IfErr result (λ refusal. refusal ≡ Refusal.Memory) }
{
    let mut chunks = Vec::new(alloc);
    for entry in entries {
        append(&mut chunks, entry, alloc)?;
    }
    Ok(chunks)
}

/// A copy of a chunk, with memory for as many entries as each chunk.
fn copy_chunk<K: Entry>(chunk: &[K], alloc: Global) -> Result<Vec<K>, Refusal>
    ensures ok { IfOk result (λ copy. copy.items ≡ chunk.now) }
    ensures memory { IfOk result (λ copy. 128 ≤ vec_capacity copy) }
    ensures cause { IfErr result (λ refusal. refusal ≡ Refusal.Memory) }
{
    let mut copy = Vec::with_capacity(alloc, CHUNK)?;
    for entry in chunk {
        copy.push(entry.copy(alloc)?)?;
    }
    Ok(copy)
}

/// A copy of all chunks.
pub(crate) fn copy_chunks<K: Entry>(
    chunks: &[Vec<K>],
    alloc: Global,
) -> Result<Vec<Vec<K>>, Refusal>
    requires { AreChunks chunks.now }
    ensures ok { IfOk result (λ copies. entries_of copies.items ≡ entries_of chunks.now) }
    ensures chunks { IfOk result (λ copies. AreChunks copies.items) }
    ensures len { IfOk result (λ copies. vec_len copies ≡ length chunks.now) }
    ensures cause { IfErr result (λ refusal. refusal ≡ Refusal.Memory) }
{
    let mut copies = Vec::new(alloc);
    copies.reserve(chunks.len())?;
    for chunk in chunks {
        copies.push(copy_chunk(chunk, alloc)?)?;
    }
    Ok(copies)
}
