//! Runs of entries, which may lie in several chunks.
ghost use Rattle.std.specs.Prelude.{◌≡◌, ◌+◌, ◌<◌, ◌≤◌, ◌^◌, ◌↔◌, [], ◌++◌, length, true, false, IsTrue, count_by, drop, filter};
ghost use Rattle.std.specs.List.{All};
ghost use Rattle.std.specs.List.Sorted.{IsStrictlySortedBy};
ghost use Rattle.std.specs.Ordering.{is_eq, is_lt, is_le};
ghost use Rattle.chunked_sets.specs.Chunks.{entries_of};
ghost use Rattle.chunked_sets.specs.private.Chunks.{AreChunks};
ghost use Rattle.chunked_sets.specs.Entries.{entries_left};
ghost use Rattle.chunked_sets.specs.private.Places.{first_passes};

use crate::entries::Entries;
use rbac_sets::{Entry, Prefix};
use std::marker::Model;

/// Entries of a set that follow one another, in their order. In contracts the value is their list.
#[derive(Drop)]
pub struct Run<'a, K: Entry> {
    // The entries in the first chunk, the chunks between, and the entries in the last chunk.
    first: &'a [K],
    middle: &'a [Vec<K>],
    last: &'a [K],
}

impl<'a, K: Entry> Model for Run<'a, K> {
    ghost use Rattle.std.specs.Prelude.{◌<◌, ◌^◌, ◌++◌, List, length};
    ghost use Rattle.std.specs.Coded.{coded_list};
    ghost use Rattle.chunked_sets.specs.Chunks.{entries_of};

    ghost Value = { List K };

    ghost coded = { coded_list K.code };

    ghost view = { λ r. r.first.now ++ (entries_of r.middle.now ++ r.last.now) };

    ghost invariant = { λ r. length (r.first.now ++ (entries_of r.middle.now ++ r.last.now)) < 2 ^ 64 };
}

impl<'a, K: Entry> Run<'a, K> {
    /// A run of these parts.
    pub(crate) fn new(first: &'a [K], middle: &'a [Vec<K>], last: &'a [K]) -> Run<'a, K>
        requires { length (first.now ++ (entries_of middle.now ++ last.now)) < 2 ^ 64 }
        ensures { result ≡ first.now ++ (entries_of middle.now ++ last.now) }
    {
        Run {
            first,
            middle,
            last,
        }
    }

    /// The run of these entries, which lie in one piece of memory.
    pub fn of(entries: &'a [K]) -> Run<'a, K>
        ensures { result ≡ entries.now }
    {
        Run::new(entries, &[], &[])
    }

    /// The entries one by one.
    pub fn iter(&self) -> Entries<'a, K>
        ensures { entries_left result ≡ self.now }
    {
        Entries {
            chunk: self.first,
            chunks: self.middle,
            last: self.last,
        }
    }

    /// The entries after the first `count`: none if there are no more. Its time grows with the number of chunks.
    pub fn skip(&self, count: usize) -> Run<'a, K>
        ensures { result ≡ drop count self.now }
    {
        if count < self.first.len() {
            return Run::new(&self.first[count..], self.middle, self.last);
        }
        rest_of_chunks(self.middle, self.last, count - self.first.len())
    }

    /// Whether there is no entry.
    pub fn is_empty(&self) -> bool
        ensures { IsTrue result ↔ (self.now ≡ []) }
    {
        self.iter().next().is_none()
    }

    /// How many entries there are. Its time grows with the number of chunks.
    pub fn len(&self) -> usize
        ensures { result ≡ length self.now }
    {
        let mut count = self.first.len() + self.last.len();
        for chunk in self.middle {
            count += chunk.len();
        }
        count
    }
}

/// The entries after the first ones.
fn rest_of<K>(entries: &[K], count: usize) -> &[K]
    ensures { result.now ≡ drop count entries.now }
{
    if count < entries.len() {
        &entries[count..]
    } else {
        &[]
    }
}

/// The entries of chunks, and others after them, after the first ones.
fn rest_of_chunks<'a, K: Entry>(chunks: &'a [Vec<K>], last: &'a [K], count: usize) -> Run<'a, K>
    requires { length (entries_of chunks.now ++ last.now) < 2 ^ 64 }
    ensures { result ≡ drop count (entries_of chunks.now ++ last.now) }
{
    let mut rest = chunks;
    let mut left = count;
    while let Some((chunk, others)) = rest.split_first() {
        if left < chunk.len() {
            return Run::new(&chunk[left..], others, last);
        }
        left -= chunk.len();
        rest = others;
    }
    Run::of(rest_of(last, left))
}

/// The entries of a chunk that begin with these parts.
fn run_in<K: Entry, P: Prefix<K>>(entries: &[K], prefix: P) -> &[K]
    requires { IsStrictlySortedBy K.cmp entries.now }
    ensures { result.now ≡ filter (λ entry. is_eq (P.place prefix entry)) entries.now }
{
    let start = entries.partition_point(|entry| prefix.compare(entry).is_lt());
    let rest = &entries[start..];
    let count = rest.partition_point(|entry| prefix.compare(entry).is_eq());
    &rest[..count]
}

/// Whether a chunk's first entry is less than those that begin with these parts.
fn begins_below<K: Entry, P: Prefix<K>>(chunk: &[K], prefix: P) -> bool
    ensures { result ≡ first_passes (λ y. is_lt (P.place prefix y)) chunk.now }
{
    match chunk.first() {
        Some(first) => prefix.compare(first).is_lt(),
        None => false,
    }
}

/// Whether a chunk's first entry is not greater than those that begin with these parts.
fn begins_within<K: Entry, P: Prefix<K>>(chunk: &[K], prefix: P) -> bool
    ensures { result ≡ first_passes (λ y. is_le (P.place prefix y)) chunk.now }
{
    match chunk.first() {
        Some(first) => prefix.compare(first).is_le(),
        None => false,
    }
}

/// The entries that begin with these parts, in chunks that begin below them. They are in the last one.
fn first_part<K: Entry, P: Prefix<K>>(chunks: &[Vec<K>], prefix: P) -> &[K]
    requires sorted { IsStrictlySortedBy K.cmp (entries_of chunks.now) }
    requires below { All (λ chunk. first_passes (λ y. is_lt (P.place prefix y)) chunk.items ≡ true) chunks.now }
    ensures { result.now ≡ filter (λ entry. is_eq (P.place prefix entry)) (entries_of chunks.now) }
{
    match chunks.split_last() {
        Some((last, _)) => run_in(last, prefix),
        None => &[],
    }
}

/// The entries that begin with these parts, in chunks that begin with one of them: all but some of the last chunk.
fn last_part<K: Entry, P: Prefix<K>>(chunks: &[Vec<K>], prefix: P) -> (&[Vec<K>], &[K])
    requires sorted { IsStrictlySortedBy K.cmp (entries_of chunks.now) }
    requires equal { All (λ chunk. first_passes (λ y. is_eq (P.place prefix y)) chunk.items ≡ true) chunks.now }
    ensures { entries_of result.0.now ++ result.1.now ≡ filter (λ entry. is_eq (P.place prefix entry)) (entries_of chunks.now) }
{
    match chunks.split_last() {
        Some((last, others)) => (others, run_in(last, prefix)),
        None => (&[], &[]),
    }
}

/// The entries of sorted chunks that begin with these parts.
pub(crate) fn run_of<K: Entry, P: Prefix<K>>(chunks: &[Vec<K>], prefix: P) -> Run<'_, K>
    requires chunks { AreChunks chunks.now }
    requires sorted { IsStrictlySortedBy K.cmp (entries_of chunks.now) }
    requires few { length (entries_of chunks.now) ≤ 2 ^ 63 }
    ensures { result ≡ filter (λ entry. is_eq (P.place prefix entry)) (entries_of chunks.now) }
{
    let after = chunks.partition_point(|chunk| begins_below(chunk, prefix));
    let (low, rest) = chunks.split_at(after);
    let count = rest.partition_point(|chunk| begins_within(chunk, prefix));
    let (equal, _) = rest.split_at(count);
    let first = first_part(low, prefix);
    let (middle, last) = last_part(equal, prefix);
    Run::new(first, middle, last)
}

/// How many of sorted entries begin with lesser parts.
pub(crate) fn count_in<K: Entry, P: Prefix<K>>(entries: &[K], prefix: P) -> usize
    requires { IsStrictlySortedBy K.cmp entries.now }
    ensures { result ≡ count_by (λ entry. is_lt (P.place prefix entry)) entries.now }
{
    entries.partition_point(|entry| prefix.compare(entry).is_lt())
}

/// How many entries there are in chunks that begin with lesser parts, that begin with lesser parts themselves: all but some of
/// the last chunk.
fn count_low<K: Entry, P: Prefix<K>>(chunks: &[Vec<K>], prefix: P) -> usize
    requires sorted { IsStrictlySortedBy K.cmp (entries_of chunks.now) }
    requires below { All (λ chunk. first_passes (λ y. is_lt (P.place prefix y)) chunk.items ≡ true) chunks.now }
    requires few { length (entries_of chunks.now) ≤ 2 ^ 63 }
    ensures { result ≡ count_by (λ entry. is_lt (P.place prefix entry)) (entries_of chunks.now) }
{
    match chunks.split_last() {
        Some((last, others)) => {
            let some = Run::new(&[], others, &[]);
            some.len() + count_in(last, prefix)
        }
        None => 0,
    }
}

/// How many entries of sorted chunks begin with lesser parts.
pub(crate) fn count_below<K: Entry, P: Prefix<K>>(chunks: &[Vec<K>], prefix: P) -> usize
    requires chunks { AreChunks chunks.now }
    requires sorted { IsStrictlySortedBy K.cmp (entries_of chunks.now) }
    requires few { length (entries_of chunks.now) ≤ 2 ^ 63 }
    ensures { result ≡ count_by (λ entry. is_lt (P.place prefix entry)) (entries_of chunks.now) }
{
    let after = chunks.partition_point(|chunk| begins_below(chunk, prefix));
    let (low, _) = chunks.split_at(after);
    count_low(low, prefix)
}
