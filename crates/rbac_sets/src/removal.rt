//! Removing entries from a set one after another.
ghost use Rattle.std.specs.Prelude.{◌≡◌, ◌↔◌, ◌+◌, ◌≤◌, IsTrue, true, false, length, vec_len, vec_capacity};
ghost use Rattle.std.specs.List.{AllWithin};
ghost use Rattle.std.specs.List.Sorted.{IsStrictlySortedBy, IsPartitionPoint, IsPartitionedBy};
ghost use Rattle.std.specs.Ordering.{is_lt};
ghost use Rattle.std.specs.declared.cmp.Ordering.TheVariants.{Less};
ghost use Rattle.rbac_sets.specs.Sets.{contains, remove};
ghost use Rattle.rbac_sets.specs.SortedSet.{set_of};
ghost use Rattle.rbac_sets.specs.SetRemoval.{around};
ghost use Rattle.rbac_sets.specs.private.Gaps.{IsPassed, IsFirst};

use crate::sorted_set::{Entry, Probe, SortedSet};
use std::marker::Model;

/// A set from which entries are removed, one after another.
///
/// If they are removed in their order, each remaining entry is moved at most once, and those after
/// the last removed entry only at the end. `SortedSet::start_removal` starts the removal, and
/// `into_set` returns the set. Nothing is allocated. In contracts the value is the remaining
/// entries, in their order, and the room for more; `set_of` is the set of these entries.
#[derive(Drop)]
pub struct SetRemoval<K: Entry> {
    // The entries before `start` and those from `end` on remain. The entries between them were removed.
    entries: Vec<K>,
    start: usize,
    end: usize,
}

impl<K: Entry> Model for SetRemoval<K> {
    ghost use Rattle.std.specs.Prelude.{◌≤◌, ◌-◌, vec_len, vec_capacity};
    ghost use Rattle.std.specs.List.Sorted.{IsStrictlySortedBy};
    ghost use Rattle.rbac_sets.specs.SortedSet.{Stored, stored_code};
    ghost use Rattle.rbac_sets.specs.SetRemoval.{around};

    ghost Value = { Stored K };

    ghost coded = { stored_code K.code };

    ghost view = { λ t. record { in_order = around t.start t.end t.entries.items; room = vec_capacity t.entries - vec_len t.entries } };

    ghost invariant = { λ t. (t.start ≤ t.end) × (t.end ≤ vec_len t.entries) × IsStrictlySortedBy K.cmp (around t.start t.end t.entries.items) };
}

impl<K: Entry> SetRemoval<K> {
    /// Starts the removal from these entries, which are in their order.
    pub(crate) fn new(entries: Vec<K>) -> SetRemoval<K>
        requires { IsStrictlySortedBy K.cmp entries.items }
        ensures entries { result.in_order ≡ entries.items }
        ensures room { vec_len entries + result.room ≡ vec_capacity entries }
    {
        SetRemoval {
            entries,
            start: 0,
            end: 0,
        }
    }

    /// Removes the entry that `probe` looks for, and returns whether it was there.
    pub fn take<P: Probe<K>>(&mut self, probe: P) -> bool
        ensures was_there { result ≡ contains (set_of K.cmp self.old) (P.entry probe) }
        ensures removed { set_of K.cmp self.new ≡ remove (set_of K.cmp self.old) (P.entry probe) }
        ensures room { self.old.room ≤ self.new.room }
    {
        let (start, end) = move_gap(&mut self.entries, self.start, self.end, probe);
        self.start = start;
        self.end = end;
        let is_there = is_first(&self.entries[self.end..], probe);
        if is_there {
            self.end += 1;
        }
        is_there
    }

    /// The set of the remaining entries.
    pub fn into_set(self) -> SortedSet<K>
        ensures left { set_of K.cmp result ≡ set_of K.cmp self }
        ensures room { self.room ≤ result.room }
    {
        let SetRemoval {
            mut entries,
            start,
            end,
        } = self;
        entries.drain(start..end);
        SortedSet::of_entries(entries)
    }
}

// Whether all of these sorted entries are less than the one that `probe` looks for.
fn are_before<K: Entry, P: Probe<K>>(entries: &[K], probe: P) -> bool
    requires { IsStrictlySortedBy K.cmp entries.now }
    ensures { IsTrue result ↔ AllWithin (λ y. K.cmp y (P.entry probe) ≡ Less) entries.now 0 (length entries.now) }
{
    match entries.last() {
        Some(last) => probe.compare(last).is_lt(),
        None => true,
    }
}

// Whether the first of the entries is the one that `probe` looks for.
fn is_first<K: Entry, P: Probe<K>>(entries: &[K], probe: P) -> bool
    ensures { IsTrue result ↔ IsFirst K.cmp (P.entry probe) entries.now }
{
    match entries.first() {
        Some(first) => probe.compare(first).is_eq(),
        None => false,
    }
}

// Moves the gap from `start` to `end` in sorted entries to the place of the entry that `probe` looks for, even if there
// is none, and returns its new ends.
fn move_gap<K: Entry, P: Probe<K>>(
    entries: &mut Vec<K>,
    start: usize,
    end: usize,
    probe: P,
) -> (usize, usize)
    requires gap { (start ≤ end) × (end ≤ vec_len entries.old) }
    requires sorted { IsStrictlySortedBy K.cmp (around start end entries.old.items) }
    ensures gap { (result.0 ≤ result.1) × (result.1 ≤ vec_len entries.new) }
    ensures same { around result.0 result.1 entries.new.items ≡ around start end entries.old.items }
    ensures passed { IsPassed K.cmp (P.entry probe) result.0 result.1 entries.new.items }
    ensures len { vec_len entries.new ≤ vec_len entries.old }
    ensures capacity { vec_capacity entries.new ≡ vec_capacity entries.old }
{
    if start < end && are_before(&entries[..start], probe) {
        let passed = pass(entries, start, end, probe);
        return (start + passed, end + passed);
    }
    entries.drain(start..end);
    let at = entries.partition_point(|entry| probe.compare(entry).is_lt());
    (at, at)
}

// Moves the entries from `end` on that are less than the one that `probe` looks for to `start`, and
// returns how many they are.
fn pass<K: Entry, P: Probe<K>>(entries: &mut Vec<K>, start: usize, end: usize, probe: P) -> usize
    requires gap { (start ≤ end) × (end ≤ vec_len entries.old) }
    requires sorted { IsStrictlySortedBy K.cmp (around start end entries.old.items) }
    requires below { AllWithin (λ y. K.cmp y (P.entry probe) ≡ Less) entries.old.items 0 start }
    ensures within { end + result ≤ vec_len entries.new }
    ensures same { around (start + result) (end + result) entries.new.items ≡ around start end entries.old.items }
    ensures passed { IsPassed K.cmp (P.entry probe) (start + result) (end + result) entries.new.items }
    ensures len { vec_len entries.new ≡ vec_len entries.old }
    ensures capacity { vec_capacity entries.new ≡ vec_capacity entries.old }
{
    let count = count_less(&entries[end..], probe);
    move_down(entries, start, end, count);
    count
}

// Moves `count` entries from `end` to `start`, and those of the gap behind them.
fn move_down<K: Entry>(entries: &mut Vec<K>, start: usize, end: usize, count: usize)
    requires gap { (start ≤ end) × (end + count ≤ vec_len entries.old) }
    ensures same { around (start + count) (end + count) entries.new.items ≡ around start end entries.old.items }
    ensures len { vec_len entries.new ≡ vec_len entries.old }
    ensures capacity { vec_capacity entries.new ≡ vec_capacity entries.old }
{
    let mut moved = 0;
    while moved < count {
        entries.swap(start + moved, end + moved);
        moved += 1;
    }
}

// How many entries are less than the one that `probe` looks for, if they come first. Its time grows
// with the logarithm of this number, not with that of the number of entries.
fn count_less<K: Entry, P: Probe<K>>(entries: &[K], probe: P) -> usize
    requires { IsPartitionedBy (λ y. is_lt (K.cmp y (P.entry probe))) entries.now }
    ensures within { result ≤ length entries.now }
    ensures point { IsPartitionPoint (λ y. is_lt (K.cmp y (P.entry probe)) ≡ true) (λ y. is_lt (K.cmp y (P.entry probe)) ≡ false) entries.now result }
{
    let bound = bound_of_less(entries, probe);
    let near = &entries[..bound];
    near.partition_point(|entry| probe.compare(entry).is_lt())
}

// A place after all entries that are less than the one that `probe` looks for, if they come first. It
// is found by doubling, and is at most twice the place of the last of them, or is 1.
fn bound_of_less<K: Entry, P: Probe<K>>(entries: &[K], probe: P) -> usize
    requires { IsPartitionedBy (λ y. is_lt (K.cmp y (P.entry probe))) entries.now }
    ensures bound { result ≤ length entries.now }
    ensures behind { AllWithin (λ y. is_lt (K.cmp y (P.entry probe)) ≡ false) entries.now result (length entries.now) }
{
    let mut bound = 1;
    while bound < entries.len() && probe.compare(&entries[bound]).is_lt() {
        bound = bound.saturating_mul(2);
    }
    bound.min(entries.len())
}
