//! Merging sorted entries in place.
ghost use Rattle.std.specs.Prelude.{◌≡◌, ◌+◌, ◌<◌, ◌≤◌, true, false, drop, vec_len, vec_capacity};
ghost use Rattle.std.specs.VecDeque.{deque_len};
ghost use Rattle.std.specs.List.Sorted.{IsStrictlySortedBy, IsPartitionPoint};
ghost use Rattle.std.specs.Ordering.{is_lt};
ghost use Rattle.rbac_sets.specs.Sets.{IsDisjoint, union, from_list};

use crate::sorted_set::Entry;
use std::collections::VecDeque;

// The entries of both, sorted, in the memory of the first. This is used as a ring: from the greatest of the others on, each goes
// to its front after the entries that are greater, which are moved as a block. Then the ring is turned back.
pub(crate) fn merge<K: Entry>(entries: Vec<K>, mut others: Vec<K>) -> Vec<K>
    requires sorted { IsStrictlySortedBy K.cmp entries.items }
    requires others_sorted { IsStrictlySortedBy K.cmp others.items }
    requires disjoint { IsDisjoint (from_list {R = K.cmp} entries.items) (from_list {R = K.cmp} others.items) }
    requires room { vec_len entries + vec_len others ≤ vec_capacity entries }
    ensures sorted { IsStrictlySortedBy K.cmp result.items }
    ensures both { from_list {R = K.cmp} result.items ≡ union (from_list entries.items) (from_list others.items) }
    ensures len { vec_len result ≡ vec_len entries + vec_len others }
    ensures capacity { vec_capacity entries ≤ vec_capacity result }
{
    let mut ring = VecDeque::from_vec(entries);
    let mut placed = 0;
    while let Some(other) = others.pop() {
        let below = count_below(&ring, placed, &other);
        let above = ring.len() - placed - below;
        ring.rotate_right(above);
        ring.push_front(other).unwrap();
        placed += above + 1;
    }
    ring.rotate_left(placed);
    ring.into_vec()
}

// How many of the entries from `start` on, which are sorted, are less than the other one. Its time grows with the logarithm of
// the number of the rest.
fn count_below<K: Entry>(ring: &VecDeque<K>, start: usize, other: &K) -> usize
    requires start { start ≤ deque_len ring.now }
    requires sorted { IsStrictlySortedBy K.cmp (drop start ring.now.items) }
    ensures within { start + result ≤ deque_len ring.now }
    ensures point { IsPartitionPoint (λ y. is_lt (K.cmp y other.now) ≡ true) (λ y. is_lt (K.cmp y other.now) ≡ false) (drop start ring.now.items) result }
{
    let mut low = 0;
    let mut high = ring.len() - start;
    let mut step: usize = 1;
    while low < high {
        let at = next_place(low, high, step);
        if ring[start + at].cmp(other).is_lt() {
            low = at + 1;
        } else {
            high = at;
            step = step.saturating_mul(2);
        }
    }
    low
}

// The next place to look at: by steps down from `high` as long as nothing less was found, then in the middle.
fn next_place(low: usize, high: usize, step: usize) -> usize
    requires { (low < high) × (0 < step) }
    ensures { (low ≤ result) × (result < high) }
{
    if low > 0 {
        low + (high - low) / 2
    } else {
        high - step.min(high)
    }
}
