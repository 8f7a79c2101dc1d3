//! What sets in one piece of memory and sets in chunks have in common.
ghost use Rattle.std.specs.Prelude.{◌≡◌, count_by, filter};
ghost use Rattle.std.specs.Ordering.{is_eq, is_le, is_lt};
ghost use Rattle.rbac_sets.specs.Sets.{contains, members};
ghost use Rattle.rbac_sets.specs.SortedSet.{Stored, set_of};

use crate::chunked_set::ChunkedSet;
use crate::run::Run;
use rbac_sets::{Entry, Prefix, Probe, SortedSet};

/// A set of entries, kept in their order.
///
/// Functions that read sets of either kind, such as the checks of a state, have it as a bound.
pub trait EntrySet<K: Entry> {
    // The entries and the room for more.
    ghost stored: { Self → Stored K };

    /// Whether the entry that `probe` looks for is there.
    fn has<P: Probe<K>>(&self, probe: P) -> bool
        ensures { result ≡ contains (set_of K.cmp (stored self.now)) (P.entry probe) };

    /// All entries, in their order.
    fn entries(&self) -> Run<'_, K>
        ensures { result ≡ members (set_of K.cmp (stored self.now)) };

    /// The entries that begin with the parts of `prefix`, in their order.
    fn entries_with_first<P: Prefix<K>>(&self, prefix: P) -> Run<'_, K>
        ensures { result ≡ filter (λ entry. is_eq (P.place prefix entry)) (members (set_of K.cmp (stored self.now))) };

    /// How many entries begin with lesser parts than those of `prefix`, and how many with parts that aren't greater.
    fn range<P: Prefix<K>>(&self, prefix: P) -> (usize, usize)
        ensures start { result.0 ≡ count_by (λ entry. is_lt (P.place prefix entry)) (members (set_of K.cmp (stored self.now))) }
        ensures end { result.1 ≡ count_by (λ entry. is_le (P.place prefix entry)) (members (set_of K.cmp (stored self.now))) };
}

impl<K: Entry> EntrySet<K> for SortedSet<K> {
    ghost stored = { λ stored. stored };

    fn has<P: Probe<K>>(&self, probe: P) -> bool {
        self.contains(probe)
    }

    fn entries(&self) -> Run<'_, K> {
        Run::of(self.as_slice())
    }

    fn entries_with_first<P: Prefix<K>>(&self, prefix: P) -> Run<'_, K> {
        Run::of(self.with_first(prefix))
    }

    fn range<P: Prefix<K>>(&self, prefix: P) -> (usize, usize) {
        let entries = self.as_slice();
        let start = entries.partition_point(|entry| prefix.compare(entry).is_lt());
        let end = entries.partition_point(|entry| prefix.compare(entry).is_le());
        (start, end)
    }
}

impl<K: Entry> EntrySet<K> for ChunkedSet<K> {
    ghost stored = { λ stored. stored };

    fn has<P: Probe<K>>(&self, probe: P) -> bool {
        self.contains(probe)
    }

    fn entries(&self) -> Run<'_, K> {
        self.as_run()
    }

    fn entries_with_first<P: Prefix<K>>(&self, prefix: P) -> Run<'_, K> {
        self.with_first(prefix)
    }

    fn range<P: Prefix<K>>(&self, prefix: P) -> (usize, usize) {
        self.range(prefix)
    }
}
