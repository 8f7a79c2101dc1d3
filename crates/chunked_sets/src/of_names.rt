//! The sets of names, of pairs and of triples, in chunks.
ghost use Rattle.std.specs.Prelude.{◌≡◌};
ghost use Rattle.rbac_sets.specs.Sets.{Pair, any, pair_cmp, same_name};
ghost use Rattle.rbac_sets.specs.SortedSet.{set_of};

use crate::chunked_set::ChunkedSet;
use rbac_sets::Name;

/// A set of names, such as the users of an office.
pub type ChunkedNames = ChunkedSet<Name>;

/// A set of pairs of names, such as the assignments (user, role), ordered by the first name first.
pub type ChunkedPairs = ChunkedSet<(Name, Name)>;

/// A set of triples of names, such as the grants (object, operation, role), ordered by the first
/// name first.
pub type ChunkedGrants = ChunkedSet<(Name, Name, Name)>;

/// Whether one of the pairs has this first name.
pub fn has_first(pairs: &ChunkedPairs, first: &Name) -> bool
    ensures { result ≡ any (λ (pair : Pair). same_name pair.0 first.now) (set_of pair_cmp pairs.now) }
{
    !pairs.with_first(first).is_empty()
}
