//! Lookups of names in sets of names and pairs.
ghost use Rattle.std.specs.Prelude.{◌≡◌, ◌||◌, find, filter};
ghost use Rattle.std.specs.List.{list_any, list_all};
ghost use Rattle.std.specs.Option.{option_map};
ghost use Rattle.rbac_sets.specs.Sets.{Pair, Cardinality, name_cmp, pair_cmp, cardinality_cmp, all, contains, members, same_name};
ghost use Rattle.rbac_sets.specs.SortedSet.{set_of};
ghost use Rattle.admin_mgr.specs.private.CheckTests.{are_firsts_in, are_seconds_in};

use chunked_sets::EntrySet;
use rbac_sets::{CountSet, Name, NameSet, is_same};

// Whether a pair begins or ends with this name.
pub(crate) fn has_part(pairs: &[(Name, Name)], name: &Name) -> bool
    ensures { result ≡ list_any (λ (pair : Pair). same_name pair.0 name.now || same_name pair.1 name.now) pairs.now }
{
    pairs
        .iter()
        .any(|pair| is_same(&pair.0, name) || is_same(&pair.1, name))
}

// Whether each pair begins with one of the names.
#[tactic(auto, unfolding(rbac_sets::specs::Sets::all))]
pub(crate) fn are_firsts_in<N: EntrySet<Name>, P: EntrySet<(Name, Name)>>(
    names: &N,
    pairs: &P,
) -> bool
    ensures { result ≡ are_firsts_in (set_of name_cmp (N.stored names.now)) (set_of pair_cmp (P.stored pairs.now)) }
{
    pairs.entries().iter().all(|pair| names.has(&pair.0))
}

// Whether each pair ends with one of the names.
#[tactic(auto, unfolding(rbac_sets::specs::Sets::all))]
pub(crate) fn are_seconds_in<N: EntrySet<Name>, P: EntrySet<(Name, Name)>>(
    names: &N,
    pairs: &P,
) -> bool
    ensures { result ≡ are_seconds_in (set_of name_cmp (N.stored names.now)) (set_of pair_cmp (P.stored pairs.now)) }
{
    pairs.entries().iter().all(|pair| names.has(&pair.1))
}

// Whether each of the names is one of the others.
#[tactic(auto, unfolding(rbac_sets::specs::Sets::all))]
pub(crate) fn are_among<N: EntrySet<Name>>(names: &NameSet, others: &N) -> bool
    ensures { result ≡ all (contains (set_of name_cmp (N.stored others.now))) (set_of name_cmp names.now) }
{
    are_in(names.as_slice(), others)
}

// Whether each of the names is in the set.
pub(crate) fn are_in<N: EntrySet<Name>>(names: &[Name], set: &N) -> bool
    ensures { result ≡ list_all (contains (set_of name_cmp (N.stored set.now))) names.now }
{
    names.iter().all(|name| set.has(name))
}

// The number that is paired with the name, if there is one.
pub(crate) fn number_of(numbers: &CountSet, name: &Name) -> Option<u32>
    ensures { result ≡ option_map (λ (entry : Cardinality). entry.1) (find (λ (entry : Cardinality). same_name entry.0 name.now) (members (set_of cardinality_cmp numbers.now))) }
{
    match numbers.with_first(name).first() {
        Some(entry) => Some(entry.1),
        None => None,
    }
}
