//! The sets of names, of pairs, of triples, and of names with a number.
ghost use Rattle.std.specs.Prelude.{◌≡◌, IfOk, IfErr};
ghost use Rattle.std.specs.List.{list_any};
ghost use Rattle.rbac_sets.specs.Sets.{Pair, any, pair_cmp, same_name};
ghost use Rattle.rbac_sets.specs.SortedSet.{set_of};

use crate::name::{Name, is_same};
use crate::refusal::Refusal;
use crate::sorted_set::{Entry, Prefix, Probe, SortedSet};
use std::alloc::Global;
use std::cmp::Ordering;

/// A set of names, such as the users of an office.
pub type NameSet = SortedSet<Name>;

/// A set of pairs of names, such as the assignments (user, role), ordered by the first name first.
pub type PairSet = SortedSet<(Name, Name)>;

/// A set of triples of names, such as the grants (object, operation, role), ordered by the first
/// name first.
pub type GrantSet = SortedSet<(Name, Name, Name)>;

/// A set of names with a number, such as the cardinalities of separation of duty sets, ordered by
/// the name first.
pub type CountSet = SortedSet<(Name, u32)>;

/// Whether one of the pairs has this first name.
#[tactic(auto, using(crate::proofs::Lists::any_filter), unfolding(crate::specs::Sets::any))]
pub fn has_first(pairs: &PairSet, first: &Name) -> bool
    ensures { result ≡ any (λ (pair : Pair). same_name pair.0 first.now) (set_of pair_cmp pairs.now) }
{
    !pairs.with_first(first).is_empty()
}

/// Whether one of the pairs, which may be in any order, has this second name.
pub fn has_second(pairs: &[(Name, Name)], second: &Name) -> bool
    ensures { result ≡ list_any (λ (pair : Pair). same_name pair.1 second.now) pairs.now }
{
    pairs.iter().any(|pair| is_same(&pair.1, second))
}

impl Entry for Name {
    ghost use Rattle.rbac_sets.specs.NameOrder.{name_exact};

    fn copy(&self, alloc: Global) -> Result<Name, Refusal> {
        Name::copy(self, alloc)
    }

    ghost exact = { name_exact };
}

impl Entry for (Name, Name) {
    ghost use Rattle.rbac_sets.specs.NameOrder.{pair_exact};

    fn copy(&self, alloc: Global) -> Result<(Name, Name), Refusal> {
        Ok((self.0.copy(alloc)?, self.1.copy(alloc)?))
    }

    ghost exact = { pair_exact };
}

impl Entry for (Name, Name, Name) {
    ghost use Rattle.rbac_sets.specs.NameOrder.{triple_exact};

    fn copy(&self, alloc: Global) -> Result<(Name, Name, Name), Refusal> {
        Ok((
            self.0.copy(alloc)?,
            self.1.copy(alloc)?,
            self.2.copy(alloc)?,
        ))
    }

    ghost exact = { triple_exact };
}

impl Entry for (Name, u32) {
    ghost use Rattle.rbac_sets.specs.NameOrder.{cardinality_exact};

    fn copy(&self, alloc: Global) -> Result<(Name, u32), Refusal> {
        Ok((self.0.copy(alloc)?, self.1))
    }

    ghost exact = { cardinality_exact };
}

impl Probe<(Name, Name)> for (&Name, &Name) {
    ghost entry = { λ probe. (probe.0.now, probe.1.now) };

    fn compare(&self, pair: &(Name, Name)) -> Ordering {
        pair.0.cmp(self.0).then(pair.1.cmp(self.1))
    }
}

impl Probe<(Name, Name, Name)> for (&Name, &Name, &Name) {
    ghost entry = { λ probe. (probe.0.now, probe.1.now, probe.2.now) };

    fn compare(&self, triple: &(Name, Name, Name)) -> Ordering {
        triple
            .0
            .cmp(self.0)
            .then(triple.1.cmp(self.1))
            .then(triple.2.cmp(self.2))
    }
}

impl Probe<(Name, u32)> for (&Name, u32) {
    ghost entry = { λ probe. (probe.0.now, probe.1) };

    fn compare(&self, entry: &(Name, u32)) -> Ordering {
        entry.0.cmp(self.0).then(entry.1.cmp(&self.1))
    }
}

impl Prefix<(Name, Name)> for &Name {
    ghost use Rattle.rbac_sets.specs.Sets.{name_cmp};
    ghost use Rattle.rbac_sets.specs.NameOrder.{firsts_rise};

    ghost place = { λ first pair. name_cmp pair.0 first.now };

    fn compare(&self, pair: &(Name, Name)) -> Ordering {
        pair.0.cmp(*self)
    }

    ghost rises = { λ first x y below. firsts_rise x y first.now below };
}

impl Prefix<(Name, Name, Name)> for &Name {
    ghost use Rattle.rbac_sets.specs.Sets.{name_cmp};
    ghost use Rattle.rbac_sets.specs.NameOrder.{triple_firsts_rise};

    ghost place = { λ first triple. name_cmp triple.0 first.now };

    fn compare(&self, triple: &(Name, Name, Name)) -> Ordering {
        triple.0.cmp(*self)
    }

    ghost rises = { λ first x y below. triple_firsts_rise x y first.now below };
}

impl Prefix<(Name, Name, Name)> for (&Name, &Name) {
    ghost use Rattle.rbac_sets.specs.Sets.{pair_cmp};
    ghost use Rattle.rbac_sets.specs.NameOrder.{first_pairs_rise};

    ghost place = { λ parts triple. pair_cmp (triple.0, triple.1) (parts.0.now, parts.1.now) };

    fn compare(&self, triple: &(Name, Name, Name)) -> Ordering {
        triple.0.cmp(self.0).then(triple.1.cmp(self.1))
    }

    ghost rises = { λ parts x y below. first_pairs_rise x y (parts.0.now, parts.1.now) below };
}

impl Prefix<(Name, u32)> for &Name {
    ghost use Rattle.rbac_sets.specs.Sets.{name_cmp};
    ghost use Rattle.rbac_sets.specs.NameOrder.{cardinality_firsts_rise};

    ghost place = { λ first entry. name_cmp entry.0 first.now };

    fn compare(&self, entry: &(Name, u32)) -> Ordering {
        entry.0.cmp(*self)
    }

    ghost rises = { λ first x y below. cardinality_firsts_rise x y first.now below };
}
