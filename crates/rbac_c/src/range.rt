//! The rows of a table that begin with a name.
ghost use Rattle.rbac_c.specs.Range.{HasRange};

use admin_mgr::State;
use chunked_sets::EntrySet;
use rbac_sets::{Name, Prefix, Table};
use std::cmp::Ordering;

// The bytes with which the first name of a row is compared. They may be those of no name.
#[derive(Clone, Copy)]
pub(crate) struct FirstName<'a> {
    text: &'a [u8],
}

impl Prefix<Name> for FirstName<'_> {
    ghost use Rattle.rbac_sets.specs.Sets.{name_cmp};
    ghost use Rattle.rbac_sets.specs.NameOrder.{name_total, rises};
    ghost use Rattle.std.proofs.Common.{inl};

    ghost place = { λ first name. name_cmp name first.text.now };

    fn compare(&self, name: &Name) -> Ordering {
        name.as_str().as_bytes().cmp(self.text)
    }

    ghost rises = { λ first x y below. rises name_total x y first.text.now (inl below) };
}

impl Prefix<(Name, Name)> for FirstName<'_> {
    ghost use Rattle.rbac_sets.specs.Sets.{name_cmp};
    ghost use Rattle.rbac_sets.specs.NameOrder.{firsts_rise};

    ghost place = { λ first pair. name_cmp pair.0 first.text.now };

    fn compare(&self, pair: &(Name, Name)) -> Ordering {
        pair.0.as_str().as_bytes().cmp(self.text)
    }

    ghost rises = { λ first x y below. firsts_rise x y first.text.now below };
}

impl Prefix<(Name, Name, Name)> for FirstName<'_> {
    ghost use Rattle.rbac_sets.specs.Sets.{name_cmp};
    ghost use Rattle.rbac_sets.specs.NameOrder.{triple_firsts_rise};

    ghost place = { λ first triple. name_cmp triple.0 first.text.now };

    fn compare(&self, triple: &(Name, Name, Name)) -> Ordering {
        triple.0.as_str().as_bytes().cmp(self.text)
    }

    ghost rises = { λ first x y below. triple_firsts_rise x y first.text.now below };
}

impl Prefix<(Name, u32)> for FirstName<'_> {
    ghost use Rattle.rbac_sets.specs.Sets.{name_cmp};
    ghost use Rattle.rbac_sets.specs.NameOrder.{cardinality_firsts_rise};

    ghost place = { λ first entry. name_cmp entry.0 first.text.now };

    fn compare(&self, entry: &(Name, u32)) -> Ordering {
        entry.0.as_str().as_bytes().cmp(self.text)
    }

    ghost rises = { λ first x y below. cardinality_firsts_rise x y first.text.now below };
}

// How many rows of the table have a first name that is less than these bytes, and how many have one that isn't greater.
pub(crate) fn range(state: &State, table: Table, first: &[u8]) -> (usize, usize)
    ensures { HasRange state.now.facts table first.now result.0 result.1 }
{
    let first = FirstName { text: first };
    match table {
        Table::Users => state.users().range(first),
        Table::Roles => state.roles().range(first),
        Table::Objects => state.objects().range(first),
        Table::Permissions => state.permissions().range(first),
        Table::Assignments => state.assignments().range(first),
        Table::Inheritances => state.order().edges().range(first),
        Table::ClosurePairs => state.order().pairs().range(first),
        Table::StaticMembers => state.ssd_members().range(first),
        Table::DynamicMembers => state.dsd_members().range(first),
        Table::Sessions => state.sessions().range(first),
        Table::ActivatedRoles => state.active().range(first),
        Table::Grants => state.grants().range(first),
        Table::StaticCardinalities => state.ssd_cardinalities().range(first),
        Table::DynamicCardinalities => state.dsd_cardinalities().range(first),
        Table::Locks => state.locked().range(first),
    }
}
