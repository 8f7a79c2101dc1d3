//! The order of some names by their places in a list.
ghost use Rattle.std.specs.Prelude.{◌≡◌, ◌<◌, [], length, get_or, IfOk, IfErr};
ghost use Rattle.rbac_sets.specs.Sets.{pair_cmp};
ghost use Rattle.rbac_sets.specs.SortedSet.{set_of};
ghost use Rattle.role_order.specs.Order.{geq};
ghost use Rattle.role_order.specs.private.Numbered.{AreEdgesOf};

use crate::numbered::Numbered;
use rbac_sets::{Name, PairSet, Refusal};
use std::alloc::Global;
use std::marker::Model;

/// The order of some names, by their places in a list: `RoleOrder::of_names` makes it.
///
/// Each name is searched for once, and then the order of two of them is known in constant time. In contracts the value is the edges of
/// the order and the list.
#[derive(Drop)]
pub struct OrderOfNames<'a> {
    edges: &'a PairSet,
    numbered: &'a Numbered,
    names: &'a [Name],
    // The number of each name, if it has one.
    numbers: Vec<Option<usize>>,
}

impl<'a> Model for OrderOfNames<'a> {
    ghost use Rattle.std.specs.Prelude.{◌≡◌, map};
    ghost use Rattle.rbac_sets.specs.Sets.{pair_cmp};
    ghost use Rattle.rbac_sets.specs.SortedSet.{set_of};
    ghost use Rattle.role_order.specs.Places.{Places, coded_places};
    ghost use Rattle.role_order.specs.private.Numbered.{AreEdgesOf, number_of};

    ghost Value = { Places };

    ghost coded = { coded_places };

    ghost view = { λ o. record { edges = set_of pair_cmp o.edges.now; names = o.names.now } };

    ghost invariant = { λ o. AreEdgesOf o.numbered.now (set_of pair_cmp o.edges.now) × (o.numbers.items ≡ map (number_of o.numbered.now.numbers) o.names.now) };
}

impl<'a> OrderOfNames<'a> {
    // The order of these edges. Their numbers are looked up.
    pub(crate) fn new(
        alloc: Global,
        edges: &'a PairSet,
        numbered: &'a Numbered,
        names: &'a [Name],
    ) -> Result<OrderOfNames<'a>, Refusal>
        requires { AreEdgesOf numbered.now (set_of pair_cmp edges.now) }
        ensures edges { IfOk result (λ order. order.edges ≡ set_of pair_cmp edges.now) }
        ensures names { IfOk result (λ order. order.names ≡ names.now) }
        ensures cause { IfErr result (λ refusal. refusal ≡ Refusal.Memory) }
    {
        let numbers = numbered.numbers_of(alloc, names)?;
        Ok(OrderOfNames {
            edges,
            numbered,
            names,
            numbers,
        })
    }

    /// How many places there are.
    pub fn len(&self) -> usize
        ensures { result ≡ length self.now.names }
    {
        self.names.len()
    }

    /// Whether the name at the place `a` is the one at the place `b`, or edges lead from it to that one.
    ///
    /// It takes constant time, and doesn't allocate.
    pub fn geq(&self, a: usize, b: usize) -> bool
        requires a { a < length self.now.names }
        requires b { b < length self.now.names }
        ensures { result ≡ geq self.now.edges (get_or self.now.names a []) (get_or self.now.names b []) }
    {
        self.numbered.is_geq(
            &self.names[a],
            self.numbers[a],
            &self.names[b],
            self.numbers[b],
        )
    }
}
