//! A planned change of one edge.
ghost use Rattle.std.specs.Prelude.{◌≡◌, Bool, IfOk, IfErr};
ghost use Rattle.rbac_sets.specs.Sets.{Bytes, pair_cmp};
ghost use Rattle.rbac_sets.specs.SortedSet.{set_of};
ghost use Rattle.role_order.specs.Planned.{Plan};

use rbac_sets::{Name, PairSet, Refusal};
use std::alloc::Global;
use std::marker::Model;

/// A planned change of one edge of an order, with the pairs that its closure gains and loses.
///
/// `RoleOrder::plan_add` or `RoleOrder::plan_remove` makes the plan, and `RoleOrder::commit` applies
/// it. In contracts the value is the edge, whether it is added or removed, the two sets of pairs and
/// the number of pairs that were judged.
#[derive(Drop)]
pub struct OrderPlan {
    pub(crate) adds: bool,
    pub(crate) asc: Name,
    pub(crate) desc: Name,
    pub(crate) puts: PairSet,
    pub(crate) takes: PairSet,
    pub(crate) judged: u64,
    // Copies of `asc` and `desc`, for their numbers.
    pub(crate) ends: (Name, Name),
}

impl Model for OrderPlan {
    ghost use Rattle.std.specs.Prelude.{◌≡◌};
    ghost use Rattle.rbac_sets.specs.Sets.{pair_cmp};
    ghost use Rattle.rbac_sets.specs.SortedSet.{set_of};
    ghost use Rattle.role_order.specs.Planned.{Plan, coded_plan};

    ghost Value = { Plan };

    ghost coded = { coded_plan };

    ghost view = { λ p. record {
      adds = p.adds;
      asc = p.asc;
      desc = p.desc;
      puts = set_of pair_cmp p.puts;
      takes = set_of pair_cmp p.takes;
      judged = p.judged;
    } };

    ghost invariant = { λ p. p.ends ≡ (p.asc, p.desc) };
}

impl OrderPlan {
    // The plan that adds or removes the edge from `asc` to `desc`, with these pairs.
    pub(crate) fn new(
        alloc: Global,
        adds: bool,
        asc: &Name,
        desc: &Name,
        puts: PairSet,
        takes: PairSet,
        judged: u64,
    ) -> Result<OrderPlan, Refusal>
        ensures ok { IfOk result (λ plan. plan ≡ record {
          adds = adds;
          asc = asc.now;
          desc = desc.now;
          puts = set_of pair_cmp puts;
          takes = set_of pair_cmp takes;
          judged = judged;
        }) }
        ensures cause { IfErr result (λ refusal. refusal ≡ Refusal.Memory) }
    {
        let ends = (asc.copy(alloc)?, desc.copy(alloc)?);
        Ok(OrderPlan {
            adds,
            asc: asc.copy(alloc)?,
            desc: desc.copy(alloc)?,
            puts,
            takes,
            judged,
            ends,
        })
    }

    /// The pairs of different roles of which the first becomes senior to the second.
    ///
    /// It doesn't allocate.
    pub fn puts(&self) -> &PairSet
        ensures { set_of pair_cmp result.now ≡ self.now.puts }
    {
        &self.puts
    }

    /// The pairs of different roles of which the first is no longer senior to the second.
    ///
    /// It doesn't allocate.
    pub fn takes(&self) -> &PairSet
        ensures { set_of pair_cmp result.now ≡ self.now.takes }
    {
        &self.takes
    }

    /// How many pairs were judged: those of the ascendant or a senior of it and the descendant or a
    /// junior of it.
    ///
    /// This is the cost of the plan, for callers that measure or bound the work of a change; `commit`
    /// uses only the pairs. It doesn't allocate.
    pub fn judged(&self) -> u64
        ensures { result ≡ self.now.judged }
    {
        self.judged
    }
}
