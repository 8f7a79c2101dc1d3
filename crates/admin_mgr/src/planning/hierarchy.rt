//! The plans of the commands on the role hierarchy.
ghost use Rattle.std.specs.Prelude.{◌≡◌, ◌++◌, true, false, None, IfOk, IfErr, OnOk};
ghost use Rattle.rbac_sets.specs.Sets.{contains};
ghost use Rattle.role_order.specs.Order.{geq};
ghost use Rattle.role_order.specs.Planned.{IsOrderPlanOf};
ghost use Rattle.rbac_sets.specs.declared.command.Command.TheVariants.{AddInheritance, DeleteInheritance, AddAscendant, AddDescendant};
ghost use Rattle.admin_mgr.specs.private.PlanChanges.{order_puts, order_takes};
ghost use Rattle.admin_mgr.specs.Verdict.{verdict};
ghost use Rattle.admin_mgr.specs.PlanEffect.{IsPlanOf};

use crate::plan::Plan;
use crate::planning::ending::{Loss, take_ended};
use crate::planning::making::with_order;
use crate::planning::rows::{pair_row, put, put_pairs, take, take_pairs};
use crate::state::State;
use chunked_sets::Run;
use rbac_sets::{Change, Name, Refusal, Row};
use role_order::OrderPlan;
use std::alloc::Global;

// The plan of AddInheritance.
#[tactic(auto, using(crate::proofs::StateAfter::GoodInheritance::no_edge, crate::proofs::StateAfter::GoodInheritance::no_way_back))]
pub(crate) fn plan_add_inheritance(
    alloc: Global,
    state: &State,
    asc: &Name,
    desc: &Name,
) -> Result<Plan, Refusal>
    requires accepted { verdict state.now.facts (AddInheritance asc.now desc.now) ≡ None }
    ensures planned { IfOk result (IsPlanOf state.now.facts (AddInheritance asc.now desc.now)) }
    ensures cause { IfErr result (λ refusal. refusal ≡ Refusal.Memory) }
{
    state.recall_good();
    let order = order_with_edge(alloc, state, asc, desc)?;
    let mut changes = Vec::new(alloc);
    put_edge(alloc, &mut changes, asc, desc, &order)?;
    Ok(with_order(alloc, changes, order))
}

// The plan of DeleteInheritance: sessions may end.
#[tactic(auto, using(crate::proofs::PlanRows::EdgeTurns::edge_there))]
pub(crate) fn plan_delete_inheritance(
    alloc: Global,
    state: &State,
    asc: &Name,
    desc: &Name,
) -> Result<Plan, Refusal>
    requires accepted { verdict state.now.facts (DeleteInheritance asc.now desc.now) ≡ None }
    ensures planned { IfOk result (IsPlanOf state.now.facts (DeleteInheritance asc.now desc.now)) }
    ensures cause { IfErr result (λ refusal. refusal ≡ Refusal.Memory) }
{
    state.recall_good();
    let order = order_without_edge(alloc, state, asc, desc)?;
    let mut changes = Vec::new(alloc);
    take_edge(alloc, &mut changes, asc, desc, &order)?;
    take_ended(alloc, &mut changes, state, Loss::Pairs(order.takes()))?;
    Ok(with_order(alloc, changes, order))
}

// The plan of AddAscendant: it adds the role `asc` and its edge.
#[tactic(auto, using(crate::proofs::StateAfter::NewRoleLaws::add_ascendant_no_edge, crate::proofs::PlanRows::EdgeTurns::ascendant_makes_no_cycle))]
pub(crate) fn plan_add_ascendant(
    alloc: Global,
    state: &State,
    asc: &Name,
    desc: &Name,
) -> Result<Plan, Refusal>
    requires accepted { verdict state.now.facts (AddAscendant asc.now desc.now) ≡ None }
    ensures planned { IfOk result (IsPlanOf state.now.facts (AddAscendant asc.now desc.now)) }
    ensures cause { IfErr result (λ refusal. refusal ≡ Refusal.Memory) }
{
    state.recall_good();
    let order = order_with_edge(alloc, state, asc, desc)?;
    let mut changes = Vec::new(alloc);
    put(&mut changes, Row::role(asc.copy(alloc)?))?;
    put_edge(alloc, &mut changes, asc, desc, &order)?;
    Ok(with_order(alloc, changes, order))
}

// The plan of AddDescendant: it adds the role `desc` and its edge.
#[tactic(auto, using(crate::proofs::StateAfter::NewRoleLaws::add_descendant_no_edge, crate::proofs::PlanRows::EdgeTurns::descendant_makes_no_cycle))]
pub(crate) fn plan_add_descendant(
    alloc: Global,
    state: &State,
    asc: &Name,
    desc: &Name,
) -> Result<Plan, Refusal>
    requires accepted { verdict state.now.facts (AddDescendant asc.now desc.now) ≡ None }
    ensures planned { IfOk result (IsPlanOf state.now.facts (AddDescendant asc.now desc.now)) }
    ensures cause { IfErr result (λ refusal. refusal ≡ Refusal.Memory) }
{
    state.recall_good();
    let order = order_with_edge(alloc, state, asc, desc)?;
    let mut changes = Vec::new(alloc);
    put(&mut changes, Row::role(desc.copy(alloc)?))?;
    put_edge(alloc, &mut changes, asc, desc, &order)?;
    Ok(with_order(alloc, changes, order))
}

// The plan of the role hierarchy that adds an edge.
fn order_with_edge(
    alloc: Global,
    state: &State,
    asc: &Name,
    desc: &Name,
) -> Result<OrderPlan, Refusal>
    requires absent { contains state.now.facts.edges (asc.now, desc.now) ≡ false }
    requires no_cycle { geq state.now.facts.edges desc.now asc.now ≡ false }
    ensures planned { IfOk result (IsOrderPlanOf state.now.facts.edges true asc.now desc.now) }
    ensures cause { IfErr result (λ refusal. refusal ≡ Refusal.Memory) }
{
    state.order().plan_add(alloc, asc, desc)
}

// The plan of the role hierarchy that removes an edge.
fn order_without_edge(
    alloc: Global,
    state: &State,
    asc: &Name,
    desc: &Name,
) -> Result<OrderPlan, Refusal>
    requires there { contains state.now.facts.edges (asc.now, desc.now) ≡ true }
    ensures planned { IfOk result (IsOrderPlanOf state.now.facts.edges false asc.now desc.now) }
    ensures cause { IfErr result (λ refusal. refusal ≡ Refusal.Memory) }
{
    state.order().plan_remove(alloc, asc, desc)
}

// Adds the changes that put an edge and the pairs that its plan puts into the closure.
fn put_edge(
    alloc: Global,
    changes: &mut Vec<Change>,
    asc: &Name,
    desc: &Name,
    order: &OrderPlan,
) -> Result<(), Refusal>
    ensures ok { OnOk result (changes.new.items ≡ changes.old.items ++ order_puts asc.now desc.now order.now.puts) }
    ensures cause { IfErr result (λ refusal. refusal ≡ Refusal.Memory) }
{
    put(changes, pair_row(alloc, Row::INHERITANCE, asc, desc)?)?;
    put_pairs(alloc, changes, Row::CLOSURE_PAIR, order.puts().as_slice())
}

// Adds the changes that take an edge and the pairs that its plan takes from the closure.
fn take_edge(
    alloc: Global,
    changes: &mut Vec<Change>,
    asc: &Name,
    desc: &Name,
    order: &OrderPlan,
) -> Result<(), Refusal>
    ensures ok { OnOk result (changes.new.items ≡ changes.old.items ++ order_takes asc.now desc.now order.now.takes) }
    ensures cause { IfErr result (λ refusal. refusal ≡ Refusal.Memory) }
{
    take(changes, pair_row(alloc, Row::INHERITANCE, asc, desc)?)?;
    take_pairs(
        alloc,
        changes,
        Row::CLOSURE_PAIR,
        &Run::of(order.takes().as_slice()),
    )
}
