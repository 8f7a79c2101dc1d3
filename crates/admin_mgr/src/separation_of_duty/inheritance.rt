//! Which separation of duty sets one more immediate inheritance violates.
//!
//! Only a user or session that has the ascendant can come to violate a set. The roles of each of these
//! are collected once, and then the sets are checked one after another.
ghost use Rattle.std.specs.Prelude.{◌≡◌, IsTrue, IfOk, filter};
ghost use Rattle.std.specs.List.{list_all, list_any};
ghost use Rattle.std.specs.Option.{option_copied};
ghost use Rattle.rbac_sets.specs.Sets.{Cardinality, Pair, all, contains, members, pair_cmp};
ghost use Rattle.rbac_sets.specs.SortedSet.{set_of};
ghost use Rattle.admin_mgr.specs.private.HolderRoles.{find_violated, is_reached, is_touched, run_of};
ghost use Rattle.admin_mgr.specs.private.Holders.{runs_of};
ghost use Rattle.admin_mgr.specs.private.SeparationOfDuty.{sets_of};

use crate::separation_of_duty::SeparationOfDuty;
use crate::separation_of_duty::by_name::{is_reached, is_touched};
use crate::separation_of_duty::by_number::{first_violated_by, run_numbers};
use crate::state::State;
use chunked_sets::Run;
use order_matrix::{OrderMatrix, number};
use rbac_sets::{Name, PairSet, Refusal};
use role_order::RoleOrder;
use std::alloc::{AllocError, Global};

// The first set of this kind in byte order that a user or session that has `asc` would violate if it got
// `desc` as well. Only sets are considered that have `desc` or a junior of it as a member.
pub(crate) fn first_violated<'a>(
    alloc: Global,
    state: &'a State,
    duty: SeparationOfDuty,
    asc: &Name,
    desc: &Name,
) -> Result<Option<&'a (Name, u32)>, AllocError>
    requires { IsTrue (contains state.now.facts.roles desc.now) }
    ensures { IfOk result (λ found. option_copied found ≡ find_violated state.now.facts.edges
        (filter (λ held. is_reached state.now.facts.edges held asc.now) (runs_of duty state.now.facts)) desc.now
        (sets_of duty state.now.facts).members (members (sets_of duty state.now.facts).cardinalities)) }
{
    state.recall_good();
    let members = duty.members(state);
    let sets = duty.cardinalities(state).as_slice();
    if !touches_some(state.order(), desc, members, sets) {
        return Ok(None);
    }
    let runs = runs_with_role(alloc, state, duty, asc)?;
    match find_violated(alloc, state, &runs, desc, members, sets) {
        Ok(found) => Ok(found),
        Err(_) => Err(AllocError),
    }
}

// The assignments of each user who is authorized for the role, or the activated roles of each session that
// has the role.
fn runs_with_role<'a>(
    alloc: Global,
    state: &'a State,
    duty: SeparationOfDuty,
    role: &Name,
) -> Result<Vec<Run<'a, (Name, Name)>>, AllocError>
    ensures { IfOk result (λ runs. runs.items ≡ filter (λ held. is_reached state.now.facts.edges held role.now) (runs_of duty state.now.facts)) }
{
    duty.runs(state.relations())
        .filter(|held| is_reached(state.order(), held, role))
        .collect(alloc)
}

// Whether the role or a junior of it is a member of one of the sets.
fn touches_some(order: &RoleOrder, role: &Name, members: &PairSet, sets: &[(Name, u32)]) -> bool
    ensures { result ≡ list_any (λ (entry : Cardinality). is_touched order.now.edges role.now (run_of (set_of pair_cmp members.now) entry.0)) sets.now }
{
    sets.iter().any(|entry| is_touched(order, role, members.with_first(&entry.0)))
}

// The first of the sets that the holder of one of these runs violates if it gets one more role. Only sets
// are considered that have this role or a junior of it as a member. The reachability matrix is built only if
// there is a run.
fn find_violated<'a>(
    alloc: Global,
    state: &State,
    runs: &[Run<'_, (Name, Name)>],
    more: &Name,
    members: &PairSet,
    sets: &'a [(Name, u32)],
) -> Result<Option<&'a (Name, u32)>, Refusal>
    requires runs { IsTrue (list_all (λ run. list_all (λ (pair : Pair). contains state.now.facts.roles pair.1) run) runs.now) }
    requires more { IsTrue (contains state.now.facts.roles more.now) }
    requires members { IsTrue (all (λ (pair : Pair). contains state.now.facts.roles pair.1) (set_of pair_cmp members.now)) }
    ensures { IfOk result (λ found. option_copied found ≡ find_violated state.now.facts.edges runs.now more.now (set_of pair_cmp members.now) sets.now) }
{
    if runs.is_empty() {
        return Ok(None);
    }
    let roles = state.roles().as_slice();
    let table = OrderMatrix::new(alloc, state.order(), roles)?;
    let more = number(roles, more);
    let numbers = run_numbers(alloc, roles, runs, &[more])?;
    let found = first_violated_by(alloc, &table, roles, &numbers, more, members, sets)?;
    Ok(found)
}
