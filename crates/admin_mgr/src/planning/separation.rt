//! The plans of the commands on separation of duty sets, static or dynamic.
ghost use Rattle.std.specs.Prelude.{◌≡◌, None, IfOk, IfErr};
ghost use Rattle.admin_mgr.specs.Verdict.{verdict};
ghost use Rattle.admin_mgr.specs.PlanEffect.{IsPlanOf};
ghost use Rattle.admin_mgr.specs.private.SeparationOfDuty.{create_set, add_member, delete_member, set_cardinality, delete_set};

use crate::plan::Plan;
use crate::planning::making::plain;
use crate::planning::rows::{pair_row, put, put_paired, set_row, take, take_pairs};
use crate::separation_of_duty::SeparationOfDuty;
use crate::state::State;
use chunked_sets::Run;
use rbac_sets::{Name, NameSet, Refusal};
use std::alloc::Global;

// The plan of CreateSsdSet or CreateDsdSet.
pub(crate) fn plan_create_set(
    alloc: Global,
    state: &State,
    duty: SeparationOfDuty,
    set: &Name,
    roles: &NameSet,
    cardinality: u32,
) -> Result<Plan, Refusal>
    requires accepted { verdict state.now.facts (create_set duty set.now roles.now cardinality) ≡ None }
    ensures planned { IfOk result (IsPlanOf state.now.facts (create_set duty set.now roles.now cardinality)) }
    ensures cause { IfErr result (λ refusal. refusal ≡ Refusal.Memory) }
{
    state.recall_good();
    let mut changes = Vec::new(alloc);
    put(
        &mut changes,
        set_row(alloc, duty.cardinality_rows(), set, cardinality)?,
    )?;
    put_paired(
        alloc,
        &mut changes,
        duty.member_rows(),
        set,
        roles.as_slice(),
    )?;
    Ok(plain(alloc, changes))
}

// The plan of AddSsdRoleMember or AddDsdRoleMember.
pub(crate) fn plan_add_member(
    alloc: Global,
    state: &State,
    duty: SeparationOfDuty,
    set: &Name,
    role: &Name,
) -> Result<Plan, Refusal>
    requires accepted { verdict state.now.facts (add_member duty set.now role.now) ≡ None }
    ensures planned { IfOk result (IsPlanOf state.now.facts (add_member duty set.now role.now)) }
    ensures cause { IfErr result (λ refusal. refusal ≡ Refusal.Memory) }
{
    state.recall_good();
    let mut changes = Vec::new(alloc);
    put(
        &mut changes,
        pair_row(alloc, duty.member_rows(), set, role)?,
    )?;
    Ok(plain(alloc, changes))
}

// The plan of DeleteSsdRoleMember or DeleteDsdRoleMember.
pub(crate) fn plan_delete_member(
    alloc: Global,
    state: &State,
    duty: SeparationOfDuty,
    set: &Name,
    role: &Name,
) -> Result<Plan, Refusal>
    requires accepted { verdict state.now.facts (delete_member duty set.now role.now) ≡ None }
    ensures planned { IfOk result (IsPlanOf state.now.facts (delete_member duty set.now role.now)) }
    ensures cause { IfErr result (λ refusal. refusal ≡ Refusal.Memory) }
{
    state.recall_good();
    let mut changes = Vec::new(alloc);
    take(
        &mut changes,
        pair_row(alloc, duty.member_rows(), set, role)?,
    )?;
    Ok(plain(alloc, changes))
}

// The plan of SetSsdSetCardinality or SetDsdSetCardinality. The same cardinality changes nothing.
pub(crate) fn plan_set_cardinality(
    alloc: Global,
    state: &State,
    duty: SeparationOfDuty,
    set: &Name,
    cardinality: u32,
) -> Result<Plan, Refusal>
    requires accepted { verdict state.now.facts (set_cardinality duty set.now cardinality) ≡ None }
    ensures planned { IfOk result (IsPlanOf state.now.facts (set_cardinality duty set.now cardinality)) }
    ensures cause { IfErr result (λ refusal. refusal ≡ Refusal.Memory) }
{
    state.recall_good();
    let mut changes = Vec::new(alloc);
    if let Some(before) = duty.cardinality(state, set) {
        if before != cardinality {
            take(
                &mut changes,
                set_row(alloc, duty.cardinality_rows(), set, before)?,
            )?;
            put(
                &mut changes,
                set_row(alloc, duty.cardinality_rows(), set, cardinality)?,
            )?;
        }
    }
    Ok(plain(alloc, changes))
}

// The plan of DeleteSsdSet or DeleteDsdSet: it removes the set and its members.
pub(crate) fn plan_delete_set(
    alloc: Global,
    state: &State,
    duty: SeparationOfDuty,
    set: &Name,
) -> Result<Plan, Refusal>
    requires accepted { verdict state.now.facts (delete_set duty set.now) ≡ None }
    ensures planned { IfOk result (IsPlanOf state.now.facts (delete_set duty set.now)) }
    ensures cause { IfErr result (λ refusal. refusal ≡ Refusal.Memory) }
{
    state.recall_good();
    let mut changes = Vec::new(alloc);
    if let Some(cardinality) = duty.cardinality(state, set) {
        take(
            &mut changes,
            set_row(alloc, duty.cardinality_rows(), set, cardinality)?,
        )?;
    }
    take_pairs(
        alloc,
        &mut changes,
        duty.member_rows(),
        &Run::of(duty.members(state).with_first(set)),
    )?;
    Ok(plain(alloc, changes))
}
