//! The verdicts on the commands on separation of duty sets, static or dynamic.
ghost use Rattle.std.specs.Prelude.{◌≡◌, IfOk};
ghost use Rattle.admin_mgr.specs.Verdict.{verdict};
ghost use Rattle.admin_mgr.specs.private.SeparationOfDuty.{create_set, add_member, delete_member, set_cardinality, delete_set};

use crate::judge::set_refusals::{
    has_set, refuse_cardinality, refuse_member, refuse_member_removal, refuse_set, refuse_violated,
};
use crate::separation_of_duty::SeparationOfDuty;
use crate::separation_of_duty::keeping::{keeps, keeps_set, keeps_with};
use crate::state::State;
use rbac_sets::{Name, NameSet, Refusal};
use std::alloc::{AllocError, Global};

// The verdict on CreateSsdSet or CreateDsdSet.
#[tactic(auto, unfolding(crate::specs::Verdict::verdict, crate::specs::Verdict::refusals))]
pub(crate) fn judge_create_set(
    alloc: Global,
    state: &State,
    duty: SeparationOfDuty,
    set: &Name,
    roles: &NameSet,
    cardinality: u32,
) -> Result<Option<Refusal>, AllocError>
    ensures { IfOk result (λ found. found ≡ verdict state.now.facts (create_set duty set.now roles.now cardinality)) }
{
    state.recall_good();
    if let Some(refusal) = refuse_set(
        state,
        duty.kind(),
        duty.cardinalities(state),
        set,
        roles,
        cardinality,
    ) {
        return Ok(Some(refusal));
    }
    let Ok(kept) = keeps(alloc, state, duty, roles, cardinality) else {
        return Err(AllocError);
    };
    let violated = refuse_violated(alloc, duty, kept, set)?;
    Ok(violated)
}

// The verdict on AddSsdRoleMember or AddDsdRoleMember.
#[tactic(auto, unfolding(crate::specs::Verdict::verdict, crate::specs::Verdict::refusals))]
pub(crate) fn judge_add_member(
    alloc: Global,
    state: &State,
    duty: SeparationOfDuty,
    set: &Name,
    role: &Name,
) -> Result<Option<Refusal>, AllocError>
    ensures { IfOk result (λ found. found ≡ verdict state.now.facts (add_member duty set.now role.now)) }
{
    state.recall_good();
    if let Some(refusal) = refuse_member(
        state,
        duty.members(state),
        duty.cardinalities(state),
        set,
        role,
    ) {
        return Ok(Some(refusal));
    }
    let cardinality = duty.cardinality(state, set).unwrap();
    let Ok(kept) = keeps_with(alloc, state, duty, set, cardinality, role) else {
        return Err(AllocError);
    };
    let violated = refuse_violated(alloc, duty, kept, set)?;
    Ok(violated)
}

// The verdict on DeleteSsdRoleMember or DeleteDsdRoleMember.
#[tactic(auto, unfolding(crate::specs::Verdict::verdict, crate::specs::Verdict::refusals))]
pub(crate) fn judge_delete_member(
    state: &State,
    duty: SeparationOfDuty,
    set: &Name,
    role: &Name,
) -> Option<Refusal>
    ensures { result ≡ verdict state.now.facts (delete_member duty set.now role.now) }
{
    refuse_member_removal(
        state,
        duty.members(state),
        duty.cardinalities(state),
        set,
        role,
    )
}

// The verdict on SetSsdSetCardinality or SetDsdSetCardinality.
#[tactic(auto, unfolding(crate::specs::Verdict::verdict, crate::specs::Verdict::refusals))]
pub(crate) fn judge_set_cardinality(
    alloc: Global,
    state: &State,
    duty: SeparationOfDuty,
    set: &Name,
    cardinality: u32,
) -> Result<Option<Refusal>, AllocError>
    ensures { IfOk result (λ found. found ≡ verdict state.now.facts (set_cardinality duty set.now cardinality)) }
{
    state.recall_good();
    if let Some(refusal) = refuse_cardinality(
        duty.members(state),
        duty.cardinalities(state),
        set,
        cardinality,
    ) {
        return Ok(Some(refusal));
    }
    let before = duty.cardinality(state, set).unwrap();
    let Ok(kept) = keeps_set(alloc, state, duty, set, before, cardinality) else {
        return Err(AllocError);
    };
    let violated = refuse_violated(alloc, duty, kept, set)?;
    Ok(violated)
}

// The verdict on DeleteSsdSet or DeleteDsdSet.
#[tactic(auto, unfolding(crate::specs::Verdict::verdict, crate::specs::Verdict::refusals, rbac_sets::specs::Sets::any))]
pub(crate) fn judge_delete_set(state: &State, duty: SeparationOfDuty, set: &Name) -> Option<Refusal>
    ensures { result ≡ verdict state.now.facts (delete_set duty set.now) }
{
    if !has_set(duty.cardinalities(state), set) {
        return Some(Refusal::NoSet);
    }
    None
}
