//! The verdicts on the commands of the role hierarchy.
ghost use Rattle.std.specs.Prelude.{◌≡◌, IfOk, IsTrue, false};
ghost use Rattle.rbac_sets.specs.Sets.{contains};
ghost use Rattle.rbac_sets.specs.declared.command.Command.TheVariants.{AddInheritance, DeleteInheritance, AddAscendant, AddDescendant};
ghost use Rattle.role_order.specs.Order.{geq};
ghost use Rattle.admin_mgr.specs.After.{after};
ghost use Rattle.admin_mgr.specs.Refusals.{first};
ghost use Rattle.admin_mgr.specs.private.SeparationOfDuty.{violates};
ghost use Rattle.admin_mgr.specs.Verdict.{verdict, add_inheritance_refusals};

use crate::judge::violation::name_violated;
use crate::limits::is_full;
use crate::separation_of_duty::SeparationOfDuty;
use crate::separation_of_duty::inheritance::first_violated;
use crate::state::State;
use rbac_sets::{Kind, Name, Refusal};
use std::alloc::{AllocError, Global};

// The verdict on AddInheritance.
#[tactic(auto, unfolding(crate::specs::Verdict::verdict, crate::specs::Verdict::refusals))]
pub(crate) fn judge_add_inheritance(
    alloc: Global,
    state: &State,
    asc: &Name,
    desc: &Name,
) -> Result<Option<Refusal>, AllocError>
    ensures { IfOk result (λ found. found ≡ verdict state.now.facts (AddInheritance asc.now desc.now)) }
{
    state.recall_good();
    if let Some(refusal) = refuse_inheritance(state, asc, desc) {
        return Ok(Some(refusal));
    }
    if let Some(refusal) = refuse_first_violated(
        alloc,
        state,
        SeparationOfDuty::Static,
        asc,
        desc,
    )? {
        return Ok(Some(refusal));
    }
    let violated = refuse_first_violated(alloc, state, SeparationOfDuty::Dynamic, asc, desc)?;
    Ok(violated)
}

// The refusal that names the first set of this kind in byte order that somebody would violate if `asc`
// became an immediate ascendant of `desc`.
fn refuse_first_violated(
    alloc: Global,
    state: &State,
    duty: SeparationOfDuty,
    asc: &Name,
    desc: &Name,
) -> Result<Option<Refusal>, AllocError>
    requires apart { geq state.now.facts.edges desc.now asc.now ≡ false }
    requires there { IsTrue (contains state.now.facts.roles desc.now) }
    ensures { IfOk result (λ found. found ≡ violates duty (after state.now.facts (AddInheritance asc.now desc.now))) }
{
    state.recall_good();
    let violated = first_violated(alloc, state, duty, asc, desc)?;
    let named = name_violated(alloc, duty, violated)?;
    Ok(named)
}

// Why `asc` can't become an immediate ascendant of `desc`, without the check of separation of duty.
fn refuse_inheritance(state: &State, asc: &Name, desc: &Name) -> Option<Refusal>
    ensures { result ≡ first (add_inheritance_refusals state.now.facts asc.now desc.now) }
{
    if !state.roles().contains(asc) {
        return Some(Refusal::NoRole);
    }
    if !state.roles().contains(desc) {
        return Some(Refusal::NoRole);
    }
    if state.order().has_edge(asc, desc) {
        return Some(Refusal::EdgeExists);
    }
    if state.order().geq(desc, asc) {
        return Some(Refusal::Cycle);
    }
    if is_full(state, Kind::Edge, state.order().edges().len()) {
        return Some(Refusal::TooMany(Kind::Edge));
    }
    None
}

// The verdict on DeleteInheritance.
#[tactic(auto, unfolding(crate::specs::Verdict::verdict, crate::specs::Verdict::refusals))]
pub(crate) fn judge_delete_inheritance(state: &State, asc: &Name, desc: &Name) -> Option<Refusal>
    ensures { result ≡ verdict state.now.facts (DeleteInheritance asc.now desc.now) }
{
    if !state.roles().contains(asc) {
        return Some(Refusal::NoRole);
    }
    if !state.roles().contains(desc) {
        return Some(Refusal::NoRole);
    }
    if !state.order().has_edge(asc, desc) {
        return Some(Refusal::NoEdge);
    }
    None
}

// The verdict on AddAscendant.
#[tactic(auto, unfolding(crate::specs::Verdict::verdict, crate::specs::Verdict::refusals))]
pub(crate) fn judge_add_ascendant(state: &State, asc: &Name, desc: &Name) -> Option<Refusal>
    ensures { result ≡ verdict state.now.facts (AddAscendant asc.now desc.now) }
{
    if !state.roles().contains(desc) {
        return Some(Refusal::NoRole);
    }
    if state.roles().contains(asc) {
        return Some(Refusal::RoleExists);
    }
    if is_full(state, Kind::Role, state.roles().len()) {
        return Some(Refusal::TooMany(Kind::Role));
    }
    if is_full(state, Kind::Edge, state.order().edges().len()) {
        return Some(Refusal::TooMany(Kind::Edge));
    }
    None
}

// The verdict on AddDescendant.
#[tactic(auto, unfolding(crate::specs::Verdict::verdict, crate::specs::Verdict::refusals))]
pub(crate) fn judge_add_descendant(state: &State, asc: &Name, desc: &Name) -> Option<Refusal>
    ensures { result ≡ verdict state.now.facts (AddDescendant asc.now desc.now) }
{
    if !state.roles().contains(asc) {
        return Some(Refusal::NoRole);
    }
    if state.roles().contains(desc) {
        return Some(Refusal::RoleExists);
    }
    if is_full(state, Kind::Role, state.roles().len()) {
        return Some(Refusal::TooMany(Kind::Role));
    }
    if is_full(state, Kind::Edge, state.order().edges().len()) {
        return Some(Refusal::TooMany(Kind::Edge));
    }
    None
}
