//! The verdicts on the commands on sessions.
ghost use Rattle.std.specs.Prelude.{◌≡◌, IfOk};
ghost use Rattle.std.specs.List.{list_all};
ghost use Rattle.rbac_sets.specs.Sets.{name_cmp};
ghost use Rattle.rbac_sets.specs.SortedSet.{set_of};
ghost use Rattle.rbac_sets.specs.declared.command.Command.TheVariants.{CreateSession, DeleteSession, AddActiveRole, DropActiveRole};
ghost use Rattle.admin_mgr.specs.Authorization.{is_authorized};
ghost use Rattle.admin_mgr.specs.Refusals.{first};
ghost use Rattle.admin_mgr.specs.Verdict.{verdict, create_session_refusals, add_active_role_refusals};

use crate::judge::set_refusals::member_count;
use crate::judge::violation::name_violated;
use crate::limits::{is_full, is_too_many};
use crate::lookup::are_in;
use crate::separation_of_duty::SeparationOfDuty;
use crate::separation_of_duty::by_name::{first_with_all, first_with_one, is_reached};
use crate::state::State;
use chunked_sets::has_first;
use rbac_sets::{Kind, Name, NameSet, Refusal};
use std::alloc::{AllocError, Global};

// The verdict on CreateSession.
#[tactic(auto, unfolding(crate::specs::Verdict::verdict, crate::specs::Verdict::refusals))]
pub(crate) fn judge_create_session(
    alloc: Global,
    state: &State,
    user: &Name,
    roles: &NameSet,
    session: &Name,
) -> Result<Option<Refusal>, AllocError>
    ensures { IfOk result (λ found. found ≡ verdict state.now.facts (CreateSession user.now roles.now session.now)) }
{
    state.recall_good();
    if let Some(refusal) = refuse_session(state, user, roles, session) {
        return Ok(Some(refusal));
    }
    let names = roles.as_slice();
    let sets = state.dsd_cardinalities().as_slice();
    let violated = first_with_all(state.order(), names, state.dsd_members(), sets);
    let named = name_violated(alloc, SeparationOfDuty::Dynamic, violated)?;
    Ok(named)
}

// Why the user can't have a new session with these roles, without the check of dynamic separation.
#[tactic(auto, unfolding(rbac_sets::specs::Sets::all))]
fn refuse_session(state: &State, user: &Name, roles: &NameSet, session: &Name) -> Option<Refusal>
    ensures { result ≡ first (create_session_refusals state.now.facts user.now (set_of name_cmp roles.now) session.now) }
{
    if !state.users().contains(user) {
        return Some(Refusal::NoUser);
    }
    if !are_in(roles.as_slice(), state.roles()) {
        return Some(Refusal::NoRole);
    }
    if has_first(state.sessions(), session) {
        return Some(Refusal::SessionExists);
    }
    if !are_authorized(state, user, roles.as_slice()) {
        return Some(Refusal::NotAuthorized);
    }
    if state.locked().contains(user) {
        return Some(Refusal::UserLocked);
    }
    if is_full(state, Kind::Session, state.sessions().len()) {
        return Some(Refusal::TooMany(Kind::Session));
    }
    if is_too_many(state, Kind::ActiveRole, roles.len()) {
        return Some(Refusal::TooMany(Kind::ActiveRole));
    }
    None
}

// Whether the user is authorized for each of the roles.
fn are_authorized(state: &State, user: &Name, roles: &[Name]) -> bool
    ensures { result ≡ list_all (is_authorized state.now.facts user.now) roles.now }
{
    roles.iter().all(|role| is_authorized(state, user, role))
}

// Whether the user is authorized for the role.
fn is_authorized(state: &State, user: &Name, role: &Name) -> bool
    ensures { result ≡ is_authorized state.now.facts user.now role.now }
{
    let held = state.assignments().with_first(user);
    is_reached(state.order(), &held, role)
}

// The verdict on DeleteSession.
#[tactic(auto, unfolding(crate::specs::Verdict::verdict, crate::specs::Verdict::refusals))]
pub(crate) fn judge_delete_session(state: &State, user: &Name, session: &Name) -> Option<Refusal>
    ensures { result ≡ verdict state.now.facts (DeleteSession user.now session.now) }
{
    if !state.users().contains(user) {
        return Some(Refusal::NoUser);
    }
    if !has_first(state.sessions(), session) {
        return Some(Refusal::NoSession);
    }
    if !state.sessions().contains((session, user)) {
        return Some(Refusal::NotOwner);
    }
    None
}

// The verdict on AddActiveRole.
#[tactic(auto, unfolding(crate::specs::Verdict::verdict, crate::specs::Verdict::refusals))]
pub(crate) fn judge_add_active_role(
    alloc: Global,
    state: &State,
    user: &Name,
    session: &Name,
    role: &Name,
) -> Result<Option<Refusal>, AllocError>
    ensures { IfOk result (λ found. found ≡ verdict state.now.facts (AddActiveRole user.now session.now role.now)) }
{
    state.recall_good();
    if let Some(refusal) = refuse_activation(state, user, session, role) {
        return Ok(Some(refusal));
    }
    let held = state.active().with_first(session);
    let sets = state.dsd_cardinalities().as_slice();
    let violated = first_with_one(state.order(), &held, role, state.dsd_members(), sets);
    let named = name_violated(alloc, SeparationOfDuty::Dynamic, violated)?;
    Ok(named)
}

// Why the role can't be activated in the session, without the check of dynamic separation.
fn refuse_activation(state: &State, user: &Name, session: &Name, role: &Name) -> Option<Refusal>
    ensures { result ≡ first (add_active_role_refusals state.now.facts user.now session.now role.now) }
{
    if !state.users().contains(user) {
        return Some(Refusal::NoUser);
    }
    if !has_first(state.sessions(), session) {
        return Some(Refusal::NoSession);
    }
    if !state.roles().contains(role) {
        return Some(Refusal::NoRole);
    }
    if !state.sessions().contains((session, user)) {
        return Some(Refusal::NotOwner);
    }
    if state.active().contains((session, role)) {
        return Some(Refusal::AlreadyActive);
    }
    if !is_authorized(state, user, role) {
        return Some(Refusal::NotAuthorized);
    }
    if is_full(
        state,
        Kind::ActiveRole,
        member_count(state.active(), session),
    ) {
        return Some(Refusal::TooMany(Kind::ActiveRole));
    }
    None
}

// The verdict on DropActiveRole.
#[tactic(auto, unfolding(crate::specs::Verdict::verdict, crate::specs::Verdict::refusals))]
pub(crate) fn judge_drop_active_role(
    state: &State,
    user: &Name,
    session: &Name,
    role: &Name,
) -> Option<Refusal>
    ensures { result ≡ verdict state.now.facts (DropActiveRole user.now session.now role.now) }
{
    if !state.users().contains(user) {
        return Some(Refusal::NoUser);
    }
    if !has_first(state.sessions(), session) {
        return Some(Refusal::NoSession);
    }
    if !state.roles().contains(role) {
        return Some(Refusal::NoRole);
    }
    if !state.sessions().contains((session, user)) {
        return Some(Refusal::NotOwner);
    }
    if !state.active().contains((session, role)) {
        return Some(Refusal::NotActive);
    }
    None
}
