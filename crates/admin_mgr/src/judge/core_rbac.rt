//! The verdicts on the commands of core RBAC except those on sessions, and on the commands on locks and the
//! import.
ghost use Rattle.std.specs.Prelude.{◌≡◌, IfOk};
ghost use Rattle.rbac_sets.specs.declared.command.Command.TheVariants.{AddUser, DeleteUser, AddRole, DeleteRole, AddPermObj, DeletePermObj, AddPermission, DeletePermission, GrantPermission, RevokePermission, AssignUser, DeassignUser, ImportAssignments, LockUserAccount, UnlockUserAccount};
ghost use Rattle.admin_mgr.specs.Assignment.{assign_user_refusals};
ghost use Rattle.admin_mgr.specs.Refusals.{first};
ghost use Rattle.admin_mgr.specs.Verdict.{verdict};
ghost use Rattle.admin_mgr.specs.Verdict.{is_in_use};

use crate::judge::violation::name_violated;
use crate::limits::{is_full, is_too_many};
use crate::lookup::has_part;
use crate::separation_of_duty::SeparationOfDuty;
use crate::separation_of_duty::by_name::first_with_one;
use crate::state::State;
use chunked_sets::has_first;
use rbac_sets::{Kind, Name, Refusal, has_second};
use std::alloc::{AllocError, Global};

// The verdict on AddUser.
#[tactic(auto, unfolding(crate::specs::Verdict::verdict, crate::specs::Verdict::refusals))]
pub(crate) fn judge_add_user(state: &State, user: &Name) -> Option<Refusal>
    ensures { result ≡ verdict state.now.facts (AddUser user.now) }
{
    if state.users().contains(user) {
        return Some(Refusal::UserExists);
    }
    if is_full(state, Kind::User, state.users().len()) {
        return Some(Refusal::TooMany(Kind::User));
    }
    None
}

// The verdict on DeleteUser.
#[tactic(auto, unfolding(crate::specs::Verdict::verdict, crate::specs::Verdict::refusals))]
pub(crate) fn judge_delete_user(state: &State, user: &Name) -> Option<Refusal>
    ensures { result ≡ verdict state.now.facts (DeleteUser user.now) }
{
    if !state.users().contains(user) {
        return Some(Refusal::NoUser);
    }
    None
}

// The verdict on AddRole.
#[tactic(auto, unfolding(crate::specs::Verdict::verdict, crate::specs::Verdict::refusals))]
pub(crate) fn judge_add_role(state: &State, role: &Name) -> Option<Refusal>
    ensures { result ≡ verdict state.now.facts (AddRole role.now) }
{
    if state.roles().contains(role) {
        return Some(Refusal::RoleExists);
    }
    if is_full(state, Kind::Role, state.roles().len()) {
        return Some(Refusal::TooMany(Kind::Role));
    }
    None
}

// The verdict on DeleteRole.
#[tactic(auto, unfolding(crate::specs::Verdict::verdict, crate::specs::Verdict::refusals))]
pub(crate) fn judge_delete_role(state: &State, role: &Name) -> Option<Refusal>
    ensures { result ≡ verdict state.now.facts (DeleteRole role.now) }
{
    if !state.roles().contains(role) {
        return Some(Refusal::NoRole);
    }
    if is_in_use(state, role) {
        return Some(Refusal::RoleInUse);
    }
    None
}

// Whether the role has an immediate inheritance or is a member of a separation of duty set.
#[tactic(auto, unfolding(rbac_sets::specs::Sets::any))]
fn is_in_use(state: &State, role: &Name) -> bool
    ensures { result ≡ is_in_use state.now.facts role.now }
{
    has_part(state.order().edges().as_slice(), role)
        || has_second(state.ssd_members().as_slice(), role)
        || has_second(state.dsd_members().as_slice(), role)
}

// The verdict on AddPermObj.
#[tactic(auto, unfolding(crate::specs::Verdict::verdict, crate::specs::Verdict::refusals))]
pub(crate) fn judge_add_perm_obj(state: &State, object: &Name) -> Option<Refusal>
    ensures { result ≡ verdict state.now.facts (AddPermObj object.now) }
{
    if state.objects().contains(object) {
        return Some(Refusal::ObjectExists);
    }
    if is_full(state, Kind::Object, state.objects().len()) {
        return Some(Refusal::TooMany(Kind::Object));
    }
    None
}

// The verdict on DeletePermObj.
#[tactic(auto, unfolding(crate::specs::Verdict::verdict, crate::specs::Verdict::refusals))]
pub(crate) fn judge_delete_perm_obj(state: &State, object: &Name) -> Option<Refusal>
    ensures { result ≡ verdict state.now.facts (DeletePermObj object.now) }
{
    if !state.objects().contains(object) {
        return Some(Refusal::NoObject);
    }
    if has_first(state.permissions(), object) {
        return Some(Refusal::ObjectInUse);
    }
    None
}

// The verdict on AddPermission.
#[tactic(auto, unfolding(crate::specs::Verdict::verdict, crate::specs::Verdict::refusals))]
pub(crate) fn judge_add_permission(
    state: &State,
    object: &Name,
    operation: &Name,
) -> Option<Refusal>
    ensures { result ≡ verdict state.now.facts (AddPermission object.now operation.now) }
{
    if !state.objects().contains(object) {
        return Some(Refusal::NoObject);
    }
    if state.permissions().contains((object, operation)) {
        return Some(Refusal::PermissionExists);
    }
    if is_full(state, Kind::Permission, state.permissions().len()) {
        return Some(Refusal::TooMany(Kind::Permission));
    }
    None
}

// The verdict on DeletePermission.
#[tactic(auto, unfolding(crate::specs::Verdict::verdict, crate::specs::Verdict::refusals))]
pub(crate) fn judge_delete_permission(
    state: &State,
    object: &Name,
    operation: &Name,
) -> Option<Refusal>
    ensures { result ≡ verdict state.now.facts (DeletePermission object.now operation.now) }
{
    if !state.objects().contains(object) {
        return Some(Refusal::NoObject);
    }
    if !state.permissions().contains((object, operation)) {
        return Some(Refusal::NoPermission);
    }
    None
}

// The verdict on GrantPermission.
#[tactic(auto, unfolding(crate::specs::Verdict::verdict, crate::specs::Verdict::refusals))]
pub(crate) fn judge_grant_permission(
    state: &State,
    object: &Name,
    operation: &Name,
    role: &Name,
) -> Option<Refusal>
    ensures { result ≡ verdict state.now.facts (GrantPermission object.now operation.now role.now) }
{
    if !state.objects().contains(object) {
        return Some(Refusal::NoObject);
    }
    if !state.permissions().contains((object, operation)) {
        return Some(Refusal::NoPermission);
    }
    if !state.roles().contains(role) {
        return Some(Refusal::NoRole);
    }
    if state.grants().contains((object, operation, role)) {
        return Some(Refusal::AlreadyGranted);
    }
    if is_full(state, Kind::Grant, state.grants().len()) {
        return Some(Refusal::TooMany(Kind::Grant));
    }
    None
}

// The verdict on RevokePermission.
#[tactic(auto, unfolding(crate::specs::Verdict::verdict, crate::specs::Verdict::refusals))]
pub(crate) fn judge_revoke_permission(
    state: &State,
    object: &Name,
    operation: &Name,
    role: &Name,
) -> Option<Refusal>
    ensures { result ≡ verdict state.now.facts (RevokePermission object.now operation.now role.now) }
{
    if !state.objects().contains(object) {
        return Some(Refusal::NoObject);
    }
    if !state.permissions().contains((object, operation)) {
        return Some(Refusal::NoPermission);
    }
    if !state.roles().contains(role) {
        return Some(Refusal::NoRole);
    }
    if !state.grants().contains((object, operation, role)) {
        return Some(Refusal::NotGranted);
    }
    None
}

// The verdict on AssignUser.
#[tactic(auto, unfolding(crate::specs::Verdict::verdict, crate::specs::Verdict::refusals, crate::specs::Assignment::assignment_refusals))]
pub(crate) fn judge_assign_user(
    alloc: Global,
    state: &State,
    user: &Name,
    role: &Name,
) -> Result<Option<Refusal>, AllocError>
    ensures { IfOk result (λ found. found ≡ verdict state.now.facts (AssignUser user.now role.now)) }
{
    state.recall_good();
    if let Some(refusal) = refuse_assignment(state, user, role) {
        return Ok(Some(refusal));
    }
    let held = state.assignments().with_first(user);
    let sets = state.ssd_cardinalities().as_slice();
    let violated = first_with_one(state.order(), &held, role, state.ssd_members(), sets);
    let named = name_violated(alloc, SeparationOfDuty::Static, violated)?;
    Ok(named)
}

// Why the user can't be assigned to the role, without the check of static separation.
fn refuse_assignment(state: &State, user: &Name, role: &Name) -> Option<Refusal>
    ensures { result ≡ first (assign_user_refusals state.now.facts (user.now, role.now)) }
{
    if !state.users().contains(user) {
        return Some(Refusal::NoUser);
    }
    if !state.roles().contains(role) {
        return Some(Refusal::NoRole);
    }
    if state.assignments().contains((user, role)) {
        return Some(Refusal::AlreadyAssigned);
    }
    if is_full(state, Kind::Assignment, state.assignments().len()) {
        return Some(Refusal::TooMany(Kind::Assignment));
    }
    None
}

// The verdict on DeassignUser.
#[tactic(auto, unfolding(crate::specs::Verdict::verdict, crate::specs::Verdict::refusals))]
pub(crate) fn judge_deassign_user(state: &State, user: &Name, role: &Name) -> Option<Refusal>
    ensures { result ≡ verdict state.now.facts (DeassignUser user.now role.now) }
{
    if !state.users().contains(user) {
        return Some(Refusal::NoUser);
    }
    if !state.roles().contains(role) {
        return Some(Refusal::NoRole);
    }
    if !state.assignments().contains((user, role)) {
        return Some(Refusal::NotAssigned);
    }
    None
}

// The verdict on an import of assignments. Its records are judged one by one when its plan is made.
#[tactic(auto, unfolding(crate::specs::Verdict::verdict, crate::specs::Verdict::refusals))]
pub(crate) fn judge_import_assignments(state: &State, pairs: &Vec<(Name, Name)>) -> Option<Refusal>
    ensures { result ≡ verdict state.now.facts (ImportAssignments pairs.now) }
{
    if is_too_many(state, Kind::Record, pairs.len()) {
        return Some(Refusal::TooMany(Kind::Record));
    }
    None
}

// The verdict on LockUserAccount.
#[tactic(auto, unfolding(crate::specs::Verdict::verdict, crate::specs::Verdict::refusals))]
pub(crate) fn judge_lock_user_account(state: &State, user: &Name) -> Option<Refusal>
    ensures { result ≡ verdict state.now.facts (LockUserAccount user.now) }
{
    if state.version() == 1 {
        return Some(Refusal::Version(1));
    }
    if !state.users().contains(user) {
        return Some(Refusal::NoUser);
    }
    None
}

// The verdict on UnlockUserAccount.
#[tactic(auto, unfolding(crate::specs::Verdict::verdict, crate::specs::Verdict::refusals))]
pub(crate) fn judge_unlock_user_account(state: &State, user: &Name) -> Option<Refusal>
    ensures { result ≡ verdict state.now.facts (UnlockUserAccount user.now) }
{
    if state.version() == 1 {
        return Some(Refusal::Version(1));
    }
    if !state.users().contains(user) {
        return Some(Refusal::NoUser);
    }
    None
}
