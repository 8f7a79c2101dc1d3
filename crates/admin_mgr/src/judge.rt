//! Whether a command is accepted, and if not, by which refusal it is answered.
//!
//! There is one function for each command, or for the same command on static and on dynamic sets, and
//! `judge` for any. The result is the verdict: the first of the command's refusals that applies, or `None`
//! if the command is accepted. `refusals`, in specs/Verdict.antt, lists them in their order, and so does
//! docs/reference/api.md. A function that may have to copy the name of a violated set fails if that
//! allocation does.
//!
//! The state is never copied: whether the state after the command violates a separation of duty set is
//! computed from the state before it. An assignment, an activated role and an inheritance are checked
//! against each set of the kind of which the role (of an inheritance, the descendant) or a junior of it is a
//! member; a new session is checked against every dynamic set, and a command on one set against that set.
ghost use Rattle.std.specs.Prelude.{◌≡◌, IfOk};
ghost use Rattle.admin_mgr.specs.Verdict.{verdict};

use crate::judge::core_rbac::{
    judge_add_perm_obj, judge_add_permission, judge_add_role, judge_add_user, judge_assign_user,
    judge_deassign_user, judge_delete_perm_obj, judge_delete_permission, judge_delete_role,
    judge_delete_user, judge_grant_permission, judge_import_assignments, judge_lock_user_account,
    judge_revoke_permission, judge_unlock_user_account,
};
use crate::judge::hierarchy::{
    judge_add_ascendant, judge_add_descendant, judge_add_inheritance, judge_delete_inheritance,
};
use crate::judge::separation::{
    judge_add_member, judge_create_set, judge_delete_member, judge_delete_set,
    judge_set_cardinality,
};
use crate::judge::sessions::{
    judge_add_active_role, judge_create_session, judge_delete_session, judge_drop_active_role,
};
use crate::separation_of_duty::SeparationOfDuty::{Dynamic, Static};
use crate::state::State;
use rbac_sets::{Command, Refusal};
use std::alloc::{AllocError, Global};

mod core_rbac;
mod hierarchy;
mod separation;
mod sessions;
pub(crate) mod set_refusals;
pub(crate) mod violation;

// The verdict on a command: the first of its refusals that applies, or `None` if the command is accepted.
//
// It is an error if an allocation failed: for the name of a violated separation of duty set, or for the
// check of who would violate a set by a new inheritance.
pub(crate) fn judge(
    alloc: Global,
    state: &State,
    command: &Command,
) -> Result<Option<Refusal>, AllocError>
    ensures { IfOk result (λ found. found ≡ verdict state.now.facts command.now) }
{
    match command {
        Command::AddUser { user } => Ok(judge_add_user(state, user)),
        Command::DeleteUser { user } => Ok(judge_delete_user(state, user)),
        Command::AddRole { role } => Ok(judge_add_role(state, role)),
        Command::DeleteRole { role } => Ok(judge_delete_role(state, role)),
        Command::AddPermObj { object } => Ok(judge_add_perm_obj(state, object)),
        Command::DeletePermObj { object } => Ok(judge_delete_perm_obj(state, object)),
        Command::AddPermission { object, operation } => Ok(judge_add_permission(
            state, object, operation,
        )),
        Command::DeletePermission { object, operation } => Ok(judge_delete_permission(
            state, object, operation,
        )),
        Command::GrantPermission {
            object,
            operation,
            role,
        } => Ok(judge_grant_permission(state, object, operation, role)),
        Command::RevokePermission {
            object,
            operation,
            role,
        } => Ok(judge_revoke_permission(state, object, operation, role)),
        Command::AssignUser { user, role } => judge_assign_user(alloc, state, user, role),
        Command::DeassignUser { user, role } => Ok(judge_deassign_user(state, user, role)),
        Command::AddInheritance { asc, desc } => judge_add_inheritance(alloc, state, asc, desc),
        Command::DeleteInheritance { asc, desc } => Ok(judge_delete_inheritance(state, asc, desc)),
        Command::AddAscendant { asc, desc } => Ok(judge_add_ascendant(state, asc, desc)),
        Command::AddDescendant { asc, desc } => Ok(judge_add_descendant(state, asc, desc)),
        Command::CreateSsdSet {
            set,
            roles,
            cardinality,
        } => judge_create_set(alloc, state, Static, set, roles, *cardinality),
        Command::AddSsdRoleMember { set, role } => judge_add_member(
            alloc, state, Static, set, role,
        ),
        Command::DeleteSsdRoleMember { set, role } => Ok(judge_delete_member(
            state, Static, set, role,
        )),
        Command::SetSsdSetCardinality { set, cardinality } => judge_set_cardinality(
            alloc,
            state,
            Static,
            set,
            *cardinality,
        ),
        Command::DeleteSsdSet { set } => Ok(judge_delete_set(state, Static, set)),
        Command::CreateDsdSet {
            set,
            roles,
            cardinality,
        } => judge_create_set(alloc, state, Dynamic, set, roles, *cardinality),
        Command::AddDsdRoleMember { set, role } => judge_add_member(
            alloc, state, Dynamic, set, role,
        ),
        Command::DeleteDsdRoleMember { set, role } => Ok(judge_delete_member(
            state, Dynamic, set, role,
        )),
        Command::SetDsdSetCardinality { set, cardinality } => judge_set_cardinality(
            alloc,
            state,
            Dynamic,
            set,
            *cardinality,
        ),
        Command::DeleteDsdSet { set } => Ok(judge_delete_set(state, Dynamic, set)),
        Command::CreateSession {
            user,
            roles,
            session,
        } => judge_create_session(alloc, state, user, roles, session),
        Command::DeleteSession { user, session } => Ok(judge_delete_session(state, user, session)),
        Command::AddActiveRole {
            user,
            session,
            role,
        } => judge_add_active_role(alloc, state, user, session, role),
        Command::DropActiveRole {
            user,
            session,
            role,
        } => Ok(judge_drop_active_role(state, user, session, role)),
        Command::LockUserAccount { user } => Ok(judge_lock_user_account(state, user)),
        Command::UnlockUserAccount { user } => Ok(judge_unlock_user_account(state, user)),
        Command::ImportAssignments(pairs) => Ok(judge_import_assignments(state, pairs)),
    }
}
