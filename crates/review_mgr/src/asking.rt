//! The answer to any question, by the function for it.
ghost use Rattle.std.specs.Prelude.{◌≡◌, ◌⊎◌, Some, None, OnOk, IfOk, IfErr};
ghost use Rattle.review_mgr.specs.Answering.{answer_content, value};
ghost use Rattle.review_mgr.specs.Questions.{refused};

use crate::access::check_access;
use crate::query::{Answer, Query};
use crate::review::{
    assigned_roles, assigned_users, authorized_roles, authorized_users, dsd_role_set_cardinality,
    dsd_role_set_roles, dsd_role_sets, permission_roles, role_operations_on_object,
    role_permissions, session_permissions, session_roles, ssd_role_set_cardinality,
    ssd_role_set_roles, ssd_role_sets, user_operations_on_object, user_permissions,
};
use admin_mgr::State;
use rbac_sets::Refusal;
use std::alloc::Global;

/// The answer to a question, as the function that it names returns it.
///
/// # Errors
///
/// Those of the function that the question names. `Memory` if allocation failed.
#[tactic(auto, unfolding(crate::specs::Answering::value))]
pub fn ask(alloc: Global, state: &State, query: &Query) -> Result<Answer, Refusal>
    ensures answered { OnOk result (refused state.now.facts query.now ≡ None) }
    ensures value { IfOk result (λ answer. answer_content answer ≡ value state.now.facts query.now) }
    ensures refused { IfErr result (λ refusal. (refusal ≡ Refusal.Memory) ⊎ (refused state.now.facts query.now ≡ Some refusal)) }
{
    match query {
        Query::CheckAccess {
            session,
            operation,
            object,
        } => check_access(
            state,
            &session.as_borrowed(),
            &operation.as_borrowed(),
            &object.as_borrowed(),
        )
        .map(Answer::Access),
        Query::AssignedUsers { role } => assigned_users(alloc, state, role).map(Answer::Names),
        Query::AssignedRoles { user } => assigned_roles(alloc, state, user).map(Answer::Names),
        Query::AuthorizedUsers { role } => authorized_users(alloc, state, role).map(Answer::Names),
        Query::AuthorizedRoles { user } => authorized_roles(alloc, state, user).map(Answer::Names),
        Query::RolePermissions { role } => role_permissions(alloc, state, role).map(
            Answer::Permissions,
        ),
        Query::UserPermissions { user } => user_permissions(alloc, state, user).map(
            Answer::Permissions,
        ),
        Query::SessionRoles { session } => session_roles(alloc, state, session).map(Answer::Names),
        Query::SessionPermissions { session } => session_permissions(alloc, state, session).map(
            Answer::Permissions,
        ),
        Query::RoleOperationsOnObject { role, object } => role_operations_on_object(
            alloc, state, role, object,
        ).map(Answer::Names),
        Query::UserOperationsOnObject { user, object } => user_operations_on_object(
            alloc, state, user, object,
        ).map(Answer::Names),
        Query::SsdRoleSets => ssd_role_sets(alloc, state).map(Answer::Names),
        Query::SsdRoleSetRoles { set } => ssd_role_set_roles(alloc, state, set).map(Answer::Names),
        Query::SsdRoleSetCardinality { set } => ssd_role_set_cardinality(state, set).map(
            Answer::Count,
        ),
        Query::DsdRoleSets => dsd_role_sets(alloc, state).map(Answer::Names),
        Query::DsdRoleSetRoles { set } => dsd_role_set_roles(alloc, state, set).map(Answer::Names),
        Query::DsdRoleSetCardinality { set } => dsd_role_set_cardinality(state, set).map(
            Answer::Count,
        ),
        Query::PermissionRoles { object, operation } => permission_roles(
            alloc, state, object, operation,
        ).map(Answer::Names),
    }
}
