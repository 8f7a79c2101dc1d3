//! What roles and users may do.
ghost use Rattle.std.specs.Prelude.{◌≡◌, ◌⊎◌, Some, None, OnOk, IfOk, IfErr};
ghost use Rattle.rbac_sets.specs.Sets.{members};
ghost use Rattle.review_mgr.specs.declared.query.Query.TheVariants.{RolePermissions, UserPermissions, PermissionRoles};
ghost use Rattle.review_mgr.specs.Questions.{refused};
ghost use Rattle.admin_mgr.specs.Authorization.{authorized_permissions};
ghost use Rattle.review_mgr.specs.Review.{user_permissions, permission_roles};

use crate::gather::{permissions_below, permissions_reached, roles_granted};
use crate::lookup::assigned_to;
use admin_mgr::State;
use rbac_sets::{Name, Refusal};
use std::alloc::Global;

/// RolePermissions, authorized_permissions: the permissions that are granted to the role or to a
/// junior of it, as pairs (object, operation).
///
/// # Errors
///
/// `NoRole` if there is no such role. `Memory` if allocation failed.
#[tactic(auto, unfolding(crate::specs::Questions::refused, crate::specs::Questions::refusals, admin_mgr::specs::Authorization::authorized_permissions))]
pub fn role_permissions(
    alloc: Global,
    state: &State,
    role: &Name,
) -> Result<Vec<(Name, Name)>, Refusal>
    ensures answered { OnOk result (refused state.now.facts (RolePermissions role.now) ≡ None) }
    ensures value { IfOk result (λ permissions. permissions.items ≡ members (authorized_permissions state.now.facts role.now)) }
    ensures refused { IfErr result (λ refusal. (refusal ≡ Refusal.Memory) ⊎ (refused state.now.facts (RolePermissions role.now) ≡ Some refusal)) }
{
    if !state.roles().contains(role) {
        return Err(Refusal::NoRole);
    }
    permissions_below(alloc, state.order(), state.grants_by_role(), role)
}

/// UserPermissions: the permissions of the roles that are assigned to the user, as pairs (object,
/// operation).
///
/// # Errors
///
/// `NoUser` if there is no such user. `Memory` if allocation failed.
#[tactic(auto, unfolding(crate::specs::Questions::refused, crate::specs::Questions::refusals))]
pub fn user_permissions(
    alloc: Global,
    state: &State,
    user: &Name,
) -> Result<Vec<(Name, Name)>, Refusal>
    ensures answered { OnOk result (refused state.now.facts (UserPermissions user.now) ≡ None) }
    ensures value { IfOk result (λ permissions. permissions.items ≡ members (user_permissions state.now.facts user.now)) }
    ensures refused { IfErr result (λ refusal. (refusal ≡ Refusal.Memory) ⊎ (refused state.now.facts (UserPermissions user.now) ≡ Some refusal)) }
{
    if !state.users().contains(user) {
        return Err(Refusal::NoUser);
    }
    permissions_reached(
        alloc,
        state.order(),
        state.grants_by_role(),
        &assigned_to(state, user),
    )
}

/// The roles to which the permission is granted directly.
///
/// # Errors
///
/// `NoObject` if there is no such object, otherwise `NoPermission` if there is no such permission.
/// `Memory` if allocation failed.
#[tactic(auto, unfolding(crate::specs::Questions::refused, crate::specs::Questions::refusals))]
pub fn permission_roles(
    alloc: Global,
    state: &State,
    object: &Name,
    operation: &Name,
) -> Result<Vec<Name>, Refusal>
    ensures answered { OnOk result (refused state.now.facts (PermissionRoles object.now operation.now) ≡ None) }
    ensures value { IfOk result (λ names. names.items ≡ members (permission_roles state.now.facts object.now operation.now)) }
    ensures refused { IfErr result (λ refusal. (refusal ≡ Refusal.Memory) ⊎ (refused state.now.facts (PermissionRoles object.now operation.now) ≡ Some refusal)) }
{
    if !state.objects().contains(object) {
        return Err(Refusal::NoObject);
    }
    if !state.permissions().contains((object, operation)) {
        return Err(Refusal::NoPermission);
    }
    roles_granted(alloc, state.grants(), object, operation)
}
