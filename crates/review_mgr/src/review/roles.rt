//! Who is assigned to which roles, and who is authorized for them.
ghost use Rattle.std.specs.Prelude.{◌≡◌, ◌⊎◌, Some, None, OnOk, IfOk, IfErr};
ghost use Rattle.rbac_sets.specs.Sets.{members};
ghost use Rattle.review_mgr.specs.declared.query.Query.TheVariants.{AssignedUsers, AssignedRoles, AuthorizedUsers, AuthorizedRoles};
ghost use Rattle.review_mgr.specs.Questions.{refused};
ghost use Rattle.admin_mgr.specs.Authorization.{authorized_users, authorized_roles};
ghost use Rattle.review_mgr.specs.Review.{assigned_users, assigned_roles};

use crate::gather::{roles_reached, seconds_of, users_above};
use crate::lookup::assigned_to;
use admin_mgr::State;
use rbac_sets::{Name, Refusal};
use std::alloc::Global;

/// AssignedUsers, assigned_users: the users that are assigned to the role.
///
/// # Errors
///
/// `NoRole` if there is no such role. `Memory` if allocation failed.
#[tactic(auto, unfolding(crate::specs::Questions::refused, crate::specs::Questions::refusals, crate::specs::Review::assigned_users))]
pub fn assigned_users(alloc: Global, state: &State, role: &Name) -> Result<Vec<Name>, Refusal>
    ensures answered { OnOk result (refused state.now.facts (AssignedUsers role.now) ≡ None) }
    ensures value { IfOk result (λ names. names.items ≡ members (assigned_users state.now.facts role.now)) }
    ensures refused { IfErr result (λ refusal. (refusal ≡ Refusal.Memory) ⊎ (refused state.now.facts (AssignedUsers role.now) ≡ Some refusal)) }
{
    if !state.roles().contains(role) {
        return Err(Refusal::NoRole);
    }
    seconds_of(alloc, state.assignments_by_role(), role)
}

/// AssignedRoles: the roles that are assigned to the user.
///
/// # Errors
///
/// `NoUser` if there is no such user. `Memory` if allocation failed.
#[tactic(auto, unfolding(crate::specs::Questions::refused, crate::specs::Questions::refusals, crate::specs::Review::assigned_roles))]
pub fn assigned_roles(alloc: Global, state: &State, user: &Name) -> Result<Vec<Name>, Refusal>
    ensures answered { OnOk result (refused state.now.facts (AssignedRoles user.now) ≡ None) }
    ensures value { IfOk result (λ names. names.items ≡ members (assigned_roles state.now.facts user.now)) }
    ensures refused { IfErr result (λ refusal. (refusal ≡ Refusal.Memory) ⊎ (refused state.now.facts (AssignedRoles user.now) ≡ Some refusal)) }
{
    if !state.users().contains(user) {
        return Err(Refusal::NoUser);
    }
    seconds_of(alloc, state.assignments(), user)
}

/// AuthorizedUsers, authorized_users: the users that are assigned to the role or to a senior of it.
///
/// # Errors
///
/// `NoRole` if there is no such role. `Memory` if allocation failed.
#[tactic(auto, unfolding(crate::specs::Questions::refused, crate::specs::Questions::refusals, admin_mgr::specs::Authorization::authorized_users))]
pub fn authorized_users(alloc: Global, state: &State, role: &Name) -> Result<Vec<Name>, Refusal>
    ensures answered { OnOk result (refused state.now.facts (AuthorizedUsers role.now) ≡ None) }
    ensures value { IfOk result (λ names. names.items ≡ members (authorized_users state.now.facts role.now)) }
    ensures refused { IfErr result (λ refusal. (refusal ≡ Refusal.Memory) ⊎ (refused state.now.facts (AuthorizedUsers role.now) ≡ Some refusal)) }
{
    if !state.roles().contains(role) {
        return Err(Refusal::NoRole);
    }
    users_above(alloc, state.order(), state.assignments_by_role(), role)
}

/// AuthorizedRoles: the roles for which the user is authorized: those that it is assigned, and their
/// juniors.
///
/// # Errors
///
/// `NoUser` if there is no such user. `Memory` if allocation failed.
#[tactic(auto, unfolding(crate::specs::Questions::refused, crate::specs::Questions::refusals))]
pub fn authorized_roles(alloc: Global, state: &State, user: &Name) -> Result<Vec<Name>, Refusal>
    ensures answered { OnOk result (refused state.now.facts (AuthorizedRoles user.now) ≡ None) }
    ensures value { IfOk result (λ names. names.items ≡ members (authorized_roles state.now.facts user.now)) }
    ensures refused { IfErr result (λ refusal. (refusal ≡ Refusal.Memory) ⊎ (refused state.now.facts (AuthorizedRoles user.now) ≡ Some refusal)) }
{
    if !state.users().contains(user) {
        return Err(Refusal::NoUser);
    }
    state.recall_good();
    roles_reached(alloc, state.order(), &assigned_to(state, user))
}
