//! What roles and users may do to one object.
ghost use Rattle.std.specs.Prelude.{◌≡◌, ◌⊎◌, Some, None, OnOk, IfOk, IfErr};
ghost use Rattle.rbac_sets.specs.Sets.{members};
ghost use Rattle.review_mgr.specs.declared.query.Query.TheVariants.{RoleOperationsOnObject, UserOperationsOnObject};
ghost use Rattle.review_mgr.specs.Questions.{refused};
ghost use Rattle.review_mgr.specs.Review.{role_operations_on_object, user_operations_on_object};

use crate::gather::{operations_below, operations_reached};
use crate::lookup::assigned_to;
use admin_mgr::State;
use rbac_sets::{Name, Refusal};
use std::alloc::Global;

/// RoleOperationsOnObject: the operations on the object among the permissions of the role.
///
/// # Errors
///
/// `NoRole` if there is no such role, otherwise `NoObject` if there is no such object. `Memory` if
/// allocation failed.
#[tactic(auto, unfolding(crate::specs::Questions::refused, crate::specs::Questions::refusals))]
pub fn role_operations_on_object(
    alloc: Global,
    state: &State,
    role: &Name,
    object: &Name,
) -> Result<Vec<Name>, Refusal>
    ensures answered { OnOk result (refused state.now.facts (RoleOperationsOnObject role.now object.now) ≡ None) }
    ensures value { IfOk result (λ names. names.items ≡ members (role_operations_on_object state.now.facts role.now object.now)) }
    ensures refused { IfErr result (λ refusal. (refusal ≡ Refusal.Memory) ⊎ (refused state.now.facts (RoleOperationsOnObject role.now object.now) ≡ Some refusal)) }
{
    if !state.roles().contains(role) {
        return Err(Refusal::NoRole);
    }
    if !state.objects().contains(object) {
        return Err(Refusal::NoObject);
    }
    operations_below(alloc, state.order(), state.grants(), role, object)
}

/// UserOperationsOnObject: the operations on the object among the permissions of the user.
///
/// # Errors
///
/// `NoUser` if there is no such user, otherwise `NoObject` if there is no such object. `Memory` if
/// allocation failed.
#[tactic(auto, unfolding(crate::specs::Questions::refused, crate::specs::Questions::refusals))]
pub fn user_operations_on_object(
    alloc: Global,
    state: &State,
    user: &Name,
    object: &Name,
) -> Result<Vec<Name>, Refusal>
    ensures answered { OnOk result (refused state.now.facts (UserOperationsOnObject user.now object.now) ≡ None) }
    ensures value { IfOk result (λ names. names.items ≡ members (user_operations_on_object state.now.facts user.now object.now)) }
    ensures refused { IfErr result (λ refusal. (refusal ≡ Refusal.Memory) ⊎ (refused state.now.facts (UserOperationsOnObject user.now object.now) ≡ Some refusal)) }
{
    if !state.users().contains(user) {
        return Err(Refusal::NoUser);
    }
    if !state.objects().contains(object) {
        return Err(Refusal::NoObject);
    }
    operations_reached(
        alloc,
        state.order(),
        state.grants(),
        &assigned_to(state, user),
        object,
    )
}
