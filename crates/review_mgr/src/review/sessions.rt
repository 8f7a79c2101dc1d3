//! What sessions have and may do.
ghost use Rattle.std.specs.Prelude.{◌≡◌, ◌⊎◌, Some, None, OnOk, IfOk, IfErr};
ghost use Rattle.rbac_sets.specs.Sets.{members};
ghost use Rattle.review_mgr.specs.declared.query.Query.TheVariants.{SessionRoles, SessionPermissions};
ghost use Rattle.review_mgr.specs.Questions.{refused};
ghost use Rattle.admin_mgr.specs.Authorization.{session_roles};
ghost use Rattle.review_mgr.specs.Review.{session_permissions};

use crate::gather::{permissions_reached, roles_reached};
use crate::lookup::{activated_in, has_session};
use admin_mgr::State;
use rbac_sets::{Name, Refusal};
use std::alloc::Global;

/// SessionRoles, session_roles: the roles that were activated in the session, and their juniors.
///
/// # Errors
///
/// `NoSession` if there is no such session. `Memory` if allocation failed.
#[tactic(auto, unfolding(crate::specs::Questions::refused, crate::specs::Questions::refusals))]
pub fn session_roles(alloc: Global, state: &State, session: &Name) -> Result<Vec<Name>, Refusal>
    ensures answered { OnOk result (refused state.now.facts (SessionRoles session.now) ≡ None) }
    ensures value { IfOk result (λ names. names.items ≡ members (session_roles state.now.facts session.now)) }
    ensures refused { IfErr result (λ refusal. (refusal ≡ Refusal.Memory) ⊎ (refused state.now.facts (SessionRoles session.now) ≡ Some refusal)) }
{
    let name = session.as_borrowed();
    if !has_session(state, &name) {
        return Err(Refusal::NoSession);
    }
    state.recall_good();
    roles_reached(alloc, state.order(), &activated_in(state, &name))
}

/// SessionPermissions: the permissions that are granted to the roles of the session, as pairs
/// (object, operation).
///
/// # Errors
///
/// `NoSession` if there is no such session. `Memory` if allocation failed.
#[tactic(auto, unfolding(crate::specs::Questions::refused, crate::specs::Questions::refusals))]
pub fn session_permissions(
    alloc: Global,
    state: &State,
    session: &Name,
) -> Result<Vec<(Name, Name)>, Refusal>
    ensures answered { OnOk result (refused state.now.facts (SessionPermissions session.now) ≡ None) }
    ensures value { IfOk result (λ permissions. permissions.items ≡ members (session_permissions state.now.facts session.now)) }
    ensures refused { IfErr result (λ refusal. (refusal ≡ Refusal.Memory) ⊎ (refused state.now.facts (SessionPermissions session.now) ≡ Some refusal)) }
{
    let name = session.as_borrowed();
    if !has_session(state, &name) {
        return Err(Refusal::NoSession);
    }
    state.recall_good();
    permissions_reached(
        alloc,
        state.order(),
        state.grants_by_role(),
        &activated_in(state, &name),
    )
}
