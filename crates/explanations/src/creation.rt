//! The separation of duty sets that a new session would violate, and with which of its roles.
ghost use Rattle.std.specs.Prelude.{◌≡◌, ◌⊎◌, [], ◌∷◌, ◌++◌, false, None, Some, IfOk, IfErr, slice_get};
ghost use Rattle.std.specs.List.{list_all};
ghost use Rattle.std.specs.Option.{option_map};
ghost use Rattle.rbac_sets.specs.Sets.{Bytes, Pair, contains, name_cmp, pair_cmp};
ghost use Rattle.rbac_sets.specs.SortedSet.{set_of};
ghost use Rattle.rbac_sets.specs.declared.command.Command.TheVariants.{CreateSession};
ghost use Rattle.admin_mgr.specs.After.{after};
ghost use Rattle.admin_mgr.specs.Authorization.{is_authorized};
ghost use Rattle.admin_mgr.specs.RbacState.{has_session};
ghost use Rattle.admin_mgr.specs.Refusals.{first};
ghost use Rattle.admin_mgr.specs.Verdict.{create_session_refusals, verdict};
ghost use Rattle.admin_mgr.specs.private.HolderRoles.{has_all, is_reached_from};
ghost use Rattle.explanations.specs.Conflicts.{creation_refused, violated_members};
ghost use Rattle.explanations.specs.private.Found.{had_members, violated_with_roles};

use crate::conflicts::is_authorized;
use admin_mgr::State;
use rbac_sets::{Name, NameSet, PairSet, Refusal};
use role_order::RoleOrder;
use std::alloc::Global;

/// The dynamic separation of duty sets that a new session of the user with these roles activated would violate, in byte order, as
/// pairs of the set and a role: a pair for each role of the set that the session would have, in byte order. It is of no
/// importance how the session would be named, and how many sessions or roles are allowed.
///
/// # Errors
///
/// The first of these that applies: `NoUser` if there is no such user, `NoRole` if one of the roles doesn't exist,
/// `NotAuthorized` if the user isn't authorized for one of them, `UserLocked` if the user is locked. `Memory` if an
/// allocation failed.
pub fn violated_by_creation(
    alloc: Global,
    state: &State,
    user: &Name,
    roles: &NameSet,
) -> Result<Vec<(Name, Name)>, Refusal>
    ensures answered { IfOk result (λ pairs. creation_refused state.now.facts user.now (set_of name_cmp roles.now) ≡ None) }
    ensures value { IfOk result (λ pairs. (session : Bytes) → has_session state.now.facts session ≡ false
        → pairs.items ≡ violated_members (after state.now.facts (CreateSession user.now roles.now session)) session) }
    ensures verdict { IfOk result (λ pairs. (session : Bytes) → has_session state.now.facts session ≡ false
        → verdict state.now.facts (CreateSession user.now roles.now session)
        ≡ first (create_session_refusals state.now.facts user.now (set_of name_cmp roles.now) session
        ++ option_map Refusal.DynamicSeparation (option_map (λ (pair : Pair). pair.0) (slice_get pairs.items 0)) ∷ [])) }
    ensures refused { IfErr result (λ refusal. (refusal ≡ Refusal.Memory)
        ⊎ (creation_refused state.now.facts user.now (set_of name_cmp roles.now) ≡ Some refusal)) }
{
    if let Some(refusal) = refuse_creation(state, user, roles) {
        return Err(refusal);
    }
    let sets = state.dsd_cardinalities().as_slice();
    state.recall_good();
    violated_with_roles(
        alloc,
        state.order(),
        roles.as_slice(),
        state.dsd_members(),
        sets,
    )
}

// Why there is no answer for a new session of the user with these roles.
#[tactic(auto, unfolding(rbac_sets::specs::Sets::all))]
fn refuse_creation(state: &State, user: &Name, roles: &NameSet) -> Option<Refusal>
    ensures { result ≡ creation_refused state.now.facts user.now (set_of name_cmp roles.now) }
{
    if !state.users().contains(user) {
        return Some(Refusal::NoUser);
    }
    if !are_there(state, roles.as_slice()) {
        return Some(Refusal::NoRole);
    }
    if !are_authorized(state, user, roles.as_slice()) {
        return Some(Refusal::NotAuthorized);
    }
    if state.locked().contains(user) {
        return Some(Refusal::UserLocked);
    }
    None
}

// Whether there are roles of these names.
fn are_there(state: &State, roles: &[Name]) -> bool
    ensures { result ≡ list_all (contains state.now.facts.roles) roles.now }
{
    roles.iter().all(|role| state.roles().contains(role))
}

// Whether the user is authorized for each of the roles.
fn are_authorized(state: &State, user: &Name, roles: &[Name]) -> bool
    ensures { result ≡ list_all (is_authorized state.now.facts user.now) roles.now }
{
    roles.iter().all(|role| is_authorized(state, user, role))
}

// The sets that somebody with these roles violates, each with those of its members that are one of the roles, or a junior.
fn violated_with_roles(
    alloc: Global,
    order: &RoleOrder,
    roles: &[Name],
    members: &PairSet,
    sets: &[(Name, u32)],
) -> Result<Vec<(Name, Name)>, Refusal>
    ensures ok { IfOk result (λ pairs. pairs.items
        ≡ violated_with_roles order.now.edges roles.now (set_of pair_cmp members.now) sets.now) }
    ensures cause { IfErr result (λ refusal. refusal ≡ Refusal.Memory) }
{
    let mut pairs = Vec::new(alloc);
    for set in sets {
        let members = members.with_first(&set.0);
        if has_all(order, roles, members, set.1) {
            push_had(alloc, &mut pairs, order, roles, members)?;
        }
    }
    Ok(pairs)
}

// Whether at least as many of the members as the cardinality are one of the roles, or a junior of one.
fn has_all(order: &RoleOrder, roles: &[Name], members: &[(Name, Name)], cardinality: u32) -> bool
    ensures { result ≡ has_all order.now.edges roles.now members.now cardinality }
{
    members
        .iter()
        .filter(|member| is_reached_from(order, roles, &member.1))
        .count()
        >= cardinality as usize
}

// Pushes those of the members that are one of the roles, or a junior of one.
fn push_had(
    alloc: Global,
    pairs: &mut Vec<(Name, Name)>,
    order: &RoleOrder,
    roles: &[Name],
    members: &[(Name, Name)],
) -> Result<(), Refusal>
    ensures ok { IfOk result (λ _. pairs.new.items ≡ pairs.old.items ++ had_members order.now.edges roles.now members.now) }
    ensures cause { IfErr result (λ refusal. refusal ≡ Refusal.Memory) }
{
    for member in members {
        if is_reached_from(order, roles, &member.1) {
            pairs.push((member.0.copy(alloc)?, member.1.copy(alloc)?))?;
        }
    }
    Ok(())
}

// Whether the role is one of these, or a junior of one.
fn is_reached_from(order: &RoleOrder, roles: &[Name], role: &Name) -> bool
    ensures { result ≡ is_reached_from order.now.edges roles.now role.now }
{
    roles.iter().any(|above| order.geq(above, role))
}
