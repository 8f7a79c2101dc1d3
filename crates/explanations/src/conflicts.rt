//! The separation of duty sets that a command would violate by one more role of a user or a session.
ghost use Rattle.std.specs.Prelude.{◌≡◌, ◌⊎◌, [], ◌∷◌, ◌++◌, None, Some, IsTrue, IfOk, IfErr, slice_get};
ghost use Rattle.std.specs.List.{list_all};
ghost use Rattle.std.specs.List.Sorted.{IsStrictlySortedBy};
ghost use Rattle.std.specs.Option.{option_map};
ghost use Rattle.rbac_sets.specs.Sets.{Pair, all, contains, name_cmp, pair_cmp};
ghost use Rattle.rbac_sets.specs.SortedSet.{set_of};
ghost use Rattle.rbac_sets.specs.declared.command.Command.TheVariants.{AddActiveRole, AssignUser};
ghost use Rattle.admin_mgr.specs.After.{after};
ghost use Rattle.admin_mgr.specs.Assignment.{after_assignment, assign_user_refusals};
ghost use Rattle.admin_mgr.specs.Authorization.{is_authorized};
ghost use Rattle.admin_mgr.specs.Refusals.{first};
ghost use Rattle.admin_mgr.specs.Verdict.{add_active_role_refusals, verdict};
ghost use Rattle.explanations.specs.Conflicts.{activation_refused, assignment_refused, dynamic_violations, static_violations};
ghost use Rattle.explanations.specs.private.Found.{violated_with};
ghost use Rattle.explanations.specs.private.Numbered.{numbered_violated};

use crate::by_number::{has_too_many, numbers_with};
use admin_mgr::{State, is_reached};
use chunked_sets::{Run, has_first};
use order_matrix::{OrderMatrix, number, second_numbers};
use rbac_sets::{Name, PairSet, Refusal};
use std::alloc::Global;

/// The static separation of duty sets that the user would violate with one more role, in byte order. It is of no
/// importance whether the user is assigned to the role already: the list is empty then.
///
/// # Errors
///
/// `NoUser` if there is no such user, otherwise `NoRole` if there is no such role. `Memory` if an allocation failed.
pub fn violated_by_assignment(
    alloc: Global,
    state: &State,
    user: &Name,
    role: &Name,
) -> Result<Vec<Name>, Refusal>
    ensures answered { IfOk result (λ names. assignment_refused state.now.facts user.now role.now ≡ None) }
    ensures value { IfOk result (λ names. names.items ≡ static_violations (after_assignment state.now.facts (user.now, role.now))) }
    ensures verdict { IfOk result (λ names. verdict state.now.facts (AssignUser user.now role.now)
        ≡ first (assign_user_refusals state.now.facts (user.now, role.now) ++ option_map Refusal.StaticSeparation (slice_get names.items 0) ∷ [])) }
    ensures refused { IfErr result (λ refusal. (refusal ≡ Refusal.Memory) ⊎ (assignment_refused state.now.facts user.now role.now ≡ Some refusal)) }
{
    if !state.users().contains(user) {
        return Err(Refusal::NoUser);
    }
    if !state.roles().contains(role) {
        return Err(Refusal::NoRole);
    }
    let held = state.assignments().with_first(user);
    let sets = state.ssd_cardinalities().as_slice();
    state.recall_good();
    violated_with(alloc, state, &held, role, state.ssd_members(), sets)
}

/// The dynamic separation of duty sets that the session would violate with one more role, in byte order. It is of no
/// importance whether the role is active in the session already: the list is empty then.
///
/// # Errors
///
/// The first of these that applies: `NoUser`, `NoSession`, `NoRole` if there is none of this name, `NotOwner` if the session
/// isn't the user's, `NotAuthorized` if the user isn't authorized for the role. `Memory` if an allocation failed.
pub fn violated_by_activation(
    alloc: Global,
    state: &State,
    user: &Name,
    session: &Name,
    role: &Name,
) -> Result<Vec<Name>, Refusal>
    ensures answered { IfOk result (λ names. activation_refused state.now.facts user.now session.now role.now ≡ None) }
    ensures value { IfOk result (λ names. names.items ≡ dynamic_violations (after state.now.facts (AddActiveRole user.now session.now role.now))) }
    ensures verdict { IfOk result (λ names. verdict state.now.facts (AddActiveRole user.now session.now role.now)
        ≡ first (add_active_role_refusals state.now.facts user.now session.now role.now
        ++ option_map Refusal.DynamicSeparation (slice_get names.items 0) ∷ [])) }
    ensures refused { IfErr result (λ refusal. (refusal ≡ Refusal.Memory)
        ⊎ (activation_refused state.now.facts user.now session.now role.now ≡ Some refusal)) }
{
    if let Some(refusal) = refuse_activation(state, user, session, role) {
        return Err(refusal);
    }
    let held = state.active().with_first(session);
    let sets = state.dsd_cardinalities().as_slice();
    state.recall_good();
    violated_with(alloc, state, &held, role, state.dsd_members(), sets)
}

// Why there is no answer for the activation of the role in the session.
fn refuse_activation(state: &State, user: &Name, session: &Name, role: &Name) -> Option<Refusal>
    ensures { result ≡ activation_refused state.now.facts user.now session.now role.now }
{
    if !state.users().contains(user) {
        return Some(Refusal::NoUser);
    }
    if !has_first(state.sessions(), session) {
        return Some(Refusal::NoSession);
    }
    if !state.roles().contains(role) {
        return Some(Refusal::NoRole);
    }
    if !state.sessions().contains((session, user)) {
        return Some(Refusal::NotOwner);
    }
    if !is_authorized(state, user, role) {
        return Some(Refusal::NotAuthorized);
    }
    None
}

// Whether the user is authorized for the role.
pub(crate) fn is_authorized(state: &State, user: &Name, role: &Name) -> bool
    ensures { result ≡ is_authorized state.now.facts user.now role.now }
{
    let held = state.assignments().with_first(user);
    is_reached(state.order(), &held, role)
}

// The sets that a holder of these pairs violates with one more role.
fn violated_with(
    alloc: Global,
    state: &State,
    held: &Run<'_, (Name, Name)>,
    more: &Name,
    members: &PairSet,
    sets: &[(Name, u32)],
) -> Result<Vec<Name>, Refusal>
    requires held { IsTrue (list_all (λ (pair : Pair). contains state.now.facts.roles pair.1) held.now) }
    requires more { IsTrue (contains state.now.facts.roles more.now) }
    requires members { IsTrue (all (λ (pair : Pair). contains state.now.facts.roles pair.1) (set_of pair_cmp members.now)) }
    ensures ok { IfOk result (λ names. names.items ≡ violated_with state.now.facts.edges held.now more.now (set_of pair_cmp members.now) sets.now) }
    ensures cause { IfErr result (λ refusal. refusal ≡ Refusal.Memory) }
{
    let roles = state.roles().as_slice();
    let table = OrderMatrix::new(alloc, state.order(), roles)?;
    let numbers = numbers_with(alloc, roles, held, number(roles, more))?;
    numbered_violated(alloc, &table, roles, &numbers, members, sets)
}

// The sets that a holder of the roles with these numbers violates.
fn numbered_violated(
    alloc: Global,
    table: &OrderMatrix<'_>,
    roles: &[Name],
    held: &[usize],
    members: &PairSet,
    sets: &[(Name, u32)],
) -> Result<Vec<Name>, Refusal>
    requires { IsStrictlySortedBy name_cmp roles.now }
    ensures ok { IfOk result (λ names. names.items ≡ numbered_violated table.now roles.now held.now (set_of pair_cmp members.now) sets.now) }
    ensures cause { IfErr result (λ refusal. refusal ≡ Refusal.Memory) }
{
    let mut names = Vec::new(alloc);
    for set in sets {
        let members = second_numbers(alloc, roles, &Run::of(members.with_first(&set.0)))?;
        if has_too_many(table, held, &members, set.1) {
            names.push(set.0.copy(alloc)?)?;
        }
    }
    Ok(names)
}
