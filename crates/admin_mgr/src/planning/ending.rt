//! The sessions that end by a command.
ghost use Rattle.std.specs.Prelude.{◌≡◌, ◌++◌, ◌||◌, ◌&&◌, not, true, false, IfErr, OnOk};
ghost use Rattle.std.specs.List.{list_any, list_all};
ghost use Rattle.rbac_sets.specs.Sets.{Bytes, Pair, pair_cmp, contains, same_name};
ghost use Rattle.rbac_sets.specs.SortedSet.{set_of};
ghost use Rattle.role_order.specs.Order.{geq};
ghost use Rattle.admin_mgr.specs.private.HolderRoles.{run_of};
ghost use Rattle.admin_mgr.specs.private.PlanChanges.{session_rows, ended_rows};
ghost use Rattle.admin_mgr.specs.private.SessionContinuation.{is_held_without_role, is_held_without_pairs, goes_on_without_role, goes_on_without_pairs, stays};

use crate::planning::rows::{take, take_pairs};
use crate::state::State;
use chunked_sets::Run;
use rbac_sets::{Change, Name, PairSet, Refusal, Row, is_same};
use role_order::RoleOrder;
use std::alloc::Global;

// What a command removes that the activated roles of a session depend on.
#[derive(Clone, Copy)]
pub(crate) enum Loss<'a> {
    // The user itself, or the right of a user to have sessions.
    User(&'a Name),
    // The assignment of a user to a role.
    Assignment(&'a Name, &'a Name),
    // The assignments to a role.
    Role(&'a Name),
    // These pairs of the closure.
    Pairs(&'a PairSet),
}

// Adds the changes that take a session and the roles that were activated in it.
pub(crate) fn take_session(
    alloc: Global,
    changes: &mut Vec<Change>,
    state: &State,
    session: &Name,
    user: &Name,
) -> Result<(), Refusal>
    ensures ok { OnOk result (changes.new.items ≡ changes.old.items ++ session_rows state.now.facts (session.now, user.now)) }
    ensures cause { IfErr result (λ refusal. refusal ≡ Refusal.Memory) }
{
    take(
        changes,
        Row::session(session.copy(alloc)?, user.copy(alloc)?),
    )?;
    take_pairs(
        alloc,
        changes,
        Row::ACTIVATED_ROLE,
        &state.active().with_first(session),
    )
}

// Adds the changes that take each session that may not go on after the loss.
pub(crate) fn take_ended(
    alloc: Global,
    changes: &mut Vec<Change>,
    state: &State,
    loss: Loss<'_>,
) -> Result<(), Refusal>
    ensures ok { OnOk result (changes.new.items ≡ changes.old.items ++ ended_rows state.now.facts (stays state.now.facts loss.entry)) }
    ensures cause { IfErr result (λ refusal. refusal ≡ Refusal.Memory) }
{
    match loss {
        Loss::User(user) => take_ended_of_user(alloc, changes, state, user, loss),
        Loss::Assignment(user, _) => take_ended_of_user(alloc, changes, state, user, loss),
        _ => take_ended_of_all(alloc, changes, state, loss),
    }
}

// The same, if the sessions of any user may end.
fn take_ended_of_all(
    alloc: Global,
    changes: &mut Vec<Change>,
    state: &State,
    loss: Loss<'_>,
) -> Result<(), Refusal>
    ensures ok { OnOk result (changes.new.items ≡ changes.old.items ++ ended_rows state.now.facts (stays state.now.facts loss.entry)) }
    ensures cause { IfErr result (λ refusal. refusal ≡ Refusal.Memory) }
{
    for session in state.sessions().iter() {
        if !goes_on(state, loss, &session.0, &session.1) {
            take_session(alloc, changes, state, &session.0, &session.1)?;
        }
    }
    Ok(())
}

// The same, if only sessions of this user may end.
fn take_ended_of_user(
    alloc: Global,
    changes: &mut Vec<Change>,
    state: &State,
    user: &Name,
    loss: Loss<'_>,
) -> Result<(), Refusal>
    requires others { (session : Pair) → same_name session.1 user.now ≡ false → stays state.now.facts loss session ≡ true }
    ensures ok { OnOk result (changes.new.items ≡ changes.old.items ++ ended_rows state.now.facts (stays state.now.facts loss.entry)) }
    ensures cause { IfErr result (λ refusal. refusal ≡ Refusal.Memory) }
{
    for pair in state.sessions_by_user().with_first(user).iter() {
        if !goes_on(state, loss, &pair.1, &pair.0) {
            take_session(alloc, changes, state, &pair.1, &pair.0)?;
        }
    }
    Ok(())
}

// Whether the session goes on after the loss.
fn goes_on(state: &State, loss: Loss<'_>, session: &Name, user: &Name) -> bool
    ensures { result ≡ stays state.now.facts loss.entry (session.now, user.now) }
{
    match loss {
        Loss::User(gone) => !is_same(user, gone),
        Loss::Assignment(assigned, role) => {
            !is_same(user, assigned) || goes_on_without_role(state, session, user, role)
        }
        Loss::Role(role) => goes_on_without_role(state, session, user, role),
        Loss::Pairs(pairs) => goes_on_without_pairs(state, session, user, pairs),
    }
}

// Whether the session's user is authorized for each role that was activated in it, by an assignment to
// another role than `gone`.
fn goes_on_without_role(state: &State, session: &Name, user: &Name, gone: &Name) -> bool
    ensures { result ≡ goes_on_without_role state.now.facts gone.now (session.now, user.now) }
{
    let held = state.assignments().with_first(user);
    let active = state.active().with_first(session);
    are_held_without_role(state.order(), &held, gone, &active)
}

// The same, over the pairs of the user and those of the session.
fn are_held_without_role(
    order: &RoleOrder,
    held: &Run<'_, (Name, Name)>,
    gone: &Name,
    active: &Run<'_, (Name, Name)>,
) -> bool
    ensures { result ≡ list_all (λ (pair : Pair). is_held_without_role order.now.edges held.now gone.now pair.1) active.now }
{
    active
        .iter()
        .all(|pair| is_held_without_role(order, held, gone, &pair.1))
}

// Whether the role, or a senior of it, is the role of one of the pairs, and that isn't the role `gone`.
fn is_held_without_role(
    order: &RoleOrder,
    held: &Run<'_, (Name, Name)>,
    gone: &Name,
    role: &Name,
) -> bool
    ensures { result ≡ is_held_without_role order.now.edges held.now gone.now role.now }
{
    held.iter()
        .any(|pair| !is_same(&pair.1, gone) && order.geq(&pair.1, role))
}

// Whether the session's user is authorized for each role that was activated in it, without the lost pairs of
// the closure.
fn goes_on_without_pairs(state: &State, session: &Name, user: &Name, lost: &PairSet) -> bool
    ensures { result ≡ goes_on_without_pairs state.now.facts (set_of pair_cmp lost.now) (session.now, user.now) }
{
    let held = state.assignments().with_first(user);
    let active = state.active().with_first(session);
    are_held_without_pairs(state.order(), &held, lost, &active)
}

// The same, over the pairs of the user and those of the session.
fn are_held_without_pairs(
    order: &RoleOrder,
    held: &Run<'_, (Name, Name)>,
    lost: &PairSet,
    active: &Run<'_, (Name, Name)>,
) -> bool
    ensures { result ≡ list_all (λ (pair : Pair). is_held_without_pairs order.now.edges held.now (set_of pair_cmp lost.now) pair.1) active.now }
{
    active
        .iter()
        .all(|pair| is_held_without_pairs(order, held, lost, &pair.1))
}

// Whether the role, or a senior of it, is the role of one of the pairs, and the two are no lost pair of the
// closure.
fn is_held_without_pairs(
    order: &RoleOrder,
    held: &Run<'_, (Name, Name)>,
    lost: &PairSet,
    role: &Name,
) -> bool
    ensures { result ≡ is_held_without_pairs order.now.edges held.now (set_of pair_cmp lost.now) role.now }
{
    held.iter().any(|pair| order.geq(&pair.1, role) && !lost.contains((&pair.1, role)))
}
