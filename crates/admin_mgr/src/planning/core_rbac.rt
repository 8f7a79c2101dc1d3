//! The plans of the commands of core RBAC, except those on sessions, and of the commands on locks. Commands that only
//! put or take one row have no plan of their own here.
ghost use Rattle.std.specs.Prelude.{◌≡◌, ◌++◌, filter, None, IfOk, IfErr, OnOk};
ghost use Rattle.rbac_sets.specs.RowKinds.{assignment_kind};
ghost use Rattle.rbac_sets.specs.Sets.{Pair, Triple, members, same_name};
ghost use Rattle.rbac_sets.specs.declared.command.Command.TheVariants.{DeleteUser, DeleteRole, DeletePermission, DeassignUser, LockUserAccount, UnlockUserAccount};
ghost use Rattle.admin_mgr.specs.private.PlanChanges.{grant_row, lock_rows, new_lock_rows, pair_row, take_all};
ghost use Rattle.admin_mgr.specs.Verdict.{verdict};
ghost use Rattle.admin_mgr.specs.PlanEffect.{IsPlanOf};

use crate::plan::Plan;
use crate::planning::ending::{Loss, take_ended};
use crate::planning::making::plain;
use crate::planning::rows::{
    put, take, take_grants, take_pairs, take_turned_grants, take_turned_pairs,
};
use crate::state::State;
use rbac_sets::{Change, Name, Refusal, Row};
use std::alloc::Global;

// The plan of DeleteUser: it removes the user, its lock, its assignments and its sessions.
pub(crate) fn plan_delete_user(alloc: Global, state: &State, user: &Name) -> Result<Plan, Refusal>
    requires accepted { verdict state.now.facts (DeleteUser user.now) ≡ None }
    ensures planned { IfOk result (IsPlanOf state.now.facts (DeleteUser user.now)) }
    ensures cause { IfErr result (λ refusal. refusal ≡ Refusal.Memory) }
{
    state.recall_good();
    let mut changes = Vec::new(alloc);
    take(&mut changes, Row::user(user.copy(alloc)?))?;
    take_lock(alloc, &mut changes, state, user)?;
    take_pairs(
        alloc,
        &mut changes,
        Row::ASSIGNMENT,
        &state.assignments().with_first(user),
    )?;
    take_ended(alloc, &mut changes, state, Loss::User(user))?;
    Ok(plain(alloc, changes))
}

// The plan of DeleteRole: it removes the role, its assignments and its grants, and sessions may end.
pub(crate) fn plan_delete_role(alloc: Global, state: &State, role: &Name) -> Result<Plan, Refusal>
    requires accepted { verdict state.now.facts (DeleteRole role.now) ≡ None }
    ensures planned { IfOk result (IsPlanOf state.now.facts (DeleteRole role.now)) }
    ensures cause { IfErr result (λ refusal. refusal ≡ Refusal.Memory) }
{
    state.recall_good();
    let mut changes = Vec::new(alloc);
    take(&mut changes, Row::role(role.copy(alloc)?))?;
    take_assignments_of_role(alloc, &mut changes, state, role)?;
    take_grants_of_role(alloc, &mut changes, state, role)?;
    take_ended(alloc, &mut changes, state, Loss::Role(role))?;
    Ok(plain(alloc, changes))
}

// Adds the changes that take the assignments to the role.
fn take_assignments_of_role(
    alloc: Global,
    changes: &mut Vec<Change>,
    state: &State,
    role: &Name,
) -> Result<(), Refusal>
    ensures ok { OnOk result (changes.new.items ≡ changes.old.items
        ++ take_all (pair_row assignment_kind) (filter (λ (pair : Pair). same_name pair.1 role.now) (members state.now.facts.assignments))) }
    ensures cause { IfErr result (λ refusal. refusal ≡ Refusal.Memory) }
{
    take_turned_pairs(
        alloc,
        changes,
        Row::ASSIGNMENT,
        &state.assignments_by_role().with_first(role),
    )
}

// Adds the changes that take the grants to the role.
fn take_grants_of_role(
    alloc: Global,
    changes: &mut Vec<Change>,
    state: &State,
    role: &Name,
) -> Result<(), Refusal>
    ensures ok { OnOk result (changes.new.items ≡ changes.old.items
        ++ take_all grant_row (filter (λ (grant : Triple). same_name grant.2 role.now) (members state.now.facts.grants))) }
    ensures cause { IfErr result (λ refusal. refusal ≡ Refusal.Memory) }
{
    take_turned_grants(alloc, changes, &state.grants_by_role().with_first(role))
}

// The plan of DeletePermission: it removes the permission and its grants.
pub(crate) fn plan_delete_permission(
    alloc: Global,
    state: &State,
    object: &Name,
    operation: &Name,
) -> Result<Plan, Refusal>
    requires accepted { verdict state.now.facts (DeletePermission object.now operation.now) ≡ None }
    ensures planned { IfOk result (IsPlanOf state.now.facts (DeletePermission object.now operation.now)) }
    ensures cause { IfErr result (λ refusal. refusal ≡ Refusal.Memory) }
{
    state.recall_good();
    let mut changes = Vec::new(alloc);
    take(
        &mut changes,
        Row::permission(object.copy(alloc)?, operation.copy(alloc)?),
    )?;
    take_grants(
        alloc,
        &mut changes,
        &state.grants().with_first((object, operation)),
    )?;
    Ok(plain(alloc, changes))
}

// The plan of DeassignUser: sessions of the user may end.
pub(crate) fn plan_deassign_user(
    alloc: Global,
    state: &State,
    user: &Name,
    role: &Name,
) -> Result<Plan, Refusal>
    requires accepted { verdict state.now.facts (DeassignUser user.now role.now) ≡ None }
    ensures planned { IfOk result (IsPlanOf state.now.facts (DeassignUser user.now role.now)) }
    ensures cause { IfErr result (λ refusal. refusal ≡ Refusal.Memory) }
{
    state.recall_good();
    let mut changes = Vec::new(alloc);
    take(
        &mut changes,
        Row::assignment(user.copy(alloc)?, role.copy(alloc)?),
    )?;
    take_ended(alloc, &mut changes, state, Loss::Assignment(user, role))?;
    Ok(plain(alloc, changes))
}

// The plan of LockUserAccount: the user's sessions end. If the user is locked already, nothing changes.
pub(crate) fn plan_lock_user_account(
    alloc: Global,
    state: &State,
    user: &Name,
) -> Result<Plan, Refusal>
    requires accepted { verdict state.now.facts (LockUserAccount user.now) ≡ None }
    ensures planned { IfOk result (IsPlanOf state.now.facts (LockUserAccount user.now)) }
    ensures cause { IfErr result (λ refusal. refusal ≡ Refusal.Memory) }
{
    state.recall_good();
    let mut changes = Vec::new(alloc);
    take_ended(alloc, &mut changes, state, Loss::User(user))?;
    put_lock(alloc, &mut changes, state, user)?;
    Ok(plain(alloc, changes))
}

// The plan of UnlockUserAccount. If the user isn't locked, nothing changes.
pub(crate) fn plan_unlock_user_account(
    alloc: Global,
    state: &State,
    user: &Name,
) -> Result<Plan, Refusal>
    requires accepted { verdict state.now.facts (UnlockUserAccount user.now) ≡ None }
    ensures planned { IfOk result (IsPlanOf state.now.facts (UnlockUserAccount user.now)) }
    ensures cause { IfErr result (λ refusal. refusal ≡ Refusal.Memory) }
{
    state.recall_good();
    let mut changes = Vec::new(alloc);
    take_lock(alloc, &mut changes, state, user)?;
    Ok(plain(alloc, changes))
}

// Adds the change that takes the lock of the user, if there is one.
fn take_lock(
    alloc: Global,
    changes: &mut Vec<Change>,
    state: &State,
    user: &Name,
) -> Result<(), Refusal>
    ensures ok { OnOk result (changes.new.items ≡ changes.old.items ++ lock_rows state.now.facts user.now) }
    ensures cause { IfErr result (λ refusal. refusal ≡ Refusal.Memory) }
{
    if state.locked().contains(user) {
        take(changes, Row::lock(user.copy(alloc)?))?;
    }
    Ok(())
}

// Adds the change that puts the lock of the user, unless there is one.
fn put_lock(
    alloc: Global,
    changes: &mut Vec<Change>,
    state: &State,
    user: &Name,
) -> Result<(), Refusal>
    ensures ok { OnOk result (changes.new.items ≡ changes.old.items ++ new_lock_rows state.now.facts user.now) }
    ensures cause { IfErr result (λ refusal. refusal ≡ Refusal.Memory) }
{
    if !state.locked().contains(user) {
        put(changes, Row::lock(user.copy(alloc)?))?;
    }
    Ok(())
}
