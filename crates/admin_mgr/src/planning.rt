//! The plan of each command.
//!
//! A plan is made for a command that was judged before and is accepted. There is one function for each
//! command that does more than to put or take one row, and `make` for any. A plan lists the rows to take and
//! then those to put; the state is never copied.
ghost use Rattle.std.specs.Prelude.{◌≡◌, ◌⊎◌, Some, None, IfOk, IfErr};
ghost use Rattle.admin_mgr.specs.Verdict.{verdict};
ghost use Rattle.admin_mgr.specs.PlanEffect.{IsPlanOf};

use crate::judge::judge;
use crate::plan::Plan;
use crate::planning::core_rbac::{
    plan_deassign_user, plan_delete_permission, plan_delete_role, plan_delete_user,
    plan_lock_user_account, plan_unlock_user_account,
};
use crate::planning::hierarchy::{
    plan_add_ascendant, plan_add_descendant, plan_add_inheritance, plan_delete_inheritance,
};
use crate::planning::importing::plan_import_assignments;
use crate::planning::making::one_row;
use crate::planning::rows::grant_row;
use crate::planning::separation::{
    plan_add_member, plan_create_set, plan_delete_member, plan_delete_set, plan_set_cardinality,
};
use crate::planning::sessions::{plan_create_session, plan_delete_session};
use crate::separation_of_duty::SeparationOfDuty::{Dynamic, Static};
use crate::state::State;
use rbac_sets::{Change, Command, Refusal, Row};
use std::alloc::Global;

mod core_rbac;
mod ending;
mod hierarchy;
mod importing;
mod making;
mod rows;
mod separation;
mod sessions;

impl State {
    /// Judges the command and, if it is accepted, makes its plan: the rows to remove and those to add. Nothing
    /// is changed yet: `make_room` makes room for the plan, and `commit` makes its changes.
    ///
    /// The rows are exactly the difference between the state and the state after the command, including
    /// those of the role hierarchy and of sessions that end. An import is one plan: its records are judged
    /// one after another, each on the state with the records that were accepted before it.
    ///
    /// # Errors
    ///
    /// The first of the command's refusals that applies, in the order of docs/reference/api.md. `Memory` if an
    /// allocation failed. The state stays as it is in any case.
    pub fn plan(&self, alloc: Global, command: &Command) -> Result<Plan, Refusal>
        ensures accepted { IfOk result (λ plan. verdict self.now.facts command.now ≡ None) }
        ensures planned { IfOk result (IsPlanOf self.now.facts command.now) }
        ensures refused { IfErr result (λ refusal. (refusal ≡ Refusal.Memory) ⊎ (verdict self.now.facts command.now ≡ Some refusal)) }
    {
        match judge(alloc, self, command)? {
            Some(refusal) => Err(refusal),
            None => make(alloc, self, command),
        }
    }
}

// The plan of an accepted command. A command that only puts or takes one row needs no function of its own.
#[tactic(auto, using(crate::proofs::PlanRows::AdditionPlans::done_add_user, crate::proofs::PlanRows::AdditionPlans::done_add_role, crate::proofs::PlanRows::AdditionPlans::done_add_perm_obj, crate::proofs::PlanRows::AdditionPlans::done_add_permission, crate::proofs::PlanRows::AdditionPlans::done_grant_permission, crate::proofs::PlanRows::AdditionPlans::done_add_active_role, crate::proofs::PlanRows::AssignPlans::done_assign_user, crate::proofs::PlanRows::RemovalPlans::done_delete_perm_obj, crate::proofs::PlanRows::RemovalPlans::done_revoke_permission, crate::proofs::PlanRows::RemovalPlans::done_drop_active_role,))]
fn make(alloc: Global, state: &State, command: &Command) -> Result<Plan, Refusal>
    requires accepted { verdict state.now.facts command.now ≡ None }
    ensures planned { IfOk result (IsPlanOf state.now.facts command.now) }
    ensures cause { IfErr result (λ refusal. refusal ≡ Refusal.Memory) }
{
    state.recall_good();
    match command {
        Command::AddUser { user } => one_row(alloc, Change::Put(Row::user(user.copy(alloc)?))),
        Command::DeleteUser { user } => plan_delete_user(alloc, state, user),
        Command::AddRole { role } => one_row(alloc, Change::Put(Row::role(role.copy(alloc)?))),
        Command::DeleteRole { role } => plan_delete_role(alloc, state, role),
        Command::AddPermObj { object } => one_row(
            alloc,
            Change::Put(Row::object(object.copy(alloc)?)),
        ),
        Command::DeletePermObj { object } => one_row(
            alloc,
            Change::Take(Row::object(object.copy(alloc)?)),
        ),
        Command::AddPermission { object, operation } => one_row(
            alloc,
            Change::Put(Row::permission(object.copy(alloc)?, operation.copy(alloc)?)),
        ),
        Command::DeletePermission { object, operation } => plan_delete_permission(
            alloc, state, object, operation,
        ),
        Command::GrantPermission {
            object,
            operation,
            role,
        } => one_row(
            alloc,
            Change::Put(grant_row(alloc, object, operation, role)?),
        ),
        Command::RevokePermission {
            object,
            operation,
            role,
        } => one_row(
            alloc,
            Change::Take(grant_row(alloc, object, operation, role)?),
        ),
        Command::AssignUser { user, role } => one_row(
            alloc,
            Change::Put(Row::assignment(user.copy(alloc)?, role.copy(alloc)?)),
        ),
        Command::DeassignUser { user, role } => plan_deassign_user(alloc, state, user, role),
        Command::AddInheritance { asc, desc } => plan_add_inheritance(alloc, state, asc, desc),
        Command::DeleteInheritance { asc, desc } => plan_delete_inheritance(
            alloc, state, asc, desc,
        ),
        Command::AddAscendant { asc, desc } => plan_add_ascendant(alloc, state, asc, desc),
        Command::AddDescendant { asc, desc } => plan_add_descendant(alloc, state, asc, desc),
        Command::CreateSsdSet {
            set,
            roles,
            cardinality,
        } => plan_create_set(alloc, state, Static, set, roles, *cardinality),
        Command::AddSsdRoleMember { set, role } => plan_add_member(alloc, state, Static, set, role),
        Command::DeleteSsdRoleMember { set, role } => plan_delete_member(
            alloc, state, Static, set, role,
        ),
        Command::SetSsdSetCardinality { set, cardinality } => plan_set_cardinality(
            alloc,
            state,
            Static,
            set,
            *cardinality,
        ),
        Command::DeleteSsdSet { set } => plan_delete_set(alloc, state, Static, set),
        Command::CreateDsdSet {
            set,
            roles,
            cardinality,
        } => plan_create_set(alloc, state, Dynamic, set, roles, *cardinality),
        Command::AddDsdRoleMember { set, role } => plan_add_member(
            alloc, state, Dynamic, set, role,
        ),
        Command::DeleteDsdRoleMember { set, role } => plan_delete_member(
            alloc, state, Dynamic, set, role,
        ),
        Command::SetDsdSetCardinality { set, cardinality } => plan_set_cardinality(
            alloc,
            state,
            Dynamic,
            set,
            *cardinality,
        ),
        Command::DeleteDsdSet { set } => plan_delete_set(alloc, state, Dynamic, set),
        Command::CreateSession {
            user,
            roles,
            session,
        } => plan_create_session(alloc, state, user, roles, session),
        Command::DeleteSession { user, session } => plan_delete_session(
            alloc, state, user, session,
        ),
        Command::AddActiveRole { session, role, .. } => one_row(
            alloc,
            Change::Put(Row::activated_role(session.copy(alloc)?, role.copy(alloc)?)),
        ),
        Command::DropActiveRole { session, role, .. } => one_row(
            alloc,
            Change::Take(Row::activated_role(session.copy(alloc)?, role.copy(alloc)?)),
        ),
        Command::LockUserAccount { user } => plan_lock_user_account(alloc, state, user),
        Command::UnlockUserAccount { user } => plan_unlock_user_account(alloc, state, user),
        Command::ImportAssignments(pairs) => plan_import_assignments(alloc, state, pairs),
    }
}
