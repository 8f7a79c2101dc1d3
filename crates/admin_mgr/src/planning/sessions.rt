//! The plans of the commands on sessions that put or take more than one row.
ghost use Rattle.std.specs.Prelude.{◌≡◌, None, IfOk, IfErr};
ghost use Rattle.rbac_sets.specs.declared.command.Command.TheVariants.{CreateSession, DeleteSession};
ghost use Rattle.admin_mgr.specs.Verdict.{verdict};
ghost use Rattle.admin_mgr.specs.PlanEffect.{IsPlanOf};

use crate::plan::Plan;
use crate::planning::ending::take_session;
use crate::planning::making::plain;
use crate::planning::rows::{put, put_paired};
use crate::state::State;
use rbac_sets::{Name, NameSet, Refusal, Row};
use std::alloc::Global;

// The plan of CreateSession.
pub(crate) fn plan_create_session(
    alloc: Global,
    state: &State,
    user: &Name,
    roles: &NameSet,
    session: &Name,
) -> Result<Plan, Refusal>
    requires accepted { verdict state.now.facts (CreateSession user.now roles.now session.now) ≡ None }
    ensures planned { IfOk result (IsPlanOf state.now.facts (CreateSession user.now roles.now session.now)) }
    ensures cause { IfErr result (λ refusal. refusal ≡ Refusal.Memory) }
{
    state.recall_good();
    let mut changes = Vec::new(alloc);
    put(
        &mut changes,
        Row::session(session.copy(alloc)?, user.copy(alloc)?),
    )?;
    put_paired(
        alloc,
        &mut changes,
        Row::ACTIVATED_ROLE,
        session,
        roles.as_slice(),
    )?;
    Ok(plain(alloc, changes))
}

// The plan of DeleteSession.
pub(crate) fn plan_delete_session(
    alloc: Global,
    state: &State,
    user: &Name,
    session: &Name,
) -> Result<Plan, Refusal>
    requires accepted { verdict state.now.facts (DeleteSession user.now session.now) ≡ None }
    ensures planned { IfOk result (IsPlanOf state.now.facts (DeleteSession user.now session.now)) }
    ensures cause { IfErr result (λ refusal. refusal ≡ Refusal.Memory) }
{
    state.recall_good();
    let mut changes = Vec::new(alloc);
    take_session(alloc, &mut changes, state, session, user)?;
    Ok(plain(alloc, changes))
}
