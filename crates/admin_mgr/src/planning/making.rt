//! Plans from their changes.
ghost use Rattle.std.specs.Prelude.{◌≡◌, ◌∷◌, [], None, Some, IfOk, IfErr};
ghost use Rattle.admin_mgr.specs.Assignment.{no_tally};
ghost use Rattle.admin_mgr.specs.private.PlainPlan.{IsPlain};
ghost use Rattle.admin_mgr.specs.PlanEffect.{tally_of_report};

use crate::plan::{Plan, Report};
use rbac_sets::{Change, Refusal};
use role_order::OrderPlan;
use std::alloc::Global;

// The plan of a command that leaves the role hierarchy as it is.
pub(crate) fn plain(alloc: Global, changes: Vec<Change>) -> Plan
    ensures changes { result.changes.items ≡ changes.items }
    ensures report { tally_of_report result.report ≡ no_tally }
    ensures order { result.order ≡ None }
{
    Plan {
        changes,
        report: empty_report(alloc),
        order: None,
    }
}

// The plan of a command that puts or takes one row.
pub(crate) fn one_row(alloc: Global, change: Change) -> Result<Plan, Refusal>
    ensures ok { IfOk result (IsPlain (change ∷ [])) }
    ensures cause { IfErr result (λ refusal. refusal ≡ Refusal.Memory) }
{
    let mut changes = Vec::new(alloc);
    changes.push(change)?;
    Ok(plain(alloc, changes))
}

// The plan of a command that changes the role hierarchy.
pub(crate) fn with_order(alloc: Global, changes: Vec<Change>, order: OrderPlan) -> Plan
    ensures changes { result.changes.items ≡ changes.items }
    ensures report { tally_of_report result.report ≡ no_tally }
    ensures order { result.order ≡ Some order }
{
    Plan {
        changes,
        report: empty_report(alloc),
        order: Some(order),
    }
}

// The report of a command that is no import.
fn empty_report(alloc: Global) -> Report
    ensures { tally_of_report result ≡ no_tally }
{
    Report {
        assigned: 0,
        already: 0,
        refused: Vec::new(alloc),
    }
}
