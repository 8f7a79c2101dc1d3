//! Why a session may do an operation on an object, or why not.
ghost use Rattle.std.specs.Prelude.{◌≡◌, None, Some, IfOk, IfErr};
ghost use Rattle.admin_mgr.specs.Authorization.{has_access};
ghost use Rattle.admin_mgr.specs.private.HolderRoles.{run_of};
ghost use Rattle.review_mgr.specs.Questions.{refused};
ghost use Rattle.review_mgr.specs.declared.query.Query.TheVariants.{CheckAccess};
ghost use Rattle.explanations.specs.SessionReasons.{IsSessionReason, SessionReasonContent, allows_session, session_reason_content};

use crate::user_access::{granted_for, role_above, served_role};
use admin_mgr::State;
use chunked_sets::Run;
use rbac_sets::{BorrowedName, Name, Refusal};
use review_mgr::check_access;

/// Why a session may do an operation on an object, or why not. The first reason that applies, in the order in which they
/// stand here. A session of a locked user is ended, so no session is denied for that.
#[derive(Clone, Copy, Debug)]
pub enum SessionReason<'a> {
    /// The permission is granted to no role.
    NotGranted,
    /// The session has no role to which the permission is granted.
    NotActive,
    /// The session has access.
    Allowed {
        /// The first role in byte order that was activated in the session, and is the next role or a senior of it.
        active: &'a Name,
        /// The first role of the session in byte order to which the permission is granted.
        granted: &'a Name,
    },
}

/// Why the session may do the operation on the object, or why not. `check_access` decides whether, and this says
/// `Allowed` exactly if it says yes. It doesn't allocate.
///
/// # Errors
///
/// Those of `check_access`, in its order: `NoSession`, `NoObject`, `NoOperation`.
pub fn explain_session_access<'a>(
    state: &'a State,
    session: &BorrowedName<'_>,
    operation: &BorrowedName<'_>,
    object: &BorrowedName<'_>,
) -> Result<SessionReason<'a>, Refusal>
    ensures answered { IfOk result (λ reason. refused state.now.facts (CheckAccess session.now operation.now object.now) ≡ None) }
    ensures reason { IfOk result (λ reason. IsSessionReason state.now.facts session.now operation.now object.now (session_reason_content reason)) }
    ensures only { IfOk result (λ reason. (other : SessionReasonContent)
        → IsSessionReason state.now.facts session.now operation.now object.now other → other ≡ session_reason_content reason) }
    ensures access { IfOk result (λ reason. allows_session (session_reason_content reason)
        ≡ has_access state.now.facts session.now operation.now object.now) }
    ensures refused { IfErr result (λ refusal. refused state.now.facts (CheckAccess session.now operation.now object.now) ≡ Some refusal) }
{
    check_access(state, session, operation, object)?;
    state.recall_good();
    Ok(session_reason(state, session, operation, object))
}

// The first reason that applies.
fn session_reason<'a>(
    state: &'a State,
    session: &BorrowedName<'_>,
    operation: &BorrowedName<'_>,
    object: &BorrowedName<'_>,
) -> SessionReason<'a>
    ensures { IsSessionReason state.now.facts session.now operation.now object.now (session_reason_content result) }
{
    let granted = granted_for(state, operation, object);
    if granted.is_empty() {
        return SessionReason::NotGranted;
    }
    let order = state.order();
    let held = activated_in(state, session);
    match served_role(order, &held, &granted) {
        Some(role) => SessionReason::Allowed {
            active: role_above(order, &held, role),
            granted: role,
        },
        None => SessionReason::NotActive,
    }
}

// The roles that were activated in the session, as pairs (session, role).
fn activated_in<'a>(state: &'a State, session: &BorrowedName<'_>) -> Run<'a, (Name, Name)>
    ensures { result ≡ run_of state.now.facts.active session.now }
{
    state.active().with_first(session)
}
