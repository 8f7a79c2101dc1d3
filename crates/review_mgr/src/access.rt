//! The access decision.
ghost use Rattle.std.specs.Prelude.{◌≡◌, Some, None, filter, IfOk, IfErr};
ghost use Rattle.rbac_sets.specs.Sets.{contains, members};
ghost use Rattle.admin_mgr.specs.Authorization.{has_access};
ghost use Rattle.admin_mgr.specs.private.HolderRoles.{run_of};
ghost use Rattle.admin_mgr.specs.RbacState.{has_session};
ghost use Rattle.review_mgr.specs.declared.query.Query.TheVariants.{CheckAccess};
ghost use Rattle.review_mgr.specs.Questions.{has_operation, refused};
ghost use Rattle.review_mgr.specs.Review.{is_grant_of};

use crate::intersection::is_granted;
use crate::lookup::{activated_in, has_operation, has_session};
use admin_mgr::State;
use chunked_sets::Run;
use rbac_sets::{BorrowedName, Name, Refusal};

/// CheckAccess: whether the session may do the operation on the object. It may if the permission is
/// granted to a role of the session: one that was activated in it, or a junior of such a role.
///
/// It doesn't allocate. The activated roles of the session and the grants of the permission are found
/// by binary search. One or two grants are then tested one by one against each of these roles; more
/// of them are compared with the juniors of each in one pass through both. If there are activated
/// roles and grants, the session, the object and the operation are there; otherwise these are looked
/// up.
///
/// # Errors
///
/// The first of these that applies: `NoSession` if there is no such session, `NoObject` if there is
/// no such object, `NoOperation` if no permission, of any object, has the operation.
#[tactic(auto, unfolding(crate::specs::Questions::refused, crate::specs::Questions::refusals))]
pub fn check_access(
    state: &State,
    session: &BorrowedName<'_>,
    operation: &BorrowedName<'_>,
    object: &BorrowedName<'_>,
) -> Result<bool, Refusal>
    ensures answered { IfOk result (λ access. refused state.now.facts (CheckAccess session.now operation.now object.now) ≡ None) }
    ensures value { IfOk result (λ access. access ≡ has_access state.now.facts session.now operation.now object.now) }
    ensures refused { IfErr result (λ refusal. refused state.now.facts (CheckAccess session.now operation.now object.now) ≡ Some refusal) }
{
    let activated = activated_in(state, session);
    if !is_session(state, session, &activated) {
        return Err(Refusal::NoSession);
    }
    let granted = granted_for(state, operation, object);
    if !is_object(state, operation, object, &granted) {
        return Err(Refusal::NoObject);
    }
    if !is_operation(state, operation, object, &granted) {
        return Err(Refusal::NoOperation);
    }
    Ok(has_access(state, session, operation, object, &activated, &granted))
}

// The grants of the permission.
pub(crate) fn granted_for<'a>(
    state: &'a State,
    operation: &BorrowedName<'_>,
    object: &BorrowedName<'_>,
) -> Run<'a, (Name, Name, Name)>
    ensures { result ≡ filter (is_grant_of object.now operation.now) (members state.now.facts.grants) }
{
    state.grants().with_first((object, operation))
}

// Whether there is such a session. A session with an activated role has a user.
fn is_session(state: &State, session: &BorrowedName<'_>, activated: &Run<'_, (Name, Name)>) -> bool
    requires { activated.now ≡ run_of state.now.facts.active session.now }
    ensures { result ≡ has_session state.now.facts session.now }
{
    state.recall_good();
    !activated.is_empty() || has_session(state, session)
}

// Whether there is such an object. It is there if the permission is granted.
pub(crate) fn is_object(
    state: &State,
    operation: &BorrowedName<'_>,
    object: &BorrowedName<'_>,
    granted: &Run<'_, (Name, Name, Name)>,
) -> bool
    requires { granted.now ≡ filter (is_grant_of object.now operation.now) (members state.now.facts.grants) }
    ensures { result ≡ contains state.now.facts.objects object.now }
{
    state.recall_good();
    !granted.is_empty() || state.objects().contains(object)
}

// Whether some permission has the operation. One has it if the permission is granted.
pub(crate) fn is_operation(
    state: &State,
    operation: &BorrowedName<'_>,
    object: &BorrowedName<'_>,
    granted: &Run<'_, (Name, Name, Name)>,
) -> bool
    requires { granted.now ≡ filter (is_grant_of object.now operation.now) (members state.now.facts.grants) }
    ensures { result ≡ has_operation state.now.facts operation.now }
{
    state.recall_good();
    !granted.is_empty() || has_operation(state, object, operation)
}

// Whether one of these grants of the permission is to a role that was activated in the session, or to a
// junior of one.
fn has_access(
    state: &State,
    session: &BorrowedName<'_>,
    operation: &BorrowedName<'_>,
    object: &BorrowedName<'_>,
    activated: &Run<'_, (Name, Name)>,
    granted: &Run<'_, (Name, Name, Name)>,
) -> bool
    requires activated { activated.now ≡ run_of state.now.facts.active session.now }
    requires granted { granted.now ≡ filter (is_grant_of object.now operation.now) (members state.now.facts.grants) }
    ensures { result ≡ has_access state.now.facts session.now operation.now object.now }
{
    state.recall_good();
    is_granted(state.order(), activated, granted)
}
