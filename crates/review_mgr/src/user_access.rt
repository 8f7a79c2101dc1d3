//! The decision about a user: whether some session that the user may create would have access.
ghost use Rattle.std.specs.Prelude.{◌≡◌, Some, None, filter, IfOk, IfErr};
ghost use Rattle.rbac_sets.specs.Sets.{members};
ghost use Rattle.admin_mgr.specs.UserAccess.{could_have_access};
ghost use Rattle.admin_mgr.specs.private.HolderRoles.{run_of};
ghost use Rattle.review_mgr.specs.Questions.{user_refused};
ghost use Rattle.review_mgr.specs.Review.{is_grant_of};
ghost use Rattle.review_mgr.specs.private.Usable.{could_use, has_usable};

use crate::access::{granted_for, is_object, is_operation};
use admin_mgr::{State, is_reached, stands_alone};
use chunked_sets::Run;
use rbac_sets::{BorrowedName, Name, Refusal};

/// Whether the user could do the operation on the object in some session: whether the user isn't locked, and is
/// authorized for a role to which the permission is granted and which violates no dynamic separation of duty set
/// alone. `admin_mgr::laws::user_access` says that this is exactly so if the user may create a session that has
/// access. It doesn't allocate.
///
/// # Errors
///
/// The first of these that applies: `NoUser` if there is no such user, `NoObject` if there is no such object,
/// `NoOperation` if no permission, of any object, has the operation.
#[tactic(auto, unfolding(crate::specs::Questions::user_refused, crate::specs::Questions::user_refusals))]
pub fn check_user_access(
    state: &State,
    user: &BorrowedName<'_>,
    operation: &BorrowedName<'_>,
    object: &BorrowedName<'_>,
) -> Result<bool, Refusal>
    ensures answered { IfOk result (λ access. user_refused state.now.facts user.now operation.now object.now ≡ None) }
    ensures value { IfOk result (λ access. access ≡ could_have_access state.now.facts user.now operation.now object.now) }
    ensures refused { IfErr result (λ refusal. user_refused state.now.facts user.now operation.now object.now ≡ Some refusal) }
{
    if !state.users().contains(user) {
        return Err(Refusal::NoUser);
    }
    let granted = granted_for(state, operation, object);
    if !is_object(state, operation, object, &granted) {
        return Err(Refusal::NoObject);
    }
    if !is_operation(state, operation, object, &granted) {
        return Err(Refusal::NoOperation);
    }
    Ok(could_have_access(state, user, operation, object, &granted))
}

// Whether the user isn't locked, and one of these grants of the permission is to a role that the user could have in a
// session.
fn could_have_access(
    state: &State,
    user: &BorrowedName<'_>,
    operation: &BorrowedName<'_>,
    object: &BorrowedName<'_>,
    granted: &Run<'_, (Name, Name, Name)>,
) -> bool
    requires { granted.now ≡ filter (is_grant_of object.now operation.now) (members state.now.facts.grants) }
    ensures { result ≡ could_have_access state.now.facts user.now operation.now object.now }
{
    state.recall_good();
    is_usable(state, user, granted)
}

// Whether the user isn't locked, and one of the grants is to a role for which the user is authorized and that stands alone.
fn is_usable(state: &State, user: &BorrowedName<'_>, granted: &Run<'_, (Name, Name, Name)>) -> bool
    ensures { result ≡ could_use state.now.facts user.now granted.now }
{
    !state.locked().contains(user) && has_usable(state, &assigned_to_user(state, user), granted)
}

// The roles that are assigned to the user, as pairs (user, role).
fn assigned_to_user<'a>(state: &'a State, user: &BorrowedName<'_>) -> Run<'a, (Name, Name)>
    ensures { result ≡ run_of state.now.facts.assignments user.now }
{
    state.assignments().with_first(user)
}

// Whether one of the grants is to a role that is one of `held`, pairs (user, role), or a junior of one, and that stands
// alone.
fn has_usable(
    state: &State,
    held: &Run<'_, (Name, Name)>,
    granted: &Run<'_, (Name, Name, Name)>,
) -> bool
    ensures { result ≡ has_usable state.now.facts held.now granted.now }
{
    granted.iter().any(|grant| is_reached(state.order(), held, &grant.2)
        && stands_alone(state, &grant.2))
}
