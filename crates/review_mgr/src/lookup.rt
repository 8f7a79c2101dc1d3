//! Lookups in a state.
ghost use Rattle.std.specs.Prelude.{◌≡◌};
ghost use Rattle.std.specs.List.{list_any};
ghost use Rattle.rbac_sets.specs.Sets.{Pair, any, pair_cmp, same_name};
ghost use Rattle.rbac_sets.specs.SortedSet.{set_of};
ghost use Rattle.admin_mgr.specs.RbacState.{has_session, has_set};
ghost use Rattle.admin_mgr.specs.private.HolderRoles.{run_of};
ghost use Rattle.review_mgr.specs.Questions.{has_operation};

use admin_mgr::State;
use chunked_sets::{ChunkedPairs, Run};
use rbac_sets::{BorrowedName, Name};

// Whether there is a session of this name.
pub(crate) fn has_session(state: &State, session: &BorrowedName<'_>) -> bool
    ensures { result ≡ has_session state.now.facts session.now }
{
    has_first(state.sessions(), session)
}

// Whether there is a static separation of duty set of this name.
#[tactic(auto, using(rbac_sets::proofs::Lists::is_some_found), unfolding(rbac_sets::specs::Sets::any, admin_mgr::specs::RbacState::cardinality_of))]
pub(crate) fn has_ssd_set(state: &State, set: &Name) -> bool
    ensures { result ≡ has_set state.now.facts.ssd set.now }
{
    state.ssd_n(set).is_some()
}

// Whether there is a dynamic separation of duty set of this name.
#[tactic(auto, using(rbac_sets::proofs::Lists::is_some_found), unfolding(rbac_sets::specs::Sets::any, admin_mgr::specs::RbacState::cardinality_of))]
pub(crate) fn has_dsd_set(state: &State, set: &Name) -> bool
    ensures { result ≡ has_set state.now.facts.dsd set.now }
{
    state.dsd_n(set).is_some()
}

// Whether some permission has the operation. The permission (object, operation) is tried first.
pub(crate) fn has_operation(
    state: &State,
    object: &BorrowedName<'_>,
    operation: &BorrowedName<'_>,
) -> bool
    ensures { result ≡ has_operation state.now.facts operation.now }
{
    state.permissions().contains((object, operation))
        || has_operation_of(&state.permissions().as_run(), operation)
}

// Whether one of the pairs has this first name.
fn has_first(pairs: &ChunkedPairs, first: &BorrowedName<'_>) -> bool
    ensures { result ≡ any (λ (pair : Pair). same_name pair.0 first.now) (set_of pair_cmp pairs.now) }
{
    !pairs.with_first(first).is_empty()
}

// Whether one of the permissions, as pairs (object, operation), has the operation.
fn has_operation_of(permissions: &Run<'_, (Name, Name)>, operation: &BorrowedName<'_>) -> bool
    ensures { result ≡ list_any (λ (permission : Pair). same_name permission.1 operation.now) permissions.now }
{
    permissions
        .iter()
        .any(|permission| operation.is(&permission.1))
}

// The roles that are assigned to the user, as pairs (user, role).
pub(crate) fn assigned_to<'a>(state: &'a State, user: &Name) -> Run<'a, (Name, Name)>
    ensures { result ≡ run_of state.now.facts.assignments user.now }
{
    state.assignments().with_first(user)
}

// The roles that were activated in the session, as pairs (session, role).
pub(crate) fn activated_in<'a>(
    state: &'a State,
    session: &BorrowedName<'_>,
) -> Run<'a, (Name, Name)>
    ensures { result ≡ run_of state.now.facts.active session.now }
{
    state.active().with_first(session)
}
