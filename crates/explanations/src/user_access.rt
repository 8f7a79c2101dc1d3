//! Why a user may do an operation on an object in some session, or why not.
ghost use Rattle.std.specs.Prelude.{◌≡◌, Some, None, IsTrue, IfOk, IfErr, false, filter, find};
ghost use Rattle.std.specs.Option.{option_copied, option_map};
ghost use Rattle.rbac_sets.specs.Sets.{Cardinality, Pair, contains, members, pair_cmp};
ghost use Rattle.rbac_sets.specs.SortedSet.{set_of};
ghost use Rattle.role_order.specs.Order.{geq};
ghost use Rattle.admin_mgr.specs.Authorization.{is_reached};
ghost use Rattle.admin_mgr.specs.UserAccess.{could_have_access, stands_alone};
ghost use Rattle.admin_mgr.specs.private.HolderRoles.{run_of};
ghost use Rattle.review_mgr.specs.Questions.{user_refused};
ghost use Rattle.review_mgr.specs.Review.{is_grant_of};
ghost use Rattle.explanations.specs.UserReasons.{IsUserReason, UserReasonContent, allows, least, reason_content, violated_alone};
ghost use Rattle.explanations.specs.private.Found.{first_full, first_served, first_usable, is_full};

use admin_mgr::{State, is_reached, stands_alone};
use chunked_sets::Run;
use rbac_sets::{BorrowedName, Name, PairSet, Refusal};
use review_mgr::check_user_access;
use role_order::RoleOrder;

/// Why a user may do an operation on an object in some session, or why not. The first reason that applies, in the order
/// in which they stand here.
#[derive(Clone, Copy, Debug)]
pub enum UserReason<'a> {
    /// The user is locked.
    Locked,
    /// The permission is granted to no role.
    NotGranted,
    /// The user is authorized for no role to which the permission is granted.
    NotAuthorized,
    /// The user is authorized for such roles, but no session may have any of them: each violates a dynamic separation
    /// of duty set alone.
    Separated {
        /// The first of these roles in byte order.
        role: &'a Name,
        /// The first set in byte order that this role violates alone.
        set: &'a Name,
    },
    /// The user may have access.
    Allowed {
        /// The first role in byte order that is assigned to the user, and is the next role or a senior of it.
        assigned: &'a Name,
        /// The first role in byte order to which the permission is granted, for which the user is authorized, and which
        /// a session may have alone.
        granted: &'a Name,
    },
}

/// Why the user could do the operation on the object in some session, or why not. `check_user_access` decides whether,
/// and this says `Allowed` exactly if it says yes. It doesn't allocate.
///
/// # Errors
///
/// Those of `check_user_access`, in its order: `NoUser`, `NoObject`, `NoOperation`.
pub fn explain_user_access<'a>(
    state: &'a State,
    user: &BorrowedName<'_>,
    operation: &BorrowedName<'_>,
    object: &BorrowedName<'_>,
) -> Result<UserReason<'a>, Refusal>
    ensures answered { IfOk result (λ reason. user_refused state.now.facts user.now operation.now object.now ≡ None) }
    ensures reason { IfOk result (λ reason. IsUserReason state.now.facts user.now operation.now object.now (reason_content reason)) }
    ensures only { IfOk result (λ reason. (other : UserReasonContent)
        → IsUserReason state.now.facts user.now operation.now object.now other → other ≡ reason_content reason) }
    ensures access { IfOk result (λ reason. allows (reason_content reason) ≡ could_have_access state.now.facts user.now operation.now object.now) }
    ensures refused { IfErr result (λ refusal. user_refused state.now.facts user.now operation.now object.now ≡ Some refusal) }
{
    check_user_access(state, user, operation, object)?;
    state.recall_good();
    Ok(user_reason(state, user, operation, object))
}

// The first reason that applies.
fn user_reason<'a>(
    state: &'a State,
    user: &BorrowedName<'_>,
    operation: &BorrowedName<'_>,
    object: &BorrowedName<'_>,
) -> UserReason<'a>
    ensures { IsUserReason state.now.facts user.now operation.now object.now (reason_content result) }
{
    if is_locked(state, user) {
        return UserReason::Locked;
    }
    let granted = granted_for(state, operation, object);
    if granted.is_empty() {
        return UserReason::NotGranted;
    }
    let order = state.order();
    let held = assigned_to_user(state, user);
    let Some(served) = served_role(order, &held, &granted) else {
        return UserReason::NotAuthorized;
    };
    match usable_role(state, &held, &granted) {
        Some(role) => UserReason::Allowed {
            assigned: role_above(order, &held, role),
            granted: role,
        },
        None => UserReason::Separated {
            role: served,
            set: violated_set(state, served),
        },
    }
}

// Whether the user is locked.
fn is_locked(state: &State, user: &BorrowedName<'_>) -> bool
    ensures { result ≡ contains state.now.facts.locked user.now }
{
    state.locked().contains(user)
}

// The grants of the permission.
pub(crate) fn granted_for<'a>(
    state: &'a State,
    operation: &BorrowedName<'_>,
    object: &BorrowedName<'_>,
) -> Run<'a, (Name, Name, Name)>
    ensures { result ≡ filter (is_grant_of object.now operation.now) (members state.now.facts.grants) }
{
    state.grants().with_first((object, operation))
}

// The roles that are assigned to the user, as pairs (user, role).
fn assigned_to_user<'a>(state: &'a State, user: &BorrowedName<'_>) -> Run<'a, (Name, Name)>
    ensures { result ≡ run_of state.now.facts.assignments user.now }
{
    state.assignments().with_first(user)
}

// The first role of the grants that a user with these roles could use: it is one of `held`, pairs (user, role), or a
// junior of one, and a session may have it alone.
fn usable_role<'a>(
    state: &State,
    held: &Run<'_, (Name, Name)>,
    granted: &Run<'a, (Name, Name, Name)>,
) -> Option<&'a Name>
    ensures { option_copied result ≡ first_usable state.now.facts held.now granted.now }
{
    let grant = granted.iter().find(|grant| is_reached(state.order(), held, &grant.2)
        && stands_alone(state, &grant.2))?;
    Some(&grant.2)
}

// The first role of the grants that is one of `held`, pairs (holder, role), or a junior of one.
pub(crate) fn served_role<'a>(
    order: &RoleOrder,
    held: &Run<'_, (Name, Name)>,
    granted: &Run<'a, (Name, Name, Name)>,
) -> Option<&'a Name>
    ensures { option_copied result ≡ first_served order.now.edges held.now granted.now }
{
    let grant = granted
        .iter()
        .find(|grant| is_reached(order, held, &grant.2))?;
    Some(&grant.2)
}

// The first role of `held`, pairs (holder, role), that is this role or a senior of it.
pub(crate) fn role_above<'a>(
    order: &RoleOrder,
    held: &Run<'a, (Name, Name)>,
    role: &Name,
) -> &'a Name
    requires { IsTrue (is_reached order.now.edges held.now role.now) }
    ensures { option_map (λ (pair : Pair). pair.1) (find (λ (pair : Pair). geq order.now.edges pair.1 role.now) held.now) ≡ Some result.now }
{
    let pair = first_above(order, held, role).unwrap();
    &pair.1
}

// The first of the pairs (holder, role) whose role is this role or a senior of it.
fn first_above<'a>(
    order: &RoleOrder,
    held: &Run<'a, (Name, Name)>,
    role: &Name,
) -> Option<&'a (Name, Name)>
    ensures { option_copied result ≡ find (λ (pair : Pair). geq order.now.edges pair.1 role.now) held.now }
{
    held.iter().find(|pair| order.geq(&pair.1, role))
}

// The first dynamic separation of duty set that the role violates alone.
fn violated_set<'a>(state: &'a State, role: &Name) -> &'a Name
    requires { stands_alone state.now.facts role.now ≡ false }
    ensures { option_map (λ (entry : Cardinality). entry.0) (least (violated_alone state.now.facts role.now)) ≡ Some result.now }
{
    let set = first_violated(state, role).unwrap();
    &set.0
}

// The same with its cardinality, or `None` if there is none.
fn first_violated<'a>(state: &'a State, role: &Name) -> Option<&'a (Name, u32)>
    ensures { option_copied result ≡ least (violated_alone state.now.facts role.now) }
{
    let sets = state.dsd_cardinalities().as_slice();
    first_full(state.order(), role, state.dsd_members(), sets)
}

// The first of the sets of which the role and its juniors are no fewer members than its cardinality.
fn first_full<'a>(
    order: &RoleOrder,
    role: &Name,
    members: &PairSet,
    sets: &'a [(Name, u32)],
) -> Option<&'a (Name, u32)>
    ensures { option_copied result ≡ first_full order.now.edges role.now (set_of pair_cmp members.now) sets.now }
{
    sets.iter().find(|entry| is_full(order, role, members.with_first(&entry.0), entry.1))
}

// Whether the role and its juniors are no fewer of the members than the cardinality.
fn is_full(order: &RoleOrder, role: &Name, members: &[(Name, Name)], cardinality: u32) -> bool
    ensures { result ≡ is_full order.now.edges role.now members.now cardinality }
{
    members
        .iter()
        .filter(|member| order.geq(role, &member.1))
        .count()
        >= cardinality as usize
}
