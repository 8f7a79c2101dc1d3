//! The roles of a holder, which is a user or a session, by its pairs (holder, role): the assignments of the
//! user, or the activated roles of the session. The holder has the roles of these pairs and their juniors.
ghost use Rattle.std.specs.Prelude.{◌≡◌, ◌&&◌, ◌||◌, not, nat_lt, count_by};
ghost use Rattle.std.specs.List.{list_all};
ghost use Rattle.std.specs.Option.{option_copied};
ghost use Rattle.rbac_sets.specs.Sets.{Cardinality, Pair, pair_cmp};
ghost use Rattle.rbac_sets.specs.SortedSet.{set_of};
ghost use Rattle.role_order.specs.Order.{geq};
ghost use Rattle.admin_mgr.specs.Authorization.{is_reached};
ghost use Rattle.admin_mgr.specs.UserAccess.{stands_alone};
ghost use Rattle.admin_mgr.specs.private.HolderRoles.{run_of, reached_roles, reached_members, reached_with, is_reached_from, reached_from, is_touched, find_with_all, find_with_one};

use crate::state::State;
use chunked_sets::Run;
use rbac_sets::{Name, PairSet};
use role_order::RoleOrder;

/// Whether a holder, which is a user or a session, has the role: it is the role of one of its pairs
/// (holder, role) in `held`, or a junior of one. It doesn't allocate.
pub fn is_reached(order: &RoleOrder, held: &Run<'_, (Name, Name)>, role: &Name) -> bool
    ensures { result ≡ is_reached order.now.edges held.now role.now }
{
    held.iter().any(|pair| order.geq(&pair.1, role))
}

/// Whether the role and its juniors are fewer roles of each dynamic separation of duty set than its cardinality, so
/// that a session may have the role alone. It doesn't allocate.
pub fn stands_alone(state: &State, role: &Name) -> bool
    ensures { result ≡ stands_alone state.now.facts role.now }
{
    are_few(
        state.order(),
        role,
        state.dsd_members(),
        state.dsd_cardinalities().as_slice(),
    )
}

// Whether the role and its juniors are fewer of the members of each of the sets than its cardinality.
fn are_few(order: &RoleOrder, role: &Name, members: &PairSet, cardinalities: &[(Name, u32)]) -> bool
    ensures { result ≡ list_all (λ (entry : Cardinality). nat_lt (count_by (λ (member : Pair). geq order.now.edges role.now member.1) (run_of (set_of pair_cmp members.now) entry.0)) entry.1) cardinalities.now }
{
    cardinalities.iter().all(|entry| has_few(order, role, members.with_first(&entry.0), entry.1))
}

// Whether fewer of the members than the cardinality are the role or a junior of it.
fn has_few(order: &RoleOrder, role: &Name, members: &[(Name, Name)], cardinality: u32) -> bool
    ensures { result ≡ nat_lt (count_by (λ (member : Pair). geq order.now.edges role.now member.1) members.now) cardinality }
{
    members
        .iter()
        .filter(|member| order.geq(role, &member.1))
        .count()
        < cardinality as usize
}

// How many of the roles the holder has.
pub(crate) fn reached_roles(
    order: &RoleOrder,
    held: &Run<'_, (Name, Name)>,
    roles: &[Name],
) -> usize
    ensures { result ≡ reached_roles order.now.edges held.now roles.now }
{
    roles
        .iter()
        .filter(|role| is_reached(order, held, role))
        .count()
}

// How many of the members, pairs (set, role), the holder has.
pub(crate) fn reached_members(
    order: &RoleOrder,
    held: &Run<'_, (Name, Name)>,
    members: &[(Name, Name)],
) -> usize
    ensures { result ≡ reached_members order.now.edges held.now members.now }
{
    members
        .iter()
        .filter(|member| is_reached(order, held, &member.1))
        .count()
}

// How many of the members the holder has if it gets one more role.
pub(crate) fn reached_with(
    order: &RoleOrder,
    held: &Run<'_, (Name, Name)>,
    more: &Name,
    members: &[(Name, Name)],
) -> usize
    ensures { result ≡ reached_with order.now.edges held.now more.now members.now }
{
    members
        .iter()
        .filter(|member| is_reached(order, held, &member.1) || order.geq(more, &member.1))
        .count()
}

// Whether the role is one of these, or a junior of one.
fn is_reached_from(order: &RoleOrder, roles: &[Name], role: &Name) -> bool
    ensures { result ≡ is_reached_from order.now.edges roles.now role.now }
{
    roles.iter().any(|above| order.geq(above, role))
}

// How many of the members are one of these roles, or a junior of one.
fn reached_from(order: &RoleOrder, roles: &[Name], members: &[(Name, Name)]) -> usize
    ensures { result ≡ reached_from order.now.edges roles.now members.now }
{
    members
        .iter()
        .filter(|member| is_reached_from(order, roles, &member.1))
        .count()
}

// Whether one of the members is this role, or a junior of it.
pub(crate) fn is_touched(order: &RoleOrder, role: &Name, members: &[(Name, Name)]) -> bool
    ensures { result ≡ is_touched order.now.edges role.now members.now }
{
    members.iter().any(|member| order.geq(role, &member.1))
}

// The first of the sets that somebody with these roles violates.
pub(crate) fn first_with_all<'a>(
    order: &RoleOrder,
    roles: &[Name],
    members: &PairSet,
    cardinalities: &'a [(Name, u32)],
) -> Option<&'a (Name, u32)>
    ensures { option_copied result ≡ find_with_all order.now.edges roles.now (set_of pair_cmp members.now) cardinalities.now }
{
    cardinalities.iter().find(|entry| has_all(order, roles, members.with_first(&entry.0), entry.1))
}

// Whether somebody with these roles violates the set of these members and this cardinality.
fn has_all(order: &RoleOrder, roles: &[Name], members: &[(Name, Name)], cardinality: u32) -> bool
    ensures { result ≡ not (nat_lt (reached_from order.now.edges roles.now members.now) cardinality) }
{
    reached_from(order, roles, members) >= cardinality as usize
}

// The first of the sets that the holder violates if it gets one more role. Only sets are considered that have
// this role or a junior of it as a member.
pub(crate) fn first_with_one<'a>(
    order: &RoleOrder,
    held: &Run<'_, (Name, Name)>,
    more: &Name,
    members: &PairSet,
    cardinalities: &'a [(Name, u32)],
) -> Option<&'a (Name, u32)>
    ensures { option_copied result ≡ find_with_one order.now.edges held.now more.now (set_of pair_cmp members.now) cardinalities.now }
{
    cardinalities.iter().find(|entry| has_with(
        order,
        held,
        more,
        members.with_first(&entry.0),
        entry.1,
    ))
}

// Whether one of the members is one more role or a junior of it, and the holder violates the set if it gets
// this role.
fn has_with(
    order: &RoleOrder,
    held: &Run<'_, (Name, Name)>,
    more: &Name,
    members: &[(Name, Name)],
    cardinality: u32,
) -> bool
    ensures { result ≡ (is_touched order.now.edges more.now members.now && not (nat_lt (reached_with order.now.edges held.now more.now members.now) cardinality)) }
{
    is_touched(order, more, members)
        && reached_with(order, held, more, members) >= cardinality as usize
}
