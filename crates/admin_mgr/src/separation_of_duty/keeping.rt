//! Whether separation of duty sets are kept, that is, not violated: static sets by any user, dynamic sets by
//! any session.
//!
//! Each role of each user or session is looked for among all roles once, and is then known by its number.
//! If there are fewer users or sessions than roles, their roles are looked for by name: the numbers of all roles
//! would cost more than the searches that they save.
ghost use Rattle.std.specs.Prelude.{◌≡◌, ◌+◌, ◌||◌, not, nat_lt, IsTrue, IfOk, IfErr, false};
ghost use Rattle.rbac_sets.specs.Sets.{contains, insert, name_cmp};
ghost use Rattle.rbac_sets.specs.SortedSet.{set_of};
ghost use Rattle.admin_mgr.specs.private.HolderRoles.{is_reached, reached_members};
ghost use Rattle.admin_mgr.specs.RbacState.{members_of};
ghost use Rattle.admin_mgr.specs.private.SeparationOfDuty.{is_kept, sets_of};

use crate::lookup::are_in;
use crate::relations::Relations;
use crate::separation_of_duty::SeparationOfDuty;
use crate::separation_of_duty::by_name::{is_reached, reached_members, reached_roles};
use crate::separation_of_duty::by_number::{all_keep_below, name_numbers};
use crate::state::State;
use chunked_sets::Run;
use order_matrix::{number, second_numbers};
use rbac_sets::{Name, NameSet, Refusal};
use role_order::RoleOrder;
use std::alloc::Global;

// Whether there are fewer users, or sessions, than roles.
fn are_few(relations: &Relations, duty: SeparationOfDuty) -> bool {
    let holders = match duty {
        SeparationOfDuty::Static => relations.users().len(),
        SeparationOfDuty::Dynamic => relations.sessions().len(),
    };
    holders < relations.roles().len()
}

// Whether each user or session has fewer of the roles than `cardinality`.
pub(crate) fn keeps(
    alloc: Global,
    state: &State,
    duty: SeparationOfDuty,
    roles: &NameSet,
    cardinality: u32,
) -> Result<bool, Refusal>
    ensures ok { IfOk result (λ kept. kept ≡ is_kept duty state.now.facts (set_of name_cmp roles.now) cardinality) }
    ensures cause { IfErr result (λ refusal. refusal ≡ Refusal.Memory) }
{
    state.recall_good();
    let relations = state.relations();
    if are_few(relations, duty) || !are_in(roles.as_slice(), state.roles()) {
        return Ok(keeps_by_name(relations, duty, roles, cardinality));
    }
    let wanted = name_numbers(alloc, relations.roles().as_slice(), roles.as_slice())?;
    let kept = all_keep_below(alloc, relations, duty, &wanted, cardinality)?;
    Ok(kept)
}

// The same, of relations that need not be good, with a search for each role of each user or session.
fn keeps_by_name(
    relations: &Relations,
    duty: SeparationOfDuty,
    roles: &NameSet,
    cardinality: u32,
) -> bool
    ensures { result ≡ is_kept duty relations.now.facts (set_of name_cmp roles.now) cardinality }
{
    let order = relations.order();
    duty.runs(relations).all(|held| reached_roles(order, &held, roles.as_slice())
        < cardinality as usize)
}

// Whether each user or session has fewer of the set's roles than `cardinality`. The set's own cardinality is
// `before`.
pub(crate) fn keeps_set(
    alloc: Global,
    state: &State,
    duty: SeparationOfDuty,
    set: &Name,
    before: u32,
    cardinality: u32,
) -> Result<bool, Refusal>
    requires there { IsTrue (contains (sets_of duty state.now.facts).cardinalities (set.now, before)) }
    ensures ok { IfOk result (λ kept. kept ≡ is_kept duty state.now.facts (members_of (sets_of duty state.now.facts) set.now) cardinality) }
    ensures cause { IfErr result (λ refusal. refusal ≡ Refusal.Memory) }
{
    state.recall_good();
    if cardinality >= before {
        return Ok(true);
    }
    let relations = state.relations();
    if are_few(relations, duty) {
        return Ok(keeps_members(relations, duty, set, cardinality));
    }
    let members = Run::of(duty.members(state).with_first(set));
    let wanted = second_numbers(alloc, relations.roles().as_slice(), &members)?;
    let kept = all_keep_below(alloc, relations, duty, &wanted, cardinality)?;
    Ok(kept)
}

// Whether each user or session has fewer of the set's roles than `cardinality`. The relations need not be
// good.
fn keeps_members(
    relations: &Relations,
    duty: SeparationOfDuty,
    set: &Name,
    cardinality: u32,
) -> bool
    ensures { result ≡ is_kept duty relations.now.facts (members_of (sets_of duty relations.now.facts) set.now) cardinality }
{
    let order = relations.order();
    let members = duty.members_in(relations).with_first(set);
    duty.runs(relations).all(|held| reached_members(order, &held, members) < cardinality as usize)
}

// Whether each user or session has fewer of the set's roles and `role` than `cardinality`, which is the set's
// own. The role is no member of the set.
pub(crate) fn keeps_with(
    alloc: Global,
    state: &State,
    duty: SeparationOfDuty,
    set: &Name,
    cardinality: u32,
    role: &Name,
) -> Result<bool, Refusal>
    requires there { IsTrue (contains (sets_of duty state.now.facts).cardinalities (set.now, cardinality)) }
    requires absent { contains (sets_of duty state.now.facts).members (set.now, role.now) ≡ false }
    ensures ok { IfOk result (λ kept. kept ≡ is_kept duty state.now.facts (insert (members_of (sets_of duty state.now.facts) set.now) role.now) cardinality) }
    ensures cause { IfErr result (λ refusal. refusal ≡ Refusal.Memory) }
{
    state.recall_good();
    let relations = state.relations();
    if are_few(relations, duty) || !state.roles().contains(role) {
        return Ok(keeps_with_by_name(state, duty, set, cardinality, role));
    }
    let roles = relations.roles().as_slice();
    let mut wanted = second_numbers(alloc, roles, &Run::of(duty.members(state).with_first(set)))?;
    wanted.push(number(roles, role))?;
    let kept = all_keep_below(alloc, relations, duty, &wanted, cardinality)?;
    Ok(kept)
}

// The same, with a search for each role of each user or session.
fn keeps_with_by_name(
    state: &State,
    duty: SeparationOfDuty,
    set: &Name,
    cardinality: u32,
    role: &Name,
) -> bool
    requires there { IsTrue (contains (sets_of duty state.now.facts).cardinalities (set.now, cardinality)) }
    requires absent { contains (sets_of duty state.now.facts).members (set.now, role.now) ≡ false }
    ensures { result ≡ is_kept duty state.now.facts (insert (members_of (sets_of duty state.now.facts) set.now) role.now) cardinality }
{
    state.recall_good();
    let order = state.order();
    let members = duty.members(state).with_first(set);
    duty.runs(state.relations()).all(|held| is_below_with(order, &held, role, members, cardinality))
}

// Whether the holder doesn't have the role, or has fewer of the members and the role than `cardinality`.
fn is_below_with(
    order: &RoleOrder,
    held: &Run<'_, (Name, Name)>,
    role: &Name,
    members: &[(Name, Name)],
    cardinality: u32,
) -> bool
    ensures { result ≡ (not (is_reached order.now.edges held.now role.now) || nat_lt (reached_members order.now.edges held.now members.now + 1) cardinality) }
{
    !is_reached(order, held, role)
        || reached_members(order, held, members) + 1 < cardinality as usize
}
