//! The checks of the relations once the role hierarchy is built.
ghost use Rattle.std.specs.Prelude.{◌≡◌, not, ◌&&◌, nat_le, IsTrue, IfOk, IfErr};
ghost use Rattle.std.specs.List.{list_all};
ghost use Rattle.rbac_sets.specs.Sets.{Pair, all, members};
ghost use Rattle.order_matrix.specs.Table.{table_of};
ghost use Rattle.admin_mgr.specs.RbacState.{active_roles};
ghost use Rattle.admin_mgr.specs.Authorization.{is_authorized};
ghost use Rattle.admin_mgr.specs.private.HolderRoles.{is_reached};
ghost use Rattle.admin_mgr.specs.StateWithRoom.{separation_of};
ghost use Rattle.admin_mgr.specs.private.CheckTests.{late_refusal, are_kept, are_roles_there, has_cardinalities, have_authorized_users, have_unlocked_users};

use crate::judge::set_refusals::{is_cardinality, member_count};
use crate::relations::Relations;
use crate::separation_of_duty::SeparationOfDuty;
use crate::separation_of_duty::by_name::is_reached;
use crate::separation_of_duty::by_number::{all_runs, keep_all, run_numbers};
use chunked_sets::Run;
use order_matrix::OrderMatrix;
use rbac_sets::{CountSet, Name, PairSet, Refusal};
use role_order::RoleOrder;
use std::alloc::Global;

// Why the relations are refused, if the roles that they refer to exist. By `Damaged` with 7 if a cardinality
// isn't at least 2 and at most the number of the set's members, 8 if a session's user isn't authorized for a
// role that was activated in it, 9 if a static and 10 if a dynamic set is violated, and 11 if a locked user
// has a session.
//
// It is an error if an allocation failed.
pub(crate) fn late_refusal(alloc: Global, relations: &Relations) -> Result<Option<Refusal>, Refusal>
    requires { IsTrue (are_roles_there relations.now.facts) }
    ensures ok { IfOk result (λ found. found ≡ late_refusal relations.now.facts) }
    ensures cause { IfErr result (λ refusal. refusal ≡ Refusal.Memory) }
{
    if !have_cardinalities(relations) {
        return Ok(Some(Refusal::Damaged(7)));
    }
    if !have_authorized_users(relations) {
        return Ok(Some(Refusal::Damaged(8)));
    }
    let table = OrderMatrix::new(alloc, relations.order(), relations.roles().as_slice())?;
    if !are_kept(alloc, relations, SeparationOfDuty::Static, &table)? {
        return Ok(Some(Refusal::Damaged(9)));
    }
    if !are_kept(alloc, relations, SeparationOfDuty::Dynamic, &table)? {
        return Ok(Some(Refusal::Damaged(10)));
    }
    if !have_unlocked_users(relations) {
        return Ok(Some(Refusal::Damaged(11)));
    }
    Ok(None)
}

// Whether the cardinality of each set is at least 2 and at most the number of its members.
fn have_cardinalities(relations: &Relations) -> bool
    ensures { result ≡ (has_cardinalities relations.now.facts.ssd && has_cardinalities relations.now.facts.dsd) }
{
    has_cardinalities(relations.ssd_members(), relations.ssd_cardinalities())
        && has_cardinalities(relations.dsd_members(), relations.dsd_cardinalities())
}

// The same for the sets of one kind.
#[tactic(auto, unfolding(rbac_sets::specs::Sets::all))]
fn has_cardinalities(members: &PairSet, cardinalities: &CountSet) -> bool
    ensures { result ≡ has_cardinalities (separation_of members.now cardinalities.now) }
{
    cardinalities.as_slice().iter().all(|entry| is_cardinality(
        entry.1,
        member_count(members, &entry.0),
    ))
}

// Whether each session's user is authorized for each role that was activated in it.
#[tactic(auto, unfolding(rbac_sets::specs::Sets::all))]
fn have_authorized_users(relations: &Relations) -> bool
    ensures { result ≡ have_authorized_users relations.now.facts }
{
    relations.sessions().iter().all(|session| is_authorized_in(relations, &session.0, &session.1))
}

// Whether the user is authorized for each role that was activated in the session.
fn is_authorized_in(relations: &Relations, session: &Name, user: &Name) -> bool
    ensures { result ≡ all (is_authorized relations.now.facts user.now) (active_roles relations.now.facts session.now) }
{
    let held = relations.assignments().with_first(user);
    let active = relations.active().with_first(session);
    are_reached(relations.order(), &held, &active)
}

// Whether the holder has the role of each of the pairs.
fn are_reached(
    order: &RoleOrder,
    held: &Run<'_, (Name, Name)>,
    pairs: &Run<'_, (Name, Name)>,
) -> bool
    ensures { result ≡ list_all (λ (pair : Pair). is_reached order.now.edges held.now pair.1) pairs.now }
{
    pairs.iter().all(|pair| is_reached(order, held, &pair.1))
}

// Whether no user violates a static set, or no session a dynamic one.
fn are_kept(
    alloc: Global,
    relations: &Relations,
    duty: SeparationOfDuty,
    table: &OrderMatrix<'_>,
) -> Result<bool, Refusal>
    requires there { IsTrue (are_roles_there relations.now.facts) }
    requires table { table.now ≡ table_of relations.now.facts.edges (members relations.now.facts.roles) }
    ensures ok { IfOk result (λ kept. kept ≡ are_kept duty relations.now.facts) }
    ensures cause { IfErr result (λ refusal. refusal ≡ Refusal.Memory) }
{
    let roles = relations.roles().as_slice();
    let runs = all_runs(alloc, relations, duty)?;
    let numbers = run_numbers(alloc, roles, &runs, &[])?;
    let members = duty.members_in(relations);
    let sets = duty.cardinalities_in(relations).as_slice();
    let kept = keep_all(alloc, table, roles, &numbers, members, sets)?;
    Ok(kept)
}

// Whether no locked user has a session.
#[tactic(auto, unfolding(rbac_sets::specs::Sets::all))]
fn have_unlocked_users(relations: &Relations) -> bool
    ensures { result ≡ have_unlocked_users relations.now.facts }
{
    relations
        .sessions()
        .iter()
        .all(|session| !relations.locked().contains(&session.1))
}
