//! The separation of duty sets that one more immediate inheritance would violate, and who violates them.
//!
//! Only a user or session that has the ascendant can come to violate a set. The numbers of the roles of each of these are
//! collected once, and then the sets are checked one after another. No set can come to be violated that has neither the
//! descendant nor a junior of it as a member.
ghost use Rattle.std.specs.Prelude.{◌≡◌, ◌⊎◌, [], ◌∷◌, ◌++◌, None, Some, IsTrue, IfOk, IfErr, slice_get};
ghost use Rattle.std.specs.Prelude.{map as list_map};
ghost use Rattle.std.specs.List.{list_any};
ghost use Rattle.std.specs.List.Sorted.{IsStrictlySortedBy};
ghost use Rattle.std.specs.Option.{option_copied, option_map};
ghost use Rattle.rbac_sets.specs.Sets.{Pair, all, contains, name_cmp, pair_cmp};
ghost use Rattle.rbac_sets.specs.SortedSet.{set_of};
ghost use Rattle.rbac_sets.specs.declared.command.Command.TheVariants.{AddInheritance};
ghost use Rattle.order_matrix.specs.Table.{entry};
ghost use Rattle.admin_mgr.specs.After.{after};
ghost use Rattle.admin_mgr.specs.Refusals.{first, violates_dynamic, violates_static};
ghost use Rattle.admin_mgr.specs.Verdict.{add_inheritance_refusals, verdict};
ghost use Rattle.explanations.specs.Conflicts.{dynamic_conflicts, inheritance_refused, static_conflicts};
ghost use Rattle.explanations.specs.private.Found.{conflicts_with, first_with, sessions_with, users_with};
ghost use Rattle.explanations.specs.private.Numbered.{first_reaching, first_violating, number_roles, numbered_conflicts};

use crate::by_number::{has_too_many, numbers_with};
use admin_mgr::{State, is_reached};
use chunked_sets::{ChunkedPairs, Run};
use order_matrix::{OrderMatrix, number, second_numbers};
use rbac_sets::{Name, PairSet, Refusal};
use std::alloc::{AllocError, Global};

/// The static separation of duty sets that would be violated if `asc` became an immediate ascendant of `desc`, in byte
/// order, each with the first user in byte order who would be authorized for too many of its roles. It is of no importance
/// whether it is one already: the list is empty then.
///
/// # Errors
///
/// `NoRole` if there is no such role, otherwise `Cycle` if `asc` is `desc` or a junior of it. `Memory` if an allocation
/// failed.
pub fn violated_by_inheritance(
    alloc: Global,
    state: &State,
    asc: &Name,
    desc: &Name,
) -> Result<Vec<(Name, Name)>, Refusal>
    ensures answered { IfOk result (λ conflicts. inheritance_refused state.now.facts asc.now desc.now ≡ None) }
    ensures value { IfOk result (λ conflicts. conflicts.items ≡ static_conflicts (after state.now.facts (AddInheritance asc.now desc.now))) }
    ensures verdict { IfOk result (λ conflicts. verdict state.now.facts (AddInheritance asc.now desc.now)
        ≡ first (add_inheritance_refusals state.now.facts asc.now desc.now
        ++ option_map Refusal.StaticSeparation (option_map (λ (conflict : Pair). conflict.0) (slice_get conflicts.items 0))
        ∷ violates_dynamic (after state.now.facts (AddInheritance asc.now desc.now)) ∷ [])) }
    ensures refused { IfErr result (λ refusal. (refusal ≡ Refusal.Memory) ⊎ (inheritance_refused state.now.facts asc.now desc.now ≡ Some refusal)) }
{
    if let Some(refusal) = refuse_inheritance(state, asc, desc) {
        return Err(refusal);
    }
    state.recall_good();
    let users = users_with(alloc, state, asc)?;
    let sets = state.ssd_cardinalities().as_slice();
    conflicts_below(
        alloc,
        state,
        &users,
        state.assignments(),
        desc,
        state.ssd_members(),
        sets,
    )
}

/// The same for dynamic separation of duty sets, each with the first session in byte order that would have too many of its
/// roles.
///
/// # Errors
///
/// Those of `violated_by_inheritance`.
pub fn violated_in_sessions(
    alloc: Global,
    state: &State,
    asc: &Name,
    desc: &Name,
) -> Result<Vec<(Name, Name)>, Refusal>
    ensures answered { IfOk result (λ conflicts. inheritance_refused state.now.facts asc.now desc.now ≡ None) }
    ensures value { IfOk result (λ conflicts. conflicts.items ≡ dynamic_conflicts (after state.now.facts (AddInheritance asc.now desc.now))) }
    ensures verdict { IfOk result (λ conflicts. verdict state.now.facts (AddInheritance asc.now desc.now)
        ≡ first (add_inheritance_refusals state.now.facts asc.now desc.now
        ++ violates_static (after state.now.facts (AddInheritance asc.now desc.now))
        ∷ option_map Refusal.DynamicSeparation (option_map (λ (conflict : Pair). conflict.0) (slice_get conflicts.items 0)) ∷ [])) }
    ensures refused { IfErr result (λ refusal. (refusal ≡ Refusal.Memory) ⊎ (inheritance_refused state.now.facts asc.now desc.now ≡ Some refusal)) }
{
    if let Some(refusal) = refuse_inheritance(state, asc, desc) {
        return Err(refusal);
    }
    state.recall_good();
    let sessions = sessions_with(alloc, state, asc)?;
    let sets = state.dsd_cardinalities().as_slice();
    conflicts_below(
        alloc,
        state,
        &sessions,
        state.active(),
        desc,
        state.dsd_members(),
        sets,
    )
}

// Why there is no answer for the inheritance.
fn refuse_inheritance(state: &State, asc: &Name, desc: &Name) -> Option<Refusal>
    ensures { result ≡ inheritance_refused state.now.facts asc.now desc.now }
{
    if !state.roles().contains(asc) {
        return Some(Refusal::NoRole);
    }
    if !state.roles().contains(desc) {
        return Some(Refusal::NoRole);
    }
    if state.order().geq(desc, asc) {
        return Some(Refusal::Cycle);
    }
    None
}

// The users who are authorized for the role, in byte order.
fn users_with<'a>(alloc: Global, state: &'a State, role: &Name) -> Result<Vec<&'a Name>, AllocError>
    ensures { IfOk result (λ users. list_map (λ user. user.now) users.items ≡ users_with state.now.facts role.now) }
{
    state
        .users()
        .iter()
        .filter(|user| is_reached(state.order(), &state.assignments().with_first(*user), role))
        .collect(alloc)
}

// The sessions that have the role, in byte order.
fn sessions_with<'a>(
    alloc: Global,
    state: &'a State,
    role: &Name,
) -> Result<Vec<&'a Name>, AllocError>
    ensures { IfOk result (λ sessions. list_map (λ session. session.now) sessions.items ≡ sessions_with state.now.facts role.now) }
{
    state
        .sessions()
        .iter()
        .filter(|session| is_reached(state.order(), &state.active().with_first(&session.0), role))
        .map(|session| &session.0)
        .collect(alloc)
}

// The sets that one of the holders violates if it gets one more role, each with the first who does. A holder is a
// user or a session, and `pairs` are the pairs (holder, role). The reachability matrix is built only if there is a
// holder.
fn conflicts_below(
    alloc: Global,
    state: &State,
    holders: &[&Name],
    pairs: &ChunkedPairs,
    more: &Name,
    members: &PairSet,
    sets: &[(Name, u32)],
) -> Result<Vec<(Name, Name)>, Refusal>
    requires pairs { IsTrue (all (λ (pair : Pair). contains state.now.facts.roles pair.1) (set_of pair_cmp pairs.now)) }
    requires more { IsTrue (contains state.now.facts.roles more.now) }
    requires members { IsTrue (all (λ (pair : Pair). contains state.now.facts.roles pair.1) (set_of pair_cmp members.now)) }
    ensures ok { IfOk result (λ conflicts. conflicts.items ≡ conflicts_with
        (first_with state.now.facts.edges (set_of pair_cmp pairs.now) more.now (list_map (λ holder. holder.now) holders.now)) (set_of pair_cmp members.now) sets.now) }
    ensures cause { IfErr result (λ refusal. refusal ≡ Refusal.Memory) }
{
    if holders.is_empty() {
        return Ok(Vec::new(alloc));
    }
    let roles = state.roles().as_slice();
    let table = OrderMatrix::new(alloc, state.order(), roles)?;
    let more = number(roles, more);
    let numbered = number_roles(alloc, roles, holders, pairs, more)?;
    numbered_conflicts(alloc, &table, roles, &numbered, more, members, sets)
}

// The holders, each with the numbers of its roles, followed by the number `more`.
fn number_roles<'a>(
    alloc: Global,
    roles: &[Name],
    holders: &[&'a Name],
    pairs: &ChunkedPairs,
    more: usize,
) -> Result<Vec<(&'a Name, Vec<usize>)>, Refusal>
    requires { IsStrictlySortedBy name_cmp roles.now }
    ensures ok { IfOk result (λ numbered. list_map (λ one. (one.0.now, one.1.items)) numbered.items
        ≡ number_roles roles.now (set_of pair_cmp pairs.now) more (list_map (λ holder. holder.now) holders.now)) }
    ensures cause { IfErr result (λ refusal. refusal ≡ Refusal.Memory) }
{
    let mut numbered = Vec::new(alloc);
    numbered.reserve(holders.len())?;
    for holder in holders {
        let held = pairs.with_first(*holder);
        numbered.push((*holder, numbers_with(alloc, roles, &held, more)?))?;
    }
    Ok(numbered)
}

// The sets that one of the holders violates, each with the first who does. Only sets are considered that have the role
// `more` or a junior of it as a member.
fn numbered_conflicts(
    alloc: Global,
    table: &OrderMatrix<'_>,
    roles: &[Name],
    holders: &[(&Name, Vec<usize>)],
    more: usize,
    members: &PairSet,
    sets: &[(Name, u32)],
) -> Result<Vec<(Name, Name)>, Refusal>
    requires { IsStrictlySortedBy name_cmp roles.now }
    ensures ok { IfOk result (λ conflicts. conflicts.items
        ≡ numbered_conflicts table.now roles.now (list_map (λ one. (one.0.now, one.1.items)) holders.now) more (set_of pair_cmp members.now) sets.now) }
    ensures cause { IfErr result (λ refusal. refusal ≡ Refusal.Memory) }
{
    let mut conflicts = Vec::new(alloc);
    for set in sets {
        let members = second_numbers(alloc, roles, &Run::of(members.with_first(&set.0)))?;
        if let Some(holder) = first_violating(table, holders, more, &members, set.1) {
            conflicts.push((set.0.copy(alloc)?, holder.copy(alloc)?))?;
        }
    }
    Ok(conflicts)
}

// The first of the holders that has no fewer of the members than the cardinality, if one of these is the role `more` or a
// junior of it.
fn first_violating<'a>(
    table: &OrderMatrix<'_>,
    holders: &[(&'a Name, Vec<usize>)],
    more: usize,
    members: &[usize],
    cardinality: u32,
) -> Option<&'a Name>
    ensures { option_copied result
        ≡ first_violating table.now (list_map (λ one. (one.0.now, one.1.items)) holders.now) more members.now cardinality }
{
    if !touches(table, more, members) {
        return None;
    }
    first_reaching(table, holders, members, cardinality)
}

// Whether one of the members is this role, or a junior of it.
fn touches(table: &OrderMatrix<'_>, role: usize, members: &[usize]) -> bool
    ensures { result ≡ list_any (λ member. entry table.now role member) members.now }
{
    members.iter().any(|member| table.geq(role, *member))
}

// The first of the holders that has no fewer of the members than the cardinality.
fn first_reaching<'a>(
    table: &OrderMatrix<'_>,
    holders: &[(&'a Name, Vec<usize>)],
    members: &[usize],
    cardinality: u32,
) -> Option<&'a Name>
    ensures { option_copied result
        ≡ first_reaching table.now (list_map (λ one. (one.0.now, one.1.items)) holders.now) members.now cardinality }
{
    let found = holders.iter().find(|holder| has_too_many(table, &holder.1, members, cardinality))?;
    Some(found.0)
}
