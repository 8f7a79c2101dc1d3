//! Checks of separation of duty over the numbers of roles: a role's number is its place among the roles in
//! byte order.
//!
//! If all users or sessions are checked against many sets, the numbers of their roles are looked up once, and
//! then only the reachability matrix is read.
ghost use Rattle.std.specs.Prelude.{◌≡◌, ◌++◌, [], ◌&&◌, not, nat_lt, IfOk, IfErr};
ghost use Rattle.std.specs.Prelude.{map as list_map};
ghost use Rattle.std.specs.List.{list_all, list_any};
ghost use Rattle.std.specs.List.Sorted.{IsStrictlySortedBy};
ghost use Rattle.std.specs.Option.{option_copied};
ghost use Rattle.rbac_sets.specs.Sets.{members, name_cmp, pair_cmp};
ghost use Rattle.rbac_sets.specs.SortedSet.{set_of};
ghost use Rattle.order_matrix.specs.Table.{entry, number_in, numbers_of, table_of};
ghost use Rattle.admin_mgr.specs.private.Holders.{runs_of};
ghost use Rattle.admin_mgr.specs.private.NumberedSeparation.{count_reached, first_violated_by, keep_all, keep_below};

use crate::relations::Relations;
use crate::separation_of_duty::SeparationOfDuty;
use chunked_sets::Run;
use order_matrix::{OrderMatrix, number, second_numbers};
use rbac_sets::{Name, PairSet, Refusal};
use std::alloc::{AllocError, Global};

// The assignments of each user, or the activated roles of each session.
pub(crate) fn all_runs<'a>(
    alloc: Global,
    relations: &'a Relations,
    duty: SeparationOfDuty,
) -> Result<Vec<Run<'a, (Name, Name)>>, AllocError>
    ensures { IfOk result (λ runs. runs.items ≡ runs_of duty relations.now.facts) }
{
    duty.runs(relations).collect(alloc)
}

// The numbers of these names.
pub(crate) fn name_numbers(
    alloc: Global,
    roles: &[Name],
    names: &[Name],
) -> Result<Vec<usize>, Refusal>
    requires { IsStrictlySortedBy name_cmp roles.now }
    ensures ok { IfOk result (λ numbers. numbers.items ≡ list_map (number_in roles.now) names.now) }
    ensures cause { IfErr result (λ refusal. refusal ≡ Refusal.Memory) }
{
    let mut numbers = Vec::new(alloc);
    numbers.reserve(names.len())?;
    for name in names {
        numbers.push(number(roles, name))?;
    }
    Ok(numbers)
}

// The numbers of the roles of each run, followed by the numbers `more`. A run has the pairs (holder, role) of
// one user or session.
pub(crate) fn run_numbers(
    alloc: Global,
    roles: &[Name],
    runs: &[Run<'_, (Name, Name)>],
    more: &[usize],
) -> Result<Vec<Vec<usize>>, Refusal>
    requires { IsStrictlySortedBy name_cmp roles.now }
    ensures ok { IfOk result (λ numbers. list_map (λ run. run.items) numbers.items ≡ list_map (λ run. numbers_of roles.now run ++ more.now) runs.now) }
    ensures cause { IfErr result (λ refusal. refusal ≡ Refusal.Memory) }
{
    let mut numbers = Vec::new(alloc);
    numbers.reserve(runs.len())?;
    for run in runs {
        numbers.push(numbers_with(alloc, roles, run, more)?)?;
    }
    Ok(numbers)
}

// The numbers of the roles of one run, followed by the numbers `more`.
fn numbers_with(
    alloc: Global,
    roles: &[Name],
    run: &Run<'_, (Name, Name)>,
    more: &[usize],
) -> Result<Vec<usize>, Refusal>
    requires { IsStrictlySortedBy name_cmp roles.now }
    ensures ok { IfOk result (λ numbers. numbers.items ≡ numbers_of roles.now run.now ++ more.now) }
    ensures cause { IfErr result (λ refusal. refusal ≡ Refusal.Memory) }
{
    let mut numbers = second_numbers(alloc, roles, run)?;
    numbers.extend_from_slice(more)?;
    Ok(numbers)
}

// How many of the members are one of these roles, or a junior of one.
fn reached(table: &OrderMatrix<'_>, run: &[usize], members: &[usize]) -> usize
    ensures { result ≡ count_reached table.now run.now members.now }
{
    members
        .iter()
        .filter(|member| table.reaches(run, **member))
        .count()
}

// Whether none of the runs violates the set of these members and this cardinality.
fn keep_below(
    table: &OrderMatrix<'_>,
    runs: &[Vec<usize>],
    members: &[usize],
    cardinality: u32,
) -> bool
    ensures { result ≡ list_all (λ run. nat_lt (count_reached table.now run.items members.now) cardinality) runs.now }
{
    runs.iter()
        .all(|run| reached(table, run, members) < cardinality as usize)
}

// Whether one of the members is this role, or a junior of it.
fn touches(table: &OrderMatrix<'_>, role: usize, members: &[usize]) -> bool
    ensures { result ≡ list_any (λ member. entry table.now role member) members.now }
{
    members.iter().any(|member| table.geq(role, *member))
}

// Whether one of the members is this role or a junior of it, and one of the runs violates the set.
fn is_violated_by(
    table: &OrderMatrix<'_>,
    runs: &[Vec<usize>],
    role: usize,
    members: &[usize],
    cardinality: u32,
) -> bool
    ensures { result ≡ (list_any (λ member. entry table.now role member) members.now
        && not (list_all (λ run. nat_lt (count_reached table.now run.items members.now) cardinality) runs.now)) }
{
    touches(table, role, members) && !keep_below(table, runs, members, cardinality)
}

// Whether each user or session has fewer of the roles with the numbers `wanted` than `cardinality`.
pub(crate) fn all_keep_below(
    alloc: Global,
    relations: &Relations,
    duty: SeparationOfDuty,
    wanted: &[usize],
    cardinality: u32,
) -> Result<bool, Refusal>
    ensures ok { IfOk result (λ kept. kept ≡ keep_below (table_of relations.now.facts.edges (members relations.now.facts.roles))
        (list_map (λ run. numbers_of (members relations.now.facts.roles) run ++ []) (runs_of duty relations.now.facts)) wanted.now cardinality) }
    ensures cause { IfErr result (λ refusal. refusal ≡ Refusal.Memory) }
{
    let roles = relations.roles().as_slice();
    let table = OrderMatrix::new(alloc, relations.order(), roles)?;
    let runs = all_runs(alloc, relations, duty)?;
    let numbers = run_numbers(alloc, roles, &runs, &[])?;
    Ok(keep_below(&table, &numbers, wanted, cardinality))
}

// Whether none of the runs violates any of the sets.
pub(crate) fn keep_all(
    alloc: Global,
    table: &OrderMatrix<'_>,
    roles: &[Name],
    runs: &[Vec<usize>],
    members: &PairSet,
    sets: &[(Name, u32)],
) -> Result<bool, Refusal>
    requires { IsStrictlySortedBy name_cmp roles.now }
    ensures ok { IfOk result (λ kept. kept ≡ keep_all table.now roles.now (list_map (λ run. run.items) runs.now) (set_of pair_cmp members.now) sets.now) }
    ensures cause { IfErr result (λ refusal. refusal ≡ Refusal.Memory) }
{
    for set in sets {
        let members = second_numbers(alloc, roles, &Run::of(members.with_first(&set.0)))?;
        if !keep_below(table, runs, &members, set.1) {
            return Ok(false);
        }
    }
    Ok(true)
}

// The first of the sets that one of the runs violates. Only sets are considered that have this role or a
// junior of it as a member.
pub(crate) fn first_violated_by<'a>(
    alloc: Global,
    table: &OrderMatrix<'_>,
    roles: &[Name],
    runs: &[Vec<usize>],
    role: usize,
    members: &PairSet,
    sets: &'a [(Name, u32)],
) -> Result<Option<&'a (Name, u32)>, Refusal>
    requires { IsStrictlySortedBy name_cmp roles.now }
    ensures ok { IfOk result (λ found. option_copied found ≡ first_violated_by table.now roles.now (list_map (λ run. run.items) runs.now) role (set_of pair_cmp members.now) sets.now) }
    ensures cause { IfErr result (λ refusal. refusal ≡ Refusal.Memory) }
{
    for set in sets {
        let members = second_numbers(alloc, roles, &Run::of(members.with_first(&set.0)))?;
        if is_violated_by(table, runs, role, &members, set.1) {
            return Ok(Some(set));
        }
    }
    Ok(None)
}
