//! The roles of a state by their numbers.
ghost use Rattle.std.specs.Prelude.{◌≡◌, filter, map, IfOk, IfErr};
ghost use Rattle.std.specs.List.Sorted.{IsStrictlySortedBy};
ghost use Rattle.std.specs.Ordering.{eq_by_cmp};
ghost use Rattle.rbac_sets.specs.Sets.{Pair, Triple, name_cmp, pair_cmp, triple_cmp, members};
ghost use Rattle.rbac_sets.specs.SortedSet.{set_of};
ghost use Rattle.role_order.specs.private.Runs.{run_of};
ghost use Rattle.order_matrix.specs.Table.{number_in};

use admin_mgr::State;
use chunked_sets::{ChunkedGrants, ChunkedPairs, Run};
use order_matrix::{OrderMatrix, number, second_numbers};
use rbac_sets::{Name, Refusal};
use std::alloc::Global;

// The numbers that the report counts: a role's number is its place among the roles in byte order.
#[derive(Drop)]
pub(super) struct Numbers<'a> {
    // the reachability matrix of the roles
    pub(super) table: OrderMatrix<'a>,
    // of each user, the roles that it is assigned
    pub(super) assigned: Vec<Vec<usize>>,
    // of each permission, the roles that it is granted to
    pub(super) granted: Vec<Vec<usize>>,
    // of each grant, its role
    pub(super) grants: Vec<usize>,
}

impl<'a> Numbers<'a> {
    ghost use Rattle.review_mgr.specs.private.Numbering.{IsNumbering};

    // The numbers of a state.
    pub(super) fn new(alloc: Global, state: &'a State) -> Result<Numbers<'a>, Refusal>
        ensures ok { IfOk result (IsNumbering state.now.facts) }
        ensures cause { IfErr result (λ refusal. refusal ≡ Refusal.Memory) }
    {
        let roles = state.roles().as_slice();
        let table = OrderMatrix::new(alloc, state.order(), roles)?;
        let users = state.users().as_run();
        let assigned = assigned_numbers(alloc, roles, &users, state.assignments())?;
        let permissions = state.permissions().as_run();
        let granted = granted_numbers(alloc, roles, &permissions, state.grants())?;
        let grants = third_numbers(alloc, roles, &state.grants().as_run())?;
        Ok(Numbers {
            table,
            assigned,
            granted,
            grants,
        })
    }
}

// The numbers of the third names of the grants.
fn third_numbers(
    alloc: Global,
    roles: &[Name],
    grants: &Run<'_, (Name, Name, Name)>,
) -> Result<Vec<usize>, Refusal>
    requires { IsStrictlySortedBy name_cmp roles.now }
    ensures ok { IfOk result (λ numbers. numbers.items ≡ map (λ (grant : Triple). number_in roles.now grant.2) grants.now) }
    ensures cause { IfErr result (λ refusal. refusal ≡ Refusal.Memory) }
{
    let mut numbers = Vec::new(alloc);
    numbers.reserve(grants.len())?;
    for grant in grants.iter() {
        numbers.push(number(roles, &grant.2))?;
    }
    Ok(numbers)
}

// For each user, the numbers of the roles that it is assigned.
fn assigned_numbers(
    alloc: Global,
    roles: &[Name],
    users: &Run<'_, Name>,
    assignments: &ChunkedPairs,
) -> Result<Vec<Vec<usize>>, Refusal>
    requires { IsStrictlySortedBy name_cmp roles.now }
    ensures ok { IfOk result (λ runs. map (λ run. run.items) runs.items
        ≡ map (λ user. map (λ (pair : Pair). number_in roles.now pair.1) (run_of (set_of pair_cmp assignments.now) user)) users.now) }
    ensures cause { IfErr result (λ refusal. refusal ≡ Refusal.Memory) }
{
    let mut runs = Vec::new(alloc);
    runs.reserve(users.len())?;
    for user in users.iter() {
        runs.push(second_numbers(alloc, roles, &assignments.with_first(user))?)?;
    }
    Ok(runs)
}

// For each permission, the numbers of the roles that it is granted to.
fn granted_numbers(
    alloc: Global,
    roles: &[Name],
    permissions: &Run<'_, (Name, Name)>,
    grants: &ChunkedGrants,
) -> Result<Vec<Vec<usize>>, Refusal>
    requires { IsStrictlySortedBy name_cmp roles.now }
    ensures ok { IfOk result (λ runs. map (λ run. run.items) runs.items
        ≡ map (λ (permission : Pair). map (λ (grant : Triple). number_in roles.now grant.2)
        (filter (λ grant. eq_by_cmp pair_cmp (grant.0, grant.1) permission) (members (set_of triple_cmp grants.now)))) permissions.now) }
    ensures cause { IfErr result (λ refusal. refusal ≡ Refusal.Memory) }
{
    let mut runs = Vec::new(alloc);
    runs.reserve(permissions.len())?;
    for permission in permissions.iter() {
        let run = grants.with_first((&permission.0, &permission.1));
        runs.push(third_numbers(alloc, roles, &run)?)?;
    }
    Ok(runs)
}
