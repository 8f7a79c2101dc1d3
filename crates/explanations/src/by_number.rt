//! Separation of duty over the numbers of roles: a role's number is its place among the roles in byte order.
//!
//! If a holder, which is a user or a session, is checked against many sets, the numbers of its roles are looked up once,
//! and then only the reachability matrix is read.
ghost use Rattle.std.specs.Prelude.{◌≡◌, ◌++◌, [], ◌∷◌, IfOk, IfErr};
ghost use Rattle.std.specs.List.Sorted.{IsStrictlySortedBy};
ghost use Rattle.rbac_sets.specs.Sets.{name_cmp};
ghost use Rattle.order_matrix.specs.Table.{numbers_of};
ghost use Rattle.explanations.specs.private.Numbered.{has_too_many};

use chunked_sets::Run;
use order_matrix::{OrderMatrix, second_numbers};
use rbac_sets::{Name, Refusal};
use std::alloc::Global;

// The numbers of the roles of a holder's pairs, followed by the number `more`.
pub(crate) fn numbers_with(
    alloc: Global,
    roles: &[Name],
    held: &Run<'_, (Name, Name)>,
    more: usize,
) -> Result<Vec<usize>, Refusal>
    requires { IsStrictlySortedBy name_cmp roles.now }
    ensures ok { IfOk result (λ numbers. numbers.items ≡ numbers_of roles.now held.now ++ more ∷ []) }
    ensures cause { IfErr result (λ refusal. refusal ≡ Refusal.Memory) }
{
    let mut numbers = second_numbers(alloc, roles, held)?;
    numbers.push(more)?;
    Ok(numbers)
}

// Whether no fewer of the members than the cardinality are one of the roles, or a junior of one.
pub(crate) fn has_too_many(
    table: &OrderMatrix<'_>,
    held: &[usize],
    members: &[usize],
    cardinality: u32,
) -> bool
    ensures { result ≡ has_too_many table.now held.now members.now cardinality }
{
    members
        .iter()
        .filter(|member| table.reaches(held, **member))
        .count()
        >= cardinality as usize
}
