//! The reachability matrix of roles.
ghost use Rattle.std.specs.Prelude.{◌≡◌, IfOk, IfErr};
ghost use Rattle.order_matrix.specs.Table.{table_of, entry, reaches, count_above, MatchesOrder};

use rbac_sets::{Name, Refusal};
use role_order::{OrderOfNames, RoleOrder};
use std::alloc::Global;
use std::marker::Model;

/// The reachability matrix of some roles: for two of them, by their numbers, whether the first equals
/// or dominates the second. A role's number is its place among the roles.
///
/// It is a view of the order, and has no entries of its own. In contracts the value is its rows.
#[derive(Drop)]
pub struct OrderMatrix<'a> {
    roles: OrderOfNames<'a>,
}

impl<'a> Model for OrderMatrix<'a> {
    ghost use Rattle.std.specs.Coded.{coded_list, coded_bool};
    ghost use Rattle.order_matrix.specs.Table.{Table, table_of};

    ghost Value = { Table };

    ghost coded = { coded_list (coded_list coded_bool) };

    ghost view = { λ table. table_of table.roles.edges table.roles.names };
}

impl<'a> OrderMatrix<'a> {
    /// The matrix of these roles, which may be any names.
    ///
    /// # Errors
    ///
    /// `Memory` if allocation failed.
    pub fn new(
        alloc: Global,
        order: &'a RoleOrder,
        roles: &'a [Name],
    ) -> Result<OrderMatrix<'a>, Refusal>
        ensures ok { IfOk result (λ table. table ≡ table_of order.now.edges roles.now) }
        ensures tells { IfOk result (λ table. MatchesOrder order.now.edges roles.now table) }
        ensures cause { IfErr result (λ refusal. refusal ≡ Refusal.Memory) }
    {
        let roles = order.of_names(alloc, roles)?;
        Ok(OrderMatrix { roles })
    }

    /// Whether the role with the number `above` equals or dominates the role with the number `below`. If
    /// one of them is not the number of a role, it is `false`.
    ///
    /// It doesn't allocate.
    pub fn geq(&self, above: usize, below: usize) -> bool
        ensures { result ≡ entry self.now above below }
    {
        if above.max(below) >= self.roles.len() {
            return false;
        }
        self.roles.geq(above, below)
    }

    /// Whether one of the roles with these numbers equals or dominates the role with the number `below`.
    ///
    /// It doesn't allocate.
    pub fn reaches(&self, numbers: &[usize], below: usize) -> bool
        ensures { result ≡ reaches self.now numbers.now below }
    {
        numbers.iter().any(|number| self.geq(*number, below))
    }

    /// How many of the roles equal or dominate the role with the number `below`.
    ///
    /// It doesn't allocate.
    pub fn count_above(&self, below: usize) -> usize
        ensures { result ≡ count_above self.now below }
    {
        let mut count = 0;
        for above in 0..self.roles.len() {
            if self.geq(above, below) {
                count += 1;
            }
        }
        count
    }
}
