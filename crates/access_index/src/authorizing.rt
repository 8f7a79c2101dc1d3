//! The roles that users with many assigned roles are authorized for. A decision about such a user compares one row, and not one for
//! each assigned role.
ghost use Rattle.std.specs.Prelude.{◌≡◌, ◌↔◌, ◌≤◌, ◌||◌, ℕ, IsTrue, None, IfOk, IfSome, OnOk};
ghost use Rattle.std.specs.HashMap.{hasher_of};
ghost use Rattle.std.specs.List.{list_any};
ghost use Rattle.rbac_sets.specs.Sets.{Bytes};
ghost use Rattle.rbac_sets.specs.declared.row.Change.{Change as ChangeContent};
ghost use Rattle.bit_rows.specs.Rows.{has};
ghost use Rattle.bit_tables.specs.Tables.{holds};
ghost use Rattle.access_index.specs.Index.{IsAuthorized, IsReached, Keeps, Rows, authorized_row, is_below};
ghost use Rattle.access_index.specs.private.Barring.{changed_row, is_of_closure};

use crate::index::AccessIndex;
use bit_rows::BitRow;
use bit_tables::{Numbers, Seed};
use rbac_sets::{Change, Row};
use std::alloc::{AllocError, Global};
use std::collections::HashMap;
use std::mem::replace;

// A user to whom more roles than these are assigned has a row of the authorized ones. For fewer it takes little time to compare the
// row of each.
const MANY: usize = 16;

impl AccessIndex {
    // Forgets which roles the user is authorized for.
    pub(crate) fn forget_authorized(&mut self, user: &str)
        ensures gone { authorized_row self.new user.now ≡ None }
        ensures keeps { (rows : Rows) → Keeps self.old rows → Keeps self.new rows }
        ensures rest { self.new ≡ record self.old { authorized = self.new.authorized } }
        ensures seed { hasher_of self.new.authorized ≡ hasher_of self.old.authorized }
    {
        if !self.authorized.is_empty() {
            let _ = self.authorized.remove(user);
        }
    }

    // Forgets which roles each user is authorized for.
    pub(crate) fn forget_all_authorized(&mut self)
        ensures none { (user : Bytes) → authorized_row self.new user ≡ None }
        ensures keeps { (rows : Rows) → Keeps self.old rows → Keeps self.new rows }
        ensures rest { self.new ≡ record self.old { authorized = self.new.authorized } }
        ensures seed { hasher_of self.new.authorized ≡ hasher_of self.old.authorized }
    {
        if !self.authorized.is_empty() {
            self.authorized.clear();
        }
    }

    // Forgets which roles each user is authorized for, if one of the changes is one of a closure pair. The result has the users whose
    // roles were known.
    pub(crate) fn take_authorized(
        &mut self,
        alloc: Global,
        changes: &[Change],
    ) -> HashMap<String, BitRow, Seed>
        ensures keeps { (rows : Rows) → Keeps self.old rows → Keeps self.new rows }
        ensures rest { self.new ≡ record self.old { authorized = self.new.authorized } }
        ensures seed { hasher_of self.new.authorized ≡ hasher_of self.old.authorized }
    {
        let none = HashMap::with_hasher(alloc, *self.authorized.hasher());
        if some_is_of_closure(changes) {
            return replace(&mut self.authorized, none);
        }
        none
    }

    // Counts which roles these users are authorized for.
    pub(crate) fn count_users(&mut self, alloc: Global, users: HashMap<String, BitRow, Seed>)
        ensures keeps { (rows : Rows) → Keeps self.old rows → Keeps self.new rows }
        ensures rest { self.new ≡ record self.old { authorized = self.new.authorized } }
        ensures seed { hasher_of self.new.authorized ≡ hasher_of self.old.authorized }
    {
        for user in users.into_keys() {
            self.count_user(alloc, user.as_str());
        }
    }

    // Counts which roles the users are authorized for to whom the changes assign a role, or no longer assign one.
    pub(crate) fn count_changed(&mut self, alloc: Global, changes: &[Change])
        ensures keeps { (rows : Rows) → Keeps self.old rows → Keeps self.new rows }
        ensures rest { self.new ≡ record self.old { authorized = self.new.authorized } }
        ensures seed { hasher_of self.new.authorized ≡ hasher_of self.old.authorized }
    {
        for change in changes {
            self.count_change(alloc, change);
        }
    }

    // Counts which roles the user is authorized for to whom the change assigns a role, or no longer assigns it.
    fn count_change(&mut self, alloc: Global, change: &Change)
        ensures keeps { (rows : Rows) → Keeps self.old rows → Keeps self.new rows }
        ensures rest { self.new ≡ record self.old { authorized = self.new.authorized } }
        ensures seed { hasher_of self.new.authorized ≡ hasher_of self.old.authorized }
    {
        match change {
            Change::Put(row) => self.count_row(alloc, row),
            Change::Take(row) => self.count_row(alloc, row),
        }
    }

    // Counts which roles the users of assignments are authorized for.
    pub(crate) fn count_rows(&mut self, alloc: Global, stored: &[Row])
        ensures keeps { (rows : Rows) → Keeps self.old rows → Keeps self.new rows }
        ensures rest { self.new ≡ record self.old { authorized = self.new.authorized } }
        ensures seed { hasher_of self.new.authorized ≡ hasher_of self.old.authorized }
    {
        for row in stored {
            self.count_row(alloc, row);
        }
    }

    // Counts which roles the user of the row is authorized for, if the row is an assignment.
    fn count_row(&mut self, alloc: Global, row: &Row)
        ensures keeps { (rows : Rows) → Keeps self.old rows → Keeps self.new rows }
        ensures rest { self.new ≡ record self.old { authorized = self.new.authorized } }
        ensures seed { hasher_of self.new.authorized ≡ hasher_of self.old.authorized }
    {
        match row {
            Row::PairRow(Row::ASSIGNMENT, user, _) => self.count_user(alloc, user.as_str()),
            _ => {}
        }
    }

    // Counts which roles the user is authorized for, if many are assigned and it isn't known. If an allocation fails, it stays
    // unknown.
    fn count_user(&mut self, alloc: Global, user: &str)
        ensures keeps { (rows : Rows) → Keeps self.old rows → Keeps self.new rows }
        ensures rest { self.new ≡ record self.old { authorized = self.new.authorized } }
        ensures seed { hasher_of self.new.authorized ≡ hasher_of self.old.authorized }
    {
        if let Some(row) = self.uncounted(alloc, user) {
            if let Ok(key) = String::from_str(alloc, user) {
                let _ = self.authorized.insert(key, row);
            }
        }
    }

    // The numbers of the roles that the user is authorized for, if many are assigned and it isn't known. There are none if an
    // allocation fails.
    fn uncounted(&self, alloc: Global, user: &str) -> Option<BitRow>
        ensures { IfSome result (IsAuthorized self.now user.now) }
    {
        let Some(assigned) = self.assigned.row(user) else {
            return None;
        };
        if !has_many(assigned) {
            return None;
        }
        if self.authorized.contains_key(user) {
            return None;
        }
        match self.with_juniors(alloc, assigned) {
            Ok(row) => Some(row),
            Err(_) => None,
        }
    }

    // The numbers of roles, and those of their juniors.
    fn with_juniors(&self, alloc: Global, numbers: &Numbers) -> Result<BitRow, AllocError>
        ensures { IfOk result (λ row. (n : ℕ) → IsTrue (has row n) ↔ IsReached self.now.juniors.items (holds numbers.now) n) }
    {
        let mut row = BitRow::new(alloc);
        let mut from = 0;
        while let Some(number) = numbers.next(from) {
            row.put(number)?;
            self.put_juniors(number, &mut row)?;
            from = number + 1;
        }
        Ok(row)
    }

    // Puts the numbers of the juniors of the role with the number into the row.
    fn put_juniors(&self, number: usize, row: &mut BitRow) -> Result<(), AllocError>
        ensures { OnOk result ((n : ℕ) → has row.new n ≡ (has row.old n || is_below self.now.juniors.items number n)) }
    {
        match self.juniors.get(number) {
            Some(juniors) => row.put_all(juniors),
            None => Ok(()),
        }
    }
}

// Whether the set has more than `MANY` numbers.
fn has_many(numbers: &Numbers) -> bool
    ensures { IsTrue result → (n : ℕ) × (MANY ≤ n) × IsTrue (holds numbers.now n) }
{
    let mut count = 0;
    let mut from = 0;
    while let Some(number) = numbers.next(from) {
        if count == MANY {
            return true;
        }
        count += 1;
        from = number + 1;
    }
    false
}

// Whether one of the changes is one of a closure pair.
fn some_is_of_closure(changes: &[Change]) -> bool
    ensures { result ≡ list_any (λ (change : ChangeContent). is_of_closure (changed_row change)) changes.now }
{
    changes.iter().any(|change| changes_closure(change))
}

// Whether the change is one of a closure pair.
fn changes_closure(change: &Change) -> bool
    ensures { result ≡ is_of_closure (changed_row change.now) }
{
    match change {
        Change::Put(row) => is_of_closure(row),
        Change::Take(row) => is_of_closure(row),
    }
}

// Whether the row is a closure pair.
fn is_of_closure(row: &Row) -> bool
    ensures { result ≡ is_of_closure row.now }
{
    match row {
        Row::PairRow(Row::CLOSURE_PAIR, _, _) => true,
        _ => false,
    }
}
