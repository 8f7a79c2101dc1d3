//! The changes of a plan.
ghost use Rattle.std.specs.Prelude.{◌≡◌, ◌≢◌, true, None, OnOk, IfOk, IfErr, IfSome, IfNone};
ghost use Rattle.rbac_sets.specs.declared.row.Change.TheVariants.{Put, Take};
ghost use Rattle.rbac_sets.specs.declared.row.Row.TheVariants.{GrantRow, NameRow, PairRow};
ghost use Rattle.rbac_sets.specs.RowKinds.{activated_role_kind, assignment_kind, closure_pair_kind, role_kind};
ghost use Rattle.rbac_sets.specs.Sets.{Bytes};
ghost use Rattle.admin_mgr.specs.RbacState.{RbacState};
ghost use Rattle.admin_mgr.specs.Changes.{Turns, is_taken};
ghost use Rattle.admin_mgr.specs.Good.{IsGood};
ghost use Rattle.admin_mgr.specs.RowChecks.{AreRowsOf};
ghost use Rattle.access_index.specs.Following.{AreNumbers};
ghost use Rattle.access_index.specs.Index.{Indexes, IsSeeded, Keeps, Rows, is_used, number_of, seeds_of};
ghost use Rattle.access_index.specs.private.Changing.{IsNowhere, rows_after, rows_by};

use crate::index::AccessIndex;
use bit_tables::Seed;
use rbac_sets::{Change, Name, Refusal, Row};
use std::alloc::Global;

impl AccessIndex {
    /// The index of the state that has these rows, each once and in any order. Which roles are barred isn't known.
    ///
    /// # Errors
    ///
    /// `Memory` if an allocation failed, or the rows have more than 8,192 roles, which those of no state have.
    pub fn of_rows(alloc: Global, seed: Seed, rows: &[Row]) -> Result<AccessIndex, Refusal>
        ensures ok { IfOk result (λ index. (S : RbacState) → AreRowsOf S rows.now → Indexes index S) }
        ensures seeded { IfOk result (λ index. IsSeeded index seed) }
        ensures cause { IfErr result (λ refusal. refusal ≡ Refusal.Memory) }
    {
        let mut index = AccessIndex::empty(alloc, seed);
        for row in rows {
            index.put_row(alloc, row)?;
        }
        index.forget_all_barred();
        index.assigned.fit();
        index.sessions.fit();
        index.grants.fit();
        index.count_rows(alloc, rows);
        Ok(index)
    }

    /// Makes the changes of a plan, which leads from the state of the index to another: then the index is that of the other
    /// state. A change of one row is one of one bit. Which roles are barred isn't known after a change of a closure pair or
    /// of a dynamic separation of duty set.
    ///
    /// # Errors
    ///
    /// `Memory` if an allocation failed, or there are more than 8,192 roles, which no state has. The index is of no use then.
    pub fn follow(&mut self, alloc: Global, changes: &[Change]) -> Result<(), Refusal>
        requires { (S : RbacState) × Indexes self.old S }
        ensures ok { OnOk result ((S T : RbacState) → Indexes self.old S → Turns S changes.now T → IsGood T → Indexes self.new T) }
        ensures freed { OnOk result ((role : Bytes) → is_taken changes.now (NameRow role_kind role) ≡ true → number_of self.new role ≡ None) }
        ensures seeds { seeds_of self.new ≡ seeds_of self.old }
        ensures cause { IfErr result (λ refusal. refusal ≡ Refusal.Memory) }
    {
        self.forget_barred(changes);
        let users = self.take_authorized(alloc, changes);
        self.change_bits(alloc, changes)?;
        self.free_numbers(changes);
        self.count_users(alloc, users);
        self.count_changed(alloc, changes);
        Ok(())
    }

    // Changes the bits, one after the other.
    fn change_bits(&mut self, alloc: Global, changes: &[Change]) -> Result<(), Refusal>
        requires { (rows : Rows) × Keeps self.old rows }
        ensures ok { OnOk result ((rows : Rows) → Keeps self.old rows → Keeps self.new (rows_after rows changes.now)) }
        ensures seeds { seeds_of self.new ≡ seeds_of self.old }
        ensures cause { IfErr result (λ refusal. refusal ≡ Refusal.Memory) }
    {
        for change in changes {
            self.change_bit(alloc, change)?;
        }
        Ok(())
    }

    // Frees the numbers of the roles that are taken.
    fn free_numbers(&mut self, changes: &[Change])
        requires { AreNumbers (number_of self.old) (is_used self.old) }
        ensures keeps { (rows : Rows) → Keeps self.old rows → ((role : Bytes) → is_taken changes.now (NameRow role_kind role) ≡ true → IsNowhere rows role) → Keeps self.new rows }
        ensures freed { (role : Bytes) → is_taken changes.now (NameRow role_kind role) ≡ true → number_of self.new role ≡ None }
        ensures seeds { seeds_of self.new ≡ seeds_of self.old }
    {
        for change in changes {
            if let Some(role) = role_taken(change) {
                self.free(role);
            }
        }
    }

    // Changes the bit of one row, if it has one.
    fn change_bit(&mut self, alloc: Global, change: &Change) -> Result<(), Refusal>
        requires { (rows : Rows) × Keeps self.old rows }
        ensures ok { OnOk result ((rows : Rows) → Keeps self.old rows → Keeps self.new (rows_by rows change.now)) }
        ensures seeds { seeds_of self.new ≡ seeds_of self.old }
        ensures cause { IfErr result (λ refusal. refusal ≡ Refusal.Memory) }
    {
        match change {
            Change::Put(row) => self.put_row(alloc, row),
            Change::Take(row) => self.take_row(row),
        }
    }

    // Puts the bit of a row, if it has one.
    pub(crate) fn put_row(&mut self, alloc: Global, row: &Row) -> Result<(), Refusal>
        requires { (rows : Rows) × Keeps self.old rows }
        ensures ok { OnOk result ((rows : Rows) → Keeps self.old rows → Keeps self.new (rows_by rows (Put row.now))) }
        ensures seeds { seeds_of self.new ≡ seeds_of self.old }
        ensures cause { IfErr result (λ refusal. refusal ≡ Refusal.Memory) }
    {
        match row {
            Row::PairRow(Row::ASSIGNMENT, user, role) => self.put_assigned(alloc, user, role),
            Row::PairRow(Row::ACTIVATED_ROLE, session, role) => self.put_activated(
                alloc, session, role,
            ),
            Row::PairRow(Row::CLOSURE_PAIR, senior, junior) => self.put_pair(alloc, senior, junior),
            Row::GrantRow(object, operation, role) => self.put_grant(
                alloc, object, operation, role,
            ),
            _ => Ok(()),
        }
    }

    // Takes the bit of a row, if it has one.
    fn take_row(&mut self, row: &Row) -> Result<(), Refusal>
        requires { (rows : Rows) × Keeps self.old rows }
        ensures ok { OnOk result ((rows : Rows) → Keeps self.old rows → Keeps self.new (rows_by rows (Take row.now))) }
        ensures seeds { seeds_of self.new ≡ seeds_of self.old }
        ensures cause { IfErr result (λ refusal. refusal ≡ Refusal.Memory) }
    {
        match row {
            Row::PairRow(Row::ASSIGNMENT, user, role) => self.take_assigned(user, role),
            Row::PairRow(Row::ACTIVATED_ROLE, session, role) => self.take_activated(session, role),
            Row::PairRow(Row::CLOSURE_PAIR, senior, junior) => {
                self.take_pair(senior, junior);
                Ok(())
            }
            Row::GrantRow(object, operation, role) => self.take_grant(object, operation, role),
            _ => Ok(()),
        }
    }

    fn put_assigned(&mut self, alloc: Global, user: &Name, role: &Name) -> Result<(), Refusal>
        requires { (rows : Rows) × Keeps self.old rows }
        ensures ok { OnOk result ((rows : Rows) → Keeps self.old rows → Keeps self.new (rows_by rows (Put (PairRow assignment_kind user.now role.now)))) }
        ensures seeds { seeds_of self.new ≡ seeds_of self.old }
        ensures cause { IfErr result (λ refusal. refusal ≡ Refusal.Memory) }
    {
        let number = self.number_for(alloc, role)?;
        self.forget_authorized(user.as_str());
        self.assigned.put(alloc, user.as_str(), number)
    }

    fn take_assigned(&mut self, user: &Name, role: &Name) -> Result<(), Refusal>
        requires { (rows : Rows) × Keeps self.old rows }
        ensures ok { OnOk result ((rows : Rows) → Keeps self.old rows → Keeps self.new (rows_by rows (Take (PairRow assignment_kind user.now role.now)))) }
        ensures seeds { seeds_of self.new ≡ seeds_of self.old }
        ensures cause { IfErr result (λ refusal. refusal ≡ Refusal.Memory) }
    {
        if let Some(number) = self.number(role) {
            let user = user.as_str();
            self.forget_authorized(user);
            return self.assigned.take(user, number);
        }
        Ok(())
    }

    fn put_activated(&mut self, alloc: Global, session: &Name, role: &Name) -> Result<(), Refusal>
        requires { (rows : Rows) × Keeps self.old rows }
        ensures ok { OnOk result ((rows : Rows) → Keeps self.old rows → Keeps self.new (rows_by rows (Put (PairRow activated_role_kind session.now role.now)))) }
        ensures seeds { seeds_of self.new ≡ seeds_of self.old }
        ensures cause { IfErr result (λ refusal. refusal ≡ Refusal.Memory) }
    {
        let number = self.number_for(alloc, role)?;
        self.sessions.put(alloc, session.as_str(), number)
    }

    fn take_activated(&mut self, session: &Name, role: &Name) -> Result<(), Refusal>
        requires { (rows : Rows) × Keeps self.old rows }
        ensures ok { OnOk result ((rows : Rows) → Keeps self.old rows → Keeps self.new (rows_by rows (Take (PairRow activated_role_kind session.now role.now)))) }
        ensures seeds { seeds_of self.new ≡ seeds_of self.old }
        ensures cause { IfErr result (λ refusal. refusal ≡ Refusal.Memory) }
    {
        if let Some(number) = self.number(role) {
            return self.sessions.take(session.as_str(), number);
        }
        Ok(())
    }

    fn put_grant(
        &mut self,
        alloc: Global,
        object: &Name,
        operation: &Name,
        role: &Name,
    ) -> Result<(), Refusal>
        requires { (rows : Rows) × Keeps self.old rows }
        ensures ok { OnOk result ((rows : Rows) → Keeps self.old rows → Keeps self.new (rows_by rows (Put (GrantRow object.now operation.now role.now)))) }
        ensures seeds { seeds_of self.new ≡ seeds_of self.old }
        ensures cause { IfErr result (λ refusal. refusal ≡ Refusal.Memory) }
    {
        let number = self.number_for(alloc, role)?;
        self.grants
            .put(alloc, object.as_str(), operation.as_str(), number)
    }

    fn take_grant(&mut self, object: &Name, operation: &Name, role: &Name) -> Result<(), Refusal>
        requires { (rows : Rows) × Keeps self.old rows }
        ensures ok { OnOk result ((rows : Rows) → Keeps self.old rows → Keeps self.new (rows_by rows (Take (GrantRow object.now operation.now role.now)))) }
        ensures seeds { seeds_of self.new ≡ seeds_of self.old }
        ensures cause { IfErr result (λ refusal. refusal ≡ Refusal.Memory) }
    {
        if let Some(number) = self.number(role) {
            return self
                .grants
                .take(object.as_str(), operation.as_str(), number);
        }
        Ok(())
    }

    fn put_pair(&mut self, alloc: Global, senior: &Name, junior: &Name) -> Result<(), Refusal>
        requires { (rows : Rows) × Keeps self.old rows }
        ensures ok { OnOk result ((rows : Rows) → Keeps self.old rows → Keeps self.new (rows_by rows (Put (PairRow closure_pair_kind senior.now junior.now)))) }
        ensures seeds { seeds_of self.new ≡ seeds_of self.old }
        ensures cause { IfErr result (λ refusal. refusal ≡ Refusal.Memory) }
    {
        let above = self.number_for(alloc, senior)?;
        let below = self.number_for(alloc, junior)?;
        self.forget_all_authorized();
        self.put_junior(alloc, above, below)
    }

    fn take_pair(&mut self, senior: &Name, junior: &Name)
        requires { (rows : Rows) × Keeps self.old rows }
        ensures keeps { (rows : Rows) → Keeps self.old rows → Keeps self.new (rows_by rows (Take (PairRow closure_pair_kind senior.now junior.now))) }
        ensures seeds { seeds_of self.new ≡ seeds_of self.old }
    {
        if let Some(above) = self.number(senior) {
            if let Some(below) = self.number(junior) {
                self.forget_all_authorized();
                self.take_junior(above, below);
            }
        }
    }
}

// The role that the change takes, if it takes one.
fn role_taken(change: &Change) -> Option<&Name>
    ensures role { IfSome result (λ role. change.now ≡ Take (NameRow role_kind role.now)) }
    ensures none { IfNone result ((role : Bytes) → change.now ≢ Take (NameRow role_kind role)) }
{
    match change {
        Change::Take(Row::NameRow(Row::ROLE, role)) => Some(role),
        _ => None,
    }
}
