//! Changes of the sets and relations in place, in room that was made before.
ghost use Rattle.std.specs.Prelude.{◌≡◌, List, ◌∷◌, [], ◌<◌, ◌≤◌, ℕ, Some, IfErr, OnOk, get_or, length, take, drop, IsTrue, ◌↔◌};
ghost use Rattle.std.specs.List.{list_all};
ghost use Rattle.rbac_sets.specs.Table.{relation_count};
ghost use Rattle.rbac_sets.specs.declared.row.Change.{Change};
ghost use Rattle.rbac_sets.specs.declared.row.Change.TheVariants.{Put, Take};
ghost use Rattle.role_order.specs.Planned.{Fits, changed};
ghost use Rattle.admin_mgr.specs.RowUpdates.{with_edges, HasRoom, table_put, puts_of};
ghost use Rattle.admin_mgr.specs.private.OneRow.{with_row, without_row, after_change, after_changes, IsFree, AreFree, UsesRoom};
ghost use Rattle.admin_mgr.specs.PlanEffect.{order_of, HasRoomIn};
ghost use Rattle.admin_mgr.specs.Changes.{takes};
ghost use Rattle.admin_mgr.specs.private.PlanChanges.{is_take, pair_row, take_all};

use crate::relations::Relations;
use rbac_sets::{Change, Refusal, Row, Table};
use role_order::OrderPlan;

impl Relations {
    // Makes room for the rows that the changes put, except those of the role hierarchy.
    pub(crate) fn make_room(&mut self, changes: &[Change]) -> Result<(), Refusal>
        ensures keeps { self.new.facts ≡ self.old.facts }
        ensures room { OnOk result (HasRoom self.new.room changes.now) }
        ensures cause { IfErr result (λ refusal. refusal ≡ Refusal.Memory) }
    {
        if are_takes(changes) {
            return Ok(());
        }
        let puts = count_puts(changes);
        self.users.reserve(puts[Table::Users.number()])?;
        self.roles.reserve(puts[Table::Roles.number()])?;
        self.objects.reserve(puts[Table::Objects.number()])?;
        self.permissions.reserve(puts[Table::Permissions.number()])?;
        self.assignments.reserve(puts[Table::Assignments.number()])?;
        self.ssd_members
            .reserve(puts[Table::StaticMembers.number()])?;
        self.dsd_members
            .reserve(puts[Table::DynamicMembers.number()])?;
        self.sessions.reserve(puts[Table::Sessions.number()])?;
        self.active.reserve(puts[Table::ActivatedRoles.number()])?;
        self.grants.reserve(puts[Table::Grants.number()])?;
        self.ssd_cardinalities
            .reserve(puts[Table::StaticCardinalities.number()])?;
        self.dsd_cardinalities
            .reserve(puts[Table::DynamicCardinalities.number()])?;
        self.locked.reserve(puts[Table::Locks.number()])?;
        Ok(())
    }

    // Makes room for what the plan of the role hierarchy puts.
    pub(crate) fn make_order_room(&mut self, plan: &OrderPlan) -> Result<(), Refusal>
        ensures keeps { self.new.facts ≡ self.old.facts }
        ensures sets { self.new.room ≡ self.old.room }
        ensures room { OnOk result (HasRoomIn self.new (Some plan.now)) }
        ensures cause { IfErr result (λ refusal. refusal ≡ Refusal.Memory) }
    {
        self.order.make_room(plan)
    }

    // Makes the changes one after the other, except those of rows of the role hierarchy, and gives back the
    // room that is left over.
    #[tactic(auto, unfolding(crate::specs::private::OneRow::after_changes))]
    pub(crate) fn change(&mut self, changes: Vec<Change>)
        requires free { AreFree self.old.facts changes.items }
        requires room { HasRoom self.old.room changes.items }
        ensures facts { self.new.facts ≡ after_changes self.old.facts changes.items }
        ensures order { order_of self.new ≡ order_of self.old }
    {
        for change in changes {
            self.apply(change);
        }
        self.release();
    }

    // Gives back the room that was made for changes and not used.
    fn release(&mut self)
        ensures facts { self.new.facts ≡ self.old.facts }
        ensures order { order_of self.new ≡ order_of self.old }
    {
        self.users.release();
        self.objects.release();
        self.permissions.release();
        self.assignments.release();
        self.grants.release();
        self.sessions.release();
        self.active.release();
    }

    // Changes the edges, and with them their closure.
    pub(crate) fn commit_order(&mut self, plan: OrderPlan)
        requires fits { Fits self.old.facts.edges plan }
        requires room { HasRoomIn self.old (Some plan) }
        ensures { self.new.facts ≡ with_edges self.old.facts (changed self.old.facts.edges plan) }
    {
        self.order.commit(plan);
    }

    // Makes one change.
    fn apply(&mut self, change: Change)
        requires free { IsFree self.old.facts change }
        requires room { HasRoom self.old.room (change ∷ []) }
        ensures facts { self.new.facts ≡ after_change self.old.facts change }
        ensures room { UsesRoom change self.old.room self.new.room }
        ensures order { order_of self.new ≡ order_of self.old }
    {
        match change {
            Change::Put(row) => self.put(row),
            Change::Take(row) => self.take(&row),
        }
    }

    // Puts a row that the sets don't have yet. Rows of the role hierarchy are left to its plan.
    #[tactic(auto, unfolding(crate::specs::private::OneRow::with_row, crate::specs::Rows::has_row))]
    fn put(&mut self, row: Row)
        requires free { IsFree self.old.facts (Put row) }
        requires room { HasRoom self.old.room (Put row ∷ []) }
        ensures facts { self.new.facts ≡ with_row self.old.facts row }
        ensures room { UsesRoom (Put row) self.old.room self.new.room }
        ensures order { order_of self.new ≡ order_of self.old }
    {
        match row {
            Row::NameRow(Row::USER, name) => self.users.insert_reserved(name),
            Row::NameRow(Row::ROLE, name) => self.roles.insert_reserved(name),
            Row::NameRow(Row::OBJECT, name) => self.objects.insert_reserved(name),
            Row::PairRow(Row::PERMISSION, a, b) => self.permissions.insert_reserved((a, b)),
            Row::PairRow(Row::ASSIGNMENT, a, b) => self.assignments.insert_reserved((a, b)),
            Row::PairRow(Row::STATIC_MEMBER, a, b) => self.ssd_members.insert_reserved((a, b)),
            Row::PairRow(Row::DYNAMIC_MEMBER, a, b) => self.dsd_members.insert_reserved((a, b)),
            Row::PairRow(Row::SESSION, a, b) => self.sessions.insert_reserved((a, b)),
            Row::PairRow(Row::ACTIVATED_ROLE, a, b) => self.active.insert_reserved((a, b)),
            Row::GrantRow(a, b, c) => self.grants.insert_reserved((a, b, c)),
            Row::SetRow(Row::STATIC_CARDINALITY, name, n) => self
                .ssd_cardinalities
                .insert_reserved((name, n)),
            Row::SetRow(Row::DYNAMIC_CARDINALITY, name, n) => self
                .dsd_cardinalities
                .insert_reserved((name, n)),
            Row::LockedRow(name) => self.locked.insert_reserved(name),
            _ => {}
        }
    }

    // Takes a row. Rows of the role hierarchy are left to its plan.
    #[tactic(auto, unfolding(crate::specs::private::OneRow::without_row), using(crate::proofs::PlanRows::RoomLaws::spends_none))]
    fn take(&mut self, row: &Row)
        ensures facts { self.new.facts ≡ without_row self.old.facts row.now }
        ensures room { UsesRoom (Take row.now) self.old.room self.new.room }
        ensures order { order_of self.new ≡ order_of self.old }
    {
        match row {
            Row::NameRow(Row::USER, name) => {
                self.users.remove(name);
            }
            Row::NameRow(Row::ROLE, name) => {
                self.roles.remove(name);
            }
            Row::NameRow(Row::OBJECT, name) => {
                self.objects.remove(name);
            }
            Row::PairRow(Row::PERMISSION, a, b) => {
                self.permissions.remove((a, b));
            }
            Row::PairRow(Row::ASSIGNMENT, a, b) => {
                self.assignments.remove((a, b), (b, a));
            }
            Row::PairRow(Row::STATIC_MEMBER, a, b) => {
                self.ssd_members.remove((a, b));
            }
            Row::PairRow(Row::DYNAMIC_MEMBER, a, b) => {
                self.dsd_members.remove((a, b));
            }
            Row::PairRow(Row::SESSION, a, b) => {
                self.sessions.remove((a, b), (b, a));
            }
            Row::PairRow(Row::ACTIVATED_ROLE, a, b) => {
                self.active.remove((a, b));
            }
            Row::GrantRow(a, b, c) => {
                self.grants.remove((a, b, c), (c, a, b));
            }
            Row::SetRow(Row::STATIC_CARDINALITY, name, n) => {
                self.ssd_cardinalities.remove((name, *n));
            }
            Row::SetRow(Row::DYNAMIC_CARDINALITY, name, n) => {
                self.dsd_cardinalities.remove((name, *n));
            }
            Row::LockedRow(name) => {
                self.locked.remove(name);
            }
            _ => {}
        }
    }
}

// Whether each change takes a row.
fn are_takes(changes: &[Change]) -> bool
    ensures { result ≡ list_all is_take changes.now }
{
    changes
        .iter()
        .all(|change| matches!(change, Change::Take(_)))
}

// How many of the changes put a row into each table, by the table's number.
fn count_puts(changes: &[Change]) -> [usize; Table::COUNT]
    ensures { (number : ℕ) → number < relation_count → get_or result number 0 ≡ puts_of number changes.now }
{
    let mut counts = [0; Table::COUNT];
    for change in changes {
        if let Some(table) = table_put(change) {
            counts[table.number()] += 1;
        }
    }
    counts
}

// The table into which the change puts a row, if it puts one.
fn table_put(change: &Change) -> Option<Table>
    ensures { result ≡ table_put change.now }
{
    match change {
        Change::Put(row) => row.table(),
        Change::Take(_) => None,
    }
}
