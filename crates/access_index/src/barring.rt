//! The barred roles: each of them violates a dynamic separation of duty set alone, so that no session may have it.
ghost use Rattle.std.specs.Prelude.{◌≡◌, ◌≢◌, ◌<◌, ◌≤◌, ◌&&◌, ◌||◌, ℕ, Bool, IsTrue, false, length, IfOk, IfErr, OnOk, None, Some, vec_len};
ghost use Rattle.std.specs.List.{list_any};
ghost use Rattle.rbac_sets.specs.Sets.{Bytes, contains, members, same_name};
ghost use Rattle.rbac_sets.specs.declared.row.Change.{Change as ChangeContent};
ghost use Rattle.bit_rows.specs.Rows.{has};
ghost use Rattle.admin_mgr.specs.RbacState.{RbacState};
ghost use Rattle.admin_mgr.specs.Changes.{Turns};
ghost use Rattle.admin_mgr.specs.Good.{IsGood};
ghost use Rattle.admin_mgr.specs.private.HolderRoles.{run_of};
ghost use Rattle.access_index.specs.Following.{AreNumbers};
ghost use Rattle.access_index.specs.Index.{Indexes, Keeps, Rows, is_below, is_used, number_of, row_by_set, rows_of, seeds_of};
ghost use Rattle.access_index.specs.private.Barring.{AreBarred, Forgets, at_least, can_bar, can_bar_by, changed_row, has_members, is_member};

use crate::index::{AccessIndex, reach};
use admin_mgr::State;
use bit_rows::{BitRow, WIDTH};
use rbac_sets::{Change, Name, Refusal, Row};
use std::alloc::{AllocError, Global};
use std::mem::replace;

impl AccessIndex {
    /// Finds which roles of the state are barred, unless it is known. If an allocation fails, it stays unknown.
    pub fn find_barred(&mut self, alloc: Global, state: &State)
        requires { Indexes self.old state.now.facts }
        ensures indexes { Indexes self.new state.now.facts }
        ensures seeds { seeds_of self.new ≡ seeds_of self.old }
    {
        if self.barred.is_none() {
            state.recall_good();
            if let Ok(row) = self.barred_in(alloc, state) {
                self.barred = Some(row);
            }
        }
    }

    // Forgets which roles are barred, if one of the changes could bar a role, or no longer bar one: of the sets only those that
    // the change could affect.
    pub(crate) fn forget_barred(&mut self, changes: &[Change])
        ensures keeps { (rows : Rows) → Keeps self.old rows → Keeps self.new rows }
        ensures follows { (S T : RbacState) → Indexes self.old S → Turns S changes.now T → Keeps self.new (record (rows_of S) { barred = (rows_of T).barred; barred_by = (rows_of T).barred_by }) }
        ensures seeds { seeds_of self.new ≡ seeds_of self.old }
    {
        if some_can_bar(changes) {
            self.barred = None;
            for change in changes {
                self.forget_by_change(change);
            }
        }
    }

    // Forgets which roles are barred by a set that the change could affect.
    fn forget_by_change(&mut self, change: &Change)
        ensures forgets { Forgets self.old self.new (λ set. can_bar_by set (changed_row change.now)) }
        ensures rest { self.new ≡ record self.old { by_set = self.new.by_set } }
    {
        match change {
            Change::Put(row) => self.forget_by_row(row),
            Change::Take(row) => self.forget_by_row(row),
        }
    }

    // Forgets which roles are barred by a set that a change of the row could affect: by each set if the row is a closure pair.
    fn forget_by_row(&mut self, row: &Row)
        ensures forgets { Forgets self.old self.new (λ set. can_bar_by set row.now) }
        ensures rest { self.new ≡ record self.old { by_set = self.new.by_set } }
    {
        match row {
            Row::PairRow(Row::CLOSURE_PAIR, _, _) => self.forget_sets(),
            Row::PairRow(Row::DYNAMIC_MEMBER, set, _) => self.forget_set(set),
            Row::SetRow(Row::DYNAMIC_CARDINALITY, set, _) => self.forget_set(set),
            _ => {}
        }
    }

    // Forgets which roles the set bars.
    fn forget_set(&mut self, set: &Name)
        ensures forgets { Forgets self.old self.new (λ other. same_name set.now other) }
        ensures rest { self.new ≡ record self.old { by_set = self.new.by_set } }
    {
        let _ = self.by_set.remove(set.as_str());
    }

    // Forgets which roles are barred.
    pub(crate) fn forget_all_barred(&mut self)
        ensures keeps { (rows : Rows) (barred : Bytes → Bool) (barred_by : Bytes → Bytes → Bool) → Keeps self.old rows → Keeps self.new (record rows { barred = barred; barred_by = barred_by }) }
        ensures seeds { seeds_of self.new ≡ seeds_of self.old }
    {
        self.barred = None;
        self.forget_sets();
    }

    // Forgets which roles each set bars.
    fn forget_sets(&mut self)
        ensures none { (set : Bytes) → row_by_set self.new set ≡ None }
        ensures rest { self.new ≡ record self.old { by_set = self.new.by_set } }
    {
        if !self.by_set.is_empty() {
            self.by_set.clear();
        }
    }

    // The numbers of the roles that are barred in the state. Those that a set bars are counted if they aren't known.
    fn barred_in(&mut self, alloc: Global, state: &State) -> Result<BitRow, Refusal>
        requires indexes { Indexes self.old state.now.facts }
        requires good { IsGood state.now.facts }
        ensures keeps { Indexes self.new state.now.facts }
        ensures ok { IfOk result (λ row. AreBarred self.new state.now.facts row) }
        ensures seeds { seeds_of self.new ≡ seeds_of self.old }
        ensures cause { IfErr result (λ refusal. refusal ≡ Refusal.Memory) }
    {
        let mut levels = Vec::new(alloc);
        let mut barred = BitRow::new(alloc);
        for set in dynamic_sets(state) {
            let row = self.barred_by(alloc, &mut levels, state, set)?;
            barred.put_all(&row)?;
        }
        Ok(barred)
    }

    // The numbers of the roles that the set bars, which are counted in the levels if they aren't known.
    fn barred_by(
        &mut self,
        alloc: Global,
        levels: &mut Vec<BitRow>,
        state: &State,
        set: &(Name, u32),
    ) -> Result<BitRow, Refusal>
        requires indexes { Indexes self.old state.now.facts }
        requires good { IsGood state.now.facts }
        requires set { IsTrue (contains state.now.facts.dsd.cardinalities set.now) }
        ensures keeps { Indexes self.new state.now.facts }
        ensures rest { self.new ≡ record self.old { by_set = self.new.by_set } }
        ensures ok { IfOk result (λ row. (n : ℕ) → has row n ≡ has_members self.old n (run_of state.now.facts.dsd.members set.now.0) set.now.1) }
        ensures cause { IfErr result (λ refusal. refusal ≡ Refusal.Memory) }
    {
        if let Some(row) = self.by_set.get(set.0.as_str()) {
            return Ok(row.copy(alloc)?);
        }
        let row = self.with_members(alloc, levels, members_of(state, &set.0), set.1)?;
        let copy = row.copy(alloc)?;
        let key = String::from_str(alloc, set.0.as_str())?;
        self.by_set.insert(key, row)?;
        Ok(copy)
    }

    // The numbers of the roles that with their juniors are `count` or more of the members, which are pairs (set, role). The
    // levels may have any rows before.
    fn with_members(
        &self,
        alloc: Global,
        levels: &mut Vec<BitRow>,
        members: &[(Name, Name)],
        count: u32,
    ) -> Result<BitRow, Refusal>
        requires numbers { AreNumbers (number_of self.now) (is_used self.now) }
        requires some { 0 < count }
        ensures ok { IfOk result (λ row. (n : ℕ) → has row n ≡ has_members self.now n members.now count) }
        ensures cause { IfErr result (λ refusal. refusal ≡ Refusal.Memory) }
    {
        let last = count as usize - 1;
        levels.clear();
        let mut counted = 0;
        for member in members {
            reach(alloc, levels, counted.min(last))?;
            counted += 1;
            if let Some(number) = self.number(&member.1) {
                let row = self.own_and_seniors(alloc, number)?;
                raise(
                    alloc,
                    levels,
                    last.saturating_sub(members.len() - counted),
                    &row,
                )?;
            }
        }
        Ok(row_at(alloc, levels, last)?)
    }

    // The number, and those of the role's seniors.
    fn own_and_seniors(&self, alloc: Global, number: usize) -> Result<BitRow, AllocError>
        requires { number < WIDTH }
        ensures { IfOk result (λ row. (n : ℕ) → has row n ≡ is_member self.now n (Some number)) }
    {
        let mut row = row_at(alloc, &self.seniors, number)?;
        row.put(number)?;
        Ok(row)
    }
}

// The dynamic separation of duty sets with their cardinalities.
fn dynamic_sets(state: &State) -> &[(Name, u32)]
    ensures { result.now ≡ members state.now.facts.dsd.cardinalities }
{
    state.dsd_cardinalities().as_slice()
}

// The members of the dynamic set, as pairs (set, role).
fn members_of<'a>(state: &'a State, set: &Name) -> &'a [(Name, Name)]
    ensures { result.now ≡ run_of state.now.facts.dsd.members set.now }
{
    state.dsd_members().with_first(set)
}

// Counts the numbers of a row in the levels from this one on: a number is in as many of the levels, from the first on, as it was
// counted.
fn raise(
    alloc: Global,
    levels: &mut Vec<BitRow>,
    from: usize,
    row: &BitRow,
) -> Result<(), AllocError>
    ensures size { vec_len levels.new ≡ vec_len levels.old }
    ensures raised { OnOk result ((i n : ℕ) → from ≤ i → i < vec_len levels.old → is_below levels.new.items i n ≡ (is_below levels.old.items i n || (at_least levels.old.items i n && has row.now n))) }
{
    let mut level = levels.len();
    while level > from {
        level -= 1;
        let mut raised = take_row(alloc, levels, level);
        raised.put_common(level_before(levels, level, row), row)?;
        replace_row(levels, level, raised);
    }
    Ok(())
}

// The level before this one, or the row itself before the first level, which counts all numbers of the row.
fn level_before<'a>(levels: &'a [BitRow], level: usize, row: &'a BitRow) -> &'a BitRow
    requires { level ≤ length levels.now }
    ensures { (n : ℕ) → (has result.now n && has row.now n) ≡ (at_least levels.now level n && has row.now n) }
{
    if level == 0 { row } else { &levels[level - 1] }
}

// A copy of the row of this number, or the empty one if there are fewer.
fn row_at(alloc: Global, rows: &[BitRow], number: usize) -> Result<BitRow, AllocError>
    ensures { IfOk result (λ row. (n : ℕ) → has row n ≡ is_below rows.now number n) }
{
    match rows.get(number) {
        Some(row) => row.copy(alloc),
        None => Ok(BitRow::new(alloc)),
    }
}

// The row of this number. An empty one is left in its place.
fn take_row(alloc: Global, rows: &mut Vec<BitRow>, number: usize) -> BitRow
    requires { number < vec_len rows.old }
    ensures size { vec_len rows.new ≡ vec_len rows.old }
    ensures taken { (n : ℕ) → has result n ≡ is_below rows.old.items number n }
    ensures others { (i n : ℕ) → i ≢ number → is_below rows.new.items i n ≡ is_below rows.old.items i n }
{
    replace(&mut rows[number], BitRow::new(alloc))
}

// Replaces the row of this number.
fn replace_row(rows: &mut Vec<BitRow>, number: usize, row: BitRow)
    requires { number < vec_len rows.old }
    ensures size { vec_len rows.new ≡ vec_len rows.old }
    ensures here { (n : ℕ) → is_below rows.new.items number n ≡ has row n }
    ensures others { (i n : ℕ) → i ≢ number → is_below rows.new.items i n ≡ is_below rows.old.items i n }
{
    rows[number] = row;
}

// Whether one of the changes could bar a role, or no longer bar one.
fn some_can_bar(changes: &[Change]) -> bool
    ensures { result ≡ list_any (λ (change : ChangeContent). can_bar (changed_row change)) changes.now }
{
    changes.iter().any(|change| can_bar(change))
}

// Whether the change is one of a closure pair, or of a dynamic separation of duty set.
fn can_bar(change: &Change) -> bool
    ensures { result ≡ can_bar (changed_row change.now) }
{
    match change {
        Change::Put(row) => is_barring(row),
        Change::Take(row) => is_barring(row),
    }
}

// Whether the row is a closure pair, or one of a dynamic separation of duty set.
fn is_barring(row: &Row) -> bool
    ensures { result ≡ can_bar row.now }
{
    match row {
        Row::PairRow(Row::CLOSURE_PAIR, _, _) => true,
        Row::PairRow(Row::DYNAMIC_MEMBER, _, _) => true,
        Row::SetRow(Row::DYNAMIC_CARDINALITY, _, _) => true,
        _ => false,
    }
}
