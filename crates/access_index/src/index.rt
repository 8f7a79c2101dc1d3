//! The index.
ghost use Rattle.std.specs.Prelude.{◌≡◌, ◌<◌, ◌≢◌, ℕ, IsTrue, false, Some, None, OnOk, IfOk, IfErr, vec_len};
ghost use Rattle.rbac_sets.specs.Sets.{Bytes};
ghost use Rattle.rbac_sets.specs.declared.row.Row.TheVariants.{PairRow, GrantRow};
ghost use Rattle.admin_mgr.specs.RbacState.{empty_state};
ghost use Rattle.access_index.specs.Following.{AreNumbers};
ghost use Rattle.access_index.specs.Index.{AreTurned, Indexes, IsSeeded, Keeps, Rows, is_below, is_used, no_rows, number_of, seeds_of};
ghost use Rattle.access_index.specs.private.Changing.{IsNowhere};

use bit_rows::{BitRow, WIDTH};
use bit_tables::{BitTable, NumberTable, PairTable, Seed};
use rbac_sets::{Name, Refusal};
use std::alloc::Global;
use std::collections::HashMap;

/// An index for decisions.
#[derive(Drop)]
pub struct AccessIndex {
    // The number of each role.
    pub(crate) numbers: NumberTable,
    // The numbers of roles.
    pub(crate) used: BitRow,
    // By the number of a role the numbers of its juniors, without its own.
    pub(crate) juniors: Vec<BitRow>,
    // By the number of a role the numbers of its seniors, without its own.
    pub(crate) seniors: Vec<BitRow>,
    // By user the roles that are assigned to the user.
    pub(crate) assigned: BitTable,
    // By session the roles that were activated in it.
    pub(crate) sessions: BitTable,
    // By object and operation the roles that the permission is granted to.
    pub(crate) grants: PairTable,
    // The numbers of the barred roles, if they are known: each of them violates a dynamic separation of duty set alone.
    pub(crate) barred: Option<BitRow>,
    // By dynamic separation of duty set the numbers of the roles that violate it alone, if they are known. There are so few sets
    // that names that collide cost little, so the hash needs no secret.
    pub(crate) by_set: HashMap<String, BitRow>,
    // By user with many assigned roles the numbers of the roles that the user is authorized for, if they are known.
    pub(crate) authorized: HashMap<String, BitRow, Seed>,
}

impl AccessIndex {
    /// The index of an office without any row, such as a new one. It doesn't allocate.
    pub fn empty(alloc: Global, seed: Seed) -> AccessIndex
        ensures rows { Keeps result no_rows }
        ensures state { (version : ℕ) → Indexes result (empty_state version) }
        ensures seeded { IsSeeded result seed }
    {
        AccessIndex {
            numbers: NumberTable::new(alloc, seed),
            used: BitRow::new(alloc),
            juniors: Vec::new(alloc),
            seniors: Vec::new(alloc),
            assigned: BitTable::new(alloc, seed),
            sessions: BitTable::new(alloc, seed),
            grants: PairTable::new(alloc, seed),
            barred: Some(BitRow::new(alloc)),
            by_set: HashMap::new(alloc),
            authorized: HashMap::with_hasher(alloc, seed),
        }
    }

    // The number of the role, if it has one.
    pub(crate) fn number(&self, role: &Name) -> Option<usize>
        ensures { result ≡ number_of self.now role.now }
    {
        self.numbers.number(role)
    }

    // The number of the role, which gets one if it has none.
    pub(crate) fn number_for(&mut self, alloc: Global, role: &Name) -> Result<usize, Refusal>
        requires { (rows : Rows) × Keeps self.old rows }
        ensures keeps { OnOk result ((rows : Rows) → Keeps self.old rows → Keeps self.new rows) }
        ensures number { IfOk result (λ n. number_of self.new role.now ≡ Some n) }
        ensures within { IfOk result (λ n. n < WIDTH) }
        ensures others { OnOk result ((other : Bytes) (n : ℕ) → number_of self.old other ≡ Some n → number_of self.new other ≡ Some n) }
        ensures seeds { seeds_of self.new ≡ seeds_of self.old }
        ensures cause { IfErr result (λ refusal. refusal ≡ Refusal.Memory) }
    {
        if let Some(number) = self.number(role) {
            return Ok(number);
        }
        let Some(number) = self.used.first_absent() else {
            return Err(Refusal::Memory);
        };
        self.numbers.put(alloc, role, number)?;
        self.used.put(number)?;
        Ok(number)
    }

    // Frees the number of a role that no row has.
    pub(crate) fn free(&mut self, role: &Name)
        requires { AreNumbers (number_of self.old) (is_used self.old) }
        ensures numbers { AreNumbers (number_of self.new) (is_used self.new) }
        ensures keeps { (rows : Rows) → Keeps self.old rows → IsNowhere rows role.now → Keeps self.new rows }
        ensures freed { number_of self.new role.now ≡ None }
        ensures others { (other : Bytes) → number_of self.old other ≡ None → number_of self.new other ≡ None }
        ensures seeds { seeds_of self.new ≡ seeds_of self.old }
    {
        if let Some(number) = self.number(role) {
            let _ = self.numbers.take(role);
            self.used.take(number);
        }
    }

    // Makes the role of the second number a junior of that of the first.
    pub(crate) fn put_junior(
        &mut self,
        alloc: Global,
        senior: usize,
        junior: usize,
    ) -> Result<(), Refusal>
        requires senior { senior < WIDTH }
        requires junior { junior < WIDTH }
        ensures there { OnOk result (IsTrue (is_below self.new.juniors.items senior junior)) }
        ensures others { OnOk result ((i j : ℕ) → (i ≡ senior → j ≢ junior) → is_below self.new.juniors.items i j ≡ is_below self.old.juniors.items i j) }
        ensures turned { OnOk result (AreTurned self.old.juniors.items self.old.seniors.items → AreTurned self.new.juniors.items self.new.seniors.items) }
        ensures rest { OnOk result (self.new ≡ record self.old { juniors = self.new.juniors; seniors = self.new.seniors }) }
        ensures seeds { seeds_of self.new ≡ seeds_of self.old }
        ensures cause { IfErr result (λ refusal. refusal ≡ Refusal.Memory) }
    {
        put_bit(alloc, &mut self.juniors, senior, junior)?;
        put_bit(alloc, &mut self.seniors, junior, senior)?;
        Ok(())
    }

    // Makes the role of the second number no junior of that of the first.
    pub(crate) fn take_junior(&mut self, senior: usize, junior: usize)
        requires senior { senior < WIDTH }
        requires junior { junior < WIDTH }
        ensures gone { is_below self.new.juniors.items senior junior ≡ false }
        ensures others { (i j : ℕ) → (i ≡ senior → j ≢ junior) → is_below self.new.juniors.items i j ≡ is_below self.old.juniors.items i j }
        ensures turned { AreTurned self.old.juniors.items self.old.seniors.items → AreTurned self.new.juniors.items self.new.seniors.items }
        ensures rest { self.new ≡ record self.old { juniors = self.new.juniors; seniors = self.new.seniors } }
    {
        take_bit(&mut self.juniors, senior, junior);
        take_bit(&mut self.seniors, junior, senior);
    }
}

// Puts the second number into the row of the first.
fn put_bit(
    alloc: Global,
    rows: &mut Vec<BitRow>,
    first: usize,
    second: usize,
) -> Result<(), Refusal>
    requires { second < WIDTH }
    ensures there { OnOk result (IsTrue (is_below rows.new.items first second)) }
    ensures others { OnOk result ((i j : ℕ) → (i ≡ first → j ≢ second) → is_below rows.new.items i j ≡ is_below rows.old.items i j) }
    ensures cause { IfErr result (λ refusal. refusal ≡ Refusal.Memory) }
{
    reach(alloc, rows, first)?;
    rows[first].put(second)?;
    Ok(())
}

// Takes the second number out of the row of the first.
fn take_bit(rows: &mut Vec<BitRow>, first: usize, second: usize)
    requires { second < WIDTH }
    ensures gone { is_below rows.new.items first second ≡ false }
    ensures others { (i j : ℕ) → (i ≡ first → j ≢ second) → is_below rows.new.items i j ≡ is_below rows.old.items i j }
{
    if first < rows.len() {
        rows[first].take(second);
    }
}

// Appends empty rows until there is one of this number.
pub(crate) fn reach(alloc: Global, rows: &mut Vec<BitRow>, number: usize) -> Result<(), Refusal>
    ensures within { OnOk result (number < vec_len rows.new) }
    ensures same { OnOk result ((i j : ℕ) → is_below rows.new.items i j ≡ is_below rows.old.items i j) }
    ensures cause { IfErr result (λ refusal. refusal ≡ Refusal.Memory) }
{
    while rows.len() <= number {
        rows.push(BitRow::new(alloc))?;
    }
    Ok(())
}
