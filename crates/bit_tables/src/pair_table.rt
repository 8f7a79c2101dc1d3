//! Rows of bits by two names.
ghost use Rattle.std.specs.Prelude.{◌≡◌, ◌≢◌, ◌<◌, ◌≤◌, ℕ, IsTrue, false, length, OnOk, IfErr, IfSome, IfNone};
ghost use Rattle.rbac_sets.specs.Sets.{Bytes};
ghost use Rattle.bit_tables.specs.Tables.{are_names, has_pair, holds, joined, seed_of};

use crate::numbers::Numbers;
use crate::seed::Seed;
use crate::table::BitTable;
use arrayvec::ArrayString;
use bit_rows::WIDTH;
use rbac_sets::Refusal;
use std::alloc::Global;

/// The greatest length of a name, in bytes.
pub const LONGEST_NAME: usize = 64;

// The greatest length of two names and of a byte before them.
const LONGEST_KEY: usize = 2 * LONGEST_NAME + 1;

/// Rows of bits by two names, such as those of a permission.
#[derive(Drop)]
pub struct PairTable {
    // By the two names in one text. The length of the first name comes before them.
    rows: BitTable,
}

impl PairTable {
    /// A table without rows. It doesn't allocate.
    pub fn new(alloc: Global, seed: Seed) -> PairTable
        ensures empty { (first second : Bytes) (n : ℕ) → has_pair result first second n ≡ false }
        ensures seed { seed_of result.rows ≡ seed }
    {
        PairTable {
            rows: BitTable::new(alloc, seed),
        }
    }

    /// The row at the two names, if there is one. It doesn't allocate.
    pub fn row(&self, first: &str, second: &str) -> Option<&Numbers>
        ensures some { IfSome result (λ row. (n : ℕ) → holds row.now n ≡ has_pair self.now first.now second.now n) }
        ensures none { IfNone result ((n : ℕ) → has_pair self.now first.now second.now n ≡ false) }
    {
        if !are_names(first, second) {
            return None;
        }
        let key = joined(first, second);
        self.rows.row(key.as_str())
    }

    /// Puts the number into the row at the two names.
    ///
    /// # Errors
    ///
    /// `Memory` if an allocation failed.
    pub fn put(
        &mut self,
        alloc: Global,
        first: &str,
        second: &str,
        number: usize,
    ) -> Result<(), Refusal>
        requires first { length first.now ≤ LONGEST_NAME }
        requires second { length second.now ≤ LONGEST_NAME }
        requires number { number < WIDTH }
        ensures there { OnOk result (IsTrue (has_pair self.new first.now second.now number)) }
        ensures others { OnOk result ((a b : Bytes) (n : ℕ) → (a ≡ first.now → b ≡ second.now → n ≢ number) → has_pair self.new a b n ≡ has_pair self.old a b n) }
        ensures seed { seed_of self.new.rows ≡ seed_of self.old.rows }
        ensures cause { IfErr result (λ refusal. refusal ≡ Refusal.Memory) }
    {
        let key = joined(first, second);
        self.rows.put(alloc, key.as_str(), number)?;
        Ok(())
    }

    /// Takes the number out of the row at the two names, if it is there.
    ///
    /// # Errors
    ///
    /// `Memory` if an allocation failed.
    pub fn take(&mut self, first: &str, second: &str, number: usize) -> Result<(), Refusal>
        requires { number < WIDTH }
        ensures gone { OnOk result (has_pair self.new first.now second.now number ≡ false) }
        ensures others { OnOk result ((a b : Bytes) (n : ℕ) → (a ≡ first.now → b ≡ second.now → n ≢ number) → has_pair self.new a b n ≡ has_pair self.old a b n) }
        ensures seed { seed_of self.new.rows ≡ seed_of self.old.rows }
        ensures cause { IfErr result (λ refusal. refusal ≡ Refusal.Memory) }
    {
        if !are_names(first, second) {
            return Ok(());
        }
        let key = joined(first, second);
        self.rows.take(key.as_str(), number)?;
        Ok(())
    }

    /// Gives back the memory that no row uses.
    pub fn fit(&mut self)
        ensures same { (first second : Bytes) (n : ℕ) → has_pair self.new first second n ≡ has_pair self.old first second n }
        ensures seed { seed_of self.new.rows ≡ seed_of self.old.rows }
    {
        self.rows.fit();
    }
}

// Whether both texts are no longer than a name can be. There is no row for others.
fn are_names(first: &str, second: &str) -> bool
    ensures { result ≡ are_names first.now second.now }
{
    first.len() <= LONGEST_NAME && second.len() <= LONGEST_NAME
}

// The two names in one text, with the length of the first before them. No other two names have this text.
fn joined(first: &str, second: &str) -> ArrayString<LONGEST_KEY>
    requires first { length first.now ≤ LONGEST_NAME }
    requires second { length second.now ≤ LONGEST_NAME }
    ensures { result.bytes ≡ joined first.now second.now }
{
    let mut key = ArrayString::new();
    key.push(char::from(first.len() as u8));
    key.push_str(first);
    key.push_str(second);
    key
}
