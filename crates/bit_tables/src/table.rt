//! Rows of bits by name.
ghost use Rattle.std.specs.Prelude.{◌≡◌, ◌≢◌, ◌<◌, ℕ, IsTrue, false, Some, OnOk, IfErr, IfSome, IfNone, string_bytes};
ghost use Rattle.std.specs.HashMap.{get_by_text};
ghost use Rattle.std.specs.Map.{update};
ghost use Rattle.std.specs.Str.{bytes_eq};
ghost use Rattle.rbac_sets.specs.Sets.{Bytes};
ghost use Rattle.bit_tables.specs.Tables.{HasNoEmptyRow, has_at, holds, seed_of};

use crate::numbers::Numbers;
use crate::seed::Seed;
use bit_rows::WIDTH;
use rbac_sets::Refusal;
use std::alloc::Global;
use std::collections::HashMap;

/// Rows of bits by name. A name whose row would be empty has none. A row of few numbers takes little memory.
#[derive(Drop)]
pub struct BitTable {
    rows: HashMap<String, Numbers, Seed>,
}

impl BitTable {
    /// A table without rows. It doesn't allocate.
    pub fn new(alloc: Global, seed: Seed) -> BitTable
        ensures empty { (name : Bytes) (n : ℕ) → has_at result name n ≡ false }
        ensures seed { seed_of result ≡ seed }
    {
        BitTable {
            rows: HashMap::with_hasher(alloc, seed),
        }
    }

    /// The row at the name, if there is one. It doesn't allocate.
    pub fn row(&self, name: &str) -> Option<&Numbers>
        ensures some { IfSome result (λ row. (n : ℕ) → holds row.now n ≡ has_at self.now name.now n) }
        ensures none { IfNone result ((n : ℕ) → has_at self.now name.now n ≡ false) }
    {
        self.rows.get(name)
    }

    /// Puts the number into the row at the name.
    ///
    /// # Errors
    ///
    /// `Memory` if an allocation failed.
    pub fn put(&mut self, alloc: Global, name: &str, number: usize) -> Result<(), Refusal>
        requires { number < WIDTH }
        ensures there { OnOk result (IsTrue (has_at self.new name.now number)) }
        ensures others { OnOk result ((other : Bytes) (n : ℕ) → (other ≡ name.now → n ≢ number) → has_at self.new other n ≡ has_at self.old other n) }
        ensures seed { seed_of self.new ≡ seed_of self.old }
        ensures cause { IfErr result (λ refusal. refusal ≡ Refusal.Memory) }
    {
        let (key, numbers) = match self.rows.remove_entry(name) {
            Some(entry) => entry,
            None => (String::from_str(alloc, name)?, Numbers::new()),
        };
        let numbers = numbers.with(alloc, number)?;
        self.put_back(key, numbers)?;
        Ok(())
    }

    /// Takes the number out of the row at the name, if it is there. If no number is left, the table forgets the name.
    ///
    /// # Errors
    ///
    /// `Memory` if an allocation failed.
    pub fn take(&mut self, name: &str, number: usize) -> Result<(), Refusal>
        requires { number < WIDTH }
        ensures gone { OnOk result (has_at self.new name.now number ≡ false) }
        ensures others { OnOk result ((other : Bytes) (n : ℕ) → (other ≡ name.now → n ≢ number) → has_at self.new other n ≡ has_at self.old other n) }
        ensures forgets { OnOk result (HasNoEmptyRow self.new name.now) }
        ensures seed { seed_of self.new ≡ seed_of self.old }
        ensures cause { IfErr result (λ refusal. refusal ≡ Refusal.Memory) }
    {
        if let Some((key, numbers)) = self.rows.remove_entry(name) {
            let numbers = numbers.without(number);
            if !numbers.is_empty() {
                self.put_back(key, numbers)?;
            }
        }
        Ok(())
    }

    // Puts back an entry that was taken out.
    fn put_back(&mut self, key: String, numbers: Numbers) -> Result<(), Refusal>
        ensures ok { OnOk result ((name : Bytes) → get_by_text self.new.rows name ≡ update bytes_eq (get_by_text self.old.rows) (string_bytes key) (Some numbers) name) }
        ensures seed { seed_of self.new ≡ seed_of self.old }
        ensures cause { IfErr result (λ refusal. refusal ≡ Refusal.Memory) }
    {
        self.rows.insert(key, numbers)?;
        Ok(())
    }

    /// Gives back the memory that no row uses.
    pub fn fit(&mut self)
        ensures same { (name : Bytes) (n : ℕ) → has_at self.new name n ≡ has_at self.old name n }
        ensures seed { seed_of self.new ≡ seed_of self.old }
    {
        self.rows.shrink_to_fit();
    }
}
