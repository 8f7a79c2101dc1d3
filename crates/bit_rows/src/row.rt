//! A set of numbers as a row of bits.
ghost use Rattle.std.specs.Prelude.{◌≤◌, ℕ, vec_len};

use crate::words;
use std::alloc::{AllocError, Global};

/// The numbers of a set are below this one.
pub const WIDTH: usize = 8_192;

/// A set of numbers below `WIDTH`, with one bit for each. It takes as much memory as its greatest number needs.
#[derive(Drop)]
pub struct BitRow {
    words: Vec<u64>,
    ghost short: { vec_len words ≤ 128 },
}

impl BitRow {
    ghost use Rattle.std.specs.Prelude.{◌≡◌, ◌≢◌, ◌↔◌, ◌<◌, ◌&&◌, ◌||◌, IsTrue, true, false, IfSome, IfNone, IfOk, OnOk, OnErr};
    ghost use Rattle.bit_rows.specs.Rows.{has, HaveNumber, HaveNumberWithout};

    /// The empty set. It doesn't allocate.
    pub fn new(alloc: Global) -> BitRow
        ensures { (n : ℕ) → has result n ≡ false }
    {
        BitRow {
            words: Vec::new(alloc),
        }
    }

    /// Whether the number is in the set.
    pub fn has(&self, number: usize) -> bool
        ensures { result ≡ has self.now number }
    {
        words::has(&self.words, number)
    }

    /// Puts the number into the set, if it isn't there.
    ///
    /// # Errors
    ///
    /// `AllocError` if an allocation failed. The set stays the same.
    pub fn put(&mut self, number: usize) -> Result<(), AllocError>
        requires { number < WIDTH }
        ensures there { OnOk result (IsTrue (has self.new number)) }
        ensures others { (n : ℕ) → n ≢ number → has self.new n ≡ has self.old n }
        ensures same { OnErr result (has self.new number ≡ has self.old number) }
    {
        words::widen(&mut self.words, number / 64 + 1)?;
        words::put(&mut self.words, number);
        Ok(())
    }

    /// Takes the number out of the set, if it is there.
    pub fn take(&mut self, number: usize)
        ensures gone { has self.new number ≡ false }
        ensures others { (n : ℕ) → n ≢ number → has self.new n ≡ has self.old n }
    {
        if number / 64 < self.words.len() {
            words::take(&mut self.words, number);
        }
    }

    /// Whether the set is empty.
    pub fn is_empty(&self) -> bool
        ensures empty { IsTrue result → (n : ℕ) → has self.now n ≡ false }
        ensures some { result ≡ false → (n : ℕ) × IsTrue (has self.now n) }
    {
        self.next(0).is_none()
    }

    /// Whether the two sets have a number in common.
    pub fn meets(&self, other: &BitRow) -> bool
        ensures { IsTrue result ↔ HaveNumber self.now other.now }
    {
        words::meets(&self.words, &other.words)
    }

    /// Whether the two sets have a number in common that isn't in the third.
    pub fn meets_without(&self, other: &BitRow, without: &BitRow) -> bool
        ensures { IsTrue result ↔ HaveNumberWithout self.now other.now without.now }
    {
        words::meets_without(&self.words, &other.words, &without.words)
    }

    /// Puts the numbers of the other set into this one.
    ///
    /// # Errors
    ///
    /// `AllocError` if an allocation failed. The set stays the same.
    pub fn put_all(&mut self, other: &BitRow) -> Result<(), AllocError>
        ensures all { OnOk result ((n : ℕ) → has self.new n ≡ (has self.old n || has other.now n)) }
        ensures same { OnErr result ((n : ℕ) → has self.new n ≡ has self.old n) }
    {
        words::widen(&mut self.words, other.words.len())?;
        words::put_all(&mut self.words, &other.words);
        Ok(())
    }

    /// Puts the numbers that both other sets have into this one.
    ///
    /// # Errors
    ///
    /// `AllocError` if an allocation failed. The set stays the same.
    pub fn put_common(&mut self, a: &BitRow, b: &BitRow) -> Result<(), AllocError>
        ensures common { OnOk result ((n : ℕ) → has self.new n ≡ (has self.old n || (has a.now n && has b.now n))) }
        ensures same { OnErr result ((n : ℕ) → has self.new n ≡ has self.old n) }
    {
        words::widen(&mut self.words, words::shared(&a.words, &b.words))?;
        words::put_common(&mut self.words, &a.words, &b.words);
        Ok(())
    }

    /// The least number of the set that is at least `from`, or `None` if there is none.
    pub fn next(&self, from: usize) -> Option<usize>
        ensures some { IfSome result (λ n. (from ≤ n) × (n < WIDTH) × IsTrue (has self.now n) × ((m : ℕ) → from ≤ m → m < n → has self.now m ≡ false)) }
        ensures none { IfNone result ((n : ℕ) → from ≤ n → has self.now n ≡ false) }
    {
        words::next(&self.words, from)
    }

    /// A number below `WIDTH` that isn't in the set, or `None` if the set has all of them.
    pub fn first_absent(&self) -> Option<usize>
        ensures some { IfSome result (λ n. (n < WIDTH) × (has self.now n ≡ false)) }
        ensures none { IfNone result ((n : ℕ) → n < WIDTH → has self.now n ≡ true) }
    {
        if let Some(number) = words::first_absent(&self.words) {
            return Some(number);
        }
        let past = 64 * self.words.len();
        if past < WIDTH { Some(past) } else { None }
    }

    /// A set with the same numbers.
    ///
    /// # Errors
    ///
    /// `AllocError` if an allocation failed.
    pub fn copy(&self, alloc: Global) -> Result<BitRow, AllocError>
        ensures { IfOk result (λ row. (n : ℕ) → has row n ≡ has self.now n) }
    {
        Ok(BitRow {
            words: self.words.to_vec(alloc)?,
        })
    }
}
