//! A row of numbers.
ghost use Rattle.std.specs.Prelude.{◌≡◌, ◌≢◌, ◌↔◌, ◌*◌, ◌<◌, ◌≤◌, ◌||◌, ℕ, IsTrue, false, length, [], IfSome, IfNone, IfOk};
ghost use Rattle.bit_rows.specs.Rows.{has_bit};

use crate::words::{clear, common};
use bit_rows::words;
use std::alloc::{AllocError, Global};
use std::marker::Model;

/// A set of numbers, with one bit for each. In contracts the value is its words, and `has_bit` says which numbers these have.
#[derive(Drop)]
pub struct Row {
    words: Vec<u64>,
}

impl Model for Row {
    ghost use Rattle.std.specs.Prelude.{◌≤◌, ℕ, List, vec_len};

    ghost Value = { List ℕ };

    ghost view = { λ row. row.words.items };

    ghost invariant = { λ row. vec_len row.words ≤ 128 };
}

impl Row {
    // The row without words. It doesn't allocate.
    pub(crate) fn new(alloc: Global) -> Row
        ensures { result ≡ [] }
    {
        Row {
            words: Vec::new(alloc),
        }
    }

    // The empty set, with this many words.
    pub(crate) fn empty(alloc: Global, words: usize) -> Result<Row, AllocError>
        requires { words ≤ 128 }
        ensures empty { IfOk result (λ row. (n : ℕ) → has_bit row n ≡ false) }
        ensures words { IfOk result (λ row. length row ≡ words) }
    {
        Ok(Row {
            words: vec![in alloc; 0; words]?,
        })
    }

    // The same numbers, with this many words.
    pub(crate) fn copy(&self, alloc: Global, words: usize) -> Result<Row, AllocError>
        requires more { length self.now ≤ words }
        requires most { words ≤ 128 }
        ensures same { IfOk result (λ row. (n : ℕ) → has_bit row n ≡ has_bit self.now n) }
        ensures words { IfOk result (λ row. length row ≡ words) }
    {
        let mut row = Row::empty(alloc, words)?;
        row.put_all(self);
        Ok(row)
    }

    // How many words there are.
    pub(crate) fn word_count(&self) -> usize
        ensures { result ≡ length self.now }
    {
        self.words.len()
    }

    /// Whether the number is in the set.
    pub fn has(&self, number: usize) -> bool
        requires { number < 64 * length self.now }
        ensures { result ≡ has_bit self.now number }
    {
        words::has(&self.words, number)
    }

    /// The least number of the set that is at least `from`, or `None` if there is none.
    pub fn next(&self, from: usize) -> Option<usize>
        ensures low { IfSome result (λ n. n < 8192) }
        ensures some { IfSome result (λ n. (from ≤ n) × (n < 64 * length self.now) × IsTrue (has_bit self.now n) × ((m : ℕ) → from ≤ m → m < n → has_bit self.now m ≡ false)) }
        ensures none { IfNone result ((n : ℕ) → from ≤ n → has_bit self.now n ≡ false) }
    {
        words::next(&self.words, from)
    }

    // A number that is in both sets, or `None` if there is none.
    pub(crate) fn common(&self, other: &Row) -> Option<usize>
        requires { length self.now ≡ length other.now }
        ensures some { IfSome result (λ n. (n < 64 * length self.now) × IsTrue (has_bit self.now n) × IsTrue (has_bit other.now n)) }
        ensures none { IfNone result ((n : ℕ) → IsTrue (has_bit self.now n) → has_bit other.now n ≡ false) }
    {
        common(&self.words, &other.words)
    }

    // Puts the number into the set, if it isn't there.
    pub(crate) fn put(&mut self, number: usize)
        requires { number < 64 * length self.old }
        ensures there { IsTrue (has_bit self.new number) }
        ensures others { (n : ℕ) → n ≢ number → has_bit self.new n ≡ has_bit self.old n }
        ensures words { length self.new ≡ length self.old }
    {
        words::put(&mut self.words, number);
    }

    // Takes the number out of the set, if it is there.
    pub(crate) fn take(&mut self, number: usize)
        requires { number < 64 * length self.old }
        ensures gone { has_bit self.new number ≡ false }
        ensures others { (n : ℕ) → n ≢ number → has_bit self.new n ≡ has_bit self.old n }
        ensures words { length self.new ≡ length self.old }
    {
        words::take(&mut self.words, number);
    }

    // Takes all numbers out of the set.
    pub(crate) fn clear(&mut self)
        ensures empty { (n : ℕ) → has_bit self.new n ≡ false }
        ensures words { length self.new ≡ length self.old }
    {
        clear(&mut self.words);
    }

    // Puts the numbers of the other set into this one.
    pub(crate) fn put_all(&mut self, other: &Row)
        requires { length other.now ≤ length self.old }
        ensures both { (n : ℕ) → has_bit self.new n ≡ (has_bit self.old n || has_bit other.now n) }
        ensures words { length self.new ≡ length self.old }
    {
        words::put_all(&mut self.words, &other.words);
    }

    // Makes the set the other one.
    pub(crate) fn set(&mut self, other: &Row)
        requires { length self.old ≡ length other.now }
        ensures { self.new ≡ other.now }
    {
        self.words.copy_from_slice(&other.words);
    }
}
