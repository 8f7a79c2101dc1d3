//! A set of numbers as words, with 64 numbers in each. Words that aren't there have none.
ghost use Rattle.std.specs.Prelude.{◌≡◌, ◌≢◌, ◌↔◌, ◌*◌, ◌<◌, ◌≤◌, ◌&&◌, ◌||◌, ℕ, IsTrue, true, false, length, max, min, slice_index, vec_len, IfSome, IfNone, OnOk};
ghost use Rattle.bit_rows.specs.Rows.{has_bit};

use crate::word;
use std::alloc::AllocError;

// The word at this place, or one without numbers if there are fewer words.
fn word_at(words: &[u64], at: usize) -> u64
    ensures { result ≡ slice_index words.now at }
{
    match words.get(at) {
        Some(word) => *word,
        None => 0,
    }
}

// How many places have a word in both.
pub(crate) fn shared(a: &[u64], b: &[u64]) -> usize
    ensures { result ≡ min (length a.now) (length b.now) }
{
    if a.len() < b.len() { a.len() } else { b.len() }
}

/// Whether the number is one of them.
pub fn has(words: &[u64], number: usize) -> bool
    ensures { result ≡ has_bit words.now number }
{
    word::has(word_at(words, number / 64), (number % 64) as u32)
}

/// Puts the number among them.
pub fn put(words: &mut [u64], number: usize)
    requires { number < 64 * length words.old }
    ensures there { IsTrue (has_bit words.new number) }
    ensures others { (n : ℕ) → n ≢ number → has_bit words.new n ≡ has_bit words.old n }
{
    let at = number / 64;
    let word = words[at];
    words[at] = word::with(word, (number % 64) as u32);
}

/// Takes the number away, if it is one of them.
pub fn take(words: &mut [u64], number: usize)
    requires { number < 64 * length words.old }
    ensures gone { has_bit words.new number ≡ false }
    ensures others { (n : ℕ) → n ≢ number → has_bit words.new n ≡ has_bit words.old n }
{
    let at = number / 64;
    let word = words[at];
    words[at] = word::without(word, (number % 64) as u32);
}

// Appends words without numbers until there are this many. If an allocation fails, they have the same numbers.
pub(crate) fn widen(words: &mut Vec<u64>, count: usize) -> Result<(), AllocError>
    ensures wide { OnOk result (count ≤ vec_len words.new) }
    ensures most { vec_len words.new ≤ max count (vec_len words.old) }
    ensures same { (n : ℕ) → has_bit words.new.items n ≡ has_bit words.old.items n }
{
    let len = words.len();
    if len < count {
        words.reserve_exact(count - len)?;
    }
    while words.len() < count {
        words.push(0)?;
    }
    Ok(())
}

/// Puts the other numbers among them.
pub fn put_all(words: &mut [u64], others: &[u64])
    requires { length others.now ≤ length words.old }
    ensures { (n : ℕ) → has_bit words.new n ≡ (has_bit words.old n || has_bit others.now n) }
{
    for i in 0..others.len() {
        words[i] = word::union(words[i], others[i]);
    }
}

/// Puts the numbers that are in both others among them.
pub fn put_common(words: &mut [u64], a: &[u64], b: &[u64])
    requires { min (length a.now) (length b.now) ≤ length words.old }
    ensures { (n : ℕ) → has_bit words.new n ≡ (has_bit words.old n || (has_bit a.now n && has_bit b.now n)) }
{
    for i in 0..shared(a, b) {
        words[i] = word::with_common(words[i], a[i], b[i]);
    }
}

/// Whether some number is in both.
pub fn meets(a: &[u64], b: &[u64]) -> bool
    ensures { IsTrue result ↔ ((n : ℕ) × IsTrue (has_bit a.now n) × IsTrue (has_bit b.now n)) }
{
    for i in 0..shared(a, b) {
        if word::meets(a[i], b[i]) {
            return true;
        }
    }
    false
}

/// Whether some number is in both, and not in the third.
pub fn meets_without(a: &[u64], b: &[u64], without: &[u64]) -> bool
    ensures { IsTrue result ↔ ((n : ℕ) × IsTrue (has_bit a.now n) × IsTrue (has_bit b.now n) × (has_bit without.now n ≡ false)) }
{
    for i in 0..shared(a, b) {
        if word::meets(a[i], word::difference(b[i], word_at(without, i))) {
            return true;
        }
    }
    false
}

/// The least of them that is at least `from`, or `None` if there is none.
pub fn next(words: &[u64], from: usize) -> Option<usize>
    requires { length words.now ≤ 128 }
    ensures some { IfSome result (λ n. (from ≤ n) × (n < 64 * length words.now) × IsTrue (has_bit words.now n) × ((m : ℕ) → from ≤ m → m < n → has_bit words.now m ≡ false)) }
    ensures none { IfNone result ((n : ℕ) → from ≤ n → has_bit words.now n ≡ false) }
{
    let first = from / 64;
    if first >= words.len() {
        return None;
    }
    if let Some(bit) = word::next(words[first], (from % 64) as u32) {
        return Some(first * 64 + bit as usize);
    }
    for i in first + 1..words.len() {
        if let Some(bit) = word::next(words[i], 0) {
            return Some(i * 64 + bit as usize);
        }
    }
    None
}

/// A number for which there is a word and that isn't one of them, or `None` if there is none.
pub fn first_absent(words: &[u64]) -> Option<usize>
    requires { length words.now ≤ 128 }
    ensures some { IfSome result (λ n. (n < 64 * length words.now) × (has_bit words.now n ≡ false)) }
    ensures none { IfNone result ((n : ℕ) → n < 64 * length words.now → has_bit words.now n ≡ true) }
{
    for i in 0..words.len() {
        if let Some(bit) = word::first_absent(words[i]) {
            return Some(i * 64 + bit as usize);
        }
    }
    None
}
