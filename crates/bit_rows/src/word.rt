//! One word of a row: a set of numbers below 64.
ghost use Rattle.std.specs.Prelude.{◌≡◌, ◌≢◌, ◌↔◌, ◌+◌, ◌<◌, ◌≤◌, ◌*◌, ◌/◌, ◌^◌, ◌&&◌, ◌||◌, not, ℕ, IsTrue, IfSome, IfNone};
ghost use Rattle.std.specs.Int.{bit_at};
ghost use Rattle.bit_rows.specs.Rows.{HaveCommon, word_has};

/// Whether the two words have a bit in common.
pub fn meets(a: u64, b: u64) -> bool
    ensures { IsTrue result ↔ HaveCommon a b }
{
    a & b != 0
}

/// Whether the number is in the set.
pub fn has(word: u64, number: u32) -> bool
    requires { number < 64 }
    ensures { IsTrue result ↔ (bit_at word number ≡ 1) }
{
    (word >> number) & 1 == 1
}

/// The set with the number.
pub fn with(word: u64, number: u32) -> u64
    requires { number < 64 }
    ensures there { bit_at result number ≡ 1 }
    ensures others { (i : ℕ) → i ≢ number → bit_at result i ≡ bit_at word i }
{
    word | (1 << number)
}

/// The set without the number.
pub fn without(word: u64, number: u32) -> u64
    requires { number < 64 }
    ensures gone { bit_at result number ≡ 0 }
    ensures others { (i : ℕ) → i < 64 → i ≢ number → bit_at result i ≡ bit_at word i }
{
    word & !(1 << number)
}

/// The numbers of both sets.
pub fn union(a: u64, b: u64) -> u64
    ensures { (i : ℕ) → word_has result i ≡ (word_has a i || word_has b i) }
{
    a | b
}

/// The numbers of the first set that aren't in the second.
pub fn difference(a: u64, b: u64) -> u64
    ensures { (i : ℕ) → i < 64 → word_has result i ≡ (word_has a i && not (word_has b i)) }
{
    a & !b
}

/// The set with the numbers that both others have.
pub fn with_common(word: u64, a: u64, b: u64) -> u64
    ensures { (i : ℕ) → i < 64 → word_has result i ≡ (word_has word i || (word_has a i && word_has b i)) }
{
    word | (a & b)
}

/// The least number of the set that is at least `from`, or `None` if there is none.
pub fn next(word: u64, from: u32) -> Option<u32>
    requires { from < 64 }
    ensures some { IfSome result (λ n. (from ≤ n) × (n < 64) × (bit_at word n ≡ 1) × ((i : ℕ) → from ≤ i → i < n → bit_at word i ≡ 0)) }
    ensures none { IfNone result ((i : ℕ) → from ≤ i → bit_at word i ≡ 0) }
{
    let rest = word >> from;
    if rest == 0 {
        return None;
    }
    Some(from + rest.trailing_zeros())
}

/// The least number below 64 that isn't in the set, or `None` if the set has all of them.
pub fn first_absent(word: u64) -> Option<u32>
    ensures some { IfSome result (λ n. (n < 64) × (bit_at word n ≡ 0)) }
    ensures none { IfNone result ((i : ℕ) → i < 64 → bit_at word i ≡ 1) }
{
    if word == u64::MAX {
        return None;
    }
    Some(word.trailing_ones())
}
