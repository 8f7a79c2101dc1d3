//! The numbers of a row as words, beside what bit_rows has for these.
ghost use Rattle.std.specs.Prelude.{◌≡◌, ◌*◌, ◌<◌, ◌≤◌, ℕ, IsTrue, false, length, IfSome, IfNone};
ghost use Rattle.bit_rows.specs.Rows.{has_bit};

use crate::word;

// Takes all of them away.
pub(crate) fn clear(words: &mut [u64])
    ensures { (n : ℕ) → has_bit words.new n ≡ false }
{
    for i in 0..words.len() {
        words[i] = 0;
    }
}

// A number that is also one of the others, or `None` if there is none.
pub(crate) fn common(words: &[u64], others: &[u64]) -> Option<usize>
    requires most { length words.now ≤ 128 }
    requires same { length words.now ≡ length others.now }
    ensures some { IfSome result (λ n. (n < 64 * length words.now) × IsTrue (has_bit words.now n) × IsTrue (has_bit others.now n)) }
    ensures none { IfNone result ((n : ℕ) → IsTrue (has_bit words.now n) → has_bit others.now n ≡ false) }
{
    for i in 0..words.len() {
        if let Some(bit) = word::first_common(words[i], others[i]) {
            return Some(i * 64 + bit as usize);
        }
    }
    None
}
