//! Two words at once.
ghost use Rattle.std.specs.Prelude.{◌≡◌, ◌<◌, ℕ, IfSome, IfNone};
ghost use Rattle.std.specs.Int.{bit_at};
ghost use Rattle.bit_rows.specs.Rows.{HaveCommon};

use bit_rows::word;

// The least number that both words have, or `None` if there is none.
pub(crate) fn first_common(a: u64, b: u64) -> Option<u32>
    ensures some { IfSome result (λ n. (n < 64) × (bit_at a n ≡ 1) × (bit_at b n ≡ 1)) }
    ensures none { IfNone result (HaveCommon a b → ⊥) }
{
    word::next(a & b, 0)
}
