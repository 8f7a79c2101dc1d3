//! Making rows anew after an edge was removed.
ghost use Rattle.std.specs.Prelude.{◌≡◌, ◌↔◌, ◌*◌, ◌<◌, ◌≤◌, ℕ, IsTrue, false, length, IfSome, IfNone};
ghost use Rattle.bit_rows.specs.Rows.{has_bit};
ghost use Rattle.reach_bits.specs.Graph.{HasEdge, Leads, has_edge};
ghost use Rattle.reach_bits.specs.private.Closing.{AreWide, IsRight};
ghost use Rattle.reach_bits.specs.private.Renewing.{IsPartlyRight};

use crate::row::Row;
use crate::rows::make_row;

// Goes from `start`, which is pending, to a pending number in its row, from there to one in that number's row, and so on, to one
// whose row has no pending number. For each of them `back` says which one came before it.
fn descend(rows: &[Row], pending: &Row, back: &mut [usize], start: usize) -> usize
    requires wide { AreWide (length pending.now) rows.now }
    requires most { length pending.now ≤ 128 }
    requires back { length back.old ≡ length rows.now }
    requires start { IsTrue (has_bit pending.now start) }
    requires falls { (a k b : ℕ) → IsTrue (has_bit pending.now a) → IsTrue (has_bit pending.now k) → HasEdge rows.now a k → HasEdge rows.now k b → HasEdge rows.now a b }
    requires acyclic { (a : ℕ) → IsTrue (has_bit pending.now a) → HasEdge rows.now a a → ⊥ }
    ensures within { result < length rows.now }
    ensures pending { IsTrue (has_bit pending.now result) }
    ensures last { (k : ℕ) → HasEdge rows.now result k → has_bit pending.now k ≡ false }
{
    let mut at = start;
    while let Some(k) = rows[at].common(pending) {
        back[k] = at;
        at = k;
    }
    at
}

// The number `hint` if it is pending, or another that is, or `None` if there is none.
fn resume(pending: &Row, hint: usize) -> Option<usize>
    ensures some { IfSome result (λ n. IsTrue (has_bit pending.now n)) }
    ensures none { IfNone result ((n : ℕ) → has_bit pending.now n ≡ false) }
{
    if hint / 64 < pending.word_count() && pending.has(hint) {
        return Some(hint);
    }
    pending.next(0)
}

// Makes the rows of the pending numbers anew, each after those that it leads to. `made` is the row in the making, and `back` tells
// where to go on after each of them.
pub(crate) fn settle(
    edges: &[Row],
    rows: &mut [Row],
    pending: &mut Row,
    made: &mut Row,
    back: &mut [usize],
)
    requires edges { AreWide (length pending.old) edges.now }
    requires wide { AreWide (length pending.old) rows.old }
    requires most { length pending.old ≤ 128 }
    requires made { length made.old ≡ length pending.old }
    requires back { length back.old ≡ length rows.old }
    requires partly { IsPartlyRight edges.now rows.old pending.old }
    ensures right { (a : ℕ) → IsRight edges.now rows.new a }
    ensures wide { AreWide (length pending.old) rows.new }
    ensures pending { length pending.new ≡ length pending.old }
    ensures made { length made.new ≡ length pending.old }
{
    let mut next = pending.next(0);
    while let Some(start) = next {
        let at = descend(rows, pending, back, start);
        make_row(&edges[at], rows, made);
        rows[at].set(made);
        pending.take(at);
        next = resume(pending, back[at]);
    }
}
