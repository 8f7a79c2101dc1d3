//! A row for each number.
ghost use Rattle.std.specs.Prelude.{◌≡◌, ◌↔◌, ◌⊎◌, ◌*◌, ◌<◌, ◌≤◌, ℕ, [], IsTrue, length, get_or, IfOk};
ghost use Rattle.bit_rows.specs.Rows.{has_bit};
ghost use Rattle.reach_bits.specs.Graph.{HasEdge, has_edge};
ghost use Rattle.reach_bits.specs.private.Closing.{AreWide};
ghost use Rattle.reach_bits.specs.private.Renewing.{IsOver};

use crate::row::Row;
use std::alloc::{AllocError, Global};

// A copy of the rows, with this many words each and a row for each number of these.
pub(crate) fn widened(alloc: Global, rows: &[Row], words: usize) -> Result<Vec<Row>, AllocError>
    requires words { words ≤ 128 }
    requires count { length rows.now ≤ 64 * words }
    requires widths { (n : ℕ) → n < length rows.now → length (get_or rows.now n []) ≤ words }
    ensures same { IfOk result (λ copy. (a b : ℕ) → has_edge copy.items a b ≡ has_edge rows.now a b) }
    ensures wide { IfOk result (λ copy. AreWide words copy.items) }
{
    let mut copy = Vec::new(alloc);
    copy.reserve(64 * words)?;
    for row in rows {
        copy.push(row.copy(alloc, words)?)?;
    }
    while copy.len() < 64 * words {
        copy.push(Row::empty(alloc, words)?)?;
    }
    Ok(copy)
}

// Whether `x` is `a`, or its row has `a`.
fn is_above(rows: &[Row], x: usize, a: usize) -> bool
    requires x { x < length rows.now }
    requires a { a < 64 * length (get_or rows.now x []) }
    ensures { IsTrue result ↔ ((x ≡ a) ⊎ HasEdge rows.now x a) }
{
    x == a || rows[x].has(a)
}

// Puts the numbers of `added` into the row of `a` and into each row that has `a`.
pub(crate) fn join(rows: &mut [Row], a: usize, added: &Row)
    requires wide { AreWide (length added.now) rows.old }
    requires within { a < length rows.old }
    ensures joined { (x y : ℕ) → HasEdge rows.new x y ↔ (HasEdge rows.old x y ⊎ (((x ≡ a) ⊎ HasEdge rows.old x a) × IsTrue (has_bit added.now y))) }
    ensures wide { AreWide (length added.now) rows.new }
{
    for x in 0..rows.len() {
        if is_above(rows, x, a) {
            rows[x].put_all(added);
        }
    }
}

// Makes `leading` the set of `a` and of the numbers whose rows have `a`.
pub(crate) fn put_leading(rows: &[Row], a: usize, leading: &mut Row)
    requires wide { AreWide (length leading.old) rows.now }
    requires within { a < length rows.now }
    ensures leading { (x : ℕ) → IsTrue (has_bit leading.new x) ↔ ((x ≡ a) ⊎ HasEdge rows.now x a) }
    ensures words { length leading.new ≡ length leading.old }
{
    leading.clear();
    for x in 0..rows.len() {
        if is_above(rows, x, a) {
            leading.put(x);
        }
    }
}

// Makes `made` the set of the numbers that these edges lead to, and of those that the rows of these have.
pub(crate) fn make_row(edges: &Row, rows: &[Row], made: &mut Row)
    requires wide { AreWide (length made.old) rows.now }
    requires edges { length edges.now ≡ length made.old }
    ensures made { (b : ℕ) → IsTrue (has_bit made.new b) ↔ IsOver edges.now rows.now b }
    ensures words { length made.new ≡ length made.old }
{
    made.clear();
    let mut from = 0;
    while let Some(k) = edges.next(from) {
        made.put_all(&rows[k]);
        made.put(k);
        from = k + 1;
    }
}
