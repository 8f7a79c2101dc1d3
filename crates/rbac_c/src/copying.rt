//! Texts and rows that are copied into the buffers of a caller.
ghost use Rattle.std.specs.Prelude.{◌≡◌, ◌≤◌, ◌+◌, ◌↔◌, IsTrue, length, take, drop, ◌++◌};
ghost use Rattle.role_lines.specs.RowParts.{parts_of};
ghost use Rattle.role_lines.specs.RowsLeft.{rows_left};
ghost use Rattle.role_lines.specs.StoredRow.{names_in};
ghost use Rattle.rbac_c.specs.Calls.{Copies, CopiesParts, CopiesSome, lengths_of};
ghost use Rattle.rbac_c.specs.private.Copied.{is_row_of};

use crate::calls::{DONE, RowLengths, SHORT};
use role_lines::{RowParts, TableRows};

// Copies a text into the buffer, if it is long enough, and writes the length of the text.
pub(crate) fn copy(text: &[u8], out: &mut [u8], count: &mut usize) -> u32
    ensures { Copies text.now out.old out.new count.new result }
{
    *count = text.len();
    if out.len() < text.len() {
        return SHORT;
    }
    out[..text.len()].copy_from_slice(text);
    DONE
}

// Copies a row.
pub(crate) fn copy_row(row: &RowParts<'_>, out: &mut [u8], lengths: &mut RowLengths) -> u32
    ensures { CopiesParts (parts_of row.now) (out.old, lengths.old) (out.new, lengths.new) result }
{
    *lengths = row_lengths(row);
    if !fits(row, out.len()) {
        return SHORT;
    }
    put_row(row, out, 0);
    DONE
}

// Copies these rows, as many as there are and as there is room for, and returns how many these are.
pub(crate) fn copy_rows(
    mut rows: TableRows<'_>,
    out: &mut [u8],
    lengths: &mut [RowLengths],
) -> usize
    ensures { CopiesSome (is_row_of (rows_left rows.entry)) 0 (out.old, lengths.old) (out.new, lengths.new) result }
{
    let mut at = 0;
    let mut count = 0;
    while count < lengths.len() {
        let Some(row) = rows.next() else {
            break;
        };
        if !fits(&row, out.len() - at) {
            break;
        }
        at = put_row(&row, out, at);
        lengths[count] = row_lengths(&row);
        count += 1;
    }
    count
}

// The lengths of the names of a row, and its number.
fn row_lengths(row: &RowParts<'_>) -> RowLengths
    ensures { result ≡ lengths_of (parts_of row.now) }
{
    RowLengths {
        first: row.first.len(),
        second: row.second.len(),
        third: row.third.len(),
        number: row.number,
    }
}

// Whether the names of a row are no longer than this.
fn fits(row: &RowParts<'_>, room: usize) -> bool
    ensures { IsTrue result ↔ (length (names_in (parts_of row.now)) ≤ room) }
{
    row.first.len() <= room
        && row.second.len() <= room - row.first.len()
        && row.third.len() <= room - row.first.len() - row.second.len()
}

// Puts the names of a row into the buffer, one after the other, from this place on, and returns the place after them.
fn put_row(row: &RowParts<'_>, out: &mut [u8], at: usize) -> usize
    requires { at + length (names_in (parts_of row.now)) ≤ length out.old }
    ensures end { result ≡ at + length (names_in (parts_of row.now)) }
    ensures names { take result out.new ≡ take at out.old ++ names_in (parts_of row.now) }
    ensures behind { drop result out.new ≡ drop result out.old }
{
    let second = put(row.first, out, at);
    let third = put(row.second, out, second);
    put(row.third, out, third)
}

// Puts a text into the buffer, from this place on, and returns the place after it.
fn put(text: &[u8], out: &mut [u8], at: usize) -> usize
    requires { at + length text.now ≤ length out.old }
    ensures end { result ≡ at + length text.now }
    ensures text { take result out.new ≡ take at out.old ++ text.now }
    ensures behind { drop result out.new ≡ drop result out.old }
{
    let end = at + text.len();
    out[at..end].copy_from_slice(text);
    end
}
