//! Reads the rows of a table one at a time, however the table was created.
ghost use Rattle.std.specs.Prelude.{◌≡◌, ◌⊎◌, ◌∷◌, [], false, true, IsSome, IsTrue, IfOk, IfErr, OnOk};
ghost use Rattle.sqlite.specs.State.{HasCleanDisk, KeepsCommit, Survives};
ghost use Rattle.sqlite.specs.Held.{state};
ghost use Rattle.role_tables.specs.private.Texts.{read_text};
ghost use Rattle.role_tables.specs.TableContents.{is_well_typed, has_names, row_in};
ghost use Rattle.role_tables.specs.private.NamedTables.{RefusesRow, HasTable};
ghost use Rattle.role_tables.specs.private.GatheredRows.{IsOfRows, Gathers, ReadsTable};
ghost use Rattle.role_tables.specs.OpeningChecks.{IsMemoryOrStore};

use crate::stored_table::StoredTable;
use crate::values::{grant_of, lock_of, name_of, pair_of, set_of};
use rbac_sets::{Refusal, Row};
use sqlite::{Alter, Connection};
use std::alloc::Global;

/// The rows so far, and whether each passed check 1 and check 2.
#[derive(Drop)]
pub(crate) struct Gathering {
    pub(crate) rows: Vec<Row>,
    pub(crate) is_well_typed: bool,
    pub(crate) is_named: bool,
}

// The row that has these values.
fn row_of(alloc: Global, table: StoredTable, row: &sqlite::Row) -> Result<Row, Refusal>
    requires { IsOfRows table }
    ensures ok { IfOk result (λ made. (made ≡ row_in table row.now) × IsTrue (is_well_typed table row.now) × IsTrue (has_names table row.now)) }
    ensures err { IfErr result (RefusesRow table row.now) }
{
    match table {
        StoredTable::Meta => unreachable!(),
        StoredTable::Names => name_of(alloc, row),
        StoredTable::Pairs => pair_of(alloc, row),
        StoredTable::Grants => grant_of(alloc, row),
        StoredTable::Sets => set_of(alloc, row),
        StoredTable::Locks => lock_of(alloc, row),
    }
}

// Judges the values of one row, and keeps the row while all rows have passed.
fn gather_row(
    alloc: Global,
    table: StoredTable,
    row: &sqlite::Row,
    into: &mut Gathering,
) -> Result<(), Refusal>
    requires { IsOfRows table }
    ensures gathered { OnOk result (Gathers table (row.now ∷ []) into.old into.new) }
    ensures refused { IfErr result (λ refusal. refusal ≡ Refusal.Memory) }
{
    match row_of(alloc, table, row) {
        Ok(made) => {
            if into.is_well_typed && into.is_named {
                into.rows.push(made)?;
            }
            Ok(())
        }
        Err(Refusal::Damaged(1)) => {
            into.is_well_typed = false;
            Ok(())
        }
        Err(Refusal::Damaged(_)) => {
            into.is_named = false;
            Ok(())
        }
        Err(_) => Err(Refusal::Memory),
    }
}

/// Reads the table to its end, and gathers its rows.
pub(crate) fn read_table<S: Alter>(
    alloc: Global,
    conn: &mut Connection<S>,
    table: StoredTable,
    into: &mut Gathering,
) -> Result<(), Refusal>
    requires { IsOfRows table }
    ensures gathered { HasCleanDisk (state S.Store conn.new) → HasTable (state S.Store conn.old) table
        → OnOk result (ReadsTable (state S.Store conn.old) (state S.Store conn.new) table into.old into.new) }
    ensures refused { IfErr result IsMemoryOrStore }
    ensures mode { conn.old.in_transaction ≡ false → conn.new.in_transaction ≡ false }
    ensures kept { HasCleanDisk (state S.Store conn.new) → HasTable (state S.Store conn.old) table → KeepsCommit (state S.Store conn.old) (state S.Store conn.new) }
    ensures survives { Survives (state S.Store conn.old) (state S.Store conn.new) (λ _. HasTable (state S.Store conn.old) table → ⊥) }
{
    let Ok(mut rows) = conn.query(table.read_text(), &[]) else {
        return Err(Refusal::Store);
    };
    'rows: for _ in 0..u64::MAX {
        match rows.next() {
            Ok(Some(row)) => gather_row(alloc, table, row, into)?,
            Ok(None) => return Ok(()),
            Err(_) => return Err(Refusal::Store),
        }
    }
    Err(Refusal::Memory)
}
