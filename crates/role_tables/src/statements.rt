//! The statements that write, inside a transaction. Each is one call of the database.
ghost use Rattle.std.specs.Prelude.{◌≡◌, ◌∷◌, [], false, IsTrue, OnOk};
ghost use Rattle.rbac_sets.specs.Named.{row_of};
ghost use Rattle.sqlite.specs.State.{HasCleanDisk, KeepsCommit, Survives};
ghost use Rattle.sqlite.specs.Held.{state};
ghost use Rattle.sqlite.specs.Values.{bound};
ghost use Rattle.role_tables.specs.private.CreationSteps.{StageAfter, InsertsVersion};
ghost use Rattle.role_tables.specs.private.Transactions.{DeletesVersion};
ghost use Rattle.role_tables.specs.StoredState.{cells_of};
ghost use Rattle.role_tables.specs.private.Texts.{change_text};
ghost use Rattle.role_tables.specs.private.TableChanges.{ChangesTables};

use crate::stored_table::StoredTable;
use rbac_sets::{Change, Row};
use sqlite::types::ValueRef;
use sqlite::{Alter, Connection, Error, Transaction, params};

/// The tag of the row that marks a file as an office.
const TAG: &str = "rbac";

/// A law for proofs: an open connection outside a transaction holds what was committed.
pub(crate) fn is_settled<S: Alter>(conn: &Connection<S>)
    ensures { (state S.Store conn.now).in_transaction ≡ false → IsTrue (state S.Store conn.now).is_open → (state S.Store conn.now).now ≡ (state S.Store conn.now).committed }
{
    conn.is_autocommit();
}

/// Creates a table.
pub(crate) fn create_table<S: Alter>(
    tx: &mut Transaction<'_, S>,
    table: StoredTable,
) -> Result<usize, Error>
    ensures same_reference { tx.new.conn.ghost_name ≡ tx.old.conn.ghost_name }
    ensures made { HasCleanDisk (state S.Store tx.new.conn.now) → OnOk result (StageAfter (state S.Store tx.old.conn.now) (state S.Store tx.new.conn.now) (table ∷ [])) }
    ensures kept { HasCleanDisk (state S.Store tx.new.conn.now) → KeepsCommit (state S.Store tx.old.conn.now) (state S.Store tx.new.conn.now) }
    ensures survives { Survives (state S.Store tx.old.conn.now) (state S.Store tx.new.conn.now) (λ _. ⊥) }
{
    tx.execute(table.create_text(), &[])
}

/// Inserts the row of `meta_row` with this version.
pub(crate) fn insert_version<S: Alter>(
    tx: &mut Transaction<'_, S>,
    version: u32,
) -> Result<usize, Error>
    ensures same_reference { tx.new.conn.ghost_name ≡ tx.old.conn.ghost_name }
    ensures put { HasCleanDisk (state S.Store tx.new.conn.now) → OnOk result (InsertsVersion version (state S.Store tx.old.conn.now) (state S.Store tx.new.conn.now)) }
    ensures kept { HasCleanDisk (state S.Store tx.new.conn.now) → KeepsCommit (state S.Store tx.old.conn.now) (state S.Store tx.new.conn.now) }
    ensures survives { Survives (state S.Store tx.old.conn.now) (state S.Store tx.new.conn.now) (λ _. ⊥) }
{
    tx.execute(StoredTable::Meta.insert_text(), params![TAG, version])
}

/// Deletes that row.
pub(crate) fn delete_version<S: Alter>(
    tx: &mut Transaction<'_, S>,
    version: u32,
) -> Result<usize, Error>
    ensures same_reference { tx.new.conn.ghost_name ≡ tx.old.conn.ghost_name }
    ensures taken { HasCleanDisk (state S.Store tx.new.conn.now) → OnOk result (DeletesVersion version (state S.Store tx.old.conn.now) (state S.Store tx.new.conn.now)) }
    ensures kept { HasCleanDisk (state S.Store tx.new.conn.now) → KeepsCommit (state S.Store tx.old.conn.now) (state S.Store tx.new.conn.now) }
    ensures survives { Survives (state S.Store tx.old.conn.now) (state S.Store tx.new.conn.now) (λ _. ⊥) }
{
    tx.execute(StoredTable::Meta.delete_text(), params![TAG, version])
}

// The statement that makes a change.
fn change_text(change: &Change) -> &'static str
    ensures { result.now ≡ change_text change.now }
{
    match change {
        Change::Put(row) => StoredTable::of_row(row).insert_text(),
        Change::Take(row) => StoredTable::of_row(row).delete_text(),
    }
}

// Makes a change of the row that has these values.
fn change_values<S: Alter>(
    tx: &mut Transaction<'_, S>,
    change: &Change,
    values: &[ValueRef<'_>],
) -> Result<usize, Error>
    requires { bound values.now ≡ cells_of (row_of change.now) }
    ensures same_reference { tx.new.conn.ghost_name ≡ tx.old.conn.ghost_name }
    ensures changed { HasCleanDisk (state S.Store tx.new.conn.now) → OnOk result (ChangesTables (state S.Store tx.old.conn.now) (state S.Store tx.new.conn.now) change.now) }
    ensures kept { HasCleanDisk (state S.Store tx.new.conn.now) → KeepsCommit (state S.Store tx.old.conn.now) (state S.Store tx.new.conn.now) }
    ensures survives { Survives (state S.Store tx.old.conn.now) (state S.Store tx.new.conn.now) (λ _. ⊥) }
{
    tx.execute(change_text(change), values)
}

/// Inserts or deletes the row of a change.
pub(crate) fn make_change<S: Alter>(
    tx: &mut Transaction<'_, S>,
    change: &Change,
) -> Result<usize, Error>
    ensures same_reference { tx.new.conn.ghost_name ≡ tx.old.conn.ghost_name }
    ensures changed { HasCleanDisk (state S.Store tx.new.conn.now) → OnOk result (ChangesTables (state S.Store tx.old.conn.now) (state S.Store tx.new.conn.now) change.now) }
    ensures kept { HasCleanDisk (state S.Store tx.new.conn.now) → KeepsCommit (state S.Store tx.old.conn.now) (state S.Store tx.new.conn.now) }
    ensures survives { Survives (state S.Store tx.old.conn.now) (state S.Store tx.new.conn.now) (λ _. ⊥) }
{
    let (Change::Put(row) | Change::Take(row)) = change;
    match row {
        Row::NameRow(kind, name) => {
            change_values(tx, change, params![*kind as u32, name.as_str()])
        }
        Row::PairRow(kind, first, second) => change_values(
            tx,
            change,
            params![*kind as u32, first.as_str(), second.as_str()],
        ),
        Row::GrantRow(object, operation, role) => change_values(
            tx,
            change,
            params![object.as_str(), operation.as_str(), role.as_str()],
        ),
        Row::SetRow(kind, set, cardinality) => change_values(
            tx,
            change,
            params![*kind as u32, set.as_str(), *cardinality],
        ),
        Row::LockedRow(user) => change_values(tx, change, params![user.as_str()]),
    }
}
