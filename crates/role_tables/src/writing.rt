//! The changes of a plan, written in one transaction.
ghost use Rattle.std.specs.Prelude.{◌≡◌, false, OnOk};
ghost use Rattle.sqlite.specs.State.{HasCleanDisk, KeepsCommit, Survives};
ghost use Rattle.sqlite.specs.Held.{state};
ghost use Rattle.role_tables.specs.Durability.{ForgetsNoFault};
ghost use Rattle.role_tables.specs.private.TableChanges.{ChangesAll, WritesChanges};

use crate::statements::{is_settled, make_change};
use rbac_sets::Change;
use sqlite::{Alter, Connection, Error, Transaction};

// Makes the changes, one after the other.
fn make_changes<S: Alter>(tx: &mut Transaction<'_, S>, changes: &[Change]) -> Result<(), Error>
    ensures same_reference { tx.new.conn.ghost_name ≡ tx.old.conn.ghost_name }
    ensures changed { HasCleanDisk (state S.Store tx.new.conn.now) → OnOk result (ChangesAll (state S.Store tx.old.conn.now) (state S.Store tx.new.conn.now) changes.now) }
    ensures kept { HasCleanDisk (state S.Store tx.new.conn.now) → KeepsCommit (state S.Store tx.old.conn.now) (state S.Store tx.new.conn.now) }
    ensures survives { Survives (state S.Store tx.old.conn.now) (state S.Store tx.new.conn.now) (λ _. ⊥) }
{
    'changes: for change in changes {
        make_change(tx, change)?;
    }
    Ok(())
}

/// Makes the changes in one transaction.
pub(crate) fn write_changes<S: Alter>(
    conn: &mut Connection<S>,
    changes: &[Change],
) -> Result<(), Error>
    requires { conn.old.in_transaction ≡ false }
    ensures ended { conn.new.in_transaction ≡ false }
    ensures clean { ForgetsNoFault (state S.Store conn.old) (state S.Store conn.new) }
    ensures written { HasCleanDisk (state S.Store conn.new) → WritesChanges (state S.Store conn.old) (state S.Store conn.new) changes.now result }
{
    is_settled(conn);
    let mut tx = conn.transaction();
    make_changes(&mut tx, changes)?;
    tx.commit()
}
