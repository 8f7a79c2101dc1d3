//! Creates an empty office.
ghost use Rattle.std.specs.Prelude.{◌≡◌, ◌⊎◌, ◌&&◌, [], false, true, not, IfErr, IfOk, MatchResult, OnOk};
ghost use Rattle.admin_mgr.specs.RbacState.{empty_state};
ghost use Rattle.sqlite.specs.State.{HasCleanDisk, KeepsCommit, Survives};
ghost use Rattle.sqlite.specs.Held.{state};
ghost use Rattle.role_tables.specs.Creation.{CreatesOffice, MayCreate};
ghost use Rattle.role_tables.specs.private.CreationSteps.{IsFirstStage, StageAfter};
ghost use Rattle.role_tables.specs.Runs.{IsInRun};
ghost use Rattle.role_tables.specs.Durability.{ForgetsNoFault, HoldsAsBefore, LeavesBeforeOr, StaysOutside};
ghost use Rattle.role_tables.specs.private.Transactions.{TransactsTo};

use crate::office::Office;
use crate::opening::{Unopened, give_up};
use crate::schema::may_create;
use crate::statements::{create_table, insert_version, is_settled};
use crate::stored_table::StoredTable;
use admin_mgr::State;
use rbac_sets::Refusal;
use sqlite::{Alter, Connection, Error, Transaction};
use std::alloc::Global;

// Creates the tables, one after the other.
fn create_tables<S: Alter>(tx: &mut Transaction<'_, S>, tables: &[StoredTable]) -> Result<(), Error>
    ensures same_reference { tx.new.conn.ghost_name ≡ tx.old.conn.ghost_name }
    ensures made { HasCleanDisk (state S.Store tx.new.conn.now) → OnOk result (StageAfter (state S.Store tx.old.conn.now) (state S.Store tx.new.conn.now) tables.now) }
    ensures kept { HasCleanDisk (state S.Store tx.new.conn.now) → KeepsCommit (state S.Store tx.old.conn.now) (state S.Store tx.new.conn.now) }
    ensures survives { Survives (state S.Store tx.old.conn.now) (state S.Store tx.new.conn.now) (λ _. ⊥) }
{
    'tables: for table in tables {
        create_table(tx, *table)?;
    }
    Ok(())
}

// Creates the tables of an empty office of this version, in one transaction.
fn create_office<S: Alter>(conn: &mut Connection<S>, version: u32) -> Result<(), Error>
    requires known { (version ≡ 1) ⊎ (version ≡ 2) }
    requires autocommit { conn.old.in_transaction ≡ false }
    ensures ended { conn.new.in_transaction ≡ false }
    ensures clean { ForgetsNoFault (state S.Store conn.old) (state S.Store conn.new) }
    ensures made { HasCleanDisk (state S.Store conn.new) → IsFirstStage version (state S.Store conn.old) →
        TransactsTo (state S.Store conn.old) (state S.Store conn.new) (empty_state version) result }
{
    is_settled(conn);
    let mut tx = conn.transaction();
    create_tables(&mut tx, StoredTable::of_version(version))?;
    insert_version(&mut tx, version)?;
    tx.commit()
}

// Creates an empty office with this state.
fn create_with<S: Alter>(conn: Connection<S>, first: State) -> Result<Office<S>, Unopened<S>>
    requires empty { first.facts ≡ empty_state first.facts.version }
    ensures ok { IfOk result (λ o. (o.facts ≡ first.facts) × (o.is_closed ≡ false) × CreatesOffice (state S.Store conn) (state S.Store o.conn) first.facts) }
    ensures clean { MatchResult result (λ o. ForgetsNoFault (state S.Store conn) (state S.Store o.conn)) (λ u. ForgetsNoFault (state S.Store conn) (state S.Store u.conn)) }
    ensures run { IfOk result (λ o. IsInRun (state S.Store) first.facts [] o) }
    ensures err { IfErr result (λ u. u.refusal ≡ Refusal.Store) }
    ensures untouched { IfErr result (λ u. (MayCreate first.facts.version (state S.Store conn) → ⊥) → u.conn ≡ conn) }
    ensures outside { IfErr result (λ u. StaysOutside (state S.Store conn) (state S.Store u.conn)) }
    ensures undone { IfErr result (λ u. HasCleanDisk (state S.Store u.conn) → HoldsAsBefore (state S.Store conn) (state S.Store u.conn)) }
    ensures crash { IfErr result (λ u. HasCleanDisk (state S.Store u.conn) → LeavesBeforeOr (state S.Store conn) (state S.Store u.conn) first.facts) }
{
    let mut conn = conn;
    let version = first.version();
    if !conn.is_autocommit() || !may_create(conn.schema(), version) {
        return Err(Unopened {
            refusal: give_up(first, Refusal::Store),
            conn,
        });
    }
    match create_office(&mut conn, version) {
        Ok(()) => Ok(Office::new(conn, first)),
        Err(_) => Err(Unopened {
            refusal: give_up(first, Refusal::Store),
            conn,
        }),
    }
}

/// Creates an empty office of version 2 on a connection outside a transaction. Whatever else the
/// database has stays as it is. `alloc` is the allocator of the office's state.
///
/// It is a function of this office and none of the standard.
///
/// # Errors
///
/// `Store` if the connection is inside a transaction; if the database has a table of an office or a
/// foreign key that names one; if a table counts its rowids (AUTOINCREMENT) and the database has no table
/// `sqlite_sequence` for the counts; or if the store fails in a call. The connection is handed back with
/// what it held before. A crash then leaves what it could leave before, or the new office.
pub fn create<S: Alter>(alloc: Global, conn: Connection<S>) -> Result<Office<S>, Unopened<S>>
    ensures ok { IfOk result (λ o. (o.facts ≡ empty_state 2) × (o.is_closed ≡ false) × CreatesOffice (state S.Store conn) (state S.Store o.conn) (empty_state 2)) }
    ensures clean { MatchResult result (λ o. ForgetsNoFault (state S.Store conn) (state S.Store o.conn)) (λ u. ForgetsNoFault (state S.Store conn) (state S.Store u.conn)) }
    ensures run { IfOk result (λ o. IsInRun (state S.Store) (empty_state 2) [] o) }
    ensures err { IfErr result (λ u. u.refusal ≡ Refusal.Store) }
    ensures untouched { IfErr result (λ u. (MayCreate 2 (state S.Store conn) → ⊥) → u.conn ≡ conn) }
    ensures outside { IfErr result (λ u. StaysOutside (state S.Store conn) (state S.Store u.conn)) }
    ensures undone { IfErr result (λ u. HasCleanDisk (state S.Store u.conn) → HoldsAsBefore (state S.Store conn) (state S.Store u.conn)) }
    ensures crash { IfErr result (λ u. HasCleanDisk (state S.Store u.conn) → LeavesBeforeOr (state S.Store conn) (state S.Store u.conn) (empty_state 2)) }
{
    create_with(conn, State::empty(alloc))
}

/// Creates an empty office of version 1, as `create` does one of version 2.
///
/// # Errors
///
/// As `create`, except that a table of locks may be there: an office of version 1 has none.
pub fn create_v1<S: Alter>(alloc: Global, conn: Connection<S>) -> Result<Office<S>, Unopened<S>>
    ensures ok { IfOk result (λ o. (o.facts ≡ empty_state 1) × (o.is_closed ≡ false) × CreatesOffice (state S.Store conn) (state S.Store o.conn) (empty_state 1)) }
    ensures clean { MatchResult result (λ o. ForgetsNoFault (state S.Store conn) (state S.Store o.conn)) (λ u. ForgetsNoFault (state S.Store conn) (state S.Store u.conn)) }
    ensures run { IfOk result (λ o. IsInRun (state S.Store) (empty_state 1) [] o) }
    ensures err { IfErr result (λ u. u.refusal ≡ Refusal.Store) }
    ensures untouched { IfErr result (λ u. (MayCreate 1 (state S.Store conn) → ⊥) → u.conn ≡ conn) }
    ensures outside { IfErr result (λ u. StaysOutside (state S.Store conn) (state S.Store u.conn)) }
    ensures undone { IfErr result (λ u. HasCleanDisk (state S.Store u.conn) → HoldsAsBefore (state S.Store conn) (state S.Store u.conn)) }
    ensures crash { IfErr result (λ u. HasCleanDisk (state S.Store u.conn) → LeavesBeforeOr (state S.Store conn) (state S.Store u.conn) (empty_state 1)) }
{
    create_with(conn, State::empty_v1(alloc))
}
