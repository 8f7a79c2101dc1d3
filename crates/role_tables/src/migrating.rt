//! Migrates an office of version 1 to version 2.
ghost use Rattle.std.specs.Prelude.{◌≡◌, ◌≢◌, [], false, true, IsTrue, IfErr, IfOk, MatchResult};
ghost use Rattle.sqlite.specs.State.{HasCleanDisk, KeepsCommit, Survives};
ghost use Rattle.sqlite.specs.Held.{state};
ghost use Rattle.admin_mgr.specs.OfficeRun.{migrated_to_version_2};
ghost use Rattle.role_tables.specs.TableContents.{contents_of};
ghost use Rattle.role_tables.specs.Migration.{IsMigratedFrom, LeavesEitherVersion, MigratesDurably, RefusesMigration, StaysRefused};
ghost use Rattle.role_tables.specs.private.Transactions.{MigratesTables};
ghost use Rattle.role_tables.specs.OpeningChecks.{is_opening_refusal, IsOfVersion2};
ghost use Rattle.role_tables.specs.Runs.{IsInRun};
ghost use Rattle.role_tables.specs.Durability.{ForgetsNoFault, HoldsAsBefore, StaysOutside, WhateverIsDurable};

use crate::content_checks::{read_state, refuse_v2};
use crate::office::Office;
use crate::opening::{Unopened, give_up};
use crate::schema::may_lock;
use crate::statements::{create_table, delete_version, insert_version, is_settled};
use crate::stored_table::StoredTable;
use admin_mgr::State;
use rbac_sets::Refusal;
use sqlite::{Alter, Connection, Error};
use std::alloc::Global;

// Creates the table of locks and changes the version, in one transaction.
fn migrate_tables<S: Alter>(conn: &mut Connection<S>) -> Result<(), Error>
    requires { conn.old.in_transaction ≡ false }
    ensures ended { conn.new.in_transaction ≡ false }
    ensures clean { ForgetsNoFault (state S.Store conn.old) (state S.Store conn.new) }
    ensures written { HasCleanDisk (state S.Store conn.new) → MigratesTables (state S.Store conn.old) (state S.Store conn.new) result }
{
    is_settled(conn);
    let mut tx = conn.transaction();
    create_table(&mut tx, StoredTable::Locks)?;
    delete_version(&mut tx, 1)?;
    insert_version(&mut tx, 2)?;
    tx.commit()
}

// Reads an office that is not of version 2, and migrates it to version 2.
fn migrate_v1<S: Alter>(alloc: Global, conn: &mut Connection<S>) -> Result<State, Refusal>
    requires { conn.old.in_transaction ≡ false }
    ensures ended { conn.new.in_transaction ≡ false }
    ensures clean { ForgetsNoFault (state S.Store conn.old) (state S.Store conn.new) }
    ensures found { HasCleanDisk (state S.Store conn.new) → IfOk result (λ made. IsMigratedFrom (state S.Store conn.old).now made.facts) }
    ensures err { HasCleanDisk (state S.Store conn.new) → (IsOfVersion2 (contents_of (state S.Store conn.old).now) → ⊥) →
        IfErr result (RefusesMigration (contents_of (state S.Store conn.old).now)) }
    ensures undone { HasCleanDisk (state S.Store conn.new) → IfErr result (λ refusal. refusal ≢ Refusal.Store → HoldsAsBefore (state S.Store conn.old) (state S.Store conn.new)) }
    ensures moved { HasCleanDisk (state S.Store conn.new) → IfOk result (λ made. MigratesDurably (state S.Store conn.old) (state S.Store conn.new) made.facts) }
    ensures unmoved { HasCleanDisk (state S.Store conn.new) → IfErr result (StaysRefused (state S.Store conn.old) (state S.Store conn.new)) }
    ensures survives { IfErr result (λ refusal. refusal ≢ Refusal.Store → Survives (state S.Store conn.old) (state S.Store conn.new) (λ _. ⊥)) }
    ensures version { IfOk result (λ made. made.facts.version ≡ 2) }
    ensures refusal { IfErr result (λ refusal. IsTrue (is_opening_refusal refusal)) }
    ensures crash { HasCleanDisk (state S.Store conn.new) → LeavesEitherVersion (state S.Store conn.old) (state S.Store conn.new) }
{
    let first = read_state(alloc, conn)?;
    if first.version() != 1 {
        return Err(give_up(first, Refusal::Version(2)));
    }
    if !may_lock(conn.schema()) {
        return Err(give_up(first, Refusal::Store));
    }
    match migrate_tables(conn) {
        Ok(()) => Ok(first.migrated()),
        Err(_) => Err(give_up(first, Refusal::Store)),
    }
}

// Reads an office of version 1, and migrates it to version 2.
fn migrate_state<S: Alter>(alloc: Global, conn: &mut Connection<S>) -> Result<State, Refusal>
    requires { conn.old.in_transaction ≡ false }
    ensures ended { conn.new.in_transaction ≡ false }
    ensures clean { ForgetsNoFault (state S.Store conn.old) (state S.Store conn.new) }
    ensures found { HasCleanDisk (state S.Store conn.new) → IfOk result (λ made. IsMigratedFrom (state S.Store conn.old).now made.facts) }
    ensures err { HasCleanDisk (state S.Store conn.new) → IfErr result (RefusesMigration (contents_of (state S.Store conn.old).now)) }
    ensures undone { HasCleanDisk (state S.Store conn.new) → IfErr result (λ refusal. refusal ≢ Refusal.Store → HoldsAsBefore (state S.Store conn.old) (state S.Store conn.new)) }
    ensures moved { HasCleanDisk (state S.Store conn.new) → IfOk result (λ made. MigratesDurably (state S.Store conn.old) (state S.Store conn.new) made.facts) }
    ensures unmoved { HasCleanDisk (state S.Store conn.new) → IfErr result (StaysRefused (state S.Store conn.old) (state S.Store conn.new)) }
    ensures survives { IfErr result (λ refusal. refusal ≢ Refusal.Store → Survives (state S.Store conn.old) (state S.Store conn.new) (λ _. ⊥)) }
    ensures version { IfOk result (λ made. made.facts.version ≡ 2) }
    ensures refusal { IfErr result (λ refusal. IsTrue (is_opening_refusal refusal)) }
    ensures crash { HasCleanDisk (state S.Store conn.new) → LeavesEitherVersion (state S.Store conn.old) (state S.Store conn.new) }
{
    refuse_v2(conn)?;
    migrate_v1(alloc, conn)
}

/// Migrates the office of version 1 that the tables of a connection outside a transaction hold to version
/// 2, and opens it. In version 2 users can be locked, and there may be more users, roles and immediate
/// inheritances. Nobody is locked; all else is as it was. `alloc` is the allocator of the office's state.
///
/// It is a function of this office and none of the standard.
///
/// # Errors
///
/// What `open` refuses, but `Version(2)` if the office is of version 2 already, whatever its rows are; then
/// `Store` if the table of locks or a foreign key that names it is there, if a table counts its rowids
/// (AUTOINCREMENT) and the database has no table `sqlite_sequence` for the counts, or if the store fails
/// in a call. After any refusal but `Store` nothing is changed. After `Store` a crash leaves an office of
/// version 1 in version 1 or in version 2, and one of version 2 as it was.
pub fn migrate<S: Alter>(alloc: Global, conn: Connection<S>) -> Result<Office<S>, Unopened<S>>
    ensures ok { IfOk result (λ o. (o.is_closed ≡ false) × ((state S.Store conn).in_transaction ≡ false)
        × (HasCleanDisk (state S.Store o.conn) → IsMigratedFrom (state S.Store conn).now o.facts)) }
    ensures version { IfOk result (λ o. o.facts.version ≡ 2) }
    ensures refusal { IfErr result (λ u. IsTrue (is_opening_refusal u.refusal)) }
    ensures err { IfErr result (λ u. HasCleanDisk (state S.Store u.conn) → RefusesMigration (contents_of (state S.Store conn).now) u.refusal) }
    ensures inside { IfErr result (λ u. (state S.Store conn).in_transaction ≡ true → (u.refusal ≡ Refusal.Store) × (u.conn ≡ conn)) }
    ensures outside { IfErr result (λ u. StaysOutside (state S.Store conn) (state S.Store u.conn)) }
    ensures undone { IfErr result (λ u. HasCleanDisk (state S.Store u.conn) → u.refusal ≢ Refusal.Store → HoldsAsBefore (state S.Store conn) (state S.Store u.conn)) }
    ensures moved { IfOk result (λ o. HasCleanDisk (state S.Store o.conn) → MigratesDurably (state S.Store conn) (state S.Store o.conn) o.facts) }
    ensures clean { MatchResult result (λ o. ForgetsNoFault (state S.Store conn) (state S.Store o.conn)) (λ u. ForgetsNoFault (state S.Store conn) (state S.Store u.conn)) }
    ensures run { IfOk result (λ o. HasCleanDisk (state S.Store o.conn) → WhateverIsDurable (state S.Store conn) (λ before. IsInRun (state S.Store) (migrated_to_version_2 before) [] o)) }
    ensures unmoved { IfErr result (λ u. HasCleanDisk (state S.Store u.conn) → StaysRefused (state S.Store conn) (state S.Store u.conn) u.refusal) }
    ensures survives { IfErr result (λ u. u.refusal ≢ Refusal.Store → Survives (state S.Store conn) (state S.Store u.conn) (λ _. ⊥)) }
    ensures crash { IfErr result (λ u. HasCleanDisk (state S.Store u.conn) → LeavesEitherVersion (state S.Store conn) (state S.Store u.conn)) }
{
    let mut conn = conn;
    if !conn.is_autocommit() {
        return Err(Unopened {
            refusal: Refusal::Store,
            conn,
        });
    }
    match migrate_state(alloc, &mut conn) {
        Ok(state) => Ok(Office::new(conn, state)),
        Err(refusal) => Err(Unopened { refusal, conn }),
    }
}
