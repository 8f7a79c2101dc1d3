//! Reads and judges the state that a database holds, however its tables were created.
ghost use Rattle.std.specs.Prelude.{◌≡◌, ◌⊎◌, ◌&&◌, [], false, true, IsTrue, IfOk, IfErr, OnOk};
ghost use Rattle.sqlite.specs.State.{HasCleanDisk, IsUnchanged, KeepsCommit, Survives};
ghost use Rattle.sqlite.specs.Held.{state};
ghost use Rattle.admin_mgr.specs.RowChecks.{IsStateOf};
ghost use Rattle.role_tables.specs.TableContents.{contents_of};
ghost use Rattle.role_tables.specs.Migration.{RefusesMigration};
ghost use Rattle.role_tables.specs.OpeningChecks.{is_opening_refusal, HasCommonTables, IsMemoryOrStore, IsOfVersion2, ReadsState, RefusesContents};
ghost use Rattle.role_tables.specs.private.NamedTables.{RefusesMetas};
ghost use Rattle.role_tables.specs.private.MetaRows.{SeesMetas};
ghost use Rattle.role_tables.specs.Durability.{HoldsAsBefore};
ghost use Rattle.role_tables.specs.private.GatheredRows.{AreOfRows, ReadsTables, HasTables, IsVersionSeen, RefusesVersion, RefusesGathering};

use crate::gathering::{Gathering, read_table};
use crate::meta_rows::{Metas, read_metas};
use crate::schema::{are_there, is_there};
use crate::statements::is_settled;
use crate::stored_table::StoredTable;
use admin_mgr::State;
use rbac_sets::Refusal;
use sqlite::{Alter, Connection};
use sqlite_schema::schema::Schema;
use std::alloc::Global;

// Reads `meta_row`, if the five tables of both versions are there.
fn find_metas<S: Alter>(conn: &mut Connection<S>) -> Result<Metas, Refusal>
    ensures five { IfOk result (λ _. HasCommonTables (contents_of (state S.Store conn.old).now)) }
    ensures seen { HasCleanDisk (state S.Store conn.new) → IfOk result (SeesMetas (state S.Store conn.old) (state S.Store conn.new)) }
    ensures refused { IfErr result (RefusesMetas (contents_of (state S.Store conn.old).now)) }
    ensures mode { conn.old.in_transaction ≡ false → conn.new.in_transaction ≡ false }
    ensures kept { HasCleanDisk (state S.Store conn.new) → KeepsCommit (state S.Store conn.old) (state S.Store conn.new) }
    ensures survives { Survives (state S.Store conn.old) (state S.Store conn.new) (λ _. ⊥) }
{
    if !are_there(conn.schema(), StoredTable::of_version(1)) {
        return Err(Refusal::NotAnOffice);
    }
    read_metas(conn)
}

// The version whose tables are to be read.
fn judge_version(metas: &Metas, schema: &Schema) -> Result<u32, Refusal>
    ensures ok { IfOk result (IsVersionSeen metas.now schema.now) }
    ensures err { IfErr result (RefusesVersion metas.now schema.now) }
{
    if !metas.is_tagged {
        return Err(Refusal::NotAnOffice);
    }
    if let Some(version) = metas.unknown {
        return Err(Refusal::Version(version));
    }
    if !metas.has_version_2 {
        return Ok(1);
    }
    if !is_there(schema, StoredTable::Locks) {
        return Err(Refusal::NotAnOffice);
    }
    Ok(2)
}

/// Refuses an office of version 2.
pub(crate) fn refuse_v2<S: Alter>(conn: &mut Connection<S>) -> Result<(), Refusal>
    ensures passed { HasCleanDisk (state S.Store conn.new) → OnOk result
        ((IsOfVersion2 (contents_of (state S.Store conn.old).now) → ⊥) × IsUnchanged (state S.Store conn.old) (state S.Store conn.new)) }
    ensures err { HasCleanDisk (state S.Store conn.new) → IfErr result (RefusesMigration (contents_of (state S.Store conn.old).now)) }
    ensures refusal { IfErr result (λ refusal. IsTrue (is_opening_refusal refusal)) }
    ensures mode { conn.old.in_transaction ≡ false → conn.new.in_transaction ≡ false }
    ensures undone { conn.old.in_transaction ≡ false → HasCleanDisk (state S.Store conn.new) → HoldsAsBefore (state S.Store conn.old) (state S.Store conn.new) }
    ensures survives { Survives (state S.Store conn.old) (state S.Store conn.new) (λ _. ⊥) }
{
    is_settled(conn);
    let found = find_metas(conn);
    is_settled(conn);
    let metas = found?;
    if metas.is_of_version_2() {
        return Err(Refusal::Version(2));
    }
    Ok(())
}

// No row yet. Check 1 includes the rows of `meta_row`.
fn first_gathering(alloc: Global, metas: &Metas) -> Gathering
    ensures whole { result.is_well_typed ≡ (metas.now.is_well_typed && metas.now.is_one) }
    ensures named { result.is_named ≡ true }
    ensures empty { result.rows.items ≡ [] }
{
    Gathering {
        rows: Vec::new(alloc),
        is_well_typed: metas.is_well_typed && metas.is_one,
        is_named: true,
    }
}

// Reads these tables to the end, and gathers their rows.
fn read_tables<S: Alter>(
    alloc: Global,
    conn: &mut Connection<S>,
    tables: &[StoredTable],
    into: &mut Gathering,
) -> Result<(), Refusal>
    requires { AreOfRows tables.now }
    ensures gathered { HasCleanDisk (state S.Store conn.new) → HasTables (state S.Store conn.old) tables.now
        → OnOk result (ReadsTables (state S.Store conn.old) (state S.Store conn.new) tables.now into.old into.new) }
    ensures refused { IfErr result IsMemoryOrStore }
    ensures mode { conn.old.in_transaction ≡ false → conn.new.in_transaction ≡ false }
    ensures kept { HasCleanDisk (state S.Store conn.new) → HasTables (state S.Store conn.old) tables.now → KeepsCommit (state S.Store conn.old) (state S.Store conn.new) }
    ensures survives { Survives (state S.Store conn.old) (state S.Store conn.new) (λ _. HasTables (state S.Store conn.old) tables.now → ⊥) }
{
    'tables: for table in tables {
        read_table(alloc, conn, *table, into)?;
    }
    Ok(())
}

// The state that the gathered rows make.
fn judge_rows(alloc: Global, version: u32, all: Gathering) -> Result<State, Refusal>
    requires { (version ≡ 1) ⊎ (version ≡ 2) }
    ensures ok { IfOk result (λ made. IsTrue all.is_well_typed × IsTrue all.is_named × IsStateOf version all.rows.items made.facts) }
    ensures err { IfErr result (RefusesGathering version all) }
    ensures refusal { IfErr result (λ refusal. IsTrue (is_opening_refusal refusal)) }
{
    if !all.is_well_typed {
        return Err(Refusal::Damaged(1));
    }
    if !all.is_named {
        return Err(Refusal::Damaged(2));
    }
    State::of_rows(alloc, version, all.rows)
}

// Reads the state that the database holds, and commits nothing.
fn find_state<S: Alter>(alloc: Global, conn: &mut Connection<S>) -> Result<State, Refusal>
    ensures ok { HasCleanDisk (state S.Store conn.new) → IfOk result (λ made. ReadsState (state S.Store conn.old) (state S.Store conn.new) made.facts) }
    ensures err { HasCleanDisk (state S.Store conn.new) → IfErr result (λ refusal. (refusal ≡ Refusal.Store) ⊎ RefusesContents (contents_of (state S.Store conn.old).now) refusal) }
    ensures refusal { IfErr result (λ refusal. IsTrue (is_opening_refusal refusal)) }
    ensures mode { conn.old.in_transaction ≡ false → conn.new.in_transaction ≡ false }
    ensures kept { HasCleanDisk (state S.Store conn.new) → KeepsCommit (state S.Store conn.old) (state S.Store conn.new) }
    ensures survives { Survives (state S.Store conn.old) (state S.Store conn.new) (λ _. ⊥) }
{
    let metas = find_metas(conn)?;
    let version = judge_version(&metas, conn.schema())?;
    let mut all = first_gathering(alloc, &metas);
    read_tables(alloc, conn, StoredTable::of_rows(version), &mut all)?;
    judge_rows(alloc, version, all)
}

/// Reads the state that the database holds. Outside a transaction the connection then holds what it held before.
pub(crate) fn read_state<S: Alter>(
    alloc: Global,
    conn: &mut Connection<S>,
) -> Result<State, Refusal>
    ensures ok { HasCleanDisk (state S.Store conn.new) → IfOk result (λ made. ReadsState (state S.Store conn.old) (state S.Store conn.new) made.facts) }
    ensures err { HasCleanDisk (state S.Store conn.new) → IfErr result (λ refusal. (refusal ≡ Refusal.Store) ⊎ RefusesContents (contents_of (state S.Store conn.old).now) refusal) }
    ensures refusal { IfErr result (λ refusal. IsTrue (is_opening_refusal refusal)) }
    ensures mode { conn.old.in_transaction ≡ false → conn.new.in_transaction ≡ false }
    ensures undone { conn.old.in_transaction ≡ false → HasCleanDisk (state S.Store conn.new) → HoldsAsBefore (state S.Store conn.old) (state S.Store conn.new) }
    ensures survives { Survives (state S.Store conn.old) (state S.Store conn.new) (λ _. ⊥) }
{
    is_settled(conn);
    let found = find_state(alloc, conn);
    is_settled(conn);
    found
}
