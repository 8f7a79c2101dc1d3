//! Reads the rows of `meta_row` one at a time, however the table was created.
ghost use Rattle.std.specs.Prelude.{◌≡◌, ◌⊎◌, ◌||◌, ◌&&◌, false, true, [], IsSome, IsTrue, IfOk, IfErr, is_none};
ghost use Rattle.sqlite_value.specs.Order.{column};
ghost use Rattle.sqlite.specs.State.{HasCleanDisk, KeepsCommit, Survives};
ghost use Rattle.sqlite.specs.Held.{state};
ghost use Rattle.role_tables.specs.OfficeTables.{Meta};
ghost use Rattle.role_tables.specs.TableContents.{is_well_typed, is_whole_number};
ghost use Rattle.role_tables.specs.private.NamedTables.{HasTable};
ghost use Rattle.role_tables.specs.OpeningChecks.{is_tagged, version_at, is_known_version, IsMemoryOrStore};
ghost use Rattle.role_tables.specs.private.MetaRows.{lesser, SeesMore, SeesMetas};

use crate::values::is_text_at;
use rbac_sets::Refusal;
use sqlite::types::ValueRef;
use sqlite::{Alter, Connection};

/// What is known of the rows that were read so far.
#[derive(Drop)]
pub(crate) struct Metas {
    pub(crate) is_tagged: bool,
    pub(crate) unknown: Option<i64>,
    pub(crate) has_version_2: bool,
    pub(crate) is_well_typed: bool,
    pub(crate) is_one: bool,
    is_empty: bool,
}

impl Metas {
    /// Whether the rows are those of an office of version 2.
    pub(crate) fn is_of_version_2(&self) -> bool
        ensures { result ≡ (self.now.is_tagged && (is_none self.now.unknown && self.now.has_version_2)) }
    {
        self.is_tagged && self.unknown.is_none() && self.has_version_2
    }
}

// Whether the row has the tag of an office.
fn is_tagged(row: &sqlite::Row) -> bool
    ensures { result ≡ is_tagged row.now }
{
    match row.get_ref(0) {
        Ok(ValueRef::Text(bytes)) => bytes == b"rbac".as_slice(),
        _ => false,
    }
}

// The whole number that the row has as its version, if it has the tag.
fn version_at(row: &sqlite::Row) -> Option<i64>
    ensures { result ≡ version_at row.now }
{
    if !is_tagged(row) {
        return None;
    }
    match row.get_ref(1) {
        Ok(ValueRef::Int(number)) => Some(number),
        _ => None,
    }
}

// Whether the column has a whole number.
fn is_number_at(row: &sqlite::Row, at: usize) -> bool
    ensures { result ≡ is_whole_number (column row.now at) }
{
    matches!(row.get_ref(at), Ok(ValueRef::Int(_)))
}

// Whether the values are of their columns' types.
fn is_well_typed_meta(row: &sqlite::Row) -> bool
    ensures { result ≡ is_well_typed Meta row.now }
{
    is_text_at(row, 0) && is_number_at(row, 1)
}

fn is_known(version: i64) -> bool
    ensures { result ≡ is_known_version version }
{
    version == 1 || version == 2
}

// The lesser of the two, counting only those that are no known version.
fn lesser(least: Option<i64>, version: Option<i64>) -> Option<i64>
    ensures { result ≡ lesser least version }
{
    let Some(number) = version else {
        return least;
    };
    if is_known(number) {
        return least;
    }
    match least {
        Some(other) if !(number < other) => Some(other),
        _ => Some(number),
    }
}

// Adds one row.
fn see(row: &sqlite::Row, into: &mut Metas)
    ensures { SeesMore row.now into.old into.new }
{
    let version = version_at(row);
    into.is_tagged = into.is_tagged || is_tagged(row);
    into.unknown = lesser(into.unknown, version);
    into.has_version_2 = into.has_version_2 || version == Some(2);
    into.is_well_typed = into.is_well_typed && is_well_typed_meta(row);
    into.is_one = into.is_empty;
    into.is_empty = false;
}

/// Reads `meta_row` to the end.
pub(crate) fn read_metas<S: Alter>(conn: &mut Connection<S>) -> Result<Metas, Refusal>
    ensures seen { HasCleanDisk (state S.Store conn.new) → HasTable (state S.Store conn.old) Meta → IfOk result (SeesMetas (state S.Store conn.old) (state S.Store conn.new)) }
    ensures refused { IfErr result IsMemoryOrStore }
    ensures mode { conn.old.in_transaction ≡ false → conn.new.in_transaction ≡ false }
    ensures kept { HasCleanDisk (state S.Store conn.new) → HasTable (state S.Store conn.old) Meta → KeepsCommit (state S.Store conn.old) (state S.Store conn.new) }
    ensures survives { Survives (state S.Store conn.old) (state S.Store conn.new) (λ _. HasTable (state S.Store conn.old) Meta → ⊥) }
{
    let mut seen = Metas {
        is_tagged: false,
        unknown: None,
        has_version_2: false,
        is_well_typed: true,
        is_one: false,
        is_empty: true,
    };
    let Ok(mut rows) = conn.query("SELECT tag, version FROM meta_row", &[]) else {
        return Err(Refusal::Store);
    };
    'rows: for _ in 0..u64::MAX {
        match rows.next() {
            Ok(Some(row)) => see(row, &mut seen),
            Ok(None) => return Ok(seen),
            Err(_) => return Err(Refusal::Store),
        }
    }
    Err(Refusal::Memory)
}
