//! Whether the tables of an office are in the schema of a database, and whether they can be created in it.
ghost use Rattle.std.specs.Prelude.{◌≡◌, ◌&&◌, not, codes, is_some, option_copied};
ghost use Rattle.std.specs.List.{list_any, list_all};
ghost use Rattle.sqlite_schema.specs.Names.{same_name, table_named, column_named};
ghost use Rattle.role_tables.specs.TableContents.{find_table};
ghost use Rattle.role_tables.specs.SchemaTests.{is_free, are_free, may_create, may_count};
ghost use Rattle.role_tables.specs.private.NamedTables.{has_all, is_there, are_there};
ghost use Rattle.role_tables.specs.Migration.{may_lock};
ghost use Rattle.role_tables.specs.OfficeTables.{places};
ghost use Rattle.role_tables.specs.TableByName.{names_of, refers_to, is_referred};

use crate::stored_table::StoredTable;
use sqlite_schema::names::same_name;
use sqlite_schema::schema::{Schema, Table};

// The index of the table of this name.
fn table_at(schema: &Schema, name: &str) -> Option<usize>
    ensures { result ≡ table_named schema.now name.now }
{
    schema
        .tables
        .as_slice()
        .iter()
        .position(|table| same_name(table.name.as_slice(), name.as_bytes()))
}

// Whether there is a table of this name.
fn has_table(schema: &Schema, name: &str) -> bool
    ensures { result ≡ list_any (λ t. same_name t.name name.now) schema.now.tables }
{
    schema
        .tables
        .as_slice()
        .iter()
        .any(|table| same_name(table.name.as_slice(), name.as_bytes()))
}

// Whether a foreign key of the table names a table of this name.
fn refers_to(table: &Table, name: &str) -> bool
    ensures { result ≡ refers_to name.now table.now }
{
    table.references.as_slice().iter().any(|reference| same_name(
        name.as_bytes(),
        reference.parent.as_slice(),
    ))
}

// Whether a foreign key of the schema names a table of this name.
fn is_referred(schema: &Schema, name: &str) -> bool
    ensures { result ≡ is_referred schema.now name.now }
{
    schema
        .tables
        .as_slice()
        .iter()
        .any(|table| refers_to(table, name))
}

// Whether no table has the name, and no foreign key names one of this name.
fn is_free(schema: &Schema, name: &str) -> bool
    ensures { result ≡ is_free schema.now name.now }
{
    !has_table(schema, name) && !is_referred(schema, name)
}

// Whether each of these tables is free.
fn are_free(schema: &Schema, tables: &[StoredTable]) -> bool
    ensures { result ≡ are_free schema.now tables.now }
{
    tables.iter().all(|table| is_free(schema, table.name()))
}

// Whether a table counts its rowids (AUTOINCREMENT).
fn has_counted(schema: &Schema) -> bool
    ensures { result ≡ list_any (λ t. t.is_counted) schema.now.tables }
{
    schema
        .tables
        .as_slice()
        .iter()
        .any(|table| table.is_counted)
}

// Whether no table counts its rowids, or the table that has the counts is there.
fn may_count(schema: &Schema) -> bool
    ensures { result ≡ may_count schema.now }
{
    !has_counted(schema) || has_table(schema, "sqlite_sequence")
}

/// Whether the tables of an office of this version can be created: none is there, no foreign key names
/// one, and no further table would be created with them.
pub(crate) fn may_create(schema: &Schema, version: u32) -> bool
    ensures { result ≡ may_create version schema.now }
{
    are_free(schema, StoredTable::of_version(version)) && may_count(schema)
}

/// Whether the table of locks can be created.
pub(crate) fn may_lock(schema: &Schema) -> bool
    ensures { result ≡ may_lock schema.now }
{
    is_free(schema, StoredTable::Locks.name()) && may_count(schema)
}

// The table of this name.
fn find_table<'a>(schema: &'a Schema, name: &str) -> Option<&'a Table>
    ensures { option_copied result ≡ find_table schema.now name.now }
{
    let at = table_at(schema, name)?;
    schema.tables.as_slice().get(at)
}

// The index of the column of this name.
fn column_at(table: &Table, name: &str) -> Option<usize>
    ensures { result ≡ column_named table.now name.now }
{
    table.columns.as_slice().iter().position(|column| same_name(
        column.name.as_slice(),
        name.as_bytes(),
    ))
}

// Whether the table has a column of this name.
fn has_column(table: &Table, name: &str) -> bool
    ensures { result ≡ is_some (column_named table.now name.now) }
{
    column_at(table, name).is_some()
}

// Whether the table has columns of all these names.
fn has_all(table: &Table, columns: &[&str]) -> bool
    ensures { result ≡ list_all (λ name. is_some (column_named table.now name.now)) columns.now }
{
    columns.iter().all(|name| has_column(table, name))
}

// Whether the table `found` has the columns of this table of an office.
fn has_columns(found: &Table, table: StoredTable) -> bool
    ensures { result ≡ has_all found.now (names_of (places table)) }
{
    match table {
        StoredTable::Meta => has_all(found, &["tag", "version"]),
        StoredTable::Names => has_all(found, &["kind", "a"]),
        StoredTable::Pairs => has_all(found, &["kind", "a", "b"]),
        StoredTable::Grants => has_all(found, &["ob", "op", "role"]),
        StoredTable::Sets => has_all(found, &["kind", "name", "n"]),
        StoredTable::Locks => has_all(found, &["a"]),
    }
}

/// Whether the table is there with its columns.
pub(crate) fn is_there(schema: &Schema, table: StoredTable) -> bool
    ensures { result ≡ is_there schema.now table }
{
    match find_table(schema, table.name()) {
        Some(found) => has_columns(found, table),
        None => false,
    }
}

/// Whether each of these tables is there with its columns.
pub(crate) fn are_there(schema: &Schema, tables: &[StoredTable]) -> bool
    ensures { result ≡ are_there schema.now tables.now }
{
    tables.iter().all(|table| is_there(schema, *table))
}
