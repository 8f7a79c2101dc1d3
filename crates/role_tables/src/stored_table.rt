//! The tables in which an office is stored, and the statements on them.
ghost use Rattle.std.specs.Prelude.{◌≡◌};
ghost use Rattle.role_tables.specs.OfficeTables.{making, row_tables, table_of, tables_of};
ghost use Rattle.role_tables.specs.private.GatheredRows.{AreOfRows};
ghost use Rattle.role_tables.specs.StoredState.{stored};
ghost use Rattle.role_tables.specs.private.Texts.{create_text, insert_text, delete_text, read_text};

use rbac_sets::Row;

/// A table of an office in the file. All are STRICT, and all their columns are NOT NULL.
#[derive(Clone, Copy)]
pub enum StoredTable {
    /// `meta_row`: one row, which marks the file as an office and has its version.
    Meta,
    /// `name_row`: users, roles and objects.
    Names,
    /// `pair_row`: the relations between two names.
    Pairs,
    /// `grant_row`: object, operation and role.
    Grants,
    /// `set_row`: the separation of duty sets with their cardinalities.
    Sets,
    /// `locked_row`: the locked users. An office of version 1 doesn't have this table.
    Locks,
}

impl StoredTable {
    /// The tables of an office of this version, in the order in which they are created.
    pub(crate) fn of_version(version: u32) -> &'static [StoredTable]
        ensures { result.now ≡ tables_of version }
    {
        if version == 1 {
            &[
                StoredTable::Meta,
                StoredTable::Names,
                StoredTable::Pairs,
                StoredTable::Grants,
                StoredTable::Sets,
            ]
        } else {
            &[
                StoredTable::Meta,
                StoredTable::Names,
                StoredTable::Pairs,
                StoredTable::Grants,
                StoredTable::Sets,
                StoredTable::Locks,
            ]
        }
    }

    /// The tables of an office of this version that hold rows of its state.
    pub(crate) fn of_rows(version: u32) -> &'static [StoredTable]
        ensures tables { result.now ≡ row_tables version }
        ensures rows { AreOfRows result.now }
    {
        if version == 1 {
            &[
                StoredTable::Names,
                StoredTable::Pairs,
                StoredTable::Grants,
                StoredTable::Sets,
            ]
        } else {
            &[
                StoredTable::Names,
                StoredTable::Pairs,
                StoredTable::Grants,
                StoredTable::Sets,
                StoredTable::Locks,
            ]
        }
    }

    /// The table that holds the row.
    pub(crate) fn of_row(row: &Row) -> StoredTable
        ensures { result ≡ table_of (stored row.now) }
    {
        match row {
            Row::NameRow(_, _) => StoredTable::Names,
            Row::PairRow(_, _, _) => StoredTable::Pairs,
            Row::GrantRow(_, _, _) => StoredTable::Grants,
            Row::SetRow(_, _, _) => StoredTable::Sets,
            Row::LockedRow(_) => StoredTable::Locks,
        }
    }

    pub(crate) fn name(self) -> &'static str
        ensures { result.now ≡ (making self).name }
    {
        match self {
            StoredTable::Meta => "meta_row",
            StoredTable::Names => "name_row",
            StoredTable::Pairs => "pair_row",
            StoredTable::Grants => "grant_row",
            StoredTable::Sets => "set_row",
            StoredTable::Locks => "locked_row",
        }
    }

    /// The statement that creates the table.
    pub(crate) fn create_text(self) -> &'static str
        ensures { result.now ≡ create_text self }
    {
        match self {
            StoredTable::Meta => {
                "CREATE TABLE meta_row (tag TEXT NOT NULL, version INTEGER NOT NULL, PRIMARY KEY (tag)) STRICT"
            }
            StoredTable::Names => {
                "CREATE TABLE name_row (kind INTEGER NOT NULL CHECK (kind BETWEEN 1 AND 3), a TEXT NOT NULL, PRIMARY KEY (kind, a)) STRICT"
            }
            StoredTable::Pairs => {
                "CREATE TABLE pair_row (kind INTEGER NOT NULL CHECK (kind BETWEEN 1 AND 8), a TEXT NOT NULL, b TEXT NOT NULL, PRIMARY KEY (kind, a, b)) STRICT"
            }
            StoredTable::Grants => {
                "CREATE TABLE grant_row (ob TEXT NOT NULL, op TEXT NOT NULL, role TEXT NOT NULL, PRIMARY KEY (ob, op, role)) STRICT"
            }
            StoredTable::Sets => {
                "CREATE TABLE set_row (kind INTEGER NOT NULL CHECK (kind BETWEEN 1 AND 2), name TEXT NOT NULL, n INTEGER NOT NULL CHECK (n >= 2), PRIMARY KEY (kind, name)) STRICT"
            }
            StoredTable::Locks => {
                "CREATE TABLE locked_row (a TEXT NOT NULL, PRIMARY KEY (a)) STRICT"
            }
        }
    }

    /// The statement that inserts one row, whose values are its parameters.
    pub(crate) fn insert_text(self) -> &'static str
        ensures { result.now ≡ insert_text self }
    {
        match self {
            StoredTable::Meta => "INSERT INTO meta_row (tag, version) VALUES (?1, ?2)",
            StoredTable::Names => "INSERT INTO name_row (kind, a) VALUES (?1, ?2)",
            StoredTable::Pairs => "INSERT INTO pair_row (kind, a, b) VALUES (?1, ?2, ?3)",
            StoredTable::Grants => "INSERT INTO grant_row (ob, op, role) VALUES (?1, ?2, ?3)",
            StoredTable::Sets => "INSERT INTO set_row (kind, name, n) VALUES (?1, ?2, ?3)",
            StoredTable::Locks => "INSERT INTO locked_row (a) VALUES (?1)",
        }
    }

    /// The statement that deletes one row, whose values are its parameters.
    pub(crate) fn delete_text(self) -> &'static str
        ensures { result.now ≡ delete_text self }
    {
        match self {
            StoredTable::Meta => "DELETE FROM meta_row WHERE tag = ?1 AND version = ?2",
            StoredTable::Names => "DELETE FROM name_row WHERE kind = ?1 AND a = ?2",
            StoredTable::Pairs => "DELETE FROM pair_row WHERE kind = ?1 AND a = ?2 AND b = ?3",
            StoredTable::Grants => "DELETE FROM grant_row WHERE ob = ?1 AND op = ?2 AND role = ?3",
            StoredTable::Sets => "DELETE FROM set_row WHERE kind = ?1 AND name = ?2 AND n = ?3",
            StoredTable::Locks => "DELETE FROM locked_row WHERE a = ?1",
        }
    }

    /// The statement that reads all rows.
    pub(crate) fn read_text(self) -> &'static str
        ensures { result.now ≡ read_text self }
    {
        match self {
            StoredTable::Meta => "SELECT tag, version FROM meta_row",
            StoredTable::Names => "SELECT kind, a FROM name_row",
            StoredTable::Pairs => "SELECT kind, a, b FROM pair_row",
            StoredTable::Grants => "SELECT ob, op, role FROM grant_row",
            StoredTable::Sets => "SELECT kind, name, n FROM set_row",
            StoredTable::Locks => "SELECT a FROM locked_row",
        }
    }
}
