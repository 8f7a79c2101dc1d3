//! The rows of an office by their parts, to save an office and to load it again.
ghost use Rattle.std.specs.Prelude.{◌≡◌, ◌⊎◌, ◌+◌, ◌≤◌, ℕ, IfOk, IfErr, IfSome, IfNone, option_map, slice_get};
ghost use Rattle.std.specs.Iterator.{YieldsFirstBy, item_count};
ghost use Rattle.rbac_sets.specs.Sets.{cardinality_cmp, members, name_cmp, pair_cmp, triple_cmp};
ghost use Rattle.rbac_sets.specs.SortedSet.{set_of};
ghost use Rattle.rbac_sets.specs.Table.{number_of, relation_count};
ghost use Rattle.role_lines.specs.StoredRow.{HasNames, IsRowAt, cardinality_at, cardinality_parts, name_at, name_parts, pair_at, pair_parts, parts, row_with, triple_at, triple_parts};
ghost use Rattle.role_lines.specs.RowsLeft.{rows_left};
ghost use Rattle.role_lines.specs.Decision.{IsNameText};
ghost use Rattle.role_lines.specs.RowParts.{parts_of};

use crate::deciding::name;
use admin_mgr::State;
use chunked_sets::{ChunkedGrants, Entries, EntrySet, Run};
use rbac_sets::{CountSet, Name, Refusal, Row, Table};
use std::alloc::Global;

/// The parts of a row: up to three names, and a number. A name that the table of the row doesn't have is empty, and
/// such a number is 0.
#[derive(Clone, Copy)]
pub struct RowParts<'a> {
    /// The first name, which each row has.
    pub first: &'a [u8],
    /// The second name.
    pub second: &'a [u8],
    /// The third name, which only a grant has.
    pub third: &'a [u8],
    /// The cardinality of a separation of duty set.
    pub number: u32,
}

/// Rows of a table one by one, in byte order.
#[derive(Drop)]
pub enum TableRows<'a> {
    /// Each row is a name.
    Names(Entries<'a, Name>),
    /// Each row is a pair of names.
    Pairs(Entries<'a, (Name, Name)>),
    /// Each row is a grant.
    Grants(Entries<'a, (Name, Name, Name)>),
    /// Each row is a separation of duty set with its cardinality.
    Cardinalities(Entries<'a, (Name, u32)>),
}

impl<'a> Iterator for TableRows<'a> {
    type Item = RowParts<'a>;

    ghost next_gives = { YieldsFirstBy parts_of rows_left };

    ghost remaining = { item_count rows_left };

    fn next(&mut self) -> Option<RowParts<'a>> {
        match self {
            TableRows::Names(names) => Some(name_parts(names.next()?)),
            TableRows::Pairs(pairs) => Some(pair_parts(pairs.next()?)),
            TableRows::Grants(grants) => Some(grant_parts(grants.next()?)),
            TableRows::Cardinalities(sets) => Some(cardinality_parts(sets.next()?)),
        }
    }
}

impl<'a> TableRows<'a> {
    /// These names from this place on, as rows.
    pub fn of_names(names: &'a [Name], index: usize) -> TableRows<'a>
        ensures { (place : ℕ) → slice_get (rows_left result) place ≡ name_at names.now (index + place) }
    {
        TableRows::Names(Run::of(names).skip(index).iter())
    }

    /// These pairs from this place on, as rows.
    pub fn of_pairs(pairs: &'a [(Name, Name)], index: usize) -> TableRows<'a>
        ensures { (place : ℕ) → slice_get (rows_left result) place ≡ pair_at pairs.now (index + place) }
    {
        TableRows::Pairs(Run::of(pairs).skip(index).iter())
    }
}

/// The rows of the table, in byte order, from this place on. None if the table has no more than `index` rows.
pub fn rows_from(state: &State, table: Table, index: usize) -> TableRows<'_>
    ensures { (place : ℕ) → IsRowAt state.now.facts table (index + place) (slice_get (rows_left result) place) }
{
    match table {
        Table::Users => names_from(state.users(), index),
        Table::Roles => names_from(state.roles(), index),
        Table::Objects => names_from(state.objects(), index),
        Table::Permissions => pairs_from(state.permissions(), index),
        Table::Assignments => pairs_from(state.assignments(), index),
        Table::Inheritances => pairs_from(state.order().edges(), index),
        Table::ClosurePairs => pairs_from(state.order().pairs(), index),
        Table::StaticMembers => pairs_from(state.ssd_members(), index),
        Table::DynamicMembers => pairs_from(state.dsd_members(), index),
        Table::Sessions => pairs_from(state.sessions(), index),
        Table::ActivatedRoles => pairs_from(state.active(), index),
        Table::Grants => grants_from(state.grants(), index),
        Table::StaticCardinalities => cardinalities_from(state.ssd_cardinalities(), index),
        Table::DynamicCardinalities => cardinalities_from(state.dsd_cardinalities(), index),
        Table::Locks => names_from(state.locked(), index),
    }
}

/// The row at this place of the table, whose rows are in byte order. `None` if the table has fewer rows.
pub fn row_at(state: &State, table: Table, index: usize) -> Option<RowParts<'_>>
    ensures { IsRowAt state.now.facts table index (option_map parts_of result) }
{
    rows_from(state, table, index).next()
}

// The names from this place on.
fn names_from<S: EntrySet<Name>>(names: &S, index: usize) -> TableRows<'_>
    ensures { (place : ℕ) → slice_get (rows_left result) place ≡ name_at (members (set_of name_cmp (S.stored names.now))) (index + place) }
{
    TableRows::Names(names.entries().skip(index).iter())
}

// The pairs from this place on.
fn pairs_from<S: EntrySet<(Name, Name)>>(pairs: &S, index: usize) -> TableRows<'_>
    ensures { (place : ℕ) → slice_get (rows_left result) place ≡ pair_at (members (set_of pair_cmp (S.stored pairs.now))) (index + place) }
{
    TableRows::Pairs(pairs.entries().skip(index).iter())
}

// The grants from this place on.
fn grants_from(grants: &ChunkedGrants, index: usize) -> TableRows<'_>
    ensures { (place : ℕ) → slice_get (rows_left result) place ≡ triple_at (members (set_of triple_cmp grants.now)) (index + place) }
{
    TableRows::Grants(grants.entries().skip(index).iter())
}

// The sets with their cardinalities from this place on.
fn cardinalities_from(sets: &CountSet, index: usize) -> TableRows<'_>
    ensures { (place : ℕ) → slice_get (rows_left result) place ≡ cardinality_at (members (set_of cardinality_cmp sets.now)) (index + place) }
{
    TableRows::Cardinalities(sets.entries().skip(index).iter())
}

// The parts of a name.
fn name_parts(name: &Name) -> RowParts<'_>
    ensures { parts_of result ≡ name_parts name.now }
{
    RowParts {
        first: name.as_str().as_bytes(),
        second: b"",
        third: b"",
        number: 0,
    }
}

// The parts of a pair.
fn pair_parts(pair: &(Name, Name)) -> RowParts<'_>
    ensures { parts_of result ≡ pair_parts pair.now }
{
    RowParts {
        first: pair.0.as_str().as_bytes(),
        second: pair.1.as_str().as_bytes(),
        third: b"",
        number: 0,
    }
}

// The parts of a grant.
fn grant_parts(grant: &(Name, Name, Name)) -> RowParts<'_>
    ensures { parts_of result ≡ triple_parts grant.now }
{
    RowParts {
        first: grant.0.as_str().as_bytes(),
        second: grant.1.as_str().as_bytes(),
        third: grant.2.as_str().as_bytes(),
        number: 0,
    }
}

// The parts of a set with its cardinality.
fn cardinality_parts(entry: &(Name, u32)) -> RowParts<'_>
    ensures { parts_of result ≡ cardinality_parts entry.now }
{
    RowParts {
        first: entry.0.as_str().as_bytes(),
        second: b"",
        third: b"",
        number: entry.1,
    }
}

/// The table with this number, or `None` if there are fewer.
pub fn table_numbered(number: u32) -> Option<Table>
    ensures some { IfSome result (λ table. number_of table ≡ number) }
    ensures none { IfNone result (relation_count ≤ number) }
{
    match number {
        0 => Some(Table::Users),
        1 => Some(Table::Roles),
        2 => Some(Table::Objects),
        3 => Some(Table::Permissions),
        4 => Some(Table::Assignments),
        5 => Some(Table::Inheritances),
        6 => Some(Table::ClosurePairs),
        7 => Some(Table::StaticMembers),
        8 => Some(Table::DynamicMembers),
        9 => Some(Table::Sessions),
        10 => Some(Table::ActivatedRoles),
        11 => Some(Table::Grants),
        12 => Some(Table::StaticCardinalities),
        13 => Some(Table::DynamicCardinalities),
        14 => Some(Table::Locks),
        _ => None,
    }
}

/// The row of the table that has these parts. Parts that the table doesn't have are ignored.
///
/// # Errors
///
/// `BadName` if one of its names isn't a name, `Memory` if an allocation failed.
pub fn row_of(
    alloc: Global,
    table: Table,
    first: &[u8],
    second: &[u8],
    third: &[u8],
    number: u32,
) -> Result<Row, Refusal>
    ensures ok { IfOk result (λ row. row ≡ row_with table (parts first.now second.now third.now number)) }
    ensures err { IfErr result (λ refusal. (refusal ≡ Refusal.Memory)
        ⊎ ((refusal ≡ Refusal.BadName) × ¬ (HasNames table (parts first.now second.now third.now number)))) }
{
    let first = name(alloc, first)?;
    match table {
        Table::Users => Ok(Row::NameRow(Row::USER, first)),
        Table::Roles => Ok(Row::NameRow(Row::ROLE, first)),
        Table::Objects => Ok(Row::NameRow(Row::OBJECT, first)),
        Table::Permissions => pair_row(alloc, Row::PERMISSION, first, second),
        Table::Assignments => pair_row(alloc, Row::ASSIGNMENT, first, second),
        Table::Inheritances => pair_row(alloc, Row::INHERITANCE, first, second),
        Table::ClosurePairs => pair_row(alloc, Row::CLOSURE_PAIR, first, second),
        Table::StaticMembers => pair_row(alloc, Row::STATIC_MEMBER, first, second),
        Table::DynamicMembers => pair_row(alloc, Row::DYNAMIC_MEMBER, first, second),
        Table::Sessions => pair_row(alloc, Row::SESSION, first, second),
        Table::ActivatedRoles => pair_row(alloc, Row::ACTIVATED_ROLE, first, second),
        Table::Grants => grant_row(alloc, first, second, third),
        Table::StaticCardinalities => Ok(Row::SetRow(Row::STATIC_CARDINALITY, first, number)),
        Table::DynamicCardinalities => Ok(Row::SetRow(Row::DYNAMIC_CARDINALITY, first, number)),
        Table::Locks => Ok(Row::LockedRow(first)),
    }
}

// The row of a pair of this kind.
fn pair_row(alloc: Global, kind: u8, first: Name, second: &[u8]) -> Result<Row, Refusal>
    ensures ok { IfOk result (λ row. row ≡ Row.PairRow kind first second.now) }
    ensures err { IfErr result (λ refusal. (refusal ≡ Refusal.Memory) ⊎ ((refusal ≡ Refusal.BadName) × ¬ (IsNameText second.now))) }
{
    let second = name(alloc, second)?;
    Ok(Row::PairRow(kind, first, second))
}

// The row of a grant.
fn grant_row(alloc: Global, first: Name, second: &[u8], third: &[u8]) -> Result<Row, Refusal>
    ensures ok { IfOk result (λ row. row ≡ Row.GrantRow first second.now third.now) }
    ensures err { IfErr result (λ refusal. (refusal ≡ Refusal.Memory) ⊎ ((refusal ≡ Refusal.BadName) × ¬ (IsNameText second.now × IsNameText third.now))) }
{
    let second = name(alloc, second)?;
    let third = name(alloc, third)?;
    Ok(Row::GrantRow(first, second, third))
}
