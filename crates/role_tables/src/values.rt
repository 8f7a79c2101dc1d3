//! Turns the values that were read of a row into a row of the office, with check 1 and check 2.
ghost use Rattle.std.specs.Prelude.{◌≡◌, ◌⊎◌, ◌≤◌, IfSome, IfNone, IfOk, IfErr, IsTrue, true, false, pos};
ghost use Rattle.sqlite_value.specs.Order.{column};
ghost use Rattle.sqlite.specs.declared.types.Value.TheVariants.{Int, Text};
ghost use Rattle.rbac_sets.specs.Name.{is_name};
ghost use Rattle.role_tables.specs.TableContents.{is_text, is_kind, is_count, is_well_typed, has_names, row_in, text_of};
ghost use Rattle.role_tables.specs.private.NamedTables.{RefusesRow};
ghost use Rattle.role_tables.specs.OfficeTables.{Names, Pairs, Grants, Sets, Locks};

use rbac_sets::{Name, Refusal, Row};
use sqlite::types::ValueRef;
use std::alloc::Global;
use std::str;

// The kind in the column, if the column has one from 1 to `most`.
fn kind_at(row: &sqlite::Row, at: usize, most: u8) -> Option<u8>
    ensures some { IfSome result (λ kind. (column row.now at ≡ Int (pos kind)) × (1 ≤ kind) × (kind ≤ most)) }
    ensures none { IfNone result (is_kind most (column row.now at) ≡ false) }
{
    match row.get_ref(at) {
        Ok(ValueRef::Int(number)) if 1 <= number && number <= most as i64 => Some(number as u8),
        _ => None,
    }
}

// Whether the column has a text.
pub(crate) fn is_text_at(row: &sqlite::Row, at: usize) -> bool
    ensures { result ≡ is_text (column row.now at) }
{
    matches!(row.get_ref(at), Ok(ValueRef::Text(_)))
}

// The name in the column, or `Damaged(2)` if the column has no valid name.
fn name_at(alloc: Global, row: &sqlite::Row, at: usize) -> Result<Name, Refusal>
    ensures ok { IfOk result (λ name. (column row.now at ≡ Text name) × (is_name name ≡ true)) }
    ensures err { IfErr result (λ refusal. (refusal ≡ Refusal.Memory) ⊎ ((refusal ≡ Refusal.Damaged 2) × (is_name (text_of (column row.now at)) ≡ false))) }
{
    let Ok(ValueRef::Text(bytes)) = row.get_ref(at) else {
        return Err(Refusal::Damaged(2));
    };
    let Ok(text) = str::from_utf8(bytes) else {
        return Err(Refusal::Damaged(2));
    };
    match Name::new(alloc, text) {
        Ok(name) => Ok(name),
        Err(Refusal::Memory) => Err(Refusal::Memory),
        Err(_) => Err(Refusal::Damaged(2)),
    }
}

// The number in the column, if it fits a u32.
fn count_at(row: &sqlite::Row, at: usize) -> Option<u32>
    ensures some { IfSome result (λ n. column row.now at ≡ Int (pos n)) }
    ensures none { IfNone result (is_count (column row.now at) ≡ false) }
{
    match row.get_ref(at) {
        Ok(ValueRef::Int(number)) if 0 <= number && number <= u32::MAX as i64 => Some(
            number as u32,
        ),
        _ => None,
    }
}

/// The row of a name.
pub(crate) fn name_of(alloc: Global, row: &sqlite::Row) -> Result<Row, Refusal>
    ensures ok { IfOk result (λ made. (made ≡ row_in Names row.now) × IsTrue (is_well_typed Names row.now) × IsTrue (has_names Names row.now)) }
    ensures err { IfErr result (RefusesRow Names row.now) }
{
    let Some(kind) = kind_at(row, 0, 3) else {
        return Err(Refusal::Damaged(1));
    };
    if !is_text_at(row, 1) {
        return Err(Refusal::Damaged(1));
    }
    let a = name_at(alloc, row, 1)?;
    Ok(Row::NameRow(kind, a))
}

/// The row of a pair.
pub(crate) fn pair_of(alloc: Global, row: &sqlite::Row) -> Result<Row, Refusal>
    ensures ok { IfOk result (λ made. (made ≡ row_in Pairs row.now) × IsTrue (is_well_typed Pairs row.now) × IsTrue (has_names Pairs row.now)) }
    ensures err { IfErr result (RefusesRow Pairs row.now) }
{
    let Some(kind) = kind_at(row, 0, 8) else {
        return Err(Refusal::Damaged(1));
    };
    if !is_text_at(row, 1) || !is_text_at(row, 2) {
        return Err(Refusal::Damaged(1));
    }
    let a = name_at(alloc, row, 1)?;
    let b = name_at(alloc, row, 2)?;
    Ok(Row::PairRow(kind, a, b))
}

/// The row of a grant.
pub(crate) fn grant_of(alloc: Global, row: &sqlite::Row) -> Result<Row, Refusal>
    ensures ok { IfOk result (λ made. (made ≡ row_in Grants row.now) × IsTrue (is_well_typed Grants row.now) × IsTrue (has_names Grants row.now)) }
    ensures err { IfErr result (RefusesRow Grants row.now) }
{
    if !is_text_at(row, 0) || !is_text_at(row, 1) || !is_text_at(row, 2) {
        return Err(Refusal::Damaged(1));
    }
    let ob = name_at(alloc, row, 0)?;
    let op = name_at(alloc, row, 1)?;
    let role = name_at(alloc, row, 2)?;
    Ok(Row::GrantRow(ob, op, role))
}

/// The row of a set.
pub(crate) fn set_of(alloc: Global, row: &sqlite::Row) -> Result<Row, Refusal>
    ensures ok { IfOk result (λ made. (made ≡ row_in Sets row.now) × IsTrue (is_well_typed Sets row.now) × IsTrue (has_names Sets row.now)) }
    ensures err { IfErr result (RefusesRow Sets row.now) }
{
    let Some(kind) = kind_at(row, 0, 2) else {
        return Err(Refusal::Damaged(1));
    };
    let Some(n) = count_at(row, 2) else {
        return Err(Refusal::Damaged(1));
    };
    if !is_text_at(row, 1) {
        return Err(Refusal::Damaged(1));
    }
    let name = name_at(alloc, row, 1)?;
    Ok(Row::SetRow(kind, name, n))
}

/// The row of a lock.
pub(crate) fn lock_of(alloc: Global, row: &sqlite::Row) -> Result<Row, Refusal>
    ensures ok { IfOk result (λ made. (made ≡ row_in Locks row.now) × IsTrue (is_well_typed Locks row.now) × IsTrue (has_names Locks row.now)) }
    ensures err { IfErr result (RefusesRow Locks row.now) }
{
    if !is_text_at(row, 0) {
        return Err(Refusal::Damaged(1));
    }
    let a = name_at(alloc, row, 0)?;
    Ok(Row::LockedRow(a))
}
