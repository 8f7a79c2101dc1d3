//! The changes that a plan lists, one after another.
ghost use Rattle.std.specs.Prelude.{◌≡◌, ◌++◌, ◌∷◌, [], IfOk, IfErr, OnOk};
ghost use Rattle.std.specs.Prelude.{map as list_map};
ghost use Rattle.rbac_sets.specs.Sets.{Bytes, Pair, Triple};
ghost use Rattle.rbac_sets.specs.declared.row.Row.TheVariants.{PairRow, GrantRow, SetRow};
ghost use Rattle.rbac_sets.specs.declared.row.Change.TheVariants.{Put, Take};
ghost use Rattle.admin_mgr.specs.private.PlanChanges.{pair_row, grant_row, take_all, put_all};

use chunked_sets::Run;
use rbac_sets::{Change, Name, Refusal, Row};
use std::alloc::Global;

// The row of a pair.
pub(crate) fn pair_row(alloc: Global, kind: u8, a: &Name, b: &Name) -> Result<Row, Refusal>
    ensures ok { IfOk result (λ row. row ≡ PairRow kind a.now b.now) }
    ensures cause { IfErr result (λ refusal. refusal ≡ Refusal.Memory) }
{
    Ok(Row::PairRow(kind, a.copy(alloc)?, b.copy(alloc)?))
}

// The row of a grant.
pub(crate) fn grant_row(
    alloc: Global,
    object: &Name,
    operation: &Name,
    role: &Name,
) -> Result<Row, Refusal>
    ensures ok { IfOk result (λ row. row ≡ GrantRow object.now operation.now role.now) }
    ensures cause { IfErr result (λ refusal. refusal ≡ Refusal.Memory) }
{
    Ok(Row::GrantRow(
        object.copy(alloc)?,
        operation.copy(alloc)?,
        role.copy(alloc)?,
    ))
}

// The row of a separation of duty set's cardinality.
pub(crate) fn set_row(alloc: Global, kind: u8, set: &Name, cardinality: u32) -> Result<Row, Refusal>
    ensures ok { IfOk result (λ row. row ≡ SetRow kind set.now cardinality) }
    ensures cause { IfErr result (λ refusal. refusal ≡ Refusal.Memory) }
{
    Ok(Row::SetRow(kind, set.copy(alloc)?, cardinality))
}

// Adds the change that puts the row.
pub(crate) fn put(changes: &mut Vec<Change>, row: Row) -> Result<(), Refusal>
    ensures ok { OnOk result (changes.new.items ≡ changes.old.items ++ Put row ∷ []) }
    ensures cause { IfErr result (λ refusal. refusal ≡ Refusal.Memory) }
{
    changes.push(Change::Put(row))?;
    Ok(())
}

// Adds the change that takes the row.
pub(crate) fn take(changes: &mut Vec<Change>, row: Row) -> Result<(), Refusal>
    ensures ok { OnOk result (changes.new.items ≡ changes.old.items ++ Take row ∷ []) }
    ensures cause { IfErr result (λ refusal. refusal ≡ Refusal.Memory) }
{
    changes.push(Change::Take(row))?;
    Ok(())
}

// Adds the changes that take the row of each pair.
pub(crate) fn take_pairs(
    alloc: Global,
    changes: &mut Vec<Change>,
    kind: u8,
    pairs: &Run<'_, (Name, Name)>,
) -> Result<(), Refusal>
    ensures ok { OnOk result (changes.new.items ≡ changes.old.items ++ take_all (pair_row kind) pairs.now) }
    ensures cause { IfErr result (λ refusal. refusal ≡ Refusal.Memory) }
{
    for pair in pairs.iter() {
        take(changes, pair_row(alloc, kind, &pair.0, &pair.1)?)?;
    }
    Ok(())
}

// Adds the changes that put the row of each pair.
pub(crate) fn put_pairs(
    alloc: Global,
    changes: &mut Vec<Change>,
    kind: u8,
    pairs: &[(Name, Name)],
) -> Result<(), Refusal>
    ensures ok { OnOk result (changes.new.items ≡ changes.old.items ++ put_all (pair_row kind) pairs.now) }
    ensures cause { IfErr result (λ refusal. refusal ≡ Refusal.Memory) }
{
    for pair in pairs {
        put(changes, pair_row(alloc, kind, &pair.0, &pair.1)?)?;
    }
    Ok(())
}

// Adds the changes that take the row of each pair, given with its second name first.
pub(crate) fn take_turned_pairs(
    alloc: Global,
    changes: &mut Vec<Change>,
    kind: u8,
    pairs: &Run<'_, (Name, Name)>,
) -> Result<(), Refusal>
    ensures ok { OnOk result (changes.new.items ≡ changes.old.items ++ list_map (λ (pair : Pair). Take (PairRow kind pair.1 pair.0)) pairs.now) }
    ensures cause { IfErr result (λ refusal. refusal ≡ Refusal.Memory) }
{
    for pair in pairs.iter() {
        take(changes, pair_row(alloc, kind, &pair.1, &pair.0)?)?;
    }
    Ok(())
}

// Adds the changes that put the row of the name with each of the others.
pub(crate) fn put_paired(
    alloc: Global,
    changes: &mut Vec<Change>,
    kind: u8,
    name: &Name,
    others: &[Name],
) -> Result<(), Refusal>
    ensures ok { OnOk result (changes.new.items ≡ changes.old.items ++ put_all (λ other. PairRow kind name.now other) others.now) }
    ensures cause { IfErr result (λ refusal. refusal ≡ Refusal.Memory) }
{
    for other in others {
        put(changes, pair_row(alloc, kind, name, other)?)?;
    }
    Ok(())
}

// Adds the changes that take the row of each grant.
pub(crate) fn take_grants(
    alloc: Global,
    changes: &mut Vec<Change>,
    grants: &Run<'_, (Name, Name, Name)>,
) -> Result<(), Refusal>
    ensures ok { OnOk result (changes.new.items ≡ changes.old.items ++ take_all grant_row grants.now) }
    ensures cause { IfErr result (λ refusal. refusal ≡ Refusal.Memory) }
{
    for grant in grants.iter() {
        take(changes, grant_row(alloc, &grant.0, &grant.1, &grant.2)?)?;
    }
    Ok(())
}

// Adds the changes that take the row of each grant, given with its role first.
pub(crate) fn take_turned_grants(
    alloc: Global,
    changes: &mut Vec<Change>,
    grants: &Run<'_, (Name, Name, Name)>,
) -> Result<(), Refusal>
    ensures ok { OnOk result (changes.new.items ≡ changes.old.items ++ list_map (λ (grant : Triple). Take (GrantRow grant.1 grant.2 grant.0)) grants.now) }
    ensures cause { IfErr result (λ refusal. refusal ≡ Refusal.Memory) }
{
    for grant in grants.iter() {
        take(changes, grant_row(alloc, &grant.1, &grant.2, &grant.0)?)?;
    }
    Ok(())
}
