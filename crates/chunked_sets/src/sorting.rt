//! Lists that are put in order.
ghost use Rattle.std.specs.Prelude.{◌≡◌, IfOk, IfErr};
ghost use Rattle.std.specs.List.Sorted.{IsStrictlySortedBy};
ghost use Rattle.rbac_sets.specs.Sets.{from_list};

use rbac_sets::{Entry, Refusal};

/// The entries of the list in their order, each once.
///
/// # Errors
///
/// `Memory` if allocation failed.
pub fn sorted_once<K: Entry>(entries: Vec<K>) -> Result<Vec<K>, Refusal>
    ensures sorted { IfOk result (λ sorted. IsStrictlySortedBy K.cmp sorted.items) }
    ensures same { IfOk result (λ sorted. from_list {R = K.cmp} sorted.items ≡ from_list entries.items) }
    ensures cause { IfErr result (λ refusal. refusal ≡ Refusal.Memory) }
{
    let mut sorted = entries;
    sorted.sort()?;
    sorted.dedup();
    Ok(sorted)
}
