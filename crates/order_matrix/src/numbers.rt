//! The numbers of names.
ghost use Rattle.std.specs.Prelude.{◌≡◌, IsTrue, Some, IfOk, IfErr};
ghost use Rattle.std.specs.List.{slice_get};
ghost use Rattle.std.specs.List.Sorted.{IsStrictlySortedBy};
ghost use Rattle.rbac_sets.specs.Sets.{name_cmp, contains, from_list};
ghost use Rattle.order_matrix.specs.Table.{number_in, numbers_of};

use chunked_sets::Run;
use rbac_sets::{Name, Refusal};
use std::alloc::Global;

/// The number of a name among names in byte order: how many of them are less than it, which is its
/// place if it is one of them.
///
/// It doesn't allocate.
pub fn number(names: &[Name], name: &Name) -> usize
    requires { IsStrictlySortedBy name_cmp names.now }
    ensures number { result ≡ number_in names.now name.now }
    ensures place { IsTrue (contains (from_list {R = name_cmp} names.now) name.now) → slice_get names.now result ≡ Some name.now }
{
    names.partition_point(|other| other.cmp(name).is_lt())
}

/// The numbers of the second names of the pairs among names in byte order, in the order of the pairs.
///
/// # Errors
///
/// `Memory` if allocation failed.
pub fn second_numbers(
    alloc: Global,
    names: &[Name],
    pairs: &Run<'_, (Name, Name)>,
) -> Result<Vec<usize>, Refusal>
    requires { IsStrictlySortedBy name_cmp names.now }
    ensures ok { IfOk result (λ numbers. numbers.items ≡ numbers_of names.now pairs.now) }
    ensures cause { IfErr result (λ refusal. refusal ≡ Refusal.Memory) }
{
    let mut numbers = Vec::new(alloc);
    numbers.reserve(pairs.len())?;
    for pair in pairs.iter() {
        numbers.push(number(names, &pair.1))?;
    }
    Ok(numbers)
}
