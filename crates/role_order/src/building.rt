//! Sets that are built in byte order: each entry is appended.
ghost use Rattle.std.specs.Prelude.{◌≡◌, ◌↔◌, ◌⊎◌, IsTrue, true, Contains, IfOk, IfErr, OnOk, map};
ghost use Rattle.std.specs.List.Sorted.{IsStrictlySortedBy};
ghost use Rattle.std.specs.declared.cmp.Ordering.TheVariants.{Less};
ghost use Rattle.rbac_sets.specs.Sets.{Bytes, Pair, name_cmp, pair_cmp, contains, insert};
ghost use Rattle.rbac_sets.specs.SortedSet.{set_of};
ghost use Rattle.role_order.specs.Order.{HasPair, Leads};
ghost use Rattle.role_order.specs.private.Numbered.{HasNamedEdge, number_of};

use crate::numbered::Numbered;
use rbac_sets::{Entry, Name, NameSet, PairSet, Refusal, SortedSet};
use std::alloc::Global;

// Appends an entry that is greater than all that are there.
pub fn push<K: Entry>(set: &mut SortedSet<K>, entry: K) -> Result<(), Refusal>
    requires { (x : K) → contains (set_of K.cmp set.old) x ≡ true → K.cmp x entry ≡ Less }
    ensures ok { OnOk result (set_of K.cmp set.new ≡ insert (set_of K.cmp set.old) entry) }
    ensures cause { IfErr result (λ refusal. refusal ≡ Refusal.Memory) }
{
    set.reserve(1)?;
    set.push_last(entry);
    Ok(())
}

// Appends the pairs of `a` and each of `below` to which the edges don't lead from it. Those that are there begin with lesser names.
fn missing_in_row(
    alloc: Global,
    numbered: &Numbered,
    pairs: &mut PairSet,
    a: &Name,
    below: &[Name],
    numbers: &[Option<usize>],
) -> Result<(), Refusal>
    requires first { (p : Pair) → IsTrue (contains (set_of pair_cmp pairs.old) p) → name_cmp p.0 a.now ≡ Less }
    requires rising { IsStrictlySortedBy name_cmp below.now }
    requires numbers { numbers.now ≡ map (number_of numbered.now.numbers) below.now }
    ensures pairs { OnOk result ((x y : Bytes) → HasPair (set_of pair_cmp pairs.new) x y
        ↔ (HasPair (set_of pair_cmp pairs.old) x y ⊎ ((x ≡ a.now) × (Contains below.now y × (Leads (HasNamedEdge numbered.now) a.now y → ⊥))))) }
    ensures cause { IfErr result (λ refusal. refusal ≡ Refusal.Memory) }
{
    let from = numbered.number(a);
    for i in 0..below.len() {
        let b = &below[i];
        if !numbered.is_geq(a, from, b, numbers[i]) {
            push(pairs, (a.copy(alloc)?, b.copy(alloc)?))?;
        }
    }
    Ok(())
}

// The pairs of each of `above` and each of `below` that are two names between which the edges don't lead. Each name is searched for once.
pub fn missing_pairs(
    alloc: Global,
    numbered: &Numbered,
    above: &NameSet,
    below: &NameSet,
) -> Result<PairSet, Refusal>
    ensures pairs { IfOk result (λ pairs. (x y : Bytes) → HasPair (set_of pair_cmp pairs) x y
        ↔ (IsTrue (contains (set_of name_cmp above.now) x) × (IsTrue (contains (set_of name_cmp below.now) y) × (Leads (HasNamedEdge numbered.now) x y → ⊥)))) }
    ensures cause { IfErr result (λ refusal. refusal ≡ Refusal.Memory) }
{
    let numbers = numbered.numbers_of(alloc, below.as_slice())?;
    let mut pairs = PairSet::new(alloc);
    for a in above.as_slice() {
        missing_in_row(alloc, numbered, &mut pairs, a, below.as_slice(), &numbers)?;
    }
    Ok(pairs)
}
