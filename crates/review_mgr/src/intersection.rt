//! Whether one of the activated roles, or a junior of one, is among the roles of some grants.
ghost use Rattle.std.specs.Prelude.{◌≡◌, ◌<◌, ◌≤◌, ◌-◌, true, false, length};
ghost use Rattle.std.specs.List.{All, AllWithin, HoldsAt, list_any};
ghost use Rattle.std.specs.List.Sorted.{IsStrictlySortedBy};
ghost use Rattle.std.specs.declared.cmp.Ordering.TheVariants.{Less};
ghost use Rattle.rbac_sets.specs.Sets.{Bytes, Pair, Triple, name_cmp, pair_cmp};
ghost use Rattle.rbac_sets.specs.SortedSet.{set_of};
ghost use Rattle.admin_mgr.specs.private.HolderRoles.{is_reached, run_of};
ghost use Rattle.role_order.specs.private.Checked.{second_cmp};
ghost use Rattle.review_mgr.specs.private.Intersection.{may_have, meets, third_cmp};

use crate::fingerprints::{fingerprints_of, may_have};
use admin_mgr::is_reached;
use chunked_sets::{EntrySet, Run};
use rbac_sets::Name;
use role_order::RoleOrder;
use std::cmp::Ordering;

// Up to this many grants are compared without their fingerprints, which would cost more than they save.
const FEW_GRANTS: usize = 32;

// A pair that ends with a role, or a grant to one.
trait OfRole {
    // The role.
    ghost role: { Self → Bytes };

    fn role(&self) -> &Name
        ensures { result.now ≡ role self.now };
}

impl OfRole for (Name, Name) {
    ghost role = { λ pair. pair.1 };

    fn role(&self) -> &Name {
        &self.1
    }
}

impl OfRole for (Name, Name, Name) {
    ghost role = { λ grant. grant.2 };

    fn role(&self) -> &Name {
        &self.2
    }
}

// Goes on from a place whose role is less than `name`, by steps that double, as long as the roles are less:
// returns the last such place, and the step that was too far.
fn leap<T: OfRole>(entries: &[T], at: usize, name: &Name) -> (usize, usize)
    requires within { at < length entries.now }
    requires below { HoldsAt (λ entry. name_cmp (T.role entry) name.now ≡ Less) entries.now at }
    ensures within { (at ≤ result.0) × (result.0 < length entries.now) }
    ensures below { HoldsAt (λ entry. name_cmp (T.role entry) name.now ≡ Less) entries.now result.0 }
{
    let mut low = at;
    let mut step = 1;
    while step < entries.len() - low && entries[low + step].role().cmp(name).is_lt() {
        low += step;
        step = step.saturating_mul(2);
    }
    (low, step)
}

// A place behind one whose role is less than `name`, such that the role before it is less, too. It is found by
// steps that double and then halve, so that its time grows with the logarithm of the distance.
fn past<T: OfRole>(entries: &[T], at: usize, name: &Name) -> usize
    requires within { at < length entries.now }
    requires below { HoldsAt (λ entry. name_cmp (T.role entry) name.now ≡ Less) entries.now at }
    ensures bound { (at < result) × (result ≤ length entries.now) }
    ensures below { HoldsAt (λ entry. name_cmp (T.role entry) name.now ≡ Less) entries.now (result - 1) }
{
    let (mut low, mut step) = leap(entries, at, name);
    while step > 1 {
        step /= 2;
        if step < entries.len() - low && entries[low + step].role().cmp(name).is_lt() {
            low += step;
        }
    }
    low + 1
}

// The first place from this one on at which the role of the pair may be one of those whose fingerprints are
// flagged, or the end.
fn first_candidate(pairs: &[(Name, Name)], at: usize, flags: &[bool]) -> usize
    requires { at ≤ length pairs.now }
    ensures bound { (at ≤ result) × (result ≤ length pairs.now) }
    ensures passed { AllWithin (λ (pair : Pair). may_have flags.now pair.1 ≡ false) pairs.now at result }
{
    let mut place = at;
    while place < pairs.len() && !may_have(flags, &pairs[place].1) {
        place += 1;
    }
    place
}

// Whether the role of one of the grants is the second part of one of the pairs. It goes once through both. It
// skips by doubled steps the roles that are less than the next role of the other list, and then pairs whose
// roles have no flagged fingerprint: the fingerprints of the grants' roles are flagged.
fn meets(pairs: &[(Name, Name)], grants: &[(Name, Name, Name)], flags: &[bool]) -> bool
    requires pairs { IsStrictlySortedBy second_cmp pairs.now }
    requires grants { IsStrictlySortedBy third_cmp grants.now }
    requires flags { All (λ (grant : Triple). may_have flags.now grant.2 ≡ true) grants.now }
    ensures { result ≡ meets pairs.now grants.now }
{
    let mut at = 0;
    let mut next = 0;
    while at < pairs.len() && next < grants.len() {
        match pairs[at].1.cmp(&grants[next].2) {
            Ordering::Equal => return true,
            Ordering::Less => {
                let behind = past(pairs, at, &grants[next].2);
                at = first_candidate(pairs, behind, flags);
            }
            Ordering::Greater => next = past(grants, next, &pairs[at].1),
        }
    }
    false
}

// The same for pairs in several parts.
fn meets_run(run: &Run<'_, (Name, Name)>, grants: &[(Name, Name, Name)], flags: &[bool]) -> bool
    requires pairs { IsStrictlySortedBy second_cmp run.now }
    requires grants { IsStrictlySortedBy third_cmp grants.now }
    requires flags { All (λ (grant : Triple). may_have flags.now grant.2 ≡ true) grants.now }
    ensures { result ≡ meets run.now grants.now }
{
    let mut entries = run.iter();
    while let Some(part) = entries.next_part() {
        if meets(part, grants, flags) {
            return true;
        }
    }
    false
}

// Whether the role of one of the grants is in the run of the second part of one of `held`.
fn is_granted_to_junior<P: EntrySet<(Name, Name)>>(
    pairs: &P,
    held: &[(Name, Name)],
    grants: &[(Name, Name, Name)],
    flags: &[bool],
) -> bool
    requires grants { IsStrictlySortedBy third_cmp grants.now }
    requires flags { All (λ (grant : Triple). may_have flags.now grant.2 ≡ true) grants.now }
    ensures { result ≡ list_any (λ (pair : Pair). meets (run_of (set_of pair_cmp (P.stored pairs.now)) pair.1) grants.now) held.now }
{
    for pair in held {
        if meets_run(&pairs.entries_with_first(&pair.1), grants, flags) {
            return true;
        }
    }
    false
}

// Whether the role of one of the grants is the second part of one of `held` or a junior of one, by the runs of
// these in the closure.
fn is_granted_by_runs(
    order: &RoleOrder,
    held: &[(Name, Name)],
    grants: &[(Name, Name, Name)],
    flags: &[bool],
) -> bool
    requires held { IsStrictlySortedBy second_cmp held.now }
    requires grants { IsStrictlySortedBy third_cmp grants.now }
    requires flags { All (λ (grant : Triple). may_have flags.now grant.2 ≡ true) grants.now }
    ensures { result ≡ list_any (λ (grant : Triple). is_reached order.now.edges held.now grant.2) grants.now }
{
    let pairs = order.pairs();
    meets(held, grants, flags) || is_granted_to_junior(pairs, held, grants, flags)
}

// The same, by the runs and by the fingerprints of the roles of the grants.
fn is_granted_by_fingerprints(
    order: &RoleOrder,
    held: &[(Name, Name)],
    grants: &[(Name, Name, Name)],
) -> bool
    requires held { IsStrictlySortedBy second_cmp held.now }
    requires grants { IsStrictlySortedBy third_cmp grants.now }
    ensures { result ≡ list_any (λ (grant : Triple). is_reached order.now.edges held.now grant.2) grants.now }
{
    let flags = fingerprints_of(grants);
    is_granted_by_runs(order, held, grants, &flags)
}

// Whether the role of one of the grants is the second part of one of `held` or a junior of one. One or two
// grants are tested one by one, which costs less than a search for the runs.
fn is_part_granted(order: &RoleOrder, held: &[(Name, Name)], grants: &[(Name, Name, Name)]) -> bool
    requires held { IsStrictlySortedBy second_cmp held.now }
    requires grants { IsStrictlySortedBy third_cmp grants.now }
    ensures { result ≡ list_any (λ (grant : Triple). is_reached order.now.edges held.now grant.2) grants.now }
{
    if grants.len() > FEW_GRANTS {
        return is_granted_by_fingerprints(order, held, grants);
    }
    if grants.len() > 2 {
        return is_granted_by_runs(order, held, grants, &[]);
    }
    let held = Run::of(held);
    grants
        .iter()
        .any(|grant| is_reached(order, &held, &grant.2))
}

// The same for `held` in several parts.
fn is_granted_to_parts(
    order: &RoleOrder,
    held: &Run<'_, (Name, Name)>,
    grants: &[(Name, Name, Name)],
) -> bool
    requires held { IsStrictlySortedBy second_cmp held.now }
    requires grants { IsStrictlySortedBy third_cmp grants.now }
    ensures { result ≡ list_any (λ (grant : Triple). is_reached order.now.edges held.now grant.2) grants.now }
{
    let mut entries = held.iter();
    while let Some(part) = entries.next_part() {
        if is_part_granted(order, part, grants) {
            return true;
        }
    }
    false
}

// The same for grants in several parts, too.
pub(crate) fn is_granted(
    order: &RoleOrder,
    held: &Run<'_, (Name, Name)>,
    grants: &Run<'_, (Name, Name, Name)>,
) -> bool
    requires held { IsStrictlySortedBy second_cmp held.now }
    requires grants { IsStrictlySortedBy third_cmp grants.now }
    ensures { result ≡ list_any (λ (grant : Triple). is_reached order.now.edges held.now grant.2) grants.now }
{
    let mut entries = grants.iter();
    while let Some(part) = entries.next_part() {
        if is_granted_to_parts(order, held, part) {
            return true;
        }
    }
    false
}
