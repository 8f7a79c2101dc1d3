//! The refusals of commands on separation of duty sets.
ghost use Rattle.std.specs.Prelude.{◌≡◌, ◌&&◌, IfOk, None, Some, cond, nat_le};
ghost use Rattle.rbac_sets.specs.Sets.{Cardinality, Pairs, any, cardinality_cmp, len, name_cmp, pair_cmp, same_name, seconds};
ghost use Rattle.rbac_sets.specs.SortedSet.{set_of};
ghost use Rattle.admin_mgr.specs.StateWithRoom.{separation_of};
ghost use Rattle.admin_mgr.specs.RbacState.{Separation, is_below};
ghost use Rattle.admin_mgr.specs.Refusals.{first};
ghost use Rattle.admin_mgr.specs.private.SeparationOfDuty.{refusal_of};
ghost use Rattle.admin_mgr.specs.Verdict.{create_set_refusals, add_member_refusals, delete_member_refusals, set_cardinality_refusals};

use crate::judge::violation::copied;
use crate::limits::{is_full, is_too_many};
use crate::lookup::{are_in, number_of};
use crate::separation_of_duty::SeparationOfDuty;
use crate::state::State;
use chunked_sets::EntrySet;
use rbac_sets::{CountSet, Kind, Name, NameSet, PairSet, Refusal};
use std::alloc::{AllocError, Global};

// Whether there is a set of this name.
#[tactic(auto, using(rbac_sets::proofs::Lists::is_some_found), unfolding(rbac_sets::specs::Sets::any))]
pub(crate) fn has_set(cardinalities: &CountSet, set: &Name) -> bool
    ensures { result ≡ any (λ (entry : Cardinality). same_name entry.0 set.now) (set_of cardinality_cmp cardinalities.now) }
{
    number_of(cardinalities, set).is_some()
}

// How many members a set has, or how many roles a session.
pub(crate) fn member_count<P: EntrySet<(Name, Name)>>(members: &P, set: &Name) -> usize
    ensures { result ≡ len (seconds (set_of pair_cmp (P.stored members.now)) set.now) }
{
    members.entries_with_first(set).len()
}

// Why there can't be a new set of these roles, without the check that nobody violates it. `kind` is the
// kind of the sets; it doesn't matter which members the other sets have.
#[tactic(auto, unfolding(rbac_sets::specs::Sets::all))]
pub(crate) fn refuse_set(
    state: &State,
    kind: Kind,
    cardinalities: &CountSet,
    set: &Name,
    roles: &NameSet,
    cardinality: u32,
) -> Option<Refusal>
    ensures { (members : Pairs) → result ≡ first (create_set_refusals state.now.facts
        (record { members = members; cardinalities = set_of cardinality_cmp cardinalities.now }) kind set.now (set_of name_cmp roles.now) cardinality) }
{
    if !are_in(roles.as_slice(), state.roles()) {
        return Some(Refusal::NoRole);
    }
    if has_set(cardinalities, set) {
        return Some(Refusal::SetExists);
    }
    if !is_cardinality(cardinality, roles.len()) {
        return Some(Refusal::BadCardinality);
    }
    if is_full(state, kind, cardinalities.len()) {
        return Some(Refusal::TooMany(kind));
    }
    if is_too_many(state, Kind::Member, roles.len()) {
        return Some(Refusal::TooMany(Kind::Member));
    }
    None
}

// Why a role can't become a member of a set, without the check that nobody violates the set then.
pub(crate) fn refuse_member(
    state: &State,
    members: &PairSet,
    cardinalities: &CountSet,
    set: &Name,
    role: &Name,
) -> Option<Refusal>
    ensures { result ≡ first (add_member_refusals state.now.facts (separation_of members.now cardinalities.now) set.now role.now) }
{
    if !has_set(cardinalities, set) {
        return Some(Refusal::NoSet);
    }
    if !state.roles().contains(role) {
        return Some(Refusal::NoRole);
    }
    if members.contains((set, role)) {
        return Some(Refusal::MemberExists);
    }
    if is_full(state, Kind::Member, member_count(members, set)) {
        return Some(Refusal::TooMany(Kind::Member));
    }
    None
}

// Why a member can't be removed from a set.
#[tactic(auto, unfolding(crate::specs::RbacState::cardinality_of))]
pub(crate) fn refuse_member_removal(
    state: &State,
    members: &PairSet,
    cardinalities: &CountSet,
    set: &Name,
    role: &Name,
) -> Option<Refusal>
    ensures { result ≡ first (delete_member_refusals state.now.facts (separation_of members.now cardinalities.now) set.now role.now) }
{
    if !has_set(cardinalities, set) {
        return Some(Refusal::NoSet);
    }
    if !state.roles().contains(role) {
        return Some(Refusal::NoRole);
    }
    if !members.contains((set, role)) {
        return Some(Refusal::NoMember);
    }
    if !is_below(number_of(cardinalities, set), member_count(members, set)) {
        return Some(Refusal::BadCardinality);
    }
    None
}

// Why a set can't have this cardinality, without the check that nobody violates the set then.
pub(crate) fn refuse_cardinality(
    members: &PairSet,
    cardinalities: &CountSet,
    set: &Name,
    cardinality: u32,
) -> Option<Refusal>
    ensures { result ≡ first (set_cardinality_refusals (separation_of members.now cardinalities.now) set.now cardinality) }
{
    if !has_set(cardinalities, set) {
        return Some(Refusal::NoSet);
    }
    if !is_cardinality(cardinality, member_count(members, set)) {
        return Some(Refusal::BadCardinality);
    }
    None
}

// The refusal that names this set if it is violated, that is, unless `kept`.
pub(crate) fn refuse_violated(
    alloc: Global,
    duty: SeparationOfDuty,
    kept: bool,
    set: &Name,
) -> Result<Option<Refusal>, AllocError>
    ensures { IfOk result (λ found. found ≡ cond kept None (Some (refusal_of duty set.now))) }
{
    if kept {
        return Ok(None);
    }
    let set = copied(alloc, set)?;
    Ok(Some(duty.refusal(set)))
}

// Whether a cardinality is at least 2 and at most the number of roles.
pub(crate) fn is_cardinality(cardinality: u32, roles: usize) -> bool
    ensures { result ≡ (nat_le 2 cardinality && nat_le cardinality roles) }
{
    cardinality >= 2 && cardinality as usize <= roles
}

// Whether the number is less than the count; true if there is no number.
fn is_below(number: Option<u32>, count: usize) -> bool
    ensures { result ≡ is_below number count }
{
    match number {
        Some(number) => (number as usize) < count,
        None => true,
    }
}
