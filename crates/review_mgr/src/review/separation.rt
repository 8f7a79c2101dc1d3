//! The static and the dynamic separation of duty sets.
ghost use Rattle.std.specs.Prelude.{◌≡◌, ◌⊎◌, Some, None, OnOk, IfOk, IfErr};
ghost use Rattle.rbac_sets.specs.Sets.{members};
ghost use Rattle.review_mgr.specs.declared.query.Query.TheVariants.{SsdRoleSets, SsdRoleSetRoles, SsdRoleSetCardinality, DsdRoleSets, DsdRoleSetRoles, DsdRoleSetCardinality};
ghost use Rattle.review_mgr.specs.Questions.{refused};
ghost use Rattle.admin_mgr.specs.RbacState.{members_of, cardinality_of};
ghost use Rattle.review_mgr.specs.Review.{role_sets};

use crate::gather::{names_of, seconds_of};
use crate::lookup::{has_dsd_set, has_ssd_set};
use admin_mgr::State;
use rbac_sets::{Name, Refusal};
use std::alloc::Global;

/// SsdRoleSets: the names of the static separation of duty sets.
///
/// # Errors
///
/// `Memory` if allocation failed.
#[tactic(auto, unfolding(crate::specs::Questions::refused, crate::specs::Questions::refusals, crate::specs::Review::role_sets))]
pub fn ssd_role_sets(alloc: Global, state: &State) -> Result<Vec<Name>, Refusal>
    ensures answered { OnOk result (refused state.now.facts SsdRoleSets ≡ None) }
    ensures value { IfOk result (λ names. names.items ≡ members (role_sets state.now.facts.ssd)) }
    ensures refused { IfErr result (λ refusal. refusal ≡ Refusal.Memory) }
{
    names_of(alloc, state.ssd_cardinalities())
}

/// SsdRoleSetRoles: the roles of a static separation of duty set.
///
/// # Errors
///
/// `NoSet` if there is no such set. `Memory` if allocation failed.
#[tactic(auto, unfolding(crate::specs::Questions::refused, crate::specs::Questions::refusals))]
pub fn ssd_role_set_roles(alloc: Global, state: &State, set: &Name) -> Result<Vec<Name>, Refusal>
    ensures answered { OnOk result (refused state.now.facts (SsdRoleSetRoles set.now) ≡ None) }
    ensures value { IfOk result (λ names. names.items ≡ members (members_of state.now.facts.ssd set.now)) }
    ensures refused { IfErr result (λ refusal. (refusal ≡ Refusal.Memory) ⊎ (refused state.now.facts (SsdRoleSetRoles set.now) ≡ Some refusal)) }
{
    if !has_ssd_set(state, set) {
        return Err(Refusal::NoSet);
    }
    seconds_of(alloc, state.ssd_members(), set)
}

/// SsdRoleSetCardinality: the cardinality of a static separation of duty set. It doesn't allocate.
///
/// # Errors
///
/// `NoSet` if there is no such set.
#[tactic(auto, unfolding(crate::specs::Questions::refused, crate::specs::Questions::refusals))]
pub fn ssd_role_set_cardinality(state: &State, set: &Name) -> Result<u32, Refusal>
    ensures answered { OnOk result (refused state.now.facts (SsdRoleSetCardinality set.now) ≡ None) }
    ensures value { IfOk result (λ cardinality. cardinality_of state.now.facts.ssd set.now ≡ Some cardinality) }
    ensures refused { IfErr result (λ refusal. refused state.now.facts (SsdRoleSetCardinality set.now) ≡ Some refusal) }
{
    match state.ssd_n(set) {
        Some(cardinality) => Ok(cardinality),
        None => Err(Refusal::NoSet),
    }
}

/// DsdRoleSets: the names of the dynamic separation of duty sets.
///
/// # Errors
///
/// `Memory` if allocation failed.
#[tactic(auto, unfolding(crate::specs::Questions::refused, crate::specs::Questions::refusals, crate::specs::Review::role_sets))]
pub fn dsd_role_sets(alloc: Global, state: &State) -> Result<Vec<Name>, Refusal>
    ensures answered { OnOk result (refused state.now.facts DsdRoleSets ≡ None) }
    ensures value { IfOk result (λ names. names.items ≡ members (role_sets state.now.facts.dsd)) }
    ensures refused { IfErr result (λ refusal. refusal ≡ Refusal.Memory) }
{
    names_of(alloc, state.dsd_cardinalities())
}

/// DsdRoleSetRoles: the roles of a dynamic separation of duty set.
///
/// # Errors
///
/// `NoSet` if there is no such set. `Memory` if allocation failed.
#[tactic(auto, unfolding(crate::specs::Questions::refused, crate::specs::Questions::refusals))]
pub fn dsd_role_set_roles(alloc: Global, state: &State, set: &Name) -> Result<Vec<Name>, Refusal>
    ensures answered { OnOk result (refused state.now.facts (DsdRoleSetRoles set.now) ≡ None) }
    ensures value { IfOk result (λ names. names.items ≡ members (members_of state.now.facts.dsd set.now)) }
    ensures refused { IfErr result (λ refusal. (refusal ≡ Refusal.Memory) ⊎ (refused state.now.facts (DsdRoleSetRoles set.now) ≡ Some refusal)) }
{
    if !has_dsd_set(state, set) {
        return Err(Refusal::NoSet);
    }
    seconds_of(alloc, state.dsd_members(), set)
}

/// DsdRoleSetCardinality: the cardinality of a dynamic separation of duty set. It doesn't allocate.
///
/// # Errors
///
/// `NoSet` if there is no such set.
#[tactic(auto, unfolding(crate::specs::Questions::refused, crate::specs::Questions::refusals))]
pub fn dsd_role_set_cardinality(state: &State, set: &Name) -> Result<u32, Refusal>
    ensures answered { OnOk result (refused state.now.facts (DsdRoleSetCardinality set.now) ≡ None) }
    ensures value { IfOk result (λ cardinality. cardinality_of state.now.facts.dsd set.now ≡ Some cardinality) }
    ensures refused { IfErr result (λ refusal. refused state.now.facts (DsdRoleSetCardinality set.now) ≡ Some refusal) }
{
    match state.dsd_n(set) {
        Some(number) => Ok(number),
        None => Err(Refusal::NoSet),
    }
}
