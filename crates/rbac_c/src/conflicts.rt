//! The separation of duty sets that a command would violate, copied into the buffers of a caller. Names may be any bytes.
ghost use Rattle.std.specs.Prelude.{◌≡◌, ◌⊎◌, Some, IfOk, IfErr};
ghost use Rattle.std.specs.List.{All};
ghost use Rattle.rbac_sets.specs.Sets.{from_list, name_cmp};
ghost use Rattle.rbac_sets.specs.SortedSet.{set_of};
ghost use Rattle.role_lines.specs.Decision.{IsNameText};
ghost use Rattle.rbac_c.specs.Conflicts.{CopiesActivation, CopiesAssignment, CopiesCreation, CopiesInheritance, CopiesNames, CopiesPairs, RefusesActivation, RefusesAssignment, RefusesCreation, RefusesInheritance, ViolatesByCreation, ViolatesByInheritance, ViolatesInSession, ViolatesSets, divided};

use crate::calls::{DONE, RowLengths};
use crate::copying::copy_rows;
use admin_mgr::State;
use explanations::{
    violated_by_activation, violated_by_assignment, violated_by_creation, violated_by_inheritance,
    violated_in_sessions,
};
use rbac_sets::{Name, NameSet, Refusal};
use role_lines::{MemoryOffice, TableRows};
use std::alloc::Global;

// Copies the sets from this place on of those that the assignment would violate.
pub(crate) fn copy_assignment(
    alloc: Global,
    office: &MemoryOffice,
    user: &[u8],
    role: &[u8],
    index: usize,
    out: &mut [u8],
    lengths: &mut [RowLengths],
    count: &mut usize,
    total: &mut usize,
) -> u32
    ensures { CopiesAssignment (Some office.now) user.now role.now index (out.old, lengths.old) (out.new, lengths.new) (record { count = count.new; total = total.new; code = result }) }
{
    *count = 0;
    *total = 0;
    match assignment_conflicts(alloc, office.state(), user, role) {
        Ok(names) => copy_names(&names, index, out, lengths, count, total),
        Err(refusal) => refusal.code(),
    }
}

// Copies the sets from this place on of those that the activation would violate.
pub(crate) fn copy_activation(
    alloc: Global,
    office: &MemoryOffice,
    user: &[u8],
    session: &[u8],
    role: &[u8],
    index: usize,
    out: &mut [u8],
    lengths: &mut [RowLengths],
    count: &mut usize,
    total: &mut usize,
) -> u32
    ensures { CopiesActivation (Some office.now) user.now session.now role.now index (out.old, lengths.old) (out.new, lengths.new) (record { count = count.new; total = total.new; code = result }) }
{
    *count = 0;
    *total = 0;
    match activation_conflicts(alloc, office.state(), user, session, role) {
        Ok(names) => copy_names(&names, index, out, lengths, count, total),
        Err(refusal) => refusal.code(),
    }
}

// Copies the sets from this place on of those that the inheritance would violate, each with who violates it.
pub(crate) fn copy_inheritance(
    alloc: Global,
    office: &MemoryOffice,
    of_sessions: bool,
    asc: &[u8],
    desc: &[u8],
    index: usize,
    out: &mut [u8],
    lengths: &mut [RowLengths],
    count: &mut usize,
    total: &mut usize,
) -> u32
    ensures { CopiesInheritance (Some office.now) of_sessions asc.now desc.now index (out.old, lengths.old) (out.new, lengths.new) (record { count = count.new; total = total.new; code = result }) }
{
    *count = 0;
    *total = 0;
    match inheritance_conflicts(alloc, office.state(), of_sessions, asc, desc) {
        Ok(pairs) => copy_pairs(&pairs, index, out, lengths, count, total),
        Err(refusal) => refusal.code(),
    }
}

// Copies the sets from this place on of those that the new session would violate, each with a role that it would have.
pub(crate) fn copy_creation(
    alloc: Global,
    office: &MemoryOffice,
    user: &[u8],
    roles: &[u8],
    role_lengths: &[usize],
    index: usize,
    out: &mut [u8],
    lengths: &mut [RowLengths],
    count: &mut usize,
    total: &mut usize,
) -> u32
    ensures { CopiesCreation (Some office.now) user.now (divided roles.now role_lengths.now) index (out.old, lengths.old) (out.new, lengths.new)
        (record { count = count.new; total = total.new; code = result }) }
{
    *count = 0;
    *total = 0;
    match creation_conflicts(alloc, office.state(), user, roles, role_lengths) {
        Ok(pairs) => copy_pairs(&pairs, index, out, lengths, count, total),
        Err(refusal) => refusal.code(),
    }
}

// Copies the names from this place on, and writes how many there are in all.
fn copy_names(
    names: &[Name],
    index: usize,
    out: &mut [u8],
    lengths: &mut [RowLengths],
    count: &mut usize,
    total: &mut usize,
) -> u32
    ensures { CopiesNames names.now index (out.old, lengths.old) (out.new, lengths.new) (record { count = count.new; total = total.new; code = result }) }
{
    *count = copy_rows(TableRows::of_names(names, index), out, lengths);
    *total = names.len();
    DONE
}

// Copies the pairs from this place on, and writes how many there are in all.
fn copy_pairs(
    pairs: &[(Name, Name)],
    index: usize,
    out: &mut [u8],
    lengths: &mut [RowLengths],
    count: &mut usize,
    total: &mut usize,
) -> u32
    ensures { CopiesPairs pairs.now index (out.old, lengths.old) (out.new, lengths.new) (record { count = count.new; total = total.new; code = result }) }
{
    *count = copy_rows(TableRows::of_pairs(pairs, index), out, lengths);
    *total = pairs.len();
    DONE
}

// The static separation of duty sets that would be violated if the user were assigned to the role. The two may be any bytes.
fn assignment_conflicts(
    alloc: Global,
    state: &State,
    user: &[u8],
    role: &[u8],
) -> Result<Vec<Name>, Refusal>
    ensures violated { IfOk result (λ names. ViolatesSets state.now.facts user.now role.now names.items) }
    ensures refused { IfErr result (λ refusal. RefusesAssignment state.now.facts user.now role.now refusal) }
{
    let user = owned(alloc, user)?;
    let role = owned(alloc, role)?;
    violated_by_assignment(alloc, state, &user, &role)
}

// The dynamic separation of duty sets that would be violated if the role were activated in the user's session. The three may
// be any bytes.
fn activation_conflicts(
    alloc: Global,
    state: &State,
    user: &[u8],
    session: &[u8],
    role: &[u8],
) -> Result<Vec<Name>, Refusal>
    ensures violated { IfOk result (λ names. ViolatesInSession state.now.facts user.now session.now role.now names.items) }
    ensures refused { IfErr result (λ refusal. RefusesActivation state.now.facts user.now session.now role.now refusal) }
{
    let user = owned(alloc, user)?;
    let session = owned(alloc, session)?;
    let role = owned(alloc, role)?;
    violated_by_activation(alloc, state, &user, &session, &role)
}

// The static separation of duty sets that would be violated if `asc` became an immediate ascendant of `desc`, each with the
// first user; or the dynamic ones with the first session. The two may be any bytes.
fn inheritance_conflicts(
    alloc: Global,
    state: &State,
    of_sessions: bool,
    asc: &[u8],
    desc: &[u8],
) -> Result<Vec<(Name, Name)>, Refusal>
    ensures violated { IfOk result (λ conflicts. ViolatesByInheritance state.now.facts asc.now desc.now of_sessions conflicts.items) }
    ensures refused { IfErr result (λ refusal. RefusesInheritance state.now.facts asc.now desc.now refusal) }
{
    let asc = owned(alloc, asc)?;
    let desc = owned(alloc, desc)?;
    if of_sessions {
        violated_in_sessions(alloc, state, &asc, &desc)
    } else {
        violated_by_inheritance(alloc, state, &asc, &desc)
    }
}

// The dynamic separation of duty sets that a new session of the user with these roles would violate, each with those of its
// roles that the session would have. The names of the roles stand one after the other and have these lengths. All may be any
// bytes.
fn creation_conflicts(
    alloc: Global,
    state: &State,
    user: &[u8],
    roles: &[u8],
    lengths: &[usize],
) -> Result<Vec<(Name, Name)>, Refusal>
    ensures violated { IfOk result (λ pairs. ViolatesByCreation state.now.facts user.now (divided roles.now lengths.now) pairs.items) }
    ensures refused { IfErr result (λ refusal. RefusesCreation state.now.facts user.now (divided roles.now lengths.now) refusal) }
{
    let user = owned(alloc, user)?;
    let roles = owned_set(alloc, roles, lengths)?;
    violated_by_creation(alloc, state, &user, &roles)
}

// The set of the names that stand in a text one after the other and have these lengths. `BadName` if one of them isn't the text
// of a name.
fn owned_set(alloc: Global, text: &[u8], lengths: &[usize]) -> Result<NameSet, Refusal>
    ensures ok { IfOk result (λ set. (set_of name_cmp set ≡ from_list (divided text.now lengths.now)) × All IsNameText (divided text.now lengths.now)) }
    ensures err { IfErr result (λ refusal. (refusal ≡ Refusal.Memory)
        ⊎ ((refusal ≡ Refusal.BadName) × ¬ (All IsNameText (divided text.now lengths.now)))) }
{
    let mut set = NameSet::new(alloc);
    let mut rest = text;
    for length in lengths {
        let (first, others) = rest.split_at((*length).min(rest.len()));
        let name = owned(alloc, first)?;
        if !set.contains(&name) {
            set.reserve(1)?;
            set.insert_reserved(name);
        }
        rest = others;
    }
    Ok(set)
}

// The name with these bytes. `BadName` if they aren't the text of a name.
fn owned(alloc: Global, bytes: &[u8]) -> Result<Name, Refusal>
    ensures ok { IfOk result (λ name. (name ≡ bytes.now) × IsNameText bytes.now) }
    ensures err { IfErr result (λ refusal. (refusal ≡ Refusal.Memory) ⊎ ((refusal ≡ Refusal.BadName) × ¬ (IsNameText bytes.now))) }
{
    match str::from_utf8(bytes) {
        Ok(text) => Name::new(alloc, text),
        Err(_) => Err(Refusal::BadName),
    }
}
