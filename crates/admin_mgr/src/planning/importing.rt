//! The plan of an import of assignments.
//!
//! Its records are judged one by one, each on the state before the import and the pairs that were added
//! since, so that the state is not copied.
ghost use Rattle.std.specs.Prelude.{◌≡◌, ◌<◌, ◌&&◌, ◌++◌, map, not, nat_lt, IfOk, IfErr, OnOk, None, Some, false};
ghost use Rattle.std.specs.Option.{option_copied};
ghost use Rattle.rbac_sets.specs.Kind.{limit_of};
ghost use Rattle.rbac_sets.specs.Sets.{IsDisjoint, contains, empty, pair_cmp};
ghost use Rattle.rbac_sets.specs.SortedSet.{set_of};
ghost use Rattle.rbac_sets.specs.declared.command.Command.TheVariants.{ImportAssignments};
ghost use Rattle.rbac_sets.specs.declared.kind.Kind.TheVariants.{Record};
ghost use Rattle.admin_mgr.specs.Assignment.{assignment_verdict};
ghost use Rattle.admin_mgr.specs.Good.{IsGood};
ghost use Rattle.admin_mgr.specs.private.HolderRoles.{is_reached, is_touched, reached_with, find_with_one};
ghost use Rattle.admin_mgr.specs.private.ImportPlan.{accepted, put_assignment, record_refusals, with_assignments, IsBegun, IsAssigned, IsRefused, Follows};
ghost use Rattle.admin_mgr.specs.PlanEffect.{tally_of_report, IsPlanOf};
ghost use Rattle.admin_mgr.specs.Refusals.{first};
ghost use Rattle.admin_mgr.specs.Run.{tally};
ghost use Rattle.admin_mgr.specs.Verdict.{verdict};

use crate::judge::violation::name_violated;
use crate::limits::is_full;
use crate::plan::{Plan, Report};
use crate::separation_of_duty::SeparationOfDuty;
use crate::separation_of_duty::by_name::{is_reached, is_touched};
use crate::state::State;
use chunked_sets::{ChunkedPairs, Run};
use rbac_sets::{Change, Kind, Name, PairSet, Refusal, Row};
use role_order::RoleOrder;
use std::alloc::{AllocError, Global};

// What the records so far have come to: the pairs that were added, the changes that put their rows, and the
// report.
#[derive(Drop)]
struct Imported {
    added: ChunkedPairs,
    changes: Vec<Change>,
    report: Report,
}

// The changes that an import makes, in the order of its records, and its report.
pub(crate) fn import(
    alloc: Global,
    state: &State,
    pairs: &Vec<(Name, Name)>,
) -> Result<(Vec<Change>, Report), Refusal>
    requires { verdict state.now.facts (ImportAssignments pairs.now) ≡ None }
    ensures changes { IfOk result (λ done. done.0.items ≡ map put_assignment (accepted state.now.facts pairs.now.items)) }
    ensures report { IfOk result (λ done. tally_of_report done.1 ≡ tally state.now.facts (ImportAssignments pairs.now)) }
    ensures cause { IfErr result (λ refusal. refusal ≡ Refusal.Memory) }
{
    state.recall_good();
    let mut imported = Imported::new(alloc);
    for (i, pair) in pairs.iter().enumerate() {
        imported.take(alloc, state, i as u32 + 1, &pair.0, &pair.1)?;
    }
    let Imported {
        added: _,
        changes,
        report,
    } = imported;
    Ok((changes, report))
}

impl Imported {
    // No record was judged yet.
    fn new(alloc: Global) -> Imported
        ensures { IsBegun result }
    {
        Imported {
            added: ChunkedPairs::new(alloc),
            changes: Vec::new(alloc),
            report: Report {
                assigned: 0,
                already: 0,
                refused: Vec::new(alloc),
            },
        }
    }

    // Judges the record of this number, and assigns its pair or counts its refusal.
    fn take(
        &mut self,
        alloc: Global,
        state: &State,
        number: u32,
        user: &Name,
        role: &Name,
    ) -> Result<(), Refusal>
        requires good { IsGood (with_assignments state.now.facts (set_of pair_cmp self.old.added)) }
        requires apart { IsDisjoint state.now.facts.assignments (set_of pair_cmp self.old.added) }
        requires few { (self.old.report.assigned < limit_of Record 2) × (self.old.report.already < limit_of Record 2) }
        ensures ok { OnOk result (Follows (assignment_verdict (with_assignments state.now.facts (set_of pair_cmp self.old.added)) (user.now, role.now)) number (user.now, role.now) self.old self.new) }
        ensures cause { IfErr result (λ refusal. refusal ≡ Refusal.Memory) }
    {
        match judge_record(alloc, state, &self.added, user, role)? {
            Some(refusal) => self.count_refusal(number, &refusal),
            None => self.assign(alloc, user, role),
        }
    }

    // Assigns a pair.
    fn assign(&mut self, alloc: Global, user: &Name, role: &Name) -> Result<(), Refusal>
        requires absent { contains (set_of pair_cmp self.old.added) (user.now, role.now) ≡ false }
        requires few { self.old.report.assigned < limit_of Record 2 }
        ensures ok { OnOk result (IsAssigned (user.now, role.now) self.old self.new) }
        ensures cause { IfErr result (λ refusal. refusal ≡ Refusal.Memory) }
    {
        let row = Row::assignment(user.copy(alloc)?, role.copy(alloc)?);
        self.changes.push(Change::Put(row))?;
        self.added.insert((user.copy(alloc)?, role.copy(alloc)?))?;
        self.report.assigned += 1;
        Ok(())
    }

    // Counts the refusal of the record of this number in the report.
    fn count_refusal(&mut self, number: u32, refusal: &Refusal) -> Result<(), Refusal>
        requires few { self.old.report.already < limit_of Record 2 }
        ensures ok { OnOk result (IsRefused number refusal.now self.old self.new) }
        ensures cause { IfErr result (λ refusal. refusal ≡ Refusal.Memory) }
    {
        if refusal.code() == Refusal::AlreadyAssigned.code() {
            self.report.already += 1;
        } else {
            self.report.refused.push((number, refusal.code()))?;
        }
        Ok(())
    }
}

// The verdict on a record if these pairs were added before it.
fn judge_record(
    alloc: Global,
    state: &State,
    added: &ChunkedPairs,
    user: &Name,
    role: &Name,
) -> Result<Option<Refusal>, AllocError>
    requires good { IsGood (with_assignments state.now.facts (set_of pair_cmp added.now)) }
    requires apart { IsDisjoint state.now.facts.assignments (set_of pair_cmp added.now) }
    ensures { IfOk result (λ found. found ≡ assignment_verdict (with_assignments state.now.facts (set_of pair_cmp added.now)) (user.now, role.now)) }
{
    if let Some(refusal) = refuse_record(state, added, user, role) {
        return Ok(Some(refusal));
    }
    let held = state.assignments().with_first(user);
    let more = added.with_first(user);
    let sets = state.ssd_cardinalities().as_slice();
    let violated = first_with_both(state.order(), &held, &more, role, state.ssd_members(), sets);
    let named = name_violated(alloc, SeparationOfDuty::Static, violated)?;
    Ok(named)
}

// Why the user can't be assigned to the role, without the check of static separation.
fn refuse_record(state: &State, added: &ChunkedPairs, user: &Name, role: &Name) -> Option<Refusal>
    requires good { IsGood (with_assignments state.now.facts (set_of pair_cmp added.now)) }
    requires apart { IsDisjoint state.now.facts.assignments (set_of pair_cmp added.now) }
    ensures { result ≡ first (record_refusals state.now.facts (set_of pair_cmp added.now) (user.now, role.now)) }
{
    if !state.users().contains(user) {
        return Some(Refusal::NoUser);
    }
    if !state.roles().contains(role) {
        return Some(Refusal::NoRole);
    }
    if state.assignments().contains((user, role)) || added.contains((user, role)) {
        return Some(Refusal::AlreadyAssigned);
    }
    if is_full(
        state,
        Kind::Assignment,
        state.assignments().len() + added.len(),
    ) {
        return Some(Refusal::TooMany(Kind::Assignment));
    }
    None
}

// The first of the sets that the user with the pairs `held` and `since` violates if it gets one more role.
// Only sets are considered that have this role or a junior of it as a member.
fn first_with_both<'a>(
    order: &RoleOrder,
    held: &Run<'_, (Name, Name)>,
    since: &Run<'_, (Name, Name)>,
    more: &Name,
    members: &PairSet,
    cardinalities: &'a [(Name, u32)],
) -> Option<&'a (Name, u32)>
    ensures { option_copied result ≡ find_with_one order.now.edges (held.now ++ since.now) more.now (set_of pair_cmp members.now) cardinalities.now }
{
    cardinalities.iter().find(|entry| has_both(
        order,
        held,
        since,
        more,
        members.with_first(&entry.0),
        entry.1,
    ))
}

// Whether one of the members is one more role or a junior of it, and the user violates the set if it gets
// this role.
fn has_both(
    order: &RoleOrder,
    held: &Run<'_, (Name, Name)>,
    since: &Run<'_, (Name, Name)>,
    more: &Name,
    members: &[(Name, Name)],
    cardinality: u32,
) -> bool
    ensures { result ≡ (is_touched order.now.edges more.now members.now && not (nat_lt (reached_with order.now.edges (held.now ++ since.now) more.now members.now) cardinality)) }
{
    is_touched(order, more, members)
        && reached_with_both(order, held, since, more, members) >= cardinality as usize
}

// How many of the members the user has if it gets one more role.
fn reached_with_both(
    order: &RoleOrder,
    held: &Run<'_, (Name, Name)>,
    since: &Run<'_, (Name, Name)>,
    more: &Name,
    members: &[(Name, Name)],
) -> usize
    ensures { result ≡ reached_with order.now.edges (held.now ++ since.now) more.now members.now }
{
    members
        .iter()
        .filter(|member| is_reached_by_either(order, held, since, &member.1)
            || order.geq(more, &member.1))
        .count()
}

// Whether the user with the pairs `held` and `since` has the role.
fn is_reached_by_either(
    order: &RoleOrder,
    held: &Run<'_, (Name, Name)>,
    since: &Run<'_, (Name, Name)>,
    role: &Name,
) -> bool
    ensures { result ≡ is_reached order.now.edges (held.now ++ since.now) role.now }
{
    is_reached(order, held, role) || is_reached(order, since, role)
}

// The plan of an import of assignments.
pub(crate) fn plan_import_assignments(
    alloc: Global,
    state: &State,
    pairs: &Vec<(Name, Name)>,
) -> Result<Plan, Refusal>
    requires accepted { verdict state.now.facts (ImportAssignments pairs.now) ≡ None }
    ensures planned { IfOk result (IsPlanOf state.now.facts (ImportAssignments pairs.now)) }
    ensures cause { IfErr result (λ refusal. refusal ≡ Refusal.Memory) }
{
    state.recall_good();
    let (changes, report) = import(alloc, state, pairs)?;
    Ok(Plan {
        changes,
        report,
        order: None,
    })
}
