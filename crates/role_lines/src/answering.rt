//! The answer of a state to a line of JSON.
ghost use Rattle.std.specs.Prelude.{◌≡◌, IfOk, IfErr, string_bytes};
ghost use Rattle.rbac_sets.specs.CommandContent.{content_of};
ghost use Rattle.admin_mgr.specs.PlanEffect.{tally_of_report};
ghost use Rattle.role_json.specs.Answer.{text_of};
ghost use Rattle.role_json.specs.RequestContent.{requested, Ask, Change};
ghost use Rattle.role_lines.specs.private.LineAnswer.{AnswersLine, AnswersRequest, RefusesRequest, HadNoMemory, DoesRequest, verdict_of_refusal};
ghost use Rattle.role_lines.specs.Outcome.{accepted_text};
ghost use Rattle.role_lines.specs.Revision.{next_revision};

use crate::indexed::IndexedState;
use admin_mgr::Report;
use rbac_sets::{Command, Refusal};
use review_mgr::{Query, ask};
use role_json::{Request, Verdict, read_request};
use std::alloc::Global;

/// The greatest revision. An office that has accepted more commands keeps it.
pub const LAST_REVISION: u64 = 18_446_744_073_709_551_615;

// The verdict on a line. What it asks for was done then.
pub(crate) fn line_verdict(
    alloc: Global,
    state: &mut IndexedState,
    revision: &mut u64,
    line: &[u8],
) -> Result<Verdict, Refusal>
    ensures answered { IfOk result (λ verdict. AnswersLine state.old.facts revision.old line.now (text_of verdict) state.new.facts revision.new) }
    ensures stopped { IfErr result (λ refusal. HadNoMemory state.old.facts revision.old refusal state.new.facts revision.new) }
    ensures seed { state.new.seed ≡ state.old.seed }
{
    match read_request(alloc, line) {
        Ok(request) => request_verdict(alloc, state, revision, &request),
        Err(refusal) => refusal_verdict(refusal),
    }
}

// The verdict on a request.
fn request_verdict(
    alloc: Global,
    state: &mut IndexedState,
    revision: &mut u64,
    request: &Request,
) -> Result<Verdict, Refusal>
    ensures answered { IfOk result (λ verdict. AnswersRequest state.old.facts revision.old (requested request.now) (text_of verdict) state.new.facts revision.new) }
    ensures stopped { IfErr result (λ refusal. HadNoMemory state.old.facts revision.old refusal state.new.facts revision.new) }
    ensures seed { state.new.seed ≡ state.old.seed }
{
    match perform(alloc, state, revision, request) {
        Ok(verdict) => Ok(verdict),
        Err(refusal) => refusal_verdict(refusal),
    }
}

// The verdict on what was refused, unless an allocation failed.
fn refusal_verdict(refusal: Refusal) -> Result<Verdict, Refusal>
    ensures { result ≡ verdict_of_refusal refusal }
{
    if refusal.is_memory() {
        Err(Refusal::Memory)
    } else {
        Ok(Verdict::Refused(refusal))
    }
}

// Does the command of a request, or answers its question.
fn perform(
    alloc: Global,
    state: &mut IndexedState,
    revision: &mut u64,
    request: &Request,
) -> Result<Verdict, Refusal>
    ensures done { IfOk result (λ verdict. DoesRequest state.old.facts revision.old (requested request.now) (text_of verdict) state.new.facts revision.new) }
    ensures declined { IfErr result (λ refusal. RefusesRequest state.old.facts revision.old (requested request.now) refusal state.new.facts revision.new) }
    ensures seed { state.new.seed ≡ state.old.seed }
{
    match request {
        Request::Change(command) => change(alloc, state, revision, command),
        Request::Ask(query) => question(alloc, state, revision, query),
    }
}

// Answers a question.
fn question(
    alloc: Global,
    state: &IndexedState,
    revision: &u64,
    query: &Query,
) -> Result<Verdict, Refusal>
    ensures done { IfOk result (λ verdict. DoesRequest state.now.facts revision.now (Ask query.now) (text_of verdict) state.now.facts revision.now) }
    ensures declined { IfErr result (λ refusal. RefusesRequest state.now.facts revision.now (Ask query.now) refusal state.now.facts revision.now) }
{
    let answer = ask(alloc, state.state(), query)?;
    Ok(Verdict::Answered(answer))
}

// Does a command, and counts it.
fn change(
    alloc: Global,
    state: &mut IndexedState,
    revision: &mut u64,
    command: &Command,
) -> Result<Verdict, Refusal>
    ensures done { IfOk result (λ verdict. DoesRequest state.old.facts revision.old (Change (content_of command.now)) (text_of verdict) state.new.facts revision.new) }
    ensures declined { IfErr result (λ refusal. RefusesRequest state.old.facts revision.old (Change (content_of command.now)) refusal state.new.facts revision.new) }
    ensures seed { state.new.seed ≡ state.old.seed }
{
    let plan = state.plan(alloc, command)?;
    state.make_room(&plan)?;
    let report = state.commit(alloc, plan);
    *revision = next_revision(*revision);
    Ok(verdict_on(command, report))
}

// The revision after one more accepted command.
fn next_revision(revision: u64) -> u64
    ensures { result ≡ next_revision revision }
{
    if revision < LAST_REVISION {
        revision + 1
    } else {
        revision
    }
}

// The verdict on a command that was done. For an import it has the import report.
#[tactic(auto, unfolding(rbac_sets::specs::CommandContent::content_of, role_json::specs::Answer::text_of))]
fn verdict_on(command: &Command, report: Report) -> Verdict
    ensures { text_of result ≡ accepted_text (content_of command.now) (tally_of_report report) }
{
    match command {
        Command::ImportAssignments(_) => Verdict::Imported(report),
        _ => Verdict::Done,
    }
}
