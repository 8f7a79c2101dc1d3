//! One request to an office: a command is done, or a question answered.
ghost use Rattle.std.specs.Prelude.{◌≡◌, ◌≢◌, ◌⊎◌, IfOk, IfErr};
ghost use Rattle.sqlite.specs.Held.{state};
ghost use Rattle.rbac_sets.specs.CommandContent.{content_of};
ghost use Rattle.role_json.specs.Answer.{text_of};
ghost use Rattle.role_json.specs.RequestContent.{requested, Change, Ask};
ghost use Rattle.admin_mgr.specs.PlanEffect.{tally_of_report};
ghost use Rattle.role_wire.specs.Outcome.{accepted_text};
ghost use Rattle.role_wire.specs.OfficeRequest.{RefusesRequest, IsImport, DoesRequest};
ghost use Rattle.role_wire.specs.private.RequestAnswer.{IsQuestion};

use admin_mgr::Report;
use rbac_sets::{Command, Refusal};
use review_mgr::{Query, ask};
use role_json::{Request, Verdict};
use role_tables::Office;
use sqlite::Alter;
use std::alloc::Global;

// Does the command of a request, or answers its question. A verdict other than `Done` answers a question or an
// import.
pub(crate) fn perform<S: Alter>(
    alloc: Global,
    office: &mut Office<S>,
    request: &Request,
) -> Result<Verdict, Refusal>
    ensures done { IfOk result (λ verdict. DoesRequest (state S.Store) office.old (requested request.now) (text_of verdict) office.new) }
    ensures other { IfOk result (λ verdict. verdict ≢ Verdict.Done → IsQuestion (requested request.now) ⊎ IsImport (requested request.now)) }
    ensures refused { IfErr result (λ refusal. RefusesRequest (state S.Store) office.old (requested request.now) refusal office.new) }
{
    match request {
        Request::Change(command) => change(alloc, office, command),
        Request::Ask(query) => answer(alloc, office, query),
    }
}

// Does a command.
fn change<S: Alter>(
    alloc: Global,
    office: &mut Office<S>,
    command: &Command,
) -> Result<Verdict, Refusal>
    ensures done { IfOk result (λ verdict. DoesRequest (state S.Store) office.old (Change (content_of command.now)) (text_of verdict) office.new) }
    ensures other { IfOk result (λ verdict. verdict ≢ Verdict.Done → IsImport (Change (content_of command.now))) }
    ensures refused { IfErr result (λ refusal. RefusesRequest (state S.Store) office.old (Change (content_of command.now)) refusal office.new) }
{
    let report = office.apply(alloc, command)?;
    Ok(verdict_on(command, report))
}

// The verdict on a command that was done. For an import it has the import report.
#[tactic(auto, unfolding(rbac_sets::specs::CommandContent::content_of, role_json::specs::Answer::text_of))]
fn verdict_on(command: &Command, report: Report) -> Verdict
    ensures text { text_of result ≡ accepted_text (content_of command.now) (tally_of_report report) }
    ensures other { result ≢ Verdict.Done → IsImport (Change (content_of command.now)) }
{
    match command {
        Command::ImportAssignments(_) => Verdict::Imported(report),
        _ => Verdict::Done,
    }
}

// Answers a question.
fn answer<S: Alter>(alloc: Global, office: &Office<S>, query: &Query) -> Result<Verdict, Refusal>
    ensures done { IfOk result (λ verdict. DoesRequest (state S.Store) office.now (Ask query.now) (text_of verdict) office.now) }
    ensures refused { IfErr result (λ refusal. RefusesRequest (state S.Store) office.now (Ask query.now) refusal office.now) }
{
    let state = office.state()?;
    let answer = ask(alloc, state, query)?;
    Ok(Verdict::Answered(answer))
}
