//! A replay: the lines of an input, answered by an office one after the other.
ghost use Rattle.std.specs.Prelude.{◌≡◌, ◌≢◌, ◌⊎◌, ◌≤◌, ◌+◌, ◌++◌, ◌∷◌, [], ℕ, List, true, false, Err, OnOk, IfOk, IfErr, string_bytes};
ghost use Rattle.std.specs.Cow.{cow_str_bytes};
ghost use Rattle.std.specs.Io.KnownBytes.{Consumes, IsAtEnd};
ghost use Rattle.sqlite.specs.Held.{state};
ghost use Rattle.rbac_sets.specs.Stream.{HasRisen};
ghost use Rattle.role_json.specs.Answer.{text_of};
ghost use Rattle.role_json.specs.RequestContent.{requested};
ghost use Rattle.role_wire.specs.Continuation.{ReachesState};
ghost use Rattle.role_wire.specs.Events.{AddsLines};
ghost use Rattle.role_wire.specs.LineAnswer.{AnswersLine, FailsLine};
ghost use Rattle.role_wire.specs.private.RequestAnswer.{AnswersRequest, FailsRequest, verdict_of_refusal, unread_verdict};
ghost use Rattle.role_wire.specs.Lines.{line_feed};
ghost use Rattle.role_wire.specs.Outcome.{after_lines, asking_lines, outcome_of, state_after, outcome_text};
ghost use Rattle.role_wire.specs.Replay.{IsAtBound, most_reads};
ghost use Rattle.role_wire.specs.OfficeReplay.{IsAnswered, IsHalted, WritesFirst};

use crate::lines::{AnswerLines, Cause, Count, Stop, Unanswered, answer_lines};
use crate::office_request::perform;
use rbac_sets::{Refusal, Sink, Source};
use role_json::{Request, Verdict, answer_text, read_request};
use role_tables::Office;
use sqlite::Alter;
use std::alloc::Global;
use std::borrow::CowStr;

// The answer to a command that was done.
const DONE_LINE: &str = "{\"ok\":true}\n";

/// Replays an input: reads the lines of `source` until it ends, and writes the answer of `office` to each
/// of them to `sink`, in order.
///
/// A line ends before LF or at the end of the input. A line of spaces, tabs and CR alone is skipped. Each
/// other line is read as `read_request` reads it; its command is done, or its question answered, in the
/// state after the lines before it. The answer, as `answer_text` returns it, and LF are written before the
/// next line is judged, in a single write if the sink accepts it whole. Each read is of at most 8,192 bytes.
///
/// # Errors
///
/// A stop has its cause and the number of answer lines that were written whole. These are the answers to
/// the first lines that aren't skipped.
///
/// - `Closed`: the office was already closed. Nothing was read or written.
/// - `Read`: a read failed, or 1,000,000,000 reads were made. A line that had not ended was not judged.
/// - `Line`: the line of this number, counted from 1 with skipped lines, is the first of more than 65,536
///   bytes. It was not judged.
/// - `Write`: a write failed, or accepted no byte. A part of the next answer may have been written, and what
///   its line asks for is done.
/// - `Memory`: an allocation failed. Nothing of the next line was done, unless it asks for an import that is
///   accepted: that may have been done.
/// - `Store`: the store failed in the command of the next line, which is accepted in the state after the
///   lines before it. The office is closed. While the disk returns what was written, the open tables hold
///   the state before the command, and a crash leaves that state or the state after the command.
pub fn replay<S: Alter, R: Source, W: Sink>(
    alloc: Global,
    office: &mut Office<S>,
    source: &mut R,
    sink: &mut W,
) -> Result<Count, Stop>
    ensures ok { IfOk result (λ count. (input : List ℕ) × Consumes (R.remaining source.old) (R.remaining source.new) input
        × IsAnswered office.old.facts input (W.written sink.old) (W.written sink.new) count.answered
        × ReachesState (state S.Store) office.old (AddsLines office.old.facts (asking_lines input)) (after_lines office.old.facts (asking_lines input)) office.new) }
    ensures end { OnOk result (IsAtEnd (R.remaining source.new)) }
    ensures stopped { office.old.is_closed ≡ false → IfErr result (λ stop. (taken : List ℕ) × Consumes (R.remaining source.old) (R.remaining source.new) taken
        × IsHalted (state S.Store) office.old office.new taken (IsAtEnd (R.remaining source.new)) (W.written sink.old) (W.written sink.new) stop.cause stop.answered) }
    ensures first { office.old.is_closed ≡ false → IfErr result (λ stop. (taken : List ℕ) × Consumes (R.remaining source.old) (R.remaining source.new) taken
        × WritesFirst office.old.facts taken stop.answered (W.written sink.old) (W.written sink.new)) }
    ensures closed { office.old.is_closed ≡ true → (result ≡ Err (record { cause = Cause.Closed; answered = 0 }))
        × (office.new ≡ office.old) × (source.new ≡ source.old) × (sink.new ≡ sink.old) }
    ensures write_cause { IfErr result (λ stop. stop.cause ≡ Cause.Write → HasRisen (W.failed sink.old) (W.failed sink.new) ⊎ HasRisen (W.idle sink.old) (W.idle sink.new)) }
    ensures read_cause { IfErr result (λ stop. stop.cause ≡ Cause.Read → HasRisen (R.failed source.old) (R.failed source.new) ⊎ IsAtBound (R.reads source.old) (R.reads source.new)) }
    ensures reads { R.reads source.new ≤ R.reads source.old + most_reads }
{
    answer_lines(alloc, office, source, sink)
}

impl<S: Alter> AnswerLines for Office<S> {
    ghost use Rattle.sqlite.specs.Held.{state};
    ghost use Rattle.role_wire.specs.LineAnswer.{AnswersLine, FailsLine};

    ghost closed = { λ office. office.is_closed };

    ghost answers = { AnswersLine (state S.Store) };

    ghost fails = { FailsLine (state S.Store) };

    fn is_closed(&self) -> bool {
        Office::is_closed(self)
    }

    fn answer_line(&mut self, alloc: Global, line: &[u8]) -> Result<CowStr<'static>, Unanswered> {
        let verdict = perform_line(alloc, self, line)?;
        answer_to_verdict(alloc, &verdict)
    }

    ghost store_closes = { λ old new line fails. fails.0 };
}

// The answer to a verdict, with its LF. That to `Done` isn't allocated.
fn answer_to_verdict(alloc: Global, verdict: &Verdict) -> Result<CowStr<'static>, Unanswered>
    ensures ok { IfOk result (λ answer. cow_str_bytes answer ≡ text_of verdict.now ++ line_feed ∷ []) }
    ensures err { IfErr result (λ unanswered. (unanswered ≡ Unanswered.Memory) × (verdict.now ≢ Verdict.Done)) }
{
    match verdict {
        Verdict::Done => Ok(CowStr::Borrowed(DONE_LINE)),
        _ => match allocated_line(alloc, verdict) {
            Ok(line) => Ok(CowStr::Owned(line)),
            Err(_) => Err(Unanswered::Memory),
        },
    }
}

// The answer to a verdict, with its LF.
fn allocated_line(alloc: Global, verdict: &Verdict) -> Result<String, Refusal>
    ensures { IfOk result (λ line. string_bytes line ≡ text_of verdict.now ++ line_feed ∷ []) }
{
    let mut line = answer_text(alloc, verdict)?;
    line.push('\n')?;
    Ok(line)
}

// Does or answers what a line asks for, and returns the verdict. If it isn't `Done`, a failed allocation of its
// answer is a failure as any other.
fn perform_line<S: Alter>(
    alloc: Global,
    office: &mut Office<S>,
    line: &[u8],
) -> Result<Verdict, Unanswered>
    ensures answered { IfOk result (λ verdict. AnswersLine (state S.Store) office.old line.now (text_of verdict) office.new) }
    ensures other { IfOk result (λ verdict. verdict ≢ Verdict.Done → FailsLine (state S.Store) office.old line.now Unanswered.Memory office.new) }
    ensures failed { IfErr result (λ unanswered. FailsLine (state S.Store) office.old line.now unanswered office.new) }
{
    match read_request(alloc, line) {
        Ok(request) => perform_request(alloc, office, &request),
        Err(refusal) => unread_verdict(refusal),
    }
}

// Does or answers a request, and returns the verdict.
fn perform_request<S: Alter>(
    alloc: Global,
    office: &mut Office<S>,
    request: &Request,
) -> Result<Verdict, Unanswered>
    ensures answered { IfOk result (λ verdict. AnswersRequest (state S.Store) office.old (requested request.now) (text_of verdict) office.new) }
    ensures other { IfOk result (λ verdict. verdict ≢ Verdict.Done → FailsRequest (state S.Store) office.old (requested request.now) Unanswered.Memory office.new) }
    ensures failed { IfErr result (λ unanswered. FailsRequest (state S.Store) office.old (requested request.now) unanswered office.new) }
{
    match perform(alloc, office, request) {
        Ok(verdict) => Ok(verdict),
        Err(refusal) => refusal_verdict(refusal),
    }
}

// The verdict on a line that is no request, unless an allocation failed.
fn unread_verdict(refusal: Refusal) -> Result<Verdict, Unanswered>
    ensures { result ≡ unread_verdict refusal }
{
    if refusal.is_memory() {
        Err(Unanswered::Memory)
    } else {
        Ok(Verdict::Refused(refusal))
    }
}

// The verdict on a request that was refused, unless an allocation failed, or the store did, now or earlier.
fn refusal_verdict(refusal: Refusal) -> Result<Verdict, Unanswered>
    ensures { result ≡ verdict_of_refusal refusal }
{
    match refusal {
        Refusal::Memory => Err(Unanswered::Memory),
        Refusal::Store | Refusal::Closed => Err(Unanswered::Store),
        refusal => Ok(Verdict::Refused(refusal)),
    }
}
