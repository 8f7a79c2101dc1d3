//! Reads an input line by line, and writes an answer line for each line that isn't blank.
ghost use Rattle.std.specs.Prelude.{◌≡◌, ◌≢◌, ◌⊎◌, ◌≤◌, ◌<◌, ◌+◌, ◌^◌, ◌==◌, ℕ, Bool, true, false, List, [], ◌∷◌, ◌++◌, length, IfOk, OnOk, OnErr, IfSome, IfErr};
ghost use Rattle.std.specs.Cow.{cow_str_bytes};
ghost use Rattle.std.specs.List.{position};
ghost use Rattle.std.specs.Io.KnownBytes.{Appends, Consumes, IsAtEnd};
ghost use Rattle.rbac_sets.specs.Stream.{HasRisen};
ghost use Rattle.role_wire.specs.Lines.{is_blank, longest_line, line_feed};
ghost use Rattle.role_wire.specs.private.ReadProgress.{read_position_of, IsOpenLine, IsRead, EndsLine, StopsAtLine, HasNoLineFeed, Halts};
ghost use Rattle.role_wire.specs.Replay.{IsAtBound, IsReplayed, IsStopped, most_reads};

use rbac_sets::{Fault, Sink, Source, write_all};
use role_json::LONGEST_LINE;
use std::alloc::Global;
use std::borrow::CowStr;
use std::fmt;
use std::fmt::{Display, Formatter, Write};

/// The maximum number of bytes of one read.
const PIECE: usize = 8_192;

/// The maximum number of reads of one replay.
const MOST_READS: u64 = 1_000_000_000;

/// Why a line got no answer.
#[derive(Clone, Copy, Debug, PartialEq, Eq)]
pub enum Unanswered {
    /// An allocation failed. What the line asks for may have been done.
    Memory,
    /// The store failed. What answers lines is closed from then on.
    Store,
}

/// What answers lines, such as an office.
pub trait AnswerLines {
    ghost use Rattle.role_wire.specs.declared.lines.Unanswered.{Unanswered};
    ghost use Rattle.role_wire.specs.declared.lines.Unanswered.TheVariants.{Store};

    // Whether it is closed, and answers no more lines.
    ghost closed: { Self → Bool };

    // `answers old line text new`: `old` answers the line with the text, and is `new` afterwards.
    ghost answers: { Self → List ℕ → List ℕ → Self → Type 0 };

    // `fails old line unanswered new`: `old` doesn't answer the line, for this reason, and is `new` afterwards.
    ghost fails: { Self → List ℕ → Unanswered → Self → Type 0 };

    /// Whether it is closed, and answers no more lines.
    fn is_closed(&self) -> bool
        ensures { result ≡ closed self.now };

    /// Answers `line`, which has at most 65,536 bytes, no LF, and at least one byte that is not a space,
    /// tab or CR. The answer is one line of text, with its LF.
    ///
    /// # Errors
    ///
    /// `Memory` if an allocation failed, and `Store` if the store failed.
    fn answer_line(&mut self, alloc: Global, line: &[u8]) -> Result<CowStr<'static>, Unanswered>
        ensures ok { IfOk result (λ answer. (text : List ℕ) × answers self.old line.now text self.new × (cow_str_bytes answer ≡ text ++ line_feed ∷ [])) }
        ensures err { IfErr result (λ unanswered. fails self.old line.now unanswered self.new) };

    // After a failure of the store it is closed.
    ghost store_closes: { (old new : Self) (line : List ℕ) → fails old line Store new → closed new ≡ true };
}

/// Why a replay, or one request over HTTP, stopped.
#[derive(Clone, Copy, Debug, PartialEq, Eq)]
pub enum Cause {
    /// A read failed, or 1,000,000,000 reads were made.
    Read,
    /// A write failed, or accepted no byte of a piece that has some.
    Write,
    /// The line of this number is the first that is longer than 65,536 bytes. Lines are counted from 1,
    /// with those that are skipped.
    Line(u64),
    /// The store failed.
    Store,
    /// What answers lines was already closed. Nothing was read.
    Closed,
    /// An allocation failed.
    Memory,
}

impl Display for Cause {
    ghost use Rattle.std.specs.Prelude.{Some};
    ghost use Rattle.role_wire.specs.Stop.{cause_text};

    ghost output = { λ cause. Some (cause_text cause) };

    fn fmt<W: Write>(&self, f: &mut Formatter<W>) -> fmt::Result {
        match self {
            Cause::Read => f.write_str("Read"),
            Cause::Write => f.write_str("Write"),
            Cause::Line(number) => write!(f, "Line {number}"),
            Cause::Store => f.write_str("Store"),
            Cause::Closed => f.write_str("Closed"),
            Cause::Memory => f.write_str("Memory"),
        }
    }
}

/// A replay that stopped before the end of its input, or a request over HTTP without a whole reply.
#[derive(Clone, Copy, Debug, PartialEq, Eq)]
pub struct Stop {
    /// Why it stopped.
    pub cause: Cause,
    /// How many answer lines were written whole.
    pub answered: u64,
}

impl Display for Stop {
    ghost use Rattle.std.specs.Prelude.{Some};
    ghost use Rattle.role_wire.specs.Stop.{stop_text};

    ghost output = { λ stop. Some (stop_text stop) };

    fn fmt<W: Write>(&self, f: &mut Formatter<W>) -> fmt::Result {
        write!(f, "stop {} after {}", self.cause, self.answered)
    }
}

/// A replay that reached the end of its input.
#[derive(Clone, Copy, Debug, PartialEq, Eq)]
pub struct Count {
    /// How many answer lines were written.
    pub answered: u64,
}

/// Reads the lines of `source` until it ends, and writes the answer of `office` to each of them to `sink`, in
/// order.
///
/// A line ends before LF or at the end of the input. A line of spaces, tabs and CR alone is skipped. Each
/// other line gets one answer line with LF, which is written before the next line is judged, in a single
/// write if the sink accepts it whole. Each read is of at most 8,192 bytes.
///
/// # Errors
///
/// A stop has its cause and the number of answer lines that were written whole. These are the answers to
/// the first lines that aren't skipped. For `Write` a part of the next answer may follow them, and what the
/// next line asks for is done. For `Memory` and `Store` it may have been done. For `Read`, `Line` and `Closed`
/// nothing more was done, and for `Closed` nothing was read.
pub fn answer_lines<A: AnswerLines, R: Source, W: Sink>(
    alloc: Global,
    office: &mut A,
    source: &mut R,
    sink: &mut W,
) -> Result<Count, Stop>
    ensures ok { IfOk result (λ count. (input : List ℕ) × Consumes (R.remaining source.old) (R.remaining source.new) input
        × IsReplayed A.answers office.old office.new input (W.written sink.old) (W.written sink.new) count.answered) }
    ensures end { OnOk result (IsAtEnd (R.remaining source.new)) }

    ensures stopped { IfErr result (λ stop. A.closed office.old ≡ false → (taken : List ℕ) × Consumes (R.remaining source.old) (R.remaining source.new) taken
        × IsStopped A.answers A.fails office.old office.new taken (IsAtEnd (R.remaining source.new)) (W.written sink.old) (W.written sink.new) stop.cause stop.answered) }
    ensures closed { A.closed office.old ≡ true → (result ≡ Err (record { cause = Cause.Closed; answered = 0 }))
        × (office.new ≡ office.old) × (source.new ≡ source.old) × (sink.new ≡ sink.old) }

    // The cause is `Write` only if a write failed, or accepted no byte of a piece that has some; and `Read` only if a read
    // failed, or at the maximum number of reads.
    ensures write_cause { IfErr result (λ stop. stop.cause ≡ Cause.Write → HasRisen (W.failed sink.old) (W.failed sink.new) ⊎ HasRisen (W.idle sink.old) (W.idle sink.new)) }
    ensures read_cause { IfErr result (λ stop. stop.cause ≡ Cause.Read → HasRisen (R.failed source.old) (R.failed source.new) ⊎ IsAtBound (R.reads source.old) (R.reads source.new)) }
    ensures reads { R.reads source.new ≤ R.reads source.old + most_reads }
{
    if office.is_closed() {
        return Err(Stop {
            cause: Cause::Closed,
            answered: 0,
        });
    }
    let mut progress = Progress {
        line: Vec::new(alloc),
        number: 0,
        answered: 0,
    };
    match read_input(alloc, office, &mut progress, source, sink) {
        Ok(()) => Ok(Count {
            answered: progress.answered,
        }),
        Err(cause) => Err(Stop {
            cause,
            answered: progress.answered,
        }),
    }
}

// The line that has not ended yet, how many lines ended, and how many answers were written.
#[derive(Drop)]
struct Progress {
    line: Vec<u8>,
    number: u64,
    answered: u64,
}

impl Progress {
    // Appends bytes without LF to the line.
    fn extend_line(&mut self, bytes: &[u8]) -> Result<(), Cause>
        requires fits { length self.old.line.items ≤ longest_line }
        requires number { self.old.number + 1 < 2 ^ 64 }
        ensures line { OnOk result (self.new.line.items ≡ self.old.line.items ++ bytes.now) }
        ensures fits { OnOk result (length self.new.line.items ≤ longest_line) }
        ensures number { self.new.number ≡ self.old.number }
        ensures answered { self.new.answered ≡ self.old.answered }
        ensures err { IfErr result (λ cause. (cause ≡ Cause.Memory) ⊎ ((cause ≡ Cause.Line (self.old.number + 1)) × (longest_line < length (self.old.line.items ++ bytes.now)))) }
    {
        if bytes.len() > LONGEST_LINE - self.line.len() {
            return Err(Cause::Line(self.number + 1));
        }
        match self.line.extend_from_slice(bytes) {
            Ok(()) => Ok(()),
            Err(_) => Err(Cause::Memory),
        }
    }
}

fn is_blank(line: &[u8]) -> bool
    ensures { result ≡ is_blank line.now }
{
    line.iter()
        .all(|byte| matches!(*byte, b' ' | b'\t' | b'\r'))
}

// The position of the first LF, if there is one.
fn line_end(bytes: &[u8]) -> Option<usize>
    ensures { result ≡ position (λ byte. byte == line_feed) bytes.now }
{
    bytes.iter().position(|byte| *byte == b'\n')
}

// Answers the line that ended, unless it is blank, and begins the next.
fn end_line<A: AnswerLines, W: Sink>(
    alloc: Global,
    office: &mut A,
    progress: &mut Progress,
    sink: &mut W,
) -> Result<(), Cause>
    requires { progress.old.answered + 1 < 2 ^ 64 }
    ensures ok { OnOk result (EndsLine A.answers office.old progress.old.line.items office.new (W.written sink.old) (W.written sink.new) progress.old.answered progress.new.answered) }
    ensures line { OnOk result (progress.new.line.items ≡ []) }
    ensures err { IfErr result (λ cause. StopsAtLine A.answers A.fails cause office.old progress.old.line.items office.new (W.written sink.old) (W.written sink.new)) }
    ensures stays { OnErr result (progress.new.answered ≡ progress.old.answered) }
    ensures number { progress.new.number ≡ progress.old.number }
    ensures answered { progress.new.answered ≤ progress.old.answered + 1 }
    ensures failures { W.failed sink.old ≤ W.failed sink.new }
    ensures idle { W.idle sink.old ≤ W.idle sink.new }
    ensures cause { IfErr result (λ cause. cause ≡ Cause.Write → HasRisen (W.failed sink.old) (W.failed sink.new) ⊎ HasRisen (W.idle sink.old) (W.idle sink.new)) }
    ensures no_read { IfErr result (λ cause. cause ≢ Cause.Read) }
{
    if !is_blank(&progress.line) {
        let answer = match office.answer_line(alloc, &progress.line) {
            Ok(answer) => answer,
            Err(Unanswered::Memory) => return Err(Cause::Memory),
            Err(Unanswered::Store) => return Err(Cause::Store),
        };
        match write_all(sink, answer.as_bytes()) {
            Ok(()) => progress.answered += 1,
            Err(Fault) => return Err(Cause::Write),
        }
    }
    progress.line.clear();
    Ok(())
}

// Appends these bytes to the open line, and ends it as LF does.
fn read_line<A: AnswerLines, W: Sink>(
    alloc: Global,
    office: &mut A,
    progress: &mut Progress,
    bytes: &[u8],
    sink: &mut W,
) -> Result<(), Cause>
    requires count { progress.old.answered + 1 < 2 ^ 64 }
    requires number { progress.old.number + 1 < 2 ^ 64 }
    requires open_line { IsOpenLine progress.old.line.items }
    requires plain { HasNoLineFeed bytes.now }
    ensures ok { OnOk result (IsRead A.answers (read_position_of office.old progress.old (W.written sink.old))
        (read_position_of office.new progress.new (W.written sink.new)) (bytes.now ++ line_feed ∷ [])) }
    ensures err { IfErr result (λ cause. (after : List ℕ) → Halts A.answers A.fails (read_position_of office.old progress.old (W.written sink.old))
        (bytes.now ++ line_feed ∷ after) ⊥ cause office.new (W.written sink.new) progress.new.answered) }
    ensures number { progress.new.number ≤ progress.old.number + 1 }
    ensures answered { progress.new.answered ≤ progress.old.answered + 1 }
    ensures failures { W.failed sink.old ≤ W.failed sink.new }
    ensures idle { W.idle sink.old ≤ W.idle sink.new }
    ensures cause { IfErr result (λ cause. cause ≡ Cause.Write → HasRisen (W.failed sink.old) (W.failed sink.new) ⊎ HasRisen (W.idle sink.old) (W.idle sink.new)) }
    ensures no_read { IfErr result (λ cause. cause ≢ Cause.Read) }
{
    progress.extend_line(bytes)?;
    end_line(alloc, office, progress, sink)?;
    progress.number += 1;
    Ok(())
}

// Reads a piece of the input: answers the lines that end in it, and keeps what follows as the open line.
fn read_piece<A: AnswerLines, W: Sink>(
    alloc: Global,
    office: &mut A,
    progress: &mut Progress,
    piece: &[u8],
    sink: &mut W,
) -> Result<(), Cause>
    requires count { progress.old.answered + length piece.now < 2 ^ 64 }
    requires number { progress.old.number + length piece.now + 1 < 2 ^ 64 }
    requires open_line { IsOpenLine progress.old.line.items }
    ensures ok { OnOk result (IsRead A.answers (read_position_of office.old progress.old (W.written sink.old)) (read_position_of office.new progress.new (W.written sink.new)) piece.now) }
    ensures err { IfErr result (λ cause. Halts A.answers A.fails (read_position_of office.old progress.old (W.written sink.old))
        piece.now ⊥ cause office.new (W.written sink.new) progress.new.answered) }
    ensures number { progress.new.number ≤ progress.old.number + length piece.now }
    ensures answered { progress.new.answered ≤ progress.old.answered + length piece.now }
    ensures failures { W.failed sink.old ≤ W.failed sink.new }
    ensures idle { W.idle sink.old ≤ W.idle sink.new }
    ensures cause { IfErr result (λ cause. cause ≡ Cause.Write → HasRisen (W.failed sink.old) (W.failed sink.new) ⊎ HasRisen (W.idle sink.old) (W.idle sink.new)) }
    ensures no_read { IfErr result (λ cause. cause ≢ Cause.Read) }
{
    let mut rest = piece;
    while let Some(end) = line_end(rest) {
        read_line(alloc, office, progress, &rest[..end], sink)?;
        rest = &rest[end + 1..];
    }
    progress.extend_line(rest)
}

// Reads to the end of the input.
fn read_input<A: AnswerLines, R: Source, W: Sink>(
    alloc: Global,
    office: &mut A,
    progress: &mut Progress,
    source: &mut R,
    sink: &mut W,
) -> Result<(), Cause>
    requires line { progress.old.line.items ≡ [] }
    requires number { progress.old.number ≡ 0 }
    requires answered { progress.old.answered ≡ 0 }
    ensures ok { OnOk result ((input : List ℕ) × Consumes (R.remaining source.old) (R.remaining source.new) input
        × IsReplayed A.answers office.old office.new input (W.written sink.old) (W.written sink.new) progress.new.answered) }
    ensures end { OnOk result (IsAtEnd (R.remaining source.new)) }
    ensures err { IfErr result (λ cause. (taken : List ℕ) × Consumes (R.remaining source.old) (R.remaining source.new) taken
        × IsStopped A.answers A.fails office.old office.new taken (IsAtEnd (R.remaining source.new)) (W.written sink.old) (W.written sink.new) cause progress.new.answered) }
    ensures write_cause { IfErr result (λ cause. cause ≡ Cause.Write → HasRisen (W.failed sink.old) (W.failed sink.new) ⊎ HasRisen (W.idle sink.old) (W.idle sink.new)) }
    ensures read_cause { IfErr result (λ cause. cause ≡ Cause.Read → HasRisen (R.failed source.old) (R.failed source.new) ⊎ IsAtBound (R.reads source.old) (R.reads source.new)) }
    ensures reads { R.reads source.new ≤ R.reads source.old + most_reads }
{
    let mut piece = [0; PIECE];
    for _turn in 0..MOST_READS {
        let Ok(count) = source.read(&mut piece) else {
            return Err(Cause::Read);
        };
        if count == 0 {
            return end_line(alloc, office, progress, sink);
        }
        read_piece(alloc, office, progress, &piece[..count], sink)?;
    }
    Err(Cause::Read)
}
