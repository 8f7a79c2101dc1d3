//! Why the program failed, and the line that reports it.
ghost use Rattle.std.specs.Prelude.{◌≡◌, ◌≤◌, ◌+◌, ◌++◌, IfOk, decimal, string_bytes};
ghost use Rattle.arrayvec.specs.ArrayString.{array_string_len};
ghost use Rattle.role_wire.specs.Stop.{cause_text};
ghost use Rattle.role_cli.specs.Environment.{HasFailed};
ghost use Rattle.role_cli.specs.ErrorOutput.{IsLineOf, SaysSome, Says, no_memory_line, refusal_line, stop_line};

use arrayvec::ArrayString;
use itoa::Buffer;
use rbac_sets::{Refusal, Sink, write_all};
use role_wire::{Cause, Stop, Verdict, answer_text};
use std::alloc::Global;

/// The greatest length of the line that reports a stop, in bytes: with two numbers of 20 digits it has 64.
const LONGEST_STOP: usize = 64;

/// The line that is written if another one can't be allocated.
const NO_MEMORY: &[u8] = b"rbac: {\"code\":40,\"error\":\"Memory\"}\n";

/// Why the program failed.
#[derive(Drop)]
pub enum Failure {
    /// The office, a command or a CSV text was refused, or memory, the store or the output failed.
    Refused(Refusal),
    /// A replay stopped, or a CSV file could not be read.
    Stopped(Stop),
    /// The server could not listen on its port.
    NotListening,
    /// The server could not accept the next connection.
    NotAccepting,
    /// The server sent a reply with the status 500, after which its office is closed.
    Closed,
}

impl Failure {
    /// Writes the one line that reports the failure to `err`. If writing fails, the rest of the line is
    /// lost. If there is no memory for the line of a refusal, the line reports that.
    pub fn report<E: Sink>(self, alloc: Global, err: &mut E)
        ensures { SaysSome (IsLineOf self) (E.written err.old) (E.written err.new)
            (HasFailed (E.failed err.old) (E.failed err.new) (E.idle err.old) (E.idle err.new)) }
    {
        match self {
            Failure::Refused(refusal) => report_refusal(alloc, refusal, err),
            Failure::Stopped(stop) => report_stop(err, &stop),
            Failure::NotListening => write(err, b"rbac: cannot listen\n"),
            Failure::NotAccepting => write(err, b"rbac: cannot accept\n"),
            Failure::Closed => write(err, b"rbac: closed\n"),
        }
    }
}

/// Writes the line that reports that an allocation failed.
pub fn report_no_memory<E: Sink>(err: &mut E)
    ensures { Says no_memory_line (E.written err.old) (E.written err.new)
        (HasFailed (E.failed err.old) (E.failed err.new) (E.idle err.old) (E.idle err.new)) }
{
    write(err, NO_MEMORY);
}

/// Writes a text. If writing fails, the rest is lost.
pub fn write<E: Sink>(err: &mut E, text: &[u8])
    ensures { Says text.now (E.written err.old) (E.written err.new)
        (HasFailed (E.failed err.old) (E.failed err.new) (E.idle err.old) (E.idle err.new)) }
{
    let _ = write_all(err, text);
}

// Writes the line of a refusal, or reports that it can't be allocated.
fn report_refusal<E: Sink>(alloc: Global, refusal: Refusal, err: &mut E)
    ensures { SaysSome (IsLineOf (Failure.Refused refusal)) (E.written err.old) (E.written err.new)
        (HasFailed (E.failed err.old) (E.failed err.new) (E.idle err.old) (E.idle err.new)) }
{
    match refusal_line(alloc, refusal) {
        Ok(line) => write(err, line.as_bytes()),
        Err(_) => report_no_memory(err),
    }
}

// The line of a refusal.
fn refusal_line(alloc: Global, refusal: Refusal) -> Result<String, Refusal>
    ensures { IfOk result (λ line. string_bytes line ≡ refusal_line refusal) }
{
    let mut line = String::from_str(alloc, "rbac: ")?;
    line.push_str(answer_text(alloc, &Verdict::Refused(refusal))?.as_str())?;
    line.push_str("\n")?;
    Ok(line)
}

// Writes the line of a stop. It doesn't allocate, since that may be what failed.
fn report_stop<E: Sink>(err: &mut E, stop: &Stop)
    ensures { Says (stop_line stop.now) (E.written err.old) (E.written err.new)
        (HasFailed (E.failed err.old) (E.failed err.new) (E.idle err.old) (E.idle err.new)) }
{
    let line = stop_line(stop);
    write(err, line.as_str().as_bytes());
}

// The line of a stop.
fn stop_line(stop: &Stop) -> ArrayString<LONGEST_STOP>
    ensures { result.bytes ≡ stop_line stop.now }
{
    let mut line = ArrayString::<LONGEST_STOP>::new();
    line.push_str("rbac: stop ");
    push_cause(&mut line, stop.cause);
    line.push_str(" after ");
    push_number(&mut line, stop.answered);
    line.push_str("\n");
    line
}

// Appends why a replay stopped. A line number has up to 20 digits.
fn push_cause(line: &mut ArrayString<LONGEST_STOP>, cause: Cause)
    requires { array_string_len line.old ≤ 11 }
    ensures bytes { line.new.bytes ≡ line.old.bytes ++ cause_text cause }
    ensures len { array_string_len line.new ≤ 36 }
{
    match cause {
        Cause::Read => line.push_str("Read"),
        Cause::Write => line.push_str("Write"),
        Cause::Line(number) => {
            line.push_str("Line ");
            push_number(line, number);
        }
        Cause::Store => line.push_str("Store"),
        Cause::Closed => line.push_str("Closed"),
        Cause::Memory => line.push_str("Memory"),
    }
}

// Appends a number, which has up to 20 digits.
fn push_number(line: &mut ArrayString<LONGEST_STOP>, number: u64)
    requires { array_string_len line.old + 20 ≤ 64 }
    ensures bytes { line.new.bytes ≡ line.old.bytes ++ decimal number }
    ensures len { array_string_len line.new ≤ array_string_len line.old + 20 }
{
    let mut buffer = Buffer::new();
    line.push_str(buffer.format(number));
}
