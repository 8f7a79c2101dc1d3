//! The work of each subcommand over the office of an open connection, whatever its store.
ghost use Rattle.std.specs.Prelude.{◌≡◌, ◌⊎◌, ◌≤◌, ◌+◌, ◌++◌, ◌∷◌, [], ℕ, List, false, Ok, Err, IfErr, IfOk, IsOk, MatchResult, OnOk, string_bytes};
ghost use Rattle.std.specs.Io.KnownBytes.{Appends};
ghost use Rattle.sqlite.specs.Held.{state};
ghost use Rattle.sqlite.specs.State.{HasCleanDisk};
ghost use Rattle.rbac_sets.specs.CommandContent.{Import, content_of};
ghost use Rattle.rbac_sets.specs.Sets.{Pair};
ghost use Rattle.rbac_sets.specs.Stream.{HasRisen};
ghost use Rattle.admin_mgr.specs.PlanEffect.{tally_of_report};
ghost use Rattle.review_mgr.specs.Report.{report};
ghost use Rattle.role_csv.specs.Assignments.{assignments};
ghost use Rattle.role_csv.specs.Export.{exported};
ghost use Rattle.role_json.specs.Answer.{import_text};
ghost use Rattle.role_json.specs.RequestContent.{Change};
ghost use Rattle.role_tables.specs.Durability.{ForgetsNoFault};
ghost use Rattle.role_wire.specs.Continuation.{Continues};
ghost use Rattle.role_wire.specs.OfficeRequest.{RefusesRequest, DoesRequest};
ghost use Rattle.role_wire.specs.Replay.{most_reads};
ghost use Rattle.role_cli.specs.Hosts.{IsUntouched, around};
ghost use Rattle.role_cli.specs.Environment.{HasFailed};
ghost use Rattle.role_cli.specs.Work.{BeginsRun, DoesOnConnection, DoesOverSomeState, DoesSubcommand, FailsOnConnection, FailsOrFindsNoOffice, FailsSubcommand, FailsToImport, Imports, IsOpeningFailure, IsUnopened, IsUnwritten, RefusesText, StartsWell, WritesPart, asks_host, reads_input};

use crate::choice::Choice;
use crate::failure::Failure;
use crate::host::{Accept, CsvFiles};
use crate::serving::serve;
use admin_mgr::Report;
use rbac_sets::{Command, Refusal, Sink, Source, write_all};
use review_mgr::report_roles;
use role_http::ReadError;
use role_tables::{Office, Unopened, create, migrate, open};
use role_wire::{Cause, Stop, Verdict, answer_text, read_assignments, replay, write_assignments};
use sqlite::{Alter, Connection};
use std::alloc::Global;

/// Does the work of a subcommand over an open connection, whatever its store, and hands the connection
/// back: creates, migrates or opens the office in its tables, does what the subcommand does, and writes
/// its output to `out`. Only a replay reads `source`. `host` has the CSV file of an import and the clients of a
/// server.
///
/// While the disk returns what was written, the work is done over the state that was stored in the
/// connection. From the opening on the office is in one run, in which a crash leaves what its answers
/// allow. This holds of the connection that is handed back too, however the work ended.
///
/// # Errors
///
/// - `Refused` with the refusal of `create`, `migrate` or `open`. Nothing was read or written, and no office
///   was changed but by a migration whose commit failed.
/// - `Refused` if an allocation, the store or the output failed, or an import was refused.
/// - `Stopped` if a replay stopped, or a CSV file can't be read.
/// - `NotListening`, `NotAccepting` or `Closed` for a server.
pub fn run_on_connection<S: Alter, H: Accept + CsvFiles, R: Source, W: Sink>(
    alloc: Global,
    conn: Connection<S>,
    choice: &Choice,
    host: &mut H,
    source: &mut R,
    out: &mut W,
) -> (Result<(), Failure>, Connection<S>)
    ensures clean { ForgetsNoFault (state S.Store conn) (state S.Store result.1) }
    ensures done { HasCleanDisk (state S.Store result.1) → OnOk result.0 (DoesOnConnection (state S.Store) choice.now (state S.Store conn)
        (around R.Source W.Sink H.CsvFiles H.Accept source.old out.old host.old)
        (around R.Source W.Sink H.CsvFiles H.Accept source.new out.new host.new) result.1) }
    ensures failed { HasCleanDisk (state S.Store result.1) → IfErr result.0
        (λ failure. FailsOnConnection (state S.Store) choice.now (state S.Store conn) failure
        (IsUntouched source.old source.new out.old out.new host.old host.new)
        (around R.Source W.Sink H.CsvFiles H.Accept source.old out.old host.old)
        (around R.Source W.Sink H.CsvFiles H.Accept source.new out.new host.new) result.1) }

    // Whatever the disk returns, the work is done over an office of some good state.
    ensures some { OnOk result.0 (DoesOverSomeState (state S.Store) choice.now
        (around R.Source W.Sink H.CsvFiles H.Accept source.old out.old host.old)
        (around R.Source W.Sink H.CsvFiles H.Accept source.new out.new host.new)) }
    ensures some_failed { IfErr result.0 (λ failure. FailsOrFindsNoOffice (state S.Store) choice.now failure
        (IsUntouched source.old source.new out.old out.new host.old host.new)
        (around R.Source W.Sink H.CsvFiles H.Accept source.old out.old host.old)
        (around R.Source W.Sink H.CsvFiles H.Accept source.new out.new host.new)) }
    ensures unread { reads_input choice.now ≡ false → source.new ≡ source.old }
    ensures unasked { asks_host choice.now ≡ false → host.new ≡ host.old }
    ensures reads { R.reads source.new ≤ R.reads source.old + most_reads }
{
    match office_of(alloc, conn, choice) {
        Ok(mut office) => {
            office.recall_good();
            let done = run_on_office(alloc, &mut office, choice, host, source, out);
            (done, office.into_connection())
        }
        Err(Unopened { refusal, conn }) => (Err(Failure::Refused(refusal)), conn),
    }
}

// Creates, migrates or opens the office of the connection.
fn office_of<S: Alter>(
    alloc: Global,
    conn: Connection<S>,
    choice: &Choice,
) -> Result<Office<S>, Unopened<S>>
    ensures open { IfOk result (λ office. office.is_closed ≡ false) }
    ensures made { IfOk result (λ office. StartsWell choice.now office.facts) }
    ensures clean { MatchResult result (λ office. ForgetsNoFault (state S.Store conn) (state S.Store office.conn))
        (λ u. ForgetsNoFault (state S.Store conn) (state S.Store u.conn)) }
    ensures begins { IfOk result
        (λ office. HasCleanDisk (state S.Store office.conn) → BeginsRun (state S.Store) choice.now (state S.Store conn) office) }
    ensures refusal { IfErr result (λ u. IsOpeningFailure choice.now (Failure.Refused u.refusal)) }
    ensures unopened { IfErr result
        (λ u. HasCleanDisk (state S.Store u.conn) → IsUnopened choice.now (state S.Store conn) u.refusal (state S.Store u.conn)) }
{
    match choice {
        Choice::Init(_) => create(alloc, conn),
        Choice::Migrate(_) => migrate(alloc, conn),
        _ => open(alloc, conn),
    }
}

// Does the work of the subcommand over an open office.
fn run_on_office<S: Alter, H: Accept + CsvFiles, R: Source, W: Sink>(
    alloc: Global,
    office: &mut Office<S>,
    choice: &Choice,
    host: &mut H,
    source: &mut R,
    out: &mut W,
) -> Result<(), Failure>
    requires open { office.old.is_closed ≡ false }
    ensures done { OnOk result (DoesSubcommand (state S.Store) choice.now office.old
        (around R.Source W.Sink H.CsvFiles H.Accept source.old out.old host.old)
        (around R.Source W.Sink H.CsvFiles H.Accept source.new out.new host.new) office.new) }
    ensures failed { IfErr result (λ failure. FailsSubcommand (state S.Store) choice.now failure office.old
        (around R.Source W.Sink H.CsvFiles H.Accept source.old out.old host.old)
        (around R.Source W.Sink H.CsvFiles H.Accept source.new out.new host.new) office.new) }
    ensures continues { Continues (state S.Store) office.old office.new }
    ensures unread { reads_input choice.now ≡ false → source.new ≡ source.old }
    ensures unasked { asks_host choice.now ≡ false → host.new ≡ host.old }
    ensures reads { R.reads source.new ≤ R.reads source.old + most_reads }
{
    match choice {
        Choice::Init(_) | Choice::Migrate(_) => Ok(()),
        Choice::Replay(_) => match replay(alloc, office, source, out) {
            Ok(_) => Ok(()),
            Err(stop) => Err(Failure::Stopped(stop)),
        },
        Choice::Serve(_, port, limit) => serve(alloc, office, *port, *limit, host, out),
        Choice::Import(_, path) => import(alloc, office, path.as_str(), host, out),
        Choice::Export(_) => export(alloc, office, out),
        Choice::Report(_) => report(alloc, office, out),
        Choice::Check(_) => say(out, b"good\n"),
    }
}

/// Writes a line. Output that fails counts as a failed store.
pub(crate) fn say<W: Sink>(out: &mut W, line: &[u8]) -> Result<(), Failure>
    ensures ok { OnOk result (Appends (W.written out.old) (W.written out.new) line.now) }
    ensures part { IfErr result (λ failure. (failure ≡ Failure.Refused Refusal.Store)
        × HasFailed (W.failed out.old) (W.failed out.new) (W.idle out.old) (W.idle out.new)
        × WritesPart line.now (W.written out.old) (W.written out.new)) }
{
    match write_all(out, line) {
        Ok(()) => Ok(()),
        Err(_) => Err(Failure::Refused(Refusal::Store)),
    }
}

// Writes the assignments.
fn export<S: Alter, W: Sink>(alloc: Global, office: &Office<S>, out: &mut W) -> Result<(), Failure>
    requires { office.now.is_closed ≡ false }
    ensures ok { OnOk result (Appends (W.written out.old) (W.written out.new) (exported office.now.facts)) }
    ensures part { IfErr result (λ failure. IsUnwritten failure (HasFailed (W.failed out.old) (W.failed out.new) (W.idle out.old) (W.idle out.new))
        × WritesPart (exported office.now.facts) (W.written out.old) (W.written out.new)) }
{
    match office.state() {
        Ok(state) => as_failure(write_assignments(alloc, state, out)),
        Err(refusal) => Err(Failure::Refused(refusal)),
    }
}

// Writes the role report.
fn report<S: Alter, W: Sink>(alloc: Global, office: &Office<S>, out: &mut W) -> Result<(), Failure>
    requires { office.now.is_closed ≡ false }
    ensures ok { OnOk result (Appends (W.written out.old) (W.written out.new) (report office.now.facts)) }
    ensures part { IfErr result (λ failure. IsUnwritten failure (HasFailed (W.failed out.old) (W.failed out.new) (W.idle out.old) (W.idle out.new))
        × WritesPart (report office.now.facts) (W.written out.old) (W.written out.new)) }
{
    match office.state() {
        Ok(state) => as_failure(report_roles(alloc, state, out)),
        Err(refusal) => Err(Failure::Refused(refusal)),
    }
}

// A refusal as a failure of the program.
fn as_failure(done: Result<(), Refusal>) -> Result<(), Failure>
    ensures { MatchResult done (λ _. IsOk result) (λ refusal. result ≡ Err (Failure.Refused refusal)) }
{
    match done {
        Ok(()) => Ok(()),
        Err(refusal) => Err(Failure::Refused(refusal)),
    }
}

// Imports the assignments of a file, and writes the answer.
fn import<S: Alter, C: CsvFiles, W: Sink>(
    alloc: Global,
    office: &mut Office<S>,
    path: &str,
    files: &mut C,
    out: &mut W,
) -> Result<(), Failure>
    ensures ok { OnOk result (Imports (state S.Store) (C.csv_at files.old path.now) office.old (W.written out.old) (W.written out.new) office.new) }
    ensures err { IfErr result (λ failure. FailsToImport (state S.Store) (C.csv_at files.old path.now) office.old failure
        (HasFailed (W.failed out.old) (W.failed out.new) (W.idle out.old) (W.idle out.new))
        (HasRisen (C.failed_csv files.old) (C.failed_csv files.new)) (W.written out.old) (W.written out.new) office.new) }
{
    let text = match files.read_csv(alloc, path) {
        Ok(text) => text,
        Err(ReadError::Memory) => return Err(Failure::Refused(Refusal::Memory)),
        Err(ReadError::Fault) => return Err(Failure::Stopped(Stop {
            cause: Cause::Read,
            answered: 0,
        })),
    };
    let line = match imported(alloc, office, &text) {
        Ok(line) => line,
        Err(refusal) => return Err(Failure::Refused(refusal)),
    };
    say(out, line.as_bytes())
}

// Imports the assignments of a text, and returns the line of the answer.
fn imported<S: Alter>(alloc: Global, office: &mut Office<S>, text: &[u8]) -> Result<String, Refusal>
    ensures ok { IfOk result (λ line. (pairs : List Pair) × (answer : List ℕ) × (assignments text.now ≡ Ok pairs)
        × DoesRequest (state S.Store) office.old (Change (Import pairs)) answer office.new × (string_bytes line ≡ answer ++ (10 ∷ []))) }
    ensures err { IfErr result (λ refusal. (RefusesText text.now refusal × (office.new ≡ office.old))
        ⊎ ((pairs : List Pair) × (assignments text.now ≡ Ok pairs)
        × (RefusesRequest (state S.Store) office.old (Change (Import pairs)) refusal office.new
        ⊎ ((refusal ≡ Refusal.Memory) × ((answer : List ℕ) × DoesRequest (state S.Store) office.old (Change (Import pairs)) answer office.new))))) }
{
    let pairs = read_assignments(alloc, text)?;
    let command = Command::ImportAssignments(pairs);
    let line = import_pairs(alloc, office, &command);
    drop(command);
    line
}

// Applies an import, and returns the line of the answer.
fn import_pairs<S: Alter>(
    alloc: Global,
    office: &mut Office<S>,
    command: &Command,
) -> Result<String, Refusal>
    requires { (pairs : List Pair) × (content_of command.now ≡ Import pairs) }
    ensures ok { IfOk result (λ line. (answer : List ℕ) × DoesRequest (state S.Store) office.old (Change (content_of command.now)) answer office.new
        × (string_bytes line ≡ answer ++ (10 ∷ []))) }
    ensures err { IfErr result (λ refusal. RefusesRequest (state S.Store) office.old (Change (content_of command.now)) refusal office.new
        ⊎ ((refusal ≡ Refusal.Memory)
        × ((answer : List ℕ) × DoesRequest (state S.Store) office.old (Change (content_of command.now)) answer office.new))) }
{
    let report = office.apply(alloc, command)?;
    import_line(alloc, report)
}

// The line of the answer to an import.
fn import_line(alloc: Global, report: Report) -> Result<String, Refusal>
    ensures ok { IfOk result (λ line. string_bytes line ≡ import_text (tally_of_report report) ++ (10 ∷ [])) }
    ensures err { IfErr result (λ refusal. refusal ≡ Refusal.Memory) }
{
    let mut line = answer_text(alloc, &Verdict::Imported(report))?;
    line.push_str("\n")?;
    Ok(line)
}
