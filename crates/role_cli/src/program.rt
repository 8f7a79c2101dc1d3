//! What the program does for its arguments.
ghost use Rattle.std.specs.Prelude.{◌≡◌, ◌⊎◌, ◌↔◌, ◌≤◌, ◌+◌, ◌==◌, ℕ, map, None, true, false, is_err, IfErr, IfNone, IfSome, IsErr, IsOk, OnOk};
ghost use Rattle.sqlite.specs.WalFiles.{image_at};
ghost use Rattle.clap.specs.Words.{kind_of, subcommand_of, takes};
ghost use Rattle.rbac_sets.specs.Stream.{HasRisen};
ghost use Rattle.role_wire.specs.Replay.{most_reads};
ghost use Rattle.role_cli.specs.CommandLine.{program};
ghost use Rattle.role_cli.specs.Environment.{HasFailed};
ghost use Rattle.role_cli.specs.Hosts.{IsUntouched, OnMachine, around};
ghost use Rattle.role_cli.specs.Leftovers.{LeavesPaths, NeverBegins, OpensAt, OpensNoFile};
ghost use Rattle.role_cli.specs.ProgramOutcome.{FailsBy, FailsSomehow, IsDone, IsDoneSomehow, is_memory_replay, path_of};
ghost use Rattle.role_cli.specs.ErrorOutput.{IsLineOf, Says, SaysSome, both_or_neither_line, no_memory_line};
ghost use Rattle.role_cli.specs.Work.{asks_host, reads_input};
ghost use Rattle.role_cli.specs.ArgumentChoice.{AsksHelp, Chooses, IsHelp, ReplaysBothOrNeither};
ghost use Rattle.role_cli.specs.declared.choice.Choice.{Choice};
ghost use Rattle.role_cli.specs.declared.failure.Failure.{Failure};

use crate::choice::{Choice, Place, Unchosen, choose};
use crate::failure::{Failure, report_no_memory, write};
use crate::files::run_in_file;
use crate::folder::{Folder, MachineFolder};
use crate::host::{Accept, CsvFiles};
use crate::machine::Machine;
use crate::memory::replay_memory;
use crate::memory_file::MemoryFile;
use crate::store_after::StoreAfter;
use rbac_sets::{Refusal, Sink, Source};
use sqlite::{File, FileFrom, Start, Unknown};
use sqlite_disk::Disk;
use std::alloc::Global;

/// The exit status if all was done.
const EXIT_OK: u8 = 0;

/// The exit status if the work failed.
const EXIT_FAILED: u8 = 1;

/// The exit status if the arguments are no command line of the program.
const EXIT_USAGE: u8 = 2;

/// Does what the program does for the arguments `words`, the first of which is the program's name, with
/// the files and sockets of the runtime, and returns the exit status.
///
/// The status is 0 if the work was done, or if the arguments ask for help or the version, which is written
/// to `out`. It is 1 if the work failed; one line in `err` says why. It is 2 if the arguments are no command
/// line of the program; `err` says why, and nothing was read. If writing to `err` fails, nothing else changes.
pub fn run<R: Source, W: Sink, E: Sink>(
    rt: &HostRuntime,
    words: &[&str],
    source: &mut R,
    out: &mut W,
    err: &mut E,
) -> u8
    ensures status { (result ≡ 0) ⊎ ((result ≡ 1) ⊎ (result ≡ 2)) }

    // Status 0: help was asked for, or the choice in the arguments was done.
    ensures done { result ≡ 0 → (AsksHelp program (map (λ s. s.now) words.entry.now) × (source.new ≡ source.old))
        ⊎ ((choice : Choice) × Chooses (subcommand_of program (map (λ s. s.now) words.entry.now)) choice
        × (reads_input choice ≡ false → source.new ≡ source.old)
        × OnMachine R.Source W.Sink (IsDoneSomehow ⟦<MemoryFile as Disk>⟧ ⟦<File as Disk>⟧ choice) source.old out.old source.new out.new) }

    // Status 2: the arguments are no command line of the program, and nothing was read or written but to `err`.
    ensures refused { result ≡ 2 → (source.new ≡ source.old) × (out.new ≡ out.old) }
    ensures unchosen { result ≡ 2 → (takes program (map (λ s. s.now) words.entry.now) ≡ false)
        ⊎ (ReplaysBothOrNeither (subcommand_of program (map (λ s. s.now) words.entry.now))
        × Says both_or_neither_line (E.written err.old) (E.written err.new)
        (HasFailed (E.failed err.old) (E.failed err.new) (E.idle err.old) (E.idle err.new))) }

    // Status 1: an allocation failed before anything was chosen, or the choice failed; one line says why.
    ensures stopped { result ≡ 1 → (failure : Failure) × SaysSome (IsLineOf failure)
        (E.written err.old) (E.written err.new) (HasFailed (E.failed err.old) (E.failed err.new) (E.idle err.old) (E.idle err.new))
        × (((failure ≡ Failure.Refused Refusal.Memory) × (source.new ≡ source.old) × (out.new ≡ out.old))
        ⊎ ((choice : Choice) × Chooses (subcommand_of program (map (λ s. s.now) words.entry.now)) choice
        × (reads_input choice ≡ false → source.new ≡ source.old)
        × OnMachine R.Source W.Sink
        (FailsSomehow ⟦<MemoryFile as Disk>⟧ ⟦<File as Disk>⟧ choice failure ((source.new ≡ source.old) × (out.new ≡ out.old))
        (λ became. (calls : ℕ) × NeverBegins choice (path_of choice) failure None (HasRisen 0 calls) became))
        source.old out.old source.new out.new)) }
    ensures silent { result ≡ 0 → err.new ≡ err.old }
    ensures reads { R.reads source.new ≤ R.reads source.old + most_reads }
{
    let mut machine = Machine::new(rt);
    let mut folder = MachineFolder::new(rt);
    let (status, became) = run_with(
        rt.alloc(),
        words,
        Unknown,
        &mut folder,
        &mut machine,
        source,
        out,
        err,
    );
    drop(became);
    status
}

/// Does the same as `run`, over files that hold what `start` represents, at the paths of `folder`, and with the CSV files
/// and the clients of `host`, and returns the exit status and what became of the files at FILE, which are still locked.
///
/// If the status is 0, the work was done over the state that the files stored, and if it is 1, it failed over
/// this state or could not begin. After the close the database file alone stores the state that the work led to.
/// Nothing may have been removed from the folder or emptied since a store was last opened or closed.
pub fn run_with<D: Start, F: Folder, H: Accept + CsvFiles, R: Source, W: Sink, E: Sink>(
    alloc: Global,
    words: &[&str],
    start: D,
    folder: &mut F,
    host: &mut H,
    source: &mut R,
    out: &mut W,
    err: &mut E,
) -> (u8, StoreAfter<FileFrom<D>>)
    requires folder { F.settled folder.old ≡ F.paths folder.old }
    ensures status { (result.0 ≡ 0) ⊎ ((result.0 ≡ 1) ⊎ (result.0 ≡ 2)) }

    // Status 0: help was asked for, or the choice in the arguments was done.
    ensures done { result.0 ≡ 0 → (AsksHelp program (map (λ s. s.now) words.entry.now) × (source.new ≡ source.old) × (host.new ≡ host.old)
        × OpensNoFile folder.old folder.new result.1)
        ⊎ ((choice : Choice) × Chooses (subcommand_of program (map (λ s. s.now) words.entry.now)) choice
        × (reads_input choice ≡ false → source.new ≡ source.old) × (asks_host choice ≡ false → host.new ≡ host.old)
        × IsDone ⟦<MemoryFile as Disk>⟧ ⟦<FileFrom<D> as Disk>⟧ (image_at D.Start) choice
        (around R.Source W.Sink H.CsvFiles H.Accept source.old out.old host.old)
        (around R.Source W.Sink H.CsvFiles H.Accept source.new out.new host.new) result.1) }

    // Status 2: the arguments are no command line of the program, and nothing was read or written but to `err`.
    ensures refused { result.0 ≡ 2 → (IsUntouched source.old source.new out.old out.new host.old host.new)
        × OpensNoFile folder.old folder.new result.1 }
    ensures unchosen { result.0 ≡ 2 → (takes program (map (λ s. s.now) words.entry.now) ≡ false)
        ⊎ (ReplaysBothOrNeither (subcommand_of program (map (λ s. s.now) words.entry.now))
        × Says both_or_neither_line (E.written err.old) (E.written err.new)
        (HasFailed (E.failed err.old) (E.failed err.new) (E.idle err.old) (E.idle err.new))) }

    // Status 1: an allocation failed before anything was chosen, or the choice failed; one line says why.
    ensures stopped { result.0 ≡ 1 → (failure : Failure) × SaysSome (IsLineOf failure)
        (E.written err.old) (E.written err.new) (HasFailed (E.failed err.old) (E.failed err.new) (E.idle err.old) (E.idle err.new))
        × (((failure ≡ Failure.Refused Refusal.Memory) × (IsUntouched source.old source.new out.old out.new host.old host.new)
        × OpensNoFile folder.old folder.new result.1)
        ⊎ ((choice : Choice) × Chooses (subcommand_of program (map (λ s. s.now) words.entry.now)) choice
        × (reads_input choice ≡ false → source.new ≡ source.old) × (asks_host choice ≡ false → host.new ≡ host.old)
        × FailsBy ⟦<MemoryFile as Disk>⟧ ⟦<FileFrom<D> as Disk>⟧ (image_at D.Start) choice failure
        (IsUntouched source.old source.new out.old out.new host.old host.new)
        (NeverBegins choice (path_of choice) failure (F.paths folder.old) (HasRisen (F.failed_calls folder.old) (F.failed_calls folder.new)) result.1)
        (around R.Source W.Sink H.CsvFiles H.Accept source.old out.old host.old)
        (around R.Source W.Sink H.CsvFiles H.Accept source.new out.new host.new) result.1)) }

    // What is at the paths then: what the store left there, without leftovers and without a log that was copied. The store was that of
    // the file that was chosen.
    ensures left { OpensNoFile folder.old folder.new result.1
        ⊎ ((choice : Choice) × Chooses (subcommand_of program (map (λ s. s.now) words.entry.now)) choice
        × LeavesPaths choice (path_of choice) (result.0 == 1) result.1 (F.failed_calls folder.old) (F.failed_calls folder.new)
        (F.paths folder.old) (F.settled folder.new) (F.paths folder.new)
        × OpensAt (path_of choice) result.1 (F.opened_at folder.new)) }
    ensures silent { result.0 ≡ 0 → err.new ≡ err.old }
    ensures reads { R.reads source.new ≤ R.reads source.old + most_reads }
{
    match choose(alloc, words) {
        Ok(choice) => {
            let (done, became) = run_choice(alloc, &choice, start, folder, host, source, out);
            (status_of(alloc, done, err), became)
        }
        Err(Unchosen::Either) => {
            write(err, b"rbac: give FILE or --memory\n");
            (EXIT_USAGE, StoreAfter::Untouched)
        }
        Err(Unchosen::Memory) => {
            report_no_memory(err);
            (EXIT_FAILED, StoreAfter::Untouched)
        }
        Err(Unchosen::Fault(error)) => (explain(alloc, &error, out, err), StoreAfter::Untouched),
    }
}

// Does what was chosen.
fn run_choice<D: Start, F: Folder, H: Accept + CsvFiles, R: Source, W: Sink>(
    alloc: Global,
    choice: &Choice,
    start: D,
    folder: &mut F,
    host: &mut H,
    source: &mut R,
    out: &mut W,
) -> (Result<(), Failure>, StoreAfter<FileFrom<D>>)
    requires folder { F.settled folder.old ≡ F.paths folder.old }
    ensures done { OnOk result.0 (IsDone ⟦<MemoryFile as Disk>⟧ ⟦<FileFrom<D> as Disk>⟧ (image_at D.Start) choice.now
        (around R.Source W.Sink H.CsvFiles H.Accept source.old out.old host.old)
        (around R.Source W.Sink H.CsvFiles H.Accept source.new out.new host.new) result.1) }
    ensures failed { IfErr result.0
        (λ failure. FailsBy ⟦<MemoryFile as Disk>⟧ ⟦<FileFrom<D> as Disk>⟧ (image_at D.Start) choice.now failure
        (IsUntouched source.old source.new out.old out.new host.old host.new)
        (NeverBegins choice.now (path_of choice.now) failure (F.paths folder.old)
        (HasRisen (F.failed_calls folder.old) (F.failed_calls folder.new)) result.1)
        (around R.Source W.Sink H.CsvFiles H.Accept source.old out.old host.old)
        (around R.Source W.Sink H.CsvFiles H.Accept source.new out.new host.new) result.1) }
    ensures left { LeavesPaths choice.now (path_of choice.now) (is_err result.0) result.1 (F.failed_calls folder.old) (F.failed_calls folder.new)
        (F.paths folder.old) (F.settled folder.new) (F.paths folder.new) }
    ensures at { OpensAt (path_of choice.now) result.1 (F.opened_at folder.new) }
    ensures unread { reads_input choice.now ≡ false → source.new ≡ source.old }
    ensures unasked { asks_host choice.now ≡ false → host.new ≡ host.old }
    ensures reads { R.reads source.new ≤ R.reads source.old + most_reads }
{
    match path_in(choice) {
        Some(path) => run_in_file(alloc, folder, path, start, choice, host, source, out),
        None => (replay_memory(alloc, source, out), StoreAfter::Untouched),
    }
}

// The path of the office, if it is in a file.
fn path_in(choice: &Choice) -> Option<&str>
    ensures some { IfSome result (λ path. (is_memory_replay choice.now ≡ false) × (path.now ≡ path_of choice.now)) }
    ensures none { IfNone result ((is_memory_replay choice.now ≡ true) × (reads_input choice.now ≡ true)) }
{
    match choice {
        Choice::Replay(Place::Memory) => None,
        Choice::Init(file)
        | Choice::Replay(Place::File(file))
        | Choice::Serve(file, _, _)
        | Choice::Import(file, _)
        | Choice::Export(file)
        | Choice::Report(file)
        | Choice::Check(file)
        | Choice::Migrate(file) => Some(file.as_str()),
    }
}

// The exit status. A failure is reported.
fn status_of<E: Sink>(alloc: Global, done: Result<(), Failure>, err: &mut E) -> u8
    ensures done { (result ≡ 0) ↔ IsOk done }
    ensures stopped { result ≡ 1 → IsErr done }
    ensures failed { (result == 1) ≡ is_err done }
    ensures status { (result ≡ 0) ⊎ (result ≡ 1) }
    ensures reported { result ≡ 1 → IfErr done (λ failure. SaysSome (IsLineOf failure)
        (E.written err.old) (E.written err.new) (HasFailed (E.failed err.old) (E.failed err.new) (E.idle err.old) (E.idle err.new))) }
    ensures silent { result ≡ 0 → err.new ≡ err.old }
{
    match done {
        Ok(()) => EXIT_OK,
        Err(failure) => {
            failure.report(alloc, err);
            EXIT_FAILED
        }
    }
}

// Writes the text of `clap`: help and the version to `out`, all else to `err`.
fn explain<W: Sink, E: Sink>(alloc: Global, error: &clap::Error, out: &mut W, err: &mut E) -> u8
    ensures status { (result ≡ 0) ⊎ ((result ≡ 1) ⊎ (result ≡ 2)) }
    ensures help { result ≡ 0 → IsHelp (kind_of error.now) }
    ensures refused { (result ≡ 2) ⊎ (result ≡ 1) → out.new ≡ out.old }
    ensures reported { result ≡ 1 → Says no_memory_line (E.written err.old) (E.written err.new)
        (HasFailed (E.failed err.old) (E.failed err.new) (E.idle err.old) (E.idle err.new)) }
    ensures silent { result ≡ 0 → err.new ≡ err.old }
{
    let Ok(text) = format!(in alloc; "{error}") else {
        report_no_memory(err);
        return EXIT_FAILED;
    };
    if error.use_stderr() {
        write(err, text.as_bytes());
        return EXIT_USAGE;
    }
    write(out, text.as_bytes());
    EXIT_OK
}
