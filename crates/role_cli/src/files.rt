//! Offices in files: how they are opened, created and closed, and what is restored if that fails.
ghost use Rattle.std.specs.Prelude.{◌≡◌, ◌≤◌, ◌+◌, false, is_err, if◌then◌else◌, IfErr, IfOk, IfSome, OnErr, OnOk};
ghost use Rattle.sqlite.specs.Files.{IsOpened, file_state, over_files};
ghost use Rattle.sqlite.specs.Held.{state};
ghost use Rattle.sqlite.specs.Start.{FindsIn};
ghost use Rattle.sqlite.specs.State.{HasCleanDisk};
ghost use Rattle.sqlite.specs.WalFiles.{image_at};
ghost use Rattle.rbac_sets.specs.Stream.{HasRisen, one_more};
ghost use Rattle.role_wire.specs.Replay.{most_reads};
ghost use Rattle.role_cli.specs.Hosts.{IsUntouched, around};
ghost use Rattle.role_cli.specs.FileWork.{DoesOnStore, FailsOnStore, HoldsCommit, WorksOnFiles};
ghost use Rattle.role_cli.specs.Leftovers.{LeavesClosed, LeavesPaths, LeavesUnopened, NeverBegins, OpensAt};
ghost use Rattle.role_cli.specs.Paths.{ChangesOffice};
ghost use Rattle.role_cli.specs.Work.{DoesOnConnection, DoesOverSomeState, FailsOnConnection, FailsOrFindsNoOffice, asks_host, reads_input};
ghost use Rattle.role_cli.specs.private.ClosedConnection.{ClosesConnection};

use crate::choice::Choice;
use crate::failure::Failure;
use crate::folder::Folder;
use crate::host::{Accept, CsvFiles};
use crate::leftovers::{PathState, remove_empty, remove_siblings, restore, state_before};
use crate::store_after::StoreAfter;
use crate::work::run_on_connection;
use rbac_sets::{Refusal, Sink, Source};
use role_tables::laws::reopened;
use sqlite::{Alter, Connection, FileFrom, FileStore, Files, Start};
use sqlite_disk::Disk;
use std::alloc::Global;

/// Opens the file at a path, does the work of a subcommand over it as `run_on_connection` does, and hands
/// the connection back, which is still open. `before` is what was at the path: if the opening fails, it is
/// restored.
///
/// `start` represents what the files hold when they are opened: whatever state they store, the work is
/// done over that state. That these are the files at the path is the promise of the operating system. Nothing may
/// have been removed from the folder or emptied since a store was last opened or closed.
///
/// # Errors
///
/// If the file can't be opened or created, nothing was read or written. What was opened is handed back, still locked.
pub fn run_on_path<D: Start, F: Folder, H: Accept + CsvFiles, R: Source, W: Sink>(
    alloc: Global,
    folder: &mut F,
    path: &str,
    before: PathState,
    start: D,
    choice: &Choice,
    host: &mut H,
    source: &mut R,
    out: &mut W,
) -> Result<(Result<(), Failure>, Connection<FileStore<FileFrom<D>>>), Option<Files<FileFrom<D>>>>
    requires folder { F.settled folder.old ≡ F.paths folder.old }
    ensures done { IfOk result (λ worked. HasCleanDisk (file_state worked.1) → OnOk worked.0 (WorksOnFiles ⟦<FileFrom<D> as Disk>⟧ (image_at D.Start)
        (λ before. DoesOnConnection (state (over_files {g = ⟦<FileFrom<D> as Disk>⟧})) choice.now before
        (around R.Source W.Sink H.CsvFiles H.Accept source.old out.old host.old)
        (around R.Source W.Sink H.CsvFiles H.Accept source.new out.new host.new) worked.1))) }
    ensures failed { IfOk result
        (λ worked. HasCleanDisk (file_state worked.1) → IfErr worked.0 (λ failure. WorksOnFiles ⟦<FileFrom<D> as Disk>⟧ (image_at D.Start)
        (λ before. FailsOnConnection (state (over_files {g = ⟦<FileFrom<D> as Disk>⟧})) choice.now before failure
        (IsUntouched source.old source.new out.old out.new host.old host.new)
        (around R.Source W.Sink H.CsvFiles H.Accept source.old out.old host.old)
        (around R.Source W.Sink H.CsvFiles H.Accept source.new out.new host.new) worked.1))) }

    // Whatever the disk returns, the work is done over an office of some good state.
    ensures some { IfOk result (λ worked. OnOk worked.0 (DoesOverSomeState (state (over_files {g = ⟦<FileFrom<D> as Disk>⟧})) choice.now
        (around R.Source W.Sink H.CsvFiles H.Accept source.old out.old host.old)
        (around R.Source W.Sink H.CsvFiles H.Accept source.new out.new host.new))) }
    ensures some_failed { IfOk result
        (λ worked. IfErr worked.0
        (λ failure. FailsOrFindsNoOffice (state (over_files {g = ⟦<FileFrom<D> as Disk>⟧})) choice.now failure
        (IsUntouched source.old source.new out.old out.new host.old host.new)
        (around R.Source W.Sink H.CsvFiles H.Accept source.old out.old host.old)
        (around R.Source W.Sink H.CsvFiles H.Accept source.new out.new host.new))) }

    ensures unopened { OnErr result ((IsUntouched source.old source.new out.old out.new host.old host.new)
        × HasRisen (F.failed_calls folder.old) (F.failed_calls folder.new)) }
    ensures at { IfSome (F.opened_at folder.new) (λ at. at ≡ path.now) }
    ensures touched { ChangesOffice path.now (F.paths folder.old) (F.settled folder.new) }
    ensures kept { OnOk result (F.settled folder.new ≡ F.paths folder.new) }
    ensures restored { IfErr result (λ opened. LeavesUnopened before path.now opened
        (HasRisen (one_more (F.failed_calls folder.old)) (F.failed_calls folder.new)) (F.settled folder.new) (F.paths folder.new)) }
    ensures count { F.failed_calls folder.old ≤ F.failed_calls folder.new }
    ensures unread { reads_input choice.now ≡ false → source.new ≡ source.old }
    ensures unasked { asks_host choice.now ≡ false → host.new ≡ host.old }
    ensures reads { R.reads source.new ≤ R.reads source.old + most_reads }
{
    let conn = connect(folder, path, before, start)?;
    reopened(&conn);
    Ok(run_on_connection(alloc, conn, choice, host, source, out))
}

/// Does the work of a subcommand over the file at a path as `run_on_path` does, closes the file, and returns what became
/// of the files, which are still locked. If `init` is refused before a page of an office was written, what was at the path
/// before is restored.
///
/// After the close the database file alone stores the state of the office, unless the store failed in a
/// command: what the commands led to that were acknowledged, from the state on that the files stored before.
///
/// Nothing may have been removed from the folder or emptied since a store was last opened or closed.
///
/// # Errors
///
/// - `Refused` with `Store` if there is no such file or it can't be opened or created.
/// - `Refused` with `NotAnOffice` if it has up to one byte, and no log with a byte beside it.
/// - `Refused` with `Memory` if an allocation failed.
/// - Otherwise as the work fails.
pub fn run_in_file<D: Start, F: Folder, H: Accept + CsvFiles, R: Source, W: Sink>(
    alloc: Global,
    folder: &mut F,
    path: &str,
    start: D,
    choice: &Choice,
    host: &mut H,
    source: &mut R,
    out: &mut W,
) -> (Result<(), Failure>, StoreAfter<FileFrom<D>>)
    requires folder { F.settled folder.old ≡ F.paths folder.old }
    ensures done { OnOk result.0 (DoesOnStore ⟦<FileFrom<D> as Disk>⟧ (image_at D.Start) choice.now
        (around R.Source W.Sink H.CsvFiles H.Accept source.old out.old host.old)
        (around R.Source W.Sink H.CsvFiles H.Accept source.new out.new host.new) result.1) }
    ensures failed { IfErr result.0
        (λ failure. FailsOnStore ⟦<FileFrom<D> as Disk>⟧ (image_at D.Start) choice.now failure
        (IsUntouched source.old source.new out.old out.new host.old host.new)
        (NeverBegins choice.now path.now failure (F.paths folder.old) (HasRisen (F.failed_calls folder.old) (F.failed_calls folder.new)) result.1)
        (around R.Source W.Sink H.CsvFiles H.Accept source.old out.old host.old)
        (around R.Source W.Sink H.CsvFiles H.Accept source.new out.new host.new) result.1) }

    // Whatever the disk returns, the work is done over an office of some good state.
    ensures some { OnOk result.0 (DoesOverSomeState (state (over_files {g = ⟦<FileFrom<D> as Disk>⟧})) choice.now
        (around R.Source W.Sink H.CsvFiles H.Accept source.old out.old host.old)
        (around R.Source W.Sink H.CsvFiles H.Accept source.new out.new host.new)) }
    ensures some_failed { IfErr result.0
        (λ failure. FailsOrFindsNoOffice (state (over_files {g = ⟦<FileFrom<D> as Disk>⟧})) choice.now failure
        (IsUntouched source.old source.new out.old out.new host.old host.new)
        (around R.Source W.Sink H.CsvFiles H.Accept source.old out.old host.old)
        (around R.Source W.Sink H.CsvFiles H.Accept source.new out.new host.new)) }

    ensures left { LeavesPaths choice.now path.now (is_err result.0) result.1 (F.failed_calls folder.old) (F.failed_calls folder.new)
        (F.paths folder.old) (F.settled folder.new) (F.paths folder.new) }
    ensures at { OpensAt path.now result.1 (F.opened_at folder.new) }
    ensures unread { reads_input choice.now ≡ false → source.new ≡ source.old }
    ensures unasked { asks_host choice.now ≡ false → host.new ≡ host.old }
    ensures reads { R.reads source.new ≤ R.reads source.old + most_reads }
{
    let before = match state_before(folder, path, choice) {
        Ok(before) => before,
        Err(failure) => return (Err(failure), StoreAfter::Untouched),
    };
    match run_on_path(
        alloc, folder, path, before, start, choice, host, source, out,
    ) {
        Ok((done, conn)) => {
            settled(&conn);
            let restored = to_restore(&done, before);
            (done, close(folder, path, conn, restored))
        }
        Err(opened) => (
            Err(Failure::Refused(Refusal::Store)),
            StoreAfter::Unopened(opened),
        ),
    }
}

// What is restored after the work: what was there before, if it failed, and otherwise the file, which is an office's now.
fn to_restore(done: &Result<(), Failure>, before: PathState) -> PathState
    ensures { result ≡ (if is_err done.now then before else PathState.Bytes) }
{
    if done.is_err() {
        before
    } else {
        PathState::Bytes
    }
}

// What was committed is what an open connection holds outside a transaction.
fn settled<S: Alter>(conn: &Connection<S>)
    ensures { HoldsCommit (state S.Store conn.now) }
{
    conn.is_autocommit();
}

// Opens the file, or creates it. What an opening that failed has begun is removed.
fn connect<D: Start, F: Folder>(
    folder: &mut F,
    path: &str,
    before: PathState,
    start: D,
) -> Result<Connection<FileStore<FileFrom<D>>>, Option<Files<FileFrom<D>>>>
    requires folder { F.settled folder.old ≡ F.paths folder.old }
    ensures opened { IfOk result (λ conn. HasCleanDisk (file_state conn) → IsOpened conn) }
    ensures found { IfOk result (λ conn. HasCleanDisk (file_state conn) → FindsIn (image_at D.Start) (file_state conn)) }
    ensures at { IfSome (F.opened_at folder.new) (λ at. at ≡ path.now) }
    ensures touched { ChangesOffice path.now (F.paths folder.old) (F.settled folder.new) }
    ensures kept { OnOk result (F.settled folder.new ≡ F.paths folder.new) }
    ensures failed { OnErr result (HasRisen (F.failed_calls folder.old) (F.failed_calls folder.new)) }
    ensures restored { IfErr result (λ opened. LeavesUnopened before path.now opened
        (HasRisen (one_more (F.failed_calls folder.old)) (F.failed_calls folder.new)) (F.settled folder.new) (F.paths folder.new)) }
    ensures count { F.failed_calls folder.old ≤ F.failed_calls folder.new }
{
    match folder.open(path, start) {
        Ok(conn) => Ok(conn),
        Err(Some(files)) => {
            restore(folder, path, before);
            Err(Some(files))
        }
        Err(None) => {
            remove_empty(folder, path, before);
            Err(None)
        }
    }
}

// Copies the log into the file and removes it, while the file is still locked. If that fails, the log
// stays beside the file, and the next opening reads it. If no office was created, what was at the path
// before is restored.
fn close<D: Start, F: Folder>(
    folder: &mut F,
    path: &str,
    conn: Connection<FileStore<FileFrom<D>>>,
    before: PathState,
) -> StoreAfter<FileFrom<D>>
    requires folder { F.settled folder.old ≡ F.paths folder.old }
    ensures closed { ClosesConnection ⟦<FileFrom<D> as Disk>⟧ conn result }
    ensures left { LeavesClosed before path.now result (HasRisen (F.failed_calls folder.old) (F.failed_calls folder.new)) (F.settled folder.new)
        (F.paths folder.new) }
    ensures at { F.opened_at folder.new ≡ F.opened_at folder.old }
    ensures touched { ChangesOffice path.now (F.paths folder.old) (F.settled folder.new) }
    ensures count { F.failed_calls folder.old ≤ F.failed_calls folder.new }
{
    match folder.close(path, conn) {
        Ok(files) => {
            restore(folder, path, before);
            remove_siblings(folder, path);
            StoreAfter::Closed(files)
        }
        Err(store) => {
            restore(folder, path, before);
            StoreAfter::Left(store)
        }
    }
}
