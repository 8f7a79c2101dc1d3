//! What is at the path of an office: what has to be there before it is opened, and what is removed if it could not be
//! opened or created.
ghost use Rattle.std.specs.Prelude.{◌≡◌, ◌⊎◌, ◌↔◌, ◌≤◌, ◌∷◌, [], IfErr, IfOk, IfSome, IsSomeAnd, OnOk};
ghost use Rattle.rbac_sets.specs.Stream.{HasRisen};
ghost use Rattle.role_cli.specs.Work.{IsOpeningFailure};
ghost use Rattle.role_cli.specs.Leftovers.{CannotBegin, HasByte, HasNoPage, IsBefore, IsBegun, IsStateOf, RemovesEmpty, RemovesSiblings, Restores};
ghost use Rattle.role_cli.specs.Paths.{ChangesKnown, length_in, log_of, without};

use crate::choice::Choice;
use crate::failure::Failure;
use crate::folder::{Entry, Folder};
use rbac_sets::Refusal;

/// The size of the pages of a new database. A file that an opening has only begun has no more than the first one.
const PAGE: u64 = 4_096;

/// The size of the header of a log, of the header of each page in it, and of the smallest page that a database may have.
const LOG_HEADER: u64 = 32;

const FRAME_HEADER: u64 = 24;

const SMALLEST_PAGE: u64 = 512;

/// A log that is shorter than this holds no whole page, and so nothing that was committed.
const SHORTEST_LOG: u64 = LOG_HEADER + FRAME_HEADER + SMALLEST_PAGE;

/// SQLite reads a file of up to one byte as a new database.
const LONGEST_NEW: u64 = 1;

/// The endings of the log and of its index.
const LOG: &str = "-wal";

const INDEX: &str = "-shm";

/// What was at a path before an office was to be created there.
#[derive(Clone, Copy, Debug, PartialEq, Eq)]
pub enum PathState {
    /// Nothing.
    Nothing,
    /// An empty file.
    EmptyFile,
    /// A file that is not empty, or one that is required to exist.
    Bytes,
}

/// What is removed of the files of an office that could not be opened or created.
#[derive(Clone, Copy, Debug, PartialEq, Eq)]
enum Removal {
    /// Nothing.
    Nothing,
    /// The log.
    Log,
    /// The log and its index, and the file is emptied.
    Content,
    /// The log, its index and the file.
    File,
}

/// What is at the path. Only `init` creates a file if there is none.
///
/// # Errors
///
/// - `Refused` with `Store` if there is no file at the path, or for `init` something that is no file; or if a call of the
///   folder failed.
/// - `Refused` with `NotAnOffice` if there is a file of up to one byte, and no log with a byte beside it: an opening
///   would read that as a new database.
/// - `Refused` with `Memory` if an allocation failed.
pub(crate) fn state_before<F: Folder>(
    folder: &mut F,
    path: &str,
    choice: &Choice,
) -> Result<PathState, Failure>
    ensures before { IfOk result (λ before. IfSome (F.paths folder.old) (IsBefore choice.now path.now before)) }
    ensures cannot { IfErr result
        (λ failure. CannotBegin choice.now path.now failure (F.paths folder.old) (HasRisen (F.failed_calls folder.old) (F.failed_calls folder.new))) }
    ensures refusal { IfErr result (IsOpeningFailure choice.now) }
    ensures count { F.failed_calls folder.old ≤ F.failed_calls folder.new }
    ensures same { F.paths folder.new ≡ F.paths folder.old }
    ensures settled { F.settled folder.new ≡ F.settled folder.old }
{
    let found = folder.entry_at(path);
    if let Choice::Init(_) = choice {
        return state_of_new(found);
    }
    let Entry::File(length) = found else {
        return Err(Failure::Refused(Refusal::Store));
    };
    if length <= LONGEST_NEW {
        require_log(folder, path)?;
    }
    Ok(PathState::Bytes)
}

// What is at the path of a new office. Anything but a file is refused, and so is a link to nothing.
fn state_of_new(found: Entry) -> Result<PathState, Failure>
    ensures ok { IfOk result (λ before. IsStateOf before found) }
    ensures err { IfErr result (λ failure. (failure ≡ Failure.Refused Refusal.Store) × (found ≡ Entry.Other)) }
{
    match found {
        Entry::Nothing => Ok(PathState::Nothing),
        Entry::File(0) => Ok(PathState::EmptyFile),
        Entry::File(_) => Ok(PathState::Bytes),
        Entry::Other => Err(Failure::Refused(Refusal::Store)),
    }
}

// Refuses a file of up to one byte, unless the log beside it has a byte.
fn require_log<F: Folder>(folder: &mut F, path: &str) -> Result<(), Failure>
    ensures ok { OnOk result (IfSome (F.paths folder.old) (λ known. HasByte (length_in (known.at (log_of path.now known))))) }
    ensures new { IfErr result (λ failure. ((failure ≡ Failure.Refused Refusal.NotAnOffice)
        × IfSome (F.paths folder.old) (λ known. ¬ (HasByte (length_in (known.at (log_of path.now known))))))
        ⊎ (((failure ≡ Failure.Refused Refusal.Memory) ⊎ (failure ≡ Failure.Refused Refusal.Store))
        × HasRisen (F.failed_calls folder.old) (F.failed_calls folder.new))) }
    ensures count { F.failed_calls folder.old ≤ F.failed_calls folder.new }
    ensures same { F.paths folder.new ≡ F.paths folder.old }
    ensures settled { F.settled folder.new ≡ F.settled folder.old }
{
    let log = match folder.beside(path, LOG) {
        Ok(log) => log,
        Err(refusal) => return Err(Failure::Refused(refusal)),
    };
    match length_of(folder.entry_at(log.as_str())) {
        Some(1..) => Ok(()),
        _ => Err(Failure::Refused(Refusal::NotAnOffice)),
    }
}

// The length of the file, if there is one.
fn length_of(entry: Entry) -> Option<u64>
    ensures { result ≡ length_in entry }
{
    match entry {
        Entry::File(length) => Some(length),
        Entry::Nothing | Entry::Other => None,
    }
}

/// Removes what was begun at a path before an office could not be opened or created, while the file is still locked. If
/// more than a beginning was written, it stays, and the next opening reads it.
pub(crate) fn restore<F: Folder>(folder: &mut F, path: &str, before: PathState)
    ensures restored { Restores before path.now (HasRisen (F.failed_calls folder.old) (F.failed_calls folder.new)) (F.paths folder.old)
        (F.paths folder.new) }
    ensures settled { F.settled folder.new ≡ F.settled folder.old }
    ensures at { F.opened_at folder.new ≡ F.opened_at folder.old }
    ensures count { F.failed_calls folder.old ≤ F.failed_calls folder.new }
{
    let Ok(log) = folder.beside(path, LOG) else {
        return;
    };
    let file = length_of(folder.entry_at(path));
    match what_to_remove(before, file, length_of(folder.entry_at(log.as_str()))) {
        Removal::Nothing => {}
        Removal::Log => folder.remove(log.as_str()),
        Removal::Content => {
            remove_siblings(folder, path);
            folder.make_empty(path);
        }
        Removal::File => {
            remove_siblings(folder, path);
            folder.remove(path);
        }
    }
}

// What is removed, by what was at the path before, and by the lengths of the file and of its log, if they are there.
// Nothing is removed that may hold what was committed.
fn what_to_remove(before: PathState, file: Option<u64>, log: Option<u64>) -> Removal
    ensures log { (result ≡ Removal.Log) ↔ ((before ≡ PathState.Bytes) × IsSomeAnd log HasNoPage) }
    ensures content { (result ≡ Removal.Content) ↔ ((before ≡ PathState.EmptyFile) × IsBegun file log) }
    ensures file { (result ≡ Removal.File) ↔ ((before ≡ PathState.Nothing) × IsBegun file log) }
{
    let is_short = log.unwrap_or(0) < SHORTEST_LOG;
    let is_begun = is_short && matches!(file, Some(length) if length <= PAGE);
    match before {
        PathState::Bytes if is_short && log.is_some() => Removal::Log,
        PathState::EmptyFile if is_begun => Removal::Content,
        PathState::Nothing if is_begun => Removal::File,
        _ => Removal::Nothing,
    }
}

/// Removes an empty file that was created where there was nothing, and that could not be opened.
pub(crate) fn remove_empty<F: Folder>(folder: &mut F, path: &str, before: PathState)
    ensures removed { RemovesEmpty before path.now (HasRisen (F.failed_calls folder.old) (F.failed_calls folder.new)) (F.paths folder.old)
        (F.paths folder.new) }
    ensures settled { F.settled folder.new ≡ F.settled folder.old }
    ensures at { F.opened_at folder.new ≡ F.opened_at folder.old }
    ensures count { F.failed_calls folder.old ≤ F.failed_calls folder.new }
{
    if before == PathState::Nothing && folder.entry_at(path) == Entry::File(0) {
        folder.remove(path);
    }
}

/// Removes the log and its index.
pub(crate) fn remove_siblings<F: Folder>(folder: &mut F, path: &str)
    ensures removed { RemovesSiblings path.now (HasRisen (F.failed_calls folder.old) (F.failed_calls folder.new)) (F.paths folder.old)
        (F.paths folder.new) }
    ensures settled { F.settled folder.new ≡ F.settled folder.old }
    ensures at { F.opened_at folder.new ≡ F.opened_at folder.old }
    ensures count { F.failed_calls folder.old ≤ F.failed_calls folder.new }
{
    remove_beside(folder, path, LOG);
    remove_beside(folder, path, INDEX);
}

// Removes the file with this ending beside the file that a path leads to.
fn remove_beside<F: Folder>(folder: &mut F, path: &str, ending: &str)
    ensures removed { ChangesKnown (λ known. known.beside path.now ending.now ∷ []) (λ known. without (known.beside path.now ending.now) known)
        (HasRisen (F.failed_calls folder.old) (F.failed_calls folder.new)) (F.paths folder.old) (F.paths folder.new) }
    ensures settled { F.settled folder.new ≡ F.settled folder.old }
    ensures at { F.opened_at folder.new ≡ F.opened_at folder.old }
    ensures count { F.failed_calls folder.old ≤ F.failed_calls folder.new }
{
    let Ok(other) = folder.beside(path, ending) else {
        return;
    };
    folder.remove(other.as_str());
}
