//! A replay over an office in memory.
ghost use Rattle.std.specs.Prelude.{◌≡◌, ◌⊎◌, ◌≤◌, ◌+◌, IsTrue, OnOk, IfOk, IfErr};
ghost use Rattle.rbac_sets.specs.Stream.{HasRisen};
ghost use Rattle.role_wire.specs.Replay.{IsAtBound, most_reads};
ghost use Rattle.role_cli.specs.Work.{IsCaused};
ghost use Rattle.role_cli.specs.ProgramOutcome.{FailsInMemory, IsNewOffice, ReplaysInMemory};

use crate::failure::Failure;
use crate::memory_file::MemoryFile;
use rbac_sets::{Refusal, Sink, Source};
use role_tables::{Office, create};
use role_wire::replay;
use sqlite::{Connection, FileStore, Files, Options};
use sqlite_disk::Disk;
use std::alloc::Global;

/// The options of the store. Its pages are in memory anyway, so it caches few of them, and its log is
/// short: with more of both a replay is no faster. Any seed will do for the salts of the log, since
/// nobody opens these files again.
const OPTIONS: Options = Options {
    cache_pages: 64,
    spill_pages: 64,
    checkpoint_frames: 64,
    seed: 1,
};

/// Answers the lines of `source` in `sink`, as `replay` of `role_wire` does, over a new and empty office
/// of version 2 in memory. The office is lost when the replay ends.
///
/// # Errors
///
/// - `Stopped`, as `replay` stops. If an allocation for the files of the office fails, the cause is `Store`.
/// - `Refused` with `Memory` or `Store` if an allocation for the new office failed. Nothing was read or
///   written then.
pub(crate) fn replay_memory<R: Source, W: Sink>(
    alloc: Global,
    source: &mut R,
    sink: &mut W,
) -> Result<(), Failure>
    ensures done { OnOk result
        (ReplaysInMemory ⟦<MemoryFile as Disk>⟧ (R.remaining source.old) (R.remaining source.new) (W.written sink.old) (W.written sink.new)) }
    ensures stopped { IfErr result (λ failure. FailsInMemory ⟦<MemoryFile as Disk>⟧ failure ((source.new ≡ source.old) × (sink.new ≡ sink.old))
        (R.remaining source.old) (R.remaining source.new) (W.written sink.old) (W.written sink.new)) }
    ensures caused { IfErr result (λ failure. IsCaused failure
        (HasRisen (W.failed sink.old) (W.failed sink.new) ⊎ HasRisen (W.idle sink.old) (W.idle sink.new))
        (HasRisen (R.failed source.old) (R.failed source.new) ⊎ IsAtBound (R.reads source.old) (R.reads source.new))) }
    ensures reads { R.reads source.new ≤ R.reads source.old + most_reads }
{
    let log = MemoryFile::new(alloc);
    let db = MemoryFile::new(alloc);
    replay_on_files(alloc, Files { log, db }, source, sink)
}

// Answers the lines over a new office in these files.
fn replay_on_files<D: Disk + Drop, R: Source, W: Sink>(
    alloc: Global,
    files: Files<D>,
    source: &mut R,
    sink: &mut W,
) -> Result<(), Failure>
    requires usable { (file : D) → IsTrue (D.Disk.is_usable file) }
    requires clean { (file : D) → IsTrue (D.Disk.is_clean file) }
    ensures done { OnOk result
        (ReplaysInMemory ⟦<D as Disk>⟧ (R.remaining source.old) (R.remaining source.new) (W.written sink.old) (W.written sink.new)) }
    ensures stopped { IfErr result (λ failure. FailsInMemory ⟦<D as Disk>⟧ failure ((source.new ≡ source.old) × (sink.new ≡ sink.old))
        (R.remaining source.old) (R.remaining source.new) (W.written sink.old) (W.written sink.new)) }
    ensures caused { IfErr result (λ failure. IsCaused failure
        (HasRisen (W.failed sink.old) (W.failed sink.new) ⊎ HasRisen (W.idle sink.old) (W.idle sink.new))
        (HasRisen (R.failed source.old) (R.failed source.new) ⊎ IsAtBound (R.reads source.old) (R.reads source.new))) }
    ensures reads { R.reads source.new ≤ R.reads source.old + most_reads }
{
    let mut office = new_office(alloc, files)?;
    match replay(alloc, &mut office, source, sink) {
        Ok(_) => Ok(()),
        Err(stop) => Err(Failure::Stopped(stop)),
    }
}

// Creates an office in these files.
fn new_office<D: Disk + Drop>(
    alloc: Global,
    files: Files<D>,
) -> Result<Office<FileStore<D>>, Failure>
    requires usable { (file : D) → IsTrue (D.Disk.is_usable file) }
    requires clean { (file : D) → IsTrue (D.Disk.is_clean file) }
    ensures ok { IfOk result IsNewOffice }
    ensures err { IfErr result (λ failure. (failure ≡ Failure.Refused Refusal.Memory) ⊎ (failure ≡ Failure.Refused Refusal.Store)) }
{
    let Ok(conn) = Connection::open_files(alloc, files, OPTIONS) else {
        return Err(Failure::Refused(Refusal::Memory));
    };
    match create(alloc, conn) {
        Ok(office) => Ok(office),
        Err(_) => Err(Failure::Refused(Refusal::Store)),
    }
}
