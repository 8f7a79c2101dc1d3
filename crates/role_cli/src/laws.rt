//! The laws of the program's work.
ghost use Rattle.sqlite.specs.Files.{over_files};
ghost use Rattle.sqlite.specs.Held.{state};
ghost use Rattle.role_cli.specs.Environment.{StartDecides};
ghost use Rattle.role_cli.specs.FileRuns.{AcknowledgedDeassignmentStays, AcknowledgedRevocationStays, DeassignedStaysInFile, FileLives, LinesAreAcknowledged, ReplayIsFileRun, RevokedStaysInFile, WorkIsFileRun};
ghost use Rattle.role_cli.specs.FileWork.{MigrationIsStored, NewOfficeIsStored, RefusedOpeningIsStored, RunsCompose, WorkIsStored};
ghost use Rattle.role_cli.specs.ServedConnections.{ServedAreAccepted};
ghost use Rattle.role_cli.specs.Work.{DoesSubcommand, FailsSubcommand, NoneBeginsOverRefused};
ghost use Rattle.role_cli.specs.declared.failure.Failure.{Failure};

use admin_mgr::laws::migrated_good;
use role_tables::laws::{calls, lives, refused_openings};
use sqlite::{Alter, Connection};
use sqlite_disk::Disk;

/// No work is done over rows that are refused: if an opening is refused because of what a connection holds,
/// and not by `Memory` or `Store`, then neither an opening nor a migration begins an office over it.
pub fn refused_work<S: Alter>(_conn: &Connection<S>)
    ensures { NoneBeginsOverRefused (state S.Store) }
{
    refused_openings();
}

/// What a subcommand did is in the file, and so is what it did before it failed: if it worked over files that
/// stored a good state whose texts are valid names, and the files were closed then, the database file alone,
/// without its log, stores the state that the work led to, as it reads now and after a crash. After `init`
/// it stores the empty state, and after `migrate` the migrated one. If the office could not be created, migrated or
/// opened, it stores the state that was there.
pub fn work_is_stored<D: Disk>(_disk: &D)
    ensures done { WorkIsStored D.Disk (λ chosen from to first last. DoesSubcommand (state over_files) chosen first from to last) }
    ensures failed { (failure : Failure) → WorkIsStored D.Disk
        (λ chosen from to first last. FailsSubcommand (state over_files) chosen failure first from to last) }
    ensures unopened { RefusedOpeningIsStored D.Disk }
    ensures created { NewOfficeIsStored D.Disk }
    ensures migrated { MigrationIsStored D.Disk }
{}

/// Each connection that a server has served was accepted: the count of the accepted ones rose by as many, if
/// it has not saturated. So nobody is served whom nobody accepted.
pub fn served_are_accepted<S: Alter>(_conn: &Connection<S>)
    ensures { ServedAreAccepted (state S.Store) }
{}

/// The bytes that an import reads of a CSV file decide about it as its whole text does: it reads all of them, or
/// one more than a text of assignments may have.
pub fn a_start_decides()
    ensures { StartDecides }
{}

/// The state that one run of the program stored is stored in the files that the next run opens, as they read after
/// the close or after a crash, with their log or without it.
pub fn runs_compose<D: Disk>(_disk: &D)
    ensures { RunsCompose D.Disk }
{}

/// The headline theorem for one file: over any list of runs of the program, each stopped at any moment, each over files
/// that store what the run before left, the files store a good state in the end whose texts are valid names. This is the
/// state after a prefix of the accepted commands of the last run, and the prefix has every acknowledged one. An assignment or a
/// grant is not in it if its removal was acknowledged in one of the runs and no later command may have restored it.
pub fn file_lives()
    ensures lives { FileLives }
    ensures deassigned { DeassignedStaysInFile }
    ensures revoked { RevokedStaysInFile }
{
    lives();
    migrated_good();
}

/// The runs of the program are those that `file_lives` is about: work over an office that was there, which ended with its
/// files closed, whether it was done or failed, began over whatever state they stored, and what the next run may open stores a
/// state that its events allow. The events of a replay are those of the lines that it read, each command with its verdict, and
/// what it wrote are their answers.
pub fn work_is_file_run<D: Disk>(_disk: &D)
    ensures done { WorkIsFileRun D.Disk (λ chosen from to first last. DoesSubcommand (state over_files) chosen first from to last) }
    ensures failed { (failure : Failure) → WorkIsFileRun D.Disk
        (λ chosen from to first last. FailsSubcommand (state over_files) chosen failure first from to last) }
    ensures replay { ReplayIsFileRun D.Disk }
{
    calls();
    lives();
}

/// What a client of `rbac replay` was told stays so: if a line that deassigns a user was answered by `{"ok":true}`, then after any
/// list of runs over the file the assignment is not in the state that it stores, unless a later event may have assigned the
/// user again. The same holds of a line that revokes a grant. The events after the line are those of the later lines, and of
/// the runs after this one.
pub fn acknowledged_stays()
    ensures lines { LinesAreAcknowledged }
    ensures deassigned { AcknowledgedDeassignmentStays }
    ensures revoked { AcknowledgedRevocationStays }
{
    file_lives();
}
