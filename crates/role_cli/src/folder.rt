//! The paths of a folder: what is there, without what it holds.
ghost use Rattle.std.specs.Prelude.{◌≡◌, ◌≤◌, ◌⊎◌, ◌∷◌, [], IfErr, IfOk, IfSome, OnErr, string_bytes};
ghost use Rattle.sqlite.specs.Closing.{IsCopied};
ghost use Rattle.sqlite.specs.Files.{IsOpened, file_state};
ghost use Rattle.sqlite.specs.Start.{FindsIn};
ghost use Rattle.sqlite.specs.State.{HasCleanDisk};
ghost use Rattle.sqlite.specs.WalFiles.{image_at};
ghost use Rattle.sqlite.specs.WalReads.{AreClean};
ghost use Rattle.rbac_sets.specs.Stream.{HasRisen, failures_after, one_more};
ghost use Rattle.role_cli.specs.FileWork.{LeavesLog};
ghost use Rattle.role_cli.specs.Paths.{ChangesKnown, ChangesOffice, with_empty, without};

use rbac_sets::Refusal;
use sqlite::{Connection, FileFrom, FileStore, Files, Start};
use sqlite_disk::Disk;
use std::{fs, io};

/// What a path leads to.
#[derive(Clone, Copy, Debug, PartialEq, Eq)]
pub enum Entry {
    /// Nothing.
    Nothing,
    /// A file of this many bytes.
    File(u64),
    /// Something else: a folder, a pipe, a device, or a link to nothing.
    Other,
}

/// The paths of the files of offices.
///
/// Contracts cover what a path leads to if it is known. A store writes the files of its office: when it is opened and when it is closed,
/// the paths of this office may change, and no others. What it left there is kept apart from what is removed afterwards.
pub trait Folder {
    ghost use Rattle.std.specs.Prelude.{ℕ, List, Option};
    ghost use Rattle.role_cli.specs.Paths.{Paths};

    // What the paths lead to, if it is known.
    ghost paths: { Self → Option Paths };

    // What the paths led to when a store was last opened or closed, or at first, if it is known.
    ghost settled: { Self → Option Paths };

    // The path at which an opening was last tried, if it is known.
    ghost opened_at: { Self → Option (List ℕ) };

    // How often a path could not be made, or a file could not be opened, removed or emptied. The count saturates.
    ghost failed_calls: { Self → ℕ };

    /// What a path leads to.
    fn entry_at(&self, path: &str) -> Entry
        ensures { IfSome (paths self.now) (λ known. result ≡ known.at path.now) };

    /// The path of the file with this ending, beside the file that a path leads to, as `sqlite` opens it.
    ///
    /// # Errors
    ///
    /// - `Memory` if an allocation failed.
    /// - `Store` if the path leads to nothing, or it can't be found out where it leads to.
    fn beside(&mut self, path: &str, ending: &str) -> Result<String, Refusal>
        ensures named { IfOk result (λ name. IfSome (paths self.old) (λ known. string_bytes name ≡ known.beside path.now ending.now)) }
        ensures refusal { IfErr result (λ refusal. (refusal ≡ Refusal.Memory) ⊎ (refusal ≡ Refusal.Store)) }
        ensures failed { OnErr result (HasRisen (failed_calls self.old) (failed_calls self.new)) }
        ensures count { failed_calls self.old ≤ failed_calls self.new }
        ensures same { paths self.new ≡ paths self.old }
        ensures settled { settled self.new ≡ settled self.old }
        ensures at { opened_at self.new ≡ opened_at self.old };

    /// Removes the file at a path, if there is one. If that fails, it stays.
    fn remove(&mut self, path: &str)
        ensures removed { ChangesKnown (λ _. path.now ∷ []) (without path.now) (HasRisen (failed_calls self.old) (failed_calls self.new))
            (paths self.old) (paths self.new) }
        ensures settled { settled self.new ≡ settled self.old }
        ensures at { opened_at self.new ≡ opened_at self.old }
        ensures count { failed_calls self.old ≤ failed_calls self.new };

    /// Empties the file at a path, or creates an empty one. If that fails, the path stays as it is.
    fn make_empty(&mut self, path: &str)
        ensures emptied { ChangesKnown (λ _. path.now ∷ []) (with_empty path.now) (HasRisen (failed_calls self.old) (failed_calls self.new))
            (paths self.old) (paths self.new) }
        ensures settled { settled self.new ≡ settled self.old }
        ensures at { opened_at self.new ≡ opened_at self.old }
        ensures count { failed_calls self.old ≤ failed_calls self.new };

    /// Opens the files of the office at a path, or creates them. `start` represents what they hold. Nothing may have been removed or
    /// emptied since a store was last opened or closed.
    ///
    /// # Errors
    ///
    /// If they were opened, but are no database that can be used, they are handed back, still locked.
    fn open<D: Start>(
        &mut self,
        path: &str,
        start: D,
    ) -> Result<Connection<FileStore<FileFrom<D>>>, Option<Files<FileFrom<D>>>>
        requires kept { settled self.old ≡ paths self.old }
        ensures opened { IfOk result (λ conn. HasCleanDisk (file_state conn) → IsOpened conn) }
        ensures found { IfOk result (λ conn. HasCleanDisk (file_state conn) → FindsIn (image_at D.Start) (file_state conn)) }
        ensures at { IfSome (opened_at self.new) (λ at. at ≡ path.now) }
        ensures count { failed_calls self.new ≡ failures_after (failed_calls self.old) result }
        ensures touched { ChangesOffice path.now (paths self.old) (paths self.new) }
        ensures settled { settled self.new ≡ paths self.new };

    /// Closes the connection of the office at a path: copies the log into the file. Nothing may have been removed or emptied since a
    /// store was last opened or closed.
    ///
    /// # Errors
    ///
    /// If the log could not be copied, the store is handed back, still locked.
    fn close<D: Start>(
        &mut self,
        path: &str,
        conn: Connection<FileStore<FileFrom<D>>>,
    ) -> Result<Files<FileFrom<D>>, FileStore<FileFrom<D>>>
        requires kept { settled self.old ≡ paths self.old }
        ensures copied { IfOk result (λ files. AreClean ⟦<FileFrom<D> as Disk>⟧ files.log files.db → IsCopied conn files) }
        ensures left { IfErr result (λ store. LeavesLog ⟦<FileFrom<D> as Disk>⟧ store conn) }
        ensures at { opened_at self.new ≡ opened_at self.old }
        ensures count { failed_calls self.new ≡ failed_calls self.old }
        ensures touched { ChangesOffice path.now (paths self.old) (paths self.new) }
        ensures settled { settled self.new ≡ paths self.new };
}

/// The folders of a runtime. What their paths lead to isn't known before it is asked.
#[derive(Drop)]
pub struct MachineFolder<'a> {
    rt: &'a HostRuntime,
    failed: u64,
}

impl<'a> MachineFolder<'a> {
    /// The folders of this runtime. No call has failed.
    pub fn new(rt: &'a HostRuntime) -> MachineFolder<'a>
        ensures { result.failed ≡ 0 }
    {
        MachineFolder { rt, failed: 0 }
    }

    // One more call failed.
    fn fail(&mut self)
        ensures { self.new.failed ≡ one_more self.old.failed }
    {
        self.failed = self.failed.saturating_add(1);
    }
}

impl Folder for MachineFolder<'_> {
    ghost use Rattle.std.specs.Prelude.{None};

    ghost paths = { λ _. None };

    ghost settled = { λ _. None };

    ghost opened_at = { λ _. None };

    ghost failed_calls = { λ folder. folder.failed };

    fn entry_at(&self, path: &str) -> Entry {
        match fs::metadata(self.rt, path) {
            Ok(found) if found.is_file() => Entry::File(found.len()),
            Ok(_) => Entry::Other,
            Err(_) if fs::symlink_metadata(self.rt, path).is_ok() => Entry::Other,
            Err(_) => Entry::Nothing,
        }
    }

    fn beside(&mut self, path: &str, ending: &str) -> Result<String, Refusal> {
        match name_beside(self.rt, path, ending) {
            Ok(name) => Ok(name),
            Err(error) => {
                self.fail();
                if error.kind() == io::ErrorKind::OutOfMemory {
                    Err(Refusal::Memory)
                } else {
                    Err(Refusal::Store)
                }
            }
        }
    }

    fn remove(&mut self, path: &str) {
        if let Err(error) = fs::remove_file(self.rt, path) {
            // Where nothing is, nothing has to be removed.
            if error.kind() != io::ErrorKind::NotFound {
                self.fail();
            }
        }
    }

    fn make_empty(&mut self, path: &str) {
        if fs::File::create(self.rt, path).is_err() {
            self.fail();
        }
    }

    fn open<D: Start>(
        &mut self,
        path: &str,
        start: D,
    ) -> Result<Connection<FileStore<FileFrom<D>>>, Option<Files<FileFrom<D>>>> {
        match Connection::open_from(self.rt, path, false, start) {
            Ok(conn) => Ok(conn),
            Err((_, Some(left))) => {
                self.fail();
                Err(Some(left.into_files()))
            }
            Err((_, None)) => {
                self.fail();
                Err(None)
            }
        }
    }

    fn close<D: Start>(
        &mut self,
        _path: &str,
        conn: Connection<FileStore<FileFrom<D>>>,
    ) -> Result<Files<FileFrom<D>>, FileStore<FileFrom<D>>> {
        match conn.close_files() {
            Ok(files) => Ok(files),
            Err((_, store)) => Err(store),
        }
    }
}

// The path of the file with this ending, beside the file that a link leads to.
fn name_beside(rt: &HostRuntime, path: &str, ending: &str) -> io::Result<String> {
    let real = fs::canonicalize(rt, path)?;
    Ok(format!(in rt.alloc(); "{}{ending}", real.as_str())?)
}
