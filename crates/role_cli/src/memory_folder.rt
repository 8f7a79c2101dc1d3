//! A folder in memory, of which all is known: one file at most, which no store can use.
ghost use Rattle.std.specs.Prelude.{◌≡◌, ◌≢◌, ◌++◌, true, false, IfOk, string_bytes};
ghost use Rattle.rbac_sets.specs.Stream.{one_more};
ghost use Rattle.role_cli.specs.Hosts.{holds_only};

use crate::folder::{Entry, Folder};
use rbac_sets::Refusal;
use sqlite::{Connection, FileFrom, FileStore, Files, Start};
use std::alloc::{AllocError, Global};

/// A folder in which one path may lead to something, and any other leads to nothing. An opening there creates an empty file if
/// nothing is there, and fails, as one does on a disk that is full.
#[derive(Drop)]
pub struct MemoryFolder<'a> {
    alloc: Global,
    path: &'a str,
    entry: Entry,
    // What was there after the last opening, or at first.
    settled: Entry,
    is_opened: bool,
    failed: u64,
}

impl<'a> MemoryFolder<'a> {
    ghost use Rattle.role_cli.specs.Hosts.{paths_in_memory, settled_in_memory};

    /// A folder in which a path leads to this. Nothing was opened, and no call has failed.
    pub fn new(alloc: Global, path: &'a str, entry: Entry) -> MemoryFolder<'a>
        ensures paths { paths_in_memory result ≡ holds_only path.now entry }
        ensures settled { settled_in_memory result ≡ holds_only path.now entry }
        ensures failed { result.failed ≡ 0 }
    {
        MemoryFolder {
            alloc,
            path,
            entry,
            settled: entry,
            is_opened: false,
            failed: 0,
        }
    }

    // One more call failed.
    fn fail(&mut self)
        ensures { self.new ≡ record self.old { failed = one_more self.old.failed } }
    {
        self.failed = self.failed.saturating_add(1);
    }
}

impl Folder for MemoryFolder<'_> {
    ghost use Rattle.std.specs.Prelude.{None, Some, if◌then◌else◌};
    ghost use Rattle.role_cli.specs.Hosts.{paths_in_memory, settled_in_memory};

    ghost paths = { λ folder. Some (paths_in_memory folder) };

    ghost settled = { λ folder. Some (settled_in_memory folder) };

    ghost opened_at = { λ folder. if folder.is_opened then Some folder.path.now else None };

    ghost failed_calls = { λ folder. folder.failed };

    fn entry_at(&self, path: &str) -> Entry {
        if path == self.path {
            self.entry
        } else {
            Entry::Nothing
        }
    }

    fn beside(&mut self, path: &str, ending: &str) -> Result<String, Refusal> {
        match joined(self.alloc, path, ending) {
            Ok(name) => Ok(name),
            Err(_) => {
                self.fail();
                Err(Refusal::Memory)
            }
        }
    }

    fn remove(&mut self, path: &str) {
        if path == self.path {
            self.entry = Entry::Nothing;
        }
    }

    fn make_empty(&mut self, path: &str) {
        if path == self.path {
            self.entry = Entry::File(0);
        } else {
            self.fail();
        }
    }

    fn open<D: Start>(
        &mut self,
        path: &str,
        start: D,
    ) -> Result<Connection<FileStore<FileFrom<D>>>, Option<Files<FileFrom<D>>>> {
        drop(start);
        self.fail();
        self.is_opened = path == self.path;
        self.entry = entry_after(self.entry, self.is_opened);
        self.settled = self.entry;
        Err(None)
    }

    fn close<D: Start>(
        &mut self,
        _path: &str,
        conn: Connection<FileStore<FileFrom<D>>>,
    ) -> Result<Files<FileFrom<D>>, FileStore<FileFrom<D>>> {
        match conn.close_files() {
            Ok(files) => Ok(files),
            Err((_, store)) => Err(store),
        }
    }
}

// What is at the path of a folder after an opening, if it was an opening there.
fn entry_after(entry: Entry, is_there: bool) -> Entry
    ensures elsewhere { is_there ≡ false → result ≡ entry }
    ensures there { is_there ≡ true → result ≢ Entry.Nothing }
{
    if is_there && entry == Entry::Nothing {
        Entry::File(0)
    } else {
        entry
    }
}

// A path with this ending.
fn joined(alloc: Global, path: &str, ending: &str) -> Result<String, AllocError>
    ensures { IfOk result (λ name. string_bytes name ≡ path.now ++ ending.now) }
{
    let mut name = String::from_str(alloc, path)?;
    name.push_str(ending)?;
    Ok(name)
}
