//! A host in memory, all of which is known: one CSV file, and clients whose bytes are there from the beginning.
ghost use Rattle.std.specs.Prelude.{◌≡◌};
ghost use Rattle.role_cli.specs.ServedConnections.{CallFails};

use crate::host::{Accept, CsvFiles};
use crate::machine::longest_read;
use crate::serving::answered;
use rbac_sets::{Fault, MemorySink, MemorySource};
use role_http::{ReadError, read_bytes};
use role_tables::Office;
use role_wire::{Answered, Server};
use sqlite::Alter;
use std::alloc::Global;
use std::collections::VecDeque;

/// One CSV file, and clients each of which sends the bytes of a source on its connection. What they are sent is kept.
#[derive(Drop)]
pub struct MemoryHost<'a> {
    path: &'a str,
    text: &'a [u8],
    failed_csv: u64,
    waiting: VecDeque<MemorySource<'a>>,
    replies: Vec<MemorySink>,
    port: Option<u16>,
    accepted: u64,
    failed: u64,
}

impl<'a> MemoryHost<'a> {
    ghost use Rattle.std.specs.Prelude.{[], None, Some, map};
    ghost use Rattle.rbac_sets.specs.Stream.{left_in_memory};
    ghost use Rattle.role_cli.specs.Hosts.{clients_in_memory, csv_in_memory, sent_in_memory, text_at};

    /// A CSV file at a path, with this text, and clients that send what these sources have, from the first to the
    /// last, and were sent nothing so far. It listens on no port.
    pub fn new(
        alloc: Global,
        path: &'a str,
        text: &'a [u8],
        waiting: VecDeque<MemorySource<'a>>,
    ) -> MemoryHost<'a>
        ensures csv { csv_in_memory result ≡ text_at path.now text.now }
        ensures clients { clients_in_memory result ≡ record {
          listening = None;
          accepted = 0;
          failed = 0;
          waiting = Some
              (map left_in_memory waiting.entry.items);
          replies = Some [];
        } }
    {
        MemoryHost {
            path,
            text,
            failed_csv: 0,
            waiting,
            replies: Vec::new(alloc),
            port: None,
            accepted: 0,
            failed: 0,
        }
    }

    /// What the clients were sent, from the first to the last.
    pub fn replies(&self) -> &[MemorySink]
        ensures { (clients_in_memory self.now).replies ≡ Some (map sent_in_memory result.now) }
    {
        &self.replies
    }

    // One more call failed.
    fn fail(&mut self) -> Fault
        ensures { CallFails (clients_in_memory self.old) (clients_in_memory self.new) }
    {
        self.failed = self.failed.saturating_add(1);
        Fault
    }
}

impl CsvFiles for MemoryHost<'_> {
    ghost use Rattle.role_cli.specs.Hosts.{csv_in_memory};

    ghost csv_at = { csv_in_memory };

    ghost failed_csv = { λ host. host.failed_csv };

    fn read_csv(&mut self, alloc: Global, path: &str) -> Result<Vec<u8>, ReadError> {
        if path != self.path {
            self.failed_csv = self.failed_csv.saturating_add(1);
            return Err(ReadError::Fault);
        }
        read_bytes(alloc, &mut MemorySource::new(self.text), longest_read())
    }
}

impl Accept for MemoryHost<'_> {
    ghost use Rattle.role_cli.specs.Hosts.{clients_in_memory};

    ghost clients = { clients_in_memory };

    fn listen(&mut self, port: u16) -> Result<(), Fault> {
        self.port = Some(port);
        Ok(())
    }

    fn serve_next<S: Alter>(
        &mut self,
        alloc: Global,
        server: &Server,
        office: &mut Office<S>,
    ) -> Result<Option<Answered>, Fault> {
        if self.replies.reserve(1).is_err() {
            return Err(self.fail());
        }
        let Some(mut source) = self.waiting.pop_front() else {
            return Err(self.fail());
        };
        let mut sink = MemorySink::new(alloc);
        let reply = answered(alloc, server, office, &mut source, &mut sink);
        if self.replies.push(sink).is_err() {
            unreachable!()
        }
        self.accepted = self.accepted.saturating_add(1);
        Ok(reply)
    }
}
