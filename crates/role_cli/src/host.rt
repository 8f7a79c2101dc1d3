//! What the work of a subcommand meets beside its office and the standard streams: the CSV file of an import, and the
//! clients of a server.
ghost use Rattle.std.specs.Prelude.{◌≡◌, ◌==◌, ℕ, IfErr, IfOk, IfSome, OnErr, OnOk};
ghost use Rattle.sqlite.specs.Held.{state};
ghost use Rattle.rbac_sets.specs.Stream.{HasRisen};
ghost use Rattle.role_cli.specs.Environment.{IsReadOf};
ghost use Rattle.role_cli.specs.ServedConnections.{CallFails, IsNextServed, Listens, status_in};

use rbac_sets::Fault;
use role_http::ReadError;
use role_tables::Office;
use role_wire::{Answered, Server};
use sqlite::Alter;
use std::alloc::Global;

/// CSV files.
///
/// Contracts cover the text of a file if it is known, as in memory. Of a file on a disk they state nothing.
pub trait CsvFiles {
    ghost use Rattle.role_cli.specs.Environment.{CsvTexts};

    // The text of the file at each path, if it is known.
    ghost csv_at: { Self → CsvTexts };

    // How often a file could not be opened or read. The count saturates.
    ghost failed_csv: { Self → ℕ };

    /// Reads the file at a path, but no more than one byte above the longest text that an import accepts.
    ///
    /// # Errors
    ///
    /// - `Fault` if the file could not be opened or read.
    /// - `Memory` if an allocation failed.
    fn read_csv(&mut self, alloc: Global, path: &str) -> Result<Vec<u8>, ReadError>
        ensures text { IfOk result (λ bytes. IsReadOf (csv_at self.old path.now) bytes.items) }
        ensures fault { IfErr result (λ why. why ≡ ReadError.Fault → HasRisen (failed_csv self.old) (failed_csv self.new)) };
}

/// Connections, each of which is accepted and served.
///
/// Contracts cover what clients send and are sent if it is known. Of the clients of a socket they state only
/// how many there were, on which port, and how often listening or accepting failed.
pub trait Accept {
    ghost use Rattle.role_cli.specs.ServedConnections.{Clients};

    // What is known of the clients.
    ghost clients: { Self → Clients };

    /// Listens on a port of 127.0.0.1.
    ///
    /// # Errors
    ///
    /// `Fault` if it can't listen there.
    fn listen(&mut self, port: u16) -> Result<(), Fault>
        ensures listens { OnOk result (Listens port (clients self.old) (clients self.new)) }
        ensures refused { OnErr result (CallFails (clients self.old) (clients self.new)) };

    /// Accepts the next connection, serves the one request in it by `server`, and returns what was answered.
    /// That is nothing if the request stopped.
    ///
    /// # Errors
    ///
    /// `Fault` if no connection could be accepted. Nothing else was done.
    fn serve_next<S: Alter>(
        &mut self,
        alloc: Global,
        server: &Server,
        office: &mut Office<S>,
    ) -> Result<Option<Answered>, Fault>
        ensures served { IfOk result
            (λ answered. IsNextServed (state S.Store) (clients self.old) (clients self.new) office.old (status_in answered) office.new) }
        ensures closes { IfOk result (λ answered. IfSome answered (λ it. it.is_closed ≡ (it.status == 500))) }
        ensures refused { OnErr result (CallFails (clients self.old) (clients self.new) × (office.new ≡ office.old)) };
}
