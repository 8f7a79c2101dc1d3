//! The machine that the program runs on: its CSV files, and the clients of a port.
ghost use Rattle.std.specs.Prelude.{◌≡◌, ◌+◌, ◌==◌, IfErr, IfSome};
ghost use Rattle.role_csv.specs.Assignments.{most_bytes};
ghost use Rattle.sqlite.specs.Held.{state};
ghost use Rattle.rbac_sets.specs.Stream.{HasRisen, one_more};
ghost use Rattle.role_cli.specs.ServedConnections.{CallFails, status_in};
ghost use Rattle.role_cli.specs.private.SomeConnection.{IsServedSomehow};

use crate::host::{Accept, CsvFiles};
use crate::serving::answered;
use rbac_sets::{Fault, Kind, Reader, Writer};
use role_http::{ReadError, read_bytes};
use role_tables::Office;
use role_wire::{Answered, Server};
use sqlite::Alter;
use std::alloc::Global;
use std::fs::File;
use std::io::{BufReader, BufWriter, ErrorKind, Read};
use std::net::{Shutdown, TcpListener, TcpStream};
use std::time::Duration;

/// How many seconds a read or a write of one connection may wait.
const PATIENCE: u64 = 5;

/// How many bytes are discarded by one read, after a reply to a request that was not read whole.
const DISCARDED_AT_ONCE: usize = 8192;

/// The most reads that discard bytes: 4 MiB in all.
const MOST_DISCARDS: u32 = 512;

/// The files and the ports of a runtime.
#[derive(Drop)]
pub struct Machine<'a> {
    rt: &'a HostRuntime,
    listener: Option<TcpListener>,
    port: Option<u16>,
    accepted: u64,
    failed: u64,
    failed_csv: u64,
}

impl<'a> Machine<'a> {
    ghost use Rattle.std.specs.Prelude.{None};
    ghost use Rattle.role_cli.specs.Hosts.{clients_on_machine, known_clients};

    /// The machine of this runtime. It listens on no port.
    pub fn new(rt: &'a HostRuntime) -> Machine<'a>
        ensures clients { clients_on_machine result ≡ known_clients None 0 0 }
        ensures failed { result.failed_csv ≡ 0 }
    {
        Machine {
            rt,
            listener: None,
            port: None,
            accepted: 0,
            failed: 0,
            failed_csv: 0,
        }
    }

    /// The machine of this runtime. It listens already, by this listener, on a port that isn't known.
    pub fn listening(rt: &'a HostRuntime, listener: TcpListener) -> Machine<'a>
        ensures clients { clients_on_machine result ≡ known_clients None 0 0 }
        ensures failed { result.failed_csv ≡ 0 }
    {
        Machine {
            rt,
            listener: Some(listener),
            port: None,
            accepted: 0,
            failed: 0,
            failed_csv: 0,
        }
    }

    // One more call failed.
    fn fail(&mut self) -> Fault
        ensures { CallFails (clients_on_machine self.old) (clients_on_machine self.new) }
    {
        self.failed = self.failed.saturating_add(1);
        Fault
    }
}

impl CsvFiles for Machine<'_> {
    ghost use Rattle.std.specs.Prelude.{None};

    ghost csv_at = { λ _ _. None };

    ghost failed_csv = { λ machine. machine.failed_csv };

    fn read_csv(&mut self, alloc: Global, path: &str) -> Result<Vec<u8>, ReadError> {
        let read = match File::open(self.rt, path) {
            Ok(file) => read_bytes(alloc, &mut Reader::new(file), longest_read()),
            Err(error) if error.kind() == ErrorKind::OutOfMemory => Err(ReadError::Memory),
            Err(_) => Err(ReadError::Fault),
        };
        if matches!(read, Err(ReadError::Fault)) {
            self.failed_csv = self.failed_csv.saturating_add(1);
        }
        read
    }
}

/// One byte more than a text of assignments may have is enough: such a text is refused.
pub(crate) fn longest_read() -> usize
    ensures { result ≡ most_bytes + 1 }
{
    Kind::Byte.limit(2) as usize + 1
}

impl Accept for Machine<'_> {
    ghost use Rattle.role_cli.specs.Hosts.{clients_on_machine};

    ghost clients = { clients_on_machine };

    fn listen(&mut self, port: u16) -> Result<(), Fault> {
        match TcpListener::bind(self.rt, ("127.0.0.1", port)) {
            Ok(listener) => {
                self.listener = Some(listener);
                self.port = Some(port);
                Ok(())
            }
            Err(_) => Err(self.fail()),
        }
    }

    fn serve_next<S: Alter>(
        &mut self,
        alloc: Global,
        server: &Server,
        office: &mut Office<S>,
    ) -> Result<Option<Answered>, Fault> {
        let Some(listener) = &self.listener else {
            return Err(self.fail());
        };
        let Ok((stream, _)) = listener.accept() else {
            return Err(self.fail());
        };
        self.accepted = self.accepted.saturating_add(1);
        Ok(serve_stream(alloc, server, office, &stream))
    }
}

// What was answered on one connection, if anything was.
fn serve_stream<S: Alter>(
    alloc: Global,
    server: &Server,
    office: &mut Office<S>,
    stream: &TcpStream,
) -> Option<Answered>
    ensures served { IsServedSomehow (state S.Store) office.old (status_in result) office.new }
    ensures closes { IfSome result (λ it. it.is_closed ≡ (it.status == 500)) }
{
    let patience = Duration::from_secs(PATIENCE);
    let _ = stream.set_read_timeout(Some(patience));
    let _ = stream.set_write_timeout(Some(patience));
    let answered = answer_stream(alloc, server, office, stream);
    if answered.is_some_and(|answered| !answered.has_read_all) {
        discard_rest(stream);
    }
    answered
}

// The same, but without discarding what the client still sends. The reply is sent in one piece when the sink is
// dropped, whether or not the client receives it. If its buffers can't be allocated, the connection is served byte by
// byte.
fn answer_stream<S: Alter>(
    alloc: Global,
    server: &Server,
    office: &mut Office<S>,
    stream: &TcpStream,
) -> Option<Answered>
    ensures served { IsServedSomehow (state S.Store) office.old (status_in result) office.new }
    ensures closes { IfSome result (λ it. it.is_closed ≡ (it.status == 500)) }
{
    if let (Ok(reader), Ok(writer)) = (
        BufReader::new(alloc, stream),
        BufWriter::new(alloc, stream),
    ) {
        answered(
            alloc,
            server,
            office,
            &mut Reader::new(reader),
            &mut Writer::new(writer),
        )
    } else {
        answered(
            alloc,
            server,
            office,
            &mut Reader::new(stream),
            &mut Writer::new(stream),
        )
    }
}

// Reads and discards what a client still sends, up to a bound. If the connection were closed earlier, it would be
// reset, and the client might lose the reply.
fn discard_rest(mut stream: &TcpStream) {
    if stream.shutdown(Shutdown::Write).is_err() {
        return;
    }
    let mut bytes = [0; DISCARDED_AT_ONCE];
    for _ in 0..MOST_DISCARDS {
        if !matches!(stream.read(&mut bytes), Ok(1..)) {
            return;
        }
    }
}
