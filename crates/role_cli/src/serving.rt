//! A server: one connection after another.
ghost use Rattle.std.specs.Prelude.{◌≡◌, ◌==◌, ◌⊎◌, IfErr, IfOk, IfSome, OnOk, string_bytes};
ghost use Rattle.std.specs.Io.KnownBytes.{Appends};
ghost use Rattle.sqlite.specs.Held.{state};
ghost use Rattle.rbac_sets.specs.Stream.{HasRisen};
ghost use Rattle.role_cli.specs.Environment.{HasFailed};
ghost use Rattle.role_cli.specs.ServedConnections.{AllServed, EndsBy, IsServedOver, ServesConnections, is_closing, status_in};
ghost use Rattle.role_cli.specs.ErrorOutput.{IsLineOf, SaysSome};
ghost use Rattle.role_cli.specs.Work.{FailsToServe, ServesAll, WritesPart, listening_line};
ghost use Rattle.role_cli.specs.declared.failure.Failure.{Failure};
ghost use Rattle.role_cli.specs.private.SomeConnection.{IsServedSomehow};

use crate::failure::Failure;
use crate::host::Accept;
use crate::work::say;
use rbac_sets::{Refusal, Sink, Source};
use role_tables::Office;
use role_wire::{Answered, Server};
use sqlite::Alter;
use std::alloc::{AllocError, Global};

/// Accepts `limit` connections of the host, one after the other, serves each by `serve_one` of `role_wire`,
/// and returns the exit status. `limit` may be any number. A connection whose request or reply fails counts
/// as served. On a `Machine` a read or a write of a connection waits at most five seconds.
///
/// The status is 0 if all connections were served. Otherwise it is 1, and one line in `err` says why: an
/// answer had the status 500, after which the office is closed; a connection could not be accepted; or,
/// before the first one, the server could not be allocated. If writing to `err` fails, nothing else changes.
pub fn serve_on<S: Alter, A: Accept, E: Sink>(
    alloc: Global,
    office: &mut Office<S>,
    host: &mut A,
    limit: u32,
    err: &mut E,
) -> u8
    ensures status { (result ≡ 0) ⊎ (result ≡ 1) }
    ensures done { result ≡ 0 → ServesConnections (state S.Store) (AllServed limit) (A.clients host.old)
        (A.clients host.new) office.old office.new × (err.new ≡ err.old) }
    ensures failed { result ≡ 1 → (failure : Failure)
        × ServesConnections (state S.Store) (EndsBy limit failure) (A.clients host.old) (A.clients host.new) office.old office.new
        × SaysSome (IsLineOf failure) (E.written err.old) (E.written err.new)
        (HasFailed (E.failed err.old) (E.failed err.new) (E.idle err.old) (E.idle err.new)) }
{
    match serve_all(alloc, office, host, limit) {
        Ok(()) => 0,
        Err(failure) => {
            failure.report(alloc, err);
            1
        }
    }
}

/// Listens on a port of 127.0.0.1, writes the line that says so to `out`, and serves as `serve_on` does.
///
/// # Errors
///
/// - `NotListening`: it can't listen on the port. Nothing was written or served.
/// - `Refused` with `Memory`: the line could not be allocated, and nothing was written or served; or the
///   server could not be allocated, and the line was written.
/// - `Refused` with `Store`: writing the line failed. Nothing was served.
/// - `NotAccepting`: a connection could not be accepted.
/// - `Closed`: an answer had the status 500.
pub(crate) fn serve<S: Alter, A: Accept, W: Sink>(
    alloc: Global,
    office: &mut Office<S>,
    port: u16,
    limit: u32,
    host: &mut A,
    out: &mut W,
) -> Result<(), Failure>
    ensures done { OnOk result
        (ServesAll (state S.Store) port limit (A.clients host.old) (A.clients host.new) office.old (W.written out.old)
        (W.written out.new) office.new) }
    ensures failed { IfErr result (λ failure. FailsToServe (state S.Store) port limit (A.clients host.old) (A.clients host.new) office.old failure
        (HasFailed (W.failed out.old) (W.failed out.new) (W.idle out.old) (W.idle out.new)) (W.written out.old) (W.written out.new) office.new) }
{
    if host.listen(port).is_err() {
        return Err(Failure::NotListening);
    }
    say_port(alloc, out, port)?;
    serve_all(alloc, office, host, limit)
}

// Writes the line that says where the server listens.
fn say_port<W: Sink>(alloc: Global, out: &mut W, port: u16) -> Result<(), Failure>
    ensures ok { OnOk result (Appends (W.written out.old) (W.written out.new) (listening_line port)) }
    ensures part { IfErr result (λ failure. ((failure ≡ Failure.Refused Refusal.Memory) × (out.new ≡ out.old))
        ⊎ ((failure ≡ Failure.Refused Refusal.Store) × HasFailed (W.failed out.old) (W.failed out.new) (W.idle out.old) (W.idle out.new)
        × WritesPart (listening_line port) (W.written out.old) (W.written out.new))) }
{
    match port_line(alloc, port) {
        Ok(line) => say(out, line.as_bytes()),
        Err(_) => Err(Failure::Refused(Refusal::Memory)),
    }
}

// The line that says where the server listens.
fn port_line(alloc: Global, port: u16) -> Result<String, AllocError>
    ensures { IfOk result (λ line. string_bytes line ≡ listening_line port) }
{
    format!(in alloc; "listening on 127.0.0.1:{port}\n")
}

// Serves the connections.
fn serve_all<S: Alter, A: Accept>(
    alloc: Global,
    office: &mut Office<S>,
    host: &mut A,
    limit: u32,
) -> Result<(), Failure>
    ensures all { OnOk result (ServesConnections (state S.Store) (AllServed limit) (A.clients host.old) (A.clients host.new) office.old office.new) }
    ensures ended { IfErr result
        (λ failure. ServesConnections (state S.Store) (EndsBy limit failure) (A.clients host.old) (A.clients host.new) office.old office.new) }
{
    let server = match Server::new(alloc) {
        Ok(server) => server,
        Err(refusal) => return Err(Failure::Refused(refusal)),
    };
    for _ in 0..limit {
        let Ok(answered) = host.serve_next(alloc, &server, office) else {
            return Err(Failure::NotAccepting);
        };
        if closes_office(answered) {
            return Err(Failure::Closed);
        }
    }
    Ok(())
}

// Whether this answer is the last of an office.
fn closes_office(answered: Option<Answered>) -> bool
    requires { IfSome answered (λ it. it.is_closed ≡ (it.status == 500)) }
    ensures { result ≡ is_closing (status_in answered) }
{
    match answered {
        Some(answered) => answered.is_closed,
        None => false,
    }
}

/// Serves the one request of a connection, and returns what was answered, if anything was.
pub(crate) fn answered<S: Alter, R: Source, W: Sink>(
    alloc: Global,
    server: &Server,
    office: &mut Office<S>,
    source: &mut R,
    sink: &mut W,
) -> Option<Answered>
    ensures over { IsServedOver (state S.Store) (HasRisen (R.failed source.old) (R.failed source.new))
        (HasFailed (W.failed sink.old) (W.failed sink.new) (W.idle sink.old) (W.idle sink.new))
        (R.remaining source.old) (R.remaining source.new) (W.written sink.old) (W.written sink.new) office.old (status_in result) office.new }
    ensures somehow { IsServedSomehow (state S.Store) office.old (status_in result) office.new }
    ensures closes { IfSome result (λ it. it.is_closed ≡ (it.status == 500)) }
{
    match server.serve(alloc, office, source, sink) {
        Ok(answered) => Some(answered),
        Err(_) => None,
    }
}
