//! Lines and a request, none of them an import: after a failed allocation what was answered is done, and nothing more.
use rbac_sets::{MemorySink, MemorySource};
use role_tables::{Office, create};
use role_wire::{Cause, Served, Stop, replay, serve_one};
use sqlite::{Connection, MemStore};
use std::alloc::Global;

const LINES: &str = r#"{"fn":"addUser","user":"ann"}
{"fn":"addRole","role":"clerk"}
{"fn":"assignUser","role":"clerk","user":"ann"}
{"fn":"assignedUsers","role":"clerk"}
"#;

// What is written for none of the lines, for the first, for the first two, and so on.
const WRITTEN: [&str; 5] = [
    "",
    "{\"ok\":true}\n",
    "{\"ok\":true}\n{\"ok\":true}\n",
    "{\"ok\":true}\n{\"ok\":true}\n{\"ok\":true}\n",
    "{\"ok\":true}\n{\"ok\":true}\n{\"ok\":true}\n{\"ok\":true,\"value\":[\"ann\"]}\n",
];

const REQUEST: &str = "POST /v1/addUser HTTP/1.1\r\nContent-Length: 14\r\n\r\n{\"user\":\"ann\"}";

const DONE: &str = "HTTP/1.1 200 OK\r\nContent-Type: application/json\r\nContent-Length: 11\r\n\
    Connection: close\r\n\r\n{\"ok\":true}";

const NO_MEMORY: &str = "HTTP/1.1 503 Service Unavailable\r\nContent-Type: application/json\r\n\
    Content-Length: 28\r\nConnection: close\r\n\r\n{\"code\":40,\"error\":\"Memory\"}";

const STORE: &str = "HTTP/1.1 500 Internal Server Error\r\nContent-Type: application/json\r\n\
    Content-Length: 27\r\nConnection: close\r\n\r\n{\"code\":41,\"error\":\"Store\"}";

// An empty office in memory.
fn empty_office(alloc: Global) -> Option<Office<MemStore>> {
    let conn = Connection::open_in_memory(alloc).ok()?;
    create(alloc, conn).ok()
}

// Whether the office is open, and has done the first `count` lines.
fn has_done(office: &Office<MemStore>, count: usize) -> bool {
    match office.state() {
        Ok(state) => {
            state.users().len() == usize::from(count >= 1)
                && state.roles().len() == usize::from(count >= 2)
                && state.assignments().len() == usize::from(count >= 3)
        }
        Err(_) => false,
    }
}

// Whether exactly the answers to the first `count` lines were written.
fn has_written(sink: &MemorySink, count: usize) -> bool {
    match WRITTEN.get(count) {
        Some(text) => sink.as_slice() == text.as_bytes(),
        None => false,
    }
}

// Whether a stop after `count` answers leaves the office as its cause says.
fn is_left(office: &Office<MemStore>, cause: Cause, count: usize) -> bool {
    let next = count.saturating_add(1);
    match cause {
        Cause::Memory => has_done(office, count),
        Cause::Write => has_done(office, next),
        Cause::Store => office.is_closed(),
        _ => false,
    }
}

// Whether all lines are answered, or those before a stop that leaves the office as it should.
fn are_answered(alloc: Global, office: &mut Office<MemStore>) -> bool {
    let mut source = MemorySource::new(LINES.as_bytes());
    let mut sink = MemorySink::new(alloc);
    match replay(alloc, office, &mut source, &mut sink) {
        Ok(count) => count.answered == 4 && has_written(&sink, 4) && has_done(office, 3),
        Err(Stop { cause, answered }) => {
            has_written(&sink, answered as usize) && is_left(office, cause, answered as usize)
        }
    }
}

// Whether the reply says that the command is done and it is, or that memory or the store failed and the office is
// left accordingly. Without a reply, a write failed.
fn is_replied(alloc: Global, office: &mut Office<MemStore>) -> bool {
    let mut source = MemorySource::new(REQUEST.as_bytes());
    let mut sink = MemorySink::new(alloc);
    match serve_one(alloc, office, &mut source, &mut sink) {
        Ok(Served { status: 200 }) => { has_done(office, 1) && sink.as_slice() == DONE.as_bytes() }
        Ok(Served { status: 503 }) => {
            has_done(office, 0) && sink.as_slice() == NO_MEMORY.as_bytes()
        }
        Ok(Served { status: 500 }) => office.is_closed() && sink.as_slice() == STORE.as_bytes(),
        Err(Stop { cause, .. }) => matches!(cause, Cause::Write),
        Ok(_) => false,
    }
}

// The lines on an office, if one can be created.
fn lines_stop_well(alloc: Global) -> bool {
    match empty_office(alloc) {
        Some(mut office) => {
            let are_answered = are_answered(alloc, &mut office);
            drop(office);
            are_answered
        }
        None => true,
    }
}

// The request on an office, if one can be created.
fn requests_stop_well(alloc: Global) -> bool {
    match empty_office(alloc) {
        Some(mut office) => {
            let is_replied = is_replied(alloc, &mut office);
            drop(office);
            is_replied
        }
        None => true,
    }
}

#[test]
fn refused_memory_stops_a_replay(rt: HostRuntime) {
    assert!(&rt; lines_stop_well(rt.alloc()));
}

#[test]
fn failed_allocations_are_answered_or_stop_a_request(rt: HostRuntime) {
    assert!(&rt; requests_stop_well(rt.alloc()));
}
