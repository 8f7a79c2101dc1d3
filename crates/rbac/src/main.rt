//! The program `rbac`: passes its arguments and the standard streams to `role_cli::run`.
#![tactic(auto)]

use rbac_sets::{Reader, Writer, write_all};
use std::env;
use std::io::{self, ErrorKind};
use std::process::ExitCode;

fn main(rt: HostRuntime) -> ExitCode {
    match run(&rt) {
        Ok(status) => ExitCode::from(status),
        Err(error) if error.kind() == ErrorKind::OutOfMemory => {
            report(&rt, b"rbac: {\"code\":40,\"error\":\"Memory\"}\n");
            ExitCode::from(1)
        }
        Err(_) => {
            report(&rt, b"rbac: an argument is not UTF-8\n");
            ExitCode::from(2)
        }
    }
}

// Does what the arguments ask for, and returns the exit status.
fn run(rt: &HostRuntime) -> io::Result<u8> {
    let mut arguments = Vec::new(rt.alloc());
    for argument in env::args(rt)? {
        arguments.push(argument)?;
    }
    let mut texts = Vec::new(rt.alloc());
    for argument in &arguments {
        texts.push(argument.as_str())?;
    }
    let mut source = Reader::new(rt.stdin());
    let mut out = Writer::new(rt.stdout());
    let mut err = Writer::new(rt.stderr());
    Ok(role_cli::run(rt, &texts, &mut source, &mut out, &mut err))
}

// Writes a line to standard error. If that fails, nothing else changes.
fn report(rt: &HostRuntime, line: &[u8]) {
    let _ = write_all(&mut Writer::new(rt.stderr()), line);
}
