//! The program's command line, as `clap` reads it.
ghost use Rattle.std.specs.Prelude.{◌≡◌, false, IfOk};
ghost use Rattle.clap.specs.Words.{app_of, rule_of};
ghost use Rattle.clap.specs.declared.builder.command.Command.TheViews.{out-Command};
ghost use Rattle.role_cli.specs.CommandLine.{bare_program, csv, file, import_of, in_memory, limit, maybe_file, of_file, port, program, replay, serve};
ghost use Rattle.role_cli.specs.private.FirstSubcommands.{first_six, first_three};

use clap::{Arg, ArgAction, Command, value_parser};
use std::alloc::{AllocError, Global};

/// The version that `--version` prints.
const VERSION: &str = "1.0.0";

/// What the program is for, at the top of its help.
const ABOUT: &str =
    "Keeps users, roles, permissions and sessions in one file, and answers access questions";

/// The end of the program's help.
const EXAMPLES: &str = "\
Examples:
  rbac replay --memory < requests.jsonl
  rbac init office.db
  rbac serve office.db --port 8080 --limit 1000000
  rbac check office.db

Each request is one line of JSON, or one POST to /v1/FUNCTION. A refusal has a code and a name.";

// The path of an office, which is required.
fn file_arg<'a>(alloc: Global) -> Arg<'a>
    ensures rule { rule_of result ≡ file }
    ensures own { result.global ≡ false }
{
    Arg::new(alloc, "FILE")
        .required(true)
        .action(ArgAction::Set)
        .help("The file of the office")
}

// The path of an office, which is optional.
fn maybe_file_arg<'a>(alloc: Global) -> Arg<'a>
    ensures rule { rule_of result ≡ maybe_file }
    ensures own { result.global ≡ false }
{
    Arg::new(alloc, "FILE")
        .action(ArgAction::Set)
        .help("The file of the office, unless --memory is given")
}

// The path of a CSV file, which is required.
fn csv_arg<'a>(alloc: Global) -> Arg<'a>
    ensures rule { rule_of result ≡ csv }
    ensures own { result.global ≡ false }
{
    Arg::new(alloc, "CSV")
        .required(true)
        .action(ArgAction::Set)
        .help("The CSV file, with the columns user and role")
}

// The flag for an office in memory.
fn memory_arg<'a>(alloc: Global) -> Arg<'a>
    ensures rule { rule_of result ≡ in_memory }
    ensures own { result.global ≡ false }
{
    Arg::new(alloc, "memory")
        .long("memory")
        .action(ArgAction::SetTrue)
        .help("Use a new office in memory, which is lost at the end")
}

// The port, from 1 to 65,535.
fn port_arg<'a>(alloc: Global) -> Arg<'a>
    ensures rule { rule_of result ≡ port }
    ensures own { result.global ≡ false }
{
    Arg::new(alloc, "port")
        .long("port")
        .required(true)
        .action(ArgAction::Set)
        .value_parser(value_parser!(u16).range(1..))
        .help("The port of 127.0.0.1 to listen on, from 1 to 65535")
}

// The number of connections, from 1 to 1,000,000.
fn limit_arg<'a>(alloc: Global) -> Arg<'a>
    ensures rule { rule_of result ≡ limit }
    ensures own { result.global ≡ false }
{
    Arg::new(alloc, "limit")
        .long("limit")
        .required(true)
        .action(ArgAction::Set)
        .value_parser(value_parser!(u32).range(1..=1_000_000))
        .help("End after this many connections, from 1 to 1000000")
}

// A subcommand with FILE alone, and what its help says of it.
fn file_command<'a>(
    alloc: Global,
    name: &'static str,
    about: &'static str,
) -> Result<Command<'a>, AllocError>
    ensures app { IfOk result (λ c. app_of c ≡ of_file name.now) }
    ensures own { IfOk result (λ c. (out-Command c).has_globals ≡ false) }
{
    Command::new(alloc, name).about(about).arg(file_arg(alloc))
}

// `replay`, with FILE or `--memory`. That exactly one of them is given is checked later.
fn replay_command<'a>(alloc: Global) -> Result<Command<'a>, AllocError>
    ensures app { IfOk result (λ c. app_of c ≡ replay) }
    ensures own { IfOk result (λ c. (out-Command c).has_globals ≡ false) }
{
    Command::new(alloc, "replay")
        .about("Answer the request lines of standard input")
        .arg(maybe_file_arg(alloc))?
        .arg(memory_arg(alloc))
}

// `serve`, with FILE, `--port` and `--limit`.
fn serve_command<'a>(alloc: Global) -> Result<Command<'a>, AllocError>
    ensures app { IfOk result (λ c. app_of c ≡ serve) }
    ensures own { IfOk result (λ c. (out-Command c).has_globals ≡ false) }
{
    Command::new(alloc, "serve")
        .about("Answer requests over HTTP on 127.0.0.1")
        .arg(file_arg(alloc))?
        .arg(port_arg(alloc))?
        .arg(limit_arg(alloc))
}

// `import`, with FILE and CSV.
fn import_command<'a>(alloc: Global) -> Result<Command<'a>, AllocError>
    ensures app { IfOk result (λ c. app_of c ≡ import_of) }
    ensures own { IfOk result (λ c. (out-Command c).has_globals ≡ false) }
{
    Command::new(alloc, "import")
        .about("Assign users to roles, as a CSV file lists them")
        .arg(file_arg(alloc))?
        .arg(csv_arg(alloc))
}

// The program without subcommands, one of which is required.
fn bare_program<'a>(alloc: Global) -> Command<'a>
    ensures { app_of result ≡ bare_program }
{
    Command::new(alloc, "rbac")
        .version(VERSION)
        .about(ABOUT)
        .after_help(EXAMPLES)
        .subcommand_required(true)
}

// The program with its first three subcommands.
fn first_three<'a>(alloc: Global) -> Result<Command<'a>, AllocError>
    ensures { IfOk result (λ c. app_of c ≡ first_three) }
{
    bare_program(alloc)
        .subcommand(file_command(alloc, "init", "Create an empty office")?)?
        .subcommand(replay_command(alloc)?)?
        .subcommand(serve_command(alloc)?)
}

// The program with its first six subcommands.
fn first_six<'a>(alloc: Global) -> Result<Command<'a>, AllocError>
    ensures { IfOk result (λ c. app_of c ≡ first_six) }
{
    let about_report = "Write how many users and permissions each role has";
    first_three(alloc)?
        .subcommand(import_command(alloc)?)?
        .subcommand(file_command(alloc, "export", "Write the assignments as CSV")?)?
        .subcommand(file_command(alloc, "report", about_report)?)
}

/// The program with all its subcommands, one of which is required.
pub(crate) fn program_command<'a>(alloc: Global) -> Result<Command<'a>, AllocError>
    ensures { IfOk result (λ c. app_of c ≡ program) }
{
    let about_check = "Check that the file holds a good office";
    let about_migrate = "Migrate an office of version 1 to version 2";
    first_six(alloc)?
        .subcommand(file_command(alloc, "check", about_check)?)?
        .subcommand(file_command(alloc, "migrate", about_migrate)?)
}
