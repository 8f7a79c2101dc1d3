//! The work that the arguments choose.
ghost use Rattle.std.specs.Prelude.{◌≡◌, ◌≢◌, ◌⊎◌, ◌↔◌, ◌≤◌, [], IsTrue, true, false, IfOk, IfErr, Some, None, map, codes, option_map};
ghost use Rattle.clap.specs.Words.{HasMatchesOf, first_of, found_of, one_of, rows_of, subcommand_rows_of, kind_of, subcommand_of, takes, fault_of, HasKind};
ghost use Rattle.role_cli.specs.ArgumentChoice.{Chooses, ChoosesOf, HasBothOrNeither, IsFault, IsFaultBy, IsInMemory, IsValueOf, IsWordOf, ReplaysBothOrNeither};
ghost use Rattle.role_cli.specs.CommandLine.{limit_parser, port_parser, program};
ghost use Rattle.role_cli.specs.private.GivenArguments.{IsEntered, IsGiven, IsOfKind, IsWhole, text_parser};

use crate::command_line::program_command;
use clap::error::ErrorKind;
use clap::{ArgMatches, Error};
use std::alloc::{AllocError, Global};

/// Where the office of a replay is.
#[derive(Drop)]
pub enum Place {
    /// In the file at this path.
    File(String),
    /// In memory; it is a new office.
    Memory,
}

/// What the arguments ask for. The first text is the path of the office's file.
#[derive(Drop)]
pub enum Choice {
    /// Creates an office in the file.
    Init(String),
    /// Answers the lines of standard input.
    Replay(Place),
    /// Answers requests over HTTP: the port, from 1 to 65,535, and the number of connections, from 1 to
    /// 1,000,000.
    Serve(String, u16, u32),
    /// Imports the assignments of the CSV file at the second path.
    Import(String, String),
    /// Writes the assignments as CSV.
    Export(String),
    /// Writes the role report.
    Report(String),
    /// Checks that the file holds a good office.
    Check(String),
    /// Migrates an office of version 1 to version 2.
    Migrate(String),
}

/// Why the arguments choose nothing. None of these is a refusal of an office.
#[derive(Drop)]
pub enum Unchosen {
    /// `replay` has both FILE and `--memory`, or neither.
    Either,
    /// The arguments are no command line of the program, or ask for help or the version. The error has the text.
    Fault(Error),
    /// An allocation failed.
    Memory,
}

/// What the arguments `words` choose. The first of them is the program's name.
///
/// # Errors
///
/// - `Fault`: the arguments are no command line of the program, or ask for help or the version.
/// - `Either`: `replay` has both FILE and `--memory`, or neither.
/// - `Memory`: an allocation failed.
pub fn choose<'a>(alloc: Global, words: &'a [&'a str]) -> Result<Choice, Unchosen>
    ensures ok { IfOk result (Chooses (subcommand_of program (map (λ s. s.now) words.entry.now))) }
    ensures fault { IfErr result (λ e. IsFault e → takes program (map (λ s. s.now) words.entry.now) ≡ false) }
    ensures kind { IfErr result (IsFaultBy (fault_of program (map (λ s. s.now) words.entry.now))) }
    ensures either { IfErr result (λ e. e ≡ Unchosen.Either → ReplaysBothOrNeither (subcommand_of program (map (λ s. s.now) words.entry.now))) }
{
    match matches(alloc, words) {
        Ok(found) => chosen(alloc, &found),
        Err(error) => Err(refused(error)),
    }
}

// The matches of the arguments.
fn matches<'a>(alloc: Global, words: &'a [&'a str]) -> Result<ArgMatches<'a>, Error>
    ensures ok { IfOk result (HasMatchesOf program (map (λ s. s.now) words.entry.now)) }
    ensures none { IfOk result (λ _. fault_of program (map (λ s. s.now) words.entry.now) ≡ []) }
    ensures err { IfErr result (λ e. takes program (map (λ s. s.now) words.entry.now) ≡ true → kind_of e ≡ ErrorKind.OutOfMemory) }
    ensures kind { IfErr result (HasKind (fault_of program (map (λ s. s.now) words.entry.now))) }
{
    let command = program_command(alloc)?;
    command.try_get_matches_from(words)
}

// The text of a required argument.
fn text_of(alloc: Global, matches: &ArgMatches, id: &str) -> Result<String, AllocError>
    requires { IsGiven text_parser id.now (rows_of (found_of matches.now)) }
    ensures { IfOk result (IsValueOf id.now (rows_of (found_of matches.now))) }
{
    let Some(text) = maybe_text_of(matches, id) else {
        unreachable!()
    };
    String::from_str(alloc, text)
}

// The number of `--port`.
fn port_of(matches: &ArgMatches) -> u16
    requires { IsGiven port_parser (codes "port") (rows_of (found_of matches.now)) }
    ensures word { IsWordOf (one_of (codes "port") (rows_of (found_of matches.now))) result }
    ensures range { (1 ≤ result) × (result ≤ 65535) }
{
    let Some(port) = matches.get_one::<u16>("port") else {
        unreachable!()
    };
    port
}

// The number of `--limit`.
fn limit_of(matches: &ArgMatches) -> u32
    requires { IsGiven limit_parser (codes "limit") (rows_of (found_of matches.now)) }
    ensures word { IsWordOf (one_of (codes "limit") (rows_of (found_of matches.now))) result }
    ensures range { (1 ≤ result) × (result ≤ 1000000) }
{
    let Some(limit) = matches.get_one::<u32>("limit") else {
        unreachable!()
    };
    limit
}

// Whether `--memory` is given.
fn is_in_memory(matches: &ArgMatches) -> bool
    ensures { IsTrue result ↔ IsInMemory (rows_of (found_of matches.now)) }
{
    match maybe_text_of(matches, "memory") {
        Some(text) => text == "true",
        None => false,
    }
}

// The first value of an argument.
fn maybe_text_of<'a>(matches: &ArgMatches<'a>, id: &str) -> Option<&'a str>
    ensures { option_map (λ s. s.now) result ≡ first_of id.now (rows_of (found_of matches.now)) }
{
    matches.get_str(id)
}

// What `replay` chooses.
fn replay_choice(alloc: Global, matches: &ArgMatches) -> Result<Choice, Unchosen>
    ensures ok { IfOk result (ChoosesOf (codes "replay") (rows_of (found_of matches.now))) }
    ensures err { IfErr result (λ e. (e ≡ Unchosen.Memory) ⊎ ((e ≡ Unchosen.Either) × HasBothOrNeither (rows_of (found_of matches.now)))) }
{
    let in_memory = is_in_memory(matches);
    match maybe_text_of(matches, "FILE") {
        Some(file) => {
            if in_memory {
                return Err(Unchosen::Either);
            }
            let file = String::from_str(alloc, file).map_err(|_| Unchosen::Memory)?;
            Ok(Choice::Replay(Place::File(file)))
        }
        None => {
            if !in_memory {
                return Err(Unchosen::Either);
            }
            Ok(Choice::Replay(Place::Memory))
        }
    }
}

// What `serve` chooses.
fn serve_choice(alloc: Global, matches: &ArgMatches) -> Result<Choice, AllocError>
    requires { IsWhole (codes "serve") (rows_of (found_of matches.now)) }
    ensures { IfOk result (ChoosesOf (codes "serve") (rows_of (found_of matches.now))) }
{
    let file = text_of(alloc, matches, "FILE")?;
    Ok(Choice::Serve(file, port_of(matches), limit_of(matches)))
}

// What `import` chooses.
fn import_choice(alloc: Global, matches: &ArgMatches) -> Result<Choice, AllocError>
    requires { IsWhole (codes "import") (rows_of (found_of matches.now)) }
    ensures { IfOk result (ChoosesOf (codes "import") (rows_of (found_of matches.now))) }
{
    let file = text_of(alloc, matches, "FILE")?;
    Ok(Choice::Import(file, text_of(alloc, matches, "CSV")?))
}

// What a subcommand with FILE alone chooses.
fn file_choice(alloc: Global, name: &str, matches: &ArgMatches) -> Result<Choice, AllocError>
    requires whole { IsWhole name.now (rows_of (found_of matches.now)) }
    requires others { (name.now ≢ codes "replay") × (name.now ≢ codes "serve") × (name.now ≢ codes "import") }
    ensures { IfOk result (ChoosesOf name.now (rows_of (found_of matches.now))) }
{
    let file = text_of(alloc, matches, "FILE")?;
    Ok(match name {
        "init" => Choice::Init(file),
        "export" => Choice::Export(file),
        "report" => Choice::Report(file),
        "check" => Choice::Check(file),
        "migrate" => Choice::Migrate(file),
        _ => unreachable!(),
    })
}

// The subcommand among the arguments, with its matches.
fn met<'m, 'a>(matches: &'m ArgMatches<'a>) -> Option<(&'a str, &'m ArgMatches<'a>)>
    ensures { option_map (λ p. (p.0.now, rows_of (found_of p.1.now))) result ≡ subcommand_rows_of matches.entry.now }
{
    matches.subcommand()
}

// What the matches choose.
fn chosen(alloc: Global, matches: &ArgMatches) -> Result<Choice, Unchosen>
    requires { IsEntered (subcommand_rows_of matches.now) }
    ensures ok { IfOk result (Chooses (subcommand_rows_of matches.now)) }
    ensures err { IfErr result (λ e. (e ≡ Unchosen.Memory) ⊎ ((e ≡ Unchosen.Either) × ReplaysBothOrNeither (subcommand_rows_of matches.now))) }
{
    let Some((name, inner)) = met(matches) else {
        unreachable!()
    };
    match name {
        "replay" => replay_choice(alloc, inner),
        "serve" => serve_choice(alloc, inner).map_err(|_| Unchosen::Memory),
        "import" => import_choice(alloc, inner).map_err(|_| Unchosen::Memory),
        _ => file_choice(alloc, name, inner).map_err(|_| Unchosen::Memory),
    }
}

// Why arguments with this error choose nothing.
fn refused(error: Error) -> Unchosen
    ensures memory { kind_of error ≡ ErrorKind.OutOfMemory → result ≡ Unchosen.Memory }
    ensures fault { result ≢ Unchosen.Either }
    ensures kind { IsOfKind (kind_of error) result }
{
    if error.kind() == ErrorKind::OutOfMemory {
        Unchosen::Memory
    } else {
        Unchosen::Fault(error)
    }
}
