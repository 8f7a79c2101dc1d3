//! Requests, and how they are read from a line of JSON or from a body.
ghost use Rattle.std.specs.Prelude.{◌≡◌, ◌⊎◌, Ok, Err, IfOk, IfErr};
ghost use Rattle.serde_json.specs.View.{view};
ghost use Rattle.role_json.specs.Request.{body_request, body_to, json_of, request};
ghost use Rattle.role_json.specs.RequestContent.{requested};

use crate::calls::request_to;
use crate::fields::text_at;
use rbac_sets::{Command, Refusal};
use review_mgr::Query;
use role_csv::read_assignments;
use role_functions::{Function, LONGEST_LINE};
use serde_json::Value;
use std::alloc::Global;

/// What a request asks for.
#[derive(Drop)]
pub enum Request {
    /// A command, to be done.
    Change(Command),
    /// A question, to be answered.
    Ask(Query),
}

/// Reads the request on a line. `line` may be any bytes; its line end is not part of it.
///
/// A request is a JSON object of at most 65,536 bytes. It has the function's name at the key `fn`
/// and each argument at a key with the name of the field of `Command` or `Query`: a text at `user`,
/// `role`, `object`, `operation`, `session`, `set`, `asc` and `desc`, a list of texts at `roles`,
/// and at `cardinality` a whole number from 0 to 4,294,967,295, written with digits only. For
/// `importAssignments` the key is `csv`, and its text is what `role_csv::read_assignments` reads.
/// The keys may be in any order and other keys are ignored. If a key occurs more than once, the last
/// occurrence counts. A name that occurs more than once in `roles` counts once.
///
/// # Errors
///
/// These are judged one after another:
///
/// - `BadRequest` if the line is longer, is not a JSON text (or its lists and objects nest more than
///   127 deep), is not an object or has no text at `fn`;
/// - `UnknownFunction` if no function has the name at `fn`;
/// - `BadRequest` if the key of an argument is missing or has a value that it may not have;
/// - `BadName` if a text that names something is not a valid name;
/// - the refusals of `read_assignments`: `TooMany` with `Kind::Byte` or `Kind::Record`, `BadCsv`,
///   `BadName`.
///
/// `Memory` if allocation failed before the line was judged; the same line may be read again.
#[tactic(auto, unfolding(crate::specs::Request::request))]
pub fn read_request(alloc: Global, line: &[u8]) -> Result<Request, Refusal>
    ensures ok { IfOk result (λ read. request line.now ≡ Ok (requested read)) }
    ensures err { IfErr result (λ refusal. (refusal ≡ Refusal.Memory) ⊎ (request line.now ≡ Err refusal)) }
{
    let value = json(alloc, line)?;
    let name = text_at(&value, "fn")?;
    let called = Function::from_name(name).ok_or(Refusal::UnknownFunction)?;
    request_to(alloc, called, &value)
}

/// Reads the request that calls the function of this name with this body. `function` may be any text
/// and `body` any bytes.
///
/// The body has the form of a line for `read_request`, but needs no `fn`, and one that is there is
/// ignored. An empty body counts as `{}`. For `importAssignments` the body itself is the CSV.
///
/// # Errors
///
/// `UnknownFunction` if no function has this name, otherwise the refusals of `body_to`. `Memory` if
/// allocation failed before the body was judged; the same body may be read again.
#[tactic(auto, unfolding(crate::specs::Request::body_request))]
pub fn read_body(alloc: Global, function: &str, body: &[u8]) -> Result<Request, Refusal>
    ensures ok { IfOk result (λ read. body_request function.now body.now ≡ Ok (requested read)) }
    ensures err { IfErr result (λ refusal. (refusal ≡ Refusal.Memory) ⊎ (body_request function.now body.now ≡ Err refusal)) }
{
    let called = Function::from_name(function).ok_or(Refusal::UnknownFunction)?;
    body_to(alloc, called, body)
}

/// Reads the request that calls the function with this body, which may be any bytes, as `read_body`
/// does.
///
/// # Errors
///
/// These are judged one after another:
///
/// - for `importAssignments` the refusals of `read_assignments`: `TooMany`, `BadCsv`, `BadName`;
/// - `BadRequest` if the body is longer than 65,536 bytes, is not a JSON text or is not an object, or
///   the key of an argument is missing or has a value that it may not have;
/// - `BadName` if a text that names something is not a valid name.
///
/// `Memory` if allocation failed before the body was judged; the same body may be read again.
#[tactic(auto, unfolding(crate::specs::Request::body_to, rbac_sets::specs::CommandContent::content_of))]
pub fn body_to(alloc: Global, called: Function, body: &[u8]) -> Result<Request, Refusal>
    ensures ok { IfOk result (λ read. body_to called body.now ≡ Ok (requested read)) }
    ensures err { IfErr result (λ refusal. (refusal ≡ Refusal.Memory) ⊎ (body_to called body.now ≡ Err refusal)) }
{
    if called.takes_csv() {
        let pairs = read_assignments(alloc, body)?;
        return Ok(Request::Change(Command::ImportAssignments(pairs)));
    }
    let text = if body.is_empty() {
        b"{}".as_slice()
    } else {
        body
    };
    let value = json(alloc, text)?;
    if !value.is_object() {
        return Err(Refusal::BadRequest);
    }
    request_to(alloc, called, &value)
}

// The JSON value of a line.
#[tactic(auto, using(crate::proofs::JsonValues::json_of_steps))]
fn json(alloc: Global, line: &[u8]) -> Result<Value, Refusal>
    ensures ok { IfOk result (λ value. json_of line.now ≡ Ok (view value)) }
    ensures err { IfErr result (λ refusal. (refusal ≡ Refusal.Memory) ⊎ (json_of line.now ≡ Err refusal)) }
{
    if line.len() > LONGEST_LINE {
        return Err(Refusal::BadRequest);
    }
    match Value::from_slice(alloc, line) {
        Ok(value) => Ok(value),
        Err(error) if error.is_memory() => Err(Refusal::Memory),
        Err(_) => Err(Refusal::BadRequest),
    }
}
