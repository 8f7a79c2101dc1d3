//! Laws of the definitions alone: each is the contract of a function that does nothing.
ghost use Rattle.role_json.specs.RequestLaws.{RefusalsOfBodies, RefusalsOfLines, RefusalsOfNamedBodies, UnknownCallsNothing};

/// A line, and a body that comes with a function's name, are refused by `BadName`, `BadRequest` or
/// `UnknownFunction`, or by what refuses a text of assignments (`role_csv::laws::refusals_of_texts`:
/// `BadCsv`, or `TooMany` with `Kind::Byte` or `Kind::Record`), and by nothing else: never by a refusal
/// that concerns an office, memory or the store. So if `read_request` or `read_body` returns another
/// refusal, it is `Memory`.
///
/// A body that calls importAssignments is refused only by what refuses a text of assignments, and a
/// body that calls another function only by `BadName` or `BadRequest`. A line is refused by
/// `UnknownFunction` only if it has a text at `fn` that is not the name of a function.
#[tactic(auto, using(crate::proofs::Refusing::refusals_of_lines, crate::proofs::Refusing::refusals_of_named_bodies, crate::proofs::Refusing::refusals_of_bodies, crate::proofs::Refusing::unknown_calls_nothing))]
pub fn refusals_of_requests()
    ensures lines { RefusalsOfLines }
    ensures named { RefusalsOfNamedBodies }
    ensures bodies { RefusalsOfBodies }
    ensures unknown { UnknownCallsNothing }
{}
