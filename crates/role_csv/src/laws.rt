//! Laws of the definitions alone: each is the contract of a function that does nothing.
ghost use Rattle.role_csv.specs.TextLaws.{RefusalsOfTexts};

/// A text of assignments is refused by `BadName`, by `BadCsv` with a number from 0 to 10,000, or by
/// `TooMany` with `Kind::Byte` or `Kind::Record`, and by nothing else: never by a refusal that
/// concerns an office, memory or the store. So if `read_assignments` returns another refusal, it is
/// `Memory`.
#[tactic(auto, using(crate::proofs::Refusing::refusals_of_texts))]
pub fn refusals_of_texts()
    ensures { RefusalsOfTexts }
{}
