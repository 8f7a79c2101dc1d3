//! Laws of the definitions alone: each is the contract of a function that does nothing.
ghost use Rattle.review_mgr.specs.QuestionLaws.{RefusalsOfQuestions, RemovalsKeepRefusals, RemovalsKeepUserRefusals};

/// A question is refused because something that it names isn't there, or checkAccess because no
/// permission has the operation. No other refusal is among those of a question: not `Memory`, `Store`
/// or `Closed`.
#[tactic(auto, using(crate::proofs::Refusing::refusals_of_questions))]
pub fn refusals_of_questions()
    ensures { RefusalsOfQuestions }
{}

/// A decision that is refused is also refused after a removal, so that no removal turns a refusal into a yes
/// either.
#[tactic(auto, using(crate::proofs::Refusing::removals_keep_refusals, crate::proofs::Refusing::removals_keep_user_refusals))]
pub fn removals_keep_refusals()
    ensures session { RemovalsKeepRefusals }
    ensures user { RemovalsKeepUserRefusals }
{}
