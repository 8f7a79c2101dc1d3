//! Laws of heads: each is the contract of a function that does nothing.
ghost use Rattle.role_http.specs.Laws.{AnswersAreOfHeads, HeadsAreUnique, RefusedHaveNoHead};

/// Bytes begin with at most one head: they determine it and what follows it.
pub fn heads_are_unique()
    ensures { HeadsAreUnique }
{}

/// If `answer_head` answers 400 or 431 because it doesn't recognize a head in the bytes, they don't begin with
/// a head within the limits, whatever the source still has.
pub fn refused_have_no_head()
    ensures { RefusedHaveNoHead }
{}

/// If a source begins with a head within the limits, `answer_head` reads that head, and no byte past it, and
/// answers it.
pub fn answers_are_of_heads()
    ensures { AnswersAreOfHeads }
{}
