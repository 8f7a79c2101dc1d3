//! The answer to the head of a request.
ghost use Rattle.std.specs.Prelude.{◌≡◌, ◌≤◌, ℕ, List, IfErr, IfOk, OnErr, OnOk, length};
ghost use Rattle.httparse.specs.Grammar.{HasNoRequest, RequestHead};
ghost use Rattle.httparse.specs.Spans.{IsRequestAt, IsRequestWithin};
ghost use Rattle.rbac_sets.specs.Stream.{HasRisen};
ghost use Rattle.role_http.specs.HeadAnswer.{AnswersConsumed};
ghost use Rattle.role_http.specs.Head.{ConsumesHead};
ghost use Rattle.role_http.specs.HeadChecks.{judged_head};
ghost use Rattle.role_http.specs.Route.{routes};

use crate::ReadError;
use crate::head::{HeadEnd, MOST_FIELDS, read_head};
use crate::head_checks::judge_head;
use crate::route::function_of;
use http::StatusCode;
use httparse::spans::{EMPTY_HEADER_SPAN, HeaderSpan, RequestSpans};
use matchit::Router;
use rbac_sets::Source;
use role_functions::Function;
use std::alloc::Global;

/// Reads the head of a request from `source`, and no byte past it, and judges it. `router` must be the
/// router that `one_route` returns.
///
/// The answer is the function that the head calls and the number of bytes that its body has, or the status
/// by which it is refused, the first of these that applies:
///
/// | Status | If |
/// |---|---|
/// | 400 | the bytes are not a head, or the input ends before a complete one |
/// | 431 | the head has more than 64 fields, or doesn't end within 8,192 bytes |
/// | 501 | there is a Transfer-Encoding |
/// | 400 | a Content-Length is empty or has a byte that isn't a digit, or two have different bytes |
/// | 404 | the target isn't that of the route, or names no function |
/// | 405 | the method isn't POST |
/// | 411 | there is no Content-Length |
/// | 413 | the body has more than 65,536 bytes, or 2,097,152 for `importAssignments` |
///
/// # Errors
///
/// `Fault` if a read of the source failed, and `Memory` if allocation failed. Then no complete head was read.
pub fn answer_head<R: Source>(
    alloc: Global,
    router: &Router<()>,
    source: &mut R,
) -> Result<Result<(Function, u32), StatusCode>, ReadError>
    requires route { router.now ≡ routes }
    ensures answers { IfOk result (λ answer. (taken : List ℕ) × ConsumesHead (R.remaining source.old) (R.remaining source.new) taken × AnswersConsumed taken (R.remaining source.new) answer) }
    ensures stops { OnErr result ((taken : List ℕ) × ConsumesHead (R.remaining source.old) (R.remaining source.new) taken × HasNoRequest taken) }
    ensures steady { OnOk result (R.failed source.new ≡ R.failed source.old) }
    ensures fault { IfErr result (λ why. why ≡ ReadError.Fault → HasRisen (R.failed source.old) (R.failed source.new)) }
    ensures memory { IfErr result (λ why. why ≡ ReadError.Memory → R.failed source.new ≡ R.failed source.old) }
{
    let mut bytes = Vec::new(alloc);
    let mut headers = [EMPTY_HEADER_SPAN; MOST_FIELDS];
    match read_head(source, &mut bytes, &mut headers)? {
        HeadEnd::Whole(spans) => Ok(judge_whole(router, bytes.as_slice(), &headers, &spans)),
        HeadEnd::Invalid | HeadEnd::Ended => Ok(Err(StatusCode::BAD_REQUEST)),
        HeadEnd::TooManyFields | HeadEnd::TooLong => {
            Ok(Err(StatusCode::REQUEST_HEADER_FIELDS_TOO_LARGE))
        }
    }
}

// The answer to a complete head.
fn judge_whole(
    router: &Router<()>,
    bytes: &[u8],
    headers: &[HeaderSpan],
    spans: &RequestSpans,
) -> Result<(Function, u32), StatusCode>
    requires route { router.now ≡ routes }
    requires within { IsRequestWithin bytes.now headers.now spans.now }
    ensures judged { (head : RequestHead) → IsRequestAt bytes.now headers.now spans.now head → judged_head head ≡ result }
    ensures room { (head : RequestHead) → IsRequestAt bytes.now headers.now spans.now head → length head.fields ≤ length headers.now }
{
    let named = function_of(router, spans.path.of(bytes));
    judge_head(bytes, headers, spans, named)
}
