//! Replies before they are written: a status and a body.
ghost use Rattle.std.specs.Prelude.{◌≡◌, None, false, IfSome};
ghost use Rattle.std.specs.Cow.{cow_str_bytes};
ghost use Rattle.role_json.specs.Answer.{done_text, refusal_text};
ghost use Rattle.role_wire.specs.Reply.{head_body};
ghost use Rattle.role_wire.specs.private.PreparedReply.{ReportsRefusal, is_fixed};

use http::StatusCode;
use rbac_sets::Refusal;
use role_http::status_of;
use role_json::{Verdict, answer_text};
use std::alloc::Global;
use std::borrow::CowStr;

// A reply that is to be written. Its body is a constant, or was allocated.
#[derive(Drop)]
pub(crate) struct PreparedReply {
    pub(crate) status: StatusCode,
    pub(crate) body: CowStr<'static>,
}

// The reply to a command that was done. It doesn't allocate.
pub(crate) fn done() -> PreparedReply
    ensures status { result.status ≡ 200 }
    ensures body { cow_str_bytes result.body ≡ done_text }
{
    PreparedReply {
        status: StatusCode::OK,
        body: CowStr::Borrowed("{\"ok\":true}"),
    }
}

// The reply after a failed allocation. It doesn't allocate.
pub(crate) fn no_memory() -> PreparedReply
    ensures status { result.status ≡ 503 }
    ensures body { cow_str_bytes result.body ≡ refusal_text Refusal.Memory }
{
    PreparedReply {
        status: StatusCode::SERVICE_UNAVAILABLE,
        body: CowStr::Borrowed(memory_text()),
    }
}

// The reply that refuses a head with this status. It doesn't allocate.
pub(crate) fn refused_head(status: StatusCode) -> PreparedReply
    ensures status { result.status ≡ status }
    ensures body { cow_str_bytes result.body ≡ head_body status }
{
    PreparedReply {
        status,
        body: CowStr::Borrowed(refused_body(status)),
    }
}

// The reply that reports a refusal, or `Memory` if its text could not be allocated.
#[tactic(auto, unfolding(role_json::specs::Answer::text_of))]
pub(crate) fn refused(alloc: Global, refusal: Refusal) -> PreparedReply
    ensures { ReportsRefusal refusal result }
{
    let status = status_of(&refusal);
    if let Some(text) = fixed_text(&refusal) {
        return PreparedReply {
            status,
            body: CowStr::Borrowed(text),
        };
    }
    match answer_text(alloc, &Verdict::Refused(refusal)) {
        Ok(text) => PreparedReply {
            status,
            body: CowStr::Owned(text),
        },
        Err(_) => no_memory(),
    }
}

// The constant text of a refusal, if it has one.
fn fixed_text(refusal: &Refusal) -> Option<&'static str>
    ensures text { IfSome result (λ text. text.now ≡ refusal_text refusal.now) }
    ensures none { result ≡ None → is_fixed refusal.now ≡ false }
{
    match refusal {
        Refusal::BadRequest => Some(bad_request_text()),
        Refusal::UnknownFunction => Some(unknown_function_text()),
        Refusal::Memory => Some(memory_text()),
        Refusal::Store => Some(store_text()),
        Refusal::Closed => Some(closed_text()),
        _ => None,
    }
}

// The body of a reply that refuses a head with this status.
fn refused_body(status: StatusCode) -> &'static str
    ensures { result.now ≡ head_body status }
{
    if status == StatusCode::NOT_FOUND {
        unknown_function_text()
    } else {
        bad_request_text()
    }
}

fn bad_request_text() -> &'static str
    ensures { result.now ≡ refusal_text Refusal.BadRequest }
{
    "{\"code\":34,\"error\":\"BadRequest\"}"
}

fn unknown_function_text() -> &'static str
    ensures { result.now ≡ refusal_text Refusal.UnknownFunction }
{
    "{\"code\":35,\"error\":\"UnknownFunction\"}"
}

fn memory_text() -> &'static str
    ensures { result.now ≡ refusal_text Refusal.Memory }
{
    "{\"code\":40,\"error\":\"Memory\"}"
}

fn store_text() -> &'static str
    ensures { result.now ≡ refusal_text Refusal.Store }
{
    "{\"code\":41,\"error\":\"Store\"}"
}

fn closed_text() -> &'static str
    ensures { result.now ≡ refusal_text Refusal.Closed }
{
    "{\"code\":42,\"error\":\"Closed\"}"
}
