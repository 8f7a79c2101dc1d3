//! One request over HTTP, from its first byte to the last of its reply.
ghost use Rattle.std.specs.Prelude.{◌≡◌, ◌≢◌, ◌≤◌, ◌⊎◌, ◌↔◌, ◌++◌, ◌==◌, ℕ, List, IsTrue, true, false, length, take, Ok, Err, IfErr, IfOk, OnErr};
ghost use Rattle.std.specs.Cow.{cow_str_bytes};
ghost use Rattle.std.specs.Io.KnownBytes.{Appends, Consumes};
ghost use Rattle.sqlite.specs.Held.{state};
ghost use Rattle.rbac_sets.specs.Stream.{HasRisen};
ghost use Rattle.role_json.specs.Request.{body_to};
ghost use Rattle.role_json.specs.RequestContent.{requested};
ghost use Rattle.role_http.specs.HeadAnswer.{with_left};
ghost use Rattle.role_http.specs.ReplyBytes.{reply_bytes};
ghost use Rattle.role_http.specs.Route.{routes};
ghost use Rattle.role_wire.specs.private.PreparedReply.{AnswersBody, IsReadAs, IsRefusal, IsReplied};
ghost use Rattle.role_wire.specs.OfficeRequest.{IsImport};
ghost use Rattle.role_wire.specs.private.RequestAnswer.{IsQuestion};
ghost use Rattle.role_wire.specs.Reply.{Asks, SaysIfWhole, TakesNoFurther, called_for};
ghost use Rattle.role_wire.specs.ServedRequest.{IsImported, LeavesUnanswered, ServesRequest, StopsRequest, AnswersBytes};

use crate::lines::{Cause, Stop};
use crate::office_request::perform;
use crate::prepared_reply::{PreparedReply, done, no_memory, refused, refused_head};
use http::StatusCode;
use matchit::Router;
use rbac_sets::{Fault, Refusal, Sink, Source};
use role_http::{ReadError, answer_head, one_route, read_bytes, write_reply};
use role_json::{Function, Request, Verdict, answer_text, body_to};
use role_tables::Office;
use sqlite::Alter;
use std::alloc::Global;
use std::borrow::CowStr;

/// A request whose reply was written.
#[derive(Clone, Copy, Debug, PartialEq, Eq)]
pub struct Served {
    /// The status of the reply.
    pub status: u16,
}

/// A request whose reply was written, with what follows for the connection and for the office.
#[derive(Clone, Copy, Debug, PartialEq, Eq)]
pub struct Answered {
    /// The status of the reply.
    pub status: u16,
    /// Whether the status is 500. The office is closed then, and does nothing more until it is opened anew.
    pub is_closed: bool,
    /// Whether the request was read to the end of its body. If not, a client may still be sending it.
    pub has_read_all: bool,
}

/// Reads one request from `source`, does what it asks for, and writes the reply to `sink`. No byte after
/// the request is read.
///
/// A request is `POST /v1/FUNCTION` with a Content-Length, and its body is what `read_body` reads. The
/// limits of a head and of a body are those of `answer_head` in `role_http`. The body of the reply is the
/// answer text if the status is 200, and the text of a refusal otherwise:
///
/// | Status | If |
/// |---|---|
/// | 200 | the command was done, or the question answered |
/// | 400 | the request, a name or a CSV text is malformed |
/// | 404 | the target isn't that of a function |
/// | 405 | the method isn't POST |
/// | 409 | the request was refused by a code of its own: 2 to 33, 37 or 51 |
/// | 411 | there is no Content-Length |
/// | 413 | the body is above its limit |
/// | 431 | the head is above its limits |
/// | 500 | the store failed, or the office is closed |
/// | 501 | there is a Transfer-Encoding |
/// | 503 | an allocation failed before anything was done |
///
/// A closed office stays as it is. It is asked only after a request was read, so a head or a body that is
/// refused keeps its reply. Of a head that is above its limits at most 8,192 bytes are read.
///
/// # Errors
///
/// After a stop there is no whole reply; its `answered` is 0.
///
/// - `Read`: a read failed. Nothing was done and nothing written.
/// - `Memory`: the answer text of an accepted import could not be allocated. The import is done, and nothing
///   was written.
/// - `Write`: a write failed, or accepted no byte. A part of the reply may have been written; what the whole
///   reply reports holds.
pub fn serve_one<S: Alter, R: Source, W: Sink>(
    alloc: Global,
    office: &mut Office<S>,
    source: &mut R,
    sink: &mut W,
) -> Result<Served, Stop>
    ensures served { IfOk result (λ served. ServesRequest (state S.Store) office.old office.new
        (R.remaining source.old) (R.remaining source.new) (W.written sink.old) (W.written sink.new) served.status) }
    ensures stopped { IfErr result (λ stop. (stop.answered ≡ 0) × StopsRequest (state S.Store) stop.cause office.old office.new
        (R.remaining source.old) (R.remaining source.new) (W.written sink.old) (W.written sink.new)) }
    ensures read_cause { IfErr result (λ stop. stop.cause ≡ Cause.Read → HasRisen (R.failed source.old) (R.failed source.new)) }
    ensures write_cause { IfErr result (λ stop. stop.cause ≡ Cause.Write → HasRisen (W.failed sink.old) (W.failed sink.new) ⊎ HasRisen (W.idle sink.old) (W.idle sink.new)) }
{
    let Ok(server) = Server::new(alloc) else {
        let answered = send(sink, &unread(no_memory()))?;
        return Ok(Served {
            status: answered.status,
        });
    };
    let answered = server.serve(alloc, office, source, sink)?;
    Ok(Served {
        status: answered.status,
    })
}

/// What serves requests over HTTP, each as `serve_one` does. One server serves any number of requests, of any
/// office.
#[derive(Drop)]
pub struct Server {
    router: Router<()>,
    ghost has_one_route: { router ≡ routes },
}

impl Server {
    /// A server.
    ///
    /// # Errors
    ///
    /// `Memory` if allocation failed.
    pub fn new(alloc: Global) -> Result<Server, Refusal>
        ensures { IfErr result (λ refusal. refusal ≡ Refusal.Memory) }
    {
        let router = one_route(alloc)?;
        Ok(Server { router })
    }

    /// Serves one request as `serve_one` does, and says besides whether the office is closed, and whether the
    /// request was read to the end of its body. Both say exactly when: `is_closed` is true for status 500 alone,
    /// and `has_read_all` if a head was read that calls a function, and then a body as long as it says.
    ///
    /// # Errors
    ///
    /// As `serve_one`.
    pub fn serve<S: Alter, R: Source, W: Sink>(
        &self,
        alloc: Global,
        office: &mut Office<S>,
        source: &mut R,
        sink: &mut W,
    ) -> Result<Answered, Stop>
        ensures served { IfOk result (λ answered. ServesRequest (state S.Store) office.old office.new
            (R.remaining source.old) (R.remaining source.new) (W.written sink.old) (W.written sink.new) answered.status) }
        ensures closes { IfOk result (λ answered. answered.is_closed ≡ (answered.status == 500)) }
        ensures closed { IfOk result (λ answered. IsTrue answered.is_closed → office.new.is_closed ≡ true) }
        ensures whole { IfOk result (λ answered. SaysIfWhole (R.remaining source.old) (R.remaining source.new) answered.has_read_all) }
        ensures stopped { IfErr result (λ stop. (stop.answered ≡ 0) × StopsRequest (state S.Store) stop.cause office.old office.new
            (R.remaining source.old) (R.remaining source.new) (W.written sink.old) (W.written sink.new)) }
        ensures read_cause { IfErr result (λ stop. stop.cause ≡ Cause.Read → HasRisen (R.failed source.old) (R.failed source.new)) }
        ensures write_cause { IfErr result (λ stop. stop.cause ≡ Cause.Write → HasRisen (W.failed sink.old) (W.failed sink.new) ⊎ HasRisen (W.idle sink.old) (W.idle sink.new)) }
    {
        match self.answer(alloc, office, source) {
            Ok(made) => send(sink, &made),
            Err(cause) => Err(Stop { cause, answered: 0 }),
        }
    }

    // Reads a request, does what it asks for, and returns the reply.
    fn answer<S: Alter, R: Source>(
        &self,
        alloc: Global,
        office: &mut Office<S>,
        source: &mut R,
    ) -> Result<RequestReply, Cause>
        ensures made { IfOk result (λ made. (taken : List ℕ) × Consumes (R.remaining source.old) (R.remaining source.new) taken
            × TakesNoFurther office.old.facts (with_left taken (R.remaining source.new)) taken
            × AnswersBytes (state S.Store) office.old (with_left taken (R.remaining source.new)) made.reply.status (cow_str_bytes made.reply.body) office.new) }
        ensures whole { IfOk result (λ made. SaysIfWhole (R.remaining source.old) (R.remaining source.new) made.has_read_all) }
        ensures left { IfErr result (λ cause. (taken : List ℕ) × Consumes (R.remaining source.old) (R.remaining source.new) taken
            × TakesNoFurther office.old.facts (with_left taken (R.remaining source.new)) taken
            × LeavesUnanswered (state S.Store) cause office.old (Asks (with_left taken (R.remaining source.new))) office.new) }
        ensures cause { IfErr result (λ cause. cause ≡ Cause.Read → HasRisen (R.failed source.old) (R.failed source.new)) }
    {
        match answer_head(alloc, &self.router, source) {
            Ok(Ok((called, count))) => answer_call(alloc, office, source, called, count),
            Ok(Err(status)) => Ok(unread(refused_head(status))),
            Err(ReadError::Memory) => Ok(unread(no_memory())),
            Err(ReadError::Fault) => Err(Cause::Read),
        }
    }
}

// The reply to a request, and whether the request was read to the end of its body.
#[derive(Drop)]
struct RequestReply {
    reply: PreparedReply,
    has_read_all: bool,
}

// The reply to a request that was not read to the end of its body.
fn unread(reply: PreparedReply) -> RequestReply
    ensures reply { result.reply ≡ reply }
    ensures unread { result.has_read_all ≡ false }
{
    RequestReply {
        reply,
        has_read_all: false,
    }
}

// Writes a reply.
fn send<W: Sink>(sink: &mut W, made: &RequestReply) -> Result<Answered, Stop>
    ensures served { IfOk result (λ answered. (answered.status ≡ made.now.reply.status)
        × Appends (W.written sink.old) (W.written sink.new) (reply_bytes made.now.reply.status (cow_str_bytes made.now.reply.body))) }
    ensures closes { IfOk result (λ answered. answered.is_closed ≡ (answered.status == 500)) }
    ensures whole { IfOk result (λ answered. answered.has_read_all ≡ made.now.has_read_all) }
    ensures part { IfErr result (λ stop. (stop.answered ≡ 0) × (stop.cause ≡ Cause.Write)
        × ((part rest : List ℕ) × (reply_bytes made.now.reply.status (cow_str_bytes made.now.reply.body) ≡ part ++ rest) × (1 ≤ length rest) × Appends (W.written sink.old) (W.written sink.new) part)) }
    ensures cause { OnErr result (HasRisen (W.failed sink.old) (W.failed sink.new) ⊎ HasRisen (W.idle sink.old) (W.idle sink.new)) }
{
    let reply = &made.reply;
    match write_reply(sink, reply.status, reply.body.as_bytes()) {
        Ok(()) => Ok(Answered {
            status: reply.status.as_u16(),
            is_closed: reply.status == StatusCode::INTERNAL_SERVER_ERROR,
            has_read_all: made.has_read_all,
        }),
        Err(Fault) => Err(Stop {
            cause: Cause::Write,
            answered: 0,
        }),
    }
}

// Reads the body of a call, does what it asks for, and returns the reply.
fn answer_call<S: Alter, R: Source>(
    alloc: Global,
    office: &mut Office<S>,
    source: &mut R,
    called: Function,
    count: u32,
) -> Result<RequestReply, Cause>
    ensures made { IfOk result (λ made. (taken : List ℕ) × Consumes (R.remaining source.old) (R.remaining source.new) taken
        × (length taken ≤ length (take count (with_left taken (R.remaining source.new))))
        × AnswersBody (state S.Store) office.old (called_for (with_left taken (R.remaining source.new)) called count) made.reply office.new) }
    ensures whole { IfOk result (λ made. (taken : List ℕ) × Consumes (R.remaining source.old) (R.remaining source.new) taken
        × (IsTrue made.has_read_all ↔ (length taken ≡ count))) }
    ensures left { IfErr result (λ cause. (taken : List ℕ) × Consumes (R.remaining source.old) (R.remaining source.new) taken
        × (length taken ≤ length (take count (with_left taken (R.remaining source.new))))
        × LeavesUnanswered (state S.Store) cause office.old (IsReadAs (called_for (with_left taken (R.remaining source.new)) called count)) office.new) }
    ensures cause { IfErr result (λ cause. cause ≡ Cause.Read → HasRisen (R.failed source.old) (R.failed source.new)) }
{
    let body = match read_bytes(alloc, source, count as usize) {
        Ok(body) => body,
        Err(ReadError::Memory) => return Ok(unread(no_memory())),
        Err(ReadError::Fault) => return Err(Cause::Read),
    };
    if body.len() < count as usize {
        return Ok(unread(refused_head(StatusCode::BAD_REQUEST)));
    }
    let reply = answer_body(alloc, office, called, &body)?;
    Ok(RequestReply {
        reply,
        has_read_all: true,
    })
}

// Does what a body asks for, and returns the reply.
fn answer_body<S: Alter>(
    alloc: Global,
    office: &mut Office<S>,
    called: Function,
    body: &[u8],
) -> Result<PreparedReply, Cause>
    ensures made { IfOk result (λ made. AnswersBody (state S.Store) office.old (body_to called body.now) made office.new) }
    ensures left { IfErr result (λ cause. (cause ≡ Cause.Memory) × IsImported (state S.Store) office.old (IsReadAs (body_to called body.now)) office.new) }
{
    match body_to(alloc, called, body) {
        Ok(request) => answer_request(alloc, office, &request),
        Err(refusal) => Ok(refused(alloc, refusal)),
    }
}

// Does what a request asks for, and returns the reply.
fn answer_request<S: Alter>(
    alloc: Global,
    office: &mut Office<S>,
    request: &Request,
) -> Result<PreparedReply, Cause>
    ensures made { IfOk result (λ made. AnswersBody (state S.Store) office.old (Ok (requested request.now)) made office.new) }
    ensures left { IfErr result (λ cause. (cause ≡ Cause.Memory) × IsImported (state S.Store) office.old (IsReadAs (Ok (requested request.now))) office.new) }
{
    match perform(alloc, office, request) {
        Ok(verdict) => reply_to_verdict(alloc, request, &verdict),
        Err(refusal) => Ok(refused(alloc, refusal)),
    }
}

// The reply to a request that was done or answered with this verdict.
fn reply_to_verdict(
    alloc: Global,
    request: &Request,
    verdict: &Verdict,
) -> Result<PreparedReply, Cause>
    requires { verdict.now ≢ Verdict.Done → IsQuestion (requested request.now) ⊎ IsImport (requested request.now) }
    ensures made { IfOk result (λ made. IsReplied verdict.now made ⊎ (IsRefusal Refusal.Memory made × IsQuestion (requested request.now))) }
    ensures left { IfErr result (λ cause. (cause ≡ Cause.Memory) × IsImport (requested request.now)) }
{
    match verdict {
        Verdict::Done => Ok(done()),
        _ => match answer_text(alloc, verdict) {
            Ok(text) => Ok(PreparedReply {
                status: StatusCode::OK,
                body: CowStr::Owned(text),
            }),
            Err(_) => reply_without_text(request),
        },
    }
}

// The result for a question that was answered or an import that was done, but whose answer text could not be
// allocated: a question is answered by 503, and an import stops without a reply.
fn reply_without_text(request: &Request) -> Result<PreparedReply, Cause>
    requires { IsQuestion (requested request.now) ⊎ IsImport (requested request.now) }
    ensures made { IfOk result (λ made. IsRefusal Refusal.Memory made × IsQuestion (requested request.now)) }
    ensures left { IfErr result (λ cause. (cause ≡ Cause.Memory) × IsImport (requested request.now)) }
{
    match request {
        Request::Ask(_) => Ok(no_memory()),
        Request::Change(_) => Err(Cause::Memory),
    }
}
