//! How a reply is written.
ghost use Rattle.std.specs.Prelude.{◌≡◌, ◌≤◌, ◌⊎◌, ◌++◌, List, ℕ, OnOk, OnErr, length};
ghost use Rattle.std.specs.Io.KnownBytes.{Appends};
ghost use Rattle.rbac_sets.specs.Stream.{HasRisen};
ghost use Rattle.role_http.specs.ReplyBytes.{allow, phrase, pieces, reply_bytes};
ghost use Rattle.role_http.specs.private.PieceReferences.{all_of, texts_of};

use http::StatusCode;
use itoa::Buffer;
use rbac_sets::{Fault, Sink, write_all};

/// Writes a reply with this status and body, and with `Allow: POST` if the status is 405. It doesn't allocate.
///
/// # Errors
///
/// `Fault` if a write failed, or accepted no byte of a piece that isn't empty. The start of the reply was
/// written then, but not the whole reply.
pub fn write_reply<W: Sink>(sink: &mut W, status: StatusCode, body: &[u8]) -> Result<(), Fault>
    ensures ok { OnOk result (Appends (W.written sink.old) (W.written sink.new) (reply_bytes status body.now)) }
    ensures part { OnErr result ((part rest : List ℕ) × (reply_bytes status body.now ≡ part ++ rest) × (1 ≤ length rest) × Appends (W.written sink.old) (W.written sink.new) part) }
    ensures failures { W.failed sink.old ≤ W.failed sink.new }
    ensures idle { W.idle sink.old ≤ W.idle sink.new }
    ensures cause { OnErr result (HasRisen (W.failed sink.old) (W.failed sink.new) ⊎ HasRisen (W.idle sink.old) (W.idle sink.new)) }
{
    let mut code = Buffer::new();
    let code = code.format(status.as_u16());
    let reason = reason(status);
    let mut count = Buffer::new();
    let count = count.format(body.len());
    let pieces = pieces_of(
        code.as_bytes(),
        reason.as_bytes(),
        count.as_bytes(),
        allow(status),
        body,
    );
    write_pieces(sink, &pieces)
}

// The pieces of a reply, in order.
fn pieces_of<'a>(
    code: &'a [u8],
    reason: &'a [u8],
    count: &'a [u8],
    allow: &'a [u8],
    body: &'a [u8],
) -> [&'a [u8]; 10]
    ensures { texts_of result ≡ pieces code.entry.now reason.entry.now count.entry.now allow.entry.now body.entry.now }
{
    [
        b"HTTP/1.1 ".as_slice(),
        code,
        b" ".as_slice(),
        reason,
        b"\r\nContent-Type: application/json\r\nContent-Length: ".as_slice(),
        count,
        b"\r\nConnection: close\r\n".as_slice(),
        allow,
        b"\r\n".as_slice(),
        body,
    ]
}

// The reason phrase of a status.
fn reason(status: StatusCode) -> &'static str
    ensures { result.now ≡ phrase status }
{
    status.canonical_reason().unwrap_or("<unknown status code>")
}

// The further field of a reply with status 405; nothing for any other status.
fn allow(status: StatusCode) -> &'static [u8]
    ensures { result.now ≡ allow status }
{
    if status == StatusCode::METHOD_NOT_ALLOWED {
        b"Allow: POST\r\n".as_slice()
    } else {
        b"".as_slice()
    }
}

// Writes pieces one after another.
fn write_pieces<W: Sink>(sink: &mut W, pieces: &[&[u8]]) -> Result<(), Fault>
    ensures ok { OnOk result (Appends (W.written sink.old) (W.written sink.new) (all_of pieces.now)) }
    ensures part { OnErr result ((part rest : List ℕ) × (all_of pieces.now ≡ part ++ rest) × (1 ≤ length rest) × Appends (W.written sink.old) (W.written sink.new) part) }
    ensures failures { W.failed sink.old ≤ W.failed sink.new }
    ensures idle { W.idle sink.old ≤ W.idle sink.new }
    ensures cause { OnErr result (HasRisen (W.failed sink.old) (W.failed sink.new) ⊎ HasRisen (W.idle sink.old) (W.idle sink.new)) }
{
    for piece in pieces {
        write_all(sink, piece)?;
    }
    Ok(())
}
