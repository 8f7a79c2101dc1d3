//! The head of a request, read a byte at a time.
ghost use Rattle.std.specs.Prelude.{◌≡◌, ◌∷◌, [], ℕ, List, IfErr, IfOk, OnErr, OnOk, length, MatchOption};
ghost use Rattle.std.specs.Io.KnownBytes.{Consumes, IsAtEnd, Keeps};
ghost use Rattle.httparse.specs.Grammar.{HasNoRequest};
ghost use Rattle.rbac_sets.specs.Stream.{HasRisen};
ghost use Rattle.role_http.specs.Head.{ConsumesHead};
ghost use Rattle.role_http.specs.private.HeadEnd.{EndsHead, IsWholeWithin};

use crate::ReadError;
use httparse::spans::{HeaderSpan, RequestSpans, parse_request};
use httparse::{Error, Status};
use rbac_sets::{Fault, Source};

/// The most fields of a head.
pub const MOST_FIELDS: usize = 64;

// The most bytes of a head.
const MOST_BYTES: usize = 8192;

/// How reading a head ended.
pub enum HeadEnd {
    /// A complete head was read, and no byte past it.
    Whole(RequestSpans),
    /// The bytes that were read don't begin a head, whatever follows them.
    Invalid,
    /// The head has more fields than `headers` has room for.
    TooManyFields,
    /// As many bytes as a head may have were read, without a complete head.
    TooLong,
    /// The input ended before a complete head.
    Ended,
}

/// Reads up to the end of a head, and no byte past it. The bytes are written to `bytes`, which must be empty
/// before, and the positions of the fields to `headers`, whose length limits their number. After an error no
/// complete head was read.
pub fn read_head<R: Source>(
    source: &mut R,
    bytes: &mut Vec<u8>,
    headers: &mut [HeaderSpan],
) -> Result<HeadEnd, ReadError>
    requires { bytes.old.items ≡ [] }
    ensures ends { IfOk result (EndsHead bytes.new.items headers.new (R.remaining source.new)) }
    ensures within { IfOk result (IsWholeWithin bytes.new.items headers.new) }
    ensures takes { OnOk result (ConsumesHead (R.remaining source.old) (R.remaining source.new) bytes.new.items) }
    ensures room { length headers.new ≡ length headers.old }
    ensures stops { OnErr result ((taken : List ℕ) × ConsumesHead (R.remaining source.old) (R.remaining source.new) taken × HasNoRequest taken) }
    ensures steady { OnOk result (R.failed source.new ≡ R.failed source.old) }
    ensures fault { IfErr result (λ why. why ≡ ReadError.Fault → HasRisen (R.failed source.old) (R.failed source.new)) }
    ensures memory { IfErr result (λ why. why ≡ ReadError.Memory → R.failed source.new ≡ R.failed source.old) }
{
    for _ in 0..MOST_BYTES {
        bytes.reserve(1)?;
        let Some(byte) = next_byte(source)? else {
            return Ok(HeadEnd::Ended);
        };
        bytes.push(byte)?;
        if byte == b'\n' {
            match parse_request(bytes.as_slice(), headers) {
                Ok(Status::Complete(spans)) => return Ok(HeadEnd::Whole(spans)),
                Ok(Status::Partial) => {}
                Err(Error::TooManyHeaders) => return Ok(HeadEnd::TooManyFields),
                Err(_) => return Ok(HeadEnd::Invalid),
            }
        }
    }
    Ok(HeadEnd::TooLong)
}

// Reads the next byte, or `None` at the end of the source.
fn next_byte<R: Source>(source: &mut R) -> Result<Option<u8>, Fault>
    ensures byte { IfOk result (λ o. MatchOption o (IsAtEnd (R.remaining source.new)) (λ b. Consumes (R.remaining source.old) (R.remaining source.new) (b ∷ []))) }
    ensures end { IfOk result (λ o. MatchOption o (Keeps (R.remaining source.old) (R.remaining source.new)) (λ b. ℕ)) }
    ensures err { OnErr result (Keeps (R.remaining source.old) (R.remaining source.new)) }
    ensures steady { OnOk result (R.failed source.new ≡ R.failed source.old) }
    ensures fault { OnErr result (HasRisen (R.failed source.old) (R.failed source.new)) }
{
    let mut byte = [0u8; 1];
    match source.read(&mut byte) {
        Ok(0) => Ok(None),
        Ok(_) => Ok(Some(byte[0])),
        Err(fault) => Err(fault),
    }
}
