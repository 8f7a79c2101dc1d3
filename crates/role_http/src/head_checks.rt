//! The answer to a head, before its body is read.
ghost use Rattle.std.specs.Prelude.{◌≡◌, ◌<◌, ◌^◌, ◌&&◌, true, Ok, Err, IfOk, IfErr, IfSome, All, Some, None, length, map, codes, option_map};
ghost use Rattle.std.specs.Char.{is_ascii_digit};
ghost use Rattle.std.specs.List.{list_all};
ghost use Rattle.std.specs.Str.{bytes_eq, str_eq_ignore_ascii_case};
ghost use Rattle.httparse.specs.Grammar.{RequestHead};
ghost use Rattle.httparse.specs.Spans.{IsHeaderWithin, IsRequestAt, IsRequestWithin, header_bytes};
ghost use Rattle.role_http.specs.Route.{function_in};
ghost use Rattle.role_http.specs.HeadChecks.{agrees, has_field, is_length, judged, judged_head, length_of, one_length, values_of};

use http::{Method, StatusCode};
use httparse::spans::{HeaderSpan, RequestSpans};
use role_functions::Function;

/// The function that a head calls and the number of bytes that its body has, or the status by which the head
/// is refused.
///
/// `spans` and `headers` are the positions of the parts of the head in `bytes`, and `named` is the function
/// that its target names, if it names one.
pub fn judge_head(
    bytes: &[u8],
    headers: &[HeaderSpan],
    spans: &RequestSpans,
    named: Option<Function>,
) -> Result<(Function, u32), StatusCode>
    requires within { IsRequestWithin bytes.now headers.now spans.now }
    requires named { (head : RequestHead) → IsRequestAt bytes.now headers.now spans.now head → named ≡ function_in head.target }
    ensures { (head : RequestHead) → IsRequestAt bytes.now headers.now spans.now head → result ≡ judged_head head }
{
    let method = spans.method.of(bytes);
    judge(method, named, bytes, &headers[..spans.headers])
}

// The same for the parts of a head.
#[tactic(auto, unfolding(crate::specs::HeadChecks::judged))]
fn judge(
    method: &[u8],
    named: Option<Function>,
    bytes: &[u8],
    fields: &[HeaderSpan],
) -> Result<(Function, u32), StatusCode>
    requires { All (IsHeaderWithin (length bytes.now)) fields.now }
    ensures { result ≡ judged method.now named (map (header_bytes bytes.now) fields.now) }
{
    if has_field(bytes, fields, b"transfer-encoding") {
        return Err(StatusCode::NOT_IMPLEMENTED);
    }
    let told = one_length(bytes, fields)?;
    let Some(called) = named else {
        return Err(StatusCode::NOT_FOUND);
    };
    if !is_post(method) {
        return Err(StatusCode::METHOD_NOT_ALLOWED);
    }
    let Some(digits) = told else {
        return Err(StatusCode::LENGTH_REQUIRED);
    };
    let count = length_of(called.longest_body(), digits)?;
    Ok((called, count))
}

// Whether the method is POST.
fn is_post(method: &[u8]) -> bool
    ensures { result ≡ bytes_eq method.now (codes "POST") }
{
    method == Method::POST.as_str().as_bytes()
}

// Whether a field has this name.
fn has_field(bytes: &[u8], fields: &[HeaderSpan], name: &[u8]) -> bool
    requires { All (IsHeaderWithin (length bytes.now)) fields.now }
    ensures { result ≡ has_field name.now (map (header_bytes bytes.now) fields.now) }
{
    for field in fields {
        if is_name(field.name.of(bytes), name) {
            return true;
        }
    }
    false
}

// Whether two field names are the same, without regard to ASCII case.
fn is_name(text: &[u8], name: &[u8]) -> bool
    ensures { result ≡ str_eq_ignore_ascii_case text.now name.now }
{
    text.eq_ignore_ascii_case(name)
}

// The value of the `content-length` fields, which must all have the same, or `None` if there are none.
fn one_length<'b>(bytes: &'b [u8], fields: &[HeaderSpan]) -> Result<Option<&'b [u8]>, StatusCode>
    requires { All (IsHeaderWithin (length bytes.now)) fields.now }
    ensures ok { IfOk result (λ told. one_length None (values_of (codes "content-length") (map (header_bytes bytes.entry.now) fields.now)) ≡ Ok (option_map (λ value. value.now) told)) }
    ensures err { IfErr result (λ status. one_length None (values_of (codes "content-length") (map (header_bytes bytes.entry.now) fields.now)) ≡ Err status) }
    ensures digits { IfOk result (λ told. IfSome told (λ value. is_length value.now ≡ true)) }
{
    let mut told: Option<&[u8]> = None;
    for field in fields {
        if is_name(field.name.of(bytes), b"content-length") {
            let value = field.value.of(bytes);
            if !fits(told, value) {
                return Err(StatusCode::BAD_REQUEST);
            }
            told = Some(value);
        }
    }
    Ok(told)
}

// Whether the value is a length and the same as the one before, if there is one before.
fn fits(before: Option<&[u8]>, value: &[u8]) -> bool
    ensures { result ≡ (is_length value.now && agrees (option_map (λ text. text.now) before.entry) value.now) }
{
    is_length(value) && agrees(before, value)
}

// Whether the value is the same as the one before, if there is one before.
fn agrees(before: Option<&[u8]>, value: &[u8]) -> bool
    ensures { result ≡ agrees (option_map (λ text. text.now) before.entry) value.now }
{
    match before {
        Some(text) => text == value,
        None => true,
    }
}

// Whether the value has digits only, and at least one.
#[tactic(auto, unfolding(crate::specs::HeadChecks::is_length))]
fn is_length(value: &[u8]) -> bool
    ensures { result ≡ is_length value.now }
{
    !value.is_empty() && are_digits(value)
}

// Whether each byte is a digit.
fn are_digits(value: &[u8]) -> bool
    ensures { result ≡ list_all is_ascii_digit value.now }
{
    value.iter().all(|byte| byte.is_ascii_digit())
}

// The number that the digits denote, if it is at most `most`.
fn length_of(most: u32, digits: &[u8]) -> Result<u32, StatusCode>
    requires small { most < 2 ^ 28 }
    requires digits { is_length digits.now ≡ true }
    ensures { result ≡ length_of most digits.now }
{
    let mut count: u32 = 0;
    for byte in digits {
        count = count * 10 + u32::from(*byte - b'0');
        if count > most {
            return Err(StatusCode::PAYLOAD_TOO_LARGE);
        }
    }
    Ok(count)
}
