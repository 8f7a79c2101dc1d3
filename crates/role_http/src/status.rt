//! The statuses of refusals.
ghost use Rattle.std.specs.Prelude.{◌≡◌};
ghost use Rattle.role_http.specs.Status.{status_of};

use http::StatusCode;
use rbac_sets::Refusal;

/// The status of a reply that reports a refusal: 400 for malformed input (`1 BadName`, `34 BadRequest`,
/// `36 BadCsv`), 404 for an unknown function (`35 UnknownFunction`), 503 if allocation failed (`40 Memory`),
/// 500 if the store failed or the office is closed (`41 Store`, `42 Closed`), and 409 for every other refusal.
pub fn status_of(refusal: &Refusal) -> StatusCode
    ensures { result ≡ status_of refusal.now }
{
    match refusal {
        Refusal::BadName | Refusal::BadRequest | Refusal::BadCsv(_) => StatusCode::BAD_REQUEST,
        Refusal::UnknownFunction => StatusCode::NOT_FOUND,
        Refusal::Memory => StatusCode::SERVICE_UNAVAILABLE,
        Refusal::Store | Refusal::Closed => StatusCode::INTERNAL_SERVER_ERROR,
        _ => StatusCode::CONFLICT,
    }
}
