//! The reasons of decisions, as rows.
ghost use Rattle.std.specs.Prelude.{◌≡◌, [], IfOk, IfErr};
ghost use Rattle.explanations.specs.SessionReasons.{session_reason_content};
ghost use Rattle.explanations.specs.UserReasons.{reason_content};
ghost use Rattle.role_lines.specs.Decision.{IsNameText, Refuses, RefusesUser};
ghost use Rattle.role_lines.specs.RowParts.{parts_of};
ghost use Rattle.role_lines.specs.StoredRow.{parts};
ghost use Rattle.rbac_c.specs.Reasons.{HasSessionReason, HasUserReason, reason_parts, session_reason_parts};

use admin_mgr::State;
use explanations::{SessionReason, UserReason, explain_session_access, explain_user_access};
use rbac_sets::{BorrowedName, Name, Refusal};
use role_lines::RowParts;

/// The number of `UserReason::Allowed` and of `SessionReason::Allowed`.
pub const ALLOWED: u32 = 1;

/// The number of `UserReason::Locked`.
pub const LOCKED: u32 = 2;

/// The number of `UserReason::NotGranted` and of `SessionReason::NotGranted`.
pub const NOT_GRANTED: u32 = 3;

/// The number of `UserReason::NotAuthorized`.
pub const NOT_AUTHORIZED: u32 = 4;

/// The number of `UserReason::Separated`.
pub const SEPARATED: u32 = 5;

/// The number of `SessionReason::NotActive`.
pub const NOT_ACTIVE: u32 = 6;

// Why the user may do the operation on the object in some session, or why not. The three may be any bytes.
pub(crate) fn user_reason<'a>(
    state: &'a State,
    user: &[u8],
    operation: &[u8],
    object: &[u8],
) -> Result<UserReason<'a>, Refusal>
    ensures reason { IfOk result (λ reason. HasUserReason state.now.facts user.now operation.now object.now (reason_content reason)) }
    ensures refused { IfErr result (λ refusal. RefusesUser state.now.facts user.now operation.now object.now refusal) }
{
    let user = borrowed(user)?;
    let operation = borrowed(operation)?;
    let object = borrowed(object)?;
    explain_user_access(state, &user, &operation, &object)
}

// Why the session may do the operation on the object, or why not. The three may be any bytes.
pub(crate) fn session_reason<'a>(
    state: &'a State,
    session: &[u8],
    operation: &[u8],
    object: &[u8],
) -> Result<SessionReason<'a>, Refusal>
    ensures reason { IfOk result (λ reason. HasSessionReason state.now.facts session.now operation.now object.now (session_reason_content reason)) }
    ensures refused { IfErr result (λ refusal. Refuses state.now.facts session.now operation.now object.now refusal) }
{
    let session = borrowed(session)?;
    let operation = borrowed(operation)?;
    let object = borrowed(object)?;
    explain_session_access(state, &session, &operation, &object)
}

// The name with these bytes, which are borrowed. `BadName` if they aren't the text of a name.
fn borrowed(bytes: &[u8]) -> Result<BorrowedName<'_>, Refusal>
    ensures ok { IfOk result (λ name. (name ≡ bytes.now) × IsNameText bytes.now) }
    ensures err { IfErr result (λ refusal. (refusal ≡ Refusal.BadName) × ¬ (IsNameText bytes.now)) }
{
    match str::from_utf8(bytes) {
        Ok(text) => BorrowedName::new(text),
        Err(_) => Err(Refusal::BadName),
    }
}

// The reason as a row: its names, and its number.
pub(crate) fn reason_row<'a>(reason: &UserReason<'a>) -> RowParts<'a>
    ensures { parts_of result ≡ reason_parts (reason_content reason.now) }
{
    match reason {
        UserReason::Allowed { assigned, granted } => row(ALLOWED, assigned, granted),
        UserReason::Locked => row_without_names(LOCKED),
        UserReason::NotGranted => row_without_names(NOT_GRANTED),
        UserReason::NotAuthorized => row_without_names(NOT_AUTHORIZED),
        UserReason::Separated { role, set } => row(SEPARATED, role, set),
    }
}

// The same for the reason of a decision about a session.
pub(crate) fn session_reason_row<'a>(reason: &SessionReason<'a>) -> RowParts<'a>
    ensures { parts_of result ≡ session_reason_parts (session_reason_content reason.now) }
{
    match reason {
        SessionReason::Allowed { active, granted } => row(ALLOWED, active, granted),
        SessionReason::NotGranted => row_without_names(NOT_GRANTED),
        SessionReason::NotActive => row_without_names(NOT_ACTIVE),
    }
}

// A row of two names.
fn row<'a>(number: u32, first: &'a Name, second: &'a Name) -> RowParts<'a>
    ensures { parts_of result ≡ parts first.now second.now [] number }
{
    RowParts {
        first: first.as_str().as_bytes(),
        second: second.as_str().as_bytes(),
        third: b"",
        number,
    }
}

// A row with a number alone.
fn row_without_names<'a>(number: u32) -> RowParts<'a>
    ensures { parts_of result ≡ parts [] [] [] number }
{
    RowParts {
        first: b"",
        second: b"",
        third: b"",
        number,
    }
}
