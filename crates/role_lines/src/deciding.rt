//! The access decision for names that are given as bytes.
ghost use Rattle.std.specs.Prelude.{◌≡◌, ◌⊎◌, IfOk, IfErr};
ghost use Rattle.role_lines.specs.Decision.{Decides, DecidesUser, IsNameText, Refuses, RefusesUser};

use admin_mgr::State;
use rbac_sets::{BorrowedName, Name, Refusal};
use review_mgr::{check_access, check_user_access};
use std::alloc::Global;

/// CheckAccess: whether the session may do the operation on the object. The three may be any bytes.
///
/// It doesn't allocate.
///
/// # Errors
///
/// `BadName` if one of the three isn't a name. Otherwise those of `check_access`, in its order: `NoSession`, `NoObject`,
/// `NoOperation`.
pub fn decide(
    state: &State,
    session: &[u8],
    operation: &[u8],
    object: &[u8],
) -> Result<bool, Refusal>
    ensures decided { IfOk result (λ access. Decides state.now.facts session.now operation.now object.now access) }
    ensures refused { IfErr result (λ refusal. Refuses state.now.facts session.now operation.now object.now refusal) }
{
    let session = borrowed(session)?;
    let operation = borrowed(operation)?;
    let object = borrowed(object)?;
    check_access(state, &session, &operation, &object)
}

/// Whether the user could do the operation on the object in some session. The three may be any bytes.
///
/// It doesn't allocate.
///
/// # Errors
///
/// `BadName` if one of the three isn't a name, otherwise the refusals of `check_user_access`.
pub fn decide_for_user(
    state: &State,
    user: &[u8],
    operation: &[u8],
    object: &[u8],
) -> Result<bool, Refusal>
    ensures decided { IfOk result (λ access. DecidesUser state.now.facts user.now operation.now object.now access) }
    ensures refused { IfErr result (λ refusal. RefusesUser state.now.facts user.now operation.now object.now refusal) }
{
    let user = borrowed(user)?;
    let operation = borrowed(operation)?;
    let object = borrowed(object)?;
    check_user_access(state, &user, &operation, &object)
}

// The name with these bytes, which are borrowed. `BadName` if they aren't the text of a name.
fn borrowed(bytes: &[u8]) -> Result<BorrowedName<'_>, Refusal>
    ensures ok { IfOk result (λ name. (name ≡ bytes.now) × IsNameText bytes.now) }
    ensures err { IfErr result (λ refusal. (refusal ≡ Refusal.BadName) × ¬ (IsNameText bytes.now)) }
{
    match str::from_utf8(bytes) {
        Ok(text) => BorrowedName::new(text),
        Err(_) => Err(Refusal::BadName),
    }
}

// The name with these bytes. `BadName` if they aren't the text of a name.
pub(crate) fn name(alloc: Global, bytes: &[u8]) -> Result<Name, Refusal>
    ensures ok { IfOk result (λ name. (name ≡ bytes.now) × IsNameText bytes.now) }
    ensures err { IfErr result (λ refusal. (refusal ≡ Refusal.Memory) ⊎ ((refusal ≡ Refusal.BadName) × ¬ (IsNameText bytes.now))) }
{
    match str::from_utf8(bytes) {
        Ok(text) => Name::new(alloc, text),
        Err(_) => Err(Refusal::BadName),
    }
}
