//! The arguments at the keys of a call: texts, whole numbers, names and sets of names.
//!
//! If a call has several arguments, all keys are read before any text is checked to be a name.
ghost use Rattle.std.specs.Prelude.{◌≡◌, ◌⊎◌, Ok, Err, Some, None, IfOk, IfErr, map};
ghost use Rattle.serde_json.specs.View.{view, items_view};
ghost use Rattle.rbac_sets.specs.Sets.{name_cmp};
ghost use Rattle.rbac_sets.specs.SortedSet.{set_of};
ghost use Rattle.role_json.specs.Fields.{access_at, activation_at, assignment_at, cardinality_at, grant_at, inheritance_at, set_cardinality_at, member_at, name, name_at, name_set, names_at, new_session_at, new_session_keys, owned_session_at, permission_at, roles_at, separation_at, separation_keys, text_at, three_texts_at, texts_in, three_names_at, three_names};

use rbac_sets::{Name, NameSet, Refusal};
use serde_json::Value;
use std::alloc::Global;

// The text at a key.
#[tactic(auto, unfolding(crate::specs::Fields::text_at))]
pub(crate) fn text_at<'v>(value: &'v Value, key: &str) -> Result<&'v str, Refusal>
    ensures ok { IfOk result (λ text. text_at key.now (view value.entry.now) ≡ Ok text.now) }
    ensures err { IfErr result (λ refusal. text_at key.now (view value.entry.now) ≡ Err refusal) }
{
    value
        .get(key)
        .and_then(Value::as_str)
        .ok_or(Refusal::BadRequest)
}

// The cardinality of a separation of duty set.
#[tactic(auto, unfolding(crate::specs::Fields::cardinality_at))]
fn cardinality_at(value: &Value) -> Result<u32, Refusal>
    ensures ok { IfOk result (λ n. cardinality_at (view value.now) ≡ Ok n) }
    ensures err { IfErr result (λ refusal. cardinality_at (view value.now) ≡ Err refusal) }
{
    let Some(n) = value.get("cardinality").and_then(Value::as_u64) else {
        return Err(Refusal::BadRequest);
    };
    if n <= u64::from(u32::MAX) {
        Ok(n as u32)
    } else {
        Err(Refusal::BadRequest)
    }
}

// The texts in a list of values, which must all be texts.
#[tactic(auto, using(crate::proofs::TextLists::texts_steps))]
fn text_items<'v>(alloc: Global, values: &'v [Value]) -> Result<Vec<&'v str>, Refusal>
    ensures ok { IfOk result (λ texts. texts_in (items_view values.entry.now) ≡ Some (map (λ text. text.now) texts.items)) }
    ensures err { IfErr result (λ refusal. (refusal ≡ Refusal.Memory) ⊎ ((refusal ≡ Refusal.BadRequest) × (texts_in (items_view values.entry.now) ≡ None))) }
{
    let mut texts = Vec::new(alloc);
    for value in values {
        let Some(text) = value.as_str() else {
            return Err(Refusal::BadRequest);
        };
        texts.push(text)?;
    }
    Ok(texts)
}

// The texts of the list of roles.
#[tactic(auto, unfolding(crate::specs::Fields::roles_at))]
fn roles_at<'v>(alloc: Global, value: &'v Value) -> Result<Vec<&'v str>, Refusal>
    ensures ok { IfOk result (λ texts. roles_at (view value.entry.now) ≡ Ok (map (λ text. text.now) texts.items)) }
    ensures err { IfErr result (λ refusal. (refusal ≡ Refusal.Memory) ⊎ (roles_at (view value.entry.now) ≡ Err refusal)) }
{
    let Some(values) = value.get("roles").and_then(Value::as_array) else {
        return Err(Refusal::BadRequest);
    };
    text_items(alloc, values)
}

// The name with this text.
#[tactic(auto, unfolding(crate::specs::Fields::name))]
fn checked_name(alloc: Global, text: &str) -> Result<Name, Refusal>
    ensures ok { IfOk result (λ made. name text.now ≡ Ok made) }
    ensures err { IfErr result (λ refusal. (refusal ≡ Refusal.Memory) ⊎ (name text.now ≡ Err refusal)) }
{
    Name::new(alloc, text)
}

// The set of the names with these texts. The texts are sorted first, so that each name is inserted at
// the end of the set and no other name is moved.
#[tactic(auto, using(crate::proofs::NameSets::sorted_steps))]
fn checked_set(alloc: Global, mut texts: Vec<&str>) -> Result<NameSet, Refusal>
    ensures ok { IfOk result (λ set. name_set (map (λ text. text.now) texts.entry.items) ≡ Ok (set_of name_cmp set)) }
    ensures err { IfErr result (λ refusal. (refusal ≡ Refusal.Memory) ⊎ (name_set (map (λ text. text.now) texts.entry.items) ≡ Err refusal)) }
{
    texts.sort_unstable();
    set_of_names(alloc, &texts)
}

// The set of the names with these texts, inserted one after another.
#[tactic(auto, using(crate::proofs::NameSets::name_set_steps))]
fn set_of_names(alloc: Global, texts: &[&str]) -> Result<NameSet, Refusal>
    ensures ok { IfOk result (λ set. name_set (map (λ text. text.now) texts.now) ≡ Ok (set_of name_cmp set)) }
    ensures err { IfErr result (λ refusal. (refusal ≡ Refusal.Memory) ⊎ (name_set (map (λ text. text.now) texts.now) ≡ Err refusal)) }
{
    let mut set = NameSet::new(alloc);
    for text in texts {
        let name = checked_name(alloc, text)?;
        if !set.contains(&name) {
            set.reserve(1)?;
            set.insert_reserved(name);
        }
    }
    Ok(set)
}

// The name at a key.
#[tactic(auto, unfolding(crate::specs::Fields::name_at))]
pub(crate) fn name_at(alloc: Global, value: &Value, key: &str) -> Result<Name, Refusal>
    ensures ok { IfOk result (λ name. name_at key.now (view value.now) ≡ Ok name) }
    ensures err { IfErr result (λ refusal. (refusal ≡ Refusal.Memory) ⊎ (name_at key.now (view value.now) ≡ Err refusal)) }
{
    let text = text_at(value, key)?;
    checked_name(alloc, text)
}

// The names at two keys.
#[tactic(auto, unfolding(crate::specs::Fields::names_at))]
pub(crate) fn names_at(
    alloc: Global,
    value: &Value,
    first: &str,
    second: &str,
) -> Result<(Name, Name), Refusal>
    ensures ok { IfOk result (λ names. names_at first.now second.now (view value.now) ≡ Ok names) }
    ensures err { IfErr result (λ refusal. (refusal ≡ Refusal.Memory) ⊎ (names_at first.now second.now (view value.now) ≡ Err refusal)) }
{
    let first = text_at(value, first)?;
    let second = text_at(value, second)?;
    let first = checked_name(alloc, first)?;
    let second = checked_name(alloc, second)?;
    Ok((first, second))
}

// The texts at three keys.
#[tactic(auto, unfolding(crate::specs::Fields::three_texts_at))]
fn three_texts_at<'v>(
    value: &'v Value,
    first: &str,
    second: &str,
    third: &str,
) -> Result<(&'v str, &'v str, &'v str), Refusal>
    ensures ok { IfOk result (λ texts. three_texts_at first.now second.now third.now (view value.entry.now) ≡ Ok (texts.0.now, texts.1.now, texts.2.now)) }
    ensures err { IfErr result (λ refusal. three_texts_at first.now second.now third.now (view value.entry.now) ≡ Err refusal) }
{
    let first = text_at(value, first)?;
    let second = text_at(value, second)?;
    let third = text_at(value, third)?;
    Ok((first, second, third))
}

// The names of three texts.
#[tactic(auto, unfolding(crate::specs::Fields::three_names))]
fn three_names(
    alloc: Global,
    first: &str,
    second: &str,
    third: &str,
) -> Result<(Name, Name, Name), Refusal>
    ensures ok { IfOk result (λ names. three_names first.now second.now third.now ≡ Ok names) }
    ensures err { IfErr result (λ refusal. (refusal ≡ Refusal.Memory) ⊎ (three_names first.now second.now third.now ≡ Err refusal)) }
{
    let first = checked_name(alloc, first)?;
    let second = checked_name(alloc, second)?;
    let third = checked_name(alloc, third)?;
    Ok((first, second, third))
}

// The names at three keys.
#[tactic(auto, unfolding(crate::specs::Fields::three_names_at))]
fn three_names_at(
    alloc: Global,
    value: &Value,
    first: &str,
    second: &str,
    third: &str,
) -> Result<(Name, Name, Name), Refusal>
    ensures ok { IfOk result (λ names. three_names_at first.now second.now third.now (view value.now) ≡ Ok names) }
    ensures err { IfErr result (λ refusal. (refusal ≡ Refusal.Memory) ⊎ (three_names_at first.now second.now third.now (view value.now) ≡ Err refusal)) }
{
    let (first, second, third) = three_texts_at(value, first, second, third)?;
    three_names(alloc, first, second, third)
}

// The object and the operation of a permission.
#[tactic(auto, unfolding(crate::specs::Fields::permission_at))]
pub(crate) fn permission_at(alloc: Global, value: &Value) -> Result<(Name, Name), Refusal>
    ensures ok { IfOk result (λ names. permission_at (view value.now) ≡ Ok names) }
    ensures err { IfErr result (λ refusal. (refusal ≡ Refusal.Memory) ⊎ (permission_at (view value.now) ≡ Err refusal)) }
{
    names_at(alloc, value, "object", "operation")
}

// The user and the role of an assignment.
#[tactic(auto, unfolding(crate::specs::Fields::assignment_at))]
pub(crate) fn assignment_at(alloc: Global, value: &Value) -> Result<(Name, Name), Refusal>
    ensures ok { IfOk result (λ names. assignment_at (view value.now) ≡ Ok names) }
    ensures err { IfErr result (λ refusal. (refusal ≡ Refusal.Memory) ⊎ (assignment_at (view value.now) ≡ Err refusal)) }
{
    names_at(alloc, value, "user", "role")
}

// The ascendant and the descendant of an inheritance.
#[tactic(auto, unfolding(crate::specs::Fields::inheritance_at))]
pub(crate) fn inheritance_at(alloc: Global, value: &Value) -> Result<(Name, Name), Refusal>
    ensures ok { IfOk result (λ names. inheritance_at (view value.now) ≡ Ok names) }
    ensures err { IfErr result (λ refusal. (refusal ≡ Refusal.Memory) ⊎ (inheritance_at (view value.now) ≡ Err refusal)) }
{
    names_at(alloc, value, "asc", "desc")
}

// A separation of duty set and a role.
#[tactic(auto, unfolding(crate::specs::Fields::member_at))]
pub(crate) fn member_at(alloc: Global, value: &Value) -> Result<(Name, Name), Refusal>
    ensures ok { IfOk result (λ names. member_at (view value.now) ≡ Ok names) }
    ensures err { IfErr result (λ refusal. (refusal ≡ Refusal.Memory) ⊎ (member_at (view value.now) ≡ Err refusal)) }
{
    names_at(alloc, value, "set", "role")
}

// The user that owns a session, and the session.
#[tactic(auto, unfolding(crate::specs::Fields::owned_session_at))]
pub(crate) fn owned_session_at(alloc: Global, value: &Value) -> Result<(Name, Name), Refusal>
    ensures ok { IfOk result (λ names. owned_session_at (view value.now) ≡ Ok names) }
    ensures err { IfErr result (λ refusal. (refusal ≡ Refusal.Memory) ⊎ (owned_session_at (view value.now) ≡ Err refusal)) }
{
    names_at(alloc, value, "user", "session")
}

// The object, the operation and the role of a grant.
#[tactic(auto, unfolding(crate::specs::Fields::grant_at))]
pub(crate) fn grant_at(alloc: Global, value: &Value) -> Result<(Name, Name, Name), Refusal>
    ensures ok { IfOk result (λ names. grant_at (view value.now) ≡ Ok names) }
    ensures err { IfErr result (λ refusal. (refusal ≡ Refusal.Memory) ⊎ (grant_at (view value.now) ≡ Err refusal)) }
{
    three_names_at(alloc, value, "object", "operation", "role")
}

// The user that owns a session, the session, and the role that is activated or deactivated in it.
#[tactic(auto, unfolding(crate::specs::Fields::activation_at))]
pub(crate) fn activation_at(alloc: Global, value: &Value) -> Result<(Name, Name, Name), Refusal>
    ensures ok { IfOk result (λ names. activation_at (view value.now) ≡ Ok names) }
    ensures err { IfErr result (λ refusal. (refusal ≡ Refusal.Memory) ⊎ (activation_at (view value.now) ≡ Err refusal)) }
{
    three_names_at(alloc, value, "user", "session", "role")
}

// The session, the operation and the object of an access check.
#[tactic(auto, unfolding(crate::specs::Fields::access_at))]
pub(crate) fn access_at(alloc: Global, value: &Value) -> Result<(Name, Name, Name), Refusal>
    ensures ok { IfOk result (λ names. access_at (view value.now) ≡ Ok names) }
    ensures err { IfErr result (λ refusal. (refusal ≡ Refusal.Memory) ⊎ (access_at (view value.now) ≡ Err refusal)) }
{
    three_names_at(alloc, value, "session", "operation", "object")
}

// The arguments of a new separation of duty set, with its name and its roles still as texts.
#[tactic(auto, unfolding(crate::specs::Fields::separation_keys))]
fn separation_keys<'v>(
    alloc: Global,
    value: &'v Value,
) -> Result<(&'v str, Vec<&'v str>, u32), Refusal>
    ensures ok { IfOk result (λ keys. separation_keys (view value.entry.now) ≡ Ok (keys.0.now, map (λ text. text.now) keys.1.items, keys.2)) }
    ensures err { IfErr result (λ refusal. (refusal ≡ Refusal.Memory) ⊎ (separation_keys (view value.entry.now) ≡ Err refusal)) }
{
    let set = text_at(value, "set")?;
    let roles = roles_at(alloc, value)?;
    let cardinality = cardinality_at(value)?;
    Ok((set, roles, cardinality))
}

// A new separation of duty set: its name, its roles and its cardinality.
#[tactic(auto, unfolding(crate::specs::Fields::separation_at))]
pub(crate) fn separation_at(alloc: Global, value: &Value) -> Result<(Name, NameSet, u32), Refusal>
    ensures ok { IfOk result (λ made. separation_at (view value.now) ≡ Ok (made.0, set_of name_cmp made.1, made.2)) }
    ensures err { IfErr result (λ refusal. (refusal ≡ Refusal.Memory) ⊎ (separation_at (view value.now) ≡ Err refusal)) }
{
    let (set, roles, cardinality) = separation_keys(alloc, value)?;
    let set = checked_name(alloc, set)?;
    let roles = checked_set(alloc, roles)?;
    Ok((set, roles, cardinality))
}

// A separation of duty set and its new cardinality.
#[tactic(auto, unfolding(crate::specs::Fields::set_cardinality_at))]
pub(crate) fn set_cardinality_at(alloc: Global, value: &Value) -> Result<(Name, u32), Refusal>
    ensures ok { IfOk result (λ made. set_cardinality_at (view value.now) ≡ Ok made) }
    ensures err { IfErr result (λ refusal. (refusal ≡ Refusal.Memory) ⊎ (set_cardinality_at (view value.now) ≡ Err refusal)) }
{
    let set = text_at(value, "set")?;
    let cardinality = cardinality_at(value)?;
    let set = checked_name(alloc, set)?;
    Ok((set, cardinality))
}

// The arguments of a new session, with all names still as texts.
#[tactic(auto, unfolding(crate::specs::Fields::new_session_keys))]
fn new_session_keys<'v>(
    alloc: Global,
    value: &'v Value,
) -> Result<(&'v str, Vec<&'v str>, &'v str), Refusal>
    ensures ok { IfOk result (λ keys. new_session_keys (view value.entry.now) ≡ Ok (keys.0.now, map (λ text. text.now) keys.1.items, keys.2.now)) }
    ensures err { IfErr result (λ refusal. (refusal ≡ Refusal.Memory) ⊎ (new_session_keys (view value.entry.now) ≡ Err refusal)) }
{
    let user = text_at(value, "user")?;
    let roles = roles_at(alloc, value)?;
    let session = text_at(value, "session")?;
    Ok((user, roles, session))
}

// A new session: its user, its roles and its name.
#[tactic(auto, unfolding(crate::specs::Fields::new_session_at))]
pub(crate) fn new_session_at(alloc: Global, value: &Value) -> Result<(Name, NameSet, Name), Refusal>
    ensures ok { IfOk result (λ made. new_session_at (view value.now) ≡ Ok (made.0, set_of name_cmp made.1, made.2)) }
    ensures err { IfErr result (λ refusal. (refusal ≡ Refusal.Memory) ⊎ (new_session_at (view value.now) ≡ Err refusal)) }
{
    let (user, roles, session) = new_session_keys(alloc, value)?;
    let user = checked_name(alloc, user)?;
    let roles = checked_set(alloc, roles)?;
    let session = checked_name(alloc, session)?;
    Ok((user, roles, session))
}
