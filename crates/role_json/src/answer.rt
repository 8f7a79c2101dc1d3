//! The results of requests, and their texts.
ghost use Rattle.std.specs.Prelude.{◌≡◌, IfOk, IfErr, option_map, string_bytes};
ghost use Rattle.serde_json.specs.Data.{array};
ghost use Rattle.serde_json.specs.View.{view};
ghost use Rattle.admin_mgr.specs.PlanEffect.{tally_of_report};
ghost use Rattle.review_mgr.specs.Answering.{answer_content};
ghost use Rattle.role_json.specs.Answer.{pair_data, pairs_of, part_of, record_data, records_of, refusal_data, report_data, text_of, texts_of, value_data, with_value};
ghost use Rattle.role_json.specs.private.AnswerData.{data_of};

use admin_mgr::Report;
use rbac_sets::{Name, Refusal};
use review_mgr::Answer;
use serde_json::{Value, json};
use std::alloc::{AllocError, Global};

/// The result of a request.
#[derive(Drop)]
pub enum Verdict {
    /// A command was done.
    Done,
    /// An import was done, with this report.
    Imported(Report),
    /// A question was answered, with this answer.
    Answered(Answer),
    /// The request was refused, with this refusal.
    Refused(Refusal),
}

/// The text that answers a request: JSON without spaces between tokens, and with the keys in byte
/// order. In its strings `"` and `\` are escaped by a `\`, and no other character is escaped.
///
/// - Done: `{"ok":true}`
/// - Imported: `{"ok":true,"value":{"already":1,"assigned":2,"refused":[{"code":2,"record":3}]}}`, with
///   the code of the refusal and the number of the record for each record that was refused by anything
///   but `AlreadyAssigned`.
/// - Answered: `{"ok":true,"value":V}`. V is a list of names such as `["ann","bob"]`, a list of permissions
///   such as `[["safe","open"]]`, a number, or `true` or `false`.
/// - Refused: `{"code":2,"error":"NoUser"}`, with the code and the name of the refusal. The value that
///   a refusal carries has a key of its own: `set` is the name of the separation of duty set, `kind`
///   the name of what the limit counts, `record` the number of the record, `version` the version of
///   the office, `check` the number of the check that failed.
///
/// # Errors
///
/// `Memory` if allocation failed.
#[tactic(auto, using(crate::proofs::AnswerValues::text_of_steps))]
pub fn answer_text(alloc: Global, verdict: &Verdict) -> Result<String, Refusal>
    ensures ok { IfOk result (λ text. string_bytes text ≡ text_of verdict.now) }
    ensures cause { IfErr result (λ refusal. refusal ≡ Refusal.Memory) }
{
    let value = verdict_value(alloc, verdict)?;
    let text = value.to_string(alloc)?;
    Ok(text)
}

// The JSON value of a verdict.
#[tactic(auto, unfolding(crate::specs::private::AnswerData::data_of))]
fn verdict_value(alloc: Global, verdict: &Verdict) -> Result<Value, AllocError>
    ensures { IfOk result (λ value. view value ≡ data_of verdict.now) }
{
    match verdict {
        Verdict::Done => json!(in alloc; {"ok": true}),
        Verdict::Imported(report) => with_value(alloc, report_value(alloc, report)?),
        Verdict::Answered(answer) => with_value(alloc, answer_value(alloc, answer)?),
        Verdict::Refused(refusal) => refusal_value(alloc, refusal),
    }
}

// The JSON value of an answer with this value.
fn with_value(alloc: Global, value: Value) -> Result<Value, AllocError>
    ensures { IfOk result (λ answer. view answer ≡ with_value (view value)) }
{
    json!(in alloc; {"ok": true, "value": value})
}

// The JSON value of an answer to a question.
#[tactic(auto, unfolding(crate::specs::Answer::value_data))]
fn answer_value(alloc: Global, answer: &Answer) -> Result<Value, AllocError>
    ensures { IfOk result (λ value. view value ≡ value_data (answer_content answer.now)) }
{
    match answer {
        Answer::Names(names) => names_value(alloc, names),
        Answer::Permissions(permissions) => pairs_value(alloc, permissions),
        Answer::Count(count) => Ok(Value::from(*count)),
        Answer::Access(access) => Ok(Value::from(*access)),
    }
}

// A list of names as a JSON value.
#[tactic(auto, using(crate::proofs::AnswerValues::texts_of_steps))]
fn names_value(alloc: Global, names: &[Name]) -> Result<Value, AllocError>
    ensures { IfOk result (λ value. view value ≡ array (texts_of names.now)) }
{
    let mut items = Vec::new(alloc);
    for name in names {
        let item = Value::try_from_str(alloc, name.as_str())?;
        items.push(item)?;
    }
    Ok(Value::Array(items))
}

// A list of pairs of names as a JSON value.
#[tactic(auto, using(crate::proofs::AnswerValues::pairs_of_steps))]
fn pairs_value(alloc: Global, pairs: &[(Name, Name)]) -> Result<Value, AllocError>
    ensures { IfOk result (λ value. view value ≡ array (pairs_of pairs.now)) }
{
    let mut items = Vec::new(alloc);
    for pair in pairs {
        let item = pair_value(alloc, pair)?;
        items.push(item)?;
    }
    Ok(Value::Array(items))
}

// A pair of names as a JSON value.
#[tactic(auto, unfolding(crate::specs::Answer::pair_data))]
fn pair_value(alloc: Global, pair: &(Name, Name)) -> Result<Value, AllocError>
    ensures { IfOk result (λ value. view value ≡ pair_data pair.now) }
{
    json!(in alloc; [pair.0.as_str(), pair.1.as_str()])
}

// The report of an import as a JSON value.
#[tactic(auto, unfolding(crate::specs::Answer::report_data))]
fn report_value(alloc: Global, report: &Report) -> Result<Value, AllocError>
    ensures { IfOk result (λ value. view value ≡ report_data (tally_of_report report.now)) }
{
    let refused = records_value(alloc, &report.refused)?;
    json!(in alloc; {"already": report.already, "assigned": report.assigned, "refused": refused})
}

// The refused records as a JSON value.
#[tactic(auto, using(crate::proofs::AnswerValues::records_of_steps))]
fn records_value(alloc: Global, records: &[(u32, u32)]) -> Result<Value, AllocError>
    ensures { IfOk result (λ value. view value ≡ array (records_of records.now)) }
{
    let mut items = Vec::new(alloc);
    for pair in records {
        let item = record_value(alloc, *pair)?;
        items.push(item)?;
    }
    Ok(Value::Array(items))
}

// The number of a refused record and the code of its refusal, as a JSON value.
#[tactic(auto, unfolding(crate::specs::Answer::record_data))]
fn record_value(alloc: Global, pair: (u32, u32)) -> Result<Value, AllocError>
    ensures { IfOk result (λ value. view value ≡ record_data pair) }
{
    json!(in alloc; {"code": pair.1, "record": pair.0})
}

// The JSON value of a refusal.
#[tactic(auto, unfolding(crate::specs::Answer::refusal_data))]
fn refusal_value(alloc: Global, refusal: &Refusal) -> Result<Value, AllocError>
    ensures { IfOk result (λ value. view value ≡ refusal_data refusal.now) }
{
    let code = refusal.code();
    let error = refusal.name();
    match refusal_part(alloc, refusal)? {
        Some((key, part)) => json!(in alloc; {"code": code, "error": error, key: part}),
        None => json!(in alloc; {"code": code, "error": error}),
    }
}

// The value that a refusal carries, with its key, or `None` if it carries none.
fn refusal_part(
    alloc: Global,
    refusal: &Refusal,
) -> Result<Option<(&'static str, Value)>, AllocError>
    ensures { IfOk result (λ part. option_map (λ member. (member.0.now, view member.1)) part ≡ part_of refusal.now) }
{
    match refusal {
        Refusal::StaticSeparation(set) | Refusal::DynamicSeparation(set) => {
            Ok(Some(("set", Value::try_from_str(alloc, set.as_str())?)))
        }
        Refusal::TooMany(kind) => Ok(Some(("kind", Value::try_from_str(alloc, kind.name())?))),
        Refusal::BadCsv(number) => Ok(Some(("record", Value::from(*number)))),
        Refusal::Version(version) => Ok(Some(("version", Value::from(*version)))),
        Refusal::Damaged(check) => Ok(Some(("check", Value::from(*check)))),
        _ => Ok(None),
    }
}
