//! The records of a text, one after another.
ghost use Rattle.std.specs.Prelude.{◌≡◌, ◌≢◌, ◌∷◌, [], true, false, IfOk, IfErr, IfSome, IfNone, length};
ghost use Rattle.std.specs.Str.{is_utf8};
ghost use Rattle.csv.specs.Reading.{is_flexible};
ghost use Rattle.csv.specs.Records.{fields_of};
ghost use Rattle.role_csv.specs.private.Reading.{HasRead, HasReadAll, ReadsOneMore};

use csv::{ByteRecord, Reader, ReaderBuilder};
use rbac_sets::Refusal;
use std::alloc::Global;

// A reader of the records of a text, which has read none yet.
pub(crate) fn reader_of(alloc: Global, text: &[u8]) -> Reader<&[u8]>
    ensures { HasRead text.entry.now [] result }
{
    ReaderBuilder::new()
        .has_headers(false)
        .flexible(true)
        .from_reader(alloc, text)
}

// Reads the next record into `row`, and returns whether there was one. A reader that accepts any number of fields in
// a record fails only if allocation failed.
pub(crate) fn next_record(reader: &mut Reader<&[u8]>, row: &mut ByteRecord) -> Result<bool, Refusal>
    requires { is_flexible reader.old ≡ true }
    ensures more { IfOk result (λ found. found ≡ true → ReadsOneMore reader.old (fields_of row.new) reader.new) }
    ensures end { IfOk result (λ found. found ≡ false → HasReadAll reader.old) }
    ensures cause { IfErr result (λ refusal. refusal ≡ Refusal.Memory) }
{
    let Ok(found) = reader.read_byte_record(row) else {
        return Err(Refusal::Memory);
    };
    Ok(found)
}

// The two fields of a record, or `None` if it doesn't have two.
#[tactic(auto, using(crate::proofs::Fields::two_fields_steps))]
pub(crate) fn two_fields(row: &ByteRecord) -> Option<(&[u8], &[u8])>
    ensures some { IfSome result (λ fields. fields_of row.entry.now ≡ fields.0.now ∷ fields.1.now ∷ []) }
    ensures none { IfNone result (length (fields_of row.entry.now) ≢ 2) }
{
    if row.len() != 2 {
        return None;
    }
    Some((row.get(0)?, row.get(1)?))
}

// The text of a field, or `None` if it isn't UTF-8.
#[tactic(auto, using(crate::proofs::Fields::utf8_steps))]
pub(crate) fn text_of(field: &[u8]) -> Option<&str>
    ensures some { IfSome result (λ text. (text.now ≡ field.entry.now) × (is_utf8 field.entry.now ≡ true)) }
    ensures none { IfNone result (is_utf8 field.entry.now ≡ false) }
{
    str::from_utf8(field).ok()
}
