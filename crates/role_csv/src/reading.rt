//! The assignments that a text lists.
ghost use Rattle.std.specs.Prelude.{◌≡◌, ◌⊎◌, ◌∷◌, [], Ok, Err, IfOk, IfErr};
ghost use Rattle.csv.specs.Records.{fields_of};
ghost use Rattle.role_csv.specs.Assignments.{assignments, is_header, pair_of, pair_of_names};

use crate::records::{next_record, reader_of, text_of, two_fields};
use csv::ByteRecord;
use rbac_sets::{Kind, Name, Refusal};
use std::alloc::Global;

/// The most records after the header.
const MOST_RECORDS: u32 = 10_000;

/// The assignments that a CSV text lists, as pairs of a user and a role in the order of its records.
///
/// These are the pairs of the command importAssignments. They are not checked against an office, and
/// a pair that is listed twice is returned twice.
///
/// `text` may be any bytes. Its records are those of the crate `csv`: fields are separated by commas,
/// spaces are kept, and a field may be in double quotes, within which a double quote is written
/// twice; a record ends with LF, CR or CRLF, and an empty line is not a record. One byte order mark
/// at the start is skipped. The first record is the header `user,role`; the records after it are
/// numbered from 1.
///
/// # Errors
///
/// `TooMany(Kind::Byte)` if the text has more than 2,097,152 bytes, and `BadCsv(0)` if its first
/// record isn't the header. Otherwise the first invalid record decides: `TooMany(Kind::Record)` if
/// its number is greater than 10,000, `BadCsv` with its number if it doesn't have two fields or one
/// of them isn't UTF-8, `BadName` if one isn't a valid name. `Memory` if allocation failed; it may
/// replace any other result.
pub fn read_assignments(alloc: Global, text: &[u8]) -> Result<Vec<(Name, Name)>, Refusal>
    ensures ok { IfOk result (λ pairs. assignments text.now ≡ Ok pairs.items) }
    ensures err { IfErr result (λ refusal. (refusal ≡ Refusal.Memory) ⊎ (assignments text.now ≡ Err refusal)) }
{
    if text.len() > Kind::Byte.limit(2) as usize {
        return Err(Refusal::TooMany(Kind::Byte));
    }
    let mut reader = reader_of(alloc, text);
    let mut row = ByteRecord::new(alloc);
    if !next_record(&mut reader, &mut row)? || !is_header(&row) {
        return Err(Refusal::BadCsv(0));
    }
    let mut pairs = Vec::new(alloc);
    for number in 1..=MOST_RECORDS {
        if !next_record(&mut reader, &mut row)? {
            return Ok(pairs);
        }
        let pair = read_pair(alloc, number, &row)?;
        pairs.push(pair)?;
    }
    if next_record(&mut reader, &mut row)? {
        return Err(Refusal::TooMany(Kind::Record));
    }
    Ok(pairs)
}

// Whether the record is the header `user,role`.
#[tactic(auto, unfolding(crate::specs::Assignments::is_header))]
fn is_header(row: &ByteRecord) -> bool
    ensures { result ≡ is_header (fields_of row.now) }
{
    match two_fields(row) {
        Some((user, role)) => user == b"user".as_slice() && role == b"role".as_slice(),
        None => false,
    }
}

// The pair that the record with this number lists.
#[tactic(auto, using(crate::proofs::Fields::pair_steps))]
fn read_pair(alloc: Global, number: u32, row: &ByteRecord) -> Result<(Name, Name), Refusal>
    ensures ok { IfOk result (λ pair. pair_of number (fields_of row.now) ≡ Ok pair) }
    ensures err { IfErr result (λ refusal. (refusal ≡ Refusal.Memory) ⊎ (pair_of number (fields_of row.now) ≡ Err refusal)) }
{
    let Some((user, role)) = two_fields(row) else {
        return Err(Refusal::BadCsv(number));
    };
    read_fields(alloc, number, user, role)
}

// The pair that the two fields of the record with this number list.
#[tactic(auto, unfolding(crate::specs::Assignments::pair_of))]
fn read_fields(
    alloc: Global,
    number: u32,
    user: &[u8],
    role: &[u8],
) -> Result<(Name, Name), Refusal>
    ensures ok { IfOk result (λ pair. pair_of number (user.now ∷ role.now ∷ []) ≡ Ok pair) }
    ensures err { IfErr result (λ refusal. (refusal ≡ Refusal.Memory) ⊎ (pair_of number (user.now ∷ role.now ∷ []) ≡ Err refusal)) }
{
    let (Some(user), Some(role)) = (text_of(user), text_of(role)) else {
        return Err(Refusal::BadCsv(number));
    };
    read_names(alloc, user, role)
}

// The pair of two texts, which must both be valid names.
#[tactic(auto, unfolding(crate::specs::Assignments::pair_of_names))]
fn read_names(alloc: Global, user: &str, role: &str) -> Result<(Name, Name), Refusal>
    ensures ok { IfOk result (λ pair. pair_of_names user.now role.now ≡ Ok pair) }
    ensures err { IfErr result (λ refusal. (refusal ≡ Refusal.Memory) ⊎ (pair_of_names user.now role.now ≡ Err refusal)) }
{
    let user = Name::new(alloc, user)?;
    let role = Name::new(alloc, role)?;
    Ok((user, role))
}
