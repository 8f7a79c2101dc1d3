//! The export of a state's assignments.
ghost use Rattle.std.specs.Prelude.{◌≡◌, ◌⊎◌, ◌++◌, ◌≤◌, ℕ, List, true, false, length, Some, Err, IfErr, IfOk, OnErr, OnOk};
ghost use Rattle.std.specs.Io.KnownBytes.{Appends};
ghost use Rattle.csv.specs.Writing.{default_writer, fields_written, has_written, writer_setup};
ghost use Rattle.rbac_sets.specs.Stream.{HasRisen};
ghost use Rattle.role_csv.specs.Export.{export, exported, line_of};
ghost use Rattle.role_csv.specs.private.Reading.{writer_bytes};

use admin_mgr::State;
use chunked_sets::Run;
use csv::{Writer, WriterBuilder};
use rbac_sets::{Fault, Name, Refusal, Sink, write_all};
use std::alloc::Global;

/// Writes the assignments of a state as CSV: the header `user,role`, then a record with user and
/// role for each assignment in byte order. Each record ends with LF. A field that has a comma or a
/// double quote is in double quotes, and each double quote in it is written twice.
/// `read_assignments` reads this format, but at most 10,000 records of it; an export may have more.
/// The text is complete before its first byte is written.
///
/// # Errors
///
/// `Memory` if allocation failed; nothing was written then. `Store` if a write to the sink failed or
/// accepted no byte; what was written then is the start of the text, but not the whole text.
pub fn write_assignments<W: Sink>(alloc: Global, state: &State, sink: &mut W) -> Result<(), Refusal>
    ensures ok { OnOk result (Appends (W.written sink.old) (W.written sink.new) (exported state.now.facts)) }

    // After an error the start of the text was written, but not the whole text; if allocation failed, nothing was.
    ensures part { OnErr result ((part rest : List ℕ) × (exported state.now.facts ≡ part ++ rest) × (1 ≤ length rest) × Appends (W.written sink.old) (W.written sink.new) part) }
    ensures memory { result ≡ Err Refusal.Memory → sink.new ≡ sink.old }

    ensures cause { IfErr result (λ refusal. (refusal ≡ Refusal.Memory) ⊎ (refusal ≡ Refusal.Store)) }
    ensures store { result ≡ Err Refusal.Store → HasRisen (W.failed sink.old) (W.failed sink.new) ⊎ HasRisen (W.idle sink.old) (W.idle sink.new) }
{
    let text = export_text(alloc, &state.assignments().as_run())?;
    match write_all(sink, &text) {
        Ok(()) => Ok(()),
        Err(Fault) => Err(Refusal::Store),
    }
}

// The header and these pairs as text.
fn export_text(alloc: Global, pairs: &Run<'_, (Name, Name)>) -> Result<Vec<u8>, Refusal>
    ensures text { IfOk result (λ text. text.items ≡ export pairs.now) }
    ensures cause { IfErr result (λ refusal. refusal ≡ Refusal.Memory) }
{
    let mut writer = WriterBuilder::new().from_writer(Vec::new(alloc));
    write_pair(&mut writer, "user", "role")?;
    for pair in pairs.iter() {
        write_pair(&mut writer, pair.0.as_str(), pair.1.as_str())?;
    }
    match writer.into_inner() {
        Ok(text) => Ok(text),
        Err(_) => Err(Refusal::Memory),
    }
}

// Writes a record of two fields.
#[tactic(auto, unfolding(crate::specs::Export::line_of))]
fn write_pair(writer: &mut Writer<Vec<u8>>, user: &str, role: &str) -> Result<(), Refusal>
    requires ended { fields_written writer.old ≡ 0 }
    requires clean { has_written writer.old ≡ false }
    requires plain { writer_setup writer.old ≡ default_writer }
    ensures ended { OnOk result (fields_written writer.new ≡ 0) }
    ensures clean { OnOk result (has_written writer.new ≡ false) }
    ensures plain { OnOk result (writer_setup writer.new ≡ default_writer) }
    ensures text { OnOk result (Appends (writer_bytes writer.old) (writer_bytes writer.new) (line_of (user.now, role.now))) }
    ensures cause { IfErr result (λ refusal. refusal ≡ Refusal.Memory) }
{
    match writer.write_fields(&[user.as_bytes(), role.as_bytes()]) {
        Ok(()) => Ok(()),
        Err(_) => Err(Refusal::Memory),
    }
}
