//! The role report.
ghost use Rattle.std.specs.Prelude.{Err, IsTrue, ◌≡◌, ◌⊎◌, ◌++◌, ℕ, List, ◌≤◌, length, true, string_bytes, IfOk, IfErr, OnOk, OnErr};
ghost use Rattle.std.specs.Io.KnownBytes.{Appends};
ghost use Rattle.rbac_sets.specs.Sets.{Triple, contains, count, len, members, same_name};
ghost use Rattle.rbac_sets.specs.Stream.{HasRisen};
ghost use Rattle.role_order.specs.Order.{juniors, seniors};
ghost use Rattle.order_matrix.specs.Table.{number_in};
ghost use Rattle.admin_mgr.specs.Authorization.{authorized_permissions, authorized_users};
ghost use Rattle.review_mgr.specs.private.Numbering.{IsNumbering};
ghost use Rattle.review_mgr.specs.Report.{column, counts_of, line_of, report};
ghost use Rattle.review_mgr.specs.Review.{assigned_users};

use admin_mgr::State;
use chunked_sets::EntrySet;
use counting::{count_number, count_runs_above, count_runs_below, count_runs_with};
use numbering::Numbers;
use order_matrix::number;
use rbac_sets::{Fault, Name, Refusal, Sink, write_all};
use std::alloc::Global;

mod counting;
mod numbering;

/// The heading of the role report.
const HEADING: &str =
    "    assigned  authorized     granted   permitted     juniors     seniors  role\n";

// A number, right-aligned in twelve places.
fn column(alloc: Global, number: u64) -> Result<String, Refusal>
    ensures ok { IfOk result (λ text. string_bytes text ≡ column number) }
    ensures cause { IfErr result (λ refusal. refusal ≡ Refusal.Memory) }
{
    Ok(format!(in alloc; "{number:>12}")?)
}

// The number of the role.
fn number_of(state: &State, role: &Name) -> usize
    ensures { result ≡ number_in (members state.now.facts.roles) role.now }
{
    number(state.roles().as_slice(), role)
}

// How many users are assigned to the role.
fn count_assigned(state: &State, numbers: &Numbers<'_>, role: &Name) -> u64
    requires numbering { IsNumbering state.now.facts numbers.now }
    requires role { IsTrue (contains state.now.facts.roles role.now) }
    ensures { result ≡ len (assigned_users state.now.facts role.now) }
{
    state.recall_good();
    count_runs_with(&numbers.assigned, number_of(state, role))
}

// How many users are authorized for the role.
fn count_authorized(state: &State, numbers: &Numbers<'_>, role: &Name) -> u64
    requires numbering { IsNumbering state.now.facts numbers.now }
    requires role { IsTrue (contains state.now.facts.roles role.now) }
    ensures { result ≡ len (authorized_users state.now.facts role.now) }
{
    state.recall_good();
    count_runs_above(&numbers.table, &numbers.assigned, number_of(state, role))
}

// How many permissions are granted to the role directly.
fn count_granted(state: &State, numbers: &Numbers<'_>, role: &Name) -> u64
    requires numbering { IsNumbering state.now.facts numbers.now }
    requires role { IsTrue (contains state.now.facts.roles role.now) }
    ensures { result ≡ count (λ (grant : Triple). same_name grant.2 role.now) state.now.facts.grants }
{
    state.recall_good();
    count_number(&numbers.grants, number_of(state, role))
}

// How many permissions the role has, by its own grants and those of its juniors.
fn count_permitted(state: &State, numbers: &Numbers<'_>, role: &Name) -> u64
    requires numbering { IsNumbering state.now.facts numbers.now }
    requires role { IsTrue (contains state.now.facts.roles role.now) }
    ensures { result ≡ len (authorized_permissions state.now.facts role.now) }
{
    state.recall_good();
    count_runs_below(&numbers.table, &numbers.granted, number_of(state, role))
}

// How many juniors the role has.
fn count_juniors(state: &State, role: &Name) -> u64
    ensures { result ≡ len (juniors state.now.facts.edges role.now) }
{
    state.order().pairs().entries_with_first(role).len() as u64
}

// How many seniors the role has. The matrix counts the role itself with them.
fn count_seniors(state: &State, numbers: &Numbers<'_>, role: &Name) -> u64
    requires numbering { IsNumbering state.now.facts numbers.now }
    requires role { IsTrue (contains state.now.facts.roles role.now) }
    ensures { result ≡ len (seniors state.now.facts.edges role.now) }
{
    state.recall_good();
    let above = numbers.table.count_above(number_of(state, role));
    (above - 1) as u64
}

// The line of a role with these numbers.
fn text_of(alloc: Global, counts: &[u64], role: &Name) -> Result<String, Refusal>
    ensures ok { IfOk result (λ text. string_bytes text ≡ counts_of counts.now role.now) }
    ensures cause { IfErr result (λ refusal. refusal ≡ Refusal.Memory) }
{
    let mut text = String::new(alloc);
    for number in counts {
        text.push_str(column(alloc, *number)?.as_str())?;
    }
    text.push_str("  ")?;
    text.push_str(role.as_str())?;
    text.push_str("\n")?;
    Ok(text)
}

// The line of a role.
#[tactic(auto, unfolding(crate::specs::Report::line_of))]
fn line_of(
    alloc: Global,
    state: &State,
    numbers: &Numbers<'_>,
    role: &Name,
) -> Result<String, Refusal>
    requires numbering { IsNumbering state.now.facts numbers.now }
    requires role { IsTrue (contains state.now.facts.roles role.now) }
    ensures ok { IfOk result (λ text. string_bytes text ≡ line_of state.now.facts role.now) }
    ensures cause { IfErr result (λ refusal. refusal ≡ Refusal.Memory) }
{
    let counts = [
        count_assigned(state, numbers, role),
        count_authorized(state, numbers, role),
        count_granted(state, numbers, role),
        count_permitted(state, numbers, role),
        count_juniors(state, role),
        count_seniors(state, numbers, role),
    ];
    text_of(alloc, &counts, role)
}

/// Writes the role report: a heading line, then one line for each role in byte order. A line has
/// six numbers, each right-aligned in twelve places, and the role: how many users are assigned to
/// the role, how many are authorized for it, how many permissions are granted to it directly, how
/// many it has, and how many juniors and seniors it has.
///
/// # Errors
///
/// `Store` if a write to the sink failed, or accepted no byte. `Memory` if allocation failed. In both
/// cases only a start of the report was written, or nothing of it.
pub fn report_roles<W: Sink>(alloc: Global, state: &State, sink: &mut W) -> Result<(), Refusal>
    ensures ok { OnOk result (Appends (W.written sink.old) (W.written sink.new) (report state.now.facts)) }
    ensures part { OnErr result ((part rest : List ℕ) × (report state.now.facts ≡ part ++ rest) × (1 ≤ length rest) × Appends (W.written sink.old) (W.written sink.new) part) }
    ensures cause { IfErr result (λ refusal. (refusal ≡ Refusal.Memory) ⊎ (refusal ≡ Refusal.Store)) }
    ensures store { result ≡ Err Refusal.Store → HasRisen (W.failed sink.old) (W.failed sink.new) ⊎ HasRisen (W.idle sink.old) (W.idle sink.new) }
{
    let numbers = Numbers::new(alloc, state)?;
    write_text(sink, HEADING)?;
    for role in state.roles().as_slice() {
        let line = line_of(alloc, state, &numbers, role)?;
        write_text(sink, line.as_str())?;
    }
    Ok(())
}

// Writes a text.
fn write_text<W: Sink>(sink: &mut W, text: &str) -> Result<(), Refusal>
    ensures ok { OnOk result (Appends (W.written sink.old) (W.written sink.new) text.now) }
    ensures part { OnErr result ((part rest : List ℕ) × (text.now ≡ part ++ rest) × (1 ≤ length rest) × Appends (W.written sink.old) (W.written sink.new) part) }
    ensures failures { W.failed sink.old ≤ W.failed sink.new }
    ensures cause { IfErr result (λ refusal. refusal ≡ Refusal.Store) }
    ensures idle { W.idle sink.old ≤ W.idle sink.new }
    ensures store { OnErr result (HasRisen (W.failed sink.old) (W.failed sink.new) ⊎ HasRisen (W.idle sink.old) (W.idle sink.new)) }
{
    match write_all(sink, text.as_bytes()) {
        Ok(()) => Ok(()),
        Err(Fault) => Err(Refusal::Store),
    }
}
