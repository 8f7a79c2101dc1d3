//! The functions that C calls. library/rbac.h says in words what each does. A call changes nothing of a buffer behind what it
//! writes, and nothing at all of one if it is refused.
ghost use base.Fml.{Lft, Share};
ghost use types.Logic.{sem};
ghost use Rattle.std.specs.Prelude.{◌≡◌, ◌⊎◌, ◌<◌, Some, None, IfOk, IfErr, length, take};
ghost use Rattle.admin_mgr.specs.RbacState.{empty_state};
ghost use Rattle.bit_tables.specs.Seed.{seed_with};
ghost use Rattle.role_lines.specs.OfficeInMemory.{OfficeInMemory, starting};
ghost use Rattle.role_lines.specs.contracts.office.MemoryOffice.{the_row};
ghost use Rattle.role_lines.specs.StoredRow.{parts};
ghost use Rattle.rbac_c.specs.Calls.{AddsRow, AnswersCall, Copies, CopiesKept, CopiesParts, CopiesRow, CopiesRows, Decided, IsDecided, IsRefused, Loads};
ghost use Rattle.rbac_c.specs.Conflicts.{CopiesActivation, CopiesAssignment, CopiesCreation, CopiesInheritance, divided};
ghost use Rattle.rbac_c.specs.Held.{reads};
ghost use Rattle.rbac_c.specs.Range.{FindsRange};
ghost use Rattle.rbac_c.specs.Reasons.{ExplainsSession, ExplainsUser};
ghost use Rattle.rbac_c.specs.Results.{done, no_memory};

use crate::conflicts::{copy_activation, copy_assignment, copy_creation, copy_inheritance};
use crate::copying::{copy, copy_row, copy_rows};
use crate::explaining::{reason_row, session_reason, session_reason_row, user_reason};
use crate::handle::OfficeHandle;
use crate::range::range;
use bit_tables::Seed;
use rbac_sets::Refusal;
use role_lines::{MemoryOffice, row_at, row_of, rows_from, table_numbered};
use std::alloc::Global;
use std::mem::replace;

/// What a call returns if it was done.
pub const DONE: u32 = 0;

/// What a call returns if a name isn't one: the code of `BadName`.
pub const BAD_NAME: u32 = 1;

/// What a call returns if an allocation failed: the code of `Memory`.
pub const MEMORY: u32 = 40;

/// What a call returns if the handle has no office: the code of `Closed`.
pub const CLOSED: u32 = 42;

/// What a call returns if a text is longer than the buffer.
pub const SHORT: u32 = 60;

/// What a call returns if there is no such table, or no such row in it.
pub const ABSENT: u32 = 61;

/// The lengths of the names of a row, and its number.
#[repr(C)]
#[derive(Clone, Copy)]
pub struct RowLengths {
    pub first: usize,
    pub second: usize,
    pub third: usize,
    pub number: u32,
}

/// Makes a new and empty office of version 2. If the handle has an office already, that one is freed. The two numbers should
/// be random: names are hashed by them for decisions, so that nobody who doesn't know them can choose names that collide.
#[unsafe(no_mangle)]
pub extern "C" fn rbac_office_open(
    alloc: Global,
    office: &mut OfficeHandle,
    first: u64,
    second: u64,
) -> u32
    ensures opened { result ≡ done → office.new.office ≡ Some (starting (empty_state 2) (seed_with first second) 0) }
    ensures failed { (result ≡ done) ⊎ ((result ≡ no_memory) × (office.new.office ≡ office.old.office)) }
{
    match Box::new(alloc, MemoryOffice::empty(alloc, Seed::new(first, second))) {
        Ok(made) => {
            put(alloc, office, OfficeHandle::of(made));
            DONE
        }
        Err(_) => MEMORY,
    }
}

/// Frees the office. The handle has none then.
#[unsafe(no_mangle)]
pub extern "C" fn rbac_office_close(alloc: Global, office: &mut OfficeHandle)
    ensures { office.new.office ≡ None }
{
    put(alloc, office, OfficeHandle::none());
}

/// Answers a line of JSON, and writes the answer into `out` and its length to `count`. The office keeps the answer.
#[unsafe(no_mangle)]
pub extern "C" fn rbac_office_answer(
    alloc: Global,
    office: &mut OfficeHandle,
    line: &[u8],
    out: &mut [u8],
    count: &mut usize,
) -> u32
    ensures { AnswersCall office.old.office office.new.office line.now out.old out.new count.new result }
{
    *count = 0;
    match replace(office, OfficeHandle::none()).into_box(alloc) {
        Some(mut held) => {
            let result = answer(alloc, &mut held, line, out, count);
            put(alloc, office, OfficeHandle::of(held));
            result
        }
        None => CLOSED,
    }
}

/// Writes the answer that the office keeps into `out`, and its length to `count`. It is empty if the last line had none.
#[unsafe(no_mangle)]
pub extern "C" fn rbac_office_kept_answer(
    alloc: Global,
    office: &mut OfficeHandle,
    out: &mut [u8],
    count: &mut usize,
) -> u32
    ensures keeps { office.new.office ≡ office.old.office }
    ensures copies { CopiesKept office.old.office out.old out.new count.new result }
{
    *count = 0;
    match replace(office, OfficeHandle::none()).into_box(alloc) {
        Some(held) => {
            let result = copy(held.kept_answer(), out, count);
            put(alloc, office, OfficeHandle::of(held));
            result
        }
        None => CLOSED,
    }
}

/// Returns how many commands the office has accepted since it was made. The office is read in its place, so several
/// threads may call this at once.
#[unsafe(no_mangle)]
pub unsafe extern "C" fn rbac_office_revision(office: *const u8) -> u64
    ghost read: { Lft × Share × OfficeInMemory }
    requires* { sem 𝓛 (reads the_row office read.0 read.1 read.2) }
    ensures* { sem 𝓛 (reads the_row office read.0 read.1 read.2) ∗ ⌜ result ≡ read.2.revision ⌝ }
{
    revision(&*(office as *const MemoryOffice))
}

/// Whether the holder may do the operation on the object: 1 or 0, or minus the code of the refusal. The holder is a
/// session, or with `of_user` a user, who may do it if some session of the user could. The office is read in its place,
/// so several threads may call this at once.
#[unsafe(no_mangle)]
pub unsafe extern "C" fn rbac_office_check(
    office: *const u8,
    of_user: bool,
    holder: &[u8],
    operation: &[u8],
    object: &[u8],
) -> i32
    ghost read: { Lft × Share × OfficeInMemory }
    requires* { sem 𝓛 (reads the_row office read.0 read.1 read.2) }
    ensures* { sem 𝓛 (reads the_row office read.0 read.1 read.2) ∗ ⌜ Decided read.2 of_user holder.now operation.now object.now result ⌝ }
{
    check(
        &*(office as *const MemoryOffice),
        of_user,
        holder,
        operation,
        object,
    )
}

/// Says why the user may do the operation on the object in some session, or why not: writes the names of the reason into
/// `out`, one after the other, and their lengths and the number of the reason to `lengths`. The reasons are numbered by
/// the constants in `explaining`. Returns the code of the refusal if there is no decision.
#[unsafe(no_mangle)]
pub extern "C" fn rbac_office_explain_user(
    alloc: Global,
    office: &mut OfficeHandle,
    user: &[u8],
    operation: &[u8],
    object: &[u8],
    out: &mut [u8],
    lengths: &mut RowLengths,
) -> u32
    ensures keeps { office.new.office ≡ office.old.office }
    ensures explains { ExplainsUser office.old.office user.now operation.now object.now (out.old, lengths.old) (out.new, lengths.new) result }
{
    match replace(office, OfficeHandle::none()).into_box(alloc) {
        Some(held) => {
            let result = explain_user(&held, user, operation, object, out, lengths);
            put(alloc, office, OfficeHandle::of(held));
            result
        }
        None => CLOSED,
    }
}

/// Says why the session may do the operation on the object, or why not, as `rbac_office_explain_user` does for a user.
#[unsafe(no_mangle)]
pub extern "C" fn rbac_office_explain_session(
    alloc: Global,
    office: &mut OfficeHandle,
    session: &[u8],
    operation: &[u8],
    object: &[u8],
    out: &mut [u8],
    lengths: &mut RowLengths,
) -> u32
    ensures keeps { office.new.office ≡ office.old.office }
    ensures explains { ExplainsSession office.old.office session.now operation.now object.now (out.old, lengths.old) (out.new, lengths.new) result }
{
    match replace(office, OfficeHandle::none()).into_box(alloc) {
        Some(held) => {
            let result = explain_session(&held, session, operation, object, out, lengths);
            put(alloc, office, OfficeHandle::of(held));
            result
        }
        None => CLOSED,
    }
}

/// Writes the names of the static separation of duty sets that would be violated if the user were assigned to the role into
/// `out`, one after the other, and their lengths to `lengths`: the sets from this place on of all of them, in byte order, as
/// many as there is room for in both. `count` gets how many these are, and `total` how many there are in all. Returns the code
/// of the refusal if there is no such user or role; both are 0 then.
#[unsafe(no_mangle)]
pub extern "C" fn rbac_office_assignment_conflicts(
    alloc: Global,
    office: &mut OfficeHandle,
    user: &[u8],
    role: &[u8],
    index: usize,
    out: &mut [u8],
    lengths: &mut [RowLengths],
    count: &mut usize,
    total: &mut usize,
) -> u32
    ensures keeps { office.new.office ≡ office.old.office }
    ensures copies { CopiesAssignment office.old.office user.now role.now index (out.old, lengths.old) (out.new, lengths.new) (record { count = count.new; total = total.new; code = result }) }
{
    *count = 0;
    *total = 0;
    match replace(office, OfficeHandle::none()).into_box(alloc) {
        Some(held) => {
            let result = copy_assignment(
                alloc, &held, user, role, index, out, lengths, count, total,
            );
            put(alloc, office, OfficeHandle::of(held));
            result
        }
        None => CLOSED,
    }
}

/// The same for the dynamic separation of duty sets that would be violated if the role were activated in the user's session.
/// Returns the code of the refusal if there is no such user, session or role, or the session isn't the user's, or the user
/// isn't authorized for the role.
#[unsafe(no_mangle)]
pub extern "C" fn rbac_office_activation_conflicts(
    alloc: Global,
    office: &mut OfficeHandle,
    user: &[u8],
    session: &[u8],
    role: &[u8],
    index: usize,
    out: &mut [u8],
    lengths: &mut [RowLengths],
    count: &mut usize,
    total: &mut usize,
) -> u32
    ensures keeps { office.new.office ≡ office.old.office }
    ensures copies { CopiesActivation office.old.office user.now session.now role.now index (out.old, lengths.old) (out.new, lengths.new)
        (record { count = count.new; total = total.new; code = result }) }
{
    *count = 0;
    *total = 0;
    match replace(office, OfficeHandle::none()).into_box(alloc) {
        Some(held) => {
            let result = copy_activation(
                alloc, &held, user, session, role, index, out, lengths, count, total,
            );
            put(alloc, office, OfficeHandle::of(held));
            result
        }
        None => CLOSED,
    }
}

/// The same for the static separation of duty sets that would be violated if `asc` became an immediate ascendant of `desc`:
/// each row has the set, and the first user who would violate it. With `of_sessions` they are the dynamic sets, each with the
/// first session. Returns the code of the refusal if there is no such role, or the inheritance would make a cycle.
#[unsafe(no_mangle)]
pub extern "C" fn rbac_office_inheritance_conflicts(
    alloc: Global,
    office: &mut OfficeHandle,
    of_sessions: bool,
    asc: &[u8],
    desc: &[u8],
    index: usize,
    out: &mut [u8],
    lengths: &mut [RowLengths],
    count: &mut usize,
    total: &mut usize,
) -> u32
    ensures keeps { office.new.office ≡ office.old.office }
    ensures copies { CopiesInheritance office.old.office of_sessions asc.now desc.now index (out.old, lengths.old) (out.new, lengths.new)
        (record { count = count.new; total = total.new; code = result }) }
{
    *count = 0;
    *total = 0;
    match replace(office, OfficeHandle::none()).into_box(alloc) {
        Some(held) => {
            let result = copy_inheritance(
                alloc,
                &held,
                of_sessions,
                asc,
                desc,
                index,
                out,
                lengths,
                count,
                total,
            );
            put(alloc, office, OfficeHandle::of(held));
            result
        }
        None => CLOSED,
    }
}

/// The same for the dynamic separation of duty sets that a new session of the user with these roles would violate: each row
/// has the set, and a role of it that the session would have. The names of the roles stand in `roles` one after the other, and
/// `role_lengths` has their lengths. Returns the code of the refusal if there is no such user or role, or the user isn't
/// authorized for one of them or is locked.
#[unsafe(no_mangle)]
pub extern "C" fn rbac_office_creation_conflicts(
    alloc: Global,
    office: &mut OfficeHandle,
    user: &[u8],
    roles: &[u8],
    role_lengths: &[usize],
    index: usize,
    out: &mut [u8],
    lengths: &mut [RowLengths],
    count: &mut usize,
    total: &mut usize,
) -> u32
    ensures keeps { office.new.office ≡ office.old.office }
    ensures copies { CopiesCreation office.old.office user.now (divided roles.now role_lengths.now) index (out.old, lengths.old) (out.new, lengths.new)
        (record { count = count.new; total = total.new; code = result }) }
{
    *count = 0;
    *total = 0;
    match replace(office, OfficeHandle::none()).into_box(alloc) {
        Some(held) => {
            let result = copy_creation(
                alloc,
                &held,
                user,
                roles,
                role_lengths,
                index,
                out,
                lengths,
                count,
                total,
            );
            put(alloc, office, OfficeHandle::of(held));
            result
        }
        None => CLOSED,
    }
}

/// Writes to `start` how many rows of the table have a first name that is less than these bytes, and to `end` how many have
/// one that isn't greater. So the rows with this first name are those from `start` on, up to the one before `end`.
#[unsafe(no_mangle)]
pub extern "C" fn rbac_office_range(
    alloc: Global,
    office: &mut OfficeHandle,
    table: u32,
    first: &[u8],
    start: &mut usize,
    end: &mut usize,
) -> u32
    ensures keeps { office.new.office ≡ office.old.office }
    ensures finds { FindsRange office.old.office table first.now start.new end.new result }
{
    *start = 0;
    *end = 0;
    match replace(office, OfficeHandle::none()).into_box(alloc) {
        Some(held) => {
            let result = find_range(&held, table, first, start, end);
            put(alloc, office, OfficeHandle::of(held));
            result
        }
        None => CLOSED,
    }
}

/// Writes the names of the row at this place of the table into `out`, one after the other, and their lengths and the
/// number of the row to `lengths`. The tables are numbered as in `rbac_sets::Table`.
#[unsafe(no_mangle)]
pub extern "C" fn rbac_office_row(
    alloc: Global,
    office: &mut OfficeHandle,
    table: u32,
    index: usize,
    out: &mut [u8],
    lengths: &mut RowLengths,
) -> u32
    ensures keeps { office.new.office ≡ office.old.office }
    ensures copies { CopiesRow office.old.office table index (out.old, lengths.old) (out.new, lengths.new) result }
{
    match replace(office, OfficeHandle::none()).into_box(alloc) {
        Some(held) => {
            let result = row(&held, table, index, out, lengths);
            put(alloc, office, OfficeHandle::of(held));
            result
        }
        None => CLOSED,
    }
}

/// Writes the names of the rows from this place of the table on into `out`, one after the other, and their lengths and
/// numbers to `lengths`: as many rows as there are, and as there is room for in both. `count` gets how many these are.
#[unsafe(no_mangle)]
pub extern "C" fn rbac_office_rows(
    alloc: Global,
    office: &mut OfficeHandle,
    table: u32,
    index: usize,
    out: &mut [u8],
    lengths: &mut [RowLengths],
    count: &mut usize,
) -> u32
    ensures keeps { office.new.office ≡ office.old.office }
    ensures copies { CopiesRows office.old.office table index (out.old, lengths.old) (out.new, lengths.new) count.new result }
{
    *count = 0;
    match replace(office, OfficeHandle::none()).into_box(alloc) {
        Some(held) => {
            let result = rows(&held, table, index, out, lengths, count);
            put(alloc, office, OfficeHandle::of(held));
            result
        }
        None => CLOSED,
    }
}

/// Adds a row to those of which `rbac_office_load` makes an office.
#[unsafe(no_mangle)]
pub extern "C" fn rbac_office_add_row(
    alloc: Global,
    office: &mut OfficeHandle,
    table: u32,
    first: &[u8],
    second: &[u8],
    third: &[u8],
    number: u32,
) -> u32
    ensures { AddsRow office.old.office office.new.office table (parts first.now second.now third.now number) result }
{
    match replace(office, OfficeHandle::none()).into_box(alloc) {
        Some(mut held) => {
            let result = add_row(alloc, &mut held, table, first, second, third, number);
            put(alloc, office, OfficeHandle::of(held));
            result
        }
        None => CLOSED,
    }
}

/// Has the office start again with the rows that were added, and with this revision. Returns the code of the refusal if
/// the rows aren't those of an office.
#[unsafe(no_mangle)]
pub extern "C" fn rbac_office_load(alloc: Global, office: &mut OfficeHandle, revision: u64) -> u32
    ensures { Loads office.old.office office.new.office revision result }
{
    match replace(office, OfficeHandle::none()).into_box(alloc) {
        Some(mut held) => {
            let result = load(alloc, &mut held, revision);
            put(alloc, office, OfficeHandle::of(held));
            result
        }
        None => CLOSED,
    }
}

// Puts another handle in place of this one, whose office is freed.
fn put(alloc: Global, office: &mut OfficeHandle, new: OfficeHandle)
    ensures { office.new.office ≡ new.office }
{
    let old = replace(office, new);
    drop(old.into_box(alloc));
}

// Has the office answer the line, and copies the answer.
fn answer(
    alloc: Global,
    office: &mut MemoryOffice,
    line: &[u8],
    out: &mut [u8],
    count: &mut usize,
) -> u32
    ensures { AnswersCall (Some office.old) (Some office.new) line.now out.old out.new count.new result }
{
    *count = 0;
    match office.answer(alloc, line) {
        Ok(()) => copy(office.kept_answer(), out, count),
        Err(_) => MEMORY,
    }
}

// How many commands the office has accepted.
fn revision(office: &MemoryOffice) -> u64
    ensures { result ≡ office.now.revision }
{
    office.revision()
}

// The number that stands for the decision about the holder.
fn check(
    office: &MemoryOffice,
    of_user: bool,
    holder: &[u8],
    operation: &[u8],
    object: &[u8],
) -> i32
    ensures { Decided office.now of_user holder.now operation.now object.now result }
{
    match decide_about(office, of_user, holder, operation, object) {
        Ok(true) => 1,
        Ok(false) => 0,
        Err(refusal) => -(refusal.code() as i32),
    }
}

// The decision about the holder, which is a user or a session.
fn decide_about(
    office: &MemoryOffice,
    of_user: bool,
    holder: &[u8],
    operation: &[u8],
    object: &[u8],
) -> Result<bool, Refusal>
    ensures decided { IfOk result (λ access. IsDecided office.now of_user holder.now operation.now object.now access) }
    ensures refused { IfErr result (λ refusal. IsRefused office.now of_user holder.now operation.now object.now refusal) }
{
    if of_user {
        office.decide_for_user(holder, operation, object)
    } else {
        office.decide(holder, operation, object)
    }
}

// Copies the reason of the decision about the user.
fn explain_user(
    office: &MemoryOffice,
    user: &[u8],
    operation: &[u8],
    object: &[u8],
    out: &mut [u8],
    lengths: &mut RowLengths,
) -> u32
    ensures { ExplainsUser (Some office.now) user.now operation.now object.now (out.old, lengths.old) (out.new, lengths.new) result }
{
    match user_reason(office.state(), user, operation, object) {
        Ok(reason) => copy_row(&reason_row(&reason), out, lengths),
        Err(refusal) => refusal.code(),
    }
}

// Copies the reason of the decision about the session.
fn explain_session(
    office: &MemoryOffice,
    session: &[u8],
    operation: &[u8],
    object: &[u8],
    out: &mut [u8],
    lengths: &mut RowLengths,
) -> u32
    ensures { ExplainsSession (Some office.now) session.now operation.now object.now (out.old, lengths.old) (out.new, lengths.new) result }
{
    match session_reason(office.state(), session, operation, object) {
        Ok(reason) => copy_row(&session_reason_row(&reason), out, lengths),
        Err(refusal) => refusal.code(),
    }
}

// Finds the rows of the table that begin with these bytes.
fn find_range(
    office: &MemoryOffice,
    table: u32,
    first: &[u8],
    start: &mut usize,
    end: &mut usize,
) -> u32
    ensures { FindsRange (Some office.now) table first.now start.new end.new result }
{
    let Some(table) = table_numbered(table) else {
        *start = 0;
        *end = 0;
        return ABSENT;
    };
    let found = range(office.state(), table, first);
    *start = found.0;
    *end = found.1;
    DONE
}

// Copies the row at this place of the table.
fn row(
    office: &MemoryOffice,
    table: u32,
    index: usize,
    out: &mut [u8],
    lengths: &mut RowLengths,
) -> u32
    ensures { CopiesRow (Some office.now) table index (out.old, lengths.old) (out.new, lengths.new) result }
{
    let Some(table) = table_numbered(table) else {
        return ABSENT;
    };
    match row_at(office.state(), table, index) {
        Some(row) => copy_row(&row, out, lengths),
        None => ABSENT,
    }
}

// Copies the rows from this place of the table on.
fn rows(
    office: &MemoryOffice,
    table: u32,
    index: usize,
    out: &mut [u8],
    lengths: &mut [RowLengths],
    count: &mut usize,
) -> u32
    ensures { CopiesRows (Some office.now) table index (out.old, lengths.old) (out.new, lengths.new) count.new result }
{
    let Some(table) = table_numbered(table) else {
        *count = 0;
        return ABSENT;
    };
    *count = copy_rows(rows_from(office.state(), table, index), out, lengths);
    DONE
}

// Adds a row of this table.
fn add_row(
    alloc: Global,
    office: &mut MemoryOffice,
    table: u32,
    first: &[u8],
    second: &[u8],
    third: &[u8],
    number: u32,
) -> u32
    ensures { AddsRow (Some office.old) (Some office.new) table (parts first.now second.now third.now number) result }
{
    let Some(table) = table_numbered(table) else {
        return ABSENT;
    };
    match row_of(alloc, table, first, second, third, number) {
        Ok(row) => match office.add_row(row) {
            Ok(()) => DONE,
            Err(_) => MEMORY,
        },
        Err(refusal) => refusal.code(),
    }
}

// Loads the rows that were added.
fn load(alloc: Global, office: &mut MemoryOffice, revision: u64) -> u32
    ensures { Loads (Some office.old) (Some office.new) revision result }
{
    match office.load(alloc, revision) {
        Ok(()) => DONE,
        Err(refusal) => refusal.code(),
    }
}
