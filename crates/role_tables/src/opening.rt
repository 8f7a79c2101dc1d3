//! Opens an office.
ghost use Rattle.std.specs.Prelude.{◌≡◌, ◌⊎◌, [], false, true, IfErr, IfOk, IsTrue, MatchResult};
ghost use Rattle.sqlite.specs.State.{HasCleanDisk, Survives};
ghost use Rattle.sqlite.specs.Held.{state};
ghost use Rattle.role_tables.specs.TableContents.{contents_of};
ghost use Rattle.role_tables.specs.OpeningChecks.{is_opening_refusal, IsMemoryOrStore, ReadsState, RefusesContents};
ghost use Rattle.role_tables.specs.Runs.{IsInRun};
ghost use Rattle.role_tables.specs.Durability.{HoldsAsBefore, LeavesOnly, IsDurable, StaysOutside, WhateverIsDurable};

use crate::content_checks::read_state;
use crate::office::Office;
use admin_mgr::State;
use rbac_sets::Refusal;
use sqlite::{Alter, Connection};
use std::alloc::Global;

/// The connection of a refused creation, opening or migration, handed back, and the refusal.
#[derive(Drop)]
pub struct Unopened<S: Alter> {
    /// Why the call was refused.
    pub refusal: Refusal,
    /// The connection, as the refused call left it.
    pub conn: Connection<S>,
}

// The refusal for which a state that was made is given up.
pub(crate) fn give_up(_state: State, refusal: Refusal) -> Refusal
    ensures { result ≡ refusal }
{
    refusal
}

/// Opens the office that the tables of a connection outside a transaction hold, however these tables
/// were created. No row is changed. `alloc` is the allocator of the office's state.
///
/// It is a function of this office and none of the standard.
///
/// # Errors
///
/// `Store` if the connection is inside a transaction, or if the store fails in a call. Otherwise, in this
/// order: `NotAnOffice` if one of the five tables of both versions or a column of it is missing, or if no
/// row of `meta_row` has the tag of an office; `Version` if the version in such a row is a whole number
/// other than 1 and 2 (the least of them is reported); `NotAnOffice` if such a row has version 2 and the
/// table of locks or its column is missing; `Damaged(1)` if a value is not of its column's type, a kind is
/// unknown, a cardinality doesn't fit a u32, or `meta_row` has a second row; `Damaged(2)` if a text is no
/// valid name; then what `State::of_rows` refuses the rows for. `Memory` may replace any of these.
pub fn open<S: Alter>(alloc: Global, conn: Connection<S>) -> Result<Office<S>, Unopened<S>>
    ensures ok { IfOk result (λ o. (o.is_closed ≡ false) × ((state S.Store conn).in_transaction ≡ false)
        × (HasCleanDisk (state S.Store o.conn) → ReadsState (state S.Store conn) (state S.Store o.conn) o.facts)) }
    ensures refusal { IfErr result (λ u. IsTrue (is_opening_refusal u.refusal)) }
    ensures err { IfErr result (λ u. HasCleanDisk (state S.Store u.conn) → (u.refusal ≡ Refusal.Store) ⊎ RefusesContents (contents_of (state S.Store conn).now) u.refusal) }
    ensures inside { IfErr result (λ u. (state S.Store conn).in_transaction ≡ true → (u.refusal ≡ Refusal.Store) × (u.conn ≡ conn)) }
    ensures outside { IfErr result (λ u. StaysOutside (state S.Store conn) (state S.Store u.conn)) }
    ensures undone { IfErr result (λ u. HasCleanDisk (state S.Store u.conn) → HoldsAsBefore (state S.Store conn) (state S.Store u.conn)) }
    ensures survives { MatchResult result (λ o. Survives (state S.Store conn) (state S.Store o.conn) (λ _. ⊥)) (λ u. Survives (state S.Store conn) (state S.Store u.conn) (λ _. ⊥)) }
    ensures again { IfOk result (λ o. HasCleanDisk (state S.Store o.conn) → WhateverIsDurable (state S.Store conn) (λ before. (o.facts ≡ before) × IsDurable (state S.Store o.conn) before)) }
    ensures run { IfOk result (λ o. HasCleanDisk (state S.Store o.conn) → WhateverIsDurable (state S.Store conn) (λ before. IsInRun (state S.Store) before [] o)) }
    ensures refused { IfErr result (λ u. HasCleanDisk (state S.Store u.conn) →
        WhateverIsDurable (state S.Store conn) (λ before. IsMemoryOrStore u.refusal × LeavesOnly (state S.Store u.conn) before)) }
{
    let mut conn = conn;
    if !conn.is_autocommit() {
        return Err(Unopened {
            refusal: Refusal::Store,
            conn,
        });
    }
    match read_state(alloc, &mut conn) {
        Ok(state) => Ok(Office::new(conn, state)),
        Err(refusal) => Err(Unopened { refusal, conn }),
    }
}
