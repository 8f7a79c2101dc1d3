//! An office over its tables.
ghost use Rattle.std.specs.Prelude.{◌≡◌, ◌∷◌, [], false, IsTrue, is_err, Err, OnOk, IfOk, IfErr};
ghost use Rattle.sqlite.specs.Held.{state};
ghost use Rattle.admin_mgr.specs.After.{after};
ghost use Rattle.admin_mgr.specs.Good.{IsGood};
ghost use Rattle.admin_mgr.specs.StateNames.{AreNamed};
ghost use Rattle.role_tables.specs.Office.{AnswersCommand, IfWasDurable, event_of};
ghost use Rattle.role_tables.specs.Runs.{GoesOnBy};
ghost use Rattle.role_tables.specs.Durability.{ForgetsNoFault, HoldsAsBefore, LeavesByEvents, IsDurable};

use crate::writing::write_changes;
use admin_mgr::{Report, State};
use rbac_sets::{Command, Refusal};
use sqlite::{Alter, Connection};
use std::alloc::Global;
use std::marker::Model;

/// An office: the state of an organisation's users, roles, permissions and sessions, in memory and in
/// the tables of a store.
///
/// It is closed once the store has failed in a call. The stored state is then the state before the
/// command or the state after it, and only a new opening shows which.
#[derive(Drop)]
pub struct Office<S: Alter> {
    conn: Connection<S>,
    state: State,
    is_closed: bool,
}

impl<S: Alter> Model for Office<S> {
    ghost use Rattle.std.specs.Prelude.{◌≡◌, false};
    ghost use Rattle.admin_mgr.specs.Good.{IsGood};
    ghost use Rattle.admin_mgr.specs.StateNames.{AreNamed};
    ghost use Rattle.role_tables.specs.Office.{OfficeModel, coded_office};

    ghost Value = { OfficeModel S };

    ghost coded = { coded_office S.code };

    ghost view = { λ o. record { conn = o.conn; facts = o.state.facts; is_closed = o.is_closed } };

    ghost invariant = { λ o. (o.conn.in_transaction ≡ false) × IsGood o.state.facts × AreNamed o.state.facts };
}

impl<S: Alter> Office<S> {
    // The office of a connection and the state that its tables hold.
    pub(crate) fn new(conn: Connection<S>, state: State) -> Office<S>
        requires { conn.in_transaction ≡ false }
        ensures { (result.conn ≡ conn) × (result.facts ≡ state.facts) × (result.is_closed ≡ false) }
    {
        state.recall_good();
        state.recall_names();
        Office {
            conn,
            state,
            is_closed: false,
        }
    }

    /// Does a command: an administrative command or supporting system function of the standard, or one of
    /// this office's own. Its changes are written to the tables in one transaction, and then made in the
    /// state in memory.
    ///
    /// What the command needs is allocated from `alloc`. The report is that of an import; it is zero and
    /// empty for any other command.
    ///
    /// # Errors
    ///
    /// `Closed` if the office is closed; nothing is changed. Otherwise the first refusal of the command that
    /// applies, or `Memory` if an allocation failed: state and tables are as before. `Store` if the store
    /// failed in a call, and the office is closed: the open tables hold what they held before, and a
    /// crash leaves the state before the command or the state after it.
    pub fn apply(&mut self, alloc: Global, command: &Command) -> Result<Report, Refusal>
        ensures closed { IsTrue self.old.is_closed → (result ≡ Err Refusal.Closed) × (self.new ≡ self.old) }
        ensures answers { self.old.is_closed ≡ false → AnswersCommand self.old command.now result self.new }
        ensures clean { ForgetsNoFault (state S.Store self.old.conn) (state S.Store self.new.conn) }
        ensures done { IfWasDurable S.Store self.old self.new (OnOk result (IsDurable (state S.Store self.new.conn) (after self.old.facts command.now))) }
        ensures undone { IfWasDurable S.Store self.old self.new (IfErr result (λ _. HoldsAsBefore (state S.Store self.old.conn) (state S.Store self.new.conn))) }
        ensures crash { IfWasDurable S.Store self.old self.new (LeavesByEvents (state S.Store self.new.conn) self.old.facts (event_of command.now result ∷ [])) }

        // So the texts of each state that a crash may leave are valid names, as the next opening requires.
        ensures named { result ≡ Err Refusal.Store → AreNamed (after self.old.facts command.now) }

        // All of this together: the call adds one event to whatever run the office is in.
        ensures run { GoesOnBy (state S.Store) self.old (event_of command.now result) self.new }
    {
        if self.is_closed {
            return Err(Refusal::Closed);
        }
        let plan = self.state.plan(alloc, command)?;
        plan.recall_names();
        self.state.make_room(&plan)?;
        match write_changes(&mut self.conn, plan.changes()) {
            Ok(()) => {
                let report = self.state.commit(plan);
                self.state.recall_good();
                self.state.recall_names();
                Ok(report)
            }
            Err(_) => {
                self.is_closed = true;
                Err(Refusal::Store)
            }
        }
    }

    /// The state of an open office. It doesn't allocate.
    ///
    /// # Errors
    ///
    /// `Closed` if the office is closed.
    pub fn state(&self) -> Result<&State, Refusal>
        ensures open { self.now.is_closed ≡ false → IfOk result (λ s. s.now.facts ≡ self.now.facts) }
        ensures refused { is_err result ≡ self.now.is_closed }
        ensures cause { IfErr result (λ refusal. refusal ≡ Refusal.Closed) }
    {
        if self.is_closed {
            return Err(Refusal::Closed);
        }
        Ok(&self.state)
    }

    /// The law of the type, for one office, closed or not: its state is good, and its names are valid.
    ///
    /// Like `State::recall_good` it does nothing and returns nothing when it runs.
    pub fn recall_good(&self)
        ensures { IsGood self.now.facts × AreNamed self.now.facts }
    {
        self.state.recall_good();
        self.state.recall_names();
    }

    /// Whether the store has failed in a call, so that the office is closed. It doesn't allocate.
    pub fn is_closed(&self) -> bool
        ensures { result ≡ self.now.is_closed }
    {
        self.state().is_err()
    }

    /// Returns the connection as it is, of a closed office too. It doesn't allocate.
    pub fn into_connection(self) -> Connection<S>
        ensures same { result ≡ self.conn }
        ensures autocommit { result.in_transaction ≡ false }
    {
        let Office {
            conn,
            state: _,
            is_closed: _,
        } = self;
        conn
    }
}
