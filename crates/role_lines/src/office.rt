//! An office in memory.
ghost use Rattle.std.specs.Prelude.{◌≡◌, IfOk, IfErr, OnOk};
ghost use Rattle.admin_mgr.specs.RbacState.{empty_state};
ghost use Rattle.admin_mgr.specs.RowChecks.{IsStateOf, RefusesRows};
ghost use Rattle.role_lines.specs.Decision.{Decides, DecidesUser, Refuses, RefusesUser};
ghost use Rattle.role_lines.specs.OfficeInMemory.{StopsAt, after, starting, with_row, without_rows};

use crate::answering::line_verdict;
use crate::indexed::IndexedState;
use admin_mgr::State;
use bit_tables::Seed;
use rbac_sets::{Refusal, Row};
use role_json::answer_text;
use std::alloc::Global;
use std::marker::Model;
use std::mem::replace;

/// An office in memory: its state, how many commands it has accepted, its last answer, and rows for the next load.
#[derive(Drop)]
pub struct MemoryOffice {
    state: IndexedState,
    revision: u64,
    kept: String,
    rows: Vec<Row>,
}

impl Model for MemoryOffice {
    ghost use Rattle.std.specs.Prelude.{string_bytes};
    ghost use Rattle.role_lines.specs.OfficeInMemory.{OfficeInMemory, coded_office};

    ghost Value = { OfficeInMemory };

    ghost coded = { coded_office };

    ghost view = { λ office. record { facts = office.state.facts; seed = office.state.seed; revision = office.revision; kept = string_bytes office.kept; rows = office.rows.items } };
}

impl MemoryOffice {
    /// A new and empty office of version 2. It doesn't allocate.
    ///
    /// The seed should be random: names are hashed by it for decisions.
    pub fn empty(alloc: Global, seed: Seed) -> MemoryOffice
        ensures { result ≡ starting (empty_state 2) seed 0 }
    {
        MemoryOffice {
            state: IndexedState::empty(alloc, seed),
            revision: 0,
            kept: String::new(alloc),
            rows: Vec::new(alloc),
        }
    }

    /// The state of the office.
    pub fn state(&self) -> &State
        ensures { result.now.facts ≡ self.now.facts }
    {
        self.state.state()
    }

    /// CheckAccess: whether the session may do the operation on the object. The three may be any bytes.
    ///
    /// It doesn't allocate.
    ///
    /// # Errors
    ///
    /// Those of `decide`.
    pub fn decide(&self, session: &[u8], operation: &[u8], object: &[u8]) -> Result<bool, Refusal>
        ensures decided { IfOk result (λ access. Decides self.now.facts session.now operation.now object.now access) }
        ensures refused { IfErr result (λ refusal. Refuses self.now.facts session.now operation.now object.now refusal) }
    {
        self.state.decide(session, operation, object)
    }

    /// Whether the user could do the operation on the object in some session. The three may be any bytes.
    ///
    /// It doesn't allocate.
    ///
    /// # Errors
    ///
    /// Those of `decide_for_user`.
    pub fn decide_for_user(
        &self,
        user: &[u8],
        operation: &[u8],
        object: &[u8],
    ) -> Result<bool, Refusal>
        ensures decided { IfOk result (λ access. DecidesUser self.now.facts user.now operation.now object.now access) }
        ensures refused { IfErr result (λ refusal. RefusesUser self.now.facts user.now operation.now object.now refusal) }
    {
        self.state.decide_for_user(user, operation, object)
    }

    /// How many commands the office has accepted.
    pub fn revision(&self) -> u64
        ensures { result ≡ self.now.revision }
    {
        self.revision
    }

    /// The answer to the last line. It is empty if there was none, or if an allocation failed in it.
    pub fn kept_answer(&self) -> &[u8]
        ensures { result.now ≡ self.now.kept }
    {
        self.kept.as_bytes()
    }

    /// Does what a line asks for, or answers its question, and keeps the answer.
    ///
    /// `line` may be any bytes; its line end is not part of it.
    ///
    /// # Errors
    ///
    /// `Memory` if an allocation failed: what the line asks for was done, or nothing was, and the revision shows which. The
    /// office keeps no answer then.
    pub fn answer(&mut self, alloc: Global, line: &[u8]) -> Result<(), Refusal>
        ensures answered { OnOk result (self.new ≡ after self.old line.now) }
        ensures stopped { IfErr result (λ refusal. (refusal ≡ Refusal.Memory) × StopsAt self.old line.now self.new) }
    {
        self.kept = String::new(alloc);
        let verdict = line_verdict(alloc, &mut self.state, &mut self.revision, line)?;
        self.kept = answer_text(alloc, &verdict)?;
        Ok(())
    }

    /// Adds a row to those of which `load` makes a state.
    ///
    /// # Errors
    ///
    /// `Memory` if an allocation failed.
    pub fn add_row(&mut self, row: Row) -> Result<(), Refusal>
        ensures ok { OnOk result (self.new ≡ with_row self.old row) }
        ensures err { IfErr result (λ refusal. (refusal ≡ Refusal.Memory) × (self.new ≡ self.old)) }
    {
        self.rows.push(row)?;
        Ok(())
    }

    /// Replaces the state by the one of version 2 whose rows were added, in any order, and the revision by this one. The
    /// added rows are used up.
    ///
    /// # Errors
    ///
    /// Those of `State::of_rows`. The state stays the same then.
    pub fn load(&mut self, alloc: Global, revision: u64) -> Result<(), Refusal>
        ensures ok { OnOk result ((self.new ≡ starting self.new.facts self.old.seed revision) × IsStateOf 2 self.old.rows self.new.facts) }
        ensures err { IfErr result (λ refusal. (self.new ≡ without_rows self.old) × RefusesRows 2 self.old.rows refusal) }
    {
        let rows = replace(&mut self.rows, Vec::new(alloc));
        let state = IndexedState::of_rows(alloc, self.state.seed(), 2, rows)?;
        self.state = state;
        self.revision = revision;
        self.kept = String::new(alloc);
        Ok(())
    }
}
