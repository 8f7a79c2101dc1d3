//! A state with an index for its decisions.
ghost use Rattle.std.specs.Prelude.{◌≡◌, ◌⊎◌, Some, None, IfSome, IfOk, IfErr, OnOk};
ghost use Rattle.admin_mgr.specs.Changes.{Turns};
ghost use Rattle.admin_mgr.specs.Good.{IsGood};
ghost use Rattle.admin_mgr.specs.PlanEffect.{HasRoomFor, IsPlanOf, LeadsTo};
ghost use Rattle.admin_mgr.specs.RbacState.{RbacState, empty_state};
ghost use Rattle.admin_mgr.specs.RowChecks.{IsStateOf, RefusesRows};
ghost use Rattle.admin_mgr.specs.Verdict.{verdict};
ghost use Rattle.bit_tables.specs.declared.seed.Seed.{Seed as Secret};
ghost use Rattle.access_index.specs.Index.{Indexes, IsSeeded};
ghost use Rattle.role_lines.specs.Decision.{Decides, DecidesUser, Refuses, RefusesUser};
ghost use Rattle.role_lines.specs.StateWithSeed.{without_seed};

use crate::deciding::{decide, decide_for_user};
use access_index::AccessIndex;
use admin_mgr::{Plan, Report, State};
use bit_tables::Seed;
use rbac_sets::{BorrowedName, Change, Command, Refusal, Row};
use std::alloc::Global;
use std::marker::Model;

/// A state with an index, by which decisions are found in a time that doesn't depend on the state's size. If an allocation
/// fails while the index follows a change, there is none from then on, and decisions are made by the state alone. In
/// contracts it is the state, with the secret by which the index finds names.
#[derive(Drop)]
pub struct IndexedState {
    state: State,
    index: Option<AccessIndex>,
    seed: Seed,
}

impl Model for IndexedState {
    ghost use Rattle.std.specs.Prelude.{IfSome};
    ghost use Rattle.access_index.specs.Index.{Indexes, IsSeeded};
    ghost use Rattle.role_lines.specs.StateWithSeed.{StateWithSeed, coded_state_with_seed, with_seed};

    ghost Value = { StateWithSeed };

    ghost coded = { coded_state_with_seed };

    ghost view = { λ indexed. with_seed indexed.state indexed.seed };

    ghost invariant = { λ indexed. IfSome indexed.index (λ index. Indexes index indexed.state.facts × IsSeeded index indexed.seed) };
}

impl IndexedState {
    /// The state of a new office of version 2. It doesn't allocate.
    pub fn empty(alloc: Global, seed: Seed) -> IndexedState
        ensures state { result.facts ≡ empty_state 2 }
        ensures seed { result.seed ≡ seed }
    {
        IndexedState {
            state: State::empty(alloc),
            index: Some(AccessIndex::empty(alloc, seed)),
            seed,
        }
    }

    /// The state that is stored as `rows`, as `State::of_rows` makes it.
    ///
    /// # Errors
    ///
    /// Those of `State::of_rows`.
    pub fn of_rows(
        alloc: Global,
        seed: Seed,
        version: u32,
        rows: Vec<Row>,
    ) -> Result<IndexedState, Refusal>
        requires { (version ≡ 1) ⊎ (version ≡ 2) }
        ensures ok { IfOk result (λ state. IsStateOf version rows.items state.facts) }
        ensures seed { IfOk result (λ state. state.seed ≡ seed) }
        ensures err { IfErr result (λ refusal. RefusesRows version rows.items refusal) }
    {
        let mut index = AccessIndex::of_rows(alloc, seed, &rows).ok();
        let state = State::of_rows(alloc, version, rows)?;
        find_barred(&mut index, alloc, &state);
        Ok(IndexedState { state, index, seed })
    }

    /// The state alone.
    pub fn state(&self) -> &State
        ensures { result.now ≡ without_seed self.now }
    {
        &self.state
    }

    /// The secret by which the index finds names.
    pub fn seed(&self) -> Seed
        ensures { result ≡ self.now.seed }
    {
        self.seed
    }

    /// The plan of a command, as `State::plan` makes it.
    ///
    /// # Errors
    ///
    /// Those of `State::plan`.
    pub fn plan(&self, alloc: Global, command: &Command) -> Result<Plan, Refusal>
        ensures accepted { IfOk result (λ plan. verdict self.now.facts command.now ≡ None) }
        ensures planned { IfOk result (IsPlanOf self.now.facts command.now) }
        ensures refused { IfErr result (λ refusal. (refusal ≡ Refusal.Memory) ⊎ (verdict self.now.facts command.now ≡ Some refusal)) }
    {
        self.state.plan(alloc, command)
    }

    /// Makes room for a plan, as `State::make_room` does.
    ///
    /// # Errors
    ///
    /// `Memory` if an allocation failed.
    pub fn make_room(&mut self, plan: &Plan) -> Result<(), Refusal>
        ensures keeps { self.new.facts ≡ self.old.facts }
        ensures seed { self.new.seed ≡ self.old.seed }
        ensures room { OnOk result (HasRoomFor (without_seed self.new) plan.now) }
        ensures cause { IfErr result (λ refusal. refusal ≡ Refusal.Memory) }
    {
        self.state.make_room(plan)
    }

    /// Makes the changes of a plan, as `State::commit` does, and has the index follow them.
    pub fn commit(&mut self, alloc: Global, plan: Plan) -> Report
        requires planned { (T : RbacState) × LeadsTo self.old.facts plan T }
        requires room { HasRoomFor (without_seed self.old) plan }
        ensures state { (T : RbacState) → LeadsTo self.old.facts plan T → self.new.facts ≡ T }
        ensures seed { self.new.seed ≡ self.old.seed }
        ensures report { result ≡ plan.report }
    {
        follow(&mut self.index, alloc, plan.changes());
        let report = self.state.commit(plan);
        find_barred(&mut self.index, alloc, &self.state);
        report
    }

    /// CheckAccess, as `decide` decides it: by the index, if the session has a role and the permission is granted to one.
    ///
    /// It doesn't allocate.
    ///
    /// # Errors
    ///
    /// Those of `decide`.
    pub fn decide(&self, session: &[u8], operation: &[u8], object: &[u8]) -> Result<bool, Refusal>
        ensures decided { IfOk result (λ access. Decides self.now.facts session.now operation.now object.now access) }
        ensures refused { IfErr result (λ refusal. Refuses self.now.facts session.now operation.now object.now refusal) }
    {
        match self.found(session, operation, object) {
            Some(access) => Ok(access),
            None => decide(&self.state, session, operation, object),
        }
    }

    // The decision by the index, if it has one.
    fn found(&self, session: &[u8], operation: &[u8], object: &[u8]) -> Option<bool>
        ensures { IfSome result (λ access. Decides self.now.facts session.now operation.now object.now access) }
    {
        let Some(index) = &self.index else {
            return None;
        };
        let Ok(session) = str::from_utf8(session) else {
            return None;
        };
        let Ok(operation) = str::from_utf8(operation) else {
            return None;
        };
        let Ok(object) = str::from_utf8(object) else {
            return None;
        };
        self.state.recall_good();
        index.find(session, operation, object)
    }

    /// Whether the user could do the operation on the object in some session, as `decide_for_user` decides it: by the index, if
    /// some role is assigned to the user and the permission is granted to one.
    ///
    /// It doesn't allocate.
    ///
    /// # Errors
    ///
    /// Those of `decide_for_user`.
    pub fn decide_for_user(
        &self,
        user: &[u8],
        operation: &[u8],
        object: &[u8],
    ) -> Result<bool, Refusal>
        ensures decided { IfOk result (λ access. DecidesUser self.now.facts user.now operation.now object.now access) }
        ensures refused { IfErr result (λ refusal. RefusesUser self.now.facts user.now operation.now object.now refusal) }
    {
        match self.found_for_user(user, operation, object) {
            Some(access) => Ok(access),
            None => decide_for_user(&self.state, user, operation, object),
        }
    }

    // The decision about the user by the index, if it has one.
    fn found_for_user(&self, user: &[u8], operation: &[u8], object: &[u8]) -> Option<bool>
        ensures { IfSome result (λ access. DecidesUser self.now.facts user.now operation.now object.now access) }
    {
        let Some(index) = &self.index else {
            return None;
        };
        let Ok(user) = str::from_utf8(user) else {
            return None;
        };
        let Ok(operation) = str::from_utf8(operation) else {
            return None;
        };
        let Ok(object) = str::from_utf8(object) else {
            return None;
        };
        self.state.recall_good();
        let Some(usable) = index.find_for_user(user, operation, object) else {
            return None;
        };
        let Ok(name) = BorrowedName::new(user) else {
            return None;
        };
        Some(!self.state.locked().contains(&name) && usable)
    }
}

// Finds for the index which roles of the state are barred, if there is an index.
fn find_barred(index: &mut Option<AccessIndex>, alloc: Global, state: &State)
    requires { IfSome index.old (λ old. Indexes old state.now.facts) }
    ensures indexes { IfSome index.new (λ new. Indexes new state.now.facts) }
    ensures seeded { (seed : Secret) → IfSome index.old (λ old. IsSeeded old seed) → IfSome index.new (λ new. IsSeeded new seed) }
{
    if let Some(known) = index {
        known.find_barred(alloc, state);
    }
}

// Has the index follow the changes, if there is one. If an allocation fails, there is none from then on.
fn follow(index: &mut Option<AccessIndex>, alloc: Global, changes: &[Change])
    requires { IfSome index.old (λ old. (S : RbacState) × Indexes old S) }
    ensures indexes { (S T : RbacState) → IfSome index.old (λ old. Indexes old S) → Turns S changes.now T → IsGood T → IfSome index.new (λ new. Indexes new T) }
    ensures seeded { (seed : Secret) → IfSome index.old (λ old. IsSeeded old seed) → IfSome index.new (λ new. IsSeeded new seed) }
{
    let Some(known) = index else {
        return;
    };
    if known.follow(alloc, changes).is_err() {
        *index = None;
    }
}
