//! The state of the office.
ghost use Rattle.std.specs.Prelude.{◌≡◌, ◌⊎◌, IfOk, IfErr, OnOk};
ghost use Rattle.rbac_sets.specs.Sets.{Pair, Triple, image, name_cmp, pair_cmp, triple_cmp, cardinality_cmp};
ghost use Rattle.rbac_sets.specs.SortedSet.{set_of};
ghost use Rattle.admin_mgr.specs.RbacState.{RbacState, empty_state, cardinality_of};
ghost use Rattle.admin_mgr.specs.Good.{IsGood};
ghost use Rattle.admin_mgr.specs.StateNames.{AreNamed};
ghost use Rattle.admin_mgr.specs.OfficeRun.{migrated_to_version_2};
ghost use Rattle.admin_mgr.specs.RowChecks.{IsStateOf, RefusesRows};
ghost use Rattle.admin_mgr.specs.PlanEffect.{LeadsTo, HasRoomFor};

use crate::checking::late_refusal;
use crate::lookup::number_of;
use crate::plan::{Plan, Report};
use crate::relations::Relations;
use crate::relations::gathered::StoredSets;
use chunked_sets::{ChunkedGrants, ChunkedNames, ChunkedPairs};
use rbac_sets::{CountSet, Name, NameSet, PairSet, Refusal, Row};
use role_order::RoleOrder;
use std::alloc::Global;
use std::marker::Model;

/// The state of an office: the sets and relations of the standard. It is always good.
///
/// That is: each user, role, object, permission, session and set that a relation refers to exists; the role
/// hierarchy has no cycle; no separation of duty set is violated; a session's user is authorized for each role
/// that was activated in it, and is not locked; no limit of the state's version is exceeded; and each name is
/// valid. Contracts see the sets and relations as `facts`. No function that reads the state allocates.
#[derive(Drop)]
pub struct State {
    relations: Relations,
}

impl Model for State {
    ghost use Rattle.admin_mgr.specs.StateWithRoom.{StateWithRoom, coded_state_with_room};
    ghost use Rattle.admin_mgr.specs.Good.{IsGood};
    ghost use Rattle.admin_mgr.specs.StateNames.{AreNamed};

    ghost Value = { StateWithRoom };

    ghost coded = { coded_state_with_room };

    ghost view = { λ state. state.relations };

    ghost invariant = { λ state. IsGood state.relations.facts × AreNamed state.relations.facts };
}

impl State {
    /// The state of a new office of version 2: all its sets are empty. It doesn't allocate.
    pub fn empty(alloc: Global) -> State
        ensures { result.facts ≡ empty_state 2 }
    {
        State {
            relations: Relations::empty(alloc, 2),
        }
    }

    /// The state of a new office of version 1: all its sets are empty. It doesn't allocate.
    pub fn empty_v1(alloc: Global) -> State
        ensures { result.facts ≡ empty_state 1 }
    {
        State {
            relations: Relations::empty(alloc, 1),
        }
    }

    /// The state that is stored as `rows`, in any order, in an office of this `version`, which is 1 or 2.
    ///
    /// # Errors
    ///
    /// The refusal names the first check that fails. `Damaged(1)` if a row is of a kind that the version
    /// doesn't have, or two rows have the same key; then `TooMany` if a limit is exceeded, with the first
    /// such kind; then `Damaged` with 3 if a row refers to something that doesn't exist, 4 if a session has
    /// two users, 5 if the immediate inheritances have a cycle, 6 if the stored closure pairs are not the
    /// closure of the immediate inheritances, 7 if the cardinality of a separation of duty set isn't at least
    /// 2 and at most the number of its members, 8 if a session's user isn't authorized for a role that was
    /// activated in it, 9 if a static and 10 if a dynamic separation of duty set is violated, and 11 if a
    /// locked user has a session. `Memory` if an allocation failed.
    pub fn of_rows(alloc: Global, version: u32, rows: Vec<Row>) -> Result<State, Refusal>
        requires { (version ≡ 1) ⊎ (version ≡ 2) }
        ensures ok { IfOk result (λ state. IsStateOf version rows.items state.facts) }
        ensures err { IfErr result (λ refusal. RefusesRows version rows.items refusal) }
    {
        let made = StoredSets::of_rows(alloc, version, rows)?;
        if let Some(refusal) = made.early_refusal() {
            drop(made);
            return Err(refusal);
        }
        let relations = made.into_relations(alloc)?;
        match late_refusal(alloc, &relations) {
            Ok(None) => Ok(State { relations }),
            Ok(Some(refusal)) => {
                drop(relations);
                Err(refusal)
            }
            Err(refusal) => {
                drop(relations);
                Err(refusal)
            }
        }
    }

    /// The state, of version 1, migrated to version 2: it has the same sets and relations, and no user is
    /// locked. It doesn't allocate and can't fail: no limit of version 2 is lower.
    pub fn migrated(self) -> State
        requires { self.facts.version ≡ 1 }
        ensures { result.facts ≡ migrated_to_version_2 self.facts }
    {
        let State { relations } = self;
        let relations = relations.into_version_2();
        State { relations }
    }

    // The relations alone, for functions that don't need them to be good.
    pub(crate) fn relations(&self) -> &Relations
        ensures { result.now ≡ self.now }
    {
        &self.relations
    }

    /// The state is good: the invariant of the type, as a fact about one state.
    ///
    /// Like the functions of `laws` it does nothing when it runs. Code calls it if its proof needs the fact.
    pub fn recall_good(&self)
        ensures { IsGood self.now.facts }
    {
        let _ = &self.relations;
    }

    /// Each name in the state's rows is valid, by the invariant of the type. Like `is_good` it does nothing
    /// when it runs.
    pub fn recall_names(&self)
        ensures { AreNamed self.now.facts }
    {
        let _ = &self.relations;
    }

    /// 1 or 2. In version 2 users can be locked, and the limits of users, roles and immediate inheritances
    /// are larger. No command changes the version.
    pub fn version(&self) -> u32
        ensures version { result ≡ self.now.facts.version }
        ensures known { (result ≡ 1) ⊎ (result ≡ 2) }
    {
        self.relations.version()
    }

    /// USERS.
    pub fn users(&self) -> &ChunkedNames
        ensures { set_of name_cmp result.now ≡ self.now.facts.users }
    {
        self.relations.users()
    }

    /// The locked users, who have no session. There are none in version 1.
    pub fn locked(&self) -> &NameSet
        ensures { set_of name_cmp result.now ≡ self.now.facts.locked }
    {
        self.relations.locked()
    }

    /// ROLES.
    pub fn roles(&self) -> &NameSet
        ensures { set_of name_cmp result.now ≡ self.now.facts.roles }
    {
        self.relations.roles()
    }

    /// OBS, the objects.
    pub fn objects(&self) -> &ChunkedNames
        ensures { set_of name_cmp result.now ≡ self.now.facts.objects }
    {
        self.relations.objects()
    }

    /// PRMS, the permissions, as pairs (object, operation).
    pub fn permissions(&self) -> &ChunkedPairs
        ensures { set_of pair_cmp result.now ≡ self.now.facts.permissions }
    {
        self.relations.permissions()
    }

    /// UA, the user assignments, as pairs (user, role).
    pub fn assignments(&self) -> &ChunkedPairs
        ensures { set_of pair_cmp result.now ≡ self.now.facts.assignments }
    {
        self.relations.assignments()
    }

    /// The same as pairs (role, user), so that the users of a role follow one another.
    pub fn assignments_by_role(&self) -> &ChunkedPairs
        ensures { set_of pair_cmp result.now ≡ image (λ (pair : Pair). (pair.1, pair.0)) self.now.facts.assignments }
    {
        self.relations.assignments_by_role()
    }

    /// PA, the permission assignments, as triples (object, operation, role).
    pub fn grants(&self) -> &ChunkedGrants
        ensures { set_of triple_cmp result.now ≡ self.now.facts.grants }
    {
        self.relations.grants()
    }

    /// The same as triples (role, object, operation), so that the permissions of a role follow one another.
    pub fn grants_by_role(&self) -> &ChunkedGrants
        ensures { set_of triple_cmp result.now ≡ image (λ (grant : Triple). (grant.2, grant.0, grant.1)) self.now.facts.grants }
    {
        self.relations.grants_by_role()
    }

    /// SESSIONS with the user of each, as pairs (session, user).
    pub fn sessions(&self) -> &ChunkedPairs
        ensures { set_of pair_cmp result.now ≡ self.now.facts.sessions }
    {
        self.relations.sessions()
    }

    /// The same as pairs (user, session), so that the sessions of a user follow one another.
    pub fn sessions_by_user(&self) -> &ChunkedPairs
        ensures { set_of pair_cmp result.now ≡ image (λ (pair : Pair). (pair.1, pair.0)) self.now.facts.sessions }
    {
        self.relations.sessions_by_user()
    }

    /// The roles that were activated in the sessions, as pairs (session, role). `session_roles` of the
    /// standard has the juniors of these too.
    pub fn active(&self) -> &ChunkedPairs
        ensures { set_of pair_cmp result.now ≡ self.now.facts.active }
    {
        self.relations.active()
    }

    /// The roles of the static separation of duty sets, as pairs (set, role).
    pub fn ssd_members(&self) -> &PairSet
        ensures { set_of pair_cmp result.now ≡ self.now.facts.ssd.members }
    {
        self.relations.ssd_members()
    }

    /// The static separation of duty sets, as pairs (set, cardinality).
    pub fn ssd_cardinalities(&self) -> &CountSet
        ensures { set_of cardinality_cmp result.now ≡ self.now.facts.ssd.cardinalities }
    {
        self.relations.ssd_cardinalities()
    }

    /// The roles of the dynamic separation of duty sets, as pairs (set, role).
    pub fn dsd_members(&self) -> &PairSet
        ensures { set_of pair_cmp result.now ≡ self.now.facts.dsd.members }
    {
        self.relations.dsd_members()
    }

    /// The dynamic separation of duty sets, as pairs (set, cardinality).
    pub fn dsd_cardinalities(&self) -> &CountSet
        ensures { set_of cardinality_cmp result.now ≡ self.now.facts.dsd.cardinalities }
    {
        self.relations.dsd_cardinalities()
    }

    /// The role hierarchy: the immediate inheritances, as edges (ascendant, descendant), and their
    /// closure.
    pub fn order(&self) -> &RoleOrder
        ensures { result.now.edges ≡ self.now.facts.edges }
    {
        self.relations.order()
    }

    /// SsdRoleSetCardinality: the cardinality of the static separation of duty set of this name, or `None`
    /// if there is no such set.
    #[tactic(auto, unfolding(crate::specs::RbacState::cardinality_of))]
    pub fn ssd_n(&self, set: &Name) -> Option<u32>
        ensures { result ≡ cardinality_of self.now.facts.ssd set.now }
    {
        number_of(self.ssd_cardinalities(), set)
    }

    /// DsdRoleSetCardinality: the cardinality of the dynamic separation of duty set of this name, or `None`
    /// if there is no such set.
    #[tactic(auto, unfolding(crate::specs::RbacState::cardinality_of))]
    pub fn dsd_n(&self, set: &Name) -> Option<u32>
        ensures { result ≡ cardinality_of self.now.facts.dsd set.now }
    {
        number_of(self.dsd_cardinalities(), set)
    }

    /// Makes room for all that a plan adds, in each set and in the role hierarchy, so that `commit` doesn't
    /// allocate.
    ///
    /// `plan` may be any plan, also one of another state. This is a function of the office and none of the
    /// standard: an accepted command is made durable first, and after that its changes must not fail.
    ///
    /// # Errors
    ///
    /// `Memory` if an allocation failed. The sets and relations stay the same in any case.
    pub fn make_room(&mut self, plan: &Plan) -> Result<(), Refusal>
        ensures keeps { self.new.facts ≡ self.old.facts }
        ensures room { OnOk result (HasRoomFor self.new plan.now) }
        ensures cause { IfErr result (λ refusal. refusal ≡ Refusal.Memory) }
    {
        self.relations.make_room(&plan.changes)?;
        if let Some(order) = &plan.order {
            self.relations.make_order_room(order)?;
        }
        Ok(())
    }

    /// Makes the changes of a plan, in the room that `make_room` made: what each administrative command
    /// and each system function on sessions does to the sets and relations once it is accepted.
    ///
    /// `plan` has to lead from this state to a good one, as a plan that `State::plan` made of this state
    /// does, and the state is that one afterwards. Returns the plan's report. Room that is left over in the
    /// sets that are kept in chunks is given back. It doesn't allocate and can't fail.
    pub fn commit(&mut self, plan: Plan) -> Report
        requires planned { (T : RbacState) × LeadsTo self.old.facts plan T }
        requires room { HasRoomFor self.old plan }
        ensures state { (T : RbacState) → LeadsTo self.old.facts plan T → self.new.facts ≡ T }
        ensures report { result ≡ plan.report }
    {
        plan.recall_names();
        let Plan {
            changes,
            report,
            order,
        } = plan;
        self.relations.change(changes);
        if let Some(order) = order {
            self.relations.commit_order(order);
        }
        report
    }
}
