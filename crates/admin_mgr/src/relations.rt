//! The sets and relations of the office, whether they are good or not.
ghost use Rattle.std.specs.Prelude.{◌≡◌, OnOk, IfErr};
ghost use Rattle.rbac_sets.specs.Sets.{Pair, Triple, empty, image, name_cmp, pair_cmp, triple_cmp, cardinality_cmp};
ghost use Rattle.rbac_sets.specs.SortedSet.{set_of};
ghost use Rattle.admin_mgr.specs.RbacState.{empty_state};

use chunked_sets::{
    ChunkedGrants, ChunkedNames, ChunkedPairs, TwoWayGrants, TwoWayPairs, TwoWaySet,
};
use rbac_sets::{CountSet, NameSet, PairSet, Refusal};
use role_order::RoleOrder;
use std::alloc::Global;
use std::marker::Model;

mod changing;
pub(crate) mod gathered;

// The sets and relations of core RBAC, of the role hierarchy and of separation of duty. Between the changes of
// one command they need not be good.
//
// Contracts see them as `facts`, and also for how many more entries each set has room without an allocation.
#[derive(Drop)]
pub(crate) struct Relations {
    version: u32,
    users: ChunkedNames,
    locked: NameSet,
    roles: NameSet,
    objects: ChunkedNames,
    permissions: ChunkedPairs,
    assignments: TwoWayPairs,
    grants: TwoWayGrants,
    order: RoleOrder,
    sessions: TwoWayPairs,
    active: ChunkedPairs,
    ssd_members: PairSet,
    ssd_cardinalities: CountSet,
    dsd_members: PairSet,
    dsd_cardinalities: CountSet,
}

// The sets that relations keep in two orders, in one of them.
#[derive(Drop)]
pub(crate) struct LargeSets {
    pub(crate) assignments: ChunkedPairs,
    pub(crate) grants: ChunkedGrants,
    pub(crate) sessions: ChunkedPairs,
}

impl LargeSets {
    // Empty sets. It doesn't allocate.
    pub(crate) fn new(alloc: Global) -> LargeSets
        ensures assignments { set_of pair_cmp result.assignments ≡ empty }
        ensures grants { set_of triple_cmp result.grants ≡ empty }
        ensures sessions { set_of pair_cmp result.sessions ≡ empty }
    {
        LargeSets {
            assignments: ChunkedPairs::new(alloc),
            grants: ChunkedGrants::new(alloc),
            sessions: ChunkedPairs::new(alloc),
        }
    }
}

impl Model for Relations {
    ghost use Rattle.admin_mgr.specs.StateWithRoom.{StateWithRoom, coded_state_with_room};

    ghost Value = { StateWithRoom };

    ghost coded = { coded_state_with_room };

    ghost use Rattle.admin_mgr.specs.View.{view_of};

    ghost view = { view_of };
}

impl Relations {
    // Empty sets and relations, in an office of this version. It doesn't allocate.
    pub(crate) fn empty(alloc: Global, version: u32) -> Relations
        ensures { result.facts ≡ empty_state version }
    {
        Relations {
            version,
            users: ChunkedNames::new(alloc),
            locked: NameSet::new(alloc),
            roles: NameSet::new(alloc),
            objects: ChunkedNames::new(alloc),
            permissions: ChunkedPairs::new(alloc),
            assignments: TwoWayPairs::new(alloc),
            grants: TwoWayGrants::new(alloc),
            order: RoleOrder::new(alloc),
            sessions: TwoWayPairs::new(alloc),
            active: ChunkedPairs::new(alloc),
            ssd_members: PairSet::new(alloc),
            ssd_cardinalities: CountSet::new(alloc),
            dsd_members: PairSet::new(alloc),
            dsd_cardinalities: CountSet::new(alloc),
        }
    }

    // The same in version 2. It doesn't allocate.
    pub(crate) fn into_version_2(mut self) -> Relations
        ensures { result.facts ≡ record self.facts { version = 2 } }
    {
        self.version = 2;
        self
    }

    // Replaces the assignments.
    pub(crate) fn set_assignments(
        &mut self,
        alloc: Global,
        assignments: ChunkedPairs,
    ) -> Result<(), Refusal>
        ensures ok { OnOk result (self.new.facts ≡ record self.old.facts { assignments = set_of pair_cmp assignments }) }
        ensures cause { IfErr result (λ refusal. refusal ≡ Refusal.Memory) }
    {
        self.assignments = TwoWaySet::of_forward(alloc, assignments)?;
        Ok(())
    }

    // Replaces the grants.
    pub(crate) fn set_grants(&mut self, alloc: Global, grants: ChunkedGrants) -> Result<(), Refusal>
        ensures ok { OnOk result (self.new.facts ≡ record self.old.facts { grants = set_of triple_cmp grants }) }
        ensures cause { IfErr result (λ refusal. refusal ≡ Refusal.Memory) }
    {
        self.grants = TwoWaySet::of_forward(alloc, grants)?;
        Ok(())
    }

    // Replaces the sessions.
    pub(crate) fn set_sessions(
        &mut self,
        alloc: Global,
        sessions: ChunkedPairs,
    ) -> Result<(), Refusal>
        ensures ok { OnOk result (self.new.facts ≡ record self.old.facts { sessions = set_of pair_cmp sessions }) }
        ensures cause { IfErr result (λ refusal. refusal ≡ Refusal.Memory) }
    {
        self.sessions = TwoWaySet::of_forward(alloc, sessions)?;
        Ok(())
    }

    // Replaces the assignments, the grants and the sessions.
    pub(crate) fn set_large(&mut self, alloc: Global, large: LargeSets) -> Result<(), Refusal>
        ensures ok { OnOk result (self.new.facts ≡ record self.old.facts {
          assignments = set_of pair_cmp large.assignments;
          grants = set_of triple_cmp large.grants;
          sessions = set_of pair_cmp large.sessions;
        }) }
        ensures cause { IfErr result (λ refusal. refusal ≡ Refusal.Memory) }
    {
        let LargeSets {
            assignments,
            grants,
            sessions,
        } = large;
        self.set_assignments(alloc, assignments)?;
        self.set_grants(alloc, grants)?;
        self.set_sessions(alloc, sessions)?;
        Ok(())
    }

    // Replaces the role hierarchy.
    pub(crate) fn set_order(&mut self, order: RoleOrder)
        ensures { self.new.facts ≡ record self.old.facts { edges = order.edges } }
    {
        self.order = order;
    }

    pub(crate) fn version(&self) -> u32
        ensures { result ≡ self.now.facts.version }
    {
        self.version
    }

    pub(crate) fn users(&self) -> &ChunkedNames
        ensures { set_of name_cmp result.now ≡ self.now.facts.users }
    {
        &self.users
    }

    pub(crate) fn locked(&self) -> &NameSet
        ensures { set_of name_cmp result.now ≡ self.now.facts.locked }
    {
        &self.locked
    }

    pub(crate) fn roles(&self) -> &NameSet
        ensures { set_of name_cmp result.now ≡ self.now.facts.roles }
    {
        &self.roles
    }

    pub(crate) fn objects(&self) -> &ChunkedNames
        ensures { set_of name_cmp result.now ≡ self.now.facts.objects }
    {
        &self.objects
    }

    pub(crate) fn permissions(&self) -> &ChunkedPairs
        ensures { set_of pair_cmp result.now ≡ self.now.facts.permissions }
    {
        &self.permissions
    }

    pub(crate) fn assignments(&self) -> &ChunkedPairs
        ensures { set_of pair_cmp result.now ≡ self.now.facts.assignments }
    {
        self.assignments.forward()
    }

    // The same as pairs (role, user).
    pub(crate) fn assignments_by_role(&self) -> &ChunkedPairs
        ensures { set_of pair_cmp result.now ≡ image (λ (pair : Pair). (pair.1, pair.0)) self.now.facts.assignments }
    {
        self.assignments.backward()
    }

    pub(crate) fn grants(&self) -> &ChunkedGrants
        ensures { set_of triple_cmp result.now ≡ self.now.facts.grants }
    {
        self.grants.forward()
    }

    // The same as triples (role, object, operation).
    pub(crate) fn grants_by_role(&self) -> &ChunkedGrants
        ensures { set_of triple_cmp result.now ≡ image (λ (grant : Triple). (grant.2, grant.0, grant.1)) self.now.facts.grants }
    {
        self.grants.backward()
    }

    pub(crate) fn sessions(&self) -> &ChunkedPairs
        ensures { set_of pair_cmp result.now ≡ self.now.facts.sessions }
    {
        self.sessions.forward()
    }

    // The same as pairs (user, session).
    pub(crate) fn sessions_by_user(&self) -> &ChunkedPairs
        ensures { set_of pair_cmp result.now ≡ image (λ (pair : Pair). (pair.1, pair.0)) self.now.facts.sessions }
    {
        self.sessions.backward()
    }

    pub(crate) fn active(&self) -> &ChunkedPairs
        ensures { set_of pair_cmp result.now ≡ self.now.facts.active }
    {
        &self.active
    }

    pub(crate) fn ssd_members(&self) -> &PairSet
        ensures { set_of pair_cmp result.now ≡ self.now.facts.ssd.members }
    {
        &self.ssd_members
    }

    pub(crate) fn ssd_cardinalities(&self) -> &CountSet
        ensures { set_of cardinality_cmp result.now ≡ self.now.facts.ssd.cardinalities }
    {
        &self.ssd_cardinalities
    }

    pub(crate) fn dsd_members(&self) -> &PairSet
        ensures { set_of pair_cmp result.now ≡ self.now.facts.dsd.members }
    {
        &self.dsd_members
    }

    pub(crate) fn dsd_cardinalities(&self) -> &CountSet
        ensures { set_of cardinality_cmp result.now ≡ self.now.facts.dsd.cardinalities }
    {
        &self.dsd_cardinalities
    }

    pub(crate) fn order(&self) -> &RoleOrder
        ensures { result.now.edges ≡ self.now.facts.edges }
    {
        &self.order
    }
}
