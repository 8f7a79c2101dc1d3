//! The checks of the sets that stored rows make, before the role hierarchy is built.
ghost use Rattle.std.specs.Prelude.{◌≡◌, ◌⊎◌, ◌||◌, ◌&&◌, nat_lt};
ghost use Rattle.rbac_sets.specs.Sets.{Pair, Triple, all, any, contains, same_name, name_cmp, pair_cmp, triple_cmp};
ghost use Rattle.rbac_sets.specs.SortedSet.{set_of};
ghost use Rattle.admin_mgr.specs.StateWithRoom.{separation_of};
ghost use Rattle.admin_mgr.specs.RowChecks.{first_exceeded, has_more_with_first, is_exceeded};
ghost use Rattle.admin_mgr.specs.private.CheckTests.{early_refusal, have_one_user, have_sets, is_complete, is_core_complete, is_hierarchy_complete, are_sets_complete, are_sessions_complete};

use crate::judge::set_refusals::{has_set, member_count};
use crate::lookup::{are_among, are_firsts_in, are_seconds_in};
use crate::relations::gathered::StoredSets;
use chunked_sets::{ChunkedGrants, ChunkedPairs, EntrySet, has_first};
use rbac_sets::{CountSet, Kind, Name, NameSet, PairSet, Refusal};

// The kinds whose limits are checked, in this order.
const LIMITED: [Kind; 12] = [
    Kind::User,
    Kind::Role,
    Kind::Object,
    Kind::Permission,
    Kind::Grant,
    Kind::Assignment,
    Kind::Edge,
    Kind::SsdSet,
    Kind::DsdSet,
    Kind::Member,
    Kind::Session,
    Kind::ActiveRole,
];

impl StoredSets {
    // Why the sets are refused: by `TooMany` if a limit is exceeded, then by `Damaged(3)` if a row refers to
    // something that doesn't exist, then by `Damaged(4)` if a session has two users.
    pub(crate) fn early_refusal(&self) -> Option<Refusal>
        requires { (self.now.facts.version ≡ 1) ⊎ (self.now.facts.version ≡ 2) }
        ensures { result ≡ early_refusal self.now }
    {
        if let Some(kind) = self.first_exceeded() {
            return Some(Refusal::TooMany(kind));
        }
        if !self.is_complete() {
            return Some(Refusal::Damaged(3));
        }
        if !self.have_one_user() {
            return Some(Refusal::Damaged(4));
        }
        None
    }

    // The first kind whose limit is exceeded.
    fn first_exceeded(&self) -> Option<Kind>
        requires { (self.now.facts.version ≡ 1) ⊎ (self.now.facts.version ≡ 2) }
        ensures { result ≡ first_exceeded self.now.facts }
    {
        LIMITED.iter().copied().find(|kind| self.is_exceeded(*kind))
    }

    // Whether the limit of the kind is exceeded.
    fn is_exceeded(&self, kind: Kind) -> bool
        requires { (self.now.facts.version ≡ 1) ⊎ (self.now.facts.version ≡ 2) }
        ensures { result ≡ is_exceeded self.now.facts kind }
    {
        let limit = kind.limit(self.relations.version) as usize;
        match kind {
            Kind::User => self.relations.users.len() > limit,
            Kind::Role => self.relations.roles.len() > limit,
            Kind::Object => self.relations.objects.len() > limit,
            Kind::Permission => self.relations.permissions.len() > limit,
            Kind::Grant => self.large.grants.len() > limit,
            Kind::Assignment => self.large.assignments.len() > limit,
            Kind::Edge => self.edges.len() > limit,
            Kind::SsdSet => self.relations.ssd_cardinalities.len() > limit,
            Kind::DsdSet => self.relations.dsd_cardinalities.len() > limit,
            Kind::Member => {
                has_more_with_first(&self.relations.ssd_members, limit)
                    || has_more_with_first(&self.relations.dsd_members, limit)
            }
            Kind::Session => self.large.sessions.len() > limit,
            Kind::ActiveRole => has_more_with_first(&self.relations.active, limit),
            Kind::Record | Kind::Byte => false,
        }
    }

    // Whether each user, role, object, permission, session and set that a row refers to exists.
    fn is_complete(&self) -> bool
        ensures { result ≡ is_complete self.now }
    {
        self.is_core_complete()
            && self.is_hierarchy_complete()
            && self.are_sets_complete()
            && self.are_sessions_complete()
    }

    // Whether what permissions, grants, assignments and locks refer to exists.
    fn is_core_complete(&self) -> bool
        ensures { result ≡ is_core_complete self.now.facts }
    {
        are_firsts_in(&self.relations.objects, &self.relations.permissions)
            && have_permissions(&self.relations.permissions, &self.large.grants)
            && have_roles(&self.relations.roles, &self.large.grants)
            && are_firsts_in(&self.relations.users, &self.large.assignments)
            && are_seconds_in(&self.relations.roles, &self.large.assignments)
            && are_among(&self.relations.locked, &self.relations.users)
    }

    // Whether the roles of edges and closure pairs exist.
    fn is_hierarchy_complete(&self) -> bool
        ensures { result ≡ is_hierarchy_complete self.now }
    {
        are_firsts_in(&self.relations.roles, &self.edges)
            && are_seconds_in(&self.relations.roles, &self.edges)
            && are_firsts_in(&self.relations.roles, &self.pairs)
            && are_seconds_in(&self.relations.roles, &self.pairs)
    }

    // Whether the sets and roles of members of separation of duty sets exist.
    fn are_sets_complete(&self) -> bool
        ensures { result ≡ are_sets_complete self.now.facts }
    {
        have_sets(
            &self.relations.ssd_members,
            &self.relations.ssd_cardinalities,
        ) && are_seconds_in(&self.relations.roles, &self.relations.ssd_members)
            && have_sets(
                &self.relations.dsd_members,
                &self.relations.dsd_cardinalities,
            )
            && are_seconds_in(&self.relations.roles, &self.relations.dsd_members)
    }

    // Whether the users of sessions, and the sessions and roles of activated roles, exist.
    fn are_sessions_complete(&self) -> bool
        ensures { result ≡ are_sessions_complete self.now.facts }
    {
        are_seconds_in(&self.relations.users, &self.large.sessions)
            && have_sessions(&self.relations.active, &self.large.sessions)
            && are_seconds_in(&self.relations.roles, &self.relations.active)
    }

    // Whether each session has one user.
    #[tactic(auto, unfolding(rbac_sets::specs::Sets::all))]
    fn have_one_user(&self) -> bool
        ensures { result ≡ have_one_user self.now.facts }
    {
        let sessions = &self.large.sessions;
        sessions
            .iter()
            .all(|session| member_count(sessions, &session.0) <= 1)
    }
}

// Whether more pairs than the limit begin with one name.
#[tactic(auto, unfolding(rbac_sets::specs::Sets::any))]
fn has_more_with_first<P: EntrySet<(Name, Name)>>(pairs: &P, limit: usize) -> bool
    ensures { result ≡ has_more_with_first limit (set_of pair_cmp (P.stored pairs.now)) }
{
    pairs
        .entries()
        .iter()
        .any(|pair| member_count(pairs, &pair.0) > limit)
}

// Whether each grant is one of a permission that exists.
#[tactic(auto, unfolding(rbac_sets::specs::Sets::all))]
fn have_permissions(permissions: &ChunkedPairs, grants: &ChunkedGrants) -> bool
    ensures { result ≡ all (λ (grant : Triple). contains (set_of pair_cmp permissions.now) (grant.0, grant.1)) (set_of triple_cmp grants.now) }
{
    grants
        .iter()
        .all(|grant| permissions.contains((&grant.0, &grant.1)))
}

// Whether each grant is one to a role that exists.
#[tactic(auto, unfolding(rbac_sets::specs::Sets::all))]
fn have_roles(roles: &NameSet, grants: &ChunkedGrants) -> bool
    ensures { result ≡ all (λ (grant : Triple). contains (set_of name_cmp roles.now) grant.2) (set_of triple_cmp grants.now) }
{
    grants.iter().all(|grant| roles.contains(&grant.2))
}

// Whether each member belongs to a set that has a cardinality.
#[tactic(auto, unfolding(rbac_sets::specs::Sets::all))]
fn have_sets(members: &PairSet, cardinalities: &CountSet) -> bool
    ensures { result ≡ have_sets (separation_of members.now cardinalities.now) }
{
    members
        .as_slice()
        .iter()
        .all(|member| has_set(cardinalities, &member.0))
}

// Whether each activated role belongs to a session that exists.
#[tactic(auto, unfolding(rbac_sets::specs::Sets::all))]
fn have_sessions(active: &ChunkedPairs, sessions: &ChunkedPairs) -> bool
    ensures { result ≡ all (λ (pair : Pair). any (λ session. same_name session.0 pair.0) (set_of pair_cmp sessions.now)) (set_of pair_cmp active.now) }
{
    active.iter().all(|pair| has_first(sessions, &pair.0))
}
