//! The two kinds of separation of duty, and the sets of each in a state.
ghost use Rattle.std.specs.Prelude.{◌≡◌};
ghost use Rattle.rbac_sets.specs.Sets.{cardinality_cmp, pair_cmp};
ghost use Rattle.rbac_sets.specs.SortedSet.{set_of};
ghost use Rattle.admin_mgr.specs.private.Holders.{runs_left, runs_of};
ghost use Rattle.admin_mgr.specs.RbacState.{cardinality_of};
ghost use Rattle.admin_mgr.specs.private.SeparationOfDuty.{cardinality_rows, kind_of, member_rows, refusal_of, sets_of};

use crate::relations::Relations;
use crate::separation_of_duty::holders::{Holders, Runs};
use crate::state::State;
use rbac_sets::{CountSet, Kind, Name, PairSet, Refusal, Row};

pub mod by_name;
pub(crate) mod by_number;
pub(crate) mod holders;
pub(crate) mod inheritance;
pub(crate) mod keeping;

// A kind of separation of duty.
#[derive(Clone, Copy)]
pub(crate) enum SeparationOfDuty {
    // Of the roles that a user is authorized for (SSD).
    Static,
    // Of the roles that a session has (DSD).
    Dynamic,
}

impl SeparationOfDuty {
    // The kind that has the limit on the number of its sets.
    pub(crate) fn kind(self) -> Kind
        ensures { result ≡ kind_of self }
    {
        match self {
            SeparationOfDuty::Static => Kind::SsdSet,
            SeparationOfDuty::Dynamic => Kind::DsdSet,
        }
    }

    // The kind of the rows of its sets' members.
    pub(crate) fn member_rows(self) -> u8
        ensures { result ≡ member_rows self }
    {
        match self {
            SeparationOfDuty::Static => Row::STATIC_MEMBER,
            SeparationOfDuty::Dynamic => Row::DYNAMIC_MEMBER,
        }
    }

    // The kind of the rows of its sets' cardinalities.
    pub(crate) fn cardinality_rows(self) -> u8
        ensures { result ≡ cardinality_rows self }
    {
        match self {
            SeparationOfDuty::Static => Row::STATIC_CARDINALITY,
            SeparationOfDuty::Dynamic => Row::DYNAMIC_CARDINALITY,
        }
    }

    // The refusal that names a violated set of this kind.
    pub(crate) fn refusal(self, set: Name) -> Refusal
        ensures { result ≡ refusal_of self set }
    {
        match self {
            SeparationOfDuty::Static => Refusal::StaticSeparation(set),
            SeparationOfDuty::Dynamic => Refusal::DynamicSeparation(set),
        }
    }

    // The members of its sets, as pairs (set, role).
    pub(crate) fn members(self, state: &State) -> &PairSet
        ensures { set_of pair_cmp result.now ≡ (sets_of self state.now.facts).members }
    {
        self.members_in(state.relations())
    }

    // The same for relations that need not be good.
    pub(crate) fn members_in(self, relations: &Relations) -> &PairSet
        ensures { set_of pair_cmp result.now ≡ (sets_of self relations.now.facts).members }
    {
        match self {
            SeparationOfDuty::Static => relations.ssd_members(),
            SeparationOfDuty::Dynamic => relations.dsd_members(),
        }
    }

    // The cardinalities of its sets, as pairs (set, cardinality).
    pub(crate) fn cardinalities(self, state: &State) -> &CountSet
        ensures { set_of cardinality_cmp result.now ≡ (sets_of self state.now.facts).cardinalities }
    {
        self.cardinalities_in(state.relations())
    }

    // The same for relations that need not be good.
    pub(crate) fn cardinalities_in(self, relations: &Relations) -> &CountSet
        ensures { set_of cardinality_cmp result.now ≡ (sets_of self relations.now.facts).cardinalities }
    {
        match self {
            SeparationOfDuty::Static => relations.ssd_cardinalities(),
            SeparationOfDuty::Dynamic => relations.dsd_cardinalities(),
        }
    }

    // The cardinality of one of its sets, if there is such a set.
    pub(crate) fn cardinality(self, state: &State, set: &Name) -> Option<u32>
        ensures { result ≡ cardinality_of (sets_of self state.now.facts) set.now }
    {
        match self {
            SeparationOfDuty::Static => state.ssd_n(set),
            SeparationOfDuty::Dynamic => state.dsd_n(set),
        }
    }

    // Who this kind applies to: for each user its assignments, or for each session its activated roles, as pairs
    // (holder, role).
    pub(crate) fn runs(self, relations: &Relations) -> Runs<'_>
        ensures { runs_left result ≡ runs_of self relations.now.facts }
    {
        match self {
            SeparationOfDuty::Static => Runs {
                holders: Holders::Users(relations.users().iter()),
                pairs: relations.assignments(),
            },
            SeparationOfDuty::Dynamic => Runs {
                holders: Holders::Sessions(relations.sessions().iter()),
                pairs: relations.active(),
            },
        }
    }
}
