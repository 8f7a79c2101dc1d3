//! The limits of a state's version.
ghost use Rattle.std.specs.Prelude.{◌≡◌, ◌+◌};
ghost use Rattle.admin_mgr.specs.Refusals.{is_too_many};

use crate::state::State;
use rbac_sets::Kind;

// Whether the limit of the kind is reached, so that one more than `count` would exceed it.
pub(crate) fn is_full(state: &State, kind: Kind, count: usize) -> bool
    ensures { result ≡ is_too_many state.now.facts kind (count + 1) }
{
    count >= kind.limit(state.version()) as usize
}

// Whether `count` exceeds the limit of the kind.
pub(crate) fn is_too_many(state: &State, kind: Kind, count: usize) -> bool
    ensures { result ≡ is_too_many state.now.facts kind count }
{
    count > kind.limit(state.version()) as usize
}
