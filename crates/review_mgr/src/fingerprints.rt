//! The fingerprints of the roles of some grants. A role with another fingerprint is none of these roles,
//! which is decided without a comparison of names.
ghost use Rattle.std.specs.Prelude.{◌≡◌, true};
ghost use Rattle.std.specs.List.{All};
ghost use Rattle.rbac_sets.specs.Sets.{Triple};
ghost use Rattle.review_mgr.specs.private.Intersection.{may_have};

use rbac_sets::{FINGERPRINTS, Name};

// For each fingerprint, whether the role of one of the grants has it.
pub(crate) fn fingerprints_of(grants: &[(Name, Name, Name)]) -> [bool; FINGERPRINTS]
    ensures { All (λ (grant : Triple). may_have result grant.2 ≡ true) grants.now }
{
    let mut flags = [false; FINGERPRINTS];
    for grant in grants {
        flags[grant.2.fingerprint()] = true;
    }
    flags
}

// Whether the role may be one of those whose fingerprints are flagged. Without flags, any role may.
pub(crate) fn may_have(flags: &[bool], role: &Name) -> bool
    ensures { result ≡ may_have flags.now role.now }
{
    let fingerprint = role.fingerprint();
    fingerprint >= flags.len() || flags[fingerprint]
}
