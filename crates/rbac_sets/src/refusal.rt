//! Why a call was refused.
ghost use Rattle.std.specs.Prelude.{◌≡◌, codes};
ghost use Rattle.rbac_sets.specs.Refusal.{code_of, is_memory, name_of};

use crate::kind::Kind;
use crate::name::Name;
use std::alloc::{AllocError, AllocFailed};

/// Why a call was refused. A refused call changes nothing, except as described for `Store`.
#[derive(Debug, Drop)]
pub enum Refusal {
    /// 1: a text is not a valid name.
    BadName,
    /// 2: there is no user of this name.
    NoUser,
    /// 3: there is a user of this name already.
    UserExists,
    /// 4: there is no role of this name.
    NoRole,
    /// 5: there is a role of this name already.
    RoleExists,
    /// 6: there is no object of this name.
    NoObject,
    /// 7: there is an object of this name already.
    ObjectExists,
    /// 8: there is no permission for this operation on this object.
    NoPermission,
    /// 9: there is such a permission already.
    PermissionExists,
    /// 10: the user is assigned to the role already.
    AlreadyAssigned,
    /// 11: the user is not assigned to the role.
    NotAssigned,
    /// 12: the permission is granted to the role already.
    AlreadyGranted,
    /// 13: the permission is not granted to the role.
    NotGranted,
    /// 14: the first role is an immediate ascendant of the second already.
    EdgeExists,
    /// 15: the first role is not an immediate ascendant of the second.
    NoEdge,
    /// 16: the descendant is the ascendant itself or inherits from it already.
    Cycle,
    /// 17: the role has an immediate inheritance or is a member of a separation of duty set.
    RoleInUse,
    /// 18: the object has a permission.
    ObjectInUse,
    /// 19: there is a separation of duty set of this kind and name already.
    SetExists,
    /// 20: there is no separation of duty set of this kind and name.
    NoSet,
    /// 21: the role is a member of the set already.
    MemberExists,
    /// 22: the role is not a member of the set.
    NoMember,
    /// 23: the cardinality of the set would not be at least 2 and at most its number of members.
    BadCardinality,
    /// 24: the static separation of duty set of this name would be violated.
    StaticSeparation(Name),
    /// 25: the dynamic separation of duty set of this name would be violated.
    DynamicSeparation(Name),
    /// 26: there is no session of this name.
    NoSession,
    /// 27: there is a session of this name already.
    SessionExists,
    /// 28: the session has another user.
    NotOwner,
    /// 29: the user is not authorized for the role.
    NotAuthorized,
    /// 30: the role is activated in the session already.
    AlreadyActive,
    /// 31: the role is not activated in the session.
    NotActive,
    /// 32: the limit of this kind would be exceeded.
    TooMany(Kind),
    /// 33: no permission has this operation.
    NoOperation,
    /// 34: the request cannot be read.
    BadRequest,
    /// 35: no function has this name.
    UnknownFunction,
    /// 36: this record of a file of assignments cannot be read; the header is record 0.
    BadCsv(u32),
    /// 37: the user is locked.
    UserLocked,
    /// 40: an allocation failed.
    Memory,
    /// 41: a call of the store failed. The office is closed then, and a crash leaves the state before the
    /// command or the one after it. Or a sink failed or accepted no byte: it may hold the start of a text.
    Store,
    /// 42: the office is closed.
    Closed,
    /// 50: the database holds no office.
    NotAnOffice,
    /// 51: the office has this version, which is not the requested one.
    Version(i64),
    /// 52: the database fails this check, and is not a sound office.
    Damaged(u32),
}

impl From<AllocError> for Refusal {
    ghost use Rattle.std.specs.Prelude.{◌≡◌};
    ghost use Rattle.rbac_sets.specs.declared.refusal.Refusal.TheVariants.{Memory};

    ghost from_gives = { λ _ refusal. refusal ≡ Memory };

    fn from(_error: AllocError) -> Refusal {
        Refusal::Memory
    }
}

impl<T: Drop> From<AllocFailed<T>> for Refusal {
    ghost use Rattle.std.specs.Prelude.{◌≡◌};
    ghost use Rattle.rbac_sets.specs.declared.refusal.Refusal.TheVariants.{Memory};

    ghost from_gives = { λ _ refusal. refusal ≡ Memory };

    fn from(_error: AllocFailed<T>) -> Refusal {
        Refusal::Memory
    }
}

impl Refusal {
    /// The code of the refusal.
    pub fn code(&self) -> u32
        ensures { result ≡ code_of self.now }
    {
        match self {
            Refusal::BadName => 1,
            Refusal::NoUser => 2,
            Refusal::UserExists => 3,
            Refusal::NoRole => 4,
            Refusal::RoleExists => 5,
            Refusal::NoObject => 6,
            Refusal::ObjectExists => 7,
            Refusal::NoPermission => 8,
            Refusal::PermissionExists => 9,
            Refusal::AlreadyAssigned => 10,
            Refusal::NotAssigned => 11,
            Refusal::AlreadyGranted => 12,
            Refusal::NotGranted => 13,
            Refusal::EdgeExists => 14,
            Refusal::NoEdge => 15,
            Refusal::Cycle => 16,
            Refusal::RoleInUse => 17,
            Refusal::ObjectInUse => 18,
            Refusal::SetExists => 19,
            Refusal::NoSet => 20,
            Refusal::MemberExists => 21,
            Refusal::NoMember => 22,
            Refusal::BadCardinality => 23,
            Refusal::StaticSeparation(_) => 24,
            Refusal::DynamicSeparation(_) => 25,
            Refusal::NoSession => 26,
            Refusal::SessionExists => 27,
            Refusal::NotOwner => 28,
            Refusal::NotAuthorized => 29,
            Refusal::AlreadyActive => 30,
            Refusal::NotActive => 31,
            Refusal::TooMany(_) => 32,
            Refusal::NoOperation => 33,
            Refusal::BadRequest => 34,
            Refusal::UnknownFunction => 35,
            Refusal::BadCsv(_) => 36,
            Refusal::UserLocked => 37,
            Refusal::Memory => 40,
            Refusal::Store => 41,
            Refusal::Closed => 42,
            Refusal::NotAnOffice => 50,
            Refusal::Version(_) => 51,
            Refusal::Damaged(_) => 52,
        }
    }

    /// Whether an allocation failed, which says nothing about the request itself.
    pub fn is_memory(&self) -> bool
        ensures { result ≡ is_memory self.now }
    {
        matches!(self, Refusal::Memory)
    }

    /// The name of the refusal, without the value that it carries.
    pub fn name(&self) -> &'static str
        ensures { result.now ≡ name_of self.now }
    {
        match self {
            Refusal::BadName => "BadName",
            Refusal::NoUser => "NoUser",
            Refusal::UserExists => "UserExists",
            Refusal::NoRole => "NoRole",
            Refusal::RoleExists => "RoleExists",
            Refusal::NoObject => "NoObject",
            Refusal::ObjectExists => "ObjectExists",
            Refusal::NoPermission => "NoPermission",
            Refusal::PermissionExists => "PermissionExists",
            Refusal::AlreadyAssigned => "AlreadyAssigned",
            Refusal::NotAssigned => "NotAssigned",
            Refusal::AlreadyGranted => "AlreadyGranted",
            Refusal::NotGranted => "NotGranted",
            Refusal::EdgeExists => "EdgeExists",
            Refusal::NoEdge => "NoEdge",
            Refusal::Cycle => "Cycle",
            Refusal::RoleInUse => "RoleInUse",
            Refusal::ObjectInUse => "ObjectInUse",
            Refusal::SetExists => "SetExists",
            Refusal::NoSet => "NoSet",
            Refusal::MemberExists => "MemberExists",
            Refusal::NoMember => "NoMember",
            Refusal::BadCardinality => "BadCardinality",
            Refusal::StaticSeparation(_) => "StaticSeparation",
            Refusal::DynamicSeparation(_) => "DynamicSeparation",
            Refusal::NoSession => "NoSession",
            Refusal::SessionExists => "SessionExists",
            Refusal::NotOwner => "NotOwner",
            Refusal::NotAuthorized => "NotAuthorized",
            Refusal::AlreadyActive => "AlreadyActive",
            Refusal::NotActive => "NotActive",
            Refusal::TooMany(_) => "TooMany",
            Refusal::NoOperation => "NoOperation",
            Refusal::BadRequest => "BadRequest",
            Refusal::UnknownFunction => "UnknownFunction",
            Refusal::BadCsv(_) => "BadCsv",
            Refusal::UserLocked => "UserLocked",
            Refusal::Memory => "Memory",
            Refusal::Store => "Store",
            Refusal::Closed => "Closed",
            Refusal::NotAnOffice => "NotAnOffice",
            Refusal::Version(_) => "Version",
            Refusal::Damaged(_) => "Damaged",
        }
    }
}
