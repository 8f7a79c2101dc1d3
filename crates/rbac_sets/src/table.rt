//! The relations of an office.
ghost use Rattle.std.specs.Prelude.{◌≡◌, ◌<◌};
ghost use Rattle.rbac_sets.specs.Table.{number_of, relation_count};

/// A relation of an office.
#[derive(Clone, Copy, Debug, PartialEq, Eq)]
pub enum Table {
    /// USERS.
    Users,
    /// ROLES.
    Roles,
    /// OBS, the objects.
    Objects,
    /// PRMS, the permissions: an object and an operation.
    Permissions,
    /// UA, the user assignments: a user and a role.
    Assignments,
    /// The immediate inheritances: an ascendant and a descendant.
    Inheritances,
    /// The role order: a role, and another role that it inherits from, immediately or through others.
    ClosurePairs,
    /// The roles of static separation of duty sets: a set and a role.
    StaticMembers,
    /// The roles of dynamic separation of duty sets: a set and a role.
    DynamicMembers,
    /// SESSIONS: a session and its user.
    Sessions,
    /// The roles that were activated in sessions: a session and a role.
    ActivatedRoles,
    /// PA, the permission assignments: an object, an operation and a role.
    Grants,
    /// The static separation of duty sets: a set and its cardinality.
    StaticCardinalities,
    /// The dynamic separation of duty sets: a set and its cardinality.
    DynamicCardinalities,
    /// The locked users. Version 2 only.
    Locks,
}

impl Table {
    /// How many relations there are.
    pub const COUNT: usize = 15;

    /// The number of the relation in the order above, from 0.
    pub fn number(self) -> usize
        ensures number { result ≡ number_of self }
        ensures below { result < relation_count }
    {
        self as usize
    }
}
