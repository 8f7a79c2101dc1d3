//! Rows of an office's relations, and changes of them.
ghost use Rattle.std.specs.Prelude.{◌≡◌, true};
ghost use Rattle.rbac_sets.specs.declared.row.Row.TheVariants.{NameRow, PairRow, GrantRow, SetRow, LockedRow};
ghost use Rattle.rbac_sets.specs.Named.{is_named, row_of};
ghost use Rattle.rbac_sets.specs.RowKinds.{activated_role_kind, assignment_kind, object_kind, permission_kind, role_kind, session_kind, user_kind};
ghost use Rattle.rbac_sets.specs.Table.{table_of};

use crate::name::Name;
use crate::table::Table;

/// One row of an office, which is one entry of one of its relations. Its kind, if its variant has one,
/// is one of the constants below; no relation has a row of another kind.
#[derive(Drop)]
pub enum Row {
    /// A name of a kind: a user, a role or an object.
    NameRow(u8, Name),
    /// A pair of a kind: a permission, an assignment, an inheritance, a pair of the role order, a member
    /// of a separation of duty set, a session or an activated role.
    PairRow(u8, Name, Name),
    /// A grant: object, operation, role.
    GrantRow(Name, Name, Name),
    /// The cardinality of a separation of duty set, static or dynamic by its kind.
    SetRow(u8, Name, u32),
    /// A locked user. Version 2 only.
    LockedRow(Name),
}

// The kinds of names.
impl Row {
    /// A user.
    pub const USER: u8 = 1;
    /// A role.
    pub const ROLE: u8 = 2;
    /// An object.
    pub const OBJECT: u8 = 3;
}

// The kinds of pairs.
impl Row {
    /// A permission: object, operation.
    pub const PERMISSION: u8 = 1;
    /// An assignment: user, role.
    pub const ASSIGNMENT: u8 = 2;
    /// An immediate inheritance: ascendant, descendant.
    pub const INHERITANCE: u8 = 3;
    /// A pair of the role order: a role, and another one that it inherits from.
    pub const CLOSURE_PAIR: u8 = 4;
    /// A member of a static separation of duty set: set, role.
    pub const STATIC_MEMBER: u8 = 5;
    /// A member of a dynamic separation of duty set: set, role.
    pub const DYNAMIC_MEMBER: u8 = 6;
    /// A session: session, user.
    pub const SESSION: u8 = 7;
    /// A role that was activated in a session: session, role.
    pub const ACTIVATED_ROLE: u8 = 8;
}

// The kinds of cardinalities.
impl Row {
    /// Of a static separation of duty set.
    pub const STATIC_CARDINALITY: u8 = 1;
    /// Of a dynamic separation of duty set.
    pub const DYNAMIC_CARDINALITY: u8 = 2;
}

impl Row {
    /// The relation that the row belongs to, or `None` if no relation has rows of its kind.
    pub fn table(&self) -> Option<Table>
        ensures { result ≡ table_of self.now }
    {
        match self {
            Row::NameRow(Row::USER, _) => Some(Table::Users),
            Row::NameRow(Row::ROLE, _) => Some(Table::Roles),
            Row::NameRow(Row::OBJECT, _) => Some(Table::Objects),
            Row::PairRow(Row::PERMISSION, _, _) => Some(Table::Permissions),
            Row::PairRow(Row::ASSIGNMENT, _, _) => Some(Table::Assignments),
            Row::PairRow(Row::INHERITANCE, _, _) => Some(Table::Inheritances),
            Row::PairRow(Row::CLOSURE_PAIR, _, _) => Some(Table::ClosurePairs),
            Row::PairRow(Row::STATIC_MEMBER, _, _) => Some(Table::StaticMembers),
            Row::PairRow(Row::DYNAMIC_MEMBER, _, _) => Some(Table::DynamicMembers),
            Row::PairRow(Row::SESSION, _, _) => Some(Table::Sessions),
            Row::PairRow(Row::ACTIVATED_ROLE, _, _) => Some(Table::ActivatedRoles),
            Row::GrantRow(_, _, _) => Some(Table::Grants),
            Row::SetRow(Row::STATIC_CARDINALITY, _, _) => Some(Table::StaticCardinalities),
            Row::SetRow(Row::DYNAMIC_CARDINALITY, _, _) => Some(Table::DynamicCardinalities),
            Row::LockedRow(_) => Some(Table::Locks),
            _ => None,
        }
    }

    /// The row of a user.
    pub fn user(name: Name) -> Row
        ensures { result ≡ NameRow user_kind name }
    {
        Row::NameRow(Row::USER, name)
    }

    /// The row of a role.
    pub fn role(name: Name) -> Row
        ensures { result ≡ NameRow role_kind name }
    {
        Row::NameRow(Row::ROLE, name)
    }

    /// The row of an object.
    pub fn object(name: Name) -> Row
        ensures { result ≡ NameRow object_kind name }
    {
        Row::NameRow(Row::OBJECT, name)
    }

    /// The row of the permission to do `operation` on `object`.
    pub fn permission(object: Name, operation: Name) -> Row
        ensures { result ≡ PairRow permission_kind object operation }
    {
        Row::PairRow(Row::PERMISSION, object, operation)
    }

    /// The row of the assignment of `user` to `role`.
    pub fn assignment(user: Name, role: Name) -> Row
        ensures { result ≡ PairRow assignment_kind user role }
    {
        Row::PairRow(Row::ASSIGNMENT, user, role)
    }

    /// The row of the session `session` of `user`.
    pub fn session(session: Name, user: Name) -> Row
        ensures { result ≡ PairRow session_kind session user }
    {
        Row::PairRow(Row::SESSION, session, user)
    }

    /// The row of the role `role` that was activated in `session`.
    pub fn activated_role(session: Name, role: Name) -> Row
        ensures { result ≡ PairRow activated_role_kind session role }
    {
        Row::PairRow(Row::ACTIVATED_ROLE, session, role)
    }

    /// The row of the grant to `role` of the permission to do `operation` on `object`.
    pub fn grant(object: Name, operation: Name, role: Name) -> Row
        ensures { result ≡ GrantRow object operation role }
    {
        Row::GrantRow(object, operation, role)
    }

    /// The row of the lock of `user`.
    pub fn lock(user: Name) -> Row
        ensures { result ≡ LockedRow user }
    {
        Row::LockedRow(user)
    }

    /// Recalls, for a proof, that each name of the row is valid. It has no effect.
    pub fn recall_names(&self)
        ensures { is_named self.now ≡ true }
    {
        match self {
            Row::NameRow(_, a) | Row::SetRow(_, a, _) | Row::LockedRow(a) => {
                a.as_str();
            }
            Row::PairRow(_, a, b) => {
                a.as_str();
                b.as_str();
            }
            Row::GrantRow(a, b, c) => {
                a.as_str();
                b.as_str();
                c.as_str();
            }
        }
    }
}

/// The insertion or deletion of one row.
#[derive(Drop)]
pub enum Change {
    /// Inserts a row that is not there.
    Put(Row),
    /// Deletes a row that is there.
    Take(Row),
}

impl Change {
    /// Recalls, for a proof, that each name of the row is valid. It has no effect.
    pub fn recall_names(&self)
        ensures { is_named (row_of self.now) ≡ true }
    {
        match self {
            Change::Put(row) | Change::Take(row) => row.recall_names(),
        }
    }
}
