//! The commands that change an office.
use crate::name::Name;
use crate::sets::NameSet;

/// A command that changes an office: one of the administrative commands of the standard, of its
/// commands on sessions, of the locks of version 2, or the import of assignments.
///
/// docs/explanation/model.md describes what each command does, when it is refused and in which order the
/// refusals are judged. `asc` is the ascendant and `desc` the descendant of an inheritance.
/// `cardinality` is how many members of a separation of duty set are too many: a user is authorized
/// for fewer members of a static set, and a session has fewer members of a dynamic set among its
/// roles. Each change ends the sessions whose user is deleted or locked, or is no longer authorized
/// for an activated role.
#[derive(Drop)]
pub enum Command {
    /// AddUser: creates a user.
    AddUser {
        user: Name,
    },
    /// DeleteUser: deletes a user with its assignments, its sessions and its lock.
    DeleteUser {
        user: Name,
    },
    /// AddRole: creates a role.
    AddRole {
        role: Name,
    },
    /// DeleteRole: deletes a role with its assignments and grants.
    DeleteRole {
        role: Name,
    },
    /// Creates an object.
    AddPermObj {
        object: Name,
    },
    /// Deletes an object that has no permission.
    DeletePermObj {
        object: Name,
    },
    /// Creates the permission for an operation on an object.
    AddPermission {
        object: Name,
        operation: Name,
    },
    /// Deletes a permission with its grants.
    DeletePermission {
        object: Name,
        operation: Name,
    },
    /// GrantPermission: grants a permission to a role.
    GrantPermission {
        object: Name,
        operation: Name,
        role: Name,
    },
    /// RevokePermission: removes the grant of a permission to a role.
    RevokePermission {
        object: Name,
        operation: Name,
        role: Name,
    },
    /// AssignUser: assigns a user to a role.
    AssignUser {
        user: Name,
        role: Name,
    },
    /// DeassignUser: removes the assignment of a user to a role.
    DeassignUser {
        user: Name,
        role: Name,
    },
    /// AddInheritance: makes `asc` an immediate ascendant of `desc`.
    AddInheritance {
        asc: Name,
        desc: Name,
    },
    /// DeleteInheritance: removes the immediate inheritance of `asc` from `desc`.
    DeleteInheritance {
        asc: Name,
        desc: Name,
    },
    /// AddAscendant: creates the role `asc` as an immediate ascendant of `desc`.
    AddAscendant {
        asc: Name,
        desc: Name,
    },
    /// AddDescendant: creates the role `desc` as an immediate descendant of `asc`.
    AddDescendant {
        asc: Name,
        desc: Name,
    },
    /// CreateSsdSet: creates a static separation of duty set.
    CreateSsdSet {
        set: Name,
        roles: NameSet,
        cardinality: u32,
    },
    /// AddSsdRoleMember: makes a role a member of a static separation of duty set.
    AddSsdRoleMember {
        set: Name,
        role: Name,
    },
    /// DeleteSsdRoleMember: removes a member from a static separation of duty set.
    DeleteSsdRoleMember {
        set: Name,
        role: Name,
    },
    /// SetSsdSetCardinality: changes the cardinality of a static separation of duty set.
    SetSsdSetCardinality {
        set: Name,
        cardinality: u32,
    },
    /// DeleteSsdSet: deletes a static separation of duty set.
    DeleteSsdSet {
        set: Name,
    },
    /// CreateDsdSet: creates a dynamic separation of duty set.
    CreateDsdSet {
        set: Name,
        roles: NameSet,
        cardinality: u32,
    },
    /// AddDsdRoleMember: makes a role a member of a dynamic separation of duty set.
    AddDsdRoleMember {
        set: Name,
        role: Name,
    },
    /// DeleteDsdRoleMember: removes a member from a dynamic separation of duty set.
    DeleteDsdRoleMember {
        set: Name,
        role: Name,
    },
    /// SetDsdSetCardinality: changes the cardinality of a dynamic separation of duty set.
    SetDsdSetCardinality {
        set: Name,
        cardinality: u32,
    },
    /// DeleteDsdSet: deletes a dynamic separation of duty set.
    DeleteDsdSet {
        set: Name,
    },
    /// CreateSession: creates a session of a user in which exactly these roles are activated.
    CreateSession {
        user: Name,
        roles: NameSet,
        session: Name,
    },
    /// DeleteSession: deletes a user's session.
    DeleteSession {
        user: Name,
        session: Name,
    },
    /// AddActiveRole: activates a role in a user's session.
    AddActiveRole {
        user: Name,
        session: Name,
        role: Name,
    },
    /// DropActiveRole: deactivates a role in a user's session.
    DropActiveRole {
        user: Name,
        session: Name,
        role: Name,
    },
    /// Locks a user and ends its sessions. Version 2 only.
    LockUserAccount {
        user: Name,
    },
    /// Removes the lock of a user. Version 2 only.
    UnlockUserAccount {
        user: Name,
    },
    /// Assigns each of these users to its role, one pair after the other; a refused pair changes nothing.
    ImportAssignments(Vec<(Name, Name)>),
}
