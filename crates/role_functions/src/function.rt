//! The functions that a request may call.
ghost use Rattle.std.specs.Prelude.{◌≡◌};
ghost use Rattle.role_functions.specs.Function.{function_named, longest_body, name_of, takes_csv};

use rbac_sets::Kind;

/// The most bytes of a line, and of a body that isn't CSV.
pub const LONGEST_LINE: usize = 65_536;

/// A function that a request may call: one of the functions of the standard, of those of this office
/// on objects, permissions and locks, or the import of assignments. It identifies the function alone.
/// Each variant links to the variant of `rbac_sets::Command` or `review_mgr::Query` that describes the
/// function and has its arguments. Before the link is the name of the function in the standard, if it
/// has one.
#[derive(Clone, Copy, Debug, PartialEq, Eq)]
pub enum Function {
    /// AddUser: [`Command::AddUser`].
    AddUser,
    /// DeleteUser: [`Command::DeleteUser`].
    DeleteUser,
    /// AddRole: [`Command::AddRole`].
    AddRole,
    /// DeleteRole: [`Command::DeleteRole`].
    DeleteRole,
    /// [`Command::AddPermObj`].
    AddPermObj,
    /// [`Command::DeletePermObj`].
    DeletePermObj,
    /// [`Command::AddPermission`].
    AddPermission,
    /// [`Command::DeletePermission`].
    DeletePermission,
    /// GrantPermission: [`Command::GrantPermission`].
    GrantPermission,
    /// RevokePermission: [`Command::RevokePermission`].
    RevokePermission,
    /// AssignUser: [`Command::AssignUser`].
    AssignUser,
    /// DeassignUser: [`Command::DeassignUser`].
    DeassignUser,
    /// AddInheritance: [`Command::AddInheritance`].
    AddInheritance,
    /// DeleteInheritance: [`Command::DeleteInheritance`].
    DeleteInheritance,
    /// AddAscendant: [`Command::AddAscendant`].
    AddAscendant,
    /// AddDescendant: [`Command::AddDescendant`].
    AddDescendant,
    /// CreateSsdSet: [`Command::CreateSsdSet`].
    CreateSsdSet,
    /// AddSsdRoleMember: [`Command::AddSsdRoleMember`].
    AddSsdRoleMember,
    /// DeleteSsdRoleMember: [`Command::DeleteSsdRoleMember`].
    DeleteSsdRoleMember,
    /// SetSsdSetCardinality: [`Command::SetSsdSetCardinality`].
    SetSsdSetCardinality,
    /// DeleteSsdSet: [`Command::DeleteSsdSet`].
    DeleteSsdSet,
    /// CreateDsdSet: [`Command::CreateDsdSet`].
    CreateDsdSet,
    /// AddDsdRoleMember: [`Command::AddDsdRoleMember`].
    AddDsdRoleMember,
    /// DeleteDsdRoleMember: [`Command::DeleteDsdRoleMember`].
    DeleteDsdRoleMember,
    /// SetDsdSetCardinality: [`Command::SetDsdSetCardinality`].
    SetDsdSetCardinality,
    /// DeleteDsdSet: [`Command::DeleteDsdSet`].
    DeleteDsdSet,
    /// CreateSession: [`Command::CreateSession`].
    CreateSession,
    /// DeleteSession: [`Command::DeleteSession`].
    DeleteSession,
    /// AddActiveRole: [`Command::AddActiveRole`].
    AddActiveRole,
    /// DropActiveRole: [`Command::DropActiveRole`].
    DropActiveRole,
    /// [`Command::LockUserAccount`].
    LockUserAccount,
    /// [`Command::UnlockUserAccount`].
    UnlockUserAccount,
    /// [`Command::ImportAssignments`].
    ImportAssignments,
    /// CheckAccess: [`Query::CheckAccess`].
    CheckAccess,
    /// AssignedUsers: [`Query::AssignedUsers`].
    AssignedUsers,
    /// AssignedRoles: [`Query::AssignedRoles`].
    AssignedRoles,
    /// AuthorizedUsers: [`Query::AuthorizedUsers`].
    AuthorizedUsers,
    /// AuthorizedRoles: [`Query::AuthorizedRoles`].
    AuthorizedRoles,
    /// RolePermissions: [`Query::RolePermissions`].
    RolePermissions,
    /// UserPermissions: [`Query::UserPermissions`].
    UserPermissions,
    /// SessionRoles: [`Query::SessionRoles`].
    SessionRoles,
    /// SessionPermissions: [`Query::SessionPermissions`].
    SessionPermissions,
    /// RoleOperationsOnObject: [`Query::RoleOperationsOnObject`].
    RoleOperationsOnObject,
    /// UserOperationsOnObject: [`Query::UserOperationsOnObject`].
    UserOperationsOnObject,
    /// SsdRoleSets: [`Query::SsdRoleSets`].
    SsdRoleSets,
    /// SsdRoleSetRoles: [`Query::SsdRoleSetRoles`].
    SsdRoleSetRoles,
    /// SsdRoleSetCardinality: [`Query::SsdRoleSetCardinality`].
    SsdRoleSetCardinality,
    /// DsdRoleSets: [`Query::DsdRoleSets`].
    DsdRoleSets,
    /// DsdRoleSetRoles: [`Query::DsdRoleSetRoles`].
    DsdRoleSetRoles,
    /// DsdRoleSetCardinality: [`Query::DsdRoleSetCardinality`].
    DsdRoleSetCardinality,
    /// [`Query::PermissionRoles`].
    PermissionRoles,
}

// Every function, each once.
const FUNCTIONS: [Function; 51] = [
    Function::AddUser,
    Function::DeleteUser,
    Function::AddRole,
    Function::DeleteRole,
    Function::AddPermObj,
    Function::DeletePermObj,
    Function::AddPermission,
    Function::DeletePermission,
    Function::GrantPermission,
    Function::RevokePermission,
    Function::AssignUser,
    Function::DeassignUser,
    Function::AddInheritance,
    Function::DeleteInheritance,
    Function::AddAscendant,
    Function::AddDescendant,
    Function::CreateSsdSet,
    Function::AddSsdRoleMember,
    Function::DeleteSsdRoleMember,
    Function::SetSsdSetCardinality,
    Function::DeleteSsdSet,
    Function::CreateDsdSet,
    Function::AddDsdRoleMember,
    Function::DeleteDsdRoleMember,
    Function::SetDsdSetCardinality,
    Function::DeleteDsdSet,
    Function::CreateSession,
    Function::DeleteSession,
    Function::AddActiveRole,
    Function::DropActiveRole,
    Function::LockUserAccount,
    Function::UnlockUserAccount,
    Function::ImportAssignments,
    Function::CheckAccess,
    Function::AssignedUsers,
    Function::AssignedRoles,
    Function::AuthorizedUsers,
    Function::AuthorizedRoles,
    Function::RolePermissions,
    Function::UserPermissions,
    Function::SessionRoles,
    Function::SessionPermissions,
    Function::RoleOperationsOnObject,
    Function::UserOperationsOnObject,
    Function::SsdRoleSets,
    Function::SsdRoleSetRoles,
    Function::SsdRoleSetCardinality,
    Function::DsdRoleSets,
    Function::DsdRoleSetRoles,
    Function::DsdRoleSetCardinality,
    Function::PermissionRoles,
];

impl Function {
    /// The name by which a request calls the function.
    pub fn name(self) -> &'static str
        ensures { result.now ≡ name_of self }
    {
        match self {
            Function::AddUser => "addUser",
            Function::DeleteUser => "deleteUser",
            Function::AddRole => "addRole",
            Function::DeleteRole => "deleteRole",
            Function::AddPermObj => "addPermObj",
            Function::DeletePermObj => "deletePermObj",
            Function::AddPermission => "addPermission",
            Function::DeletePermission => "deletePermission",
            Function::GrantPermission => "grantPermission",
            Function::RevokePermission => "revokePermission",
            Function::AssignUser => "assignUser",
            Function::DeassignUser => "deassignUser",
            Function::AddInheritance => "addInheritance",
            Function::DeleteInheritance => "deleteInheritance",
            Function::AddAscendant => "addAscendant",
            Function::AddDescendant => "addDescendant",
            Function::CreateSsdSet => "createSsdSet",
            Function::AddSsdRoleMember => "addSsdRoleMember",
            Function::DeleteSsdRoleMember => "deleteSsdRoleMember",
            Function::SetSsdSetCardinality => "setSsdSetCardinality",
            Function::DeleteSsdSet => "deleteSsdSet",
            Function::CreateDsdSet => "createDsdSet",
            Function::AddDsdRoleMember => "addDsdRoleMember",
            Function::DeleteDsdRoleMember => "deleteDsdRoleMember",
            Function::SetDsdSetCardinality => "setDsdSetCardinality",
            Function::DeleteDsdSet => "deleteDsdSet",
            Function::CreateSession => "createSession",
            Function::DeleteSession => "deleteSession",
            Function::AddActiveRole => "addActiveRole",
            Function::DropActiveRole => "dropActiveRole",
            Function::LockUserAccount => "lockUserAccount",
            Function::UnlockUserAccount => "unlockUserAccount",
            Function::ImportAssignments => "importAssignments",
            Function::CheckAccess => "checkAccess",
            Function::AssignedUsers => "assignedUsers",
            Function::AssignedRoles => "assignedRoles",
            Function::AuthorizedUsers => "authorizedUsers",
            Function::AuthorizedRoles => "authorizedRoles",
            Function::RolePermissions => "rolePermissions",
            Function::UserPermissions => "userPermissions",
            Function::SessionRoles => "sessionRoles",
            Function::SessionPermissions => "sessionPermissions",
            Function::RoleOperationsOnObject => "roleOperationsOnObject",
            Function::UserOperationsOnObject => "userOperationsOnObject",
            Function::SsdRoleSets => "ssdRoleSets",
            Function::SsdRoleSetRoles => "ssdRoleSetRoles",
            Function::SsdRoleSetCardinality => "ssdRoleSetCardinality",
            Function::DsdRoleSets => "dsdRoleSets",
            Function::DsdRoleSetRoles => "dsdRoleSetRoles",
            Function::DsdRoleSetCardinality => "dsdRoleSetCardinality",
            Function::PermissionRoles => "permissionRoles",
        }
    }

    /// The function that a request calls by this name, or `None` if there is none. `name` may be any
    /// text; names are compared byte by byte.
    #[tactic(auto, unfolding(crate::specs::Function::function_named))]
    pub fn from_name(name: &str) -> Option<Function>
        ensures { result ≡ function_named name.now }
    {
        FUNCTIONS
            .iter()
            .copied()
            .find(|function| function.name() == name)
    }

    /// Whether the body of a call is CSV instead of JSON: only that of `importAssignments` is.
    pub fn takes_csv(self) -> bool
        ensures { result ≡ takes_csv self }
    {
        matches!(self, Function::ImportAssignments)
    }

    /// The most bytes that the body of a call may have: 2,097,152 if it is CSV, otherwise 65,536.
    pub fn longest_body(self) -> u32
        ensures { result ≡ longest_body self }
    {
        if self.takes_csv() {
            Kind::Byte.limit(2)
        } else {
            LONGEST_LINE as u32
        }
    }
}
