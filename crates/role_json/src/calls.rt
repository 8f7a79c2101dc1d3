//! What a call of each function asks for.
ghost use Rattle.std.specs.Prelude.{◌≡◌, ◌⊎◌, Ok, Err, IfOk, IfErr};
ghost use Rattle.serde_json.specs.View.{view};
ghost use Rattle.role_json.specs.Calls.{request_to};
ghost use Rattle.role_json.specs.RequestContent.{requested};

use crate::fields::{
    access_at, activation_at, assignment_at, grant_at, inheritance_at, member_at, name_at,
    names_at, new_session_at, owned_session_at, permission_at, separation_at, set_cardinality_at,
    text_at,
};
use crate::request::Request;
use rbac_sets::{Command, Refusal};
use review_mgr::Query;
use role_csv::read_assignments;
use role_functions::Function;
use serde_json::Value;
use std::alloc::Global;

// The request of a call of the function with the arguments in `value`.
#[tactic(auto, unfolding(crate::specs::Calls::request_to, rbac_sets::specs::CommandContent::content_of))]
pub(crate) fn request_to(alloc: Global, called: Function, value: &Value) -> Result<Request, Refusal>
    ensures ok { IfOk result (λ read. request_to called (view value.now) ≡ Ok (requested read)) }
    ensures err { IfErr result (λ refusal. (refusal ≡ Refusal.Memory) ⊎ (request_to called (view value.now) ≡ Err refusal)) }
{
    match called {
        Function::AddUser => {
            let user = name_at(alloc, value, "user")?;
            Ok(Request::Change(Command::AddUser { user }))
        }
        Function::DeleteUser => {
            let user = name_at(alloc, value, "user")?;
            Ok(Request::Change(Command::DeleteUser { user }))
        }
        Function::AddRole => {
            let role = name_at(alloc, value, "role")?;
            Ok(Request::Change(Command::AddRole { role }))
        }
        Function::DeleteRole => {
            let role = name_at(alloc, value, "role")?;
            Ok(Request::Change(Command::DeleteRole { role }))
        }
        Function::AddPermObj => {
            let object = name_at(alloc, value, "object")?;
            Ok(Request::Change(Command::AddPermObj { object }))
        }
        Function::DeletePermObj => {
            let object = name_at(alloc, value, "object")?;
            Ok(Request::Change(Command::DeletePermObj { object }))
        }
        Function::AddPermission => {
            let (object, operation) = permission_at(alloc, value)?;
            Ok(Request::Change(Command::AddPermission { object, operation }))
        }
        Function::DeletePermission => {
            let (object, operation) = permission_at(alloc, value)?;
            Ok(Request::Change(Command::DeletePermission { object, operation }))
        }
        Function::GrantPermission => {
            let (object, operation, role) = grant_at(alloc, value)?;
            Ok(Request::Change(Command::GrantPermission {
                object,
                operation,
                role,
            }))
        }
        Function::RevokePermission => {
            let (object, operation, role) = grant_at(alloc, value)?;
            Ok(Request::Change(Command::RevokePermission {
                object,
                operation,
                role,
            }))
        }
        Function::AssignUser => {
            let (user, role) = assignment_at(alloc, value)?;
            Ok(Request::Change(Command::AssignUser { user, role }))
        }
        Function::DeassignUser => {
            let (user, role) = assignment_at(alloc, value)?;
            Ok(Request::Change(Command::DeassignUser { user, role }))
        }
        Function::LockUserAccount => {
            let user = name_at(alloc, value, "user")?;
            Ok(Request::Change(Command::LockUserAccount { user }))
        }
        Function::UnlockUserAccount => {
            let user = name_at(alloc, value, "user")?;
            Ok(Request::Change(Command::UnlockUserAccount { user }))
        }
        Function::ImportAssignments => {
            let text = text_at(value, "csv")?;
            let pairs = read_assignments(alloc, text.as_bytes())?;
            Ok(Request::Change(Command::ImportAssignments(pairs)))
        }
        Function::AddInheritance => {
            let (asc, desc) = inheritance_at(alloc, value)?;
            Ok(Request::Change(Command::AddInheritance { asc, desc }))
        }
        Function::DeleteInheritance => {
            let (asc, desc) = inheritance_at(alloc, value)?;
            Ok(Request::Change(Command::DeleteInheritance { asc, desc }))
        }
        Function::AddAscendant => {
            let (asc, desc) = inheritance_at(alloc, value)?;
            Ok(Request::Change(Command::AddAscendant { asc, desc }))
        }
        Function::AddDescendant => {
            let (asc, desc) = inheritance_at(alloc, value)?;
            Ok(Request::Change(Command::AddDescendant { asc, desc }))
        }
        Function::CreateSsdSet => {
            let (set, roles, cardinality) = separation_at(alloc, value)?;
            Ok(Request::Change(Command::CreateSsdSet {
                set,
                roles,
                cardinality,
            }))
        }
        Function::AddSsdRoleMember => {
            let (set, role) = member_at(alloc, value)?;
            Ok(Request::Change(Command::AddSsdRoleMember { set, role }))
        }
        Function::DeleteSsdRoleMember => {
            let (set, role) = member_at(alloc, value)?;
            Ok(Request::Change(Command::DeleteSsdRoleMember { set, role }))
        }
        Function::SetSsdSetCardinality => {
            let (set, cardinality) = set_cardinality_at(alloc, value)?;
            Ok(Request::Change(Command::SetSsdSetCardinality { set, cardinality }))
        }
        Function::DeleteSsdSet => {
            let set = name_at(alloc, value, "set")?;
            Ok(Request::Change(Command::DeleteSsdSet { set }))
        }
        Function::CreateDsdSet => {
            let (set, roles, cardinality) = separation_at(alloc, value)?;
            Ok(Request::Change(Command::CreateDsdSet {
                set,
                roles,
                cardinality,
            }))
        }
        Function::AddDsdRoleMember => {
            let (set, role) = member_at(alloc, value)?;
            Ok(Request::Change(Command::AddDsdRoleMember { set, role }))
        }
        Function::DeleteDsdRoleMember => {
            let (set, role) = member_at(alloc, value)?;
            Ok(Request::Change(Command::DeleteDsdRoleMember { set, role }))
        }
        Function::SetDsdSetCardinality => {
            let (set, cardinality) = set_cardinality_at(alloc, value)?;
            Ok(Request::Change(Command::SetDsdSetCardinality { set, cardinality }))
        }
        Function::DeleteDsdSet => {
            let set = name_at(alloc, value, "set")?;
            Ok(Request::Change(Command::DeleteDsdSet { set }))
        }
        Function::CreateSession => {
            let (user, roles, session) = new_session_at(alloc, value)?;
            Ok(Request::Change(Command::CreateSession {
                user,
                roles,
                session,
            }))
        }
        Function::DeleteSession => {
            let (user, session) = owned_session_at(alloc, value)?;
            Ok(Request::Change(Command::DeleteSession { user, session }))
        }
        Function::AddActiveRole => {
            let (user, session, role) = activation_at(alloc, value)?;
            Ok(Request::Change(Command::AddActiveRole {
                user,
                session,
                role,
            }))
        }
        Function::DropActiveRole => {
            let (user, session, role) = activation_at(alloc, value)?;
            Ok(Request::Change(Command::DropActiveRole {
                user,
                session,
                role,
            }))
        }
        Function::CheckAccess => {
            let (session, operation, object) = access_at(alloc, value)?;
            Ok(Request::Ask(Query::CheckAccess {
                session,
                operation,
                object,
            }))
        }
        Function::AssignedUsers => {
            let role = name_at(alloc, value, "role")?;
            Ok(Request::Ask(Query::AssignedUsers { role }))
        }
        Function::AssignedRoles => {
            let user = name_at(alloc, value, "user")?;
            Ok(Request::Ask(Query::AssignedRoles { user }))
        }
        Function::AuthorizedUsers => {
            let role = name_at(alloc, value, "role")?;
            Ok(Request::Ask(Query::AuthorizedUsers { role }))
        }
        Function::AuthorizedRoles => {
            let user = name_at(alloc, value, "user")?;
            Ok(Request::Ask(Query::AuthorizedRoles { user }))
        }
        Function::RolePermissions => {
            let role = name_at(alloc, value, "role")?;
            Ok(Request::Ask(Query::RolePermissions { role }))
        }
        Function::UserPermissions => {
            let user = name_at(alloc, value, "user")?;
            Ok(Request::Ask(Query::UserPermissions { user }))
        }
        Function::SessionRoles => {
            let session = name_at(alloc, value, "session")?;
            Ok(Request::Ask(Query::SessionRoles { session }))
        }
        Function::SessionPermissions => {
            let session = name_at(alloc, value, "session")?;
            Ok(Request::Ask(Query::SessionPermissions { session }))
        }
        Function::RoleOperationsOnObject => {
            let (role, object) = names_at(alloc, value, "role", "object")?;
            Ok(Request::Ask(Query::RoleOperationsOnObject { role, object }))
        }
        Function::UserOperationsOnObject => {
            let (user, object) = names_at(alloc, value, "user", "object")?;
            Ok(Request::Ask(Query::UserOperationsOnObject { user, object }))
        }
        Function::PermissionRoles => {
            let (object, operation) = permission_at(alloc, value)?;
            Ok(Request::Ask(Query::PermissionRoles { object, operation }))
        }
        Function::SsdRoleSets => Ok(Request::Ask(Query::SsdRoleSets)),
        Function::SsdRoleSetRoles => {
            let set = name_at(alloc, value, "set")?;
            Ok(Request::Ask(Query::SsdRoleSetRoles { set }))
        }
        Function::SsdRoleSetCardinality => {
            let set = name_at(alloc, value, "set")?;
            Ok(Request::Ask(Query::SsdRoleSetCardinality { set }))
        }
        Function::DsdRoleSets => Ok(Request::Ask(Query::DsdRoleSets)),
        Function::DsdRoleSetRoles => {
            let set = name_at(alloc, value, "set")?;
            Ok(Request::Ask(Query::DsdRoleSetRoles { set }))
        }
        Function::DsdRoleSetCardinality => {
            let set = name_at(alloc, value, "set")?;
            Ok(Request::Ask(Query::DsdRoleSetCardinality { set }))
        }
    }
}
