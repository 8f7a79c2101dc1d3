//! The review functions of the standard, by subject, and one of this office.
//!
//! Each returns a list in byte order without duplicates, or a number. None changes the state.

pub use operations::{role_operations_on_object, user_operations_on_object};
pub use permissions::{permission_roles, role_permissions, user_permissions};
pub use roles::{assigned_roles, assigned_users, authorized_roles, authorized_users};
pub use separation::{
    dsd_role_set_cardinality, dsd_role_set_roles, dsd_role_sets, ssd_role_set_cardinality,
    ssd_role_set_roles, ssd_role_sets,
};
pub use sessions::{session_permissions, session_roles};

pub mod operations;
pub mod permissions;
pub mod roles;
pub mod separation;
pub mod sessions;
