//! Why reading a request failed.
use rbac_sets::Fault;
use std::alloc::{AllocError, AllocFailed};

/// Why reading a head or a body failed. The bytes that were read before are lost.
#[derive(Clone, Copy, PartialEq, Eq, Debug)]
pub enum ReadError {
    /// A read of the source failed.
    Fault,
    /// An allocation failed.
    Memory,
}

impl From<Fault> for ReadError {
    ghost use Rattle.std.specs.Prelude.{◌≡◌};
    ghost use Rattle.role_http.specs.declared.read_error.ReadError.TheVariants as unread;

    ghost from_gives = { λ _ why. why ≡ unread.Fault };

    fn from(_fault: Fault) -> ReadError {
        ReadError::Fault
    }
}

impl From<AllocError> for ReadError {
    ghost use Rattle.std.specs.Prelude.{◌≡◌};
    ghost use Rattle.role_http.specs.declared.read_error.ReadError.TheVariants as unread;

    ghost from_gives = { λ _ why. why ≡ unread.Memory };

    fn from(_error: AllocError) -> ReadError {
        ReadError::Memory
    }
}

impl<T: Drop> From<AllocFailed<T>> for ReadError {
    ghost use Rattle.std.specs.Prelude.{◌≡◌};
    ghost use Rattle.role_http.specs.declared.read_error.ReadError.TheVariants as unread;

    ghost from_gives = { λ _ why. why ≡ unread.Memory };

    fn from(_error: AllocFailed<T>) -> ReadError {
        ReadError::Memory
    }
}
