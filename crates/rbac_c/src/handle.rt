//! The handle of an office, as C holds it.
ghost use Rattle.std.specs.Prelude.{◌≡◌, Some, None, option_map};
ghost use Rattle.std.specs.declared.option.Option.{Option};
ghost use Rattle.std.specs.Coded.{coded_option};
ghost use Rattle.role_lines.specs.OfficeInMemory.{OfficeInMemory, coded_office};
ghost use Rattle.role_lines.specs.contracts.office.MemoryOffice.{the_row};
ghost use Rattle.rbac_c.specs.Held.{holds};

use crate::detached::Detached;
use role_lines::MemoryOffice;
use std::alloc::Global;
use std::marker::Model;
use std::ptr::null_mut;

/// The handle of an office: a pointer to it, which owns it, or null.
///
/// It can't be dropped, so no function can lose an office.
#[repr(C)]
pub struct OfficeHandle {
    at: *mut u8,
    pub ghost office: { Option OfficeInMemory } by { coded_option coded_office },
}

unsafe impl Send for OfficeHandle {}

impl Model for OfficeHandle {
    ghost also_owns = { λ handle. holds the_row handle.at handle.office };
}

impl OfficeHandle {
    // The handle of no office.
    pub(crate) fn none() -> OfficeHandle
        ensures { result.office ≡ None }
    {
        OfficeHandle { at: null_mut() }
    }

    // The handle of this office.
    pub(crate) fn of(office: Box<MemoryOffice>) -> OfficeHandle
        ensures { result.office ≡ Some office.value }
    {
        OfficeHandle::of_detached(Detached::of(office))
    }

    fn of_detached(office: Detached<MemoryOffice, Global>) -> OfficeHandle
        ensures { result.office ≡ Some office.value }
    {
        let Detached { alloc: _, at } = office;
        OfficeHandle { at: at as *mut u8 }
    }

    // The office of the handle, if it has one.
    pub(crate) fn into_box(self, alloc: Global) -> Option<Box<MemoryOffice>>
        ensures { option_map (λ office. office.value) result ≡ self.office }
    {
        match self.into_detached(alloc) {
            Some(detached) => Some(detached.into_box()),
            None => None,
        }
    }

    fn into_detached(self, alloc: Global) -> Option<Detached<MemoryOffice, Global>>
        ensures { option_map (λ office. office.value) result ≡ self.office }
    {
        let OfficeHandle { at } = self;
        if at.is_null() {
            None
        } else {
            Some(Detached {
                alloc,
                at: at as *mut MemoryOffice,
            })
        }
    }
}
