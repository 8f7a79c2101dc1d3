//! Refusals that name the first violated separation of duty set.
ghost use Rattle.std.specs.Prelude.{◌≡◌, IfOk};
ghost use Rattle.std.specs.Option.{option_copied, option_map};
ghost use Rattle.rbac_sets.specs.Sets.{Cardinality};
ghost use Rattle.admin_mgr.specs.private.SeparationOfDuty.{refusal_of};

use crate::separation_of_duty::SeparationOfDuty;
use rbac_sets::{Name, Refusal};
use std::alloc::{AllocError, Global};

// The refusal that names this set, or `None` if there is no set.
pub(crate) fn name_violated(
    alloc: Global,
    duty: SeparationOfDuty,
    violated: Option<&(Name, u32)>,
) -> Result<Option<Refusal>, AllocError>
    ensures { IfOk result (λ found. found ≡ option_map (refusal_of duty) (option_map (λ (entry : Cardinality). entry.0) (option_copied violated.entry))) }
{
    match violated {
        Some(entry) => {
            let set = copied(alloc, &entry.0)?;
            Ok(Some(duty.refusal(set)))
        }
        None => Ok(None),
    }
}

// A copy of the name.
pub(crate) fn copied(alloc: Global, name: &Name) -> Result<Name, AllocError>
    ensures { IfOk result (λ copy. copy ≡ name.now) }
{
    match name.copy(alloc) {
        Ok(copy) => Ok(copy),
        Err(_) => Err(AllocError),
    }
}
