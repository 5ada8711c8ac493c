// The memory's faults as faults of the log.
ghost use Rattle.std.specs.Prelude.{◌≡◌};
ghost use Rattle.undo_log.specs.declared.fault.LogFault.TheVariants.{Memory};
ghost use Rattle.undo_log.specs.declared.fault.Place.TheVariants.{Nowhere};
ghost use Rattle.undo_log.specs.Steps.{placed};

use crate::{LogFault, Place};
use memory::MemoryFault;

impl From<MemoryFault> for LogFault {
    ghost from_gives = { λ e r. r ≡ Memory Nowhere e };

    fn from(fault: MemoryFault) -> LogFault {
        LogFault::Memory {
            place: Place::Nowhere,
            fault,
        }
    }
}

// An answer of the memory, with the place at work.
pub(crate) fn at(place: Place, answer: Result<(), MemoryFault>) -> Result<(), LogFault>
    ensures { result ≡ placed place answer }
{
    answer.map_err(|fault| LogFault::Memory { place, fault })
}
