ghost use Rattle.std.specs.Prelude.{◌≡◌, ⊤};
ghost use Rattle.krieg_parting.specs.Charges.{Charges};
ghost use Rattle.krieg_parting.specs.declared.stop.PartStop.TheVariants.{NoMemory as OutOfMemory};

use krieg_board::{NoMemory, Units};
use std::alloc::{AllocError, AllocFailed};

/// Why a set was not parted.
#[derive(Clone, Copy)]
pub enum PartStop {
    /// There are fewer units than it takes.
    Spent,
    /// Memory was not found.
    NoMemory,
}

impl From<NoMemory> for PartStop {
    ghost from_gives = { λ _ e. e ≡ OutOfMemory };

    fn from(_error: NoMemory) -> PartStop {
        PartStop::NoMemory
    }
}

impl From<AllocError> for PartStop {
    ghost from_gives = { λ _ e. e ≡ OutOfMemory };

    fn from(_error: AllocError) -> PartStop {
        PartStop::NoMemory
    }
}

impl<T: Drop> From<AllocFailed<T>> for PartStop {
    ghost from_gives = { λ _ e. e ≡ OutOfMemory };

    fn from(_error: AllocFailed<T>) -> PartStop {
        PartStop::NoMemory
    }
}

/// Takes so many units, or none.
pub fn take(units: &mut Units, n: u64) -> Result<(), PartStop>
    ensures { Charges result (λ _. ⊤) n units.old units.new }
{
    match units.take(n) {
        Ok(()) => Ok(()),
        Err(_) => Err(PartStop::Spent),
    }
}
