ghost use Rattle.std.specs.Prelude.{◌≡◌};
ghost use Rattle.krieg_search.specs.Stops.{stop_of};
ghost use Rattle.krieg_search.specs.declared.stop.SearchStop.TheVariants.{NoMemory as OutOfMemory};

use krieg_board::NoMemory;
use krieg_parting::PartStop;
use std::alloc::{AllocError, AllocFailed};

/// Why a search gives no answer.
#[derive(Clone, Copy)]
pub enum SearchStop {
    /// There are fewer units than the search takes.
    Spent,
    /// There is a plan, with more nodes than were allowed, or with too many on a path.
    Large,
    /// Memory was not found.
    NoMemory,
}

impl From<NoMemory> for SearchStop {
    ghost from_gives = { λ _ e. e ≡ OutOfMemory };

    fn from(_error: NoMemory) -> SearchStop {
        SearchStop::NoMemory
    }
}

impl From<AllocError> for SearchStop {
    ghost from_gives = { λ _ e. e ≡ OutOfMemory };

    fn from(_error: AllocError) -> SearchStop {
        SearchStop::NoMemory
    }
}

impl<T: Drop> From<AllocFailed<T>> for SearchStop {
    ghost from_gives = { λ _ e. e ≡ OutOfMemory };

    fn from(_error: AllocFailed<T>) -> SearchStop {
        SearchStop::NoMemory
    }
}

impl From<PartStop> for SearchStop {
    ghost from_gives = { λ stop e. e ≡ stop_of stop };

    fn from(stop: PartStop) -> SearchStop {
        match stop {
            PartStop::Spent => SearchStop::Spent,
            PartStop::NoMemory => SearchStop::NoMemory,
        }
    }
}
