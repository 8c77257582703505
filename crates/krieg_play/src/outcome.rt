// The faults of a call of play.
ghost use Rattle.std.specs.Prelude.{◌≡◌};
ghost use Rattle.krieg_play.specs.Passes as spec;

use krieg_board::Side;
use krieg_seats::SeatFault;

/// Why no game was played to a stop.
#[derive(Clone, Copy)]
pub enum PlayFault {
    /// The side has no seat.
    Vacant(Side),
    /// A call of the side's last seat failed.
    Seat(Side),
    /// There was no memory.
    NoMemory,
}

/// The fault of a call that met the fault of a seat of that side.
pub(crate) fn fault_of(fault: SeatFault, who: Side) -> PlayFault
    ensures { result ≡ spec.fault_of fault who }
{
    match fault {
        SeatFault::Failed => PlayFault::Seat(who),
        SeatFault::NoMemory => PlayFault::NoMemory,
    }
}
