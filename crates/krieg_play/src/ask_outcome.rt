// What came of asking a side.
ghost use Rattle.std.specs.Prelude.{◌≡◌};
ghost use Rattle.krieg_play.specs.Calls as spec;

use krieg_board::Move;
use krieg_seats::SeatFault;

/// What came of asking a side.
#[derive(Clone, Copy)]
pub enum AskOutcome {
    /// It tries a move.
    Tried(Move),
    /// The seat that was asked failed or left, and was relieved.
    Relieved,
    /// Its last seat left.
    Left,
}

/// The turn of a side whose sitting seat was relieved.
pub(crate) fn relieved_turn(answer: Result<(), SeatFault>) -> Result<AskOutcome, SeatFault>
    ensures { result ≡ spec.relieved_turn answer }
{
    match answer {
        Ok(()) => Ok(AskOutcome::Relieved),
        Err(fault) => Err(fault),
    }
}
