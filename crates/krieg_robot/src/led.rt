// What leading a game came to.
use krieg_play::PlayFault;
use krieg_umpire::{Game, Stop};

/// A game that a guide led, and why it stopped.
#[derive(Drop)]
pub struct Led {
    /// The game, with the tries that were judged.
    pub game: Game,
    /// It has ended, or the side to move left, or as many tries were judged as were allowed.
    pub stop: Stop,
}

/// Why no game was played to a stop.
#[derive(Clone, Copy)]
pub enum LeadFault {
    /// A call of the opponent failed.
    Seat,
    /// There was no memory.
    NoMemory,
}

impl From<PlayFault> for LeadFault {
    ghost use Rattle.std.specs.Prelude.{◌≡◌};
    ghost use Rattle.krieg_robot.specs.Turns.{lead_fault};

    ghost from_gives = { λ fault e. e ≡ lead_fault fault };

    fn from(fault: PlayFault) -> LeadFault {
        match fault {
            PlayFault::Vacant(_) | PlayFault::Seat(_) => LeadFault::Seat,
            PlayFault::NoMemory => LeadFault::NoMemory,
        }
    }
}
