use krieg_board::{Promo, Square};
use krieg_moves::Wing;

/// A man that is no pawn.
#[derive(Clone, Copy)]
pub enum Officer {
    King,
    Queen,
    Rook,
    Bishop,
    Knight,
}

/// What is told of the square that a man leaves: its file, its rank, both or nothing. Each is numbered
/// from 0 to 7.
#[derive(Clone, Copy)]
pub struct Origin {
    pub file: Option<u8>,
    pub rank: Option<u8>,
}

/// An officer goes to a square.
#[derive(Clone, Copy)]
pub struct OfficerMove {
    pub officer: Officer,
    pub origin: Origin,
    pub captures: bool,
    pub to: Square,
}

/// A pawn goes to a square. The file that it leaves is told where it captures, and only there.
#[derive(Clone, Copy)]
pub struct PawnMove {
    pub file: Option<u8>,
    pub to: Square,
    pub promo: Promo,
}

/// What the text of a move says of the move itself.
#[derive(Clone, Copy)]
pub enum Movement {
    Castles(Wing),
    ByOfficer(OfficerMove),
    ByPawn(PawnMove),
}

/// What it says of the position after the move.
#[derive(Clone, Copy)]
pub enum CheckSuffix {
    Nothing,
    Check,
    Mate,
}

/// All that the text of a move says.
#[derive(Clone, Copy)]
pub struct Notation {
    pub movement: Movement,
    pub ending: CheckSuffix,
}
