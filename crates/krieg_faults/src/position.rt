use thiserror::Error;

/// Why a position is refused: the first of these faults, in this order, that it has.
#[derive(Clone, Copy, Debug, PartialEq, Eq, Error)]
pub enum BadPosition {
    /// A side has not exactly one king.
    #[error("a side has not exactly one king")]
    Kings,
    /// A pawn stands on the first or the last rank.
    #[error("a pawn stands on the first or the last rank")]
    PawnRank,
    /// A side has more than 16 men or more than 8 pawns.
    #[error("a side has more than 16 men or more than 8 pawns")]
    TooManyMen,
    /// The king of the side that is not to move is attacked.
    #[error("the king of the side that is not to move is attacked")]
    IdleInCheck,
    /// A castling right is held whose king or rook has left its square.
    #[error("a castling right is held whose king or rook has left its square")]
    Rights,
    /// The mark is not a square that a pawn of the side not to move may just have crossed.
    #[error("the mark is not a square that a pawn of the side not to move may just have crossed")]
    Mark,
}
