use krieg_board::{Move, Side};
use krieg_words::Words;

/// One try by one player, which is judged whole.
#[derive(Clone, Copy)]
pub struct Event {
    pub who: Side,
    pub mv: Move,
}

/// How a try is judged.
#[derive(Clone, Copy)]
pub enum Verdict {
    /// The game has ended.
    Over,
    /// The other player is to move.
    Early,
    /// The move is not legal.
    Illegal,
    /// The move was made, and both players hear its words.
    Done(Words),
}

/// A try with its verdict.
#[derive(Clone, Copy)]
pub struct Judged {
    pub event: Event,
    pub verdict: Verdict,
}

// A game is kept in memory try by try, and may have millions of them.
const _: () = prove!(size_of::<Judged>() <= 16);

/// Why a game that was played stopped.
#[derive(Clone, Copy)]
pub enum Stop {
    /// It ended by mate or stalemate.
    Ended,
    /// That side's player left.
    Left(Side),
    /// As many tries were asked for as were allowed.
    AsksUsed,
}
