use krieg_board::{Move, Side};
use krieg_pack::{Belief, Packed};
use krieg_split::PackedKey;
use krieg_words::Dialect;

/// The most claims that are written.
pub const MOST_CLAIMS: usize = 20_000;

/// The most positions that these have in all, and the most reasons.
pub const MOST_CLAIMED: usize = 200_000;

/// Why a try does not win all of a set within a number of moves. A claim is cited by its place, counted from 1.
#[derive(Clone, Copy)]
pub enum Why {
    /// One move is left, and in some member the try is legal and does not mate.
    Lives,
    /// It stalemates in some member.
    Stale,
    /// These words may be heard of it and of a reply, and the cited claim denies what is possible then, with one move less.
    Class(PackedKey, u16),
    /// The cited claim denies the members that refuse it, with the same number of moves.
    Refused(u16),
}

/// A try with the reason why it does not win. 12 bytes in memory.
#[derive(Clone, Copy)]
pub struct Reason {
    pub mv: Move,
    pub why: Why,
}

// The claims of a refutation have up to 200,000 of them.
const _: () = prove!(size_of::<Reason>() <= 12);

/// The set cannot be won within so many own moves, for a reason at each try that is legal in some member.
#[derive(Drop)]
pub struct Claim {
    pub moves: u8,
    pub set: Belief,
    pub reasons: Vec<Reason>,
}

/// Claims that show, each by those before it, that no plan of the side mates every listed position within so many own
/// moves, where the umpire tells games in the dialect.
///
/// The parts are as they come: `deny` tells whether they show it.
#[derive(Drop)]
pub struct Refutation {
    pub dialect: Dialect,
    pub side: Side,
    pub moves: u8,
    pub list: Vec<Packed>,
    pub claims: Vec<Claim>,
}
