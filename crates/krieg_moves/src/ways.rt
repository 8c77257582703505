ghost use Rattle.std.specs.Prelude.{◌≡◌, ◌<◌, ◌≤◌, ◌&&◌, ◌==◌, ℕ};
ghost use Rattle.krieg_board.specs.Sets as sets;
ghost use Rattle.krieg_board.specs.Squares as squares;
ghost use Rattle.krieg_moves.specs.Ways as spec;

use krieg_board::Side;

/// The squares of the a-file.
const WEST: u64 = 0x0101_0101_0101_0101;
/// The squares of the h-file.
const EAST: u64 = 0x8080_8080_8080_8080;

/// The squares of the rank on which a side's pawns begin.
fn pawn_rank_squares(side: Side) -> u64
    ensures { (k : ℕ) → k < 64 → sets.has result k ≡ (squares.rank_of k == squares.pawn_rank side) }
{
    match side {
        Side::White => 0xFF00,
        Side::Black => 0x00FF_0000_0000_0000,
    }
}

/// The squares of which the next one ahead belongs to the set.
fn ahead_in(side: Side, set: u64) -> u64
    ensures { (k : ℕ) → k < 64 → sets.has result k ≡ sets.has set (spec.ahead side k) }
{
    match side {
        Side::White => set >> 8,
        Side::Black => set << 8,
    }
}

/// The squares from which a pawn may go two squares ahead, over an empty one to one of the set.
fn two_ahead_in(side: Side, empty: u64, set: u64) -> u64
    ensures { (k : ℕ) → k < 64 → sets.has result k
        ≡ (sets.has empty (spec.ahead side k) && sets.has set (spec.two_ahead side k)) }
{
    let crossed = empty & ahead_in(side, set);
    pawn_rank_squares(side) & ahead_in(side, crossed)
}

/// The squares from which a pawn captures westward on one of the set.
fn ahead_west_in(side: Side, set: u64) -> u64
    ensures { (k : ℕ) → k < 64 → sets.has result k ≡ sets.has set (spec.ahead_west side k) }
{
    match side {
        Side::White => set >> 7 & !WEST,
        Side::Black => set << 9 & !WEST,
    }
}

/// The squares from which a pawn captures eastward on one of the set.
fn ahead_east_in(side: Side, set: u64) -> u64
    ensures { (k : ℕ) → k < 64 → sets.has result k ≡ sets.has set (spec.ahead_east side k) }
{
    match side {
        Side::White => set >> 9 & !EAST,
        Side::Black => set << 7 & !EAST,
    }
}

/// How many ways a side's pawns have, each direction counted for all of them at once: ahead, one or two squares, to one of
/// the squares `steps`, and to either side to one of the squares `captures`.
pub(crate) fn count_ways(side: Side, pawns: u64, empty: u64, steps: u64, captures: u64) -> usize
    ensures value { result ≡ spec.ways side pawns empty steps captures }
    ensures few { result ≤ 256 }
{
    let ahead = pawns & ahead_in(side, steps);
    let two_ahead = pawns & two_ahead_in(side, empty, steps);
    let west = pawns & ahead_west_in(side, captures);
    let east = pawns & ahead_east_in(side, captures);
    (ahead.count_ones() + two_ahead.count_ones() + west.count_ones() + east.count_ones()) as usize
}
