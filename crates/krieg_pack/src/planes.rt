ghost use Rattle.std.specs.Prelude.{◌≡◌, ◌<◌, ℕ, cond};
ghost use Rattle.krieg_board.specs.Sets.{has};
ghost use Rattle.krieg_pack.specs.Packing as spec;

use krieg_board::Bits;

/// The squares with an odd code: pawns, bishops and queens.
#[inline]
pub(crate) fn ones(board: &Bits) -> u64
    ensures { result ≡ spec.plane 0 board.now }
{
    let men = board.sets();
    men.pawns | men.bishops | men.queens
}

/// The squares with 2 in their code: white knights, bishops and kings (2, 3, 6), black pawns, rooks and
/// queens (7, 10, 11).
#[inline]
pub(crate) fn twos(board: &Bits) -> u64
    ensures { result ≡ spec.plane 1 board.now }
{
    let men = board.sets();
    let white = men.white & (men.knights | men.bishops | men.kings);
    let black = men.black & (men.pawns | men.rooks | men.queens);
    white | black
}

/// The squares with 4 in their code: white rooks, queens and kings (4, 5, 6), black pawns and kings
/// (7, 12).
#[inline]
pub(crate) fn fours(board: &Bits) -> u64
    ensures { result ≡ spec.plane 2 board.now }
{
    let men = board.sets();
    let white = men.white & (men.rooks | men.queens | men.kings);
    let black = men.black & (men.pawns | men.kings);
    white | black
}

/// The squares with 8 in their code: black men but pawns (8 to 12).
#[inline]
pub(crate) fn eights(board: &Bits) -> u64
    ensures { result ≡ spec.plane 3 board.now }
{
    let men = board.sets();
    men.black & !men.pawns
}

/// 1 where the square belongs to the set, else 0.
#[inline]
pub(crate) fn bit(set: u64, s: u8) -> u8
    requires { s < 64 }
    ensures { result ≡ cond (has set s) 1 0 }
{
    (set >> s & 1) as u8
}

/// The squares of the first set where `here` has them, and those of the second elsewhere.
#[inline]
pub(crate) fn either(here: u64, first: u64, second: u64) -> u64
    ensures { (k : ℕ) → k < 64 → has result k ≡ cond (has here k) (has first k) (has second k) }
{
    first & here | second & !here
}
