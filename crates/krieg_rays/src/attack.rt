ghost use Rattle.std.specs.Prelude.{◌≡◌, ◌≢◌, ◌<◌, ◌&&◌, ◌==◌, ℕ, true, not, Some, None, length, slice_set};
ghost use Rattle.krieg_board.specs.Attacks.{attacks, man_attacks};
ghost use Rattle.krieg_board.specs.Attacks as spec;
ghost use Rattle.krieg_board.specs.Board.{man_at, is_of};
ghost use Rattle.krieg_board.specs.Squares.{some_square};
ghost use Rattle.krieg_board.specs.Sets.{has};
ghost use Rattle.krieg_rays.specs.Rays.{reaches};
ghost use Rattle.krieg_rays.specs.Snipers.{is_near};

use crate::leaps::{king_attacks, knight_attacks, pawn_attacks};
use crate::lines::{diagonal_among, diagonal_from, straight_among, straight_from};
use krieg_board::{Bits, Kind, Man, Side, Square, lowest, only, without_lowest};

/// The squares of the men of that side that attack the square (FIDE Laws, articles 3.1 to 3.9).
pub fn attackers(b: &Bits, s: Square, by: Side) -> u64
    ensures { (k : ℕ) → k < 64 → has result k ≡ (is_of by (man_at b.now k) && attacks b.now k s) }
{
    attackers_at(b, s.number(), by)
}

/// The pawns, knights and kings who would attack the square, were they of that side.
#[inline]
pub(crate) fn near_men(b: &Bits, s: u8, by: Side) -> u64
    requires { s < 64 }
    ensures { (k : ℕ) → k < 64 → has result k ≡ is_near b.now by s k }
{
    let sets = b.sets();
    pawn_attacks(by.other(), s) & sets.pawns
        | (knight_attacks(s) & sets.knights | king_attacks(s) & sets.kings)
}

/// Those of the men, all of one side, who attack the square where these squares are occupied.
#[inline]
fn attackers_among(b: &Bits, s: u8, by: Side, men: u64, occupied: u64) -> u64
    requires square { s < 64 }
    requires men { (f : ℕ) → f < 64 → has men f ≡ true → is_of by (man_at b.now f) ≡ true }
    ensures { (k : ℕ) → k < 64 → has result k
        ≡ (has men k && reaches occupied (man_at b.now k) k s) }
{
    let sets = b.sets();
    let straight = straight_among(s, occupied, (sets.rooks | sets.queens) & men);
    let diagonal = diagonal_among(s, occupied, (sets.bishops | sets.queens) & men);
    near_men(b, s, by) & men | (straight | diagonal)
}

/// The squares of the men of that side that attack the square with that number.
#[inline]
pub fn attackers_at(b: &Bits, s: u8, by: Side) -> u64
    requires { s < 64 }
    ensures { (k : ℕ) → k < 64 → has result k ≡ (is_of by (man_at b.now k) && attacks b.now k s) }
{
    attackers_among(b, s, by, b.men_of(by), b.occupied())
}

/// The set without that square.
#[inline]
fn left_out(set: u64, s: u8) -> u64
    requires { s < 64 }
    ensures { (k : ℕ) → k < 64 → has result k ≡ (has set k && not (k == s)) }
{
    set & !only(s)
}

/// The squares of the men of that side that attack the square, did nobody stand on the square `gone`.
#[inline]
pub fn attackers_without(b: &Bits, gone: u8, s: u8, by: Side) -> u64
    requires gone { gone < 64 }
    requires square { s < 64 }
    ensures { (k : ℕ) → k < 64 → has result k
        ≡ (is_of by (man_at (slice_set b.now gone None) k)
        && attacks (slice_set b.now gone None) k s) }
{
    let men = left_out(b.men_of(by), gone);
    let occupied = left_out(b.occupied(), gone);
    attackers_among(b, s, by, men, occupied)
}

/// Whether a man of that side attacks the square with that number.
#[inline]
pub fn is_attacked(b: &Bits, s: u8, by: Side) -> bool
    requires { s < 64 }
    ensures { result ≡ spec.is_attacked b.now s by }
{
    attackers_at(b, s, by) != 0
}

/// Whether a man of that side would attack the square, did nobody stand on the square `gone`.
#[inline]
pub fn is_attacked_without(b: &Bits, gone: u8, s: u8, by: Side) -> bool
    requires gone { gone < 64 }
    requires square { s < 64 }
    ensures { result ≡ spec.is_attacked (slice_set b.now gone None) s by }
{
    attackers_without(b, gone, s, by) != 0
}

/// The squares that this man attacks from there, where these squares are occupied.
#[inline]
fn attacked_over(man: Man, from: u8, occupied: u64) -> u64
    requires { from < 64 }
    ensures { (k : ℕ) → k < 64 → has result k ≡ reaches occupied (Some man) from k }
{
    match man.kind {
        Kind::Pawn => pawn_attacks(man.side, from),
        Kind::Knight => knight_attacks(from),
        Kind::King => king_attacks(from),
        Kind::Bishop => diagonal_from(from, occupied),
        Kind::Rook => straight_from(from, occupied),
        Kind::Queen => straight_from(from, occupied) | diagonal_from(from, occupied),
    }
}

/// The squares that this man attacks, where he stands on that square of the board.
#[inline]
pub fn attacked_from(b: &Bits, man: Man, from: u8) -> u64
    requires { from < 64 }
    ensures { (k : ℕ) → k < 64 → has result k ≡ man_attacks b.now (Some man) from k }
{
    attacked_over(man, from, b.occupied())
}

/// The squares that such a man attacks from one of these squares, where those squares are occupied.
#[inline]
fn attacked_by_each(man: Man, men: u64, occupied: u64) -> u64
    ensures { (k : ℕ) → k < 64 → has result k
        ≡ some_square (λ f. has men f && reaches occupied (Some man) f k) }
{
    let mut rest = men;
    let mut attacked = 0;
    while rest != 0 {
        let from = lowest(rest).number();
        attacked |= attacked_over(man, from, occupied);
        rest = without_lowest(rest);
    }
    attacked
}

/// The squares that these men attack, all of one side, where those squares are occupied. Men of one kind are
/// looked at together, so that no square is asked who stands there.
#[inline(always)]
fn attacked_among(b: &Bits, side: Side, men: u64, occupied: u64) -> u64
    requires { (f : ℕ) → f < 64 → has men f ≡ true → is_of side (man_at b.now f) ≡ true }
    ensures { (k : ℕ) → k < 64 → has result k
        ≡ some_square (λ f. has men f && reaches occupied (man_at b.now f) f k) }
{
    let sets = b.sets();
    attacked_by_each(
        Man {
            side,
            kind: Kind::Pawn,
        },
        sets.pawns & men,
        occupied,
    ) | attacked_by_each(
        Man {
            side,
            kind: Kind::Knight,
        },
        sets.knights & men,
        occupied,
    ) | attacked_by_each(
        Man {
            side,
            kind: Kind::Bishop,
        },
        sets.bishops & men,
        occupied,
    ) | attacked_by_each(
        Man {
            side,
            kind: Kind::Rook,
        },
        sets.rooks & men,
        occupied,
    ) | attacked_by_each(
        Man {
            side,
            kind: Kind::Queen,
        },
        sets.queens & men,
        occupied,
    ) | attacked_by_each(
        Man {
            side,
            kind: Kind::King,
        },
        sets.kings & men,
        occupied,
    )
}

/// The squares that men of that side attack.
pub fn attacked_by(b: &Bits, by: Side) -> u64
    ensures { (k : ℕ) → k < 64 → has result k ≡ spec.is_attacked b.now k by }
{
    attacked_among(b, by, b.men_of(by), b.occupied())
}

/// The squares that men of that side would attack, did nobody stand on the square `gone`.
#[inline(always)]
pub fn attacked_by_without(b: &Bits, gone: u8, by: Side) -> u64
    requires { gone < 64 }
    ensures { (k : ℕ) → k < 64 → has result k ≡ spec.is_attacked (slice_set b.now gone None) k by }
{
    let men = left_out(b.men_of(by), gone);
    let occupied = left_out(b.occupied(), gone);
    attacked_among(b, by, men, occupied)
}

/// The squares that the men of a side would attack behind the move of this man of theirs to the square `to`, did nobody
/// stand on the square `gone`. No board is made: those who stay are looked at where they stand.
#[inline(always)]
pub fn attacked_behind(b: &Bits, gone: u8, from: u8, to: u8, man: Man) -> u64
    requires size { length b.now ≡ 64 }
    requires gone { gone < 64 }
    requires from { from < 64 }
    requires to { to < 64 }
    requires apart { to ≢ gone }
    ensures { (k : ℕ) → k < 64 → has result k
        ≡ spec.is_attacked (slice_set (slice_set (slice_set b.now from None) to (Some man)) gone
        None) k man.side }
{
    let others = left_out(left_out(b.men_of(man.side), from), gone);
    let squares = left_out(left_out(b.occupied(), from), gone);
    let occupied = squares | only(to);
    attacked_among(b, man.side, left_out(others, to), occupied) | attacked_over(man, to, occupied)
}
