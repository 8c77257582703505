ghost use Rattle.std.specs.Prelude.{◌≡◌, ◌<◌, ℕ};
ghost use Rattle.krieg_board.specs.declared.men.Kind.TheVariants.{Pawn, Knight, King};
ghost use Rattle.krieg_board.specs.declared.men.Side.TheVariants.{White};
ghost use Rattle.krieg_board.specs.Sets.{has};
ghost use Rattle.krieg_rays.specs.Rays.{goes, is_ahead};

use crate::leap_tables::{KINGS, KNIGHTS};
use crate::pawn_tables::{BLACK_PAWNS, BLACK_STEPS, WHITE_PAWNS, WHITE_STEPS};
use krieg_board::Side;

/// The squares that a knight on the square attacks (FIDE Laws, article 3.6).
#[inline]
#[tactic(auto, using(crate::proofs::Entries::leaps))]
pub fn knight_attacks(s: u8) -> u64
    requires { s < 64 }
    ensures { (k : ℕ) → k < 64 → has result k ≡ goes Knight White s k }
{
    KNIGHTS[s as usize]
}

/// The squares that a king on the square attacks (FIDE Laws, article 3.8.1).
#[inline]
#[tactic(auto, using(crate::proofs::Entries::leaps))]
pub fn king_attacks(s: u8) -> u64
    requires { s < 64 }
    ensures { (k : ℕ) → k < 64 → has result k ≡ goes King White s k }
{
    KINGS[s as usize]
}

/// The squares that a pawn of that side on the square attacks (FIDE Laws, article 3.7.3).
#[inline]
#[tactic(auto, using(crate::proofs::Entries::leaps))]
pub fn pawn_attacks(side: Side, s: u8) -> u64
    requires { s < 64 }
    ensures { (k : ℕ) → k < 64 → has result k ≡ goes Pawn side s k }
{
    match side {
        Side::White => WHITE_PAWNS[s as usize],
        Side::Black => BLACK_PAWNS[s as usize],
    }
}

/// The squares to which a pawn of that side may step from the square, where all of them are empty:
/// the next one, and the one behind it from the rank where pawns begin (FIDE Laws, articles 3.7.1 and
/// 3.7.2).
#[inline]
#[tactic(auto, using(crate::proofs::Entries::leaps))]
pub fn pawn_steps(side: Side, s: u8) -> u64
    requires { s < 64 }
    ensures { (k : ℕ) → k < 64 → has result k ≡ is_ahead side s k }
{
    match side {
        Side::White => WHITE_STEPS[s as usize],
        Side::Black => BLACK_STEPS[s as usize],
    }
}
