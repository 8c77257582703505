ghost use Rattle.std.specs.Prelude.{◌≡◌, ◌≢◌, ◌<◌, ℕ, true};
ghost use Rattle.krieg_board.specs.Attacks.{are_on_diagonal};
ghost use Rattle.krieg_board.specs.Sets.{has};
ghost use Rattle.krieg_words.specs.Diagonals as spec;
ghost use Rattle.krieg_words.specs.Diagonals.{rising_length, falling_length, is_long_diagonal};

use krieg_board::{Square, apart, file_of, rank_of};
use krieg_rays::{falling_through, rising_through};

/// Whether the diagonal through both squares is the longer of the two through the king's square.
/// The squares differ and are on one diagonal. The two diagonals through a square never have the
/// same length.
pub fn long_diagonal(king: Square, other: Square) -> bool
    requires apart { king ≢ other }
    requires diagonal { are_on_diagonal king other ≡ true }
    ensures { result ≡ is_long_diagonal king other }
{
    is_long(king.number(), other.number())
}

#[tactic(auto, using(crate::proofs::Lengths::lengths))]
fn is_long(king: u8, s: u8) -> bool
    requires king { king < 64 }
    requires other { s < 64 }
    ensures { result ≡ is_long_diagonal king s }
{
    let rising = is_rising_longer(king);
    if file_of(s) + rank_of(king) == file_of(king) + rank_of(s) {
        rising
    } else {
        !rising
    }
}

/// Whether of the two diagonals through the square the rising one is the longer.
#[inline]
fn is_rising_longer(s: u8) -> bool
    requires { s < 64 }
    ensures { result ≡ spec.is_rising_longer s }
{
    let rising_length = 8 - apart(file_of(s), rank_of(s));
    let falling_length = 8 - apart(file_of(s) + rank_of(s), 7);
    falling_length < rising_length
}

/// The other squares on the longer diagonal through the square, and those on the shorter.
#[inline]
#[tactic(auto, unfolding(crate::specs::Diagonals::is_on_long, crate::specs::Diagonals::is_on_short))]
pub(crate) fn diagonals_through(s: u8) -> (u64, u64)
    requires { s < 64 }
    ensures long { (k : ℕ) → k < 64 → has result.0 k ≡ spec.is_on_long s k }
    ensures short { (k : ℕ) → k < 64 → has result.1 k ≡ spec.is_on_short s k }
{
    let rising = rising_through(s);
    let falling = falling_through(s);
    if is_rising_longer(s) {
        (rising, falling)
    } else {
        (falling, rising)
    }
}
