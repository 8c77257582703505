ghost use Rattle.std.specs.Prelude.{◌≡◌, ◌<◌, ℕ};
ghost use Rattle.krieg_board.specs.Attacks.{is_between};
ghost use Rattle.krieg_board.specs.Sets.{has};

use crate::lines::{falling_through, file_through, rank_through, rising_through};
use krieg_board::Square;

/// The squares strictly between the two on their file, rank or diagonal; none, where they are on no
/// common line.
pub fn between(a: Square, c: Square) -> u64
    ensures { (k : ℕ) → k < 64 → has result k ≡ is_between a c k }
{
    between_at(a.number(), c.number())
}

/// The squares strictly between the two with these numbers on their file, rank or diagonal; none, where
/// they are on no common line.
#[inline]
pub fn between_at(a: u8, c: u8) -> u64
    requires first { a < 64 }
    requires second { c < 64 }
    ensures { (k : ℕ) → k < 64 → has result k ≡ is_between a c k }
{
    let straight = file_through(a) & file_through(c) | rank_through(a) & rank_through(c);
    let diagonal = rising_through(a) & rising_through(c) | falling_through(a) & falling_through(c);
    let span = ((1 << a) - 1) ^ ((1 << c) - 1);
    span & (straight | diagonal)
}
