ghost use Rattle.std.specs.Prelude.{◌≡◌, ◌<◌, ◌&&◌, ℕ};
ghost use Rattle.krieg_board.specs.Sets.{has};
ghost use Rattle.krieg_board.specs.Squares.{some_square};
ghost use Rattle.krieg_board.specs.declared.men.Kind.TheVariants.{King};
ghost use Rattle.krieg_board.specs.declared.men.Side.TheVariants.{White};
ghost use Rattle.krieg_rays.specs.Rays.{goes};

use krieg_board::{lowest, without_lowest};
use krieg_rays::king_attacks;

/// The squares next to a square of the set.
pub(crate) fn near(set: u64) -> u64
    ensures { (k : ℕ) → k < 64 → has result k
        ≡ some_square (λ f. has set f && goes King White f k) }
{
    let mut rest = set;
    let mut near = 0;
    while rest != 0 {
        near |= king_attacks(lowest(rest).number());
        rest = without_lowest(rest);
    }
    near
}
