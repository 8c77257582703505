ghost use Rattle.std.specs.Prelude.{◌≡◌, ◌<◌, ℕ, not};
ghost use Rattle.krieg_board.specs.Board.{man_at};
ghost use Rattle.krieg_board.specs.Hand as spec;
ghost use Rattle.krieg_board.specs.Sets.{has};

use crate::bits::Bits;
use crate::men::{Rights, Side};
use crate::position::Position;

/// The squares that do not hold men of one kind, or nothing, on both boards.
fn differing(a: &Bits, b: &Bits) -> u64
    ensures { (k : ℕ) → k < 64 → has result k
        ≡ not (spec.is_alike (man_at a.now k) (man_at b.now k)) }
{
    let (a, b) = (a.sets(), b.sets());
    (a.pawns ^ b.pawns)
        | (a.knights ^ b.knights)
        | (a.bishops ^ b.bishops)
        | (a.rooks ^ b.rooks)
        | (a.queens ^ b.queens)
        | (a.kings ^ b.kings)
}

fn has_same_men(who: Side, a: &Bits, b: &Bits) -> bool
    ensures { result ≡ spec.has_same_men who a.now b.now }
{
    let own = a.men_of(who);
    own == b.men_of(who) && differing(a, b) & own == 0
}

fn has_same_rights(who: Side, a: Rights, b: Rights) -> bool
    ensures { result ≡ spec.has_same_rights who a b }
{
    match who {
        Side::White => a.white_short == b.white_short && a.white_long == b.white_long,
        Side::Black => a.black_short == b.black_short && a.black_long == b.black_long,
    }
}

/// Whether both positions look the same to `who`: the same men and rights of that side, and the same
/// side to move. Marks and the other side's men and rights are not compared.
#[tactic(auto, unfolding(crate::specs::Hand::same_hand))]
pub fn same_hand(a: &Position, b: &Position, who: Side) -> bool
    ensures { result ≡ spec.same_hand a.now b.now who }
{
    has_same_men(who, a.bits(), b.bits())
        && has_same_rights(who, a.rights(), b.rights())
        && a.side() == b.side()
}
