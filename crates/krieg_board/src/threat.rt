ghost use Rattle.std.specs.Prelude.{◌≡◌, ◌<◌};
ghost use Rattle.krieg_board.specs.Attacks as spec;

use crate::attack::{can_reach, is_between, slides};
use crate::bits::Bits;
use crate::men::Side;
use crate::set::{lowest, without_lowest};

/// Whether each square strictly between the two, on their file, rank or diagonal, is empty. Only the men
/// are looked at.
fn is_way_clear(b: &Bits, from: u8, to: u8) -> bool
    ensures { result ≡ spec.is_clear b.now from to }
{
    let mut left = b.occupied();
    while left > 0 {
        let square = lowest(left).number();
        if is_between(from, to, square) {
            return false;
        }
        left = without_lowest(left);
    }
    true
}

/// Whether a man stands on `from` and attacks `to`, as `attacks` says, by the sets of the board.
#[tactic(auto, unfolding(crate::specs::Attacks::attacks))]
fn threatens(b: &Bits, from: u8, to: u8) -> bool
    requires { from < 64 }
    ensures { result ≡ spec.attacks b.now from to }
{
    match b.man_at(from) {
        None => false,
        Some(man) => {
            from != to
                && can_reach(man, from, to)
                && (!slides(man.kind) || is_way_clear(b, from, to))
        }
    }
}

/// Whether a man of that side attacks the square, as `is_attacked` says. Only the men of that side are
/// looked at.
pub(crate) fn is_threatened(b: &Bits, s: u8, by: Side) -> bool
    ensures { result ≡ spec.is_attacked b.now s by }
{
    let mut left = b.men_of(by);
    while left > 0 {
        let from = lowest(left).number();
        if threatens(b, from, s) {
            return true;
        }
        left = without_lowest(left);
    }
    false
}
