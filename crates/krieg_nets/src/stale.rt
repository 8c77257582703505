ghost use Rattle.std.specs.Prelude.{◌≡◌, ◌<◌, true};
ghost use Rattle.krieg_board.specs.Sets as sets;
ghost use Rattle.krieg_moves.specs.Moves as list;
ghost use Rattle.krieg_nets.specs.LoneKings.{with_king};
ghost use Rattle.krieg_nets.specs.Nets.{AreStale};
ghost use Rattle.krieg_nets.specs.Others.{lone_of};

use crate::men::Men;
use krieg_board::{Kind, Man, NO_RIGHTS, Position, lowest, only, without_lowest};
use krieg_moves::is_stalemate;

/// Whether the lone king is stalemated there.
fn is_stale(men: &Men, square: u8) -> bool
    requires { square < 64 }
    ensures { result ≡ true → list.is_stalemate
        (with_king men.now.bits (lone_of men.now.others) square (lone_of men.now.others)) ≡ true }
{
    let side = men.lone();
    let king = Man {
        side,
        kind: Kind::King,
    };
    let bits = men.bits().with(square, Some(king));
    match Position::of_bits(&bits, side, NO_RIGHTS, None) {
        Ok(p) => is_stalemate(&p),
        Err(_) => false,
    }
}

/// Those of the squares where the lone king, who is to move, is stalemated.
pub(crate) fn stalemates(men: &Men, squares: u64) -> u64
    ensures { AreStale men.now.bits (lone_of men.now.others) result }
{
    let mut rest = squares;
    let mut stale = 0;
    while rest != 0 {
        let square = lowest(rest).number();
        if is_stale(men, square) {
            stale |= only(square);
        }
        rest = without_lowest(rest);
    }
    stale
}
