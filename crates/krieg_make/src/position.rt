ghost use Rattle.std.specs.Prelude.{◌≡◌, ◌<◌, Some};
ghost use Rattle.krieg_board.specs.Boards.{empty_board};
ghost use Rattle.krieg_make.specs.MadePositions as spec;

use crate::named::{C1, G1, H7};
use krieg_board::{Bits, Kind, Man, NO_RIGHTS, Position, Side, square_at};

/// How many positions there are.
pub(crate) const POSITION_COUNT: u64 = 1380;

/// The square of the place for pawns with this number, from 0 to 23.
fn pawn_place(u: u8) -> u8
    requires { u < 24 }
    ensures value { result ≡ spec.pawn_place u }
    ensures below { result < 64 }
{
    square_at(u % 6, 2 + u / 6)
}

/// The pair of places with this number, from 0 to 275.
#[tactic(auto, using(crate::proofs::PairNumbers::pair_numbers))]
fn pair_at(q: u64) -> (u8, u8)
    requires { q < 276 }
    ensures value { result ≡ spec.pair_at q }
    ensures lower { result.0 < 24 }
    ensures higher { result.1 < 24 }
{
    let mut lower = 0u8;
    let mut rest = q;
    'lower: while rest >= u64::from(23 - lower) {
        rest -= u64::from(23 - lower);
        lower += 1;
    }
    (lower, lower + 1 + rest as u8)
}

#[tactic(auto, unfolding(krieg_board::specs::Boards::empty_board))]
fn empty_board() -> Bits
    ensures { result ≡ empty_board }
{
    Bits::from_board(&[None; 64])
}

fn man(side: Side, kind: Kind) -> Option<Man>
    ensures { result ≡ Some (spec.man side kind) }
{
    Some(Man { side, kind })
}

/// The board with the black king on this file and the black pawns on these places.
fn made_board(file: u8, lower: u8, higher: u8) -> Bits
    requires file { file < 8 }
    requires lower { lower < 24 }
    requires higher { higher < 24 }
    ensures { result ≡ spec.made_board file (lower, higher) }
{
    empty_board()
        .with(C1, man(Side::White, Kind::King))
        .with(G1, man(Side::White, Kind::Rook))
        .with(H7, man(Side::White, Kind::Rook))
        .with(square_at(file, 7), man(Side::Black, Kind::King))
        .with(pawn_place(lower), man(Side::Black, Kind::Pawn))
        .with(pawn_place(higher), man(Side::Black, Kind::Pawn))
}

/// The made position with this number.
pub(crate) fn made_position(i: u64) -> Position
    requires { i < POSITION_COUNT }
    ensures { result ≡ spec.made_position i }
{
    let (lower, higher) = pair_at(i / 5);
    let board = made_board((i % 5) as u8, lower, higher);
    Position::from_valid(&board, Side::White, NO_RIGHTS, None)
}
