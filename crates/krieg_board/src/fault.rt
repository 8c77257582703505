ghost use Rattle.std.specs.Prelude.{◌≡◌, ◌<◌, length, true};
ghost use Rattle.krieg_board.specs.Attacks as attack;
ghost use Rattle.krieg_board.specs.Validity as spec;
ghost use Rattle.krieg_board.specs.Validity.{first_fault};
ghost use Rattle.krieg_board.specs.declared.men.Kind.TheVariants.{Pawn, King};

use crate::bits::{Bits, king_of, know_size};
use crate::board::is_man;
use crate::men::{Kind, Rights, Side};
use crate::square::{
    Square, crossed_rank, file_of, home_rank, landing_rank, pawn_rank, rank_of, square_at,
};
use crate::threat::is_threatened;
use krieg_faults::BadPosition;

/// The squares of the first and of the last rank.
const END_RANKS: u64 = 0xFF00_0000_0000_00FF;

fn count_kings(b: &Bits, side: Side) -> usize
    requires { length b.now ≡ 64 }
    ensures { result ≡ spec.count_kind b.now side King }
{
    (b.sets().kings & b.men_of(side)).count_ones() as usize
}

fn count_pawns(b: &Bits, side: Side) -> usize
    requires { length b.now ≡ 64 }
    ensures { result ≡ spec.count_kind b.now side Pawn }
{
    (b.sets().pawns & b.men_of(side)).count_ones() as usize
}

fn count_side(b: &Bits, side: Side) -> usize
    requires { length b.now ≡ 64 }
    ensures { result ≡ spec.count_side b.now side }
{
    b.men_of(side).count_ones() as usize
}

fn has_kings(b: &Bits) -> bool
    requires { length b.now ≡ 64 }
    ensures { result ≡ spec.has_kings b.now }
{
    count_kings(b, Side::White) == 1 && count_kings(b, Side::Black) == 1
}

fn has_pawns_inside(b: &Bits) -> bool
    ensures { result ≡ spec.has_pawns_inside b.now }
{
    b.sets().pawns & END_RANKS == 0
}

fn is_small(b: &Bits, side: Side) -> bool
    requires { length b.now ≡ 64 }
    ensures { result ≡ spec.is_small b.now side }
{
    count_side(b, side) <= 16 && count_pawns(b, side) <= 8
}

/// Whether the king of that side is attacked, where each side has one.
fn is_king_attacked(b: &Bits, side: Side) -> bool
    requires squares { length b.now ≡ 64 }
    requires kings { spec.has_kings b.now ≡ true }
    ensures { result ≡ attack.is_king_attacked b.now side }
{
    let king = king_of(b, side);
    is_threatened(b, king, side.other())
}

fn has_castle(b: &Bits, held: bool, side: Side, rook_file: u8) -> bool
    requires { rook_file < 8 }
    ensures { result ≡ spec.has_castle b.now held side rook_file }
{
    let king = square_at(4, home_rank(side));
    let rook = square_at(rook_file, home_rank(side));
    !held || is_man(side, Kind::King, b.man_at(king)) && is_man(side, Kind::Rook, b.man_at(rook))
}

fn has_castles(b: &Bits, rights: Rights) -> bool
    ensures { result ≡ spec.has_castles b.now rights }
{
    has_castle(b, rights.white_short, Side::White, 7)
        && has_castle(b, rights.white_long, Side::White, 0)
        && has_castle(b, rights.black_short, Side::Black, 7)
        && has_castle(b, rights.black_long, Side::Black, 0)
}

fn is_crossed(b: &Bits, pawn_side: Side, s: u8) -> bool
    requires { s < 64 }
    ensures { result ≡ spec.is_crossed b.now pawn_side s }
{
    let landing = square_at(file_of(s), landing_rank(pawn_side));
    let start = square_at(file_of(s), pawn_rank(pawn_side));
    rank_of(s) == crossed_rank(pawn_side)
        && is_man(pawn_side, Kind::Pawn, b.man_at(landing))
        && b.man_at(s).is_none()
        && b.man_at(start).is_none()
}

fn has_mark(b: &Bits, to_move: Side, mark: &Option<Square>) -> bool
    ensures { result ≡ spec.has_mark b.now to_move mark.now }
{
    match mark {
        None => true,
        Some(mark) => is_crossed(b, to_move.other(), mark.number()),
    }
}

/// The first fault of the position with these parts, where it has one.
#[tactic(auto, unfolding(crate::specs::Validity::first_fault))]
pub(crate) fn fault_of(
    b: &Bits,
    side: Side,
    rights: Rights,
    mark: &Option<Square>,
) -> Option<BadPosition>
    ensures { result ≡ first_fault (record
        { board = b.now; side = side; rights = rights; mark = mark.now }) }
{
    know_size(b);
    if !has_kings(b) {
        Some(BadPosition::Kings)
    } else if !has_pawns_inside(b) {
        Some(BadPosition::PawnRank)
    } else if !(is_small(b, Side::White) && is_small(b, Side::Black)) {
        Some(BadPosition::TooManyMen)
    } else if is_king_attacked(b, side.other()) {
        Some(BadPosition::IdleInCheck)
    } else if !has_castles(b, rights) {
        Some(BadPosition::Rights)
    } else if !has_mark(b, side, mark) {
        Some(BadPosition::Mark)
    } else {
        None
    }
}
