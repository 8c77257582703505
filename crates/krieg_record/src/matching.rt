ghost use Rattle.std.specs.Prelude.{◌≡◌};
ghost use Rattle.krieg_record.specs.declared.notation.Movement.TheVariants.{ByOfficer, ByPawn};
ghost use Rattle.krieg_record.specs.Matching as spec;

use crate::disambiguation::fits;
use crate::move_traits::{captures, castling, is_own, kind_of};
use crate::notation::{CheckSuffix, Movement, OfficerMove, PawnMove};
use krieg_board::{Kind, Move, Position, Promo, file_of};
use krieg_moves::{in_check, is_mate};

fn is_officer_move(p: &Position, o: &OfficerMove, mv: &Move) -> bool
    ensures { result ≡ spec.is_movement p.now (ByOfficer o.now) mv.now }
{
    castling(p, mv).is_none()
        && is_own(p, kind_of(o.officer), mv.from)
        && fits(o.origin, mv.from)
        && o.captures == captures(p, mv)
        && mv.to == o.to
        && mv.promo == Promo::Plain
}

fn is_pawn_capture(file: Option<u8>, p: &Position, mv: &Move) -> bool
    ensures { result ≡ spec.is_pawn_capture file p.now mv.now }
{
    match file {
        None => !captures(p, mv),
        Some(file) => captures(p, mv) && file_of(mv.from.number()) == file,
    }
}

fn is_pawn_move(p: &Position, w: &PawnMove, mv: &Move) -> bool
    ensures { result ≡ spec.is_movement p.now (ByPawn w.now) mv.now }
{
    is_own(p, Kind::Pawn, mv.from)
        && is_pawn_capture(w.file, p, mv)
        && mv.to == w.to
        && mv.promo == w.promo
}

/// Whether the legal move is such a one.
pub(crate) fn is_movement(p: &Position, movement: &Movement, mv: &Move) -> bool
    ensures { result ≡ spec.is_movement p.now movement.now mv.now }
{
    match movement {
        Movement::Castles(wing) => castling(p, mv) == Some(*wing),
        Movement::ByOfficer(o) => is_officer_move(p, o, mv),
        Movement::ByPawn(w) => is_pawn_move(p, w, mv),
    }
}

/// Whether what is told of the position after the move is true: a mate is a check too.
pub(crate) fn is_ending(ending: CheckSuffix, q: &Position) -> bool
    ensures { result ≡ spec.is_ending ending q.now }
{
    match ending {
        CheckSuffix::Nothing => true,
        CheckSuffix::Check => in_check(q),
        CheckSuffix::Mate => is_mate(q),
    }
}
