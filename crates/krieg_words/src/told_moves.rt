ghost use Rattle.std.specs.Prelude.{◌≡◌, ◌==◌, ◌&&◌, true, IsTrue};
ghost use Rattle.krieg_moves.specs.Guarding.{IsGuard};
ghost use Rattle.krieg_moves.specs.After.{after};
ghost use Rattle.krieg_moves.specs.Legal.{is_legal};
ghost use Rattle.krieg_words.specs.ToldMoves as spec;
ghost use Rattle.krieg_words.specs.Dialects as dialects;
ghost use Rattle.krieg_words.specs.ToldWords.{tries_told};
ghost use Rattle.krieg_words.specs.PawnTries as pawns;

use crate::dialects::{Dialect, TriesTold, dialect_rules};
use crate::kinds::kinds_of;
use crate::pawn_tries::{count_tries, has_tries};
use crate::told_words::{checks_told, took_told};
use crate::words::{End, Took, Words};
use crate::words_of_moves::took_by;
use krieg_board::{Move, Position};
use krieg_moves::{Guard, after, after_if_legal, has_move_by, in_check_by};

fn is_same_took(a: &Took, b: &Took) -> bool
    ensures { result ≡ spec.is_same_took a.now b.now }
{
    match (a, b) {
        (Took::Nothing, Took::Nothing) => true,
        (Took::Pawn(s), Took::Pawn(t)) | (Took::Piece(s), Took::Piece(t)) => {
            s.number() == t.number()
        }
        _ => false,
    }
}

/// Whether that capture is told of the move. The move is not made for it.
fn is_took_told(d: Dialect, took: &Took, p: &Position, mv: &Move) -> bool
    ensures { result ≡ spec.is_took_told d took.now p.now mv.now }
{
    is_same_took(
        took,
        &took_told(dialect_rules(d).men, &took_by(p, p.man_at(mv.from), mv)),
    )
}

/// Whether that is how the game stands.
#[tactic(auto, unfolding(krieg_moves::specs::Moves::is_mate, krieg_moves::specs::Moves::is_stalemate))]
fn has_end(end: End, p: &Position, guard: &Guard) -> bool
    requires { IsGuard p.now guard.now }
    ensures { result ≡ spec.has_end end p.now }
{
    match end {
        End::Goes => has_move_by(p, guard),
        End::Mate => in_check_by(p, guard) && !has_move_by(p, guard),
        End::Stalemate => !in_check_by(p, guard) && !has_move_by(p, guard),
    }
}

/// What is told of the pawn tries of a position. Where nothing is told, none are looked for.
fn tries_of(tries: TriesTold, p: &Position, guard: &Guard) -> u8
    requires { IsGuard p.now guard.now }
    ensures { result ≡ tries_told tries (pawns.tries p.now) }
{
    match tries {
        TriesTold::Number => count_tries(p, guard),
        TriesTold::Any => { if has_tries(p, guard) { 1 } else { 0 } }
        TriesTold::Untold => 0,
    }
}

/// Whether the dialect tells this end and these tries of a move after which the position is `p`.
fn are_moves_told(d: Dialect, w: &Words, p: &Position) -> bool
    ensures { result ≡ (spec.has_end w.now.end p.now
        && w.now.tries == tries_told (dialects.dialect_rules d).tries (pawns.tries p.now)) }
{
    let guard = &Guard::of(p);
    has_end(w.end, p, guard) && w.tries == tries_of(dialect_rules(d).tries, p, guard)
}

/// Whether the dialect tells these checks, this end and these tries of a move after which the position is `p`.
fn is_rest_told(d: Dialect, w: &Words, p: &Position) -> bool
    ensures { result ≡ spec.is_rest_told d w.now p.now }
{
    w.checks.bits() == checks_told(dialect_rules(d).checks, kinds_of(p)).bits()
        && are_moves_told(d, w, p)
}

/// The position after the move whose capture is told, where the rest is told of it too.
#[tactic(auto, using(crate::proofs::ToldMoves::told_moves))]
fn if_rest_told(d: Dialect, w: &Words, p: &Position, mv: &Move, next: Position) -> Option<Position>
    requires took { spec.is_took_told d w.now.took p.now mv.now ≡ true }
    requires next { next ≡ after p.now mv.now }
    ensures { result ≡ spec.after_told d w.now p.now mv.now }
{
    if is_rest_told(d, w, &next) {
        Some(next)
    } else {
        None
    }
}

/// The position after the legal move, where the dialect tells just these words of it, and otherwise `None`.
///
/// It looks at the capture first, for which the move is not made: of many moves that might have been made, few
/// capture on the square that was heard. Then the move is made once, and the checks, the end and the pawn tries
/// of the position after it are looked at in turn, each only where those before it are as they were heard.
#[tactic(auto, using(crate::proofs::ToldMoves::told_moves))]
pub fn after_told(d: Dialect, w: &Words, p: &Position, mv: Move) -> Option<Position>
    requires { IsTrue (is_legal p.now mv) }
    ensures { result ≡ spec.after_told d w.now p.now mv }
{
    if !is_took_told(d, &w.took, p, &mv) {
        return None;
    }
    let next = after(p, mv);
    if_rest_told(d, w, p, &mv, next)
}

/// The same of a try: the position after it, where it is legal and the dialect tells just these words of it. The move is
/// made once, and not at all where another capture was heard.
#[tactic(auto, using(crate::proofs::ToldMoves::told_tries))]
pub fn after_told_if_legal(d: Dialect, w: &Words, p: &Position, mv: Move) -> Option<Position>
    ensures { result ≡ spec.after_told_if_legal d w.now p.now mv }
{
    if !is_took_told(d, &w.took, p, &mv) {
        return None;
    }
    match after_if_legal(p, mv) {
        None => None,
        Some(next) => if_rest_told(d, w, p, &mv, next),
    }
}
