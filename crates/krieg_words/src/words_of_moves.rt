ghost use Rattle.std.specs.Prelude.{◌≡◌, true, false, ℕ, Some, IsTrue, IfSome, IfNone};
ghost use Rattle.krieg_board.specs.Board.{man_at};
ghost use Rattle.krieg_moves.specs.Legal.{is_legal};
ghost use Rattle.krieg_moves.specs.After.{after};
ghost use Rattle.krieg_moves.specs.Guarding.{IsGuard};
ghost use Rattle.krieg_words.specs.Words.{IsSaid};
ghost use Rattle.krieg_words.specs.WordsOfMoves as spec;

use crate::kinds::kinds_by;
use crate::pawn_tries::count_tries;
use crate::words::{End, Took, Words};
use krieg_board::{Kind, Man, Move, Position, Side, Square, is_man, know_valid};
use krieg_moves::{
    Guard, after, after_if_legal, has_move_by, in_check_by, is_en_passant, passed_square,
};

/// A legal move that was made: what both players hear of it, and the position after it with the guard of its king.
#[derive(Clone, Copy)]
pub struct Made {
    pub words: Words,
    pub position: Position,
    pub guard: Guard,
}

#[tactic(auto, unfolding(krieg_moves::specs::Moves::is_mate, krieg_moves::specs::Moves::is_stalemate))]
fn end_of(p: &Position, guard: &Guard) -> End
    requires { IsGuard p.now guard.now }
    ensures { result ≡ spec.end_of p.now }
{
    if has_move_by(p, guard) {
        End::Goes
    } else if in_check_by(p, guard) {
        End::Mate
    } else {
        End::Stalemate
    }
}

fn taken(man: Option<Man>, s: Square) -> Took
    ensures { result ≡ spec.taken man s }
{
    if man.is_none() {
        Took::Nothing
    } else if is_man(Side::White, Kind::Pawn, man) || is_man(Side::Black, Kind::Pawn, man) {
        Took::Pawn(s)
    } else {
        Took::Piece(s)
    }
}

/// What the move of this man captures.
pub(crate) fn took_by(p: &Position, man: Option<Man>, mv: &Move) -> Took
    ensures { result ≡ spec.took_by p.now man mv.now }
{
    match man {
        None => Took::Nothing,
        Some(man) => {
            if is_en_passant(&p.mark(), man, mv) {
                Took::Pawn(passed_square(mv))
            } else {
                taken(p.man_at(mv.to), mv.to)
            }
        }
    }
}

fn said(took: &Took, p: &Position, guard: &Guard) -> Words
    requires { IsGuard p.now guard.now }
    ensures { result ≡ spec.said took.now p.now }
{
    Words {
        end: end_of(p, guard),
        took: *took,
        checks: kinds_by(p, guard.king, guard.checkers),
        tries: count_tries(p, guard),
    }
}

/// What is said at the start of a game, and of each listed position: nothing was captured, and the
/// checks, tries and end are those of the position.
#[tactic(auto, using(crate::proofs::SaidLaws::said))]
pub fn opening(p: &Position) -> Words
    ensures value { result ≡ spec.opening p.now }
    ensures said { IsSaid result }
{
    know_valid(p);
    opening_of(p)
}

#[tactic(auto, unfolding(crate::specs::WordsOfMoves::opening))]
fn opening_of(p: &Position) -> Words
    ensures { result ≡ spec.opening p.now }
{
    said(&Took::Nothing, p, &Guard::of(p))
}

/// Makes a legal move. Both players hear what it captured, and the checks, tries and end of the position
/// after it.
#[tactic(auto, using(crate::proofs::SaidLaws::said))]
pub fn make_move(p: &Position, mv: Move) -> Made
    requires { IsTrue (is_legal p.now mv) }
    ensures words { result.words ≡ spec.words p.now mv }
    ensures position { result.position ≡ after p.now mv }
    ensures guard { IsGuard result.position result.guard }
    ensures said { IsSaid result.words }
{
    know_valid(p);
    let position = after(p, mv);
    made_to(p, &mv, position)
}

/// Makes the try where its move is legal, and says the same of it as `make_move`. `None` exactly where it is not legal.
/// The move is made once, for both.
#[tactic(auto, using(crate::proofs::SaidLaws::said))]
pub fn make_if_legal(p: &Position, mv: Move) -> Option<Made>
    ensures legal { IfSome result (λ made. is_legal p.now mv ≡ true) }
    ensures illegal { IfNone result (is_legal p.now mv ≡ false) }
    ensures words { IfSome result (λ made. made.words ≡ spec.words p.now mv) }
    ensures position { IfSome result (λ made. made.position ≡ after p.now mv) }
    ensures guard { IfSome result (λ made. IsGuard made.position made.guard) }
    ensures said { IfSome result (λ made. IsSaid made.words) }
{
    know_valid(p);
    match after_if_legal(p, mv) {
        None => None,
        Some(position) => Some(made_to(p, &mv, position)),
    }
}

/// The move that was made, after which the game stands in `position`.
#[tactic(auto, unfolding(crate::specs::WordsOfMoves::words))]
fn made_to(p: &Position, mv: &Move, position: Position) -> Made
    requires { position ≡ after p.now mv.now }
    ensures words { result.words ≡ spec.words p.now mv.now }
    ensures position { result.position ≡ after p.now mv.now }
    ensures guard { IsGuard result.position result.guard }
{
    let took = took_by(p, p.man_at(mv.from), mv);
    let guard = Guard::of(&position);
    Made {
        words: said(&took, &position, &guard),
        position,
        guard,
    }
}

/// What both players hear after a legal move: what it captured, and the checks, tries and end of the
/// position after it.
pub fn words_of(p: &Position, mv: Move) -> Words
    requires { IsTrue (is_legal p.now mv) }
    ensures value { result ≡ spec.words p.now mv }
    ensures said { IsSaid result }
{
    make_move(p, mv).words
}
