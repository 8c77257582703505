ghost use Rattle.std.specs.Prelude.{◌≡◌, IsTrue};
ghost use Rattle.krieg_text.specs.Writing.{PutsText, Appends};
ghost use Rattle.krieg_moves.specs.Legal.{is_legal};
ghost use Rattle.krieg_record.specs.Matching.{IsOnly};
ghost use Rattle.krieg_record.specs.MoveTraits as traits;
ghost use Rattle.krieg_record.specs.San as spec;

use crate::disambiguation::origin;
use crate::move_traits::{captures, castling, officer_at};
use crate::notation::{CheckSuffix, Movement, Notation, OfficerMove, PawnMove};
use crate::notation_text::put_notation;
use krieg_board::{Move, NoMemory, Position, file_of};
use krieg_moves::{after, in_check, is_mate};
use krieg_text::Text;

/// What the text of the move says of the move itself.
fn movement(p: &Position, mv: &Move) -> Movement
    ensures { result ≡ spec.movement_by p.now mv.now (traits.castling p.now mv.now)
        (traits.officer_at p.now mv.now.from) }
{
    if let Some(wing) = castling(p, mv) {
        return Movement::Castles(wing);
    }
    let captures = captures(p, mv);
    match officer_at(p, mv.from) {
        Some(officer) => Movement::ByOfficer(OfficerMove {
            officer,
            origin: origin(p, officer, mv),
            captures,
            to: mv.to,
        }),
        None => {
            let file = file_of(mv.from.number());
            Movement::ByPawn(PawnMove {
                file: if captures { Some(file) } else { None },
                to: mv.to,
                promo: mv.promo,
            })
        }
    }
}

/// What it says of the position after the move.
fn ending(q: &Position) -> CheckSuffix
    ensures { result ≡ spec.ending q.now }
{
    if is_mate(q) {
        CheckSuffix::Mate
    } else if in_check(q) {
        CheckSuffix::Check
    } else {
        CheckSuffix::Nothing
    }
}

#[tactic(auto, unfolding(crate::specs::San::san))]
fn san(p: &Position, mv: Move) -> Notation
    requires { IsTrue (is_legal p.now mv) }
    ensures { result ≡ spec.san p.now mv }
{
    Notation {
        movement: movement(p, &mv),
        ending: ending(&after(p, mv)),
    }
}

/// Adds the text of the legal move.
#[tactic(auto, using(crate::proofs::Sans::named), unfolding(crate::specs::San::san_text))]
pub(crate) fn put_san(p: &Position, mv: Move, text: &mut Text) -> Result<(), NoMemory>
    requires { IsTrue (is_legal p.now mv) }
    ensures { PutsText result text.old text.new (spec.san_text p.now mv) }
{
    let n = san(p, mv);
    put_notation(&n, text)
}

/// Appends the text of the legal move in Standard Algebraic Notation (PGN standard, section 8.2.3), as
/// `Nf3`, `exd6`, `Rad1`, `O-O` and `e8=Q#`. Where memory runs out, nothing is appended.
pub fn write_san(p: &Position, mv: Move, text: &mut Vec<u8>) -> Result<(), NoMemory>
    requires { IsTrue (is_legal p.now mv) }
    ensures value { Appends result text.old.items text.new.items (spec.san_text p.now mv) }
    // Of all legal moves the text means this one.
    ensures only { IsOnly p.now (spec.san_text p.now mv) mv }
{
    let mut all = Text::after(text);
    let done = put_san(p, mv, &mut all);
    all.end(done, text)
}
