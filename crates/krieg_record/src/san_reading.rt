ghost use Rattle.std.specs.Prelude.{◌≡◌, ◌∷◌, [], IfSome, IfNone};
ghost use Rattle.krieg_moves.specs.Wings as wings;
ghost use Rattle.krieg_record.specs.Matching.{Means};
ghost use Rattle.krieg_record.specs.SanReading as spec;

use crate::matching::{is_ending, is_movement};
use crate::move_traits::{kind_of, own_men};
use crate::notation::{Movement, Notation};
use crate::notation_reading::notation_of;
use krieg_board::{Kind, Move, Position, Promo, Side, Square, lowest, without_lowest};
use krieg_moves::{Wing, after_if_legal, arrival};
use thiserror::Error;

/// Why a text means no move.
#[derive(Clone, Copy, Debug, Error)]
pub enum SanFault {
    /// It is not of the form.
    #[error("not of the form of a move")]
    Syntax,
    /// It is of the form, and may mean no legal move.
    #[error("no legal move")]
    Unknown,
    /// It may mean two legal moves or more.
    #[error("two legal moves or more")]
    Several,
    /// Memory was not found. `read_san` takes none, and never answers it.
    #[error("memory was not found")]
    NoMemory,
}

/// The kind of the man that goes.
fn mover(movement: &Movement) -> Kind
    ensures { result ≡ spec.mover movement.now }
{
    match movement {
        Movement::Castles(_) => Kind::King,
        Movement::ByOfficer(o) => kind_of(o.officer),
        Movement::ByPawn(_) => Kind::Pawn,
    }
}

fn arrival_square(wing: Wing, side: Side) -> Square
    ensures { result ≡ wings.arrival wing side }
{
    Square::new(arrival(wing, side)).unwrap()
}

/// Where the man arrives.
fn arrives(p: &Position, movement: &Movement) -> Square
    ensures { result ≡ spec.arrives p.now movement.now }
{
    match movement {
        Movement::Castles(wing) => arrival_square(*wing, p.side()),
        Movement::ByOfficer(o) => o.to,
        Movement::ByPawn(w) => w.to,
    }
}

/// What a pawn becomes.
fn becomes(movement: &Movement) -> Promo
    ensures { result ≡ spec.becomes movement.now }
{
    match movement {
        Movement::ByPawn(w) => w.promo,
        _ => Promo::Plain,
    }
}

fn move_from(p: &Position, movement: &Movement, from: Square) -> Move
    ensures { result ≡ spec.move_from p.now movement.now from }
{
    Move {
        from,
        to: arrives(p, movement),
        promo: becomes(movement),
    }
}

/// Whether the move from that square is legal, and the text may mean it. What costs least is asked first.
#[tactic(auto, unfolding(crate::specs::Matching::is_matched))]
fn goes_from(p: &Position, n: &Notation, from: Square) -> bool
    ensures { result ≡ spec.goes_from p.now n.now from }
{
    let mv = move_from(p, &n.movement, from);
    if !is_movement(p, &n.movement, &mv) {
        return false;
    }
    match after_if_legal(p, mv) {
        None => false,
        Some(q) => is_ending(n.ending, &q),
    }
}

/// The first of these squares from which a move goes that the text may mean, and the squares behind it.
fn first_from(p: &Position, n: &Notation, squares: u64) -> Option<(Square, u64)>
    ensures some { IfSome result (λ r. spec.leaving p.now n.now squares ≡ r.0
        ∷ spec.leaving p.now n.now r.1) }
    ensures none { IfNone result (spec.leaving p.now n.now squares ≡ []) }
{
    let mut rest = squares;
    while rest != 0 {
        let from = lowest(rest);
        rest = without_lowest(rest);
        if goes_from(p, n, from) {
            return Some((from, rest));
        }
    }
    None
}

/// The move from the one of these squares from which the text may mean one.
fn only_from(p: &Position, n: &Notation, squares: u64) -> Result<Move, SanFault>
    ensures { result ≡ spec.the_only p.now n.now.movement (spec.leaving p.now n.now squares) }
{
    match first_from(p, n, squares) {
        None => Err(SanFault::Unknown),
        Some((from, rest)) => match first_from(p, n, rest) {
            None => Ok(move_from(p, &n.movement, from)),
            Some(_) => Err(SanFault::Several),
        },
    }
}

/// The one legal move that this may mean. Of the own men only those of the kind that goes are looked at.
fn meant_by(p: &Position, n: &Notation) -> Result<Move, SanFault>
    ensures { result ≡ spec.meant_by p.now (Some n.now) }
{
    only_from(p, n, own_men(p, mover(&n.movement)))
}

#[tactic(auto, unfolding(crate::specs::SanReading::meant))]
fn meant(p: &Position, text: &[u8]) -> Result<Move, SanFault>
    ensures { result ≡ spec.meant p.now text.now }
{
    match notation_of(text) {
        None => Err(SanFault::Syntax),
        Some(n) => meant_by(p, &n),
    }
}

/// The one legal move that the text means in Standard Algebraic Notation (PGN standard, section 8.2.3). A
/// text may tell more of the origin than is needed, and need not tell a check or a mate. It takes no memory.
///
/// The fault is `Syntax` for a text that is not of the form, as `0-0` and `e8Q`; `Unknown` where it may
/// mean no legal move, and `Several` where it may mean two.
pub fn read_san(p: &Position, text: &[u8]) -> Result<Move, SanFault>
    ensures means { Means p.now text.now result }
    ensures exact { result ≡ spec.meant p.now text.now }
{
    meant(p, text)
}
