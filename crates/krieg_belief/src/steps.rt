ghost use Rattle.std.specs.Prelude.{◌≡◌, ◌++◌, ◌<◌, ◌≤◌, true, IfOk, OnOk, Err, map, length};
ghost use Rattle.std.specs.List.{All, filter};
ghost use Rattle.krieg_moves.specs.Legal as rule;
ghost use Rattle.krieg_moves.specs.After as change;
ghost use Rattle.krieg_words.specs.ToldMoves.{are_told};
ghost use Rattle.krieg_wordtext.specs.declared.line.Line.TheVariants.{Heard};
ghost use Rattle.krieg_belief.specs.Staying as staying;
ghost use Rattle.krieg_belief.specs.Steps as spec;
ghost use Rattle.krieg_belief.specs.declared.steps.StepStop.TheVariants as stop;

use krieg_board::{Move, NoMemory, Position, Side};
use krieg_moves::{has_move, is_legal, legal_moves};
use krieg_pack::{Belief, Packed, pack, trim, unpack};
use krieg_words::{Dialect, Words, after_told, after_told_if_legal, compare, opening, told};
use krieg_wordtext::Line;
use std::alloc::Global;

/// Who hears, and in which dialect he is told.
#[derive(Clone, Copy)]
pub(crate) struct Hearing {
    pub dialect: Dialect,
    pub side: Side,
}

/// Why a set was not made.
#[derive(Clone, Copy)]
pub(crate) enum StepStop {
    /// It has more members than the limit allows.
    TooMany,
    /// Memory was not found.
    NoMemory,
}

/// Whether these words are told of the position at the start.
fn has_opening(d: Dialect, w: &Words, p: &Position) -> bool
    ensures { result ≡ staying.has_opening d w.now p.now }
{
    compare(w, &told(d, opening(p))).is_eq()
}

/// The position after the player's own move, where it may be made and has the words.
fn after_done(hearing: Hearing, mv: &Move, w: &Words, p: &Position) -> Option<Position>
    ensures { result ≡ spec.after_done hearing.dialect hearing.side mv.now w.now p.now }
{
    if p.side() != hearing.side {
        return None;
    }
    after_told_if_legal(hearing.dialect, w, p, *mv)
}

/// Adds the positions after those of the legal moves that have the words.
fn push_heard(
    d: Dialect,
    w: &Words,
    p: &Position,
    moves: &[Move],
    out: &mut Vec<Packed>,
) -> Result<(), NoMemory>
    requires { All (λ m. rule.is_legal p.now m ≡ true) moves.now }
    ensures { OnOk result (out.new.items ≡ out.old.items
        ++ map (change.after p.now) (filter (are_told d w.now p.now) moves.now)) }
{
    for mv in moves {
        if let Some(next) = after_told(d, w, p, *mv) {
            out.push(pack(&next))?;
        }
    }
    Ok(())
}

/// Adds the positions after the replies that have the words, where the opponent is to move.
#[tactic(auto, using(crate::proofs::Runs::listed))]
fn push_replies(
    alloc: Global,
    hearing: Hearing,
    w: &Words,
    p: &Position,
    out: &mut Vec<Packed>,
) -> Result<(), NoMemory>
    ensures { OnOk result (out.new.items
        ≡ out.old.items ++ spec.nexts hearing.dialect hearing.side (Heard w.now) p.now) }
{
    if p.side() == hearing.side {
        return Ok(());
    }
    let moves = legal_moves(alloc, p)?;
    push_heard(hearing.dialect, w, p, moves.as_slice(), out)
}

/// Whether a game goes on from this position as it stands by a line of the side's sheet: one that is no move.
pub fn stays(d: Dialect, who: Side, line: &Line, p: &Position) -> bool
    ensures { result ≡ staying.stays d who line.now p.now }
{
    match line {
        Line::Opens(w) => has_opening(d, w, p),
        Line::Illegal(mv) => has_move(p) && (p.side() == who && !is_legal(p, *mv)),
        Line::Early(_) => has_move(p) && p.side() != who,
        Line::Over(_) => !has_move(p),
        Line::Done(_, _) | Line::Heard(_) => false,
    }
}

/// Adds the positions in which a game that stands in `p` may stand after the line.
fn push_next(
    alloc: Global,
    hearing: Hearing,
    line: &Line,
    p: &Position,
    out: &mut Vec<Packed>,
) -> Result<(), NoMemory>
    ensures { OnOk result (out.new.items
        ≡ out.old.items ++ spec.nexts hearing.dialect hearing.side line.now p.now) }
{
    match line {
        Line::Heard(w) => push_replies(alloc, hearing, w, p, out),
        Line::Done(mv, w) => {
            if let Some(next) = after_done(hearing, mv, w, p) {
                out.push(pack(&next))?;
            }
            Ok(())
        }
        _ => {
            if stays(hearing.dialect, hearing.side, line, p) {
                out.push(pack(p))?;
            }
            Ok(())
        }
    }
}

/// The set after one line more. The positions are gathered in a buffer that is never much larger than
/// twice the limit and the replies to one position.
pub(crate) fn step(
    alloc: Global,
    hearing: Hearing,
    line: &Line,
    b: &Belief,
    limit: usize,
) -> Result<Belief, StepStop>
    ensures value { IfOk result (λ n. n ≡ spec.step hearing.dialect hearing.side line.now b.now) }
    ensures small { IfOk result (λ n. length n ≤ limit) }
    ensures too_many { result ≡ Err stop.TooMany →
        limit < length (spec.step hearing.dialect hearing.side line.now b.now) }
{
    let mut out = Vec::new(alloc);
    for k in b.members() {
        let Ok(()) = push_next(alloc, hearing, line, &unpack(k), &mut out) else {
            return Err(StepStop::NoMemory);
        };
        let Ok(()) = trim(&mut out, limit) else {
            return Err(StepStop::TooMany);
        };
    }
    let next = Belief::from_packed(out);
    if next.len() > limit {
        return Err(StepStop::TooMany);
    }
    Ok(next)
}
