ghost use Rattle.std.specs.Prelude.{◌≡◌, ◌∷◌, [], IfOk};
ghost use Rattle.krieg_text.specs.Writing.{PutsLines};
ghost use Rattle.krieg_planfile.specs.HeardStates.{heard_state_of};
ghost use Rattle.krieg_outcome.specs.Parts.{Decides};
ghost use Rattle.krieg_outcome.specs.Next as spec;

use crate::ending::Ending;
use krieg_board::NoMemory;
use krieg_fen::put_move;
use krieg_planfile::{HeardPlan, read_heard_plan};
use krieg_robot::{Guide, GuidedSeat, Next};
use krieg_seats::Seat;
use krieg_text::Text;
use krieg_wordtext::Line;
use std::alloc::Global;

/// Adds the line that says what a player does next.
fn put_next(next: Next, text: &mut Text) -> Result<(), NoMemory>
    ensures { PutsLines result text.old text.new ((spec.next_line next ∷ []) ∷ []) }
{
    match next {
        Next::Try(mv) => {
            text.put(b"try ")?;
            put_move(mv, text)?;
        }
        Next::Wait => text.put(b"wait")?,
        Next::Mated => text.put(b"mated")?,
        Next::Lost => text.put(b"lost")?,
    }
    text.end_line()
}

/// The text that says it.
#[tactic(auto, unfolding(crate::specs::Next::next_text))]
fn next_text(alloc: Global, next: Next) -> Result<Vec<u8>, NoMemory>
    ensures { IfOk result (λ text. text.items ≡ spec.next_text next) }
{
    let mut answer = Vec::new(alloc);
    let mut text = Text::after(&mut answer);
    let done = put_next(next, &mut text);
    text.end(done, &mut answer)?;
    Ok(answer)
}

/// The seat of the guide, once it was told these lines.
fn told_seat<G: Guide>(alloc: Global, guide: G, heard: &[Line]) -> Result<GuidedSeat<G>, NoMemory>
    ensures guide { IfOk result (λ seat. seat.guide ≡ G.guidance guide) }
    ensures heard { IfOk result (λ seat. seat.account.heard ≡ heard.now) }
{
    let mut seat = GuidedSeat::new(alloc, guide);
    for line in heard {
        match seat.tell(*line) {
            Ok(()) => {}
            Err(_) => return Err(NoMemory),
        }
    }
    Ok(seat)
}

/// The text that says what he does next who follows the guide and heard these lines.
pub(crate) fn said_next<G: Guide>(
    alloc: Global,
    guide: G,
    heard: &[Line],
) -> Result<Vec<u8>, NoMemory>
    ensures { IfOk result (λ text. text.items ≡ spec.said_next (G.guidance guide) heard.now) }
{
    let seat = told_seat(alloc, guide, heard)?;
    next_text(alloc, seat.next())
}

/// What `next` answers to the text of a plan file and of what its player heard.
pub(crate) fn answer(alloc: Global, text: Vec<u8>) -> Result<Vec<u8>, Ending>
    ensures { Decides (λ answer. answer.items) result (spec.SaysNext text.items) }
{
    let HeardPlan { file, heard } = read_heard_plan(alloc, &text)?;
    drop(text);
    Ok(said_next(alloc, file, &heard)?)
}
