ghost use Rattle.std.specs.Prelude.{◌≡◌, ◌&&◌, ◌++◌, ◌∷◌, List, IfOk, OnOk, IfSome, IfNone, true, false};
ghost use Rattle.krieg_board.specs.Men.{is_same_side};
ghost use Rattle.krieg_moves.specs.After as change;
ghost use Rattle.krieg_moves.specs.Legal.{is_legal};
ghost use Rattle.krieg_record.specs.Records.{AreLegal, IsRecord};
ghost use Rattle.krieg_record.specs.Records as game;
ghost use Rattle.krieg_umpire.specs.Games.{judge};
ghost use Rattle.krieg_umpire.specs.declared.verdict.Event.{Event as EventState};
ghost use Rattle.krieg_umpire.specs.Sessions as session;
ghost use Rattle.krieg_umpire.specs.Scores as spec;

use crate::session::Session;
use crate::verdict::Event;
use krieg_board::{Move, NoMemory, Position, know_valid};
use krieg_moves::{after, after_if_legal};
use krieg_record::Record;
use krieg_words::Dialect;
use std::alloc::Global;

/// The position after the try, where it is done: its player is to move, and its move is legal. Where the
/// game is over, no move is legal.
fn after_try(p: &Position, event: &Event) -> Option<Position>
    ensures done { IfSome result (λ q. (is_same_side event.now.who p.now.side
        && is_legal p.now event.now.mv) ≡ true) }
    ensures position { IfSome result (λ q. q ≡ change.after p.now event.now.mv) }
    ensures other { IfNone result ((is_same_side event.now.who p.now.side
        && is_legal p.now event.now.mv) ≡ false) }
{
    if event.who != p.side() {
        return None;
    }
    after_if_legal(p, event.mv)
}

/// Makes the try, and adds its move to the moves, where it is done.
#[tactic(auto, using(crate::proofs::DoneMoves::done))]
fn add_try(event: &Event, p: &mut Position, moves: &mut Vec<Move>) -> Result<(), NoMemory>
    ensures { OnOk result ((es : List EventState) →
        moves.new.items ++ spec.done_moves (judge p.new es) ≡ moves.old.items
        ++ spec.done_moves (judge p.old (event.now ∷ es))) }
{
    match after_try(p, event) {
        None => Ok(()),
        Some(q) => {
            moves.push(event.mv)?;
            *p = q;
            Ok(())
        }
    }
}

/// The moves of the tries that are done from this position on, in their order.
fn moves_of(alloc: Global, start: &Position, events: &[Event]) -> Result<Vec<Move>, NoMemory>
    ensures { IfOk result (λ ms. ms.items ≡ spec.done_moves (judge start.now events.now)) }
{
    let mut moves = Vec::new(alloc);
    let mut p = *start;
    for event in events {
        add_try(event, &mut p, &mut moves)?;
    }
    Ok(moves)
}

/// The record of the session: where it starts, and the moves of its tries that were done.
#[tactic(auto, using(crate::proofs::DoneMoves::done_legal))]
pub fn record_of(alloc: Global, s: &Session) -> Result<Record, NoMemory>
    ensures value { IfOk result (λ r. game.state_of r ≡ spec.record_of (session.state_of s.now)) }
    ensures game { IfOk result (λ r. IsRecord (game.state_of r)) }
{
    know_valid(&s.start);
    Ok(Record {
        start: s.start,
        moves: moves_of(alloc, &s.start, &s.events)?,
    })
}

/// Each move as a try by the side to move.
fn tries_of(alloc: Global, start: &Position, moves: &[Move]) -> Result<Vec<Event>, NoMemory>
    requires { AreLegal start.now moves.now }
    ensures { IfOk result (λ es. es.items ≡ spec.tries_of start.now moves.now) }
{
    let mut events = Vec::with_capacity(alloc, moves.len())?;
    let mut p = *start;
    for mv in moves {
        events.push(Event {
            who: p.side(),
            mv: *mv,
        })?;
        p = after(&p, *mv);
    }
    Ok(events)
}

/// The session of the record: each move is a try by the side to move, in wild16, and why the game stopped
/// is not told.
pub fn session_of(alloc: Global, r: &Record) -> Result<Session, NoMemory>
    requires { AreLegal r.now.start r.now.moves.items }
    ensures { IfOk result (λ s. session.state_of s ≡ spec.session_of (game.state_of r.now)) }
{
    Ok(Session {
        dialect: Dialect::Wild16,
        start: r.start,
        events: tries_of(alloc, &r.start, &r.moves)?,
        stop: None,
    })
}
