ghost use Rattle.std.specs.Prelude.{◌≡◌, ◌<◌, IfOk};
ghost use Rattle.krieg_umpire.specs.Sessions.{state_of};
ghost use Rattle.krieg_moves.specs.Moves.{plain_move};
ghost use Rattle.krieg_make.specs.MadeSessions as spec;

use crate::named::{F3, F6, G1, G8};
use crate::start::start_position;
use krieg_board::{Move, NoMemory, Promo, Side, Square};
use krieg_umpire::{Event, Session};
use krieg_words::Dialect;
use std::alloc::Global;

/// The move between two squares that names no promotion.
fn plain_move(from: u8, to: u8) -> Move
    requires from { from < 64 }
    requires to { to < 64 }
    ensures { result ≡ plain_move from to }
{
    Move {
        from: Square::new(from).unwrap(),
        to: Square::new(to).unwrap(),
        promo: Promo::Plain,
    }
}

/// Who moves in the round with this number.
fn mover(m: u64) -> Side
    ensures { result ≡ spec.mover m }
{
    if m % 2 == 0 { Side::White } else { Side::Black }
}

/// The move that is made in that round.
fn knight_move(m: u64) -> Move
    ensures { result ≡ spec.knight_move m }
{
    match m % 4 {
        0 => plain_move(G1, F3),
        1 => plain_move(G8, F6),
        2 => plain_move(F3, G1),
        _ => plain_move(F6, G8),
    }
}

/// The move that is tried before it, which is legal nowhere.
fn no_move(number: u32, m: u64) -> Move
    requires { m < 2000 }
    ensures { result ≡ spec.no_move number m }
{
    let z = ((u64::from(number) + m) % 64) as u8;
    plain_move(z, z)
}

fn event(who: Side, mv: Move) -> Event
    ensures { result ≡ spec.event who mv }
{
    Event { who, mv }
}

/// The three tries of the round with this number.
fn round_of(number: u32, m: u64) -> [Event; 3]
    requires { m < 2000 }
    ensures { result ≡ spec.round_of number m }
{
    [
        event(mover(m).other(), no_move(number, m)),
        event(mover(m), no_move(number, m)),
        event(mover(m), knight_move(m)),
    ]
}

/// The tries of the made session of this number.
#[tactic(auto, using(crate::proofs::Rounds::rounds))]
fn made_events(alloc: Global, number: u32) -> Result<Vec<Event>, NoMemory>
    ensures { IfOk result (λ events. events.items ≡ spec.made_events number) }
{
    let mut events = Vec::new(alloc);
    for m in 0..1000 + u64::from(number) % 1000 {
        events.extend_from_slice(&round_of(number, m))?;
    }
    Ok(events)
}

/// The made session of this number: in wild16, from the position in which a game begins, with 1,000 to 1,999 rounds
/// of three tries. In each round the first try is early, the second illegal, and the third is done and silent.
pub fn made_session(alloc: Global, number: u32) -> Result<Session, NoMemory>
    ensures { IfOk result (λ s. state_of s ≡ spec.made_session number) }
{
    Ok(Session {
        dialect: Dialect::Wild16,
        start: start_position(),
        events: made_events(alloc, number)?,
        stop: None,
    })
}
