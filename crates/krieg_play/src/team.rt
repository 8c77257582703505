// One side: its turns, what it is told, and its reliefs.
ghost use Rattle.std.specs.Prelude.{◌≡◌, ◌↔◌, ◌+◌, ◌<◌, ◌≤◌, ◌++◌, ◌∷◌, [], IsTrue, Ok, Err, option_to_list, vec_len, vec_capacity};
ghost use Rattle.krieg_seats.specs.Accounts.{Asked, Told};
ghost use Rattle.krieg_play.specs.Teams.{team_of, HasFailed, IsGone};
ghost use Rattle.krieg_play.specs.Calls.{lines_to, ToldAll, FirstChanges, IsReady, Relieves, Tells, TakesTurn, EndsTurn, IsLastOnes};

use crate::player::Player;
use crate::telling::{ask_seat, tell_all, tell_seat};
use crate::{AskOutcome, relieved_turn};
use krieg_board::{Position, Side};
use krieg_seats::{Say, Seat, SeatFault};
use krieg_umpire::Judged;
use krieg_wordtext::Line;

/// Asks the seat that sits.
fn ask_first(seats: &mut Vec<Box<dyn Seat>>) -> Result<Say, SeatFault>
    requires { 0 < vec_len seats.old }
    ensures { FirstChanges (λ x y. Asked result (account x) (account y)) seats.old.items
        seats.new.items }
{
    ask_seat(&mut seats[0])
}

/// Tells the seat that sits a line.
fn tell_first(seats: &mut Vec<Box<dyn Seat>>, line: Line) -> Result<(), SeatFault>
    requires { 0 < vec_len seats.old }
    ensures { FirstChanges (λ x y. Told line result (account x) (account y)) seats.old.items
        seats.new.items }
{
    tell_seat(&mut seats[0], line)
}

/// Tells the seat that sits all lines of its side so far.
fn tell_all_first(
    seats: &mut Vec<Box<dyn Seat>>,
    start: &Position,
    who: Side,
    log: &[Judged],
) -> Result<(), SeatFault>
    requires { 0 < vec_len seats.old }
    ensures { FirstChanges (λ x y. ToldAll (lines_to start.now who log.now) result (account x)
        (account y))
        seats.old.items seats.new.items }
{
    tell_all(&mut seats[0], start, who, log)
}

/// Moves the seat that sits to the end of the out list.
fn step_aside(seats: &mut Vec<Box<dyn Seat>>, out: &mut Vec<Box<dyn Seat>>)
    requires some { 0 < vec_len seats.old }
    requires room { vec_len seats.old + vec_len out.old ≤ vec_capacity out.old }
    ensures moved { (first : _) × (seats.old.items ≡ first ∷ seats.new.items)
        × (out.new.items ≡ out.old.items ++ first ∷ []) }
    ensures fewer { vec_len seats.new + 1 ≡ vec_len seats.old }
    ensures room { vec_len seats.new + vec_len out.new ≤ vec_capacity out.new }
{
    let seat = seats.remove(0);
    let _ = out.push(seat);
}

/// Relieves the seat that sits: the next one sits, and is told all lines of its side so far.
fn relieve_once(
    seats: &mut Vec<Box<dyn Seat>>,
    out: &mut Vec<Box<dyn Seat>>,
    start: &Position,
    who: Side,
    log: &[Judged],
) -> Result<(), SeatFault>
    requires some { 1 < vec_len seats.old }
    requires room { vec_len seats.old + vec_len out.old ≤ vec_capacity out.old }
    ensures relieves { Relieves (λ b. account b) IsGone result (team_of seats.old out.old)
        (team_of seats.new out.new) (lines_to start.now who log.now) }
    ensures fewer { vec_len seats.new + 1 ≡ vec_len seats.old }
    ensures room { vec_len seats.new + vec_len out.new ≤ vec_capacity out.new }
{
    step_aside(seats, out);
    tell_all_first(seats, start, who, log)
}

fn has_failed(answer: &Result<(), SeatFault>) -> bool
    ensures { IsTrue result ↔ (answer.now ≡ Err SeatFault.Failed) }
{
    match answer {
        Err(SeatFault::Failed) => true,
        Ok(()) | Err(SeatFault::NoMemory) => false,
    }
}

/// Relieves the seat that sits, and after it each one that fails when it is told the lines so far, while another
/// stands behind.
fn relieve(
    seats: &mut Vec<Box<dyn Seat>>,
    out: &mut Vec<Box<dyn Seat>>,
    start: &Position,
    who: Side,
    log: &[Judged],
) -> Result<(), SeatFault>
    requires some { 1 < vec_len seats.old }
    requires room { vec_len seats.old + vec_len out.old ≤ vec_capacity out.old }
    ensures relieves { Relieves (λ b. account b) IsGone result (team_of seats.old out.old)
        (team_of seats.new out.new) (lines_to start.now who log.now) }
    ensures fewer { vec_len seats.new < vec_len seats.old }
    ensures ready { IsReady seats.new out.new }
    ensures last { result ≡ Err SeatFault.Failed → vec_len seats.new ≡ 1 }
{
    let mut answer = relieve_once(seats, out, start, who, log);
    while has_failed(&answer) && seats.len() > 1 {
        answer = relieve_once(seats, out, start, who, log);
    }
    answer
}

/// Relieves the seat that sits, which failed, where another stands behind it.
fn relieve_failed(
    seats: &mut Vec<Box<dyn Seat>>,
    out: &mut Vec<Box<dyn Seat>>,
    start: &Position,
    who: Side,
    log: &[Judged],
) -> Result<(), SeatFault>
    requires { IsReady seats.old out.old }
    ensures relieves { Relieves (λ b. account b) HasFailed result (team_of seats.old out.old)
        (team_of seats.new out.new) (lines_to start.now who log.now) }
    ensures fewer { result ≡ Ok tt → vec_len seats.new < vec_len seats.old }
    ensures no_more { vec_len seats.new ≤ vec_len seats.old }
    ensures ready { IsReady seats.new out.new }
    ensures last { result ≡ Err SeatFault.Failed → vec_len seats.new ≡ 1 }
{
    if seats.len() > 1 {
        relieve(seats, out, start, who, log)
    } else {
        Err(SeatFault::Failed)
    }
}

/// Relieves the seat that sits, which left, where another stands behind it.
fn relieve_left(
    seats: &mut Vec<Box<dyn Seat>>,
    out: &mut Vec<Box<dyn Seat>>,
    start: &Position,
    who: Side,
    log: &[Judged],
) -> Result<AskOutcome, SeatFault>
    requires { IsReady seats.old out.old }
    ensures ends { EndsTurn (λ b. account b) result (team_of seats.old out.old)
        (team_of seats.new out.new) (lines_to start.now who log.now) }
    ensures fewer { result ≡ Ok AskOutcome.Relieved → vec_len seats.new < vec_len seats.old }
    ensures no_more { vec_len seats.new ≤ vec_len seats.old }
    ensures kept { result ≡ Ok AskOutcome.Left → vec_len seats.new ≡ vec_len seats.old }
    ensures ready { IsReady seats.new out.new }
    ensures last { IsLastOnes result → vec_len seats.new ≡ 1 }
{
    if seats.len() > 1 {
        relieved_turn(relieve(seats, out, start, who, log))
    } else {
        Ok(AskOutcome::Left)
    }
}

/// Asks the side for a try.
fn ask_side(
    seats: &mut Vec<Box<dyn Seat>>,
    out: &mut Vec<Box<dyn Seat>>,
    start: &Position,
    who: Side,
    log: &[Judged],
) -> Result<AskOutcome, SeatFault>
    requires { IsReady seats.old out.old }
    ensures takes { TakesTurn (λ b. account b) result (team_of seats.old out.old)
        (team_of seats.new out.new) (lines_to start.now who log.now) }
    ensures fewer { result ≡ Ok AskOutcome.Relieved → vec_len seats.new < vec_len seats.old }
    ensures no_more { vec_len seats.new ≤ vec_len seats.old }
    ensures kept { result ≡ Ok AskOutcome.Left → vec_len seats.new ≡ vec_len seats.old }
    ensures ready { IsReady seats.new out.new }
    ensures last { IsLastOnes result → vec_len seats.new ≡ 1 }
{
    match ask_first(seats) {
        Ok(Say::Try(mv)) => Ok(AskOutcome::Tried(mv)),
        Ok(Say::Leave) => relieve_left(seats, out, start, who, log),
        Err(SeatFault::NoMemory) => Err(SeatFault::NoMemory),
        Err(SeatFault::Failed) => relieved_turn(relieve_failed(seats, out, start, who, log)),
    }
}

/// Tells the side a line, which is the last of its lines so far.
fn tell_side(
    seats: &mut Vec<Box<dyn Seat>>,
    out: &mut Vec<Box<dyn Seat>>,
    line: Line,
    start: &Position,
    who: Side,
    log: &[Judged],
) -> Result<(), SeatFault>
    requires { IsReady seats.old out.old }
    ensures tells { Tells (λ b. account b) result (team_of seats.old out.old)
        (team_of seats.new out.new) (lines_to start.now who log.now) (line ∷ []) }
    ensures no_more { vec_len seats.new ≤ vec_len seats.old }
    ensures ready { IsReady seats.new out.new }
    ensures last { result ≡ Err SeatFault.Failed → vec_len seats.new ≡ 1 }
{
    match tell_first(seats, line) {
        Ok(()) => Ok(()),
        Err(SeatFault::NoMemory) => Err(SeatFault::NoMemory),
        Err(SeatFault::Failed) => relieve_failed(seats, out, start, who, log),
    }
}

/// Tells the side its line of the last try, where it has one.
fn tell_due(
    seats: &mut Vec<Box<dyn Seat>>,
    out: &mut Vec<Box<dyn Seat>>,
    line: Option<Line>,
    start: &Position,
    who: Side,
    log: &[Judged],
) -> Result<(), SeatFault>
    requires { IsReady seats.old out.old }
    ensures tells { Tells (λ b. account b) result (team_of seats.old out.old)
        (team_of seats.new out.new) (lines_to start.now who log.now) (option_to_list line) }
    ensures no_more { vec_len seats.new ≤ vec_len seats.old }
    ensures ready { IsReady seats.new out.new }
    ensures last { result ≡ Err SeatFault.Failed → vec_len seats.new ≡ 1 }
{
    match line {
        Some(line) => tell_side(seats, out, line, start, who, log),
        None => Ok(()),
    }
}

/// The seats of one side, and those that were relieved.
#[derive(Drop)]
pub(crate) struct Roster {
    /// The first one sits, and the others relieve it in their order.
    pub(crate) seats: Vec<Box<dyn Seat>>,
    /// Those that were relieved.
    pub(crate) out: Vec<Box<dyn Seat>>,
}

impl Player for Roster {
    ghost use Rattle.krieg_play.specs.Teams.{team_of};
    ghost use Rattle.krieg_play.specs.Calls.{IsReady, AsksTeam, TellsTeam};

    ghost is_ready = { λ t. IsReady t.seats t.out };

    ghost asks = { λ lines r x y. AsksTeam (λ b. (Seat-box b).account b.value) r
        (team_of x.seats x.out) (team_of y.seats y.out) lines };

    ghost hears = { λ lines due r x y. TellsTeam (λ b. (Seat-box b).account b.value) r
        (team_of x.seats x.out) (team_of y.seats y.out) lines due };

    fn ask(
        &mut self,
        start: &Position,
        who: Side,
        log: &[Judged],
    ) -> Result<AskOutcome, SeatFault> {
        ask_side(&mut self.seats, &mut self.out, start, who, log)
    }

    fn tell(
        &mut self,
        line: Option<Line>,
        start: &Position,
        who: Side,
        log: &[Judged],
    ) -> Result<(), SeatFault> {
        tell_due(&mut self.seats, &mut self.out, line, start, who, log)
    }
}
