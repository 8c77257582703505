// What one seat is asked and told.
ghost use Rattle.std.specs.Prelude.{◌≡◌, option_to_list};
ghost use Rattle.krieg_seats.specs.Accounts.{Asked, Told};
ghost use Rattle.krieg_umpire.specs.Hearing.{line_for, lines_for};
ghost use Rattle.krieg_play.specs.Calls.{lines_to, ToldAll};

use krieg_board::{Position, Side};
use krieg_seats::{Say, Seat, SeatFault};
use krieg_umpire::{Judged, line_for};
use krieg_words::opening;
use krieg_wordtext::Line;

/// Asks a seat.
pub(crate) fn ask_seat(seat: &mut Box<dyn Seat>) -> Result<Say, SeatFault>
    ensures { Asked result (account seat.old) (account seat.new) }
{
    seat.ask()
}

/// Tells a seat a line.
pub(crate) fn tell_seat(seat: &mut Box<dyn Seat>, line: Line) -> Result<(), SeatFault>
    ensures { Told line result (account seat.old) (account seat.new) }
{
    seat.tell(line)
}

/// Tells a seat a line, where there is one.
#[tactic(auto, using(crate::proofs::Tellings::tellings))]
pub(crate) fn tell_due(seat: &mut Box<dyn Seat>, line: Option<Line>) -> Result<(), SeatFault>
    ensures { ToldAll (option_to_list line) result (account seat.old) (account seat.new) }
{
    match line {
        Some(line) => tell_seat(seat, line),
        None => Ok(()),
    }
}

/// Tells a seat its line of a try, where it hears of it.
fn tell_judged(seat: &mut Box<dyn Seat>, who: Side, judged: &Judged) -> Result<(), SeatFault>
    ensures { ToldAll (option_to_list (line_for who judged.now)) result (account seat.old)
        (account seat.new) }
{
    tell_due(seat, line_for(who, judged))
}

/// Tells a seat its lines of the tries so far.
fn tell_log(seat: &mut Box<dyn Seat>, who: Side, log: &[Judged]) -> Result<(), SeatFault>
    ensures { ToldAll (lines_for who log.now) result (account seat.old) (account seat.new) }
{
    for judged in log {
        match tell_judged(seat, who, judged) {
            Ok(()) => {}
            Err(fault) => return Err(fault),
        }
    }
    Ok(())
}

/// Tells a seat all lines of its side so far.
#[tactic(auto, using(crate::proofs::Tellings::tellings))]
pub(crate) fn tell_all(
    seat: &mut Box<dyn Seat>,
    start: &Position,
    who: Side,
    log: &[Judged],
) -> Result<(), SeatFault>
    ensures { ToldAll (lines_to start.now who log.now) result (account seat.old)
        (account seat.new) }
{
    match tell_seat(seat, Line::Opens(opening(start))) {
        Ok(()) => tell_log(seat, who, log),
        Err(fault) => Err(fault),
    }
}
