// One turn of a game between two players of any kind.
ghost use Rattle.std.specs.Prelude.{◌≡◌, ◌+◌, ◌<◌, option_to_list, Ok, Err};
ghost use Rattle.krieg_umpire.specs.Games.{judged};
ghost use Rattle.krieg_play.specs.Played.{by_side};
ghost use Rattle.krieg_play.specs.Calls.{lines_to};
ghost use Rattle.krieg_play.specs.Players as spec;
ghost use Rattle.krieg_play.specs.Players.{BothHear, IsStepped, TakesTurns};

use crate::player::Player;
use crate::{AskOutcome, PlayFault, fault_of};
use krieg_board::{Position, Side};
use krieg_seats::SeatFault;
use krieg_umpire::{Event, Game, Judged, line_for};
use krieg_words::Dialect;
use krieg_wordtext::{Line, told_line};

/// Tells White and then Black the lines that are due to them.
pub fn tell_both<W: Player, B: Player>(
    white: &mut W,
    black: &mut B,
    lines: (Option<Line>, Option<Line>),
    start: &Position,
    log: &[Judged],
) -> Result<(), PlayFault>
    requires white { W.is_ready white.old }
    requires black { B.is_ready black.old }
    ensures tells { BothHear W.hears B.hears result (λ who. lines_to start.now who log.now)
        (by_side (option_to_list lines.0) (option_to_list lines.1))
        white.old white.new black.old black.new }
    ensures white { W.is_ready white.new }
    ensures black { B.is_ready black.new }
{
    match white.tell(lines.0, start, Side::White, log) {
        Ok(()) => {}
        Err(fault) => return Err(fault_of(fault, Side::White)),
    }
    match black.tell(lines.1, start, Side::Black, log) {
        Ok(()) => Ok(()),
        Err(fault) => Err(fault_of(fault, Side::Black)),
    }
}

/// What a side hears of a try, as the dialect tells it.
fn line_in(d: Dialect, who: Side, judged: &Judged) -> Option<Line>
    ensures { result ≡ spec.line_in d who judged.now }
{
    match line_for(who, judged) {
        None => None,
        Some(line) => Some(told_line(d, line)),
    }
}

/// Judges a try, and tells both what they hear of it.
fn judge_try<W: Player, B: Player>(
    white: &mut W,
    black: &mut B,
    start: &Position,
    game: &mut Game,
    event: &Event,
    d: Dialect,
) -> Result<(), PlayFault>
    requires white { W.is_ready white.old }
    requires black { B.is_ready black.old }
    requires spare { 0 < game.old.spare }
    ensures stepped { IsStepped event.now game.old game.new }
    ensures tells { BothHear W.hears B.hears result (λ who. lines_to start.now who game.new.log)
        (spec.due_in d (judged game.old.position event.now))
        white.old white.new black.old black.new }
    ensures white { W.is_ready white.new }
    ensures black { B.is_ready black.new }
{
    let verdict = game.step(*event);
    let judged = Judged {
        event: *event,
        verdict,
    };
    let lines = (
        line_in(d, Side::White, &judged),
        line_in(d, Side::Black, &judged),
    );
    tell_both(white, black, lines, start, game.log())
}

/// Asks one of them for a try.
fn ask<W: Player, B: Player>(
    white: &mut W,
    black: &mut B,
    start: &Position,
    who: Side,
    log: &[Judged],
) -> Result<AskOutcome, SeatFault>
    requires white { W.is_ready white.old }
    requires black { B.is_ready black.old }
    ensures asks { spec.AsksOf W.asks B.asks W.hears B.hears who result
        (λ who. lines_to start.now who log.now) white.old white.new black.old black.new }
    ensures white { W.is_ready white.new }
    ensures black { B.is_ready black.new }
{
    match who {
        Side::White => white.ask(start, who, log),
        Side::Black => black.ask(start, who, log),
    }
}

/// The turn of a side that tried, where both were told, or not: nobody left.
fn next_turn(told: Result<(), PlayFault>) -> Result<Option<Side>, PlayFault>
    ensures { result ≡ spec.next_turn told }
{
    match told {
        Ok(()) => Ok(None),
        Err(fault) => Err(fault),
    }
}

/// Asks the side to move, and judges its try. It gives the side that left.
pub fn take_turn<W: Player, B: Player>(
    white: &mut W,
    black: &mut B,
    start: &Position,
    game: &mut Game,
    d: Dialect,
) -> Result<Option<Side>, PlayFault>
    requires white { W.is_ready white.old }
    requires black { B.is_ready black.old }
    requires spare { 0 < game.old.spare }
    ensures turn { TakesTurns W.asks B.asks W.hears B.hears result d start.now
        white.old white.new black.old black.new game.old game.new }
    ensures white { W.is_ready white.new }
    ensures black { B.is_ready black.new }
{
    let who = game.position().side();
    match ask(white, black, start, who, game.log()) {
        Ok(AskOutcome::Tried(mv)) => {
            next_turn(judge_try(white, black, start, game, &Event { who, mv }, d))
        }
        Ok(AskOutcome::Relieved) => Ok(None),
        Ok(AskOutcome::Left) => Ok(Some(who)),
        Err(fault) => Err(fault_of(fault, who)),
    }
}
