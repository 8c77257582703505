ghost use Rattle.std.specs.Prelude.{◌≡◌};
ghost use Rattle.krieg_wordtext.specs.WordsText.{has_ended};
ghost use Rattle.krieg_sheet.specs.Turns as spec;

use krieg_board::{Position, Side};
use krieg_words::Words;
use krieg_wordtext::{Line, has_ended};

/// Whether these words end the game.
pub(crate) fn ends(w: &Words) -> bool
    ensures { result ≡ spec.ends w.now }
{
    has_ended(w.end)
}

/// The side to move in the listed positions.
pub(crate) fn first_turn(list: &[Position]) -> Side
    ensures { result ≡ spec.first_turn list.now }
{
    match list {
        [] => Side::White,
        [first, ..] => first.side(),
    }
}

/// Whether the game is over before the first entry.
pub(crate) fn over_at_first(opens: &Option<Words>) -> bool
    ensures { result ≡ spec.over_at_first opens.now }
{
    match opens {
        None => false,
        Some(w) => ends(w),
    }
}

/// Whose turn it is after the line.
pub(crate) fn turn_after(turn: Side, line: &Line) -> Side
    ensures { result ≡ spec.turn_after turn line.now }
{
    match line {
        Line::Done(_, _) | Line::Heard(_) => turn.other(),
        _ => turn,
    }
}

/// Whether the game is over after the line.
pub(crate) fn over_after(over: bool, line: &Line) -> bool
    ensures { result ≡ spec.over_after over line.now }
{
    match line {
        Line::Done(_, w) | Line::Heard(w) => over || ends(w),
        _ => over,
    }
}

/// Whether the entry may stand where it is the player's turn or not, and the game is over or not.
pub(crate) fn may_stand(mine: bool, over: bool, line: &Line) -> bool
    ensures { result ≡ spec.may_stand mine over line.now }
{
    match line {
        Line::Opens(_) => false,
        Line::Illegal(_) | Line::Done(_, _) => !over && mine,
        Line::Heard(_) | Line::Early(_) => !over && !mine,
        Line::Over(_) => over,
    }
}
