ghost use Rattle.std.specs.Prelude.{◌≡◌, ◌≢◌, ◌≤◌, IfOk, IfErr};
ghost use Rattle.std.specs.Option.{option_copied};
ghost use Rattle.krieg_fen.specs.Forms as spec;
ghost use Rattle.krieg_text.specs.Reading.{taken, Passed, GivesOn};
ghost use Rattle.krieg_text.specs.declared.fault.TextFault.TheVariants.{NoMemory as OutOfMemory};

use crate::fen::{FenFault, read_position};
use krieg_board::{Position, Side, same_hand};
use krieg_text::{LineSource, TextFault, TextKind, behind, is_name, read_count};

/// The most positions that a text may list.
pub const MOST_LISTED: u64 = 200_000;

/// Who may be to move in the first listed position of a text, and so in each.
#[derive(Clone, Copy)]
pub enum Turn {
    /// Either side.
    Either,
    /// The side whose text it is. Another is of the kind `OutOfPlace`.
    Own,
}

/// The line that says whose text it is, without its line feed.
pub fn side_line(side: Side) -> &'static [u8]
    ensures { result.now ≡ spec.side_line side }
{
    match side {
        Side::White => b"side w",
        Side::Black => b"side b",
    }
}

/// The side that such a line names.
#[tactic(auto, unfolding(crate::specs::Forms::side_form))]
fn side_form(text: &[u8]) -> Result<Side, TextKind>
    ensures { result ≡ spec.side_form text.now }
{
    if is_name(side_line(Side::White), text) {
        Ok(Side::White)
    } else if is_name(side_line(Side::Black), text) {
        Ok(Side::Black)
    } else {
        Err(TextKind::Syntax)
    }
}

/// The position that the line spells. A text that spells none is of the kind `Syntax`, and one whose
/// position is not valid of the kind `Position`.
#[tactic(auto, unfolding(crate::specs::Forms::position_form))]
pub fn position_form(text: &[u8]) -> Result<Position, TextKind>
    ensures { result ≡ spec.position_form text.now }
{
    match read_position(text) {
        Ok(position) => Ok(position),
        Err(FenFault::Bad(fault)) => Err(TextKind::Position(fault)),
        Err(_) => Err(TextKind::Syntax),
    }
}

fn has_turn(turn: Turn, who: Side, position: &Position) -> bool
    ensures { result ≡ spec.has_turn turn who position.now }
{
    match turn {
        Turn::Either => true,
        Turn::Own => position.side() == who,
    }
}

/// The position, where it may stand after the first of its list, or be the first.
fn matching(
    turn: Turn,
    who: Side,
    first: Option<&Position>,
    position: Position,
) -> Result<Position, TextKind>
    ensures { result ≡ spec.matching turn who (option_copied first.entry) position }
{
    match first {
        None if has_turn(turn, who, &position) => Ok(position),
        None => Err(TextKind::OutOfPlace),
        Some(first) if same_hand(first, &position, who) => Ok(position),
        Some(_) => Err(TextKind::Differs),
    }
}

/// The position that the line spells, where its hand is that of the first one, for the side `who`, or the
/// turn is that which the first one must have. A hand that is another is of the kind `Differs`, and a turn
/// of the kind `OutOfPlace`.
#[tactic(auto, unfolding(crate::specs::Forms::listed_form))]
pub fn listed_form(
    turn: Turn,
    who: Side,
    first: Option<&Position>,
    text: &[u8],
) -> Result<Position, TextKind>
    ensures { result ≡ spec.listed_form turn who (option_copied first.entry) text.now }
{
    matching(turn, who, first, position_form(text)?)
}

/// The next line, as the side whose text it is.
pub fn read_side<S: LineSource>(from: &mut S) -> Result<Side, TextFault>
    ensures value { GivesOn (λ s. s) result (S.place from.new)
        (taken spec.side_form (S.place from.old)) }
    ensures rest { Passed (S.place from.old) (S.place from.new) }
    ensures memory { IfErr result (λ e. e ≢ OutOfMemory) }
{
    from.next(side_form)
}

/// The next line, as the number of listed positions, from 1 to `MOST_LISTED`.
#[tactic(auto, unfolding(crate::specs::Forms::list_form))]
pub fn read_list_line<S: LineSource>(from: &mut S) -> Result<u64, TextFault>
    ensures value { GivesOn (λ n. n) result (S.place from.new)
        (taken spec.list_form (S.place from.old)) }
    ensures range { IfOk result (λ n. (1 ≤ n) × (n ≤ MOST_LISTED)) }
    ensures rest { Passed (S.place from.old) (S.place from.new) }
    ensures memory { IfErr result (λ e. e ≢ OutOfMemory) }
{
    read_count(from, b"list ", 1, MOST_LISTED)
}

/// The position after the word `start`. A text that spells none is of the kind `Syntax`, and one whose
/// position is not valid of the kind `Position`.
#[tactic(auto, unfolding(crate::specs::Forms::start_form))]
pub fn start_form(text: &[u8]) -> Result<Position, TextKind>
    ensures { result ≡ spec.start_form text.now }
{
    match behind(b"start ", text) {
        None => Err(TextKind::Syntax),
        Some(position) => position_form(position),
    }
}

/// The mark at the front of a line that is one side's, with its space.
pub fn side_mark(who: Side) -> &'static [u8]
    ensures { result.now ≡ spec.side_mark who }
{
    match who {
        Side::White => b"w ",
        Side::Black => b"b ",
    }
}
