ghost use Rattle.std.specs.Prelude.{◌≢◌, IfErr, None};
ghost use Rattle.std.specs.Option.{option_copied};
ghost use Rattle.krieg_fen.specs.Forms as spec;
ghost use Rattle.krieg_text.specs.Reading.{taken, Passed, GivesOn};
ghost use Rattle.krieg_text.specs.declared.fault.TextFault.TheVariants.{NoMemory as OutOfMemory};

use crate::forms::{Turn, listed_form, read_list_line, read_side};
use krieg_board::{Position, Side};
use krieg_text::{LineSource, TextFault};
use std::alloc::Global;

/// The next line, as a position that may stand in a list after its first one, or be the first.
pub fn read_listed<S: LineSource>(
    from: &mut S,
    turn: Turn,
    who: Side,
    first: Option<&Position>,
) -> Result<Position, TextFault>
    ensures value { GivesOn (λ p. p) result (S.place from.new)
        (taken (spec.listed_form turn who (option_copied first.entry)) (S.place from.old)) }
    ensures rest { Passed (S.place from.old) (S.place from.new) }
    ensures memory { IfErr result (λ e. e ≢ OutOfMemory) }
{
    match first {
        None => from.next(|line| listed_form(turn, who, None, line)),
        Some(first) => from.next(|line| listed_form(turn, who, Some(first), line)),
    }
}

/// The next `n` lines as positions with one hand.
fn list_at<S: LineSource>(
    alloc: Global,
    from: &mut S,
    turn: Turn,
    n: usize,
    who: Side,
) -> Result<Vec<Position>, TextFault>
    ensures value { GivesOn (λ v. v.items) result (S.place from.new)
        (spec.positions_at turn who None n (S.place from.old)) }
    ensures rest { Passed (S.place from.old) (S.place from.new) }
{
    let mut list: Vec<Position> = Vec::new(alloc);
    for i in 0..n {
        match read_listed(from, turn, who, list.first()) {
            Ok(position) => list.push(position)?,
            Err(fault) => return Err(fault),
        }
    }
    Ok(list)
}

/// The next lines, as the side whose text it is, the number of positions that it lists, from 1 to
/// `MOST_LISTED`, and these, which all have the hand of the first one for that side; `turn` says who may be
/// to move in it.
///
/// The kinds of its faults are `Syntax`, also where a line is missing, `Count`, `Position`, `Differs` and,
/// where the turn must be the side's own, `OutOfPlace`.
pub fn read_listing<S: LineSource>(
    alloc: Global,
    from: &mut S,
    turn: Turn,
) -> Result<(Side, Vec<Position>), TextFault>
    ensures value { GivesOn (λ x. (x.0, x.1.items)) result (S.place from.new)
        (spec.listing_at turn (S.place from.old)) }
    ensures rest { Passed (S.place from.old) (S.place from.new) }
{
    let side = read_side(from)?;
    let count = read_list_line(from)?;
    let list = list_at(alloc, from, turn, count as usize, side)?;
    Ok((side, list))
}
