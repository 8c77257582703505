ghost use Rattle.std.specs.Prelude.{◌≡◌, map, None, IfOk};
ghost use Rattle.krieg_fen.specs.ListText.{position_line};
ghost use Rattle.krieg_text.specs.Writing.{PutsLines};
ghost use Rattle.krieg_sheet.specs.Sheets.{new_sheet};
ghost use Rattle.krieg_sheet.specs.SheetText.{sheet_lines, answer_text};
ghost use Rattle.krieg_outcome.specs.Parts.{Decides};
ghost use Rattle.krieg_outcome.specs.Believe as spec;

use crate::ending::Ending;
use crate::refusal::Refusal;
use krieg_belief::{BeliefStop, believe};
use krieg_board::{NoMemory, Side};
use krieg_fen::{Ranks, put_next};
use krieg_pack::{Belief, Packed, unpack};
use krieg_sheet::{put_end, put_head, read_sheet};
use krieg_text::Text;
use krieg_words::Dialect;
use std::alloc::Global;

impl From<BeliefStop> for Ending {
    ghost use Rattle.krieg_outcome.specs.Parts.{of_belief};

    ghost from_gives = { λ stop e. e ≡ of_belief stop };

    fn from(stop: BeliefStop) -> Ending {
        match stop {
            BeliefStop::TooMany { line } => Ending::Refused(Refusal::TooMany(line)),
            BeliefStop::NoMemory => Ending::NoMemory,
        }
    }
}

/// Adds the lines of the positions.
#[tactic(auto, using(krieg_text::proofs::Writings::writings))]
pub(crate) fn put_positions(members: &[Packed], text: &mut Text) -> Result<(), NoMemory>
    ensures { PutsLines result text.old text.new (map position_line members.now) }
{
    let mut ranks = Ranks::new();
    for member in members {
        put_next(&unpack(member), &mut ranks, text)?;
    }
    Ok(())
}

/// Adds the lines of the sheet that lists the members of the set and says no more.
#[tactic(auto, using(krieg_text::proofs::Writings::writings))]
fn put_members(d: Dialect, who: Side, set: &Belief, text: &mut Text) -> Result<(), NoMemory>
    ensures { PutsLines result text.old text.new (sheet_lines (new_sheet d who set.now None)) }
{
    put_head(d, who, set.len(), text)?;
    put_positions(set.members(), text)?;
    put_end(text)
}

/// The sheet that lists the members of the set and says no more.
#[tactic(auto, unfolding(krieg_sheet::specs::SheetText::sheet_text))]
fn members_text(alloc: Global, d: Dialect, who: Side, set: &Belief) -> Result<Vec<u8>, NoMemory>
    ensures { IfOk result (λ text. text.items ≡ answer_text d who set.now) }
{
    let mut answer = Vec::new(alloc);
    let mut text = Text::after(&mut answer);
    let done = put_members(d, who, set, &mut text);
    text.end(done, &mut answer)?;
    Ok(answer)
}

/// What `believe` answers to the text of a sheet.
pub(crate) fn answer(alloc: Global, limit: u64, text: Vec<u8>) -> Result<Vec<u8>, Ending>
    ensures { Decides (λ answer. answer.items) result (spec.Believes limit text.items) }
{
    let sheet = read_sheet(alloc, &text)?;
    drop(text);
    let set = believe(alloc, &sheet, limit as usize)?;
    Ok(members_text(alloc, sheet.dialect(), sheet.side(), &set)?)
}
