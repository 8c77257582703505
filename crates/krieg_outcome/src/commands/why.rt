ghost use Rattle.krieg_outcome.specs.Parts.{Decides};
ghost use Rattle.krieg_outcome.specs.Why as spec;

use crate::ending::Ending;
use crate::limits::MOST_INPUT;
use crate::refusal::Refusal;
use krieg_belief::{least_games, write_games_of};
use krieg_sheet::{Sheet, read_sheet};
use std::alloc::Global;

/// What `why` answers to a sheet: a text that can be an input again, or none.
fn shown(alloc: Global, sheet: &Sheet, limit: u64) -> Result<Vec<u8>, Ending>
    ensures { Decides (λ answer. answer.items) result (spec.Shows limit sheet.now) }
{
    let games = least_games(alloc, sheet, limit as usize)?;
    if games.is_empty() {
        return Err(Ending::Refused(Refusal::NonePossible));
    }
    let mut answer = Vec::new(alloc);
    write_games_of(alloc, sheet.dialect(), &games, &mut answer)?;
    if answer.len() > MOST_INPUT {
        return Err(Ending::Refused(Refusal::AnswerTooLong));
    }
    Ok(answer)
}

/// What `why` answers to the text of a sheet.
pub(crate) fn answer(alloc: Global, limit: u64, text: Vec<u8>) -> Result<Vec<u8>, Ending>
    ensures { Decides (λ answer. answer.items) result (spec.ShowsWhy limit text.items) }
{
    let sheet = read_sheet(alloc, &text)?;
    drop(text);
    shown(alloc, &sheet, limit)
}
