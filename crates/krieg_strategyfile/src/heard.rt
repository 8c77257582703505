ghost use Rattle.std.specs.Prelude.{◌≡◌, IfOk};
ghost use Rattle.krieg_text.specs.Formats.{Always};
ghost use Rattle.krieg_text.specs.Lines.{lines};
ghost use Rattle.krieg_text.specs.Reading.{Gives};
ghost use Rattle.krieg_planfile.specs.HeardSpelling.{IsHeardReading};
ghost use Rattle.krieg_strategyfile.specs.HeardStrategies.{heard_state_of, heard_strategy};
ghost use Rattle.krieg_strategyfile.specs.Strategies.{state_of};
ghost use Rattle.krieg_strategyfile.specs.StrategyFormat.{strategy_at, SpellsStrategy, StrategyGrammar};
ghost use Rattle.krieg_strategyfile.specs.Writable.{CanBeWritten};

use crate::reading::read_parts;
use krieg_planfile::read_heard;
use krieg_strategy::Strategy;
use krieg_text::{Cursor, TextFault};
use krieg_wordtext::Line;
use std::alloc::Global;

/// A strategy, and what its player heard.
#[derive(Drop)]
pub struct HeardStrategy {
    /// The strategy.
    pub strategy: Strategy,
    /// The lines that the player heard, in order, in the dialect of the strategy.
    pub heard: Vec<Line>,
}

#[tactic(auto, unfolding(crate::specs::HeardStrategies::heard_strategy))]
fn read_lines(alloc: Global, text: &[u8]) -> Result<HeardStrategy, TextFault>
    ensures { Gives (λ h. heard_state_of h) result (heard_strategy (lines text.now)) }
{
    let mut from = Cursor::new(text);
    let strategy = read_parts(alloc, &mut from)?;
    let heard = read_heard(alloc, &mut from, strategy.dialect)?;
    Ok(HeardStrategy { strategy, heard })
}

/// The strategy that the text spells up to its line `end`, and behind it the lines that its player heard.
///
/// The fault is the first line that is not accepted: of the strategy as [`read_strategy`](crate::read_strategy) tells it,
/// and behind it each line that is none of the strategy's dialect, with `Syntax`. Where no line is refused and the strategy
/// is not complete it is the number of lines plus 1 with `Syntax`.
#[tactic(auto, using(crate::proofs::HeardTexts::heard_can))]
pub fn read_heard_strategy(alloc: Global, text: &[u8]) -> Result<HeardStrategy, TextFault>
    ensures exact { Gives (λ h. heard_state_of h) result (heard_strategy (lines text.now)) }
    ensures reading { IsHeardReading strategy_at (λ s. s.dialect) Always SpellsStrategy
        StrategyGrammar (λ h. heard_state_of h) (lines text.now) result }
    // What is read can be written: it is within the limits, its words can be told, its keys ascend.
    ensures written { IfOk result (λ h. CanBeWritten (state_of h.strategy)) }
{
    read_lines(alloc, text)
}
