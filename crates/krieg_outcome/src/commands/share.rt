ghost use Rattle.std.specs.Prelude.{◌≡◌, ◌≤◌, false, length, Ok, IfOk};
ghost use Rattle.std.specs.List.{All};
ghost use Rattle.krieg_board.specs.Validity.{IsValid};
ghost use Rattle.krieg_theory.specs.Sets.{is_nil};
ghost use Rattle.krieg_belief.specs.Possible.{HaveOneHand};
ghost use Rattle.krieg_share.specs.Answers.{IsStrategyAnswer, MakesStrategy};
ghost use Rattle.krieg_outcome.specs.Parts.{Decides, AreTerms};
ghost use Rattle.krieg_outcome.specs.Share as spec;

use crate::commands::asked::listed;
use crate::commands::search::Terms;
use crate::commands::solve::none_text;
use crate::ending::Ending;
use krieg_board::{NoMemory, Side, Units};
use krieg_fen::MOST_LISTED;
use krieg_pack::Belief;
use krieg_search::Way;
use krieg_share::{Answer, share};
use krieg_strategy::Strategy;
use krieg_strategyfile::write_strategy;
use krieg_words::Dialect;
use std::alloc::Global;

/// The text of an answer of a search: that of the strategy, or the line that none mates.
fn told(
    alloc: Global,
    d: Dialect,
    who: Side,
    set: &Belief,
    moves: u64,
    answer: Answer,
) -> Result<Vec<u8>, NoMemory>
    requires some { is_nil set.now ≡ false }
    requires few { length set.now ≤ MOST_LISTED }
    requires hand { HaveOneHand who set.now }
    requires valid { All IsValid set.now }
    requires answer { IsStrategyAnswer d who set.now moves (Ok answer) }
    requires well_formed { MakesStrategy answer }
    ensures { IfOk result (λ text. spec.TellsShared d who set.now moves text.items) }
{
    match answer {
        Answer::Mates {
            worst,
            nodes,
            roots,
        } => {
            let strategy = Strategy {
                dialect: d,
                side: who,
                list: listed(alloc, set)?,
                worst: u16::from(worst),
                nodes,
                roots,
            };
            write_strategy(alloc, &strategy)
        }
        Answer::None => none_text(alloc, moves),
    }
}

/// What a search for the best plan for the set as a strategy comes to.
pub(crate) fn searched(
    alloc: Global,
    terms: Terms,
    d: Dialect,
    who: Side,
    set: &Belief,
) -> Result<Vec<u8>, Ending>
    requires terms { AreTerms terms }
    requires some { is_nil set.now ≡ false }
    requires few { length set.now ≤ MOST_LISTED }
    requires hand { HaveOneHand who set.now }
    requires valid { All IsValid set.now }
    ensures { let found = spec.SharedBy d who set.now terms.moves terms.budget in
        Decides (λ answer. answer.items) result found }
{
    let way = Way {
        alloc,
        d,
        cut: true,
        noted: 0,
    };
    let mut units = Units::new(terms.budget);
    let answer = share(way, who, set, terms.moves as u8, &mut units)?;
    Ok(told(alloc, d, who, set, terms.moves, answer)?)
}
