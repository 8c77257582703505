ghost use Rattle.std.specs.Prelude.{◌≡◌, ◌≤◌, ◌⊎◌, false, length, Ok, IfOk, MatchBool};
ghost use Rattle.krieg_text.specs.Lines.{lines};
ghost use Rattle.krieg_text.specs.Reading.{whole};
ghost use Rattle.krieg_parting.specs.Turns.{IsOwnTurn, IsOthersTurn};
ghost use Rattle.krieg_solve.specs.Solutions.{IsAnswer, IsCharged, IsChargedAtMost};
ghost use Rattle.krieg_theory.specs.Sets.{is_nil};
ghost use Rattle.krieg_belief.specs.Possible.{HaveOneHand};
ghost use Rattle.krieg_plan.specs.Plans.{plan_of};
ghost use Rattle.krieg_planfile.specs.PlanFiles.{CanBeWritten};
ghost use Rattle.krieg_planfile.specs.PlanReading.{plan_at};
ghost use Rattle.krieg_planfile.specs.PlanText.{plan_text};
ghost use Rattle.krieg_outcome.specs.Parts.{Decides, AreTerms, SearchedBy};
ghost use Rattle.krieg_outcome.specs.Solve as spec;

use crate::commands::asked::listed;
use crate::commands::counted::counted;
use crate::commands::search::Terms;
use crate::ending::Ending;
use crate::limits::MOST_INPUT;
use krieg_args::MOST_FIND_MOVES;
use krieg_board::{NoMemory, Position, Side, Units};
use krieg_fen::MOST_LISTED;
use krieg_pack::Belief;
use krieg_plan::{MOST_NODES, Plan, PlanFile};
use krieg_planfile::write_plan;
use krieg_search::{SearchStop, Way};
use krieg_solve::{Answer, find, solve};
use krieg_words::Dialect;
use std::alloc::Global;

/// The text of the plan file of a plan for the listed positions.
fn file_text(
    alloc: Global,
    dialect: Dialect,
    side: Side,
    list: Vec<Position>,
    worst: u8,
    plan: Plan,
) -> Result<Vec<u8>, NoMemory>
    requires { CanBeWritten (spec.file_of dialect side list.items worst (plan_of plan)) }
    ensures text { let f = spec.file_of dialect side list.items worst (plan_of plan) in
        IfOk result (λ text. text.items ≡ plan_text f) }
    ensures again { let f = spec.file_of dialect side list.items worst (plan_of plan) in
        IfOk result (λ text. whole plan_at (lines text.items) ≡ Ok f) }
    ensures short { IfOk result (λ text. length text.items ≤ MOST_INPUT) }
{
    let file = PlanFile {
        dialect,
        side,
        list,
        worst: u16::from(worst),
        plan,
    };
    let mut text = Vec::new(alloc);
    write_plan(&file, &mut text)?;
    Ok(text)
}

/// The line that no plan mates within so many moves.
#[tactic(auto, unfolding(crate::specs::Solve::none_text))]
pub(crate) fn none_text(alloc: Global, moves: u64) -> Result<Vec<u8>, NoMemory>
    ensures { IfOk result (λ text. text.items ≡ spec.none_text moves) }
{
    counted(alloc, b"none ", moves as usize)
}

/// The text of an answer of a search: that of the plan file, or the line that none mates.
fn told(
    alloc: Global,
    d: Dialect,
    who: Side,
    set: &Belief,
    moves: u64,
    answer: Answer,
) -> Result<Vec<u8>, NoMemory>
    requires most { moves ≤ MOST_FIND_MOVES }
    requires some { is_nil set.now ≡ false }
    requires few { length set.now ≤ MOST_LISTED }
    requires hand { HaveOneHand who set.now }
    requires answer { IsAnswer d who set.now moves MOST_NODES (Ok answer) }
    ensures { IfOk result (λ text. spec.Tells d who set.now moves text.items) }
{
    match answer {
        Answer::Mates { worst, plan } => {
            let list = listed(alloc, set)?;
            file_text(alloc, d, who, list, worst, plan)
        }
        Answer::None => none_text(alloc, moves),
    }
}

/// What the search for the best plan finds that may cut tries, or the one that cuts none.
fn search(
    way: Way,
    terms: Terms,
    who: Side,
    set: &Belief,
    units: &mut Units,
) -> Result<Answer, SearchStop>
    requires terms { AreTerms terms }
    requires turn { IsOwnTurn who set.now ⊎ IsOthersTurn who set.now }
    ensures answer { IsAnswer way.d who set.now terms.moves MOST_NODES result }
    ensures units { MatchBool way.cut
        (IsChargedAtMost way.d who set.now terms.moves result units.old units.new)
        (IsCharged way.d who set.now terms.moves result units.old units.new) }
{
    let moves = terms.moves as u8;
    if way.cut {
        find(way.alloc, way.d, who, set, moves, MOST_NODES, units)
    } else {
        solve(way.alloc, way.d, who, set, moves, MOST_NODES, units)
    }
}

/// What a search for the best plan for the set comes to, which may cut tries or not.
pub(crate) fn searched(
    alloc: Global,
    cut: bool,
    terms: Terms,
    d: Dialect,
    who: Side,
    set: &Belief,
) -> Result<Vec<u8>, Ending>
    requires terms { AreTerms terms }
    requires some { is_nil set.now ≡ false }
    requires few { length set.now ≤ MOST_LISTED }
    requires hand { HaveOneHand who set.now }
    ensures { let found = SearchedBy cut d who set.now terms.moves terms.budget in
        Decides (λ answer. answer.items) result found }
{
    let way = Way {
        alloc,
        d,
        cut,
        noted: 0,
    };
    let mut units = Units::new(terms.budget);
    let answer = search(way, terms, who, set, &mut units)?;
    Ok(told(alloc, d, who, set, terms.moves, answer)?)
}
