ghost use Rattle.std.specs.Prelude.{◌≡◌, ◌<◌, ◌≤◌, IfOk, length, map};
ghost use Rattle.krieg_text.specs.Formats.{Always, IsReading};
ghost use Rattle.krieg_text.specs.Lines.{lines};
ghost use Rattle.krieg_text.specs.Reading.{taken, whole, Gives, GivesOn};
ghost use Rattle.krieg_planfile.specs.PlanFiles as files;
ghost use Rattle.krieg_strategy.specs.Roots.{root_of};
ghost use Rattle.krieg_strategy.specs.declared.limits.TheConstants.{MOST_NODES, MOST_WORST};
ghost use Rattle.krieg_strategyfile.specs.ReadParts as parts;
ghost use Rattle.krieg_strategyfile.specs.Strategies.{state_of};
ghost use Rattle.krieg_strategyfile.specs.StrategyFormat.{strategy_at, SpellsStrategy, StrategyGrammar};
ghost use Rattle.krieg_strategyfile.specs.StrategyLines.{a_worst};
ghost use Rattle.krieg_strategyfile.specs.Writable.{CanBeWritten};

use crate::nodes::read_nodes;
use crate::roots::{RootRules, read_roots};
use krieg_board::{Position, Side};
use krieg_fen::{Turn, read_listing};
use krieg_strategy::{MOST_NODES, MOST_ROOTS, MOST_WORST, Nodes, Strategy, StrategyRoot};
use krieg_text::{Cursor, LineSource, TextFault, read_count, read_version, read_word};
use krieg_words::Dialect;
use krieg_wordtext::read_dialect_line;
use std::alloc::Global;

/// The format's name with its one version, and the dialect.
fn read_heading(from: &mut Cursor<'_>) -> Result<Dialect, TextFault>
    ensures { GivesOn (λ d. d) result from.new (parts.heading_at from.old) }
{
    read_version(from, b"krieg strategy ", 1)?;
    read_dialect_line(from, 2)
}

/// The side and the listed positions.
fn read_list(alloc: Global, from: &mut Cursor<'_>) -> Result<(Side, Vec<Position>), TextFault>
    ensures { GivesOn (λ x. (x.0, x.1.items)) result from.new (parts.listing_at from.old) }
{
    read_listing(alloc, from, Turn::Either)
}

/// Whether the opponent is to move in the first listed position.
fn waits(side: Side, list: &[Position]) -> bool
    ensures { result ≡ files.waits side list.now }
{
    match list {
        [] => false,
        [first, ..] => first.side() != side,
    }
}

/// The next line, as the number of own moves that is claimed.
fn read_worst(from: &mut Cursor<'_>) -> Result<u16, TextFault>
    ensures value { GivesOn (λ n. n) result from.new (taken a_worst.form from.old) }
    ensures range { IfOk result (λ n. (1 ≤ n) × (n ≤ MOST_WORST)) }
{
    let worst = read_count(from, b"worst ", 1, u64::from(MOST_WORST))?;
    Ok(worst as u16)
}

/// The number of nodes, and these.
fn read_all_nodes(alloc: Global, from: &mut Cursor<'_>, d: Dialect) -> Result<Nodes, TextFault>
    ensures value { GivesOn (λ ns. ns) result from.new (parts.all_nodes_at d from.old) }
    ensures counted { IfOk result (λ ns. (0 < length ns) × (length ns ≤ MOST_NODES)) }
    ensures formed { IfOk result (λ ns. parts.AreFormed (length ns) ns) }
{
    let n = read_count(from, b"nodes ", 1, MOST_NODES as u64)?;
    read_nodes(alloc, from, d, n as usize)
}

/// The number of roots, and these.
fn read_all_roots(
    alloc: Global,
    from: &mut Cursor<'_>,
    rules: RootRules,
) -> Result<Vec<StrategyRoot>, TextFault>
    ensures value { GivesOn (λ v. map root_of v.items) result from.new
        (parts.all_roots_at rules.dialect rules.waiting rules.nodes from.old) }
    ensures formed { IfOk result (λ v. parts.AreRoots rules.nodes (map root_of v.items)) }
{
    let n = read_count(from, b"roots ", 1, MOST_ROOTS as u64)?;
    read_roots(alloc, from, rules, n as usize)
}

/// The number of roots, and these, which lead to some of the nodes.
fn read_roots_to(
    alloc: Global,
    from: &mut Cursor<'_>,
    dialect: Dialect,
    side: Side,
    list: &[Position],
    nodes: &Nodes,
) -> Result<Vec<StrategyRoot>, TextFault>
    ensures value { GivesOn (λ v. map root_of v.items) result from.new
        (parts.all_roots_at dialect (files.waits side list.now) (length nodes.now) from.old) }
    ensures formed { IfOk result (λ v. parts.AreRoots (length nodes.now) (map root_of v.items)) }
{
    let rules = RootRules {
        dialect,
        waiting: waits(side, list),
        nodes: nodes.len(),
    };
    read_all_roots(alloc, from, rules)
}

/// The lines of a strategy.
#[tactic(auto, unfolding(crate::specs::StrategyFormat::strategy_at))]
pub(crate) fn read_parts(alloc: Global, from: &mut Cursor<'_>) -> Result<Strategy, TextFault>
    ensures { GivesOn (λ s. state_of s) result from.new (strategy_at from.old) }
{
    let dialect = read_heading(from)?;
    let (side, list) = read_list(alloc, from)?;
    let worst = read_worst(from)?;
    let nodes = read_all_nodes(alloc, from, dialect)?;
    let roots = read_roots_to(alloc, from, dialect, side, &list, &nodes)?;
    read_word(from, b"end")?;
    Ok(Strategy {
        dialect,
        side,
        list,
        worst,
        nodes,
        roots,
    })
}

fn read_lines(alloc: Global, text: &[u8]) -> Result<Strategy, TextFault>
    ensures { Gives (λ s. state_of s) result (whole strategy_at (lines text.now)) }
{
    let mut from = Cursor::new(text);
    let s = read_parts(alloc, &mut from)?;
    from.end()?;
    Ok(s)
}

/// The strategy that the text spells.
///
/// The fault is the first line that is not accepted, or, where all lines are and the text is not complete, the number of
/// lines plus 1 with `Syntax`. `Count` comes at a number of positions, own moves, nodes, edges or roots that is a plain decimal
/// out of range; `Large` at the line of the node that takes all edges over `MOST_EDGES`; `Differs` at a listed position with
/// another hand than the first; `OutOfPlace` at a line that leads to no node before its own, or from a root to none, at a key that
/// does not come after the key before it, and at a root of the other form. Whether the strategy mates is not asked.
///
/// The text is read once.
#[tactic(auto, using(crate::proofs::StrategyLaws::strategy_reading, crate::proofs::Writables::spelled_can))]
pub fn read_strategy(alloc: Global, text: &[u8]) -> Result<Strategy, TextFault>
    ensures reading { IsReading (λ s. state_of s) strategy_at Always SpellsStrategy StrategyGrammar
        (lines text.now) result }
    // What is read can be written: it is within the limits, its words can be told, its keys ascend.
    ensures written { IfOk result (λ s. CanBeWritten (state_of s)) }
{
    read_lines(alloc, text)
}
