ghost use Rattle.std.specs.Prelude.{◌≡◌, IfOk, map};
ghost use Rattle.krieg_text.specs.Reading.{GivesOn};
ghost use Rattle.krieg_game.specs.Keys.{root_lt};
ghost use Rattle.krieg_planfile.specs.NodeForms.{follows};
ghost use Rattle.krieg_planfile.specs.PlanReading as plan;
ghost use Rattle.krieg_strategy.specs.Roots.{root_of};
ghost use Rattle.krieg_format.specs.Lines.{tested};
ghost use Rattle.krieg_strategyfile.specs.ReadParts as parts;
ghost use Rattle.krieg_strategyfile.specs.StrategyLines.{a_root, rooted};

use crate::forms::{RootKey, root_form};
use krieg_plan::compare_heard;
use krieg_strategy::StrategyRoot;
use krieg_text::{Cursor, LineSource, TextFault, TextKind};
use krieg_words::{Dialect, compare};
use std::alloc::Global;

/// By which rules the lines of roots are read.
#[derive(Clone, Copy)]
pub(crate) struct RootRules {
    pub dialect: Dialect,
    /// Whether the opponent is to move first.
    pub waiting: bool,
    /// How many nodes there are.
    pub nodes: usize,
}

fn is_root_of(waiting: bool, key: &RootKey) -> bool
    ensures { result ≡ plan.is_root_of waiting key.now }
{
    key.1.is_some() == waiting
}

fn follows(last: &Option<RootKey>, key: &RootKey) -> bool
    ensures { result ≡ follows root_lt last.now key.now }
{
    match last {
        None => true,
        Some(last) => compare(&last.0, &key.0)
            .then(compare_heard(&last.1, &key.1))
            .is_lt(),
    }
}

/// The key of a line, after the last one, and the number of the node that it leads to.
fn placed_root(
    rules: RootRules,
    last: &Option<RootKey>,
    line: &[u8],
) -> Result<(RootKey, u32), TextKind>
    ensures { result ≡ (tested (a_root rules.dialect)
        (rooted rules.waiting rules.nodes last.now)).form line.now }
{
    let root = root_form(rules.dialect, line)?;
    let is_there = (root.1 as usize) < rules.nodes;
    if is_there && is_root_of(rules.waiting, &root.0) && follows(last, &root.0) {
        Ok(root)
    } else {
        Err(TextKind::OutOfPlace)
    }
}

/// The next line, as the key of such a root and the number that it leads to.
#[tactic(auto, using(krieg_format::proofs::Repeats::line_gives))]
fn next_root(
    from: &mut Cursor<'_>,
    rules: RootRules,
    last: &Option<RootKey>,
) -> Result<(RootKey, u32), TextFault>
    ensures { GivesOn (λ r. r) result from.new
        (parts.root_at rules.dialect rules.waiting rules.nodes last.now from.old) }
{
    from.next(|line| placed_root(rules, last, line))
}

fn root_with(root: (RootKey, u32)) -> StrategyRoot
    ensures { root_of result ≡ root }
{
    StrategyRoot {
        opens: root.0.0,
        heard: root.0.1,
        to: root.1,
    }
}

/// The next line, as a root after the one with the last key.
fn read_root(
    from: &mut Cursor<'_>,
    rules: RootRules,
    last: &Option<RootKey>,
) -> Result<StrategyRoot, TextFault>
    ensures { GivesOn (λ r. root_of r) result from.new
        (parts.root_at rules.dialect rules.waiting rules.nodes last.now from.old) }
{
    let root = next_root(from, rules, last)?;
    Ok(root_with(root))
}

/// The next `n` lines as roots.
#[tactic(auto, using(krieg_text::proofs::ReadingLemmas::passed))]
pub(crate) fn read_roots(
    alloc: Global,
    from: &mut Cursor<'_>,
    rules: RootRules,
    n: usize,
) -> Result<Vec<StrategyRoot>, TextFault>
    ensures value { GivesOn (λ v. map root_of v.items) result from.new
        (parts.roots_at rules.dialect rules.waiting rules.nodes n from.old) }
    ensures formed { IfOk result (λ v. parts.AreRoots rules.nodes (map root_of v.items)) }
{
    let mut roots: Vec<StrategyRoot> = Vec::new(alloc);
    let mut last: Option<RootKey> = None;
    for i in 0..n {
        let root = match read_root(from, rules, &last) {
            Ok(root) => root,
            Err(fault) => return Err(fault),
        };
        last = Some((root.opens, root.heard));
        roots.push(root)?;
    }
    Ok(roots)
}
