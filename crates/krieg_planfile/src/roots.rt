ghost use Rattle.std.specs.Prelude.{◌≡◌, ◌&&◌, None, map, IfErr, ◌≢◌};
ghost use Rattle.krieg_text.specs.Reading.{taken, GivesOn};
ghost use Rattle.krieg_game.specs.Keys.{root_lt};
ghost use Rattle.krieg_plan.specs.Roots.{root_of};
ghost use Rattle.krieg_planfile.specs.NodeForms as forms;
ghost use Rattle.krieg_planfile.specs.NodeReading as nodes;
ghost use Rattle.krieg_planfile.specs.PlanReading as spec;

use crate::forms::key_in;
use crate::nodes::read_node;
use krieg_plan::{MOST_ON_PATH, Root, compare_heard};
use krieg_text::{Cursor, LineSource, TextFault, TextKind, behind};
use krieg_words::{Dialect, Words, compare};
use krieg_wordtext::read_words_in;
use std::alloc::Global;

/// What stands before a node at the root: the opening words, and the words of the opponent's move where he
/// is to move first.
pub(crate) type RootKey = (Words, Option<Words>);

/// By which rules the lines of roots are read.
#[derive(Clone, Copy)]
pub(crate) struct RootRules {
    pub version: u64,
    pub dialect: Dialect,
    /// Whether the opponent is to move first.
    pub waiting: bool,
}

fn root_with(key: Option<(Words, Words)>, single: Option<Words>) -> Option<RootKey>
    ensures { result ≡ spec.root_with key single }
{
    match (key, single) {
        (Some((opens, heard)), _) => Some((opens, Some(heard))),
        (None, Some(opens)) => Some((opens, None)),
        (None, None) => None,
    }
}

fn root_in(version: u64, d: Dialect, text: &[u8]) -> Option<RootKey>
    ensures { result ≡ spec.root_in version d text.now }
{
    let key = if version == 1 { None } else { key_in(d, text) };
    root_with(key, read_words_in(d, text).ok())
}

#[tactic(auto, unfolding(crate::specs::PlanReading::any_root_form))]
fn any_root_form(version: u64, d: Dialect, line: &[u8]) -> Result<RootKey, TextKind>
    ensures { result ≡ spec.any_root_form version d line.now }
{
    match behind(b"on ", line) {
        None => Err(TextKind::Syntax),
        Some(text) => match root_in(version, d, text) {
            None => Err(TextKind::Syntax),
            Some(key) => Ok(key),
        },
    }
}

fn is_root_of(waiting: bool, key: &RootKey) -> bool
    ensures { result ≡ spec.is_root_of waiting key.now }
{
    key.1.is_some() == waiting
}

fn follows(last: &Option<RootKey>, key: &RootKey) -> bool
    ensures { result ≡ forms.follows root_lt last.now key.now }
{
    match last {
        None => true,
        Some(last) => compare(&last.0, &key.0)
            .then(compare_heard(&last.1, &key.1))
            .is_lt(),
    }
}

fn root_placed(waiting: bool, last: &Option<RootKey>, key: RootKey) -> Result<RootKey, TextKind>
    ensures { result ≡ spec.root_placed waiting last.now key }
{
    if is_root_of(waiting, &key) && follows(last, &key) {
        Ok(key)
    } else {
        Err(TextKind::OutOfPlace)
    }
}

fn root_form(rules: RootRules, last: &Option<RootKey>, line: &[u8]) -> Result<RootKey, TextKind>
    ensures { result
        ≡ spec.root_form rules.version rules.waiting rules.dialect last.now line.now }
{
    let key = any_root_form(rules.version, rules.dialect, line)?;
    root_placed(rules.waiting, last, key)
}

/// The next line, as that of a root, after the root with the last key.
fn read_root_line(
    from: &mut Cursor<'_>,
    rules: RootRules,
    last: &Option<RootKey>,
) -> Result<RootKey, TextFault>
    ensures { GivesOn (λ x. x) result from.new
        (taken (spec.root_form rules.version rules.waiting rules.dialect last.now) from.old) }
{
    from.next(|line| root_form(rules, last, line))
}

/// The line of a root, after the root with the last key, and its node.
fn read_root(
    alloc: Global,
    from: &mut Cursor<'_>,
    rules: RootRules,
    left: &mut usize,
    last: &Option<RootKey>,
) -> Result<Root, TextFault>
    ensures { GivesOn (λ r. (root_of r, left.new)) result from.new
        (nodes.branch_by (nodes.node_at MOST_ON_PATH rules.dialect)
        (spec.root_form rules.version rules.waiting rules.dialect) last.now left.old from.old) }
{
    let (opens, heard) = read_root_line(from, rules, last)?;
    let node = read_node(alloc, from, rules.dialect, MOST_ON_PATH, left)?;
    Ok(Root { opens, heard, node })
}

/// `k` roots, with no more nodes than `left`.
#[tactic(auto, using(crate::proofs::Branches::branches))]
pub(crate) fn read_roots(
    alloc: Global,
    from: &mut Cursor<'_>,
    rules: RootRules,
    left: &mut usize,
    k: u64,
) -> Result<Vec<Root>, TextFault>
    ensures { GivesOn (λ v. (map root_of v.items, left.new)) result from.new
        (nodes.branches_by (nodes.node_at MOST_ON_PATH rules.dialect)
        (spec.root_form rules.version rules.waiting rules.dialect) k None left.old from.old) }
{
    let mut roots = Vec::new(alloc);
    let mut last: Option<RootKey> = None;
    for i in 0..k {
        let root = match read_root(alloc, from, rules, left, &last) {
            Ok(root) => root,
            Err(fault) => return Err(fault),
        };
        last = Some((root.opens, root.heard));
        roots.push(root)?;
    }
    Ok(roots)
}
