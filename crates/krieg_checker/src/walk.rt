ghost use Rattle.std.specs.Prelude.{◌≡◌, false, true, map};
ghost use Rattle.std.specs.List.{list_all};
ghost use Rattle.krieg_theory.specs.Wins.{wins_at};
ghost use Rattle.krieg_game.specs.Chess.{chess};
ghost use Rattle.krieg_game.specs.Classes.{class_pair};
ghost use Rattle.krieg_plan.specs.Trees.{edges_in};
ghost use Rattle.krieg_plan.specs.Order.{is_ordered};
ghost use Rattle.krieg_plan.specs.Nodes.{tree_of};
ghost use Rattle.krieg_parting.specs.Charges.{Charges};
ghost use Rattle.krieg_checker.specs.Needs as found;
ghost use Rattle.krieg_checker.specs.Needs.{Tells, all_won};
ghost use Rattle.krieg_checker.specs.Walk.{node_cost, edge_cost, classes_won, classes_cost};

use crate::node_try::{NodeTry, try_node};
use krieg_board::Units;
use krieg_game::Class;
use krieg_pack::Belief;
use krieg_parting::PartStop;
use krieg_plan::{Node, find_edge_in_order};
use krieg_words::Dialect;
use std::alloc::Global;

/// The most own moves that a plan file may name, and a check counts.
const MOST_COUNTED: u16 = 65_535;

/// What is needed for both.
pub(crate) fn worse(a: Option<u16>, b: Option<u16>) -> Option<u16>
    ensures { result ≡ found.worse a b }
{
    match (a, b) {
        (Some(a), Some(b)) => Some(if a < b { b } else { a }),
        _ => None,
    }
}

/// What the legal try of a node needs.
fn own_need(fails: bool, below: Option<u16>) -> Option<u16>
    ensures { result ≡ found.own_need fails below }
{
    match below {
        Some(w) if !fails && w < MOST_COUNTED => Some(w + 1),
        _ => None,
    }
}

/// What is needed where there is no node.
#[tactic(auto, using(crate::proofs::Walking::missing))]
pub(crate) fn missing(b: &Belief) -> Option<u16>
    ensures { Tells result (λ k. list_all (λ p. false) b.now) }
{
    if b.is_empty() { Some(0) } else { None }
}

/// Within how many moves the node wins all of the set, for the units of all pairs that are reached from there.
///
/// It goes on over `no` in a loop, and calls itself for the edges alone. A set is let go once it is parted, and a
/// class once it is walked.
#[cycle(walking)]
pub(crate) fn walk(
    alloc: Global,
    d: Dialect,
    n: &Node,
    b: Belief,
    units: &mut Units,
) -> Result<Option<u16>, PartStop>
    requires { is_ordered (tree_of n.now) ≡ true }
    ensures { Charges result (λ r. Tells r (all_won (chess d) (tree_of n.now) b))
        (node_cost (chess d) (tree_of n.now) b) units.old units.new }
{
    let mut need = Some(0);
    let mut here = n;
    let mut set = b;
    'nodes: loop {
        if set.is_empty() {
            return Ok(need);
        }
        let NodeTry {
            refused,
            fails,
            classes,
        } = try_node(alloc, d, here, set, units)?;
        let below = walk_classes(alloc, d, here, classes, units)?;
        need = worse(need, own_need(fails, below));
        match &here.no {
            Some(next) => {
                here = next;
                set = refused;
            }
            None => return Ok(worse(need, missing(&refused))),
        }
    }
}

/// Within how many moves each class is won at the edge with its key.
#[cycle(walking)]
fn walk_classes(
    alloc: Global,
    d: Dialect,
    n: &Node,
    classes: Vec<Class>,
    units: &mut Units,
) -> Result<Option<u16>, PartStop>
    requires { is_ordered (tree_of n.now) ≡ true }
    ensures { Charges result (λ r. Tells r
        (classes_won d (edges_in (tree_of n.now)) (map class_pair classes.items)))
        (classes_cost d (edges_in (tree_of n.now)) (map class_pair classes.items))
        units.old units.new }
{
    let mut need = Some(0);
    for class in classes {
        need = worse(need, walk_class(alloc, d, n, class, units)?);
    }
    Ok(need)
}

/// Within how many moves the class is won at the edge with its key.
#[cycle(walking)]
fn walk_class(
    alloc: Global,
    d: Dialect,
    n: &Node,
    class: Class,
    units: &mut Units,
) -> Result<Option<u16>, PartStop>
    requires { is_ordered (tree_of n.now) ≡ true }
    ensures { Charges result (λ r. Tells r
        (λ k. list_all (λ p. wins_at (chess d) (edges_in (tree_of n.now)) (class_pair class).0 p k)
        (class_pair class).1)) (edge_cost (chess d) (edges_in (tree_of n.now)) (class_pair class).0
        (class_pair class).1) units.old units.new }
{
    match find_edge_in_order(n, class.own, class.reply) {
        None => Ok(missing(&class.belief)),
        Some(node) => walk(alloc, d, node, class.belief, units),
    }
}
