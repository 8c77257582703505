ghost use Rattle.std.specs.Prelude.{◌≡◌, true, IfSome, MatchOption, map};
ghost use Rattle.krieg_theory.specs.Tree.{Nothing, Just};
ghost use Rattle.krieg_game.specs.Keys.{heard_cmp, root_cmp};
ghost use Rattle.krieg_plan.specs.Trees.{first_root_in};
ghost use Rattle.krieg_plan.specs.Order.{is_ordered, is_ordered_plan};
ghost use Rattle.krieg_plan.specs.Nodes.{tree_of};
ghost use Rattle.krieg_plan.specs.Roots.{root_of};
ghost use Rattle.krieg_plan.specs.Plans.{plan_of};

use crate::node::Node;
use crate::plan::{Plan, Root};
use krieg_words::{Words, compare};
use std::cmp::Ordering;

impl Plan {
    /// The plan of these roots, whose keys ascend strictly, as do those of every node below them.
    pub fn make(roots: Vec<Root>) -> Plan
        requires { is_ordered_plan (map root_of roots.items) ≡ true }
        ensures { plan_of result ≡ map root_of roots.items }
    {
        Plan { roots }
    }
}

/// Tells a proof that the keys of a plan ascend, in every node.
pub fn know_ordered(p: &Plan)
    ensures { is_ordered_plan (plan_of p.now) ≡ true }
{
    let _roots = p.roots.as_slice();
}

/// The order of what was heard before the first own turn: nothing first.
pub fn compare_heard(a: &Option<Words>, b: &Option<Words>) -> Ordering
    ensures { result ≡ heard_cmp a.now b.now }
{
    match (a, b) {
        (None, None) => Ordering::Equal,
        (None, Some(_)) => Ordering::Less,
        (Some(_), None) => Ordering::Greater,
        (Some(a), Some(b)) => compare(a, b),
    }
}

/// The order of roots' keys: by the opening words, then by what was heard.
fn compare_root(r: &Root, opens: &Words, heard: &Option<Words>) -> Ordering
    ensures { result ≡ root_cmp (root_of r.now).0 (opens.now, heard.now) }
{
    compare(&r.opens, opens).then(compare_heard(&r.heard, heard))
}

/// The node at the root with these words, by bisection. The keys ascend in what is found and below it.
pub fn find_root(p: &Plan, opens: Words, heard: Option<Words>) -> Option<&Node>
    ensures ordered { IfSome result (λ r. is_ordered (tree_of r.now) ≡ true) }
    ensures found { MatchOption result (first_root_in (plan_of p.now) (opens, heard) ≡ Nothing)
        (λ r. first_root_in (plan_of p.now) (opens, heard) ≡ Just (tree_of r.now)) }
{
    match p
        .roots
        .binary_search_by(|r| compare_root(r, &opens, &heard))
    {
        Ok(place) => Some(&p.roots[place].node),
        Err(_) => None,
    }
}
