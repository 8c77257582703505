// A plan file as a guide.
ghost use Rattle.std.specs.Prelude.{◌≡◌, option_map};
ghost use Rattle.krieg_theory.specs.Tree.{Nothing};
ghost use Rattle.krieg_plan.specs.Nodes.{tree_of, as_other};
ghost use Rattle.krieg_plan.specs.Plans.{plan_of};
ghost use Rattle.krieg_robot.specs.Places as spec;

use crate::guide::{Guide, Step};
use krieg_board::{Move, Position, Side};
use krieg_plan::{Node, Plan, PlanFile, find_edge, find_root};
use krieg_words::Dialect;

/// The node behind a step from a node.
fn below<'a>(n: &'a Node, s: &Step) -> Option<&'a Node>
    ensures { as_other (option_map (λ r. tree_of r.now) result) ≡ spec.below (tree_of n.now) s.now }
{
    match s {
        Step::From(_, _) => None,
        Step::No => match &n.no {
            Some(node) => Some(node),
            None => None,
        },
        Step::On(own, reply) => find_edge(n, *own, *reply),
    }
}

/// The node behind a step, from a node or from outside the plan.
fn behind<'a>(plan: &'a Plan, n: Option<&'a Node>, s: &Step) -> Option<&'a Node>
    ensures { as_other (option_map (λ r. tree_of r.now) result)
        ≡ spec.behind (plan_of plan.now) (as_other (option_map (λ r. tree_of r.now) n.entry))
        s.now }
{
    match s {
        Step::From(opens, heard) => find_root(plan, *opens, *heard),
        _ => match n {
            None => None,
            Some(n) => below(n, s),
        },
    }
}

/// The node at the end of a way.
fn node_on<'a>(plan: &'a Plan, way: &[Step]) -> Option<&'a Node>
    ensures { as_other (option_map (λ r. tree_of r.now) result)
        ≡ spec.node_on (plan_of plan.now) Nothing way.now }
{
    let mut node: Option<&'a Node> = None;
    for s in way {
        node = behind(plan, node, s);
    }
    node
}

impl Guide for PlanFile {
    ghost use Rattle.krieg_robot.specs.Guides.{by_plan};

    ghost guidance = { by_plan };

    fn dialect(&self) -> Dialect {
        self.dialect
    }

    fn side(&self) -> Side {
        self.side
    }

    fn list(&self) -> &[Position] {
        &self.list
    }

    fn try_on(&self, way: &[Step]) -> Option<Move> {
        match node_on(&self.plan, way) {
            Some(n) => Some(n.mv),
            None => None,
        }
    }
}
