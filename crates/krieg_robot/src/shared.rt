// A strategy as a guide: its nodes are followed by their numbers, and the plan that it unfolds to is never made.
ghost use Rattle.std.specs.Prelude.{◌≡◌, ◌<◌, IfSome, length};
ghost use Rattle.krieg_strategy.specs.Values.{plan_in};
ghost use Rattle.krieg_theory.specs.Tree.{Nothing};
ghost use Rattle.krieg_robot.specs.Places as spec;

use crate::guide::{Guide, Step};
use krieg_board::{Move, Position, Side};
use krieg_strategy::{Strategy, find_edge_to, find_root_to};
use krieg_words::Dialect;

/// The number of the node behind a step, from the node with a number or from outside.
fn number_behind(strategy: &Strategy, number: Option<u32>, step: &Step) -> Option<u32>
    requires { IfSome number (λ i. i < length strategy.now.nodes) }
    ensures there { IfSome result (λ i. i < length strategy.now.nodes) }
    ensures leads { spec.node_at strategy.now result
        ≡ spec.behind (plan_in strategy.now) (spec.node_at strategy.now number) step.now }
{
    match (step, number) {
        (Step::From(opens, heard), _) => find_root_to(&strategy.roots, opens, heard),
        (Step::No, Some(number)) => strategy.nodes.get(number).no,
        (Step::On(own, reply), Some(number)) => {
            find_edge_to(strategy.nodes.get(number).edges, own, reply)
        }
        (_, None) => None,
    }
}

/// The number of the node at the end of a way.
fn number_on(strategy: &Strategy, way: &[Step]) -> Option<u32>
    ensures there { IfSome result (λ i. i < length strategy.now.nodes) }
    ensures leads { spec.node_at strategy.now result
        ≡ spec.node_on (plan_in strategy.now) Nothing way.now }
{
    let mut number: Option<u32> = None;
    for step in way {
        number = number_behind(strategy, number, step);
    }
    number
}

impl Guide for Strategy {
    ghost use Rattle.krieg_robot.specs.Guides.{by_strategy};

    ghost guidance = { by_strategy };

    fn dialect(&self) -> Dialect {
        self.dialect
    }

    fn side(&self) -> Side {
        self.side
    }

    fn list(&self) -> &[Position] {
        &self.list
    }

    fn try_on(&self, way: &[Step]) -> Option<Move> {
        match number_on(self, way) {
            Some(number) => Some(self.nodes.get(number).mv),
            None => None,
        }
    }
}
