ghost use Rattle.std.specs.Prelude.{◌≡◌, true, map};
ghost use Rattle.krieg_plan.specs.Order.{is_ordered_plan};
ghost use Rattle.krieg_plan.specs.Roots.{root_of};

use crate::node::Node;
use krieg_board::{Position, Side};
use krieg_words::{Dialect, Words};

/// A root of a plan: what the player hears before his first turn, and the node to begin with.
///
/// Where the opponent is to move first, `heard` has the words of his move.
#[derive(Drop)]
pub struct Root {
    pub opens: Words,
    pub heard: Option<Words>,
    pub node: Box<Node>,
}

/// A plan: roots whose keys ascend strictly, by the opening words and then by what was heard, nothing
/// first. The keys of the edges ascend strictly in every node.
#[derive(Drop)]
pub struct Plan {
    pub roots: Vec<Root>,
    pub ghost ordered: { is_ordered_plan (map root_of roots.items) ≡ true },
}

/// A plan with what it claims: it mates every listed position within `worst` own moves of that side, where
/// that is told in the dialect.
#[derive(Drop)]
pub struct PlanFile {
    pub dialect: Dialect,
    pub side: Side,
    pub list: Vec<Position>,
    pub worst: u16,
    pub plan: Plan,
}
