ghost use Rattle.std.specs.Prelude.{map};
ghost use Rattle.krieg_strategy.specs.WellFormed.{IsStrategy};
ghost use Rattle.krieg_strategy.specs.Roots.{root_of};

use crate::nodes::Nodes;
use crate::root::StrategyRoot;
use krieg_board::{Position, Side};
use krieg_words::Dialect;

/// A plan whose repeated parts are written once, with what it claims: it mates every listed position within `worst` own
/// moves of that side, where that is told in the dialect.
#[derive(Drop)]
pub struct Strategy {
    pub dialect: Dialect,
    pub side: Side,
    pub list: Vec<Position>,
    pub worst: u16,
    pub nodes: Nodes,
    pub roots: Vec<StrategyRoot>,
    pub ghost well_formed: { IsStrategy nodes (map root_of roots.items) worst },
}
