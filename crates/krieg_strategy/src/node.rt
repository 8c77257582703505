use crate::edge::StrategyEdge;
use krieg_board::Move;

/// A node of a strategy: a try, the number of the node to go on with if the umpire calls it illegal, and where to go on
/// by what is heard if it is legal.
#[derive(Clone, Copy)]
pub struct StrategyNode<'a> {
    pub mv: Move,
    pub no: Option<u32>,
    pub edges: &'a [StrategyEdge],
}
