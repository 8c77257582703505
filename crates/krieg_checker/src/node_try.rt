ghost use Rattle.krieg_costs.specs.Cost.{made};
ghost use Rattle.krieg_game.specs.Chess.{chess};
ghost use Rattle.krieg_plan.specs.Nodes.{tree_of};
ghost use Rattle.krieg_parting.specs.Charges.{Charges};
ghost use Rattle.krieg_parting.specs.Parts.{IsParted};
ghost use Rattle.krieg_checker.specs.NodeTries.{IsNodeTry, IsEnd};
ghost use Rattle.krieg_checker.specs.Walk.{try_in};

use krieg_board::{Move, Units};
use krieg_game::Class;
use krieg_pack::Belief;
use krieg_parting::{Attempt, Mating, PartStop, Parted, gather, parts_of, try_to_mate};
use krieg_plan::Node;
use krieg_words::Dialect;
use std::alloc::Global;

/// What the try of a node makes of a set.
#[derive(Drop)]
pub(crate) struct NodeTry {
    /// The members in which it is illegal.
    pub refused: Belief,
    /// Whether no number of moves is enough for the others: in one it stalemates, or leaves a reply where no edge
    /// follows.
    pub fails: bool,
    /// What is possible after each key that may be heard, where an edge follows.
    pub classes: Vec<Class>,
}

/// What a try makes of a set where no edge follows: it must mate wherever it is legal, so replies are only counted.
fn end(
    alloc: Global,
    d: Dialect,
    mv: Move,
    b: Belief,
    units: &mut Units,
) -> Result<NodeTry, PartStop>
    ensures { Charges result (IsEnd d b mv) (made (chess d) b mv) units.old units.new }
{
    let Mating { lives, refused } = try_to_mate(alloc, b.members(), &mv, true, units)?;
    Ok(NodeTry {
        refused: Belief::from_packed(refused),
        fails: lives,
        classes: Vec::new(alloc),
    })
}

/// Parts the set by the try. The set is let go before the parts are sorted.
#[inline(never)]
fn part(
    alloc: Global,
    d: Dialect,
    mv: Move,
    b: Belief,
    units: &mut Units,
) -> Result<Parted, PartStop>
    ensures { Charges result (IsParted d b mv) (made (chess d) b mv) units.old units.new }
{
    let attempt = Attempt {
        dialect: d,
        mv,
        always: true,
    };
    let parts = gather(alloc, &attempt, b.members(), units)?;
    drop(b);
    Ok(parts_of(parts)?)
}

/// What the try of the node makes of the set, for one unit for each member and each reply.
#[inline(never)]
pub(crate) fn try_node(
    alloc: Global,
    d: Dialect,
    n: &Node,
    b: Belief,
    units: &mut Units,
) -> Result<NodeTry, PartStop>
    ensures { Charges result (IsNodeTry d (tree_of n.now) b)
        (made (chess d) b (try_in (tree_of n.now))) units.old units.new }
{
    if n.edges.is_empty() {
        return end(alloc, d, n.mv, b, units);
    }
    let Parted {
        refused,
        stale,
        classes,
    } = part(alloc, d, n.mv, b, units)?;
    Ok(NodeTry {
        refused,
        fails: stale,
        classes,
    })
}
