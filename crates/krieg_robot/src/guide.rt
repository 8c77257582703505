// What a player may follow.
use krieg_board::{Move, Position, Side};
use krieg_words::{Dialect, Words};

/// A step of the way from outside a plan to one of its nodes.
#[derive(Drop)]
pub enum Step {
    /// To the root with these words.
    From(Words, Option<Words>),
    /// To the node for the illegal case.
    No,
    /// Along the edge with these words.
    On(Words, Words),
}

/// What a player may follow: a plan, with the positions that it is for. In contracts it is a `Guidance`, whatever keeps
/// it.
pub trait Guide: Drop {
    ghost use Rattle.std.specs.Prelude.{◌≡◌};
    ghost use Rattle.krieg_theory.specs.Tree.{Nothing};
    ghost use Rattle.krieg_robot.specs.Guides.{Guidance};
    ghost use Rattle.krieg_robot.specs.Places.{node_on, try_there};

    // The plan that is followed, and what it is for.
    ghost guidance: { Self → Guidance };

    /// The dialect in which the player is told.
    fn dialect(&self) -> Dialect
        ensures { result ≡ (guidance self.now).dialect };

    /// The side of the player.
    fn side(&self) -> Side
        ensures { result ≡ (guidance self.now).side };

    /// The positions that are listed.
    fn list(&self) -> &[Position]
        ensures { result.now ≡ (guidance self.now).list };

    /// The try of the node at the end of the way, where it leads to a node. It takes no memory.
    fn try_on(&self, way: &[Step]) -> Option<Move>
        ensures { result ≡ try_there (node_on (guidance self.now).plan Nothing way.now) };
}
