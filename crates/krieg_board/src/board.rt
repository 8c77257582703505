ghost use Rattle.std.specs.Prelude.{◌≡◌};
ghost use Rattle.krieg_board.specs.Board as spec;

use crate::men::{Kind, Man, Side};

/// What stands on each of the 64 squares, a1 first.
pub type Board = [Option<Man>; 64];

/// Whether this is a man of that side.
pub fn is_of(side: Side, man: Option<Man>) -> bool
    ensures { result ≡ spec.is_of side man }
{
    match man {
        None => false,
        Some(man) => man.side == side,
    }
}

/// Whether this is a man of that side and kind.
pub fn is_man(side: Side, kind: Kind, man: Option<Man>) -> bool
    ensures { result ≡ spec.is_man side kind man }
{
    match man {
        None => false,
        Some(man) => man.side == side && man.kind == kind,
    }
}
