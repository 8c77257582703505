ghost use Rattle.std.specs.Prelude.{◌≡◌, [], true, false, Some};
ghost use Rattle.krieg_board.specs.Pos.{Pos};
ghost use Rattle.krieg_sight.specs.Memo.{IsRight};
ghost use Rattle.krieg_nets.specs.Seen.{mates_within};

use crate::told::Told;
use indexmap::IndexMap;
use krieg_pack::Packed;
use std::alloc::Global;
use std::marker::Model;

/// Of so many positions it is kept: some 70 MB. Then all are forgotten.
const MOST_LAST: usize = 1_000_000;

/// Of positions at their last move whether there may be a mate, as far as they were met of late.
#[derive(Drop)]
pub(crate) struct LastMoves {
    told: IndexMap<Packed, Told>,
}

impl Model for LastMoves {
    ghost use Rattle.krieg_sight.specs.Memo.{Memo, AreRight};

    ghost Value = { Memo };

    ghost view = { λ s. s.told.entries };

    ghost invariant = { λ s. AreRight s.told.entries };
}

/// What is told of a position where there may be a mate in one move, or is none.
#[inline]
fn told_of_last(may: bool) -> Told
    ensures { (p : Pos) → (may ≡ false → mates_within 1 p ≡ false) → IsRight p result }
{
    if may {
        Told {
            none: 0,
            some: 1,
            fled: 0,
            met: 0,
        }
    } else {
        Told {
            none: 1,
            some: 0,
            fled: 0,
            met: 0,
        }
    }
}

impl LastMoves {
    /// Nothing is known. It takes no memory.
    pub(crate) fn new(alloc: Global) -> LastMoves {
        LastMoves {
            told: IndexMap::new(alloc),
        }
    }

    /// Whether there may be a mate in one move, where it is known.
    pub(crate) fn of(&self, p: &Packed) -> Option<bool>
        ensures { result ≡ Some false → mates_within 1 p.now ≡ false }
    {
        match self.told.get(p) {
            Some(told) => Some(told.none == 0),
            None => None,
        }
    }

    /// Forgets all where there are too many.
    fn make_room(&mut self) {
        if self.told.len() >= MOST_LAST {
            self.told.clear();
        }
    }

    /// Keeps whether there may be one, where there is memory for it.
    pub(crate) fn keep(&mut self, p: &Packed, may: bool)
        requires { may ≡ false → mates_within 1 p.now ≡ false }
    {
        self.make_room();
        match self.told.insert(*p, told_of_last(may)) {
            Ok(_) => {}
            Err(_) => {}
        }
    }
}
