ghost use Rattle.std.specs.Prelude.{◌≡◌, true, false, Some};
ghost use Rattle.krieg_board.specs.Pos.{Pos};
ghost use Rattle.krieg_sight.specs.Memo.{IsRight};
ghost use Rattle.krieg_nets.specs.Seen.{leaves_none, mates_within};
ghost use Rattle.krieg_sight.specs.Told.{nothing};

/// What is known of a position, each as a number of moves. A 0 says nothing.
#[derive(Clone, Copy)]
pub(crate) struct Told {
    /// The greatest within which it was found to be no mate by the side to move.
    pub none: u8,
    /// The least within which it may be one.
    pub some: u8,
    /// The greatest within which some move was found to leave the other side no mate.
    pub fled: u8,
    /// The least within which each may be followed by one.
    pub met: u8,
}

impl Told {
    /// Nothing.
    pub(crate) fn nothing() -> Told
        ensures { result ≡ nothing }
    {
        Told {
            none: 0,
            some: 0,
            fled: 0,
            met: 0,
        }
    }

    /// Whether there may be a mate within so many moves, where it is told.
    #[inline]
    pub(crate) fn mate_within(&self, moves: u8) -> Option<bool>
        ensures { result ≡ Some false → (p : Pos) → IsRight p self.now →
            mates_within moves p ≡ false }
    {
        if moves <= self.none {
            return Some(false);
        }
        if 0 < self.some && self.some <= moves {
            return Some(true);
        }
        None
    }

    /// Whether each move may be followed by a mate of the other side within so many moves, where it is told.
    #[inline]
    pub(crate) fn met_within(&self, moves: u8) -> Option<bool>
        ensures { result ≡ Some false → (p : Pos) → IsRight p self.now →
            leaves_none moves p ≡ true }
    {
        if 0 < self.fled && moves <= self.fled {
            return Some(false);
        }
        if 0 < self.met && self.met <= moves {
            return Some(true);
        }
        None
    }
}
