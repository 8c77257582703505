ghost use Rattle.std.specs.Prelude.{◌≡◌, ◌<◌, true};
ghost use Rattle.krieg_nets.specs.Others as spec;

use krieg_board::{Sets, has, only, only_if};

/// The men of one side, where the other has but its king: all men of a position but him.
///
/// Three sets of squares tell their kinds: `ones` has the squares of pawns, bishops and queens, `twos` those of knights, bishops and kings,
/// and `fours` those of rooks, queens and kings.
#[derive(Clone, Copy, PartialEq, Eq, Hash)]
pub struct Others {
    pub ones: u64,
    pub twos: u64,
    pub fours: u64,
    /// Whether the king who is alone is Black's.
    pub black: bool,
}

/// The set behind a move: whoever stood on the one square stands on the other.
#[inline]
fn moved(set: u64, from: u8, to: u8) -> u64
    requires from { from < 64 }
    requires to { to < 64 }
{
    set & !(only(from) | only(to)) | only_if(has(set, from), to)
}

impl Others {
    /// The men of these sets but the king who is alone, whose square is a set too. Whether they are these is not tested.
    #[inline]
    pub(crate) fn beside(sets: &Sets, king: u64) -> Others {
        let kings = sets.kings & !king;
        Others {
            ones: sets.pawns | sets.bishops | sets.queens,
            twos: sets.knights | sets.bishops | kings,
            fours: sets.rooks | sets.queens | kings,
            black: sets.black == king,
        }
    }

    /// Whether just these men and the king stand on the board.
    #[inline]
    pub(crate) fn are_men(&self, king: u64, sets: &Sets) -> bool
        ensures { result ≡ true → spec.sets_with self.now king ≡ sets.now }
    {
        let all = self.ones | self.twos | self.fours;
        let bishops = self.ones & self.twos;
        let queens = self.ones & self.fours;
        let kings = self.twos & self.fours;
        let white = if self.black { all } else { king };
        let black = if self.black { king } else { all };
        white == sets.white
            && black == sets.black
            && self.ones ^ bishops ^ queens == sets.pawns
            && self.twos ^ bishops ^ kings == sets.knights
            && bishops == sets.bishops
            && self.fours ^ queens ^ kings == sets.rooks
            && queens == sets.queens
            && kings | king == sets.kings
    }

    /// The men without the one on that square, where one stands there.
    #[inline]
    pub(crate) fn without(&self, square: u8) -> Others
        requires { square < 64 }
        ensures { result.black ≡ self.now.black }
    {
        let others = !only(square);
        Others {
            ones: self.ones & others,
            twos: self.twos & others,
            fours: self.fours & others,
            black: self.black,
        }
    }

    /// The men behind a move of one of them. A man who stood where it ends is gone.
    #[inline]
    pub(crate) fn moved(&self, from: u8, to: u8) -> Others
        requires from { from < 64 }
        requires to { to < 64 }
        ensures { result.black ≡ self.now.black }
    {
        Others {
            ones: moved(self.ones, from, to),
            twos: moved(self.twos, from, to),
            fours: moved(self.fours, from, to),
            black: self.black,
        }
    }
}
