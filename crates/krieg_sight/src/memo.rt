ghost use Rattle.std.specs.Prelude.{◌≡◌, ◌+◌, [], true, false, Some};
ghost use Rattle.std.specs.Bool.{OnTrue, OnFalse};
ghost use Rattle.krieg_nets.specs.Seen.{leaves_none, mates_within};
ghost use Rattle.krieg_sight.specs.Memo.{IsRight};

use crate::last_moves::LastMoves;
use crate::told::Told;
use indexmap::IndexMap;
use krieg_nets::Nets;
use krieg_pack::Packed;
use std::alloc::Global;
use std::marker::Model;

/// Of so many positions is kept what was found: some 600 MB.
const MOST_KEPT: usize = 8_000_000;

/// What was found of positions, and how many looks are left: each is one at a position, or at all squares of a king who is alone.
pub struct Sight {
    alloc: Global,
    told: IndexMap<Packed, Told>,
    /// The same of positions at their last move, of the last ones that were met.
    last: LastMoves,
    /// The same of positions with a king who is alone against officers, for all squares of his at once.
    pub(crate) nets: Nets,
    /// The place of the member of a set that was found to be no mate last. It is asked first, since it mostly is none again.
    first: usize,
}

impl Model for Sight {
    ghost use Rattle.krieg_sight.specs.Memo.{SightState, AreRight};

    ghost Value = { SightState };

    ghost view = { λ s. record { told = s.told.entries; left = s.nets } };

    ghost invariant = { λ s. AreRight s.told.entries };
}

/// Written out, so that each owner lets it go by one call.
impl Drop for Sight {
    fn drop(self) {
        let Sight {
            alloc: _,
            told: _,
            last: _,
            nets: _,
            first: _,
        } = self;
    }
}

impl Sight {
    /// Nothing is known, and so many looks are left. It takes no memory.
    pub fn new(alloc: Global, looks: u64) -> Sight
        ensures { result ≡ record { told = []; left = looks } }
    {
        Sight {
            alloc,
            told: IndexMap::new(alloc),
            last: LastMoves::new(alloc),
            nets: Nets::new(alloc, looks),
            first: 0,
        }
    }

    /// Where it takes its memory.
    pub(crate) fn alloc(&self) -> Global {
        self.alloc
    }

    /// The place of the member of a set that is asked first. Nothing is claimed of it.
    pub(crate) fn first(&self) -> usize {
        self.first
    }

    /// Asks the member at that place first from now on.
    pub(crate) fn begin_at(&mut self, place: usize)
        ensures { self.new ≡ self.old }
    {
        self.first = place;
    }

    /// One look less is left; `false` where none was.
    pub(crate) fn look(&mut self) -> bool
        ensures looked { OnTrue result (self.new.left + 1 ≡ self.old.left) }
        ensures none { OnFalse result ((self.old.left ≡ 0) × (self.new.left ≡ 0)) }
        ensures told { self.new.told ≡ self.old.told }
    {
        self.nets.look()
    }

    /// What is known of the position.
    fn of(&self, p: &Packed) -> Told
        ensures { IsRight p.now result }
    {
        match self.told.get(p) {
            Some(told) => *told,
            None => Told::nothing(),
        }
    }

    /// Whether there may be a mate within so many moves, where it is known.
    pub(crate) fn told(&self, p: &Packed, moves: u8) -> Option<bool>
        ensures { result ≡ Some false → mates_within moves p.now ≡ false }
    {
        self.of(p).mate_within(moves)
    }

    /// Whether each move in the position may be followed by a mate of the other side within so many moves, where it is known.
    pub(crate) fn told_of_replies(&self, p: &Packed, moves: u8) -> Option<bool>
        ensures { result ≡ Some false → leaves_none moves p.now ≡ true }
    {
        self.of(p).met_within(moves)
    }

    /// Whether there may be a mate in one move, where it is known.
    pub(crate) fn told_of_last(&self, p: &Packed) -> Option<bool>
        ensures { result ≡ Some false → mates_within 1 p.now ≡ false }
    {
        self.last.of(p)
    }

    /// Notes whether there may be a mate in one move.
    pub(crate) fn note_last(&mut self, p: &Packed, may: bool)
        requires { may ≡ false → mates_within 1 p.now ≡ false }
        ensures { self.new ≡ self.old }
    {
        self.last.keep(p, may);
    }

    /// Keeps what is known of the position, where there is room and memory for it.
    fn keep(&mut self, p: &Packed, told: Told)
        requires { IsRight p.now told }
        ensures { self.new.left ≡ self.old.left }
    {
        if self.told.len() < MOST_KEPT || self.told.get(p).is_some() {
            match self.told.insert(*p, told) {
                Ok(_) => {}
                Err(_) => {}
            }
        }
    }

    /// Notes that there is no mate within so many moves.
    pub(crate) fn note_none(&mut self, p: &Packed, moves: u8)
        requires { mates_within moves p.now ≡ false }
        ensures { self.new.left ≡ self.old.left }
    {
        let told = self.of(p);
        self.keep(
            p,
            Told {
                none: moves,
                some: told.some,
                fled: told.fled,
                met: told.met,
            },
        );
    }

    /// Notes that there may be one.
    pub(crate) fn note_some(&mut self, p: &Packed, moves: u8)
        ensures { self.new.left ≡ self.old.left }
    {
        let told = self.of(p);
        self.keep(
            p,
            Told {
                none: told.none,
                some: moves,
                fled: told.fled,
                met: told.met,
            },
        );
    }

    /// Notes that some move leaves the other side no mate within so many moves.
    pub(crate) fn note_fled(&mut self, p: &Packed, moves: u8)
        requires { leaves_none moves p.now ≡ true }
        ensures { self.new.left ≡ self.old.left }
    {
        let told = self.of(p);
        self.keep(
            p,
            Told {
                none: told.none,
                some: told.some,
                fled: moves,
                met: told.met,
            },
        );
    }

    /// Notes that each move may be followed by one.
    pub(crate) fn note_met(&mut self, p: &Packed, moves: u8)
        ensures { self.new.left ≡ self.old.left }
    {
        let told = self.of(p);
        self.keep(
            p,
            Told {
                none: told.none,
                some: told.some,
                fled: told.fled,
                met: moves,
            },
        );
    }
}
