// The seats of both sides.
ghost use Rattle.std.specs.Prelude.{◌≡◌, []};

use krieg_seats::Seat;
use std::alloc::Global;

/// The seats of both sides, and those that were relieved.
pub struct Bench {
    /// White's seats. The first one sits, and the others relieve it in their order.
    pub white: Vec<Box<dyn Seat>>,
    /// Black's seats, in the same order.
    pub black: Vec<Box<dyn Seat>>,
    /// White's seats that were relieved, in the order in which they were: what they said and heard can still be seen.
    pub white_out: Vec<Box<dyn Seat>>,
    /// Black's seats that were relieved.
    pub black_out: Vec<Box<dyn Seat>>,
}

/// All seats go. It is written out, so that whoever has a bench lets it go by one call.
impl Drop for Bench {
    fn drop(self) {
        let Bench {
            white: _,
            black: _,
            white_out: _,
            black_out: _,
        } = self;
    }
}

impl Bench {
    /// A bench without seats. It takes no memory.
    pub fn new(alloc: Global) -> Bench
        ensures white { result.white.items ≡ [] }
        ensures black { result.black.items ≡ [] }
        ensures white_out { result.white_out.items ≡ [] }
        ensures black_out { result.black_out.items ≡ [] }
    {
        Bench {
            white: Vec::new(alloc),
            black: Vec::new(alloc),
            white_out: Vec::new(alloc),
            black_out: Vec::new(alloc),
        }
    }

    /// Drops all seats that were relieved. The others stay. It takes no memory.
    pub fn dismiss(&mut self)
        ensures white { self.new.white.items ≡ self.old.white.items }
        ensures black { self.new.black.items ≡ self.old.black.items }
        ensures white_out { self.new.white_out.items ≡ [] }
        ensures black_out { self.new.black_out.items ≡ [] }
    {
        self.white_out.clear();
        self.black_out.clear();
    }
}
