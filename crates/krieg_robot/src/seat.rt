// A seat that follows a guide.
ghost use Rattle.std.specs.Prelude.{◌≡◌, ◌≢◌, Err, IfOk, OnOk, OnErr, None, option_to_list};
ghost use Rattle.krieg_seats.specs.Accounts.{new_account, Asked, Told};
ghost use Rattle.krieg_robot.specs.Stands as stand;
ghost use Rattle.krieg_robot.specs.Followers as spec;
ghost use Rattle.krieg_robot.specs.Followers.{stand_of, say_of, when_asked, after_asked, after_told};
ghost use Rattle.krieg_robot.specs.Turns.{AsksOwn, HearsOwn};

use crate::guide::{Guide, Step};
use crate::next::Next;
use crate::place::{Place, change_by, go, next_of, next_try};
use krieg_board::{Move, Position, Side};
use krieg_play::AskOutcome;
use krieg_seats::{Say, Seat, SeatFault};
use krieg_wordtext::Line;
use std::alloc::Global;
use std::marker::Model;

/// A seat that follows a guide: at its turn it tries what its plan says, by the lines that it was told. In contracts it
/// is a `Follower`.
#[derive(Drop)]
pub struct GuidedSeat<G: Guide> {
    guide: G,
    place: Place,
    /// The way from a root to the node of the place.
    way: Vec<Step>,
    said: Vec<Move>,
    heard: Vec<Line>,
    asks: u64,
    leaves: u64,
}

impl<G: Guide> Model for GuidedSeat<G> {
    ghost use Rattle.std.specs.Prelude.{◌≡◌};
    ghost use Rattle.std.specs.Coded.{codes};
    ghost use Rattle.krieg_theory.specs.Tree.{Nothing};
    ghost use Rattle.krieg_robot.specs.Followers.{Follower, follow_guide};
    ghost use Rattle.krieg_robot.specs.Places.{stand_at, node_on};
    ghost use Rattle.krieg_robot.specs.TreeCodes.{coded_tree};

    ghost Value = { Follower };

    ghost coded = { Prim.hlevel (codes, coded_tree) };

    ghost view = { λ s. record {
      guide = G.guidance s.guide;
      account = record {
        said = s.said.items;
        heard = s.heard.items;
        asks = s.asks;
        faults = 0;
        leaves = s.leaves;
      };
    } };

    ghost invariant = { λ s. stand_at s.place (node_on (G.guidance s.guide).plan Nothing s.way.items) ≡ follow_guide (G.guidance s.guide) s.heard.items };
}

/// Whether the side is to move in the first of these positions.
fn is_first(side: Side, list: &[Position]) -> bool
    ensures { result ≡ spec.is_first side list.now }
{
    match list.first() {
        None => true,
        Some(p) => p.side() == side,
    }
}

impl<G: Guide> GuidedSeat<G> {
    /// A seat that has heard nothing. It takes no memory.
    pub fn new(alloc: Global, guide: G) -> GuidedSeat<G>
        ensures { result ≡ record { guide = G.guidance guide; account = new_account } }
    {
        GuidedSeat {
            guide,
            place: Place::Unopened,
            way: Vec::new(alloc),
            said: Vec::new(alloc),
            heard: Vec::new(alloc),
            asks: 0,
            leaves: 0,
        }
    }

    /// The guide that it follows.
    pub fn guide(&self) -> &G
        ensures { G.guidance result.now ≡ self.now.guide }
    {
        &self.guide
    }

    /// What it does next, by the lines that it was told: it tries a move at its turn; it waits before its first turn
    /// and after a try that was done; its last try has mated; or it was told what the plan does not know. It takes
    /// no memory.
    pub fn next(&self) -> Next
        ensures { result ≡ spec.next_of (stand_of self.now) }
    {
        next_of(&self.place, &self.guide.try_on(&self.way))
    }

    /// What it tries where it stands.
    fn try_here(&self) -> Option<Move>
        ensures { result ≡ stand.next_try (stand_of self.now) }
    {
        next_try(&self.place, &self.guide.try_on(&self.way))
    }
}

impl<G: Guide> Seat for GuidedSeat<G> {
    ghost account = { λ s. s.account };

    /// Tries what its plan says, and leaves where it says nothing.
    fn ask(&mut self) -> Result<Say, SeatFault>
        ensures asked { Asked result self.old.account self.new.account }

        // What it says, and what becomes of it.
        ensures says { IfOk result (λ say. say ≡ say_of (stand.next_try (stand_of self.old))) }
        ensures ok { OnOk result (self.new ≡ after_asked self.old) }

        // It never fails, and takes memory for a try alone. Without it nothing was said.
        ensures err { OnErr result (self.new ≡ when_asked self.old) }
        ensures memory { result ≢ Err SeatFault.Failed }
        ensures short { result ≡ Err SeatFault.NoMemory →
            stand.next_try (stand_of self.old) ≢ None }
    {
        let tried = self.try_here();
        self.asks = self.asks.saturating_add(1);
        match &tried {
            Some(mv) => match self.said.push(*mv) {
                Ok(()) => Ok(Say::Try(*mv)),
                Err(_) => Err(SeatFault::NoMemory),
            },
            None => {
                self.leaves = self.leaves.saturating_add(1);
                Ok(Say::Leave)
            }
        }
    }

    /// Keeps the line, and goes where it leads. Where there is no memory the seat stays as it is.
    fn tell(&mut self, line: Line) -> Result<(), SeatFault>
        ensures told { Told line result self.old.account self.new.account }

        // What becomes of it. It never fails.
        ensures ok { OnOk result (self.new ≡ after_told self.old line) }
        ensures err { OnErr result (self.new ≡ self.old) }
        ensures memory { result ≢ Err SeatFault.Failed }
    {
        let line = &line;
        match self.way.reserve(1) {
            Ok(()) => {}
            Err(_) => return Err(SeatFault::NoMemory),
        }
        let own = is_first(self.guide.side(), self.guide.list());
        let tried = self.guide.try_on(&self.way);
        let change = change_by(own, &self.place, &tried, line);
        match self.heard.push(*line) {
            Ok(()) => {}
            Err(_) => return Err(SeatFault::NoMemory),
        }
        go(change, &mut self.place, &mut self.way);
        Ok(())
    }

    fn said(&self) -> &[Move]
        ensures { result.now ≡ self.now.account.said }
    {
        &self.said
    }

    fn heard(&self) -> &[Line]
        ensures { result.now ≡ self.now.account.heard }
    {
        &self.heard
    }
}

/// Asks the seat, as the side of a game that it is.
pub(crate) fn ask_own<G: Guide>(seat: &mut GuidedSeat<G>) -> Result<AskOutcome, SeatFault>
    ensures { AsksOwn result seat.old seat.new }
{
    match seat.ask() {
        Ok(Say::Try(mv)) => Ok(AskOutcome::Tried(mv)),
        Ok(Say::Leave) => Ok(AskOutcome::Left),
        Err(fault) => Err(fault),
    }
}

/// Tells the seat a line, where there is one.
pub(crate) fn tell_own<G: Guide>(
    seat: &mut GuidedSeat<G>,
    line: Option<Line>,
) -> Result<(), SeatFault>
    ensures { HearsOwn (option_to_list line) result seat.old seat.new }
{
    match line {
        Some(line) => seat.tell(line),
        None => Ok(()),
    }
}
