//! What is known of one set, for each number of own moves.

ghost use Rattle.std.specs.Prelude.{◌≡◌};
ghost use Rattle.krieg_table.specs.Results.{nothing, known_for, with_known};

use crate::set_result::{SetResult, Win};
use std::marker::Model;

/// What is known of a set: it is lost with each number of own moves from 1 to `lost`, and won with another, where that is known.
#[derive(Drop)]
pub(crate) struct Results {
    lost: u8,
    won: Option<Win>,
}

// A table keeps one for each of its sets.
const _: () = prove!(size_of::<Results>() <= 6);

impl Model for Results {
    ghost use Rattle.krieg_table.specs.Results as spec;

    ghost Value = { spec.Results };

    ghost view = { λ r. record { lost = r.lost; won = r.won } };
}

impl Results {
    /// Nothing is known.
    pub(crate) fn none() -> Results
        ensures { result ≡ nothing }
    {
        Results { lost: 0, won: None }
    }

    /// What is known for a number of moves: nothing for 0.
    pub(crate) fn get(&self, moves: u8) -> Option<SetResult>
        ensures { result ≡ known_for self.now moves }
    {
        if moves == 0 {
            return None;
        }
        if moves <= self.lost {
            return Some(SetResult::Loses);
        }
        let win = self.won?;
        if win.moves == moves {
            Some(SetResult::Wins(win.mv))
        } else {
            None
        }
    }

    /// The greatest number of moves with which the set is known to be lost.
    pub(crate) fn lost(&self) -> u8
        ensures { result ≡ self.now.lost }
    {
        self.lost
    }

    /// With how many moves the set is won, where that is known.
    pub(crate) fn win(&self) -> Option<Win>
        ensures { result ≡ self.now.won }
    {
        self.won
    }

    /// Puts in what is known for a number of moves.
    pub(crate) fn put(&mut self, moves: u8, known: SetResult)
        ensures { self.new ≡ with_known self.old moves known }
    {
        match known {
            SetResult::Loses => self.lost = moves,
            SetResult::Wins(mv) => self.won = Some(Win { moves, mv }),
        }
    }
}
