ghost use Rattle.std.specs.Prelude.{◌≤◌};
ghost use Rattle.krieg_nets.specs.Answers.{TellsFled, TellsFledBehind, TellsNone};

use crate::men::Men;
use crate::nets::Nets;
use krieg_board::Move;

impl Nets {
    /// The squares of the lone king with whom the others, who are to move, are found not to mate within so many moves.
    pub fn none_within(&mut self, men: &Men, moves: u8) -> u64
        ensures none { TellsNone men.now.others moves result }
        ensures no_more { self.new ≤ self.old }
    {
        self.within(men, moves).none
    }

    /// The squares of the lone king, who is to move, with whom some move of his is found to leave the others no mate within so many moves.
    pub fn fled_within(&mut self, men: &Men, moves: u8) -> u64
        ensures fled { TellsFled men.now.others moves result }
        ensures no_more { self.new ≤ self.old }
    {
        self.within(men, moves).fled
    }

    /// The same behind a move of the others, where it is legal.
    pub fn fled_behind(&mut self, men: &Men, mv: &Move, moves: u8) -> u64
        ensures fled { TellsFledBehind men.now.others mv.now moves result }
        ensures no_more { self.new ≤ self.old }
    {
        match men.behind(mv) {
            Some(next) => self.within(&next, moves).fled,
            None => 0,
        }
    }
}
