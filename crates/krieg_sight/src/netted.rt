ghost use Rattle.std.specs.Prelude.{◌≡◌, ◌≤◌, true, false, IfSome, Some};
ghost use Rattle.krieg_board.specs.Men.{other};
ghost use Rattle.krieg_board.specs.Validity.{IsValid};
ghost use Rattle.krieg_nets.specs.Answers.{TellsFledBehind, TellsNone};
ghost use Rattle.krieg_nets.specs.Nets.{IsWith, against_by};
ghost use Rattle.krieg_nets.specs.Others.{lone_of};
ghost use Rattle.krieg_nets.specs.Seen.{leaves_none, mates_within};

use crate::memo::Sight;
use krieg_board::{Move, Position, has};
use krieg_nets::{LoneKing, Men};

/// The king who is alone against the side to move.
#[inline]
pub(crate) fn pursued(p: &Position) -> Option<LoneKing>
    ensures stands { IfSome result (λ at. IsWith (against_by at.men.others) at.square p.now) }
    ensures turn { IfSome result (λ at. p.now.side ≡ other (lone_of at.men.others)) }
    ensures valid { IfSome result (λ at. IsValid p.now) }
{
    let king = LoneKing::of(p)?;
    if p.side() == king.men.lone() {
        return None;
    }
    Some(king)
}

impl Sight {
    /// The squares of a king who is alone against the men with whom they, who are to move, are found not to mate within so many moves.
    #[inline]
    pub(crate) fn none_within(&mut self, men: &Men, moves: u8) -> u64
        ensures none { TellsNone men.now.others moves result }
        ensures no_more { self.new.left ≤ self.old.left }
    {
        self.nets.none_within(men, moves)
    }

    /// Those with whom he is found to get away behind their move, with no mate within so many moves.
    #[inline]
    pub(crate) fn fled_behind(&mut self, men: &Men, mv: &Move, moves: u8) -> u64
        ensures fled { TellsFledBehind men.now.others mv.now moves result }
        ensures no_more { self.new.left ≤ self.old.left }
    {
        self.nets.fled_behind(men, mv, moves)
    }

    /// Whether the side to move, against whom a king is alone, is found not to mate within so many moves, where that can be told.
    #[inline]
    pub(crate) fn is_none_by_net(&mut self, p: &Position, moves: u8) -> Option<bool>
        ensures none { result ≡ Some true → mates_within moves p.now ≡ false }
        ensures no_more { self.new.left ≤ self.old.left }
    {
        let king = pursued(p)?;
        let none = self.none_within(&king.men, moves);
        Some(has(none, king.square.number()))
    }

    /// Whether a king who is alone, and to move, is found to have a move that leaves the others no mate within so many, where that can be
    /// told.
    #[inline]
    pub(crate) fn is_fled_by_net(&mut self, p: &Position, moves: u8) -> Option<bool>
        ensures fled { result ≡ Some true → leaves_none moves p.now ≡ true }
        ensures no_more { self.new.left ≤ self.old.left }
    {
        let king = LoneKing::of(p)?;
        if p.side() != king.men.lone() {
            return None;
        }
        let fled = self.nets.fled_within(&king.men, moves);
        Some(has(fled, king.square.number()))
    }
}
