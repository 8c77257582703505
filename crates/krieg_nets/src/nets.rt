ghost use Rattle.std.specs.Prelude.{◌≡◌, ◌+◌, ◌<◌, ◌≤◌, ◌&&◌, ◌||◌, ℕ, true, false, Some, IfSome};
ghost use Rattle.std.specs.Bool.{OnTrue, OnFalse};
ghost use Rattle.krieg_board.specs.Attacks.{is_attacked, is_between};
ghost use Rattle.krieg_board.specs.Board.{man_at};
ghost use Rattle.krieg_board.specs.Men.{is_same_kind, other};
ghost use Rattle.krieg_board.specs.Sets as sets;
ghost use Rattle.krieg_board.specs.declared.men.Kind.TheVariants.{King};
ghost use Rattle.krieg_board.specs.declared.men.Side.TheVariants.{White};
ghost use Rattle.krieg_rays.specs.Rays.{goes};
ghost use Rattle.krieg_nets.specs.Nets.{AllFailBetween, AllFailFrom, AreFled, AreNone, IsNet, against, against_by};
ghost use Rattle.krieg_nets.specs.Others.{lone_of};

use crate::kept::{Asked, Kept, Net};
use crate::men::Men;
use crate::near::near;
use crate::stale::stalemates;
use krieg_board::{Kind, Man, has, lowest, without_lowest};
use krieg_rays::{attacked_by, attacked_from, between_at, king_attacks};
use std::alloc::Global;
use std::marker::Model;

/// So many captures in a row may be looked at: there are no more officers.
const MOST_CAPTURES: u8 = 4;

/// The nets that were found, and how many may be looked for yet. In contracts it is that number.
#[derive(Drop)]
pub struct Nets {
    kept: Kept,
    left: u64,
}

impl Model for Nets {
    ghost use Rattle.std.specs.Prelude.{ℕ};

    ghost Value = { ℕ };

    ghost view = { λ n. n.left };
}

/// The squares of the lone king with whom the man cannot go from one square to the other: between them, and next to where a king arrives.
#[inline]
fn blocked(from: u8, to: u8, man: Man) -> u64
    requires from { from < 64 }
    requires to { to < 64 }
    ensures { (k : ℕ) → k < 64 → sets.has result k ≡ (is_between from to k
        || (is_same_kind man.kind King && goes King White to k)) }
{
    let near = if man.kind == Kind::King {
        king_attacks(to)
    } else {
        0
    };
    between_at(from, to) | near
}

impl Nets {
    /// Nothing is known, and so many nets may be looked for. It takes no memory.
    pub fn new(alloc: Global, nets: u64) -> Nets
        ensures { result ≡ nets }
    {
        Nets {
            kept: Kept::new(alloc),
            left: nets,
        }
    }

    /// One net less may be looked for; `false` where none may.
    pub fn look(&mut self) -> bool
        ensures looked { OnTrue result (self.new + 1 ≡ self.old) }
        ensures none { OnFalse result ((self.old ≡ 0) × (self.new ≡ 0)) }
    {
        if self.left == 0 {
            return false;
        }
        self.left -= 1;
        true
    }

    /// One look less is left, where some moves are: with none nobody mates, and his steps are looked at alone. `false` where none was left.
    fn look_for(&mut self, moves: u8) -> bool
        ensures { self.new ≤ self.old }
    {
        moves == 0 || self.look()
    }

    /// The net that is kept, where there is one.
    #[inline]
    fn kept(&mut self, asked: &Asked) -> Option<Net>
        ensures net { IfSome result (λ net.
            IsNet (against_by asked.now.others) asked.now.moves net) }
        ensures same { self.new ≡ self.old }
    {
        self.kept.of(asked)
    }

    /// Whether what is found for these men can be kept.
    fn has_room(&mut self, men: &Men) -> bool
        ensures { self.new ≡ self.old }
    {
        self.kept.has_room(men.others())
    }

    /// Keeps the net, where there is room and memory for it.
    fn keep(&mut self, asked: &Asked, net: &Net)
        requires { IsNet (against_by asked.now.others) asked.now.moves net.now }
        ensures { self.new ≡ self.old }
    {
        self.kept.keep(asked, net);
    }

    /// What is so of the lone king for that number of moves, on all squares at once.
    pub(crate) fn within(&mut self, men: &Men, moves: u8) -> Net
        ensures net { IsNet (against men.now) moves result }
        ensures no_more { self.new ≤ self.old }
    {
        self.net(men, moves, MOST_CAPTURES)
    }

    /// The same, with so many captures in a row. It is kept, and where there is no room for it, or none may be looked for any more, nothing is
    /// claimed: what is not kept would be looked for again and again.
    #[cycle(nets)]
    fn net(&mut self, men: &Men, moves: u8, captures: u8) -> Net
        ensures net { IsNet (against men.now) moves result }
        ensures no_more { self.new ≤ self.old }
    {
        let asked = Asked {
            others: *men.others(),
            moves,
        };
        if let Some(net) = self.kept(&asked) {
            return net;
        }
        if !self.has_room(men) {
            return Net::nothing();
        }
        if !self.look_for(moves) {
            return Net::nothing();
        }
        let net = self.net_anew(men, moves, captures);
        self.keep(&asked, &net);
        net
    }

    /// The same, whatever is kept.
    #[cycle(nets)]
    fn net_anew(&mut self, men: &Men, moves: u8, captures: u8) -> Net
        ensures net { IsNet (against men.now) moves result }
        ensures no_more { self.new ≤ self.old }
    {
        let bits = men.bits();
        let occupied = bits.occupied();
        let attacked = attacked_by(bits, men.lone().other());
        let free = !(occupied | attacked);
        let none = self.none(men, moves) & free;
        let loose = occupied & !attacked & !bits.sets().kings;
        let caught = self.caught(men, loose, moves, captures);
        Net {
            none,
            fled: near(none) | caught,
            stale: stalemates(men, free & !near(free)),
        }
    }

    /// The squares of the lone king with whom the others, who are to move, do not mate within so many moves.
    #[cycle(nets)]
    fn none(&mut self, men: &Men, moves: u8) -> u64
        ensures none { AreNone men.now.bits (lone_of men.now.others) moves result }
        ensures no_more { self.new ≤ self.old }
    {
        if moves == 0 {
            return u64::MAX;
        }
        let mut rest = men.bits().occupied();
        let mut none = u64::MAX;
        while rest != 0 {
            none &= self.none_from(men, lowest(rest).number(), moves - 1);
            rest = without_lowest(rest);
        }
        none
    }

    /// The squares of the lone king with whom each move of the man on that square fails.
    #[cycle(nets)]
    fn none_from(&mut self, men: &Men, from: u8, fewer: u8) -> u64
        requires { from < 64 }
        ensures none { AllFailFrom (against men.now) fewer from result }
        ensures no_more { self.new ≤ self.old }
    {
        let bits = men.bits();
        let Some(man) = bits.man_at(from) else {
            return u64::MAX;
        };
        let mut rest = attacked_from(bits, man, from) & !bits.occupied();
        let mut none = u64::MAX;
        while rest != 0 {
            none &= self.none_between(men, from, lowest(rest).number(), man, fewer);
            rest = without_lowest(rest);
        }
        none
    }

    /// The squares of the lone king with whom the move of the man fails.
    #[cycle(nets)]
    fn none_between(&mut self, men: &Men, from: u8, to: u8, man: Man, fewer: u8) -> u64
        requires from { from < 64 }
        requires to { to < 64 }
        requires man { man_at men.now.bits from ≡ Some man }
        ensures none { AllFailBetween (against men.now) fewer from to result }
        ensures no_more { self.new ≤ self.old }
    {
        let blocked = blocked(from, to, man);
        match men.moved(from, to, man) {
            Some(next) => {
                let net = self.net(&next, fewer, MOST_CAPTURES);
                blocked | net.fled | net.stale
            }
            None => blocked,
        }
    }

    /// The squares of the lone king who gets away by a capture of one of the loose men.
    #[cycle(nets)]
    fn caught(&mut self, men: &Men, loose: u64, moves: u8, captures: u8) -> u64
        requires { (k : ℕ) → k < 64 → sets.has loose k ≡ true →
            is_attacked men.now.bits k (other (lone_of men.now.others)) ≡ false }
        ensures fled { AreFled men.now.bits (lone_of men.now.others) moves result }
        ensures no_more { self.new ≤ self.old }
    {
        let Some(fewer) = captures.checked_sub(1) else {
            return 0;
        };
        let mut rest = loose;
        let mut caught = 0;
        while rest != 0 {
            caught |= self.caught_at(men, lowest(rest).number(), moves, fewer);
            rest = without_lowest(rest);
        }
        caught
    }

    /// The squares of the lone king who gets away by a capture on that square.
    #[cycle(nets)]
    fn caught_at(&mut self, men: &Men, square: u8, moves: u8, captures: u8) -> u64
        requires square { square < 64 }
        requires loose { is_attacked men.now.bits square (other (lone_of men.now.others)) ≡ false }
        ensures fled { AreFled men.now.bits (lone_of men.now.others) moves result }
        ensures no_more { self.new ≤ self.old }
    {
        let Some(rest) = men.without(square) else {
            return 0;
        };
        let net = self.net(&rest, moves, captures);
        if has(net.none, square) {
            king_attacks(square)
        } else {
            0
        }
    }
}
