ghost use Rattle.std.specs.Prelude.{◌≡◌, ◌<◌, ◌&&◌, ◌==◌, ℕ, true, not, None, slice_set};
ghost use Rattle.krieg_board.specs.Men.{other};
ghost use Rattle.krieg_board.specs.Board.{man_at, is_of};
ghost use Rattle.krieg_board.specs.Attacks as attack;
ghost use Rattle.krieg_board.specs.Sets as sets;
ghost use Rattle.krieg_moves.specs.Guarding as spec;

use krieg_board::{
    Bits, Position, Side, has, king_of, know_valid, lowest, only, only_if, without_lowest,
};
use krieg_rays::{
    attacked_by_without, attackers_without, between_at, is_attacked_without, king_lines,
};

/// What keeps the king of the side to move safe. It is made once for a position, and serves all of its
/// moves.
#[derive(Clone, Copy)]
pub struct Guard {
    /// The number of the square on which the king stands.
    pub king: u8,
    /// The enemy men who give check.
    pub checkers: u64,
    /// The men of his side that are pinned.
    pub pinned: u64,
    /// Where a man who is not pinned must arrive so that his king is not in check behind the move: every
    /// square where nobody gives check, and otherwise where the man who does is captured or shut off.
    pub answers: u64,
}

/// Where a man must arrive to answer each of the attackers of the square: he captures the attacker, or
/// comes to stand between the two.
fn answers_to(attackers: u64, square: u8) -> u64
    requires { square < 64 }
    ensures { (t : ℕ) → t < 64 → sets.has result t ≡ spec.answers_all attackers square t }
{
    let mut rest = attackers;
    let mut answers = u64::MAX;
    while rest != 0 {
        let attacker = lowest(rest).number();
        answers &= only(attacker) | between_at(attacker, square);
        rest = without_lowest(rest);
    }
    answers
}

/// Those of the squares that no man of that side would attack, did nobody stand on `gone`, by a look at each
/// of them.
fn safe_one_by_one(b: &Bits, gone: u8, squares: u64, by: Side) -> u64
    requires { gone < 64 }
    ensures { (t : ℕ) → t < 64 → sets.has result t
        ≡ (sets.has squares t && not (attack.is_attacked (slice_set b.now gone None) t by)) }
{
    let mut rest = squares;
    let mut safe = 0u64;
    while rest != 0 {
        let square = lowest(rest).number();
        let is_safe = !is_attacked_without(b, gone, square, by);
        safe |= only_if(is_safe, square);
        rest = without_lowest(rest);
    }
    safe
}

/// Those of the squares that no man of that side would attack, did nobody stand on `gone`. It looks at each of
/// the squares or at each of the men, whichever are fewer.
#[inline(always)]
pub(crate) fn safe_squares(b: &Bits, gone: u8, squares: u64, by: Side) -> u64
    requires { gone < 64 }
    ensures { (t : ℕ) → t < 64 → sets.has result t
        ≡ (sets.has squares t && not (attack.is_attacked (slice_set b.now gone None) t by)) }
{
    if squares.count_ones() < b.men_of(by).count_ones() {
        return safe_one_by_one(b, gone, squares, by);
    }
    squares & !attacked_by_without(b, gone, by)
}

impl Guard {
    /// The guard of the king of the side to move.
    pub fn of(p: &Position) -> Guard
        ensures { spec.IsGuard p.now result }
    {
        let bits = p.bits();
        let side = p.side();
        let king = king_of(bits, side);
        let lines = king_lines(bits, king, side);
        Guard {
            king,
            checkers: lines.checkers,
            pinned: lines.pinned,
            answers: answers_to(lines.checkers, king),
        }
    }

    /// Where a man on that square must arrive to answer the attacks on his king without him.
    fn answers_without(&self, p: &Position, from: u8) -> u64
        requires square { from < 64 }
        requires guard { spec.IsGuard p.now self.now }
        ensures { (t : ℕ) → t < 64 → sets.has result t
            ≡ spec.is_answered (slice_set p.now.board from None) (other p.now.side) self.now.king
            t }
    {
        let bits = p.bits();
        let side = p.side();
        let by = side.other();
        answers_to(attackers_without(bits, from, self.king, by), self.king)
    }

    /// Where the man on that square must arrive so that his king is safe behind the move. Of a man who is
    /// pinned, the attack that he shuts off is to be answered too.
    #[inline]
    pub(crate) fn answers_from(&self, p: &Position, from: u8) -> u64
        requires square { from < 64 }
        requires guard { spec.IsGuard p.now self.now }
        requires own { is_of p.now.side (man_at p.now.board from) ≡ true }
        ensures { (t : ℕ) → t < 64 → sets.has result t
            ≡ spec.is_answered (slice_set p.now.board from None) (other p.now.side) self.now.king
            t }
    {
        know_valid(p);
        if has(self.pinned, from) {
            self.answers_without(p, from)
        } else {
            self.answers
        }
    }
}
