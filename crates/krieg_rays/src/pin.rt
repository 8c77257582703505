ghost use Rattle.std.specs.Prelude.{◌≡◌, ◌<◌, ◌&&◌, ℕ, true, false, Some, None, length, slice_set};
ghost use Rattle.krieg_board.specs.Men.{other};
ghost use Rattle.krieg_board.specs.Attacks.{attacks};
ghost use Rattle.krieg_board.specs.Board.{Board, man_at, is_of, is_man};
ghost use Rattle.krieg_board.specs.Sets.{has};
ghost use Rattle.krieg_board.specs.Validity.{count_kind};
ghost use Rattle.krieg_board.specs.declared.men.Kind.TheVariants.{King};
ghost use Rattle.krieg_board.specs.declared.men.Side.{Side as Who};
ghost use Rattle.krieg_rays.specs.Pinned.{is_pinned};
ghost use Rattle.krieg_rays.specs.Snipers.{is_only, is_sniper};

use crate::attack::near_men;
use crate::lines::{falling_through, file_through, rank_through, rising_through};
use crate::segment::between_at;
use krieg_board::{Bits, Man, Side, king_of, lowest, only, only_if, without_lowest};

/// Who gives check to a king, and who is pinned to him.
#[derive(Clone, Copy)]
pub struct KingLines {
    /// The enemy men who attack him.
    pub checkers: u64,
    /// The men of his side who are pinned to him: each stands alone between him and an enemy man that
    /// would attack him without that man.
    pub pinned: u64,
}

/// Who attacks the king of that side, and who is pinned to him. The king stands on that square. Each enemy
/// man on a line with him is looked at once: where nobody stands between, he gives check, and where one
/// man does, that man is pinned, if he is of the king's side.
pub fn king_lines(b: &Bits, king: u8, who: Side) -> KingLines
    requires square { king < 64 }
    requires king { is_man who King (man_at b.now king) ≡ true }
    requires alone { count_kind b.now who King ≡ 1 }
    ensures checkers { (k : ℕ) → k < 64 → has result.checkers k
        ≡ (is_of (other who) (man_at b.now k) && attacks b.now k king) }
    ensures pinned { (k : ℕ) → k < 64 → has result.pinned k ≡ is_pinned b.now who k }
{
    let by = who.other();
    let own = b.men_of(who);
    let occupied = b.occupied();
    let mut rest = snipers(b, king, by);
    let mut checkers = near_men(b, king, by) & b.men_of(by);
    let mut pinned = 0;
    while rest != 0 {
        let sniper = lowest(rest).number();
        let inside = between_at(king, sniper) & occupied;
        checkers |= only_if(inside == 0, sniper);
        pinned |= only_one(inside) & own;
        rest = without_lowest(rest);
    }
    KingLines { checkers, pinned }
}

/// The squares of the men of a side that are pinned to its king: each stands alone between the king and
/// an enemy man that would attack the king without him.
pub fn pinned(b: &Bits, who: Side) -> u64
    requires { count_kind b.now who King ≡ 1 }
    ensures { (k : ℕ) → k < 64 → has result k ≡ is_pinned b.now who k }
{
    king_lines(b, king_of(b, who), who).pinned
}

/// The squares of the men of that side that would attack the square along a line, did nobody stand between.
#[inline]
fn snipers(b: &Bits, s: u8, by: Side) -> u64
    requires { s < 64 }
    ensures { (k : ℕ) → k < 64 → has result k ≡ is_sniper b.now by s k }
{
    let sets = b.sets();
    let straight = (file_through(s) | rank_through(s)) & (sets.rooks | sets.queens);
    let diagonal = (rising_through(s) | falling_through(s)) & (sets.bishops | sets.queens);
    (straight | diagonal) & b.men_of(by)
}

/// The set, where it has just one square; else none.
#[inline]
fn only_one(set: u64) -> u64
    ensures { (k : ℕ) → k < 64 → has result k ≡ is_only set k }
{
    if set & set.wrapping_sub(1) == 0 {
        set
    } else {
        0
    }
}

/// Whether some rook, bishop or queen of that side may pin a man to the king on the square, behind a move of theirs to the square
/// `to`: such a man, or the one who moved, stands on a line with him then. Where none does, nobody is pinned.
#[inline(always)]
pub fn may_pin_behind(b: &Bits, king: u8, from: u8, to: u8, man: Man) -> bool
    requires size { length b.now ≡ 64 }
    requires king { king < 64 }
    requires from { from < 64 }
    requires to { to < 64 }
    ensures { result ≡ false → (c : Board) →
        c ≡ slice_set (slice_set b.now from None) to (Some man) → (who : Who) → other who ≡ man.side
        → count_kind c who King ≡ 1 → is_man who King (man_at c king) ≡ true → (k : ℕ) → k < 64 →
        is_pinned c who k ≡ false }
{
    let sets = b.sets();
    let sliders = (sets.rooks | sets.bishops | sets.queens) & b.men_of(man.side);
    let behind = sliders & !only(from) | only(to);
    let straight = file_through(king) | rank_through(king);
    let diagonal = rising_through(king) | falling_through(king);
    (straight | diagonal) & behind != 0
}
