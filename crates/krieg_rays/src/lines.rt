ghost use Rattle.std.specs.Prelude.{◌≡◌, ◌<◌, ◌&&◌, ℕ, false};
ghost use Rattle.krieg_board.specs.declared.men.Kind.TheVariants.{Bishop, Rook};
ghost use Rattle.krieg_board.specs.declared.men.Side.TheVariants.{White};
ghost use Rattle.krieg_board.specs.Sets.{has};
ghost use Rattle.krieg_rays.specs.Rays as spec;
ghost use Rattle.krieg_rays.specs.Rays.{goes};

use crate::line_tables::{FALLING, FILES, RANKS, RISING};

/// The squares up to the lowest of the set; all, where it has none.
#[inline]
fn up_to_lowest(set: u64) -> u64
    ensures { (k : ℕ) → k < 64 → has result k ≡ spec.none_below set k }
{
    set ^ set.wrapping_sub(1)
}

/// The squares from the highest of the set on; all, where it has none.
#[inline]
fn from_highest(set: u64) -> u64
    ensures { (k : ℕ) → k < 64 → has result k ≡ spec.none_above set k }
{
    u64::MAX << (63 - (set | 1).leading_zeros())
}

/// The squares of a line through `s` up to the first man on either side of it, and with him.
#[inline]
fn seen_on(line: u64, occupied: u64, s: u8) -> u64
    requires square { s < 64 }
    requires apart { has line s ≡ false }
    ensures { (k : ℕ) → k < 64 → has result k ≡ spec.is_seen line occupied s k }
{
    let men = line & occupied;
    let up = up_to_lowest(men & (u64::MAX << s));
    let down = from_highest(men & ((1 << s) - 1));
    line & up & down
}

/// The other squares on the file of the square.
#[inline]
#[tactic(auto, using(crate::proofs::Entries::lines))]
pub fn file_through(s: u8) -> u64
    requires { s < 64 }
    ensures { (k : ℕ) → k < 64 → has result k ≡ spec.is_on_file s k }
{
    FILES[s as usize]
}

/// The other squares on the rank of the square.
#[inline]
#[tactic(auto, using(crate::proofs::Entries::lines))]
pub fn rank_through(s: u8) -> u64
    requires { s < 64 }
    ensures { (k : ℕ) → k < 64 → has result k ≡ spec.is_on_rank s k }
{
    RANKS[s as usize]
}

/// The other squares on the diagonal through the square that rises from the a-file to the h-file.
#[inline]
#[tactic(auto, using(crate::proofs::Entries::lines))]
pub fn rising_through(s: u8) -> u64
    requires { s < 64 }
    ensures { (k : ℕ) → k < 64 → has result k ≡ spec.is_on_rising s k }
{
    RISING[s as usize]
}

/// The other squares on the diagonal through the square that falls from the a-file to the h-file.
#[inline]
#[tactic(auto, using(crate::proofs::Entries::lines))]
pub fn falling_through(s: u8) -> u64
    requires { s < 64 }
    ensures { (k : ℕ) → k < 64 → has result k ≡ spec.is_on_falling s k }
{
    FALLING[s as usize]
}

/// The squares that a rook on the square attacks, where these squares are occupied (FIDE Laws, article
/// 3.3).
#[inline]
pub fn straight_from(s: u8, occupied: u64) -> u64
    requires { s < 64 }
    ensures { (k : ℕ) → k < 64 → has result k ≡ (goes Rook White s k && spec.is_open occupied s k) }
{
    let on_file = seen_on(file_through(s), occupied, s);
    let on_rank = seen_on(rank_through(s), occupied, s);
    on_file | on_rank
}

/// The squares that a bishop on the square attacks, where these squares are occupied (FIDE Laws,
/// article 3.2).
#[inline]
pub fn diagonal_from(s: u8, occupied: u64) -> u64
    requires { s < 64 }
    ensures { (k : ℕ) → k < 64 → has result k
        ≡ (goes Bishop White s k && spec.is_open occupied s k) }
{
    let on_rising = seen_on(rising_through(s), occupied, s);
    let on_falling = seen_on(falling_through(s), occupied, s);
    on_rising | on_falling
}

/// Those of the men that stand where a rook on the square would attack them, where these squares are
/// occupied. Mostly none of them is on its file or its rank, and then no more is looked at.
#[inline]
pub(crate) fn straight_among(s: u8, occupied: u64, men: u64) -> u64
    requires { s < 64 }
    ensures { (k : ℕ) → k < 64 → has result k
        ≡ ((goes Rook White s k && spec.is_open occupied s k) && has men k) }
{
    if (file_through(s) | rank_through(s)) & men == 0 {
        return 0;
    }
    straight_from(s, occupied) & men
}

/// Those of the men that stand where a bishop on the square would attack them, where these squares are
/// occupied. Mostly none of them is on its diagonals, and then no more is looked at.
#[inline]
pub(crate) fn diagonal_among(s: u8, occupied: u64, men: u64) -> u64
    requires { s < 64 }
    ensures { (k : ℕ) → k < 64 → has result k
        ≡ ((goes Bishop White s k && spec.is_open occupied s k) && has men k) }
{
    if (rising_through(s) | falling_through(s)) & men == 0 {
        return 0;
    }
    diagonal_from(s, occupied) & men
}
