ghost use Rattle.std.specs.Prelude.{◌≡◌, ◌<◌, ◌&&◌, ◌==◌, ℕ, not};
ghost use Rattle.krieg_board.specs.Sets as spec;
ghost use Rattle.krieg_board.specs.Sets.{IsLowest};

use crate::square::Square;

/// Whether the square with that number belongs to the set.
#[inline]
#[tactic(auto, using(crate::proofs::SetLemmas::shifted))]
pub fn has(set: u64, s: u8) -> bool
    requires { s < 64 }
    ensures { result ≡ spec.has set s }
{
    set >> s & 1 == 1
}

/// The set of the square with that number alone.
#[inline]
#[tactic(auto, using(crate::proofs::SetLemmas::has_place))]
pub fn only(s: u8) -> u64
    requires { s < 64 }
    ensures { (k : ℕ) → k < 64 → spec.has result k ≡ (k == s) }
{
    1 << s
}

/// The set of that square, or no square, as `here` says.
#[inline]
pub fn only_if(here: bool, s: u8) -> u64
    requires { s < 64 }
    ensures { (k : ℕ) → k < 64 → spec.has result k ≡ (here && k == s) }
{
    if here { only(s) } else { 0 }
}

/// The lowest square of a set that has one.
#[inline]
pub fn lowest(set: u64) -> Square
    requires { 0 < set }
    ensures { IsLowest set result }
{
    Square::new(set.trailing_zeros() as u8).unwrap()
}

/// A set that is not empty without its lowest square.
#[inline]
pub fn without_lowest(set: u64) -> u64
    requires { 0 < set }
    ensures less { result < set }
    ensures others { (s : ℕ) → IsLowest set s → (k : ℕ) → k < 64 →
        spec.has result k ≡ (spec.has set k && not (k == s)) }
{
    set & (set - 1)
}
