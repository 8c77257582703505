ghost use Rattle.std.specs.Prelude.{◌≡◌, ◌<◌, ◌≤◌, ◌+◌, ◌++◌, ◌∷◌, [], ℕ, IfSome, is_some, length, take, if◌then◌else◌};
ghost use Rattle.krieg_board.specs.Board.{man_at};
ghost use Rattle.krieg_board.specs.Sets as sets;
ghost use Rattle.krieg_fen.specs.Letters as letters;
ghost use Rattle.krieg_fen.specs.FenText as spec;

use krieg_board::{Bits, has, lowest, without_lowest};
use std::marker::Model;

/// The text of a rank: at most a byte for each of its squares.
#[derive(Drop)]
pub(crate) struct RankText {
    bytes: [u8; 8],
    len: usize,
}

impl Model for RankText {
    ghost use Rattle.std.specs.Prelude.{◌≤◌, ℕ, List, take};

    ghost Value = { List ℕ };

    ghost view = { λ t. take t.len t.bytes };

    ghost invariant = { λ t. t.len ≤ 8 };
}

impl RankText {
    #[inline]
    fn new() -> RankText
        ensures { result ≡ [] }
    {
        RankText {
            bytes: [0; 8],
            len: 0,
        }
    }

    /// The number of its bytes.
    #[inline]
    pub(crate) fn len(&self) -> usize
        ensures value { result ≡ length self.now }
        ensures few { result ≤ 8 }
    {
        self.len
    }

    /// The text, and bytes behind it that tell nothing, so that as many are copied for each rank.
    #[inline]
    pub(crate) fn padded(&self) -> &[u8; 8]
        ensures { self.now ≡ take (length self.now) result.now }
    {
        &self.bytes
    }

    #[inline]
    fn add(&mut self, byte: u8)
        requires { length self.old < 8 }
        ensures { self.new ≡ self.old ++ (byte ∷ []) }
    {
        self.bytes[self.len] = byte;
        self.len += 1;
    }

    /// Adds the digit of a run of empty squares, where it is not empty.
    #[inline]
    fn add_run(&mut self, empty: u8)
        requires few { empty ≤ 8 }
        requires room { length self.old + length (spec.run empty) ≤ 8 }
        ensures { self.new ≡ self.old ++ spec.run empty }
    {
        if empty > 0 {
            self.add(b'0' + empty);
        }
    }

    /// Adds a letter after a run of empty squares.
    #[inline]
    fn add_man(&mut self, empty: u8, letter: u8)
        requires few { empty ≤ 8 }
        requires room { length self.old + length (spec.run empty ++ (letter ∷ [])) ≤ 8 }
        ensures { self.new ≡ self.old ++ (spec.run empty ++ (letter ∷ [])) }
    {
        self.add_run(empty);
        self.add(letter);
    }
}

/// The letter where that is asked for, else the other.
fn pick(here: bool, letter: u8, other: u8) -> u8
    ensures { result ≡ (if here then letter else other) }
{
    if here { letter } else { other }
}

/// The letter of the man on an occupied square. Each set is asked, so that no jump hangs on the man.
#[tactic(auto, using(crate::proofs::RankWriting::chosen))]
fn letter_on(bits: &Bits, s: u8) -> u8
    requires { s < 64 }
    ensures { IfSome (man_at bits.now s) (λ m. result ≡ letters.letter m.side m.kind) }
{
    let sets = bits.sets();
    let letter = pick(has(sets.pawns, s), b'P', b'K');
    let letter = pick(has(sets.knights, s), b'N', letter);
    let letter = pick(has(sets.bishops, s), b'B', letter);
    let letter = pick(has(sets.rooks, s), b'R', letter);
    let letter = pick(has(sets.queens, s), b'Q', letter);
    // A small letter is the capital with one bit more.
    letter | pick(has(sets.black, s), 0x20, 0)
}

/// The squares of a rank on which men stand, by their files.
#[tactic(auto, using(crate::proofs::RankWriting::men_there))]
fn men_on(bits: &Bits, rank: u8) -> u64
    requires rank { rank < 8 }
    requires squares { length bits.now ≡ 64 }
    ensures { (k : ℕ) → k < 64 → sets.has result k
        ≡ is_some (man_at (spec.rank_at bits.now rank) k) }
{
    bits.occupied() >> (8 * rank) & 0xFF
}

/// The text of a rank, where 0 is the first rank. Only its men are looked at.
pub(crate) fn rank_text(bits: &Bits, rank: u8) -> RankText
    requires rank { rank < 8 }
    requires squares { length bits.now ≡ 64 }
    ensures { result ≡ spec.rank_text (spec.rank_at bits.now rank) }
{
    let mut text = RankText::new();
    let mut left = men_on(bits, rank);
    let mut file = 0;
    while left > 0 {
        let next = lowest(left).number();
        text.add_man(next - file, letter_on(bits, 8 * rank + next));
        file = next + 1;
        left = without_lowest(left);
    }
    text.add_run(8 - file);
    text
}
