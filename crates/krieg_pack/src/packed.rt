ghost use Rattle.std.specs.Prelude.{◌≡◌, ◌<◌, ◌↔◌, ◌==◌, ℕ, not, nat_lt};
ghost use Rattle.std.specs.declared.cmp.Ordering.TheVariants.{Equal};
ghost use Rattle.std.specs.Cmp.Lexicographic.{slice_cmp};
ghost use Rattle.std.specs.Cmp.Rules.{comparing};
ghost use Rattle.std.proofs.Common.{rules};
ghost use Rattle.std.specs.Ordering.{as_partial_cmp, nat_cmp};
ghost use Rattle.krieg_board.specs.Board.{man_at};
ghost use Rattle.krieg_board.specs.Boards.{AreExact, board_of};
ghost use Rattle.krieg_board.specs.Sets as spec;
ghost use Rattle.krieg_board.specs.Validity.{IsValid};
ghost use Rattle.krieg_pack.specs.Bytes.{bytes_of};
ghost use Rattle.krieg_pack.specs.Codes.{man_code};
ghost use Rattle.krieg_pack.specs.Order.{position_cmp, position_eq};
ghost use Rattle.krieg_pack.specs.OrderLaws.{position_total, position_equiv, position_partial_equiv, position_partial_order};
ghost use Rattle.krieg_pack.specs.Packing.{state};
ghost use Rattle.krieg_pack.specs.Hashing.{fed_by, positions_fed};

use crate::codes::{mark_code, mark_of, rights_of, side_code, side_of};
use crate::planes::{bit, eights, either, fours, ones, twos};
use krieg_board::{Bits, Position, Sets, has, lowest};
use std::cmp::Ordering;
use std::hash::{Hash, Hasher};
use std::marker::Model;

/// One valid position in few bytes: 40 in memory.
///
/// Its numbers are a code for each square from a1 to h8 (0 empty, 1 to 6 a white pawn, knight, bishop,
/// rook, queen, king, 7 to 12 a black one), the rights as bits (White short 1, White long 2, Black
/// short 4, Black long 8), the mark (0 without one, else the number of its square and 1) and the side to
/// move (0 White, 1 Black). The codes are kept as four sets of squares, one for each of their bits:
/// `ones` has the squares whose code is odd, `twos` those whose code has 2 in it, and so on. So a
/// position is packed and unpacked by a few operations on sets, with no walk over the squares.
///
/// In contracts a `Packed` is its position. It is ordered as positions are, by the first of these
/// numbers that differs, and equal just where the positions are.
#[derive(Clone, Copy)]
pub struct Packed {
    pub(crate) ones: u64,
    pub(crate) twos: u64,
    pub(crate) fours: u64,
    pub(crate) eights: u64,
    pub(crate) rights: u8,
    pub(crate) mark: u8,
    pub(crate) side: u8,
}

// A belief keeps some hundred thousand of them.
const _: () = prove!(size_of::<Packed>() <= 40);

impl Model for Packed {
    ghost use Rattle.krieg_board.specs.Pos.{Pos};

    ghost Value = { Pos };

    ghost use Rattle.krieg_pack.specs.Packing.{packed, unpacked, IsPacked};

    ghost view = { unpacked };

    ghost invariant = { IsPacked };

    ghost inverse = { packed };

    ghost inverse_ok = { λ a h. h.exact };
}

/// The position, packed.
#[inline]
pub fn pack(p: &Position) -> Packed
    ensures value { result ≡ p.now }
    ensures valid { IsValid p.now }
{
    let board = p.bits();
    Packed {
        ones: ones(board),
        twos: twos(board),
        fours: fours(board),
        eights: eights(board),
        rights: p.rights().bits(),
        mark: mark_code(&p.mark()),
        side: side_code(p.side()),
    }
}

/// The position that was packed.
#[inline]
pub fn unpack(k: &Packed) -> Position
    ensures value { result ≡ k.now }
    ensures valid { IsValid result }
{
    let board = Bits::from_sets(k.sets());
    Position::from_valid(
        &board,
        side_of(k.side),
        rights_of(k.rights),
        mark_of(k.mark),
    )
}

impl Packed {
    /// Where the men stand, by the bits of their codes.
    #[inline]
    fn sets(&self) -> Sets
        ensures exact { AreExact result }
        ensures board { board_of result ≡ self.now.board }
    {
        // the codes with one of 2 and 4 alone: 2, 3, 4, 5, 10, 11, 12
        let two_or_four = self.twos ^ self.fours;
        // the codes with one of 2 and 8 alone: 2, 3, 6, 7, 8, 9, 12
        let two_or_eight = self.twos ^ self.eights;
        let black = self.eights | self.ones & self.twos & self.fours;
        Sets {
            white: (self.ones | self.twos | self.fours) & !black,
            black,
            pawns: self.ones & !two_or_four & !self.eights,
            knights: two_or_eight & !self.fours & !self.ones,
            bishops: two_or_eight & !self.fours & self.ones,
            rooks: two_or_four & !two_or_eight & !self.ones,
            queens: two_or_four & !two_or_eight & self.ones,
            kings: two_or_eight & self.fours & !self.ones,
        }
    }

    /// The code of the square.
    #[inline]
    fn code_at(&self, s: u8) -> u8
        requires { s < 64 }
        ensures value { result ≡ man_code (man_at self.now.board s) }
        ensures below { result < 16 }
    {
        let low = bit(self.ones, s) + 2 * bit(self.twos, s);
        low + 4 * bit(self.fours, s) + 8 * bit(self.eights, s)
    }

    /// The squares on which the codes differ.
    #[inline]
    fn differing(&self, other: &Packed) -> u64
        ensures apart { (k : ℕ) → k < 64 → spec.has result k
            ≡ not (man_code (man_at self.now.board k) == man_code (man_at other.now.board k)) }
        ensures valid { IsValid self.now }
        ensures other_valid { IsValid other.now }
    {
        let low = (self.ones ^ other.ones) | (self.twos ^ other.twos);
        let high = (self.fours ^ other.fours) | (self.eights ^ other.eights);
        low | high
    }

    /// The squares on which the code is smaller than the other's: the highest bit that differs tells.
    #[inline]
    fn smaller(&self, other: &Packed) -> u64
        ensures { (k : ℕ) → k < 64 → spec.has result k
            ≡ nat_lt (man_code (man_at self.now.board k)) (man_code (man_at other.now.board k)) }
    {
        let by_one = other.ones & !self.ones;
        let by_two = either(self.twos ^ other.twos, other.twos, by_one);
        let by_four = either(self.fours ^ other.fours, other.fours, by_two);
        either(self.eights ^ other.eights, other.eights, by_four)
    }

    /// The 35 bytes: for each two squares from a1 to h8 16 times the code of the first plus the code of
    /// the second, then the rights, the mark and the side to move.
    pub fn bytes(&self) -> [u8; 35]
        ensures { result ≡ bytes_of self.now }
    {
        let mut bytes = [0; 35];
        bytes[32] = self.rights;
        bytes[33] = self.mark;
        bytes[34] = self.side;
        for i in 0..32u8 {
            bytes[i as usize] = 16 * self.code_at(2 * i) + self.code_at(2 * i + 1);
        }
        bytes
    }

    /// By the rights, then by the mark, then by the side to move.
    #[inline]
    fn compare_state(&self, other: &Packed) -> Ordering
        ensures { result ≡ slice_cmp nat_cmp (state self.now) (state other.now) }
    {
        let rest = self.mark.cmp(&other.mark).then(self.side.cmp(&other.side));
        self.rights.cmp(&other.rights).then(rest)
    }

    /// By the codes of the first square on which they differ, and where none does by the rest.
    #[inline]
    fn compare(&self, other: &Packed) -> Ordering
        ensures { result ≡ position_cmp self.now other.now }
    {
        let differing = self.differing(other);
        if differing == 0 {
            return self.compare_state(other);
        }
        let first = lowest(differing).number();
        let is_smaller = has(self.smaller(other), first);
        if is_smaller {
            Ordering::Less
        } else {
            Ordering::Greater
        }
    }
}

impl PartialEq for Packed {
    ghost eq = { position_eq };

    ghost laws = { position_partial_equiv };

    #[inline]
    fn eq(&self, other: &Packed) -> bool {
        self.differing(other) == 0 && self.compare_state(other).is_eq()
    }
}

impl Eq for Packed {
    ghost laws = { position_equiv };
}

impl Ord for Packed {
    ghost cmp = { position_cmp };

    ghost total = { position_total };

    ghost matches_partial_cmp = { Prim.search (comparing, rules) };

    ghost matches_eq = { Prim.search (comparing, rules) };

    #[inline]
    fn cmp(&self, other: &Packed) -> Ordering {
        self.compare(other)
    }
}

impl PartialOrd for Packed {
    ghost partial_cmp = { as_partial_cmp position_cmp };

    ghost laws = { position_partial_order };

    #[inline]
    fn partial_cmp(&self, other: &Packed) -> Option<Ordering> {
        Some(self.compare(other))
    }
}

impl Hash for Packed {
    ghost hash_input = { fed_by };

    ghost respects_eq = { positions_fed.fed };

    #[tactic(auto, unfolding(crate::specs::Hashing::fed_by))]
    fn hash<H: Hasher>(&self, state: &mut H) {
        state.write_u64(self.ones);
        state.write_u64(self.twos);
        state.write_u64(self.fours);
        state.write_u64(self.eights);
        state.write(&[self.rights, self.mark, self.side]);
    }
}

/// The order of positions: by the code of each square from a1 to h8, then by rights, mark and side to
/// move. It is the order of the 35 bytes of each, and `Equal` just where the positions are equal.
pub fn order(a: &Position, c: &Position) -> Ordering
    ensures numbers { result ≡ position_cmp a.now c.now }
    ensures bytes { result ≡ slice_cmp nat_cmp (bytes_of a.now) (bytes_of c.now) }
    ensures equal { (result ≡ Equal) ↔ (a.now ≡ c.now) }
{
    pack(a).cmp(&pack(c))
}
