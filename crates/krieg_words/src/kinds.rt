ghost use Rattle.std.specs.Prelude.{◌≡◌, ◌<◌, ◌≤◌, ◌↔◌, ◌&&◌, ℕ, true, IsNone, IfSome};
ghost use Rattle.krieg_board.specs.Men.{other};
ghost use Rattle.krieg_board.specs.Attacks.{attacks};
ghost use Rattle.krieg_board.specs.Board.{man_at, is_of, is_man};
ghost use Rattle.krieg_board.specs.Sets.{has};
ghost use Rattle.krieg_board.specs.declared.men.Kind.TheVariants.{King};
ghost use Rattle.krieg_words.specs.Kinds as spec;

use crate::diagonals::diagonals_through;
use krieg_board::{Position, king_of, know_valid};
use krieg_rays::{attackers_at, file_through, rank_through};

/// Which kinds of check a king is in. A kind is there however many men give it.
///
/// The fields stand highest bit first.
#[derive(Clone, Copy)]
pub struct Kinds {
    pub knight: bool,
    pub short: bool,
    pub long: bool,
    pub rank: bool,
    pub file: bool,
}

/// The king is attacked in no way.
pub const NO_KINDS: Kinds = Kinds {
    knight: false,
    short: false,
    long: false,
    rank: false,
    file: false,
};

impl Kinds {
    /// The kinds with these bits: file 1, rank 2, long diagonal 4, short diagonal 8, knight 16.
    /// `None` exactly where `bits` is 32 or more.
    pub fn new(bits: u8) -> Option<Kinds>
        ensures none { IsNone result ↔ (32 ≤ bits) }
        ensures value { IfSome result (λ k. spec.bits_of k ≡ bits) }
    {
        if bits >= 32 {
            return None;
        }
        Some(Kinds {
            knight: bits / 16 == 1,
            short: bits / 8 % 2 == 1,
            long: bits / 4 % 2 == 1,
            rank: bits / 2 % 2 == 1,
            file: bits % 2 == 1,
        })
    }

    /// The kinds as bits: file 1, rank 2, long diagonal 4, short diagonal 8, knight 16.
    pub fn bits(self) -> u8
        ensures value { result ≡ spec.bits_of self }
        ensures below { result < 32 }
    {
        let low = u8::from(self.file) + 2 * u8::from(self.rank) + 4 * u8::from(self.long);
        low + 8 * u8::from(self.short) + 16 * u8::from(self.knight)
    }
}

/// The kinds of check that the side to move is in: those of the attacks on its king (FIDE Laws,
/// article 3.9). A pawn's check is one by the diagonal on which the pawn stands.
pub fn kinds_of(p: &Position) -> Kinds
    ensures { result ≡ spec.kinds p.now }
{
    let bits = p.bits();
    let side = p.side();
    let enemy = side.other();
    let king = king_of(bits, side);
    kinds_by(p, king, attackers_at(bits, king, enemy))
}

/// The same, by a caller who knows where the king stands and which men give check.
#[inline]
pub fn kinds_by(p: &Position, king: u8, givers: u64) -> Kinds
    requires square { king < 64 }
    requires king { is_man p.now.side King (man_at p.now.board king) ≡ true }
    requires givers { (k : ℕ) → k < 64 → has givers k
        ≡ (is_of (other p.now.side) (man_at p.now.board k) && attacks p.now.board k king) }
    ensures { result ≡ spec.kinds p.now }
{
    know_valid(p);
    if givers == 0 {
        return NO_KINDS;
    }
    let knights = givers & p.bits().sets().knights;
    let others = givers ^ knights;
    let diagonals = diagonals_through(king);
    Kinds {
        knight: knights != 0,
        short: others & diagonals.1 != 0,
        long: others & diagonals.0 != 0,
        rank: others & rank_through(king) != 0,
        file: others & file_through(king) != 0,
    }
}
