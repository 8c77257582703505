ghost use Rattle.std.specs.Prelude.{◌≡◌, ◌<◌, ℕ};
ghost use Rattle.krieg_moves.specs.Wings as spec;

use krieg_board::{Side, home_rank, square_at};

/// A wing on which a king may castle (FIDE Laws, article 3.8.2).
#[derive(Clone, Copy, PartialEq, Eq)]
pub enum Wing {
    /// With the rook of the h-file: the king goes to the g-file.
    Short,
    /// With the rook of the a-file: the king goes to the c-file.
    Long,
}

fn rook_file(wing: Wing) -> u8
    ensures value { result ≡ spec.rook_file wing }
    ensures below { result < 8 }
{
    match wing {
        Wing::Short => 7,
        Wing::Long => 0,
    }
}

fn arrival_file(wing: Wing) -> u8
    ensures value { result ≡ spec.arrival_file wing }
    ensures below { result < 8 }
{
    match wing {
        Wing::Short => 6,
        Wing::Long => 2,
    }
}

fn crossing_file(wing: Wing) -> u8
    ensures value { result ≡ spec.crossing_file wing }
    ensures below { result < 8 }
{
    match wing {
        Wing::Short => 5,
        Wing::Long => 3,
    }
}

/// The square where a side's king begins.
pub fn king_square(side: Side) -> u8
    ensures value { result ≡ spec.king_square side }
    ensures below { result < 64 }
{
    square_at(4, home_rank(side))
}

/// The corner where the wing's rook begins.
pub fn corner(wing: Wing, side: Side) -> u8
    ensures value { result ≡ spec.corner wing side }
    ensures below { result < 64 }
{
    square_at(rook_file(wing), home_rank(side))
}

/// The square where the king arrives in castling.
pub fn arrival(wing: Wing, side: Side) -> u8
    ensures value { result ≡ spec.arrival wing side }
    ensures below { result < 64 }
{
    square_at(arrival_file(wing), home_rank(side))
}

/// The square that the king crosses in castling, and where the rook arrives.
pub fn crossing(wing: Wing, side: Side) -> u8
    ensures value { result ≡ spec.crossing wing side }
    ensures below { result < 64 }
{
    square_at(crossing_file(wing), home_rank(side))
}
