ghost use Rattle.std.specs.Prelude.{◌≡◌, ◌≤◌};
ghost use Rattle.krieg_pack.specs.Codes as spec;
ghost use Rattle.krieg_pack.specs.Decoding as back;

use krieg_board::{Rights, Side, Square};

/// 0 for White, 1 for Black.
pub(crate) fn side_code(side: Side) -> u8
    ensures value { result ≡ spec.side_code side }
    ensures below { result ≤ 1 }
{
    match side {
        Side::White => 0,
        Side::Black => 1,
    }
}

/// 0 without a mark, else the number of its square and 1.
pub(crate) fn mark_code(mark: &Option<Square>) -> u8
    ensures value { result ≡ spec.mark_code mark.now }
    ensures below { result ≤ 64 }
{
    match mark {
        None => 0,
        Some(s) => s.number() + 1,
    }
}

pub(crate) fn side_of(code: u8) -> Side
    ensures { result ≡ back.side_of code }
{
    if code == 0 { Side::White } else { Side::Black }
}

pub(crate) fn mark_of(code: u8) -> Option<Square>
    requires { code ≤ 64 }
    ensures { result ≡ back.mark_of code }
{
    if code == 0 {
        None
    } else {
        Square::new(code - 1)
    }
}

pub(crate) fn rights_of(code: u8) -> Rights
    ensures { result ≡ back.rights_of code }
{
    Rights {
        white_short: code % 2 == 1,
        white_long: code / 2 % 2 == 1,
        black_short: code / 4 % 2 == 1,
        black_long: code / 8 == 1,
    }
}
