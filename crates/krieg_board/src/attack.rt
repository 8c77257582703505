ghost use Rattle.std.specs.Prelude.{◌≡◌, ◌<◌, ℕ};
ghost use Rattle.krieg_board.specs.Attacks as spec;

use crate::board::{Board, is_of};
use crate::men::{Kind, Man, Side};
use crate::square::{file_of, rank_of};

/// How far apart two numbers are, whichever is the greater.
pub fn apart(a: u8, b: u8) -> u8
    ensures { result ≡ spec.apart a b }
{
    a.abs_diff(b)
}

fn is_inside(a: u8, middle: u8, b: u8) -> bool
    ensures { result ≡ spec.is_inside a middle b }
{
    a < middle && middle < b || b < middle && middle < a
}

fn is_on_file_between(from: u8, to: u8, s: u8) -> bool
    ensures { result ≡ spec.is_on_file_between from to s }
{
    file_of(from) == file_of(to)
        && file_of(from) == file_of(s)
        && is_inside(rank_of(from), rank_of(s), rank_of(to))
}

fn is_on_rank_between(from: u8, to: u8, s: u8) -> bool
    ensures { result ≡ spec.is_on_rank_between from to s }
{
    rank_of(from) == rank_of(to)
        && rank_of(from) == rank_of(s)
        && is_inside(file_of(from), file_of(s), file_of(to))
}

fn are_on_diagonal(from: u8, to: u8) -> bool
    ensures { result ≡ spec.are_on_diagonal from to }
{
    apart(file_of(from), file_of(to)) == apart(rank_of(from), rank_of(to))
}

fn is_on_diagonal_between(from: u8, to: u8, s: u8) -> bool
    ensures { result ≡ spec.is_on_diagonal_between from to s }
{
    are_on_diagonal(from, s)
        && are_on_diagonal(s, to)
        && is_inside(file_of(from), file_of(s), file_of(to))
        && is_inside(rank_of(from), rank_of(s), rank_of(to))
}

#[tactic(auto, unfolding(crate::specs::Attacks::is_between))]
pub(crate) fn is_between(from: u8, to: u8, s: u8) -> bool
    ensures { result ≡ spec.is_between from to s }
{
    is_on_file_between(from, to, s)
        || is_on_rank_between(from, to, s)
        || is_on_diagonal_between(from, to, s)
}

/// Whether each square strictly between the two, on their file, rank or diagonal, is empty.
#[tactic(auto, unfolding(crate::specs::Attacks::is_clear, crate::specs::Squares::every_square, crate::specs::Squares::squares))]
fn is_clear(board: &Board, from: u8, to: u8) -> bool
    ensures { result ≡ spec.is_clear board.now from to }
{
    (0..64u8).all(|s| !(is_between(from, to, s) && board[s as usize].is_some()))
}

/// Whether `to` is on the next rank, as that side's pawns go.
fn is_forward(side: Side, from: u8, to: u8) -> bool
    ensures { result ≡ spec.is_forward side from to }
{
    match side {
        Side::White => rank_of(to) == rank_of(from) + 1,
        Side::Black => rank_of(from) == rank_of(to) + 1,
    }
}

fn is_straight(from: u8, to: u8) -> bool
    ensures { result ≡ spec.is_straight from to }
{
    file_of(from) == file_of(to) || rank_of(from) == rank_of(to)
}

fn is_leap(from: u8, to: u8) -> bool
    ensures { result ≡ spec.is_leap from to }
{
    let files = apart(file_of(from), file_of(to));
    let ranks = apart(rank_of(from), rank_of(to));
    files == 1 && ranks == 2 || files == 2 && ranks == 1
}

fn is_adjacent(from: u8, to: u8) -> bool
    ensures { result ≡ spec.is_adjacent from to }
{
    apart(file_of(from), file_of(to)) <= 1 && apart(rank_of(from), rank_of(to)) <= 1
}

pub(crate) fn can_reach(man: Man, from: u8, to: u8) -> bool
    ensures { result ≡ spec.can_reach man.kind man.side from to }
{
    match man.kind {
        Kind::Pawn => apart(file_of(from), file_of(to)) == 1 && is_forward(man.side, from, to),
        Kind::Knight => is_leap(from, to),
        Kind::Bishop => are_on_diagonal(from, to),
        Kind::Rook => is_straight(from, to),
        Kind::Queen => is_straight(from, to) || are_on_diagonal(from, to),
        Kind::King => is_adjacent(from, to),
    }
}

pub(crate) fn slides(kind: Kind) -> bool
    ensures { result ≡ spec.slides kind }
{
    matches!(kind, Kind::Bishop | Kind::Rook | Kind::Queen)
}

/// Whether a man stands on `from` and attacks `to`, whatever stands there (FIDE Laws, articles 3.1
/// to 3.9). A man attacks even where it may not itself move. Both numbers are those of squares.
#[tactic(auto, unfolding(crate::specs::Attacks::attacks))]
pub fn attacks(board: &Board, from: u8, to: u8) -> bool
    requires { from < 64 }
    ensures { result ≡ spec.attacks board.now from to }
{
    match board[from as usize] {
        None => false,
        Some(man) => {
            from != to
                && can_reach(man, from, to)
                && (!slides(man.kind) || is_clear(board, from, to))
        }
    }
}

/// Whether a man of that side attacks the square.
#[tactic(auto, unfolding(crate::specs::Attacks::is_attacked, crate::specs::Squares::some_square, crate::specs::Squares::squares))]
pub fn is_attacked(board: &Board, s: u8, by: Side) -> bool
    ensures { result ≡ spec.is_attacked board.now s by }
{
    (0..64u8).any(|f| is_of(by, board[f as usize]) && attacks(board, f, s))
}
