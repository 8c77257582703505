ghost use Rattle.std.specs.Prelude.{◌≡◌, ◌<◌, ◌&&◌};
ghost use Rattle.krieg_record.specs.Disambiguation as spec;
ghost use Rattle.krieg_record.specs.NotationText.{told};

use crate::move_traits::{is_own, kind_of, own_men};
use crate::notation::{Officer, Origin};
use krieg_board::{Move, Position, Promo, Square, file_of, lowest, rank_of, without_lowest};
use krieg_moves::is_legal;

/// Whether the file or the rank that is told is this one, where one is told.
pub(crate) fn agrees(told: Option<u8>, n: u8) -> bool
    ensures { result ≡ spec.agrees told n }
{
    match told {
        None => true,
        Some(told) => n == told,
    }
}

/// Whether what is told of the origin is true of this square.
pub(crate) fn fits(origin: Origin, s: Square) -> bool
    ensures { result ≡ spec.fits origin s }
{
    agrees(origin.file, file_of(s.number())) && agrees(origin.rank, rank_of(s.number()))
}

/// Whether another officer of that kind, on s, may go to the same square.
fn is_rival(p: &Position, officer: Officer, mv: &Move, s: Square) -> bool
    ensures { result ≡ spec.is_rival p.now officer mv.now s }
{
    s != mv.from
        && is_own(p, kind_of(officer), s)
        && is_legal(
            p,
            Move {
                from: s,
                to: mv.to,
                promo: Promo::Plain,
            },
        )
}

/// Whether what is told is true of the square of a rival on s.
fn shares(p: &Position, officer: Officer, mv: &Move, origin: Origin, s: Square) -> bool
    ensures { result ≡ (spec.fits origin s && spec.is_rival p.now officer mv.now s) }
{
    fits(origin, s) && is_rival(p, officer, mv, s)
}

/// Whether what is told is true of the square of some rival too. Of the own men only those of the kind are looked at.
fn is_shared(p: &Position, officer: Officer, mv: &Move, origin: Origin) -> bool
    ensures { result ≡ spec.is_shared p.now officer mv.now origin }
{
    let mut rest = own_men(p, kind_of(officer));
    while rest != 0 {
        let s = lowest(rest);
        rest = without_lowest(rest);
        if shares(p, officer, mv, origin, s) {
            return true;
        }
    }
    false
}

fn told(file: Option<u8>, rank: Option<u8>) -> Origin
    ensures { result ≡ told file rank }
{
    Origin { file, rank }
}

/// The first of these that no rival shares: nothing, the file, the rank; and where each is shared, both.
#[tactic(auto, unfolding(crate::specs::Disambiguation::origin))]
pub(crate) fn origin(p: &Position, officer: Officer, mv: &Move) -> Origin
    ensures { result ≡ spec.origin p.now officer mv.now }
{
    let file = Some(file_of(mv.from.number()));
    let rank = Some(rank_of(mv.from.number()));
    if !is_shared(p, officer, mv, told(None, None)) {
        told(None, None)
    } else if !is_shared(p, officer, mv, told(file, None)) {
        told(file, None)
    } else if !is_shared(p, officer, mv, told(None, rank)) {
        told(None, rank)
    } else {
        told(file, rank)
    }
}
