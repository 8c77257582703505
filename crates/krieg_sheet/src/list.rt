ghost use Rattle.std.specs.Prelude.{◌≡◌, None};
ghost use Rattle.std.specs.List.{All};
ghost use Rattle.krieg_board.specs.Validity.{IsValid};
ghost use Rattle.krieg_board.specs.Hand as hand;
ghost use Rattle.krieg_sheet.specs.Lists as spec;

use crate::sheet::SheetFault;
use krieg_board::{Position, Side, know_valid, same_hand};
use krieg_fen::MOST_LISTED;

fn has_hand_of(first: &Position, p: &Position, who: Side) -> bool
    ensures value { result ≡ hand.same_hand first.now p.now who }
    ensures valid { IsValid p.now }
{
    know_valid(p);
    same_hand(first, p, who)
}

/// Of the positions after the first one, the first whose hand differs from that of the first one. They
/// are numbered from 1 on.
#[tactic(auto, using(crate::proofs::Hands::hands))]
fn other_hand(behind: &[Position], first: &Position, who: Side) -> Option<usize>
    ensures value { result ≡ spec.other_hand who first.now 1 behind.now }
    ensures valid { result ≡ None → All IsValid behind.now }
{
    for (i, p) in behind.iter().enumerate() {
        if !has_hand_of(first, p, who) {
            return Some(i + 1);
        }
    }
    None
}

/// What is wrong with a list of positions.
pub(crate) fn list_fault(list: &[Position], who: Side) -> Option<SheetFault>
    ensures value { result ≡ spec.list_fault who list.now }
    ensures valid { result ≡ None → All IsValid list.now }
{
    match list {
        [] => Some(SheetFault::Count),
        [first, ..] => {
            if list.len() as u64 > MOST_LISTED {
                return Some(SheetFault::Count);
            }
            know_valid(first);
            other_hand(&list[1..], first, who).map(SheetFault::Differs)
        }
    }
}
