ghost use Rattle.std.specs.Prelude.{◌≡◌, map, IfOk};
ghost use Rattle.krieg_moves.specs.Moves as list;

use krieg_board::{Move, NoMemory, Position};
use krieg_moves::legal_moves;
use krieg_pack::{Packed, unpack};
use smallvec::SmallVec;
use std::alloc::Global;

/// A member of a set with its legal moves.
#[derive(Drop)]
pub(crate) struct MemberMoves {
    pub position: Position,
    pub moves: SmallVec<Move, 64>,
    ghost exact: { moves.items ≡ list.moves position },
}

/// All members with their legal moves.
pub(crate) fn list_all(alloc: Global, members: &[Packed]) -> Result<Vec<MemberMoves>, NoMemory>
    ensures { IfOk result (λ v. map (λ m. m.position) v.items ≡ members.now) }
{
    let mut listed = Vec::with_capacity(alloc, members.len())?;
    for member in members {
        let position = unpack(member);
        let moves = legal_moves(alloc, &position)?;
        listed.push(MemberMoves { position, moves })?;
    }
    Ok(listed)
}
