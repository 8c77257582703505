ghost use Rattle.std.specs.Prelude.{◌≡◌, IfOk};
ghost use Rattle.krieg_sheet.specs.Places.{IsSheet};
ghost use Rattle.krieg_make.specs.MadeSheets as spec;

use crate::position::{POSITION_COUNT, made_position};
use krieg_board::{NoMemory, Position, Side};
use krieg_sheet::Sheet;
use krieg_words::Dialect;
use std::alloc::Global;

/// The positions that the made sheet of this number lists.
#[tactic(auto, using(crate::proofs::MadeLists::lists))]
fn made_list(alloc: Global, number: u32) -> Result<Vec<Position>, NoMemory>
    ensures { IfOk result (λ list. list.items ≡ spec.made_list number) }
{
    let first = u64::from(number);
    let mut list = Vec::new(alloc);
    for k in 0..1 + first % POSITION_COUNT {
        list.push(made_position((first + 7 * k) % POSITION_COUNT))?;
    }
    Ok(list)
}

/// The made sheet of this number: White's, in wild16, with 1 to 1,380 positions and nothing that was heard.
/// White is to move in all of them, they are distinct and look the same to him, and in each the rook mates by g1g8.
#[tactic(auto, using(crate::proofs::MadeLists::lists))]
pub fn made_sheet(alloc: Global, number: u32) -> Result<Sheet, NoMemory>
    ensures value { IfOk result (λ s. s ≡ spec.made_sheet number) }
    ensures sheet { IfOk result (λ s. IsSheet s) }
{
    let list = made_list(alloc, number)?;
    match Sheet::begin(alloc, Dialect::Wild16, Side::White, list, None) {
        Ok(sheet) => Ok(sheet),
        Err(_) => unreachable!(),
    }
}
