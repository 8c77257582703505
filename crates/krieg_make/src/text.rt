ghost use Rattle.std.specs.Prelude.{◌≡◌, IfOk};
ghost use Rattle.krieg_text.specs.Lines.{lines};
ghost use Rattle.krieg_make.specs.MadeTexts as spec;

use crate::session::made_session;
use crate::sheet::made_sheet;
use krieg_board::NoMemory;
use krieg_sheet::write_sheet;
use krieg_umpire::write_session;
use std::alloc::Global;

/// Which input is made.
#[derive(Clone, Copy)]
pub enum MakeKind {
    /// A session.
    Session,
    /// A sheet.
    Sheet,
}

/// The text of the made session, or of the made sheet, of this number.
pub fn make(alloc: Global, number: u32, kind: MakeKind) -> Result<Vec<u8>, NoMemory>
    ensures value { IfOk result (λ text. text.items ≡ spec.made_text number kind) }
    // The text is read as the made session, or as the made sheet.
    ensures again { IfOk result (λ text. spec.IsReadAgain number kind (lines text.items)) }
{
    let mut text = Vec::new(alloc);
    match kind {
        MakeKind::Session => write_session(&made_session(alloc, number)?, &mut text)?,
        MakeKind::Sheet => write_sheet(&made_sheet(alloc, number)?, &mut text)?,
    }
    Ok(text)
}
