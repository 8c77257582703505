ghost use Rattle.std.specs.Prelude.{◌≡◌, OnOk, OnErr};
ghost use Rattle.std.specs.List.{flat_map};
ghost use Rattle.std.specs.Io.KnownBytes.{Appends};
ghost use Rattle.krieg_ports.specs.Bytes.{AppendsPrefix};
ghost use Rattle.krieg_ports.specs.Faults.{Rose};
ghost use Rattle.krieg_outcome.specs.Parts.{bytes_of};

use krieg_outcome::CommandAnswer;
use krieg_ports::{Sink, WriteFault, write_all};

/// Writes the pieces one after another.
fn write_pieces<O: Sink>(out: &mut O, pieces: &[Vec<u8>]) -> Result<(), WriteFault>
    ensures all { OnOk result (Appends (O.got out.old) (O.got out.new)
        (flat_map (λ p. p.items) pieces.now)) }
    ensures part { OnErr result (AppendsPrefix (O.got out.old) (O.got out.new)
        (flat_map (λ p. p.items) pieces.now)) }
    ensures fault { OnErr result (Rose (O.faults out.old) (O.faults out.new)) }
    ensures kept { OnOk result (O.faults out.new ≡ O.faults out.old) }
{
    for piece in pieces {
        write_all(out, piece)?;
    }
    Ok(())
}

/// Writes the answer. It takes no memory.
pub(crate) fn write_answer<O: Sink>(out: &mut O, answer: &CommandAnswer) -> Result<(), WriteFault>
    ensures all { OnOk result (Appends (O.got out.old) (O.got out.new) (bytes_of answer.now)) }
    ensures part { OnErr result (AppendsPrefix (O.got out.old) (O.got out.new)
        (bytes_of answer.now)) }
    ensures fault { OnErr result (Rose (O.faults out.old) (O.faults out.new)) }
    ensures kept { OnOk result (O.faults out.new ≡ O.faults out.old) }
{
    match answer {
        CommandAnswer::Whole(text) => write_all(out, text),
        CommandAnswer::InPieces(text) => write_pieces(out, text.pieces()),
    }
}
