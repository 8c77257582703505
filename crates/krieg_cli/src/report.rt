ghost use Rattle.std.specs.Prelude.{◌≡◌, ◌≤◌, OnOk, OnErr};
ghost use Rattle.std.specs.List.{flat_map};
ghost use Rattle.std.specs.Io.KnownBytes.{Appends};
ghost use Rattle.krieg_ports.specs.Bytes.{AppendsPrefix};
ghost use Rattle.krieg_ports.specs.Faults.{Rose};
ghost use Rattle.krieg_cli.specs.World.{stream};
ghost use Rattle.krieg_outcome.specs.Ending.{line_of};
ghost use Rattle.krieg_cli.specs.Top.{Reports};

use itoa::Buffer;
use krieg_outcome::Ending;
use krieg_ports::{Sink, WriteFault, write_all};

/// Writes the pieces one after another, and takes no memory.
fn write_pieces<E: Sink>(err: &mut E, pieces: &[&[u8]]) -> Result<(), WriteFault>
    ensures all { OnOk result (Appends (E.got err.old) (E.got err.new)
        (flat_map (λ p. p.now) pieces.now)) }
    ensures part { OnErr result (AppendsPrefix (E.got err.old) (E.got err.new)
        (flat_map (λ p. p.now) pieces.now)) }
    ensures fault { OnErr result (Rose (E.faults err.old) (E.faults err.new)) }
    ensures kept { OnOk result (E.faults err.new ≡ E.faults err.old) }
{
    for piece in pieces {
        write_all(err, piece)?;
    }
    Ok(())
}

fn write_line<E: Sink>(ending: &Ending, err: &mut E) -> Result<(), WriteFault>
    ensures all { OnOk result (Appends (E.got err.old) (E.got err.new) (line_of ending.now)) }
    ensures part { OnErr result (AppendsPrefix (E.got err.old) (E.got err.new)
        (line_of ending.now)) }
    ensures fault { OnErr result (Rose (E.faults err.old) (E.faults err.new)) }
    ensures kept { OnOk result (E.faults err.new ≡ E.faults err.old) }
{
    let (place, what) = ending.reason();
    match place {
        Some(line) => {
            let mut buffer = Buffer::new();
            let number = buffer.format(line).as_bytes();
            write_pieces(err, &[b"krieg: line ", number, b": ", what, b"\n"])
        }
        None => write_pieces(err, &[b"krieg: ", what, b"\n"]),
    }
}

/// Writes the line of an ending without an answer. A fault of `err` is swallowed: there is no other place
/// to tell it.
pub(crate) fn report<E: Sink>(ending: &Ending, err: &mut E)
    ensures { let seen = stream E.got E.faults in Reports ending.now (seen err.old) (seen err.new) }
{
    match ending {
        Ending::Answered => {}
        _ => {
            let _ = write_line(ending, err);
        }
    }
}
