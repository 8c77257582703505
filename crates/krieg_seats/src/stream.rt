// A player behind two streams of the system: the edge where players come in. The clauses of std are trusted for
// what a reader gives and a writer takes.
ghost use Rattle.std.specs.Prelude.{◌≡◌, false, Ok, Err, IfOk, OnOk, OnErr, IsErr, Some, is_some, option_and_then};
ghost use Rattle.krieg_ports.specs.Bytes.{AppendsPrefix};
ghost use Rattle.krieg_ports.specs.Faults.{one_more};
ghost use Rattle.std.specs.Io.KnownBytes.{Appends};
ghost use Rattle.krieg_text.specs.Lines.{ended_line};
ghost use Rattle.krieg_wordtext.specs.Line.{line_text};
ghost use Rattle.krieg_words.specs.declared.dialects.Dialect.TheVariants.{Wild16};
ghost use Rattle.krieg_seats.specs.Accounts.{new_account, Asked, Told};
ghost use Rattle.krieg_seats.specs.Saying.{lines_left, ReadsLine};
ghost use Rattle.krieg_seats.specs.Streams.{bytes_from, bytes_to, SaysNothing, Writes, FailsToWrite};
ghost use Rattle.krieg_seats.specs.Streams.{stream_account, has_reader, has_writer, KeepsEnds, lines_of, written_of, HearsNothing};

use crate::saying::next_say;
use crate::seat::{Say, Seat, SeatFault};
use krieg_board::Move;
use krieg_ports::{Adapter, AdapterOut, Failed, write_all};
use krieg_wordtext::{Line, write_line};
use std::alloc::Global;
use std::io::{Read, Write};

/// A player behind a reader and a writer: his tries are read from the one, and what he is told is written to the
/// other. It keeps what he said and heard.
#[derive(Drop)]
pub struct StreamSeat<R, W> {
    from: Option<Adapter<R>>,
    /// Whether the reader stands inside a line, of which a part was read in vain.
    inside: bool,
    to: Option<AdapterOut<W>>,
    said: Vec<Move>,
    heard: Vec<Line>,
    /// The text of the last line that was told.
    text: Vec<u8>,
    asks: u64,
    faults: u64,
    leaves: u64,
}

impl<R: Read + Drop, W: Write + Drop> StreamSeat<R, W> {
    /// A seat over a reader and a writer, each of which may be missing, as where a file could not be opened. It
    /// takes no memory. A writer should keep nothing back: it is not flushed.
    pub fn new(alloc: Global, from: Option<R>, to: Option<W>) -> StreamSeat<R, W>
        ensures account { stream_account result ≡ new_account }
        ensures reader { has_reader result ≡ is_some from }
        ensures writer { has_writer result ≡ is_some to }
        ensures lines { lines_of R.remaining result ≡ option_and_then R.remaining from }
        ensures written { written_of W.contents result ≡ option_and_then W.contents to }
    {
        StreamSeat {
            from: from.map(Adapter::new),
            inside: false,
            to: to.map(AdapterOut::new),
            said: Vec::new(alloc),
            heard: Vec::new(alloc),
            text: Vec::new(alloc),
            asks: 0,
            faults: 0,
            leaves: 0,
        }
    }
}

/// Counts a fault, and is the answer to it.
fn fail(faults: &mut u64) -> SeatFault
    ensures counted { faults.new ≡ one_more faults.old }
    ensures failed { result ≡ SeatFault.Failed }
{
    *faults = faults.saturating_add(1);
    SeatFault::Failed
}

/// What the player says next, where there is a reader.
fn say_from<R: Read + Drop>(from: &mut Option<Adapter<R>>, inside: &mut bool) -> Result<Say, Failed>
    ensures says { IfOk result (λ say. ReadsLine (Some say)
        (lines_left inside.old (bytes_from R.remaining from.old))
        (lines_left inside.new (bytes_from R.remaining from.new))) }
    ensures nothing { OnErr result (SaysNothing R.remaining inside.old inside.new from.old
        from.new) }
    ensures missing { is_some from.old ≡ false → IsErr result }
    ensures kept { is_some from.new ≡ is_some from.old }
{
    match from {
        Some(source) => next_say(source, inside),
        None => Err(Failed),
    }
}

/// Puts the text of the line, with a line feed, in place of what stood there.
fn put_line(line: Line, text: &mut Vec<u8>) -> Result<(), SeatFault>
    ensures value { OnOk result (text.new.items ≡ ended_line (line_text Wild16 line)) }
    ensures fault { OnErr result (result ≡ Err SeatFault.NoMemory) }
{
    text.clear();
    match write_line(line, text) {
        Ok(()) => {}
        Err(_) => return Err(SeatFault::NoMemory),
    }
    match text.push(b'\n') {
        Ok(()) => Ok(()),
        Err(_) => Err(SeatFault::NoMemory),
    }
}

/// Writes the text, where there is a writer.
fn write_to<W: Write + Drop>(to: &mut Option<AdapterOut<W>>, text: &[u8]) -> Result<(), Failed>
    ensures all { OnOk result (Appends (bytes_to W.contents to.old) (bytes_to W.contents to.new)
        text.now) }
    ensures front { OnErr result (AppendsPrefix (bytes_to W.contents to.old)
        (bytes_to W.contents to.new) text.now) }
    ensures fault { OnErr result (FailsToWrite to.old to.new) }
    ensures missing { is_some to.old ≡ false → IsErr result }
    ensures kept { is_some to.new ≡ is_some to.old }
{
    match to {
        Some(sink) => match write_all(sink, text) {
            Ok(()) => Ok(()),
            Err(_) => Err(Failed),
        },
        None => Err(Failed),
    }
}

impl<R: Read + Drop, W: Write + Drop> Seat for StreamSeat<R, W> {
    ghost account = { stream_account };

    /// Reads one line, which ends at a line feed, or at the end of the input after at least one byte. The text of a
    /// move is a try, and the end of the input before a byte is a leave.
    ///
    /// # Errors
    ///
    /// Every other line is a fault, as one with a carriage return or with more than five bytes; so are an error of
    /// the reader and a missing reader. The next call begins with the next line.
    fn ask(&mut self) -> Result<Say, SeatFault>
        ensures asked { Asked result (stream_account self.old) (stream_account self.new) }

        // What the reader gave, where it tells its bytes.
        ensures says { IfOk result (λ say. ReadsLine (Some say) (lines_of R.remaining self.old)
            (lines_of R.remaining self.new)) }
        ensures nothing { result ≡ Err SeatFault.Failed →
            HearsNothing R.remaining self.old self.new }
        ensures unread { result ≡ Err SeatFault.NoMemory →
            lines_of R.remaining self.new ≡ lines_of R.remaining self.old }

        ensures missing { has_reader self.old ≡ false → IsErr result }
        ensures ends { KeepsEnds self.old self.new }
        ensures unwritten { written_of W.contents self.new ≡ written_of W.contents self.old }
    {
        self.asks = self.asks.saturating_add(1);
        if self.said.reserve(1).is_err() {
            return Err(SeatFault::NoMemory);
        }
        match say_from(&mut self.from, &mut self.inside) {
            Err(Failed) => Err(fail(&mut self.faults)),
            Ok(Say::Leave) => {
                self.leaves = self.leaves.saturating_add(1);
                Ok(Say::Leave)
            }
            Ok(Say::Try(mv)) => {
                let mv = &mv;
                let _ = self.said.push(*mv);
                Ok(Say::Try(*mv))
            }
        }
    }

    /// Writes the text of the line, and a line feed.
    ///
    /// # Errors
    ///
    /// An error of the writer, a write that takes no byte, and a missing writer are faults, and nothing else is.
    fn tell(&mut self, line: Line) -> Result<(), SeatFault>
        ensures told { Told line result (stream_account self.old) (stream_account self.new) }

        // What the writer got, where it tells its bytes.
        ensures writes { Writes result (written_of W.contents self.old)
            (written_of W.contents self.new)
            (ended_line (line_text Wild16 line)) }
        ensures fault { result ≡ Err SeatFault.Failed → FailsToWrite self.old.to self.new.to }

        ensures missing { has_writer self.old ≡ false → IsErr result }
        ensures ends { KeepsEnds self.old self.new }
        ensures unread { lines_of R.remaining self.new ≡ lines_of R.remaining self.old }
    {
        if self.heard.reserve(1).is_err() {
            return Err(SeatFault::NoMemory);
        }
        let line = &line;
        match put_line(*line, &mut self.text) {
            Ok(()) => {}
            Err(fault) => return Err(fault),
        }
        match write_to(&mut self.to, &self.text) {
            Err(Failed) => Err(fail(&mut self.faults)),
            Ok(()) => {
                let _ = self.heard.push(*line);
                Ok(())
            }
        }
    }

    fn said(&self) -> &[Move]
        ensures { result.now ≡ (stream_account self.now).said }
    {
        &self.said
    }

    fn heard(&self) -> &[Line]
        ensures { result.now ≡ (stream_account self.now).heard }
    {
        &self.heard
    }
}
