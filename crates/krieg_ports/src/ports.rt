// The traits of what gives bytes and of what takes them.
ghost use Rattle.std.specs.Prelude.{◌≡◌, ℕ, ◌≤◌, List, Option, OnOk, OnErr};
ghost use Rattle.std.specs.Io.{ReadsAtMost};
ghost use Rattle.std.specs.Io.KnownBytes.{ReadConsumes, WriteAppends};
ghost use Rattle.krieg_ports.specs.Bytes.{TakesSome};
ghost use Rattle.krieg_ports.specs.Faults.{one_more, Rose};

/// A call of a source or of a sink failed. The count of its faults rose in that call, or stands at
/// its last value.
#[derive(Clone, Copy)]
pub struct Failed;

/// Where bytes come from: the bytes that are left, where it tells them, and a count of faults, which
/// rises in the calls that fail and in no others.
pub trait Source {
    // The bytes that are left, or `None` where the source does not tell them.
    ghost left: { Self → Option (List ℕ) };

    // How many of its calls failed.
    ghost faults: { Self → ℕ };

    /// Puts the next bytes into the front of the buffer and says how many they are. `Ok(0)` on a
    /// buffer that is not empty is the end.
    ///
    /// # Errors
    ///
    /// `Failed` is a fault of the source. It gave no byte then: what was left still is.
    fn read(&mut self, buf: &mut [u8]) -> Result<usize, Failed>
        ensures bound { ReadsAtMost result buf.new }
        ensures bytes { ReadConsumes (left self.old) (left self.new) result buf.new }
        ensures kept { OnOk result (faults self.new ≡ faults self.old) }
        ensures failed { OnErr result (Rose (faults self.old) (faults self.new)) }
        ensures later { faults self.old ≤ faults self.new };
}

/// Where bytes go to: the bytes that it has got, where it tells them, and a count of faults, which
/// rises in the calls that fail and in no others.
pub trait Sink {
    // The bytes that it has got, or `None` where the sink does not tell them.
    ghost got: { Self → Option (List ℕ) };

    // How many of its calls failed.
    ghost faults: { Self → ℕ };

    /// Takes bytes from the front of the piece, at least one where there is one, and says how many.
    ///
    /// # Errors
    ///
    /// `Failed` is a fault of the sink. It took no byte then.
    fn write(&mut self, piece: &[u8]) -> Result<usize, Failed>
        ensures takes { TakesSome result piece.now }
        ensures bytes { WriteAppends (got self.old) (got self.new) result piece.now }
        ensures kept { OnOk result (faults self.new ≡ faults self.old) }
        ensures failed { OnErr result (Rose (faults self.old) (faults self.new)) }
        ensures later { faults self.old ≤ faults self.new };
}

/// Counts one more fault, and is the failure to answer. At its last value the count stands still.
pub(crate) fn count_fault(faults: &mut u64) -> Failed
    ensures counted { faults.new ≡ one_more faults.old }
    ensures later { faults.old ≤ faults.new }
{
    *faults = faults.saturating_add(1);
    Failed
}
