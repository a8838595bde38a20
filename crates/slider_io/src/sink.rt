//! Where the program writes. A sink counts its failures, so that a caller reports a failed write only if one was
//! counted.
ghost use Rattle.std.specs.Prelude.{◌≡◌, ◌<◌, ◌≤◌, ℕ, List, length, IfOk, IsErrOf};
ghost use Rattle.std.specs.declared.option.Option.{Option};
ghost use Rattle.definitions.specs.Outside.{Rose};
ghost use Rattle.slider_io.specs.Devices.{Puts};

/// Why a sink did not take bytes.
#[derive(Clone, Copy, Debug, PartialEq, Eq)]
pub enum WriteFault {
    /// The sink failed, and its count of faults increased.
    Failed,
    /// Out of memory.
    Mem,
}

/// Takes bytes. Those that it took are observable or not.
pub trait Sink {
    /// The bytes taken, in order, if they are observable.
    ghost held: { Self → Option (List ℕ) };

    /// How often the sink has failed. At the end of its type the count stays.
    ghost faults: { Self → ℕ };

    /// Takes a prefix of a piece, and returns its length in bytes. Of a nonempty piece it takes none only if the count
    /// of faults increased. On `Err` the bytes taken are unchanged.
    ///
    /// # Errors
    ///
    /// `Failed`, only if the count of faults increased; `Mem` out of memory.
    fn put(&mut self, piece: &[u8]) -> Result<usize, WriteFault>
        ensures most { IfOk result (λ n. n ≤ length piece.now) }
        ensures bytes { Puts (held self.old) (held self.new) piece.now result }
        ensures none { IfOk result (λ n. n ≡ 0 → 0 < length piece.now → Rose (faults self.old) (faults self.new)) }
        ensures later { faults self.old ≤ faults self.new }
        ensures failed { IsErrOf result WriteFault.Failed → Rose (faults self.old) (faults self.new) };
}
