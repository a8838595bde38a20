//! Where the program reads. A source counts its failures, so that a caller reports a failed read only if one was
//! counted.
ghost use Rattle.std.specs.Prelude.{◌≤◌, ℕ, List, length, IfOk, OnErr};
ghost use Rattle.std.specs.declared.option.Option.{Option};
ghost use Rattle.definitions.specs.Outside.{Rose};
ghost use Rattle.slider_io.specs.Devices.{Takes};

/// A source failed, and its count of faults increased.
#[derive(Clone, Copy, Debug, PartialEq, Eq)]
pub struct ReadFailed;

/// Gives bytes. Those still to come are observable or not.
pub trait Source {
    /// The bytes still to come, if they are observable.
    ghost left: { Self → Option (List ℕ) };

    /// How often the source has failed. At the end of its type the count stays.
    ghost faults: { Self → ℕ };

    /// Puts the next bytes into the buffer, and returns their number. `Ok(0)` for a nonempty buffer is the end of the
    /// bytes. On `Err` the source failed: the bytes still to come are unchanged, and the count of faults increased.
    fn take(&mut self, into: &mut [u8]) -> Result<usize, ReadFailed>
        ensures most { IfOk result (λ n. n ≤ length into.new) }
        ensures bytes { Takes (left self.old) (left self.new) (length into.old) into.new result }
        ensures later { faults self.old ≤ faults self.new }
        ensures failed { OnErr result (Rose (faults self.old) (faults self.new)) };
}
