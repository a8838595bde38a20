//! A sink into memory that takes each piece whole. It never fails, but may run out of memory.
ghost use Rattle.std.specs.Prelude.{◌≡◌, ◌≢◌, ◌<◌, ◌≤◌, ℕ, List, [], length, IfOk, IfErr, IsErrOf};
ghost use Rattle.std.specs.declared.option.Option.TheVariants.{Some};
ghost use Rattle.definitions.specs.Outside.{Rose};
ghost use Rattle.slider_io.specs.Devices.{Puts};
ghost use Rattle.slider_io.specs.declared.sink.WriteFault.TheVariants.{Mem};

use crate::{Sink, WriteFault};
use std::alloc::Global;
use std::marker::Model;

/// A sink into memory that never fails: a call takes the whole piece, or runs out of memory.
#[derive(Drop)]
pub struct SureSink {
    bytes: Vec<u8>,
}

impl Model for SureSink {
    ghost Value = { List ℕ };

    ghost view = { λ s. s.bytes.items };
}

impl SureSink {
    /// A sink that has taken nothing.
    pub fn new(alloc: Global) -> SureSink
        ensures { result ≡ [] }
    {
        SureSink {
            bytes: Vec::new(alloc),
        }
    }

    /// The bytes taken, in order.
    pub fn held(&self) -> &[u8]
        ensures { result.now ≡ self.now }
    {
        &self.bytes
    }
}

impl Sink for SureSink {
    ghost held = { λ s. Some s };

    ghost faults = { λ _. 0 };

    fn put(&mut self, piece: &[u8]) -> Result<usize, WriteFault>
        ensures most { IfOk result (λ n. n ≤ length piece.now) }
        ensures bytes { Puts (Some self.old) (Some self.new) piece.now result }
        ensures none { IfOk result (λ n. n ≡ 0 → 0 < length piece.now → Rose 0 0) }
        ensures later { 0 ≤ 0 }
        ensures failed { IsErrOf result WriteFault.Failed → Rose 0 0 }
        ensures whole { IfOk result (λ n. n ≡ length piece.now) }
        ensures only { IfErr result (λ why. why ≡ Mem) }
    {
        match self.bytes.extend_from_slice(piece) {
            Ok(()) => Ok(piece.len()),
            Err(_) => Err(WriteFault::Mem),
        }
    }
}
