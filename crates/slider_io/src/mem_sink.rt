//! A sink into memory, for tests: it limits the bytes of a call, and fails at given calls.
ghost use Rattle.std.specs.Prelude.{◌≡◌, ◌<◌, ◌≤◌, ℕ, List, [], length, take, min, IfOk, IsErrOf};
ghost use Rattle.std.specs.declared.option.Option.TheVariants.{Some};
ghost use Rattle.definitions.specs.Outside.{Rose};
ghost use Rattle.slider_io.specs.Devices.{Puts};
ghost use Rattle.slider_io.specs.Memory.{Device, MemPuts};

use crate::{Sink, WriteFault};
use std::alloc::Global;
use std::marker::Model;

/// A sink into memory that takes at most a given number of bytes at each call, and fails at the calls with given
/// numbers. Calls are numbered from 1; at the end of its type the number stays.
#[derive(Drop)]
pub struct MemSink {
    bytes: Vec<u8>,
    most: usize,
    fails: Vec<u64>,
    calls: u64,
    faults: u64,
}

impl Model for MemSink {
    ghost use Rattle.std.specs.Prelude.{◌≤◌};
    ghost use Rattle.slider_io.specs.Memory.{Device};

    ghost Value = { Device };

    ghost view = { λ s. record { bytes = s.bytes.items; most = s.most; fails = s.fails.items; calls = s.calls; faults = s.faults } };

    ghost invariant = { λ s. 1 ≤ s.most };
}

impl MemSink {
    /// A sink that has taken nothing, takes at most `most` bytes a call, and fails at the calls numbered in `fails`.
    pub fn new(alloc: Global, most: usize, fails: Vec<u64>) -> MemSink
        requires { 1 ≤ most }
        ensures { result ≡ record { bytes = []; most = most; fails = fails.items; calls = 0; faults = 0 } }
    {
        MemSink {
            bytes: Vec::new(alloc),
            most,
            fails,
            calls: 0,
            faults: 0,
        }
    }

    /// The bytes taken, in order.
    pub fn held(&self) -> &[u8]
        ensures { result.now ≡ self.now.bytes }
    {
        &self.bytes
    }
}

impl Sink for MemSink {
    ghost held = { λ s. Some s.bytes };

    ghost faults = { λ s. s.faults };

    fn put(&mut self, piece: &[u8]) -> Result<usize, WriteFault>
        ensures most { IfOk result (λ n. n ≤ length piece.now) }
        ensures bytes { Puts (Some self.old.bytes) (Some self.new.bytes) piece.now result }
        ensures none { IfOk result (λ n. n ≡ 0 → 0 < length piece.now → Rose self.old.faults self.new.faults) }
        ensures later { self.old.faults ≤ self.new.faults }
        ensures failed { IsErrOf result WriteFault.Failed → Rose self.old.faults self.new.faults }
        ensures exact { MemPuts self.old self.new piece.now result }
    {
        self.calls = self.calls.saturating_add(1);
        let calls = self.calls;
        if self.fails.contains(&calls) {
            self.faults = self.faults.saturating_add(1);
            return Err(WriteFault::Failed);
        }
        let n = piece.len().min(self.most);
        match self.bytes.extend_from_slice(&piece[..n]) {
            Ok(()) => (),
            Err(_) => return Err(WriteFault::Mem),
        }
        Ok(n)
    }
}
