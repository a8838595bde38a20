//! A source over bytes in memory, for tests: it limits the bytes of a call, and fails at given calls.
ghost use Rattle.std.specs.Prelude.{◌≡◌, ◌≤◌, ◌-◌, ℕ, List, [], length, drop, take, min, IfOk, OnErr, ◌↔◌, IsTrue};
ghost use Rattle.std.specs.List.{list_any};
ghost use Rattle.std.specs.declared.option.Option.TheVariants.{Some};
ghost use Rattle.definitions.specs.Outside.{Rose};
ghost use Rattle.slider_io.specs.Devices.{Takes};
ghost use Rattle.slider_io.specs.Memory.{Device, MemTakes};

use crate::{ReadFailed, Source};
use std::marker::Model;

/// A source over bytes in memory that gives at most a given number of bytes at each call, and fails at the calls with
/// given numbers. Calls are numbered from 1; at the end of its type the number stays.
#[derive(Drop)]
pub struct MemSource {
    bytes: Vec<u8>,
    at: usize,
    most: usize,
    fails: Vec<u64>,
    calls: u64,
    faults: u64,
}

impl Model for MemSource {
    ghost use Rattle.std.specs.Prelude.{◌≤◌, length, drop};
    ghost use Rattle.slider_io.specs.Memory.{Device};

    ghost Value = { Device };

    ghost view = { λ s. record { bytes = drop s.at s.bytes.items; most = s.most; fails = s.fails.items; calls = s.calls; faults = s.faults } };

    ghost invariant = { λ s. (s.at ≤ length s.bytes.items) × (1 ≤ s.most) };
}

impl MemSource {
    /// A source that has these bytes left, gives at most `most` of them a call, and fails at the calls numbered in
    /// `fails`.
    pub fn new(bytes: Vec<u8>, most: usize, fails: Vec<u64>) -> MemSource
        requires { 1 ≤ most }
        ensures { result ≡ record { bytes = bytes.items; most = most; fails = fails.items; calls = 0; faults = 0 } }
    {
        MemSource {
            bytes,
            at: 0,
            most,
            fails,
            calls: 0,
            faults: 0,
        }
    }
}

/// Copies the bytes from a place on into a buffer, as many as fit, and returns their number.
fn give(bytes: &[u8], at: usize, into: &mut [u8]) -> usize
    requires { at ≤ length bytes.now }
    ensures count { result ≡ min (length into.old) (length bytes.now - at) }
    ensures prefix { take result into.new ≡ take result (drop at bytes.now) }
{
    let n = into.len().min(bytes.len() - at);
    into[..n].copy_from_slice(&bytes[at..at + n]);
    n
}

impl Source for MemSource {
    ghost left = { λ s. Some s.bytes };

    ghost faults = { λ s. s.faults };

    fn take(&mut self, into: &mut [u8]) -> Result<usize, ReadFailed>
        ensures most { IfOk result (λ n. n ≤ length into.new) }
        ensures bytes { Takes (Some self.old.bytes) (Some self.new.bytes) (length into.old) into.new result }
        ensures later { self.old.faults ≤ self.new.faults }
        ensures failed { OnErr result (Rose self.old.faults self.new.faults) }
        ensures exact { MemTakes self.old self.new (length into.old) result }
    {
        self.calls = self.calls.saturating_add(1);
        let calls = self.calls;
        if self.fails.contains(&calls) {
            self.faults = self.faults.saturating_add(1);
            return Err(ReadFailed);
        }
        let room = into.len().min(self.most);
        let n = give(self.bytes.as_slice(), self.at, &mut into[..room]);
        self.at += n;
        Ok(n)
    }
}
