//! A source over bytes in memory that never fails, for a script that is held whole.
ghost use Rattle.std.specs.Prelude.{◌≡◌, ◌≤◌, ℕ, List, length, drop, min, take, IfOk, OnErr, IsOk, IsOkAnd};
ghost use Rattle.std.specs.declared.option.Option.TheVariants.{Some};
ghost use Rattle.definitions.specs.Outside.{Rose};
ghost use Rattle.slider_io.specs.Devices.{Takes};

use crate::{ReadFailed, Source};
use std::marker::Model;

/// A source over bytes in memory that never fails: a call gives as many bytes as fit.
#[derive(Drop)]
pub struct SureSource {
    bytes: Vec<u8>,
    at: usize,
}

impl Model for SureSource {
    ghost Value = { List ℕ };

    ghost view = { λ s. drop s.at s.bytes.items };

    ghost invariant = { λ s. s.at ≤ length s.bytes.items };
}

impl SureSource {
    /// A source that has these bytes left.
    pub fn new(bytes: Vec<u8>) -> SureSource
        ensures { result ≡ bytes.items }
    {
        SureSource { bytes, at: 0 }
    }
}

impl Source for SureSource {
    ghost left = { λ s. Some s };

    ghost faults = { λ _. 0 };

    fn take(&mut self, into: &mut [u8]) -> Result<usize, ReadFailed>
        ensures most { IfOk result (λ n. n ≤ length into.new) }
        ensures bytes { Takes (Some self.old) (Some self.new) (length into.old) into.new result }
        ensures later { 0 ≤ 0 }
        ensures failed { OnErr result (Rose 0 0) }
        ensures exact { IsOkAnd result (λ n. n ≡ min (length into.old) (length self.old)) }
    {
        let n = into.len().min(self.bytes.len() - self.at);
        into[..n].copy_from_slice(&self.bytes[self.at..self.at + n]);
        self.at += n;
        Ok(n)
    }
}
