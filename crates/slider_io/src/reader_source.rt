//! A source over a real reader, as standard input: the trusted edge where bytes come in. It retries an interrupted
//! read, and counts each other failure.
ghost use Rattle.std.specs.Prelude.{◌≡◌, ◌≤◌, ℕ, List, length, IfOk, OnOk, OnErr};
ghost use Rattle.std.specs.declared.option.Option.TheVariants.{None};
ghost use Rattle.definitions.specs.Outside.{Rose};
ghost use Rattle.slider_io.specs.Devices.{Takes};
ghost use Rattle.slider_io.specs.Memory.{one_more};
ghost use Rattle.std.specs.Io.KnownBytes.{ReadConsumes};

use crate::{ReadFailed, Source};
use std::io::{ErrorKind, Read};
use std::marker::Model;

/// How often an interrupted call is tried.
const TRIES: u32 = 64;

/// A source over a real reader. As a source its bytes are not observable. It is modelled by its count of faults, which
/// increases by one at each failure, and by the bytes that its reader has left, if these are known.
#[derive(Drop)]
pub struct ReaderSource<R: Read + Drop> {
    inner: R,
    faults: u64,
}

impl<R: Read + Drop> Model for ReaderSource<R> {
    ghost use Rattle.slider_io.specs.Adapters.{Adapter};

    ghost Value = { Adapter };

    ghost view = { λ s. record { faults = s.faults; known = R.remaining s.inner } };
}

impl<R: Read + Drop> ReaderSource<R> {
    /// A source over this reader, which has not failed yet.
    pub fn new(inner: R) -> ReaderSource<R>
        ensures faults { result.faults ≡ 0 }
        ensures known { result.known ≡ R.remaining inner }
    {
        ReaderSource { inner, faults: 0 }
    }
}

impl<R: Read + Drop> Source for ReaderSource<R> {
    ghost left = { λ _. None };

    ghost faults = { λ s. s.faults };

    fn take(&mut self, into: &mut [u8]) -> Result<usize, ReadFailed>
        ensures most { IfOk result (λ n. n ≤ length into.new) }
        ensures bytes { Takes None None (length into.old) into.new result }
        ensures later { self.old.faults ≤ self.new.faults }
        ensures failed { OnErr result (Rose self.old.faults self.new.faults) }
        ensures still { OnOk result (self.new.faults ≡ self.old.faults) }
        ensures count { OnErr result (self.new.faults ≡ one_more self.old.faults) }
        ensures handed { ReadConsumes self.old.known self.new.known result into.new }
    {
        'tries: for _ in 0..TRIES {
            match self.inner.read(into) {
                Ok(n) => return Ok(n),
                Err(e) => {
                    if e.kind() != ErrorKind::Interrupted {
                        break;
                    }
                }
            }
        }
        self.faults = self.faults.saturating_add(1);
        Err(ReadFailed)
    }
}
