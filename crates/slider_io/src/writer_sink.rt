//! A sink into a real writer, as standard output: the trusted edge where bytes go out. Each call flushes, so that what
//! was taken has left the program; an interrupted call is retried, and each other failure is counted.
ghost use Rattle.std.specs.Prelude.{◌≡◌, ◌<◌, ◌≤◌, ℕ, List, length, IfOk, OnOk, OnErr, IfErr, IsErrOf};
ghost use Rattle.std.specs.declared.option.Option.TheVariants.{None};
ghost use Rattle.definitions.specs.Outside.{Rose};
ghost use Rattle.std.specs.Io.KnownBytes.{Keeps};
ghost use Rattle.slider_io.specs.Devices.{Puts};
ghost use Rattle.slider_io.specs.Memory.{one_more};
ghost use Rattle.slider_io.specs.Adapters.{HandsOn};
ghost use Rattle.slider_io.specs.declared.sink.WriteFault.TheVariants.{Failed};

use crate::{Sink, WriteFault};
use std::io::{ErrorKind, Write};
use std::marker::Model;

/// How often an interrupted call is tried.
const TRIES: u32 = 64;

/// A sink into a real writer, which it flushes in each call. As a sink its bytes are not observable, since it reports a
/// failure for what was written and not flushed. It is modelled by its count of faults, which increases by one at each
/// failure, and by the bytes that its writer holds, if these are known.
#[derive(Drop)]
pub struct WriterSink<W: Write + Drop> {
    inner: W,
    faults: u64,
}

impl<W: Write + Drop> Model for WriterSink<W> {
    ghost use Rattle.slider_io.specs.Adapters.{Adapter};

    ghost Value = { Adapter };

    ghost view = { λ s. record { faults = s.faults; known = W.contents s.inner } };
}

impl<W: Write + Drop> WriterSink<W> {
    /// A sink into this writer, which has not failed yet.
    pub fn new(inner: W) -> WriterSink<W>
        ensures faults { result.faults ≡ 0 }
        ensures known { result.known ≡ W.contents inner }
    {
        WriterSink { inner, faults: 0 }
    }
}

/// Flushes a writer, and returns whether that succeeded; an interrupted flush is retried.
fn flush<W: Write>(inner: &mut W) -> bool
    ensures { Keeps (W.contents inner.old) (W.contents inner.new) }
{
    'tries: for _ in 0..TRIES {
        match inner.flush() {
            Ok(()) => return true,
            Err(e) => {
                if e.kind() != ErrorKind::Interrupted {
                    break;
                }
            }
        }
    }
    false
}

impl<W: Write + Drop> Sink for WriterSink<W> {
    ghost held = { λ _. None };

    ghost faults = { λ s. s.faults };

    fn put(&mut self, piece: &[u8]) -> Result<usize, WriteFault>
        ensures most { IfOk result (λ n. n ≤ length piece.now) }
        ensures bytes { Puts None None piece.now result }
        ensures none { IfOk result (λ n. n ≡ 0 → 0 < length piece.now → Rose self.old.faults self.new.faults) }
        ensures later { self.old.faults ≤ self.new.faults }
        ensures failed { IsErrOf result WriteFault.Failed → Rose self.old.faults self.new.faults }
        ensures still { OnOk result (self.new.faults ≡ self.old.faults) }
        ensures count { OnErr result (self.new.faults ≡ one_more self.old.faults) }
        ensures handed { HandsOn self.old.known self.new.known result piece.now }
        ensures only { IfErr result (λ why. why ≡ Failed) }
    {
        'tries: for _ in 0..TRIES {
            match self.inner.write(piece) {
                Ok(n) => {
                    if n == 0 && !piece.is_empty() {
                        break;
                    }
                    if !flush(&mut self.inner) {
                        break;
                    }
                    return Ok(n);
                }
                Err(e) => {
                    if e.kind() != ErrorKind::Interrupted {
                        break;
                    }
                }
            }
        }
        self.faults = self.faults.saturating_add(1);
        Err(WriteFault::Failed)
    }
}
