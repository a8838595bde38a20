//! The bytes that a reader took from its source and has not used yet. They are taken a piece at a time, and each is
//! searched for LF once.
ghost use Rattle.std.specs.Prelude.{◌≡◌, ◌≢◌, ◌<◌, ◌≤◌, ◌+◌, ◌++◌, ◌⊎◌, [], ℕ, length, take, drop, slice_index, IfOk, IfErr, OnOk, OnErr, IsErrOf};
ghost use Rattle.definitions.specs.Outside.{Told, Rose};
ghost use Rattle.record_text.specs.Ahead.{NoneBefore, most_piece};
ghost use Rattle.record_text.specs.declared.script_fault.Why.TheVariants.{Read, Mem};

use crate::Why;
use memchr::memchr;
use slider_io::Source;
use std::alloc::{AllocError, Global};
use std::marker::Model;

/// The most bytes that are taken at once.
const MOST_PIECE: usize = 65_536;

/// Bytes that were taken from a source and are not used yet, modelled as a list of bytes. Each byte is searched for LF
/// once.
#[derive(Drop)]
pub struct Ahead {
    held: Vec<u8>,
    at: usize,
    seen: usize,
    piece: Vec<u8>,
}

impl Model for Ahead {
    ghost use Rattle.std.specs.Prelude.{ℕ, List, drop};
    ghost use Rattle.record_text.specs.Ahead.{IsHeld};

    ghost Value = { List ℕ };

    ghost view = { λ a. drop a.at a.held.items };

    ghost invariant = { λ a. IsHeld a.held.items a.at a.seen };
}

fn forget_prefix(bytes: &mut Vec<u8>, n: usize)
    requires { n ≤ length bytes.old.items }
    ensures { bytes.new.items ≡ drop n bytes.old.items }
{
    if n > 0 {
        drop(bytes.drain(..n));
    }
}

/// Makes room for a piece, which is kept for later ones.
fn make_piece(piece: &mut Vec<u8>) -> Result<(), AllocError>
    ensures { OnOk result (length piece.new.items ≡ most_piece) }
{
    if piece.len() == MOST_PIECE {
        return Ok(());
    }
    piece.resize(MOST_PIECE, 0)
}

/// Takes once from the source, at most `want` bytes. Room is made first, so that no byte is lost.
fn take_piece<S: Source>(held: &mut Vec<u8>, piece: &mut [u8], source: &mut S) -> Result<usize, Why>
    requires { 0 < length piece.old }
    ensures bytes { Told (S.left source.old) (S.left source.new) (λ l m. held.old.items ++ l ≡ held.new.items ++ m) }
    ensures count { IfOk result (λ n. length held.new.items ≡ length held.old.items + n) }
    ensures most { IfOk result (λ n. n ≤ length piece.old) }
    ensures end { IfOk result (λ n. n ≡ 0 → Told (S.left source.old) (S.left source.new) (λ l m. m ≡ [])) }
    ensures prefix { take (length held.old.items) held.new.items ≡ held.old.items }
    ensures err { OnErr result (held.new.items ≡ held.old.items) }
    ensures later { S.faults source.old ≤ S.faults source.new }
    ensures failed { IsErrOf result Why.Read → Rose (S.faults source.old) (S.faults source.new) }
    ensures only { IfErr result (λ why. (why ≡ Read) ⊎ (why ≡ Mem)) }
{
    match held.reserve(piece.len()) {
        Ok(()) => (),
        Err(_) => return Err(Why::Mem),
    }
    let n = match source.take(piece) {
        Ok(n) => n,
        Err(_) => return Err(Why::Read),
    };
    match held.extend_from_slice(&piece[..n]) {
        Ok(()) => Ok(n),
        Err(_) => unreachable!(),
    }
}

/// The place of the first LF from a place on, or the number of bytes if there is none.
fn line_end_from(bytes: &[u8], from: usize) -> usize
    requires start { from ≤ length bytes.now }
    requires none { NoneBefore from bytes.now }
    ensures within { result ≤ length bytes.now }
    ensures before { NoneBefore result bytes.now }
    ensures found { result < length bytes.now → slice_index bytes.now result ≡ 10 }
{
    match memchr(b'\n', &bytes[from..]) {
        Some(i) => from + i,
        None => bytes.len(),
    }
}

impl Ahead {
    /// No bytes. It takes no memory.
    pub fn new(alloc: Global) -> Ahead
        ensures { result ≡ [] }
    {
        Ahead {
            held: Vec::new(alloc),
            at: 0,
            seen: 0,
            piece: Vec::new(alloc),
        }
    }

    /// Takes once from a source, at most `most` bytes, and returns how many came. It fails if the source does, or out
    /// of memory.
    pub fn take_from<S: Source>(&mut self, source: &mut S, most: u64) -> Result<usize, Why>
        requires { 0 < most }
        ensures bytes { Told (S.left source.old) (S.left source.new) (λ l m. self.old ++ l ≡ self.new ++ m) }
        ensures count { IfOk result (λ n. length self.new ≡ length self.old + n) }
        ensures most { IfOk result (λ n. n ≤ most) }
        ensures piece { IfOk result (λ n. n ≤ most_piece) }
        ensures prefix { take (length self.old) self.new ≡ self.old }
        ensures end { IfOk result (λ n. n ≡ 0 → Told (S.left source.old) (S.left source.new) (λ l m. m ≡ [])) }
        ensures err { OnErr result (self.new ≡ self.old) }
        ensures later { S.faults source.old ≤ S.faults source.new }
        ensures failed { IsErrOf result Why.Read → Rose (S.faults source.old) (S.faults source.new) }
        ensures only { IfErr result (λ why. (why ≡ Read) ⊎ (why ≡ Mem)) }
    {
        match make_piece(&mut self.piece) {
            Ok(()) => (),
            Err(_) => return Err(Why::Mem),
        }
        forget_prefix(&mut self.held, self.at);
        self.at = 0;
        let want = most.min(MOST_PIECE as u64) as usize;
        take_piece(&mut self.held, &mut self.piece[..want], source)
    }

    /// How many bytes there are.
    pub fn len(&self) -> usize
        ensures { result ≡ length self.now }
    {
        self.held.len() - self.at
    }

    /// The place of the first LF, or the number of bytes if there is none.
    pub fn line_end(&mut self) -> usize
        ensures same { self.new ≡ self.old }
        ensures within { result ≤ length self.old }
        ensures before { NoneBefore result self.old }
        ensures found { result < length self.old → slice_index self.old result ≡ 10 }
    {
        let end = line_end_from(&self.held[self.at..], self.seen);
        self.seen = end;
        end
    }

    /// The first bytes.
    pub fn prefix(&self, n: usize) -> &[u8]
        requires { n ≤ length self.now }
        ensures { result.now ≡ take n self.now }
    {
        &self.held[self.at..self.at + n]
    }

    /// Forgets the first bytes.
    pub fn skip(&mut self, n: usize)
        requires { n ≤ length self.old }
        ensures { self.new ≡ drop n self.old }
    {
        self.at += n;
        self.seen = self.seen.saturating_sub(n);
    }
}
