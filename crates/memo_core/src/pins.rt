//! The pins of an entry: a list of callers, each as often as it holds the entry. A release removes the first.
ghost use Rattle.std.specs.Prelude.{◌≡◌, ◌++◌, ◌∷◌, [], ◌<◌, ◌==◌, ◌↔◌, OnOk, OnErr, IfOk, IsTrue, Some, length, slice_get, position};
ghost use Rattle.std.specs.List.{list_any};
ghost use Rattle.memo_core.specs.Pinned.{without_first};

use std::alloc::{AllocError, Global};
use std::marker::Model;

/// The numbers of the callers that have pinned an entry, one for each pin, in the order of pinning.
#[derive(Drop)]
pub struct Pins {
    callers: Vec<u64>,
}

impl Model for Pins {
    ghost use Rattle.std.specs.Prelude.{List, ℕ};

    ghost Value = { List ℕ };

    ghost view = { λ p. p.callers.items };
}

impl Pins {
    /// One pin of a caller. It fails only out of memory.
    pub fn one(alloc: Global, caller: u64) -> Result<Pins, AllocError>
        ensures { IfOk result (λ pins. pins ≡ caller ∷ []) }
    {
        let mut callers = Vec::new(alloc);
        callers.push(caller)?;
        Ok(Pins { callers })
    }

    /// How many pins there are.
    pub fn len(&self) -> usize
        ensures { result ≡ length self.now }
    {
        self.callers.len()
    }

    /// Whether there is no pin.
    pub fn is_empty(&self) -> bool
        ensures { IsTrue result ↔ (length self.now ≡ 0) }
    {
        self.callers.is_empty()
    }

    /// The caller of the pin at a place.
    pub fn get(&self, i: usize) -> u64
        requires { i < length self.now }
        ensures { slice_get self.now i ≡ Some result }
    {
        self.callers[i]
    }

    /// Whether the caller has a pin. One walk over the pins.
    pub fn contains(&self, caller: u64) -> bool
        ensures { result ≡ list_any (λ c. c == caller) self.now }
    {
        self.callers.as_slice().contains(&caller)
    }

    /// Adds a pin at the end. It fails only out of memory, and then nothing changes.
    pub fn push(&mut self, caller: u64) -> Result<(), AllocError>
        ensures ok { OnOk result (self.new ≡ self.old ++ caller ∷ []) }
        ensures err { OnErr result (self.new ≡ self.old) }
    {
        self.callers.push(caller)?;
        Ok(())
    }

    /// Removes the caller's first pin, if it has one. One walk over the pins.
    pub fn release(&mut self, caller: u64)
        ensures { self.new ≡ without_first caller self.old }
    {
        if let Some(place) = self.place_of(caller) {
            self.callers.remove(place);
        }
    }

    // The place of the caller's first pin.
    fn place_of(&self, caller: u64) -> Option<usize>
        ensures { result ≡ position (λ c. c == caller) self.now }
    {
        self.callers.iter().position(|c| *c == caller)
    }
}
