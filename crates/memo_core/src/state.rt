//! The state of the machine: its live entries and the next id. An event is one step.
ghost use Rattle.std.specs.Prelude.{◌≡◌, IfOk};

use crate::entries::{CoreEntry, Entries};
use crate::event::{Event, KeepAnswer, LookAnswer};
use crate::pins::Pins;
use std::alloc::{AllocError, Global};

/// The live entries, and the id of the entry that is stored next.
#[derive(Drop)]
pub struct CoreState {
    /// The live entries in the order of making.
    pub entries: Entries,
    /// The next id. Ids are given once, from 0 on.
    pub next: u64,
}

impl CoreState {
    ghost use Rattle.memo_core.specs.Machine.{start, when, after_event};

    /// The start: no entries, and no id given.
    pub fn new(alloc: Global) -> CoreState
        ensures { result ≡ start }
    {
        CoreState {
            entries: Entries::new(alloc),
            next: 0,
        }
    }

    // Applies the event if it is legal, and returns whether it was. It walks the entries once or twice. It fails only
    // out of memory, and then the state must not be used.
    pub(crate) fn apply(&mut self, alloc: Global, event: &Event) -> Result<bool, AllocError>
        ensures { IfOk result (λ legal. after_event self.old event.now ≡ when legal self.new) }
    {
        match *event {
            Event::Look {
                caller,
                run,
                digest,
                answer,
            } => self.look(caller, run, digest, answer),
            Event::Keep {
                caller,
                run,
                digest,
                answer,
            } => self.keep(alloc, caller, run, digest, answer),
            Event::Release { caller, id } => Ok(self.release(caller, id)),
            Event::Sweep {
                caller,
                horizon,
                dropped,
            } => Ok(self.sweep(caller, horizon, dropped)),
        }
    }

    fn look(
        &mut self,
        caller: u64,
        run: u64,
        digest: [u8; 32],
        answer: LookAnswer,
    ) -> Result<bool, AllocError>
        ensures { IfOk result (λ legal. after_event self.old (Event.Look caller run digest answer) ≡ when legal self.new) }
    {
        match answer {
            LookAnswer::Hit(id) => self.pin(caller, run, &digest, id),
            LookAnswer::Absent => Ok(!self.entries.has_digest(&digest)),
            LookAnswer::Clash(id) => Ok(self.entries.names(id, &digest)),
        }
    }

    fn keep(
        &mut self,
        alloc: Global,
        caller: u64,
        run: u64,
        digest: [u8; 32],
        answer: KeepAnswer,
    ) -> Result<bool, AllocError>
        ensures { IfOk result (λ legal. after_event self.old (Event.Keep caller run digest answer) ≡ when legal self.new) }
    {
        match answer {
            KeepAnswer::Stored(id) => self.store(alloc, caller, run, digest, id),
            KeepAnswer::Found(id) => self.pin(caller, run, &digest, id),
            KeepAnswer::Clash(id) => Ok(self.entries.names(id, &digest)),
        }
    }

    // Adds a pin on the entry of the id, if it has the digest.
    fn pin(&mut self, caller: u64, run: u64, digest: &[u8; 32], id: u64) -> Result<bool, AllocError>
        ensures { IfOk result (λ legal. after_event self.old (Event.Look caller run digest.now (LookAnswer.Hit id)) ≡ when legal self.new) }
    {
        if !self.entries.names(id, digest) {
            return Ok(false);
        }
        self.entries.pin(id, caller, run)?;
        Ok(true)
    }

    // Stores a new entry, if its id is the next one and no entry has the digest.
    fn store(
        &mut self,
        alloc: Global,
        caller: u64,
        run: u64,
        digest: [u8; 32],
        id: u64,
    ) -> Result<bool, AllocError>
        ensures { IfOk result (λ legal. after_event self.old (Event.Keep caller run digest (KeepAnswer.Stored id)) ≡ when legal self.new) }
    {
        if self.entries.has_digest(&digest) || id != self.next || self.next == u64::MAX {
            return Ok(false);
        }
        self.entries.push(CoreEntry {
            id,
            digest,
            used: run,
            pins: Pins::one(alloc, caller)?,
        })?;
        self.next += 1;
        Ok(true)
    }

    fn release(&mut self, caller: u64, id: u64) -> bool
        ensures { after_event self.old (Event.Release caller id) ≡ when result self.new }
    {
        if !self.entries.has_pin(caller, id) {
            return false;
        }
        self.entries.release(id, caller);
        true
    }

    fn sweep(&mut self, caller: u64, horizon: u64, dropped: u64) -> bool
        ensures { after_event self.old (Event.Sweep caller horizon dropped) ≡ when result self.new }
    {
        if dropped != self.entries.stale(horizon) as u64 {
            return false;
        }
        self.entries.sweep(horizon);
        true
    }
}
