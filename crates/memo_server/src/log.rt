//! The history of a shard: its events, its turns with the empty ones, and room in reserve for each release still to come.
ghost use Rattle.std.specs.Prelude.{◌≡◌, ℕ, ◌<◌, ◌≤◌, ◌+◌, ◌^◌, ◌++◌, ◌∷◌, [], OnOk, length};
ghost use Rattle.memo_server.specs.declared.turn.Turn.TheVariants.{Made, Empty};

use memo_core::Event;
use std::alloc::{AllocError, Global};
use std::marker::Model;

/// Events, each with the number of empty turns that followed it, so that an empty turn takes no memory.
#[derive(Drop)]
pub struct Log {
    events: Vec<Event>,
    before: u64,
    after: Vec<u64>,
}

impl Model for Log {
    ghost use Rattle.std.specs.Prelude.{◌≡◌, ◌-◌, length, min, vec_len, vec_capacity};
    ghost use Rattle.memo_server.specs.Histories.{LogView, turns_of};

    ghost Value = { LogView };

    ghost view = { λ l. record { history = l.events.items; turns = turns_of l.before l.events.items l.after.items; spare = min (vec_capacity l.events - vec_len l.events) (vec_capacity l.after - vec_len l.after) } };

    ghost invariant = { λ l. length l.after.items ≡ length l.events.items };
}

impl Log {
    ghost use Rattle.memo_server.specs.Histories.{events};

    /// No turns.
    pub fn new(alloc: Global) -> Log
        ensures { (result.history ≡ []) × (result.turns ≡ []) × (result.spare ≡ 0) }
    {
        Log {
            events: Vec::new(alloc),
            before: 0,
            after: Vec::new(alloc),
        }
    }

    /// Its events, without the empty turns.
    pub fn events(&self) -> &[Event]
        ensures is { result.now ≡ self.now.history }
        ensures of { events self.now.turns ≡ self.now.history }
    {
        &self.events
    }

    /// Takes room for events: those that are promised, and `more`.
    pub fn reserve(&mut self, promised: usize, more: usize) -> Result<(), AllocError>
        ensures same { (self.new.history ≡ self.old.history) × (self.new.turns ≡ self.old.turns) × (self.old.spare ≤ self.new.spare) }
        ensures ok { OnOk result (promised + more ≤ self.new.spare) }
        ensures fits { OnOk result (promised + more < 2 ^ 64) }
    {
        let room = promised.checked_add(more).ok_or(AllocError)?;
        self.events.reserve(room)?;
        self.after.reserve(room)?;
        Ok(())
    }

    /// Adds an event.
    pub fn add(&mut self, event: Event)
        requires { 0 < self.old.spare }
        ensures { (self.new.history ≡ self.old.history ++ event ∷ []) × (self.new.turns ≡ self.old.turns ++ Made event ∷ []) × (self.new.spare + 1 ≡ self.old.spare) }
    {
        self.events.push_reserved(event);
        self.after.push_reserved(0);
    }

    /// Adds an empty turn. It takes no memory.
    pub fn note_empty(&mut self)
        requires { length self.old.turns < 2 ^ 63 }
        ensures { (self.new.history ≡ self.old.history) × (self.new.turns ≡ self.old.turns ++ Empty ∷ []) × (self.new.spare ≡ self.old.spare) }
    {
        match self.after.last_mut() {
            Some(count) => *count += 1,
            None => self.before += 1,
        }
    }
}
