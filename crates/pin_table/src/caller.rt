//! A caller of a memo: a pass at the lock of each shard, all under one number, and what these passes know.
ghost use Rattle.std.specs.Prelude.{◌≡◌, ◌<◌, [], length, IfOk};
ghost use Rattle.turn_lock.specs.Views.{unplayed};
ghost use Rattle.pin_table.specs.Known.{CallerFits};
ghost use Rattle.pin_table.specs.Views.{newcomer, with_lock};
ghost use Rattle.pin_table.specs.Closing.{GivesOne};

use memo_server::{Recipe, Shard};
use std::alloc::{AllocError, Global};
use std::marker::Model;
use turn_lock::Pass;

/// The right to call one memo: a pass at the lock of each of its shards, all under one number.
#[derive(Drop)]
pub struct Caller<R: Recipe> {
    pub(crate) number: u64,
    pub(crate) passes: Vec<Pass<Shard<R>>>,
}

impl<R: Recipe> Model for Caller<R> {
    ghost use Rattle.std.specs.Prelude.{map, All};
    ghost use Rattle.pin_table.specs.Views.{CallerView, PassFits, known_of};

    ghost Value = { CallerView };

    ghost view = { λ c. record { locks = map (λ p. p.lock) c.passes.items; number = c.number; shards = map (λ p. known_of p.known) c.passes.items } };

    ghost invariant = { λ c. All (λ p. PassFits c.number p.known) c.passes.items };
}

impl<R: Recipe> Caller<R> {
    /// The number under which it plays. What it has seen of each shard is a legal history with its own events in order.
    pub fn number(&self) -> u64
        ensures number { result ≡ self.now.number }
        ensures fits { CallerFits self.now }
    {
        self.number
    }

    // A caller without passes.
    pub(crate) fn new(alloc: Global, number: u64) -> Caller<R>
        ensures { result ≡ newcomer [] number }
    {
        Caller {
            number,
            passes: Vec::new(alloc),
        }
    }

    // Adds a pass, before its first turn.
    pub(crate) fn take(&mut self, pass: Pass<Shard<R>>) -> Result<(), AllocError>
        requires { pass ≡ unplayed pass.lock self.old.number }
        ensures { IfOk result (λ _. self.new ≡ with_lock pass.lock self.old) }
    {
        self.passes.push(pass)?;
        Ok(())
    }

    // Removes its last pass.
    pub(crate) fn give(&mut self) -> Pass<Shard<R>>
        requires { 0 < length self.old.locks }
        ensures { GivesOne self.old self.new result }
    {
        match self.passes.pop() {
            Some(pass) => pass,
            None => unreachable!(),
        }
    }
}
