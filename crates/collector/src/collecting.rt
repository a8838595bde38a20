//! The collector and its sweeps: one call for one shard, at the horizon that the run and `keep` make.
ghost use Rattle.std.specs.Prelude.{◌≡◌, ◌<◌, length, IfOk, IfErr};
ghost use Rattle.memo_core.specs.declared.event.Event.TheVariants.{Sweep};
ghost use Rattle.pin_table.specs.Known.{Gained, AtShard};
ghost use Rattle.pin_table.specs.Answers.{Faults};
ghost use Rattle.collector.specs.Collectors.{horizon_of};

use memo_server::Recipe;
use pin_table::{Caller, Memo, MemoFault};
use std::marker::Model;
use std::sync::Wait;

/// A caller that sweeps: an entry that nobody holds is kept for `keep` runs after the last run that used it.
#[derive(Drop)]
pub struct Collector<R: Recipe> {
    caller: Caller<R>,
    keep: u64,
}

impl<R: Recipe> Model for Collector<R> {
    ghost use Rattle.collector.specs.Collectors.{CollectorView};

    ghost Value = { CollectorView };

    ghost view = { λ c. record { caller = c.caller; keep = c.keep } };
}

impl<R: Recipe> Collector<R> {
    /// A collector that calls as this caller.
    pub fn new(caller: Caller<R>, keep: u64) -> Collector<R>
        ensures { (result.caller ≡ caller) × (result.keep ≡ keep) }
    {
        Collector { caller, keep }
    }

    /// The horizon of a sweep, `run - keep`, or 0 if `keep` is larger: entries that nobody holds and that were last
    /// used below it are dropped.
    pub fn horizon(&self, run: u64) -> u64
        ensures { result ≡ horizon_of self.now.keep run }
    {
        run.saturating_sub(self.keep)
    }

    /// Gives the caller back, as `Memo::close` needs it.
    pub fn into_caller(self) -> Caller<R>
        ensures { result ≡ self.caller }
    {
        let Collector { caller, keep: _ } = self;
        caller
    }

    /// One sweep of the shard at the horizon of the run. It returns how many entries were dropped. It walks over the
    /// shard's entries once, and may block.
    ///
    /// # Errors
    ///
    /// `Worn` if this call's check found the ticket of the shard's lock at 2^62 or more; `Mem` out of memory. Nothing
    /// was swept.
    pub fn sweep_shard<W: Wait>(
        &mut self,
        rt: &W,
        memo: &Memo<R>,
        run: u64,
        shard: u32,
    ) -> Result<u64, MemoFault>
        requires of { self.old.caller.locks ≡ memo.now.locks }
        requires shard { shard < length memo.now.locks }
        ensures same { (self.new.keep ≡ self.old.keep) × (self.new.caller.locks ≡ self.old.caller.locks) × (self.new.caller.number ≡ self.old.caller.number) }
        ensures swept { IfOk result (λ dropped. AtShard (Gained self.old.caller.number (Sweep self.old.caller.number (horizon_of self.old.keep run) dropped)) shard self.old.caller self.new.caller) }
        ensures fault { IfErr result (λ fault. Faults fault shard self.old.caller self.new.caller) }
    {
        let horizon = self.horizon(run);
        match memo.sweep(rt, &mut self.caller, shard, horizon) {
            Ok(dropped) => return Ok(dropped),
            Err(MemoFault::Worn { ticket }) => return Err(MemoFault::Worn { ticket }),
            Err(MemoFault::Mem) => return Err(MemoFault::Mem),
        }
    }
}
