//! A shard behind a lock: each turn makes one call.
ghost use Rattle.std.specs.Prelude.{◌≡◌, ℕ, ◌<◌, ◌^◌, length};
ghost use Rattle.turn_lock.specs.Under.{under};
ghost use Rattle.memo_server.specs.Histories.{events};
ghost use Rattle.memo_server.specs.Callers.{own_held, whose, IsLegal};
ghost use Rattle.memo_server.specs.Turns.{May, AnswersOp, Plays};
ghost use Rattle.memo_server.specs.declared.ops.ShardOp.TheVariants.{Look, Keep, Release, Sweep};

use crate::ops::{ShardOp, ShardReply};
use crate::recipe::Recipe;
use crate::shard::Shard;
use crate::turn::Turn;
use turn_lock::Turns;

impl<R: Recipe> Shard<R> {
    fn play_look(&mut self, who: u64, run: u64, input: R::In) -> ShardReply<R>
        requires room { length self.old.turns < 2 ^ 63 }
        ensures plays { Plays R.fits R.digest_of who (Look run input) result self.old self.new }
    {
        match self.look(who, run, input) {
            Ok(answer) => ShardReply::Look(Ok(answer)),
            Err(e) => {
                self.note_empty();
                ShardReply::Look(Err(e))
            }
        }
    }

    fn play_keep(&mut self, who: u64, run: u64, input: R::In, out: R::Out) -> ShardReply<R>
        requires room { length self.old.turns < 2 ^ 63 }
        requires fits { R.fits input out }
        ensures plays { Plays R.fits R.digest_of who (Keep run input out) result self.old self.new }
    {
        let _ = self.history();
        match self.keep(who, run, input, out) {
            Ok(answer) => ShardReply::Keep(Ok(answer)),
            Err(back) => {
                self.note_empty();
                ShardReply::Keep(Err(back))
            }
        }
    }

    fn play_release(&mut self, who: u64, id: u64) -> ShardReply<R>
        requires may { 0 < own_held id (events (under whose who self.old.turns)) }
        ensures plays { Plays R.fits R.digest_of who (Release id) result self.old self.new }
    {
        let _ = self.history();
        self.release(who, id);
        ShardReply::Release
    }

    fn play_sweep(&mut self, who: u64, horizon: u64) -> ShardReply<R>
        requires room { length self.old.turns < 2 ^ 63 }
        ensures plays { Plays R.fits R.digest_of who (Sweep horizon) result self.old self.new }
    {
        match self.sweep(who, horizon) {
            Ok(dropped) => ShardReply::Sweep(Ok(dropped)),
            Err(e) => {
                self.note_empty();
                ShardReply::Sweep(Err(e))
            }
        }
    }
}

impl<R: Recipe> Turns for Shard<R> {
    type Op = ShardOp<R>;

    type Reply = ShardReply<R>;

    type Entry = Turn;

    ghost history = { λ s. s.turns };

    ghost whose = { whose };

    ghost answers = { AnswersOp R.fits R.digest_of };

    ghost may = { May R.fits };

    ghost legal = { IsLegal };

    fn play(&mut self, who: u64, op: ShardOp<R>) -> ShardReply<R> {
        let reply = match op {
            ShardOp::Look { run, input } => self.play_look(who, run, input),
            ShardOp::Keep { run, input, out } => self.play_keep(who, run, input, out),
            ShardOp::Release { id } => self.play_release(who, id),
            ShardOp::Sweep { horizon } => self.play_sweep(who, horizon),
        };
        // The call gives the prover the clauses of the history: it replays to the entries.
        let _ = self.history();
        reply
    }
}
