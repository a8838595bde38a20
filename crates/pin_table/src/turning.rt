//! The calls of a memo, each one turn at one shard.
ghost use Rattle.std.specs.Prelude.{◌≡◌, ◌<◌, length, OnOk, IfOk, IfErr};
ghost use Rattle.memo_core.specs.declared.event.Event.TheVariants.{Release, Sweep};
ghost use Rattle.pin_table.specs.Known.{Gained, WornOut, AtShard, known_at, held_at};
ghost use Rattle.pin_table.specs.Placing.{shard_at};
ghost use Rattle.pin_table.specs.Answers.{Faults, MayAsk, TookTurn, RefusedTurn, Looks, Keeps};

use crate::answers::{KeepRefused, Kept, Looked, MemoFault};
use crate::caller::Caller;
use crate::memo::Memo;
use crate::pin::Pin;
use crate::placing::shard_of;
use memo_server::{Recipe, ShardKeep, ShardLook, ShardOp, ShardReply};
use std::sync::Wait;
use turn_lock::Turned;

impl<R: Recipe> Memo<R> {
    /// Looks for the entry of an input, in the shard of its digest. `Hit` carries one more pin of the caller, and
    /// raises the entry's last run to `run`. A turn makes one search by digest and one comparison of inputs. It may
    /// block.
    ///
    /// # Errors
    ///
    /// `Worn` if this call's check found the ticket of the shard's lock at 2^62 or more; `Mem` out of memory.
    pub fn look<W: Wait>(
        &self,
        rt: &W,
        caller: &mut Caller<R>,
        run: u64,
        input: &R::In,
    ) -> Result<Looked<R>, MemoFault>
        requires of { caller.old.locks ≡ self.now.locks }
        ensures looked { IfOk result (λ looked. Looks R.fits R.digest_of run input.now looked caller.old caller.new) }
        ensures fault { IfErr result (λ fault. Faults fault (shard_at (R.digest_of input.now) (length self.now.locks)) caller.old caller.new) }
    {
        let shard = shard_of(&R::digest(input), self.shards());
        let number = caller.number();
        let input = match R::share_in(self.alloc, input) {
            Ok(input) => input,
            Err(_) => return Err(MemoFault::Mem),
        };
        match self.turn(rt, caller, shard, ShardOp::Look { run, input }) {
            Ok(ShardReply::Look(Ok(ShardLook::Hit(entry)))) => {
                return Ok(Looked::Hit(Pin {
                    caller: number,
                    shard,
                    entry,
                }));
            }
            Ok(ShardReply::Look(Ok(ShardLook::Absent))) => return Ok(Looked::Absent),
            Ok(ShardReply::Look(Ok(ShardLook::Clash(entry)))) => return Ok(Looked::Clash(entry)),
            Ok(ShardReply::Look(Err(_))) => return Err(MemoFault::Mem),
            Ok(ShardReply::Keep(_)) => unreachable!(),
            Ok(ShardReply::Release) => unreachable!(),
            Ok(ShardReply::Sweep(_)) => unreachable!(),
            Err(Turned::Worn { ticket, op: _ }) => return Err(MemoFault::Worn { ticket }),
        }
    }

    /// Keeps a result for its input in the shard of the input's digest, if no live entry has the digest. `Stored` and
    /// `Found` carry one more pin of the caller. A turn makes one search and one insertion. It may block.
    ///
    /// # Errors
    ///
    /// `Worn` if this call's check found the ticket of the shard's lock at 2^62 or more; `Mem` out of memory. Input and
    /// result come back.
    pub fn keep<W: Wait>(
        &self,
        rt: &W,
        caller: &mut Caller<R>,
        run: u64,
        input: R::In,
        out: R::Out,
    ) -> Result<Kept<R>, KeepRefused<R>>
        requires of { caller.old.locks ≡ self.now.locks }
        requires fits { R.fits input out }
        ensures kept { IfOk result (λ kept. Keeps R.fits R.digest_of run input out kept caller.old caller.new) }
        ensures back { IfErr result (λ refused. (refused.input ≡ input) × (refused.out ≡ out)) }
        ensures fault { IfErr result (λ refused. Faults refused.fault (shard_at (R.digest_of input) (length self.now.locks)) caller.old caller.new) }
    {
        let shard = shard_of(&R::digest(&input), self.shards());
        let number = caller.number();
        match self.turn(rt, caller, shard, ShardOp::Keep { run, input, out }) {
            Ok(ShardReply::Keep(Ok(ShardKeep::Stored(entry)))) => {
                return Ok(Kept::Stored(Pin {
                    caller: number,
                    shard,
                    entry,
                }));
            }
            Ok(ShardReply::Keep(Ok(ShardKeep::Found(entry)))) => {
                return Ok(Kept::Found(Pin {
                    caller: number,
                    shard,
                    entry,
                }));
            }
            Ok(ShardReply::Keep(Ok(ShardKeep::Clash(entry, input, out)))) => {
                return Ok(Kept::Clash(entry, input, out));
            }
            Ok(ShardReply::Keep(Err((_, input, out)))) => {
                return Err(KeepRefused {
                    fault: MemoFault::Mem,
                    input,
                    out,
                });
            }
            Ok(ShardReply::Look(_)) => unreachable!(),
            Ok(ShardReply::Release) => unreachable!(),
            Ok(ShardReply::Sweep(_)) => unreachable!(),
            Err(
                Turned::Worn {
                    ticket,
                    op: ShardOp::Keep { run: _, input, out },
                },
            ) => {
                return Err(KeepRefused {
                    fault: MemoFault::Worn { ticket },
                    input,
                    out,
                });
            }
            Err(_) => unreachable!(),
        }
    }

    /// Releases a pin. It takes no memory. A turn makes one binary search. It may block.
    ///
    /// # Errors
    ///
    /// The pin comes back if this call's check found the ticket of the shard's lock at 2^62 or more, which the caller
    /// is then shown.
    pub fn release<W: Wait>(
        &self,
        rt: &W,
        caller: &mut Caller<R>,
        pin: Pin<R>,
    ) -> Result<(), Pin<R>>
        requires of { caller.old.locks ≡ self.now.locks }
        requires own { pin.caller ≡ caller.old.number }
        requires held { 0 < held_at pin.shard pin.id caller.old }
        ensures released { OnOk result (AtShard (Gained caller.old.number (Release caller.old.number pin.id)) pin.shard caller.old caller.new) }
        ensures back { IfErr result (λ back. back ≡ pin) }
        ensures worn { IfErr result (λ _. AtShard (WornOut (known_at pin.shard caller.new).shown) pin.shard caller.old caller.new) }
    {
        // What the caller holds is at one of its shards.
        let _ = caller.number();
        let id = pin.entry.id();
        match self.turn(rt, caller, pin.shard, ShardOp::Release { id }) {
            Ok(ShardReply::Release) => return Ok(()),
            Ok(ShardReply::Look(_)) => unreachable!(),
            Ok(ShardReply::Keep(_)) => unreachable!(),
            Ok(ShardReply::Sweep(_)) => unreachable!(),
            Err(_) => return Err(pin),
        }
    }

    /// Drops the entries of a shard that nobody holds and that were last used below the horizon, and returns how many.
    /// A turn walks over the shard's entries once. It may block.
    ///
    /// # Errors
    ///
    /// `Worn` if this call's check found the ticket of the shard's lock at 2^62 or more; `Mem` out of memory.
    pub fn sweep<W: Wait>(
        &self,
        rt: &W,
        caller: &mut Caller<R>,
        shard: u32,
        horizon: u64,
    ) -> Result<u64, MemoFault>
        requires of { caller.old.locks ≡ self.now.locks }
        requires shard { shard < length self.now.locks }
        ensures swept { IfOk result (λ dropped. AtShard (Gained caller.old.number (Sweep caller.old.number horizon dropped)) shard caller.old caller.new) }
        ensures fault { IfErr result (λ fault. Faults fault shard caller.old caller.new) }
    {
        match self.turn(rt, caller, shard, ShardOp::Sweep { horizon }) {
            Ok(ShardReply::Sweep(Ok(dropped))) => return Ok(dropped),
            Ok(ShardReply::Sweep(Err(_))) => return Err(MemoFault::Mem),
            Ok(ShardReply::Look(_)) => unreachable!(),
            Ok(ShardReply::Keep(_)) => unreachable!(),
            Ok(ShardReply::Release) => unreachable!(),
            Err(Turned::Worn { ticket, op: _ }) => return Err(MemoFault::Worn { ticket }),
        }
    }

    // One turn at a shard.
    fn turn<W: Wait>(
        &self,
        rt: &W,
        caller: &mut Caller<R>,
        shard: u32,
        op: ShardOp<R>,
    ) -> Result<ShardReply<R>, Turned<ShardOp<R>>>
        requires of { caller.old.locks ≡ self.now.locks }
        requires shard { shard < length self.now.locks }
        requires may { MayAsk R.fits caller.old.number (known_at shard caller.old) op }
        ensures took { IfOk result (λ reply. AtShard (TookTurn R.fits R.digest_of op reply caller.old.number) shard caller.old caller.new) }
        ensures refused { IfErr result (λ back. RefusedTurn R.fits R.digest_of op back shard caller.old caller.new) }
    {
        self.locks[shard as usize].turn(rt, &mut caller.passes[shard as usize], op)
    }
}
