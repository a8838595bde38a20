//! The data of a board's last task: a collector, which sweeps every shard of its memo.
ghost use Rattle.std.specs.Prelude.{◌≡◌, ◌<◌, length};
ghost use Rattle.collector.specs.Collectors.{horizon_of};
ghost use Rattle.run_engine.specs.Sweeps.{IsSwept, IsSweptAt};

use collector::Collector;
use memo_server::Recipe;
use pin_table::{Memo, MemoFault};
use std::alloc::AllocError;
use std::sync::Wait;

/// A collector, and whether memory ran out.
#[derive(Drop)]
pub(crate) struct SweepSeat<R: Recipe> {
    pub collector: Collector<R>,
    pub failed: bool,
}

/// Sweeps each shard in order at the horizon of the run. A shard whose lock is worn is left unchanged.
pub(crate) fn sweep_all<R: Recipe, W: Wait>(
    rt: &W,
    memo: &Memo<R>,
    run: u64,
    seat: &mut SweepSeat<R>,
)
    requires { seat.old.collector.caller.locks ≡ memo.now.locks }
    ensures { IsSwept (horizon_of seat.old.collector.keep run) seat.old.collector seat.new.collector seat.new.failed }
{
    seat.failed = false;
    'shards: for shard in 0..memo.shards() {
        match sweep_one(rt, memo, run, shard, &mut seat.collector) {
            Ok(()) => {}
            Err(_) => {
                seat.failed = true;
                return;
            }
        }
    }
}

// Sweeps one shard. A worn lock is no error.
fn sweep_one<R: Recipe, W: Wait>(
    rt: &W,
    memo: &Memo<R>,
    run: u64,
    shard: u32,
    collector: &mut Collector<R>,
) -> Result<(), AllocError>
    requires of { collector.old.caller.locks ≡ memo.now.locks }
    requires shard { shard < length memo.now.locks }
    ensures { IsSweptAt (horizon_of collector.old.keep run) shard collector.old collector.new result }
{
    match collector.sweep_shard(rt, memo, run, shard) {
        Ok(_) => return Ok(()),
        Err(MemoFault::Worn { ticket: _ }) => return Ok(()),
        Err(MemoFault::Mem) => return Err(AllocError),
    }
}
