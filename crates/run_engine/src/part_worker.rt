//! A part's task: its tree takes the shift with the sheets of the leaves that came.
ghost use Rattle.std.specs.Prelude.{◌≡◌};
ghost use Rattle.tree_laws.specs.Trees.{bound_of};
ghost use Rattle.run_engine.specs.PartTasks.{IsReadyPart, IsAdvancedPart};

use crate::part_seat::PartSeat;
use crate::sweep_seat::{SweepSeat, sweep_all};
use crate::task::Task;
use job_laws::Job;
use pin_table::Memo;
use record_text::Shift;
use std::alloc::Global;
use std::sync::Wait;
use std::thread::Threads;
use tree_laws::{MergeRecipe, Tree};
use worker_claims::Worker;

/// Does the tasks of parts, and the sweep of their memo, for one run.
#[derive(Drop)]
pub(crate) struct PartWorker<'a, J: Job> {
    pub alloc: Global,
    pub memo: &'a Memo<MergeRecipe<J>>,
    pub job: &'a J,
    pub run: u64,
    pub shift: &'a Shift,
}

impl<'a, J: Job + Send + Sync, T: Tree<J>> Worker<
    Task<PartSeat<J, T>, J::Meter, SweepSeat<MergeRecipe<J>>>,
> for PartWorker<'a, J>
where
    J::Val: Send + Sync,
    J::Meter: Send + Sync,
{
    ghost use Rattle.run_engine.specs.declared.task.Task.TheVariants.{Work, Sweep};
    ghost use Rattle.run_engine.specs.PartTasks.{IsReadyPart, IsAdvancedPart};
    ghost use Rattle.run_engine.specs.Sweeps.{IsSwept};
    ghost use Rattle.collector.specs.Collectors.{horizon_of};
    ghost use Rattle.std.specs.Prelude.{◌≡◌};

    ghost ready = { λ w number task. elim task [
      | Work s m ↦ IsReadyPart T.view T.pins T.KIND (J.setting w.job.now) w.memo.now.locks w.shift.now s.tree s.caller s.fresh.items
      | Sweep s ↦ s.collector.caller.locks ≡ w.memo.now.locks
    ] };

    ghost works = { λ w number old new. elim old [
      | Work s m ↦ elim new [ Work t n ↦ IsAdvancedPart T.view T.pins (bound_of T.view T.bound) T.tight T.shaped w.shift.now s.fresh.items s.tree s.caller t.tree t.caller (J.Meter.counts m) (J.Meter.counts n) t.failed | Sweep t ↦ ⊥ ]
      | Sweep s ↦ elim new [ Work t n ↦ ⊥ | Sweep t ↦ IsSwept (horizon_of s.collector.keep w.run) s.collector t.collector t.failed ]
    ] };

    fn work<R: Threads + Wait + Sync>(
        &self,
        rt: &R,
        _number: u64,
        task: &mut Task<PartSeat<J, T>, J::Meter, SweepSeat<MergeRecipe<J>>>,
    ) {
        match task {
            Task::Work(seat, meter) => advance_part(rt, self, seat, meter),
            Task::Sweep(seat) => sweep_all(rt, self.memo, self.run, seat),
        }
    }
}

// Makes the tree's draft for the shift.
fn advance_part<J: Job, T: Tree<J>, W: Wait>(
    rt: &W,
    worker: &PartWorker<'_, J>,
    seat: &mut PartSeat<J, T>,
    meter: &mut J::Meter,
)
    requires { IsReadyPart T.view T.pins T.KIND (J.setting worker.now.job.now) worker.now.memo.now.locks worker.now.shift.now seat.old.tree seat.old.caller seat.old.fresh.items }
    ensures { IsAdvancedPart T.view T.pins (bound_of T.view T.bound) T.tight T.shaped worker.now.shift.now seat.old.fresh.items seat.old.tree seat.old.caller seat.new.tree seat.new.caller (J.Meter.counts meter.old) (J.Meter.counts meter.new) seat.new.failed }
{
    match seat.tree.advance(
        worker.alloc,
        rt,
        worker.memo,
        &mut seat.caller,
        worker.job,
        worker.run,
        worker.shift,
        seat.fresh.as_slice(),
        meter,
    ) {
        Ok(()) => {
            seat.failed = false;
            return;
        }
        Err(_) => {
            seat.failed = true;
            return;
        }
    }
}
