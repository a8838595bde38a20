//! A lane's task: it brings the leaves that came, then notes those that leave.
ghost use Rattle.std.specs.Prelude.{◌≡◌, ◌<◌, ◌≤◌, ℕ, [], length, All, OnOk};
ghost use Rattle.collector.specs.Collectors.{horizon_of};
ghost use Rattle.job_laws.specs.Meanings.{meaning_of};
ghost use Rattle.run_engine.specs.LaneTasks.{IsReadyLane, IsWorkedLane, IsBroughtBy, MayBring, MayLeave, IsLeftBy};

use crate::lane_seat::LaneSeat;
use crate::sweep_seat::{SweepSeat, sweep_all};
use crate::task::Task;
use job_laws::Job;
use map_tasks::{Lane, LeafInput, MapRecipe};
use pin_table::Memo;
use std::alloc::AllocError;
use std::sync::Wait;
use std::thread::Threads;
use worker_claims::Worker;

/// Does the tasks of lanes, and the sweep of their memo, for one run.
#[derive(Drop)]
pub(crate) struct LaneWorker<'a, J: Job> {
    pub memo: &'a Memo<MapRecipe<J>>,
    pub job: &'a J,
    pub run: u64,
    pub parts: u32,
}

impl<'a, J: Job + Send + Sync> Worker<Task<LaneSeat<J>, J::Meter, SweepSeat<MapRecipe<J>>>>
    for LaneWorker<'a, J>
where
    J::Val: Send + Sync,
    J::Meter: Send + Sync,
{
    ghost use Rattle.std.specs.Prelude.{◌≡◌};
    ghost use Rattle.run_engine.specs.declared.task.Task.TheVariants.{Work, Sweep};
    ghost use Rattle.run_engine.specs.LaneTasks.{IsReadyLane, IsWorkedLane};
    ghost use Rattle.run_engine.specs.Sweeps.{IsSwept};
    ghost use Rattle.collector.specs.Collectors.{horizon_of};
    ghost use Rattle.job_laws.specs.Meanings.{meaning_of};

    ghost ready = { λ w number task. elim task [
      | Work s m ↦ IsReadyLane (meaning_of J.Job w.job.now) (J.setting w.job.now) w.parts w.memo.now.locks s.lane s.fresh.items s.gone.items
      | Sweep s ↦ s.collector.caller.locks ≡ w.memo.now.locks
    ] };

    ghost works = { λ w number old new. elim old [
      | Work s m ↦ elim new [ Work t n ↦ IsWorkedLane (meaning_of J.Job w.job.now) (J.setting w.job.now) w.parts s.fresh.items s.gone.items s.lane t.lane (J.Meter.counts m) (J.Meter.counts n) t.failed | Sweep t ↦ ⊥ ]
      | Sweep s ↦ elim new [ Work t n ↦ ⊥ | Sweep t ↦ IsSwept (horizon_of s.collector.keep w.run) s.collector t.collector t.failed ]
    ] };

    fn work<R: Threads + Wait + Sync>(
        &self,
        rt: &R,
        _number: u64,
        task: &mut Task<LaneSeat<J>, J::Meter, SweepSeat<MapRecipe<J>>>,
    ) {
        match task {
            Task::Work(seat, meter) => work_lane(rt, self, seat, meter),
            Task::Sweep(seat) => sweep_all(rt, self.memo, self.run, seat),
        }
    }
}

// Brings the leaves that came and notes those that leave. Out of memory, nothing is noted.
fn work_lane<J: Job, W: Wait>(
    rt: &W,
    worker: &LaneWorker<'_, J>,
    seat: &mut LaneSeat<J>,
    meter: &mut J::Meter,
)
    requires { IsReadyLane (meaning_of J.Job worker.now.job.now) (J.setting worker.now.job.now) worker.now.parts worker.now.memo.now.locks seat.old.lane seat.old.fresh.items seat.old.gone.items }
    ensures { IsWorkedLane (meaning_of J.Job worker.now.job.now) (J.setting worker.now.job.now) worker.now.parts seat.old.fresh.items seat.old.gone.items seat.old.lane seat.new.lane (J.Meter.counts meter.old) (J.Meter.counts meter.new) seat.new.failed }
{
    match bring_each(rt, worker, &mut seat.lane, &seat.fresh, meter) {
        Ok(()) => {
            leave_each(&mut seat.lane, &seat.gone);
            seat.failed = false;
            return;
        }
        Err(_) => {
            seat.failed = true;
            return;
        }
    }
}

// Brings each of these leaves.
fn bring_each<J: Job, W: Wait>(
    rt: &W,
    worker: &LaneWorker<'_, J>,
    lane: &mut Lane<J>,
    fresh: &Vec<LeafInput>,
    meter: &mut J::Meter,
) -> Result<(), AllocError>
    requires { MayBring (meaning_of J.Job worker.now.job.now) (J.setting worker.now.job.now) worker.now.parts worker.now.memo.now.locks lane.old fresh.now.items }
    ensures { IsBroughtBy (meaning_of J.Job worker.now.job.now) (J.setting worker.now.job.now) worker.now.parts fresh.now.items lane.old lane.new (J.Meter.counts meter.old) (J.Meter.counts meter.new) result }
{
    'fresh: for i in 0..fresh.len() {
        match lane.bring_input(rt, worker.memo, worker.job, worker.run, &fresh[i], meter) {
            Ok(_) => {}
            Err(e) => return Err(e),
        }
    }
    Ok(())
}

// Notes the departure of each of these leaves.
fn leave_each<J: Job>(lane: &mut Lane<J>, gone: &Vec<LeafInput>)
    requires { MayLeave lane.old gone.now.items }
    ensures { IsLeftBy gone.now.items lane.old lane.new }
{
    'gone: for i in 0..gone.len() {
        lane.leave_input(&gone[i]);
    }
}
