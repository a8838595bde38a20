//! The first phase of a run: lanes bring the leaves that came, on one board with the sweep of their memo.
ghost use Rattle.std.specs.Prelude.{◌≡◌, ◌<◌, ◌≤◌, ◌↔◌, false, [], length, All, IsTrue, IsSome, OnOk, is_err, option_map, slice_index_or};
ghost use Rattle.collector.specs.Collectors.{horizon_of};
ghost use Rattle.job_laws.specs.Meanings.{meaning_of};
ghost use Rattle.record_text.specs.Shifts.{left};
ghost use Rattle.run_engine.specs.Inputs.{texts_of, FitsOld};
ghost use Rattle.run_engine.specs.InPlace.{EachAt, EachPair};
ghost use Rattle.run_engine.specs.LaneTasks.{IsReadyLane, IsWorkedLane};
ghost use Rattle.run_engine.specs.Rows.{OthersStay};
ghost use Rattle.run_engine.specs.Sweeps.{IsSwept, swept_by};
ghost use Rattle.run_engine.specs.Phases.{MayBringAll, IsTriedLane, IsDealtLane, IsBroughtLane, LanesCounted};

use crate::dealing::{deal_fresh, deal_gone};
use crate::inputs::left_inputs;
use crate::lane_seat::LaneSeat;
use crate::lane_worker::LaneWorker;
use crate::row::work_row;
use crate::sweep_seat::SweepSeat;
use job_laws::Job;
use map_tasks::{LeafInput, MapRecipe};
use record_text::Shift;
use slider_io::Gate;
use std::alloc::{AllocError, Global};
use std::sync::Wait;
use std::thread::Threads;

/// Deals the leaves that came and those that leave to their lanes, and runs all lanes and the sweep.
///
/// # Errors
///
/// Out of memory, before the board or in any task of it. The lanes may have brought some of the leaves.
pub(crate) fn bring_fresh<J: Job + Send + Sync, G: Gate, R: Threads + Wait + Sync>(
    rt: &R,
    alloc: Global,
    lanes: &mut Vec<LaneSeat<J>>,
    sweep: &mut Option<SweepSeat<MapRecipe<J>>>,
    leaves: &Vec<LeafInput>,
    shift: &Shift,
    fresh: &Vec<LeafInput>,
    meters: &mut Vec<J::Meter>,
    hands: u32,
    gate: &G,
    worker: &LaneWorker<'_, J>,
) -> Result<(), AllocError>
where
    J::Val: Send + Sync,
    J::Meter: Send + Sync,
    requires lanes { MayBringAll (meaning_of J.Job worker.now.job.now) (J.setting worker.now.job.now) worker.now.parts worker.now.memo.now.locks (texts_of leaves.now.items) shift.now fresh.now.items lanes.old.items }
    requires meters { length lanes.old.items ≤ length meters.old.items }
    requires sweep { IsSome sweep.old × ((swept_by (option_map (λ s. s.collector) sweep.old)).caller.locks ≡ worker.now.memo.now.locks) }
    requires hands { (0 < hands) × (hands ≤ 16) }
    ensures tried { EachPair (λ k s t. IsTriedLane worker.now.parts (J.setting worker.now.job.now) s.lane t.lane) lanes.old.items lanes.new.items }
    ensures ok { OnOk result (EachAt (λ k s. IsBroughtLane (texts_of fresh.now.items) (left [] shift.now (texts_of leaves.now.items)) k s.lane) lanes.new.items) }
    ensures counted { LanesCounted (meaning_of J.Job worker.now.job.now) J.Meter.counts (texts_of leaves.now.items) (texts_of fresh.now.items) meters.old.items meters.new.items }
    ensures sweep { IsSome sweep.new × IsSwept (horizon_of (swept_by (option_map (λ s. s.collector) sweep.old)).keep worker.now.run) (swept_by (option_map (λ s. s.collector) sweep.old)) (swept_by (option_map (λ s. s.collector) sweep.new)) (is_err result) }
{
    match deal_all(alloc, lanes, leaves, shift, fresh) {
        Ok(()) => {}
        Err(e) => return Err(e),
    }
    work_lanes(rt, alloc, lanes, sweep, meters, hands, gate, worker)
}

// Deals the leaves that came and those that leave.
fn deal_all<J: Job>(
    alloc: Global,
    lanes: &mut Vec<LaneSeat<J>>,
    leaves: &Vec<LeafInput>,
    shift: &Shift,
    fresh: &Vec<LeafInput>,
) -> Result<(), AllocError>
    requires count { length lanes.old.items ≡ 16 }
    requires fits { FitsOld shift.now (length leaves.now.items) }
    ensures { EachPair (λ k s t. (t.lane ≡ s.lane) × OnOk result (IsDealtLane fresh.now.items (left [] shift.now (texts_of leaves.now.items)) k s.fresh.items s.gone.items t.fresh.items t.gone.items)) lanes.old.items lanes.new.items }
{
    let gone = match left_inputs(alloc, leaves, shift) {
        Ok(gone) => gone,
        Err(e) => return Err(e),
    };
    match deal_fresh(lanes, fresh) {
        Ok(()) => {}
        Err(e) => return Err(e),
    }
    deal_gone(lanes, &gone)
}

// Runs all lanes and the sweep on one board.
fn work_lanes<J: Job + Send + Sync, G: Gate, R: Threads + Wait + Sync>(
    rt: &R,
    alloc: Global,
    lanes: &mut Vec<LaneSeat<J>>,
    sweep: &mut Option<SweepSeat<MapRecipe<J>>>,
    meters: &mut Vec<J::Meter>,
    hands: u32,
    gate: &G,
    worker: &LaneWorker<'_, J>,
) -> Result<(), AllocError>
where
    J::Val: Send + Sync,
    J::Meter: Send + Sync,
    requires lanes { All (λ s. IsReadyLane (meaning_of J.Job worker.now.job.now) (J.setting worker.now.job.now) worker.now.parts worker.now.memo.now.locks s.lane s.fresh.items s.gone.items) lanes.old.items }
    requires few { length lanes.old.items ≤ 16 }
    requires meters { length lanes.old.items ≤ length meters.old.items }
    requires sweep { IsSome sweep.old × ((swept_by (option_map (λ s. s.collector) sweep.old)).caller.locks ≡ worker.now.memo.now.locks) }
    requires hands { (0 < hands) × (hands ≤ 16) }
    ensures worked { EachPair (λ k s t. (d e : J.Meter) → IsWorkedLane (meaning_of J.Job worker.now.job.now) (J.setting worker.now.job.now) worker.now.parts s.fresh.items s.gone.items s.lane t.lane (J.Meter.counts (slice_index_or meters.old.items k d)) (J.Meter.counts (slice_index_or meters.new.items k e)) (is_err result)) lanes.old.items lanes.new.items }
    ensures others { OthersStay (length lanes.old.items) meters.old.items meters.new.items }
    ensures sweep { IsSome sweep.new × IsSwept (horizon_of (swept_by (option_map (λ s. s.collector) sweep.old)).keep worker.now.run) (swept_by (option_map (λ s. s.collector) sweep.old)) (swept_by (option_map (λ s. s.collector) sweep.new)) (is_err result) }
{
    let last = match sweep.take() {
        Some(last) => last,
        None => unreachable!(),
    };
    let (worked, last) = work_row(rt, alloc, lanes, meters, last, hands, gate, worker);
    let unswept = last.failed;
    *sweep = Some(last);
    match worked {
        Ok(()) => {}
        Err(e) => return Err(e),
    }
    if unswept {
        return Err(AllocError);
    }
    if all_brought(lanes) {
        return Ok(());
    }
    Err(AllocError)
}

// Whether no lane ran out of memory.
fn all_brought<J: Job>(lanes: &Vec<LaneSeat<J>>) -> bool
    ensures { IsTrue result → All (λ s. s.failed ≡ false) lanes.now.items }
{
    'lanes: for i in 0..lanes.len() {
        if lanes[i].failed {
            return false;
        }
    }
    true
}
