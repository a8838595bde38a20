//! The second phase of a run: the tree of each part takes the shift, on one board with the sweep of the trees' memo.
ghost use Rattle.std.specs.Prelude.{◌≡◌, ◌<◌, ◌≤◌, false, length, map, All, IsTrue, IsSome, OnOk, is_err, option_map, slice_index_or};
ghost use Rattle.collector.specs.Collectors.{horizon_of};
ghost use Rattle.job_laws.specs.Meanings.{meaning_of};
ghost use Rattle.tree_laws.specs.Trees.{bound_of};
ghost use Rattle.run_engine.specs.Inputs.{texts_of};
ghost use Rattle.run_engine.specs.InPlace.{EachPair};
ghost use Rattle.run_engine.specs.Handing.{HoldEach};
ghost use Rattle.run_engine.specs.PartTasks.{IsReadyPart, IsAdvancedPart};
ghost use Rattle.run_engine.specs.Rows.{OthersStay};
ghost use Rattle.run_engine.specs.Sweeps.{IsSwept, swept_by};
ghost use Rattle.run_engine.specs.Phases.{MayTakeAll, IsTriedPart, IsShiftedPart, PartsCounted};

use crate::handing::hand_sheets;
use crate::lane_seat::LaneSeat;
use crate::part_seat::PartSeat;
use crate::part_worker::PartWorker;
use crate::row::work_row;
use crate::sweep_seat::SweepSeat;
use job_laws::Job;
use map_tasks::LeafInput;
use slider_io::Gate;
use std::alloc::{AllocError, Global};
use std::sync::Wait;
use std::thread::Threads;
use tree_laws::{MergeRecipe, Tree};

/// Gives the sheets of the leaves that came to the parts, and runs all parts and the sweep.
///
/// # Errors
///
/// Out of memory, before the board or in any task of it. Some of the trees may have a draft.
pub(crate) fn take_shift<
    J: Job + Send + Sync,
    T: Tree<J> + Send,
    G: Gate,
    R: Threads + Wait + Sync,
>(
    rt: &R,
    alloc: Global,
    lanes: &Vec<LaneSeat<J>>,
    parts: &mut Vec<PartSeat<J, T>>,
    sweep: &mut Option<SweepSeat<MergeRecipe<J>>>,
    fresh: &Vec<LeafInput>,
    meters: &mut Vec<J::Meter>,
    hands: u32,
    gate: &G,
    worker: &PartWorker<'_, J>,
) -> Result<(), AllocError>
where
    J::Val: Send + Sync,
    J::Meter: Send + Sync,
    requires parts { MayTakeAll T.view T.pins (J.setting worker.now.job.now) (length parts.old.items) T.KIND worker.now.memo.now.locks worker.now.shift.now fresh.now.items parts.old.items }
    requires few { length parts.old.items ≤ 16 }
    requires held { HoldEach (length parts.old.items) fresh.now.items (map (λ s. s.lane) lanes.now.items) }
    requires meters { length parts.old.items ≤ length meters.old.items }
    requires sweep { IsSome sweep.old × ((swept_by (option_map (λ s. s.collector) sweep.old)).caller.locks ≡ worker.now.memo.now.locks) }
    requires hands { (0 < hands) × (hands ≤ 16) }
    ensures tried { EachPair (λ p s t. IsTriedPart T.view T.pins s.tree s.caller t.tree t.caller) parts.old.items parts.new.items }
    ensures ok { OnOk result (EachPair (λ p s t. IsShiftedPart T.view (meaning_of J.Job worker.now.job.now) (length parts.old.items) T.shaped worker.now.shift.now (texts_of fresh.now.items) p s.tree t.tree) parts.old.items parts.new.items) }
    ensures counted { PartsCounted T.view J.Meter.counts (meaning_of J.Job worker.now.job.now) (length parts.old.items) (bound_of T.view T.bound) T.tight worker.now.shift.now (texts_of fresh.now.items) parts.old.items parts.new.items meters.old.items meters.new.items }
    ensures sweep { IsSome sweep.new × IsSwept (horizon_of (swept_by (option_map (λ s. s.collector) sweep.old)).keep worker.now.run) (swept_by (option_map (λ s. s.collector) sweep.old)) (swept_by (option_map (λ s. s.collector) sweep.new)) (is_err result) }
{
    match hand_sheets(lanes, fresh, parts) {
        Ok(()) => {}
        Err(e) => return Err(e),
    }
    work_parts(rt, alloc, parts, sweep, meters, hands, gate, worker)
}

// Runs all parts and the sweep on one board.
fn work_parts<J: Job + Send + Sync, T: Tree<J> + Send, G: Gate, R: Threads + Wait + Sync>(
    rt: &R,
    alloc: Global,
    parts: &mut Vec<PartSeat<J, T>>,
    sweep: &mut Option<SweepSeat<MergeRecipe<J>>>,
    meters: &mut Vec<J::Meter>,
    hands: u32,
    gate: &G,
    worker: &PartWorker<'_, J>,
) -> Result<(), AllocError>
where
    J::Val: Send + Sync,
    J::Meter: Send + Sync,
    requires parts { All (λ s. IsReadyPart T.view T.pins T.KIND (J.setting worker.now.job.now) worker.now.memo.now.locks worker.now.shift.now s.tree s.caller s.fresh.items) parts.old.items }
    requires few { length parts.old.items ≤ 16 }
    requires meters { length parts.old.items ≤ length meters.old.items }
    requires sweep { IsSome sweep.old × ((swept_by (option_map (λ s. s.collector) sweep.old)).caller.locks ≡ worker.now.memo.now.locks) }
    requires hands { (0 < hands) × (hands ≤ 16) }
    ensures worked { EachPair (λ p s t. (d e : J.Meter) → IsAdvancedPart T.view T.pins (bound_of T.view T.bound) T.tight T.shaped worker.now.shift.now s.fresh.items s.tree s.caller t.tree t.caller (J.Meter.counts (slice_index_or meters.old.items p d)) (J.Meter.counts (slice_index_or meters.new.items p e)) (is_err result)) parts.old.items parts.new.items }
    ensures others { OthersStay (length parts.old.items) meters.old.items meters.new.items }
    ensures sweep { IsSome sweep.new × IsSwept (horizon_of (swept_by (option_map (λ s. s.collector) sweep.old)).keep worker.now.run) (swept_by (option_map (λ s. s.collector) sweep.old)) (swept_by (option_map (λ s. s.collector) sweep.new)) (is_err result) }
{
    let last = match sweep.take() {
        Some(last) => last,
        None => unreachable!(),
    };
    let (worked, last) = work_row(rt, alloc, parts, meters, last, hands, gate, worker);
    let unswept = last.failed;
    *sweep = Some(last);
    match worked {
        Ok(()) => {}
        Err(e) => return Err(e),
    }
    if unswept {
        return Err(AllocError);
    }
    if all_advanced(parts) {
        return Ok(());
    }
    Err(AllocError)
}

// Whether no tree ran out of memory.
fn all_advanced<J: Job, T: Tree<J>>(parts: &Vec<PartSeat<J, T>>) -> bool
    ensures { IsTrue result → All (λ s. s.failed ≡ false) parts.now.items }
{
    'parts: for i in 0..parts.len() {
        if parts[i].failed {
            return false;
        }
    }
    true
}
