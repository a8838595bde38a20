//! Both phases of a run, one after the other. Nothing of them is final yet.
ghost use Rattle.std.specs.Prelude.{◌≡◌, ◌+◌, ◌<◌, ◌≤◌, [], length, map, vec_len, vec_capacity, IsSome, IfOk, OnOk, is_err, option_map};
ghost use Rattle.collector.specs.Collectors.{horizon_of};
ghost use Rattle.job_laws.specs.Meanings.{meaning_of};
ghost use Rattle.record_text.specs.Shifts.{left};
ghost use Rattle.window_manager.specs.Views.{shift_of};
ghost use Rattle.window_manager.specs.Since.{fresh_leaves};
ghost use Rattle.tree_laws.specs.Trees.{bound_of};
ghost use Rattle.run_engine.specs.InPlace.{EachAt, EachPair};
ghost use Rattle.run_engine.specs.Inputs.{texts_of, input_for};
ghost use Rattle.run_engine.specs.Sweeps.{IsSwept, swept_by};
ghost use Rattle.run_engine.specs.Phases.{MayBringAll, MayTakeAll, IsTriedLane, IsBroughtLane, LanesCounted, IsTriedPart, IsShiftedPart, PartsCounted};

use crate::advancing::take_shift;
use crate::bringing::bring_fresh;
use crate::inputs::fresh_for;
use crate::lane_seat::LaneSeat;
use crate::lane_worker::LaneWorker;
use crate::part_seat::PartSeat;
use crate::part_worker::PartWorker;
use crate::sweep_seat::SweepSeat;
use job_laws::Job;
use map_tasks::{LeafInput, MapRecipe};
use pin_table::Memo;
use slider_io::Gate;
use std::alloc::{AllocError, Global};
use std::sync::Wait;
use std::thread::Threads;
use tree_laws::{MergeRecipe, Tree};
use window_manager::Window;

/// Runs the lanes, which bring the leaves that came, then the trees, which take the shift as their drafts. It returns
/// the inputs of these leaves, for which it made room after the others.
///
/// # Errors
///
/// Out of memory. Some of the lanes and trees may have done their task.
pub(crate) fn work_phases<
    J: Job + Send + Sync,
    T: Tree<J> + Send,
    G: Gate,
    R: Threads + Wait + Sync,
>(
    rt: &R,
    alloc: Global,
    window: &Window,
    job: &J,
    run: u64,
    count: u32,
    leaves: &mut Vec<LeafInput>,
    leaf_memo: &Memo<MapRecipe<J>>,
    merge_memo: &Memo<MergeRecipe<J>>,
    lanes: &mut Vec<LaneSeat<J>>,
    parts: &mut Vec<PartSeat<J, T>>,
    leaf_sweep: &mut Option<SweepSeat<MapRecipe<J>>>,
    merge_sweep: &mut Option<SweepSeat<MergeRecipe<J>>>,
    lane_meters: &mut Vec<J::Meter>,
    part_meters: &mut Vec<J::Meter>,
    hands: u32,
    gate: &G,
) -> Result<Vec<LeafInput>, AllocError>
where
    J::Val: Send + Sync,
    J::Meter: Send + Sync,
    requires count { count ≡ length parts.old.items }
    requires few { length parts.old.items ≤ 16 }
    requires lanes { MayBringAll (meaning_of J.Job job.now) (J.setting job.now) count leaf_memo.now.locks (texts_of leaves.old.items) (shift_of window.now) (map (input_for count (J.setting job.now)) (fresh_leaves window.now)) lanes.old.items }
    requires parts { MayTakeAll T.view T.pins (J.setting job.now) count T.KIND merge_memo.now.locks (shift_of window.now) (map (input_for count (J.setting job.now)) (fresh_leaves window.now)) parts.old.items }
    requires lane_meters { length lanes.old.items ≤ length lane_meters.old.items }
    requires part_meters { length parts.old.items ≤ length part_meters.old.items }
    requires leaf_sweep { IsSome leaf_sweep.old × ((swept_by (option_map (λ s. s.collector) leaf_sweep.old)).caller.locks ≡ leaf_memo.now.locks) }
    requires merge_sweep { IsSome merge_sweep.old × ((swept_by (option_map (λ s. s.collector) merge_sweep.old)).caller.locks ≡ merge_memo.now.locks) }
    requires hands { (0 < hands) × (hands ≤ 16) }
    ensures same { leaves.new.items ≡ leaves.old.items }
    ensures lanes { EachPair (λ k s t. IsTriedLane count (J.setting job.now) s.lane t.lane) lanes.old.items lanes.new.items }
    ensures parts { EachPair (λ p s t. IsTriedPart T.view T.pins s.tree s.caller t.tree t.caller) parts.old.items parts.new.items }
    ensures fresh { IfOk result (λ v. v.items ≡ map (input_for count (J.setting job.now)) (fresh_leaves window.now)) }
    ensures room { IfOk result (λ v. vec_len leaves.new + vec_len v ≤ vec_capacity leaves.new) }
    ensures brought { OnOk result (EachAt (λ k s. IsBroughtLane (fresh_leaves window.now) (left [] (shift_of window.now) (texts_of leaves.old.items)) k s.lane) lanes.new.items) }
    ensures took { OnOk result (EachPair (λ p s t. IsShiftedPart T.view (meaning_of J.Job job.now) count T.shaped (shift_of window.now) (fresh_leaves window.now) p s.tree t.tree) parts.old.items parts.new.items) }
    ensures lanes_counted { LanesCounted (meaning_of J.Job job.now) J.Meter.counts (texts_of leaves.old.items) (fresh_leaves window.now) lane_meters.old.items lane_meters.new.items }
    ensures parts_counted { PartsCounted T.view J.Meter.counts (meaning_of J.Job job.now) count (bound_of T.view T.bound) T.tight (shift_of window.now) (fresh_leaves window.now) parts.old.items parts.new.items part_meters.old.items part_meters.new.items }
    ensures leaf_sweep { IsSome leaf_sweep.new × IsSwept (horizon_of (swept_by (option_map (λ s. s.collector) leaf_sweep.old)).keep run) (swept_by (option_map (λ s. s.collector) leaf_sweep.old)) (swept_by (option_map (λ s. s.collector) leaf_sweep.new)) (is_err result) }
    ensures merge_sweep { IsSome merge_sweep.new × IsSwept (horizon_of (swept_by (option_map (λ s. s.collector) merge_sweep.old)).keep run) (swept_by (option_map (λ s. s.collector) merge_sweep.old)) (swept_by (option_map (λ s. s.collector) merge_sweep.new)) (is_err result) }
{
    let fresh = match fresh_for(alloc, window, leaves, count, job.setting()) {
        Ok(fresh) => fresh,
        Err(e) => return Err(e),
    };
    let shift = window.shift();
    let worker = LaneWorker {
        memo: leaf_memo,
        job,
        run,
        parts: count,
    };
    match bring_fresh(
        rt,
        alloc,
        lanes,
        leaf_sweep,
        leaves,
        shift,
        &fresh,
        lane_meters,
        hands,
        gate,
        &worker,
    ) {
        Ok(()) => {}
        Err(e) => return Err(e),
    }
    let worker = PartWorker {
        alloc,
        memo: merge_memo,
        job,
        run,
        shift,
    };
    match take_shift(
        rt,
        alloc,
        lanes,
        parts,
        merge_sweep,
        &fresh,
        part_meters,
        hands,
        gate,
        &worker,
    ) {
        Ok(()) => return Ok(fresh),
        Err(e) => return Err(e),
    }
}
