//! The lanes, parts and collectors of a new engine are made from the callers of its memos.
ghost use Rattle.std.specs.Prelude.{◌≡◌, ℕ, ◌<◌, ◌≤◌, [], ◌∷◌, ◌++◌, map, vec_len, All, IfOk};
ghost use Rattle.pin_table.specs.Known.{known_at};
ghost use Rattle.tree_laws.specs.Trees.{bare};
ghost use Rattle.run_engine.specs.Engines.{bare_lane};

use crate::lane_seat::LaneSeat;
use crate::part_seat::PartSeat;
use crate::sweep_seat::SweepSeat;
use collector::Collector;
use job_laws::Job;
use map_tasks::{Lane, MapRecipe};
use memo_server::Recipe;
use pin_table::Caller;
use std::alloc::{AllocError, Global};
use tree_laws::{MergeRecipe, Tree};

/// The collector of the last caller, which belongs to no lane and no part.
pub(crate) fn last_sweep<R: Recipe>(callers: &mut Vec<Caller<R>>, keep: u32) -> SweepSeat<R>
    requires { 0 < vec_len callers.old }
    ensures caller { callers.old.items ≡ callers.new.items ++ result.collector.caller ∷ [] }
    ensures keep { result.collector.keep ≡ keep }
{
    match callers.pop() {
        Some(caller) => SweepSeat {
            collector: Collector::new(caller, keep as u64),
            failed: false,
        },
        None => unreachable!(),
    }
}

/// A lane for each of the callers, in their order.
pub(crate) fn lanes_of<J: Job>(
    alloc: Global,
    mut callers: Vec<Caller<MapRecipe<J>>>,
) -> Result<Vec<LaneSeat<J>>, AllocError>
    requires unused { All (λ c. (s : ℕ) → (known_at s c).mine ≡ []) callers.items }
    ensures lanes { IfOk result (λ lanes. map (λ s. s.lane) lanes.items ≡ map bare_lane callers.items) }
    ensures empty { IfOk result (λ lanes. All (λ s. (s.fresh.items ≡ []) × (s.gone.items ≡ [])) lanes.items) }
{
    let mut lanes = Vec::new(alloc);
    'callers: while let Some(caller) = callers.pop() {
        let seat = LaneSeat {
            lane: Lane::new(alloc, caller),
            fresh: Vec::new(alloc),
            gone: Vec::new(alloc),
            failed: false,
        };
        lanes.insert(0, seat)?;
    }
    Ok(lanes)
}

/// A tree without leaves for each of the callers, in their order.
pub(crate) fn parts_of<J: Job, T: Tree<J>>(
    alloc: Global,
    mut callers: Vec<Caller<MergeRecipe<J>>>,
    setting: u32,
    places: u32,
) -> Result<Vec<PartSeat<J, T>>, AllocError>
    requires places { (1 ≤ places) × (places ≤ 4096) }
    ensures callers { IfOk result (λ parts. map (λ s. s.caller) parts.items ≡ callers.items) }
    ensures trees { IfOk result (λ parts. All (λ s. (T.pins s.tree ≡ []) × (T.view s.tree ≡ bare setting places) × (s.fresh.items ≡ [])) parts.items) }
{
    let mut parts = Vec::new(alloc);
    'callers: while let Some(caller) = callers.pop() {
        let seat = PartSeat {
            tree: T::fresh(alloc, setting, places)?,
            caller,
            fresh: Vec::new(alloc),
            failed: false,
        };
        parts.insert(0, seat)?;
    }
    Ok(parts)
}
