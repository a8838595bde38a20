//! Leaves are dealt to the lanes that they belong to.
ghost use Rattle.std.specs.Prelude.{◌≡◌, ◌++◌, ◌∷◌, [], length, OnOk};
ghost use Rattle.run_engine.specs.InPlace.{EachPair};
ghost use Rattle.run_engine.specs.Inputs.{goes_to};

use crate::lane_seat::LaneSeat;
use job_laws::Job;
use map_tasks::{LeafInput, lane_of};
use std::alloc::AllocError;

/// How many lanes there are, whatever the number of workers.
pub(crate) const LANES: u32 = 16;

/// Deals each of the leaves that come to its lane. They are shared, since the lists of a lane are emptied when the run
/// ends.
pub(crate) fn deal_fresh<J: Job>(
    lanes: &mut Vec<LaneSeat<J>>,
    inputs: &Vec<LeafInput>,
) -> Result<(), AllocError>
    requires { length lanes.old.items ≡ 16 }
    ensures { EachPair (λ k s t. (t.lane ≡ s.lane) × (t.gone.items ≡ s.gone.items) × OnOk result (t.fresh.items ≡ s.fresh.items ++ goes_to k inputs.now.items)) lanes.old.items lanes.new.items }
{
    'inputs: for i in 0..inputs.len() {
        match deal_one_fresh(lanes, &inputs[i]) {
            Ok(()) => {}
            Err(e) => return Err(e),
        }
    }
    Ok(())
}

// Deals one leaf that comes to its lane.
fn deal_one_fresh<J: Job>(lanes: &mut Vec<LaneSeat<J>>, input: &LeafInput) -> Result<(), AllocError>
    requires { length lanes.old.items ≡ 16 }
    ensures { EachPair (λ k s t. (t.lane ≡ s.lane) × (t.gone.items ≡ s.gone.items) × OnOk result (t.fresh.items ≡ s.fresh.items ++ goes_to k (input.now ∷ []))) lanes.old.items lanes.new.items }
{
    let input = match input.share() {
        Ok(input) => input,
        Err(e) => return Err(e),
    };
    let lane = lane_of(&input.digest(), LANES) as usize;
    match lanes[lane].fresh.push(input) {
        Ok(()) => return Ok(()),
        Err(_) => return Err(AllocError),
    }
}

/// Deals each of the leaves that leave to its lane.
pub(crate) fn deal_gone<J: Job>(
    lanes: &mut Vec<LaneSeat<J>>,
    inputs: &Vec<LeafInput>,
) -> Result<(), AllocError>
    requires { length lanes.old.items ≡ 16 }
    ensures { EachPair (λ k s t. (t.lane ≡ s.lane) × (t.fresh.items ≡ s.fresh.items) × OnOk result (t.gone.items ≡ s.gone.items ++ goes_to k inputs.now.items)) lanes.old.items lanes.new.items }
{
    'inputs: for i in 0..inputs.len() {
        match deal_one_gone(lanes, &inputs[i]) {
            Ok(()) => {}
            Err(e) => return Err(e),
        }
    }
    Ok(())
}

// Deals one leaf that leaves to its lane.
fn deal_one_gone<J: Job>(lanes: &mut Vec<LaneSeat<J>>, input: &LeafInput) -> Result<(), AllocError>
    requires { length lanes.old.items ≡ 16 }
    ensures { EachPair (λ k s t. (t.lane ≡ s.lane) × (t.fresh.items ≡ s.fresh.items) × OnOk result (t.gone.items ≡ s.gone.items ++ goes_to k (input.now ∷ []))) lanes.old.items lanes.new.items }
{
    let input = match input.share() {
        Ok(input) => input,
        Err(e) => return Err(e),
    };
    let lane = lane_of(&input.digest(), LANES) as usize;
    match lanes[lane].gone.push(input) {
        Ok(()) => return Ok(()),
        Err(_) => return Err(AllocError),
    }
}
