//! The sheets of the leaves that came go from the lanes to the parts.
ghost use Rattle.std.specs.Prelude.{◌≡◌, ◌+◌, ◌≤◌, ◌++◌, length, map, OnOk};
ghost use Rattle.map_tasks.specs.Leaves.{sheet_for};
ghost use Rattle.run_engine.specs.InPlace.{EachPair};
ghost use Rattle.run_engine.specs.Handing.{HoldEach};

use crate::dealing::LANES;
use crate::lane_seat::LaneSeat;
use crate::part_seat::PartSeat;
use job_laws::Job;
use map_tasks::{LeafInput, lane_of};
use sheets::Sheet;
use std::alloc::AllocError;
use tree_laws::Tree;

/// Gives each part the sheets of these leaves, in their order, shared.
pub(crate) fn hand_sheets<J: Job, T: Tree<J>>(
    lanes: &Vec<LaneSeat<J>>,
    inputs: &Vec<LeafInput>,
    parts: &mut Vec<PartSeat<J, T>>,
) -> Result<(), AllocError>
    requires held { HoldEach (length parts.old.items) inputs.now.items (map (λ s. s.lane) lanes.now.items) }
    requires few { length parts.old.items ≤ 16 }
    ensures { EachPair (λ p s t. (t.tree ≡ s.tree) × (t.caller ≡ s.caller) × OnOk result (t.fresh.items ≡ s.fresh.items ++ map (λ i. sheet_for J.Job i p) inputs.now.items)) parts.old.items parts.new.items }
{
    'parts: for part in 0..parts.len() {
        match push_sheets(lanes, inputs, part as u32, &mut parts[part].fresh) {
            Ok(()) => {}
            Err(e) => return Err(e),
        }
    }
    Ok(())
}

// Adds the sheets of a part.
fn push_sheets<J: Job>(
    lanes: &Vec<LaneSeat<J>>,
    inputs: &Vec<LeafInput>,
    part: u32,
    sheets: &mut Vec<Sheet<J>>,
) -> Result<(), AllocError>
    requires { HoldEach (part + 1) inputs.now.items (map (λ s. s.lane) lanes.now.items) }
    ensures { OnOk result (sheets.new.items ≡ sheets.old.items ++ map (λ i. sheet_for J.Job i part) inputs.now.items) }
{
    'inputs: for i in 0..inputs.len() {
        let input = &inputs[i];
        let lane = lane_of(&input.digest(), LANES) as usize;
        let sheet = lanes[lane].lane.sheet_of(input, part)?;
        sheets.push(sheet)?;
    }
    Ok(())
}
