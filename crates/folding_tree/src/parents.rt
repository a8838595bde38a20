//! The nodes of a level that are made again: those over changed places below.
ghost use Rattle.std.specs.Prelude.{◌≡◌, ◌-◌, ◌≤◌, IfOk, OnOk};
ghost use Rattle.folding_tree.specs.Levels.{IsFit, IsFirst, IsAdded, AreParents, places_from};
ghost use Rattle.folding_tree.specs.Folding.{row_of, ahead_of};

use crate::draft::Draft;
use crate::level::Level;
use job_laws::Job;
use std::alloc::{AllocError, Global};

/// The places before `mid` of the nodes over changed places, each once.
pub(crate) fn parents_of<J: Job>(
    alloc: Global,
    below: &Level<J>,
    draft: &Draft<J>,
    mid: usize,
) -> Result<Vec<usize>, AllocError>
    requires { IsFit (row_of below.now) (ahead_of draft.now) }
    ensures { IfOk result (λ places. AreParents (row_of below.now) (ahead_of draft.now) mid places.items) }
{
    let mut above = match first_parent(alloc, below, draft, mid) {
        Ok(above) => above,
        Err(e) => return Err(e),
    };
    'places: for i in 0..draft.places.len() {
        match add_parent(&mut above, draft.places[i] / 2, mid) {
            Ok(()) => (),
            Err(e) => return Err(e),
        }
    }
    Ok(above)
}

// The place of the first node, if its left half leaves.
fn first_parent<J: Job>(
    alloc: Global,
    below: &Level<J>,
    draft: &Draft<J>,
    mid: usize,
) -> Result<Vec<usize>, AllocError>
    ensures { IfOk result (λ places. IsFirst (row_of below.now) (ahead_of draft.now) mid places.items) }
{
    let mut above = Vec::new(alloc);
    if draft.from <= below.low || draft.low % 2 == 0 || mid <= draft.low / 2 {
        return Ok(above);
    }
    above.push(draft.low / 2)?;
    Ok(above)
}

// Adds a place, if it is before `mid` and not the last one already.
fn add_parent(above: &mut Vec<usize>, place: usize, mid: usize) -> Result<(), AllocError>
    ensures { OnOk result (IsAdded mid place above.old.items above.new.items) }
{
    if mid <= place {
        return Ok(());
    }
    if let Some(last) = above.last() {
        if *last == place {
            return Ok(());
        }
    }
    above.push(place)?;
    Ok(())
}

/// The places from `low` to `high - 1`.
pub(crate) fn places_between(
    alloc: Global,
    low: usize,
    high: usize,
) -> Result<Vec<usize>, AllocError>
    requires { low ≤ high }
    ensures { IfOk result (λ places. places.items ≡ places_from low (high - low)) }
{
    let mut places = Vec::new(alloc);
    'places: for place in low..high {
        places.push(place)?;
    }
    Ok(places)
}
