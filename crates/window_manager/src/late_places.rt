//! Which old buckets gained records since the last run, as rising places, which are lowered when the oldest buckets
//! leave.
ghost use Rattle.std.specs.Prelude.{◌≡◌, ◌++◌, ◌<◌, All, nat_lt, IfOk, OnOk};
ghost use Rattle.std.specs.List.{filter};
ghost use Rattle.window_manager.specs.Slides.{lowered, with_place};

use record_text::Places;
use std::alloc::{AllocError, Global};

/// The places once `by` leaves have left.
pub fn lower(alloc: Global, places: &Places, by: usize) -> Result<Places, AllocError>
    ensures { IfOk result (λ left. left ≡ lowered by places.now) }
{
    let mut left = Places::new(alloc);
    'places: for i in 0..places.len() {
        let place = places.get(i);
        if by <= place {
            left.push(place - by)?;
        }
    }
    Ok(left)
}

/// The places below one.
fn places_below(alloc: Global, places: &Places, place: usize) -> Result<Places, AllocError>
    ensures below { IfOk result (λ below. below ≡ filter (λ p. nat_lt p place) places.now) }
    ensures all { IfOk result (All (λ p. p < place)) }
{
    let mut below = Places::new(alloc);
    'places: for i in 0..places.len() {
        let other = places.get(i);
        if other < place {
            below.push(other)?;
        }
    }
    Ok(below)
}

/// The places with one more inserted.
pub fn add_place(alloc: Global, places: &Places, place: usize) -> Result<Places, AllocError>
    ensures { IfOk result (λ more. more ≡ with_place place places.now) }
{
    let mut more = places_below(alloc, places, place)?;
    more.push(place)?;
    'places: for i in 0..places.len() {
        let other = places.get(i);
        if place < other {
            more.push(other)?;
        }
    }
    Ok(more)
}
