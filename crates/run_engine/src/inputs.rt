//! The leaves that a shift brings and takes away, as inputs of lanes. No text is copied; a text is hashed once, when
//! its leaf comes.
ghost use Rattle.std.specs.Prelude.{◌≡◌, ◌+◌, ◌-◌, ◌<◌, ◌≤◌, [], ◌++◌, length, map, take, drop, vec_len, vec_capacity, All, IfOk, OnOk, slice_index_or};
ghost use Rattle.record_text.specs.Shifts.{left};
ghost use Rattle.window_manager.specs.Since.{fresh_leaves};
ghost use Rattle.run_engine.specs.Inputs.{texts_of, input_for, FitsOld};

use map_tasks::LeafInput;
use record_text::{Places, Shift};
use std::alloc::{AllocError, Global};
use window_manager::Window;

/// The leaves that the window's shift brings, those at its places first. Makes room for them after the present ones.
pub(crate) fn fresh_for(
    alloc: Global,
    window: &Window,
    leaves: &mut Vec<LeafInput>,
    parts: u32,
    setting: u32,
) -> Result<Vec<LeafInput>, AllocError>
    ensures same { leaves.new.items ≡ leaves.old.items }
    ensures fresh { IfOk result (λ v. v.items ≡ map (input_for parts setting) (fresh_leaves window.now)) }
    ensures room { IfOk result (λ v. vec_len leaves.new + vec_len v ≤ vec_capacity leaves.new) }
{
    let fresh = match fresh_inputs(alloc, window, parts, setting) {
        Ok(fresh) => fresh,
        Err(e) => return Err(e),
    };
    match leaves.reserve(fresh.len()) {
        Ok(()) => {}
        Err(e) => return Err(e),
    }
    Ok(fresh)
}

// The leaves that the window's shift brings, those at its places first.
fn fresh_inputs(
    alloc: Global,
    window: &Window,
    parts: u32,
    setting: u32,
) -> Result<Vec<LeafInput>, AllocError>
    ensures { IfOk result (λ v. v.items ≡ map (input_for parts setting) (fresh_leaves window.now)) }
{
    let mut inputs = Vec::new(alloc);
    let count = window.leaf_count();
    match window.shift() {
        Shift::Slide {
            first: _,
            gone: _,
            places,
            fresh,
        } => {
            push_places(window, places, parts, setting, &mut inputs)?;
            push_leaves(window, count - *fresh, count, parts, setting, &mut inputs)?;
        }
        Shift::Splice {
            first,
            gone: _,
            fresh,
        } => push_leaves(window, *first, *first + *fresh, parts, setting, &mut inputs)?,
    }
    Ok(inputs)
}

// Adds the leaves of the window from one place up to another.
fn push_leaves(
    window: &Window,
    from: usize,
    to: usize,
    parts: u32,
    setting: u32,
    inputs: &mut Vec<LeafInput>,
) -> Result<(), AllocError>
    requires { (from ≤ to) × (to ≤ length window.now.window.leaves) }
    ensures { OnOk result (inputs.new.items ≡ inputs.old.items ++ map (input_for parts setting) (take (to - from) (drop from window.now.window.leaves))) }
{
    'leaves: for i in from..to {
        let bundle = window.leaf(i).share()?;
        inputs.push(LeafInput::new(bundle, parts, setting))?;
    }
    Ok(())
}

// Adds the leaves of the window at these places.
fn push_places(
    window: &Window,
    places: &Places,
    parts: u32,
    setting: u32,
    inputs: &mut Vec<LeafInput>,
) -> Result<(), AllocError>
    requires { All (λ p. p < length window.now.window.leaves) places.now }
    ensures { OnOk result (inputs.new.items ≡ inputs.old.items ++ map (λ p. input_for parts setting (slice_index_or window.now.window.leaves p [])) places.now) }
{
    'places: for i in 0..places.len() {
        let bundle = window.leaf(places.get(i)).share()?;
        inputs.push(LeafInput::new(bundle, parts, setting))?;
    }
    Ok(())
}

/// The leaves that the shift takes away from these.
pub(crate) fn left_inputs(
    alloc: Global,
    leaves: &Vec<LeafInput>,
    shift: &Shift,
) -> Result<Vec<LeafInput>, AllocError>
    requires { FitsOld shift.now (length leaves.now.items) }
    ensures { IfOk result (λ v. texts_of v.items ≡ left [] shift.now (texts_of leaves.now.items)) }
{
    let mut inputs = Vec::new(alloc);
    match shift {
        Shift::Slide {
            first: _,
            gone,
            places,
            fresh: _,
        } => {
            share_span(leaves, 0, *gone, &mut inputs)?;
            share_places(leaves, *gone, places, &mut inputs)?;
        }
        Shift::Splice {
            first,
            gone,
            fresh: _,
        } => share_span(leaves, *first, *first + *gone, &mut inputs)?,
    }
    Ok(inputs)
}

// Adds the leaves from one place up to another, shared.
fn share_span(
    leaves: &Vec<LeafInput>,
    from: usize,
    to: usize,
    inputs: &mut Vec<LeafInput>,
) -> Result<(), AllocError>
    requires { (from ≤ to) × (to ≤ length leaves.now.items) }
    ensures { OnOk result (inputs.new.items ≡ inputs.old.items ++ take (to - from) (drop from leaves.now.items)) }
{
    'leaves: for i in from..to {
        inputs.push(leaves[i].share()?)?;
    }
    Ok(())
}

// Adds the leaves at these places after a place, shared.
fn share_places(
    leaves: &Vec<LeafInput>,
    behind: usize,
    places: &Places,
    inputs: &mut Vec<LeafInput>,
) -> Result<(), AllocError>
    requires { All (λ p. behind + p < length leaves.now.items) places.now }
    ensures { OnOk result (texts_of inputs.new.items ≡ texts_of inputs.old.items ++ map (λ p. slice_index_or (texts_of leaves.now.items) (behind + p) []) places.now) }
{
    'places: for i in 0..places.len() {
        inputs.push(leaves[behind + places.get(i)].share()?)?;
    }
    Ok(())
}
