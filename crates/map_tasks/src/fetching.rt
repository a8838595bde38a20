//! The leaf of a text that a lane does not hold: from the memo, or mapped and kept there.
ghost use Rattle.std.specs.Prelude.{◌≡◌, ◌≤◌, ◌<◌, length, IfOk, OnOk, All};
ghost use Rattle.definitions.specs.Answer.{pairs_of};
ghost use Rattle.job_laws.specs.Counted.{RoseBy};
ghost use Rattle.job_laws.specs.Meanings.{AllAccepted, meaning_of};
ghost use Rattle.pin_table.specs.Covers.{Got, AreGiven};
ghost use Rattle.pin_table.specs.OwnEvents.{gained};
ghost use Rattle.map_tasks.specs.Inputs.{input_digest};
ghost use Rattle.map_tasks.specs.Leaves.{AreSheetsOf};
ghost use Rattle.map_tasks.specs.Texts.{maybe_pins, digest_of_input};
ghost use Rattle.map_tasks.specs.Lanes.{LookedFirst, KeptOrClashed};

use crate::brought::Brought;
use crate::leaf::Leaf;
use crate::leaf_input::LeafInput;
use crate::map_recipe::{MapRecipe, share_all};
use job_laws::{Job, Meter};
use pin_table::{Caller, KeepRefused, Kept, Looked, Memo, MemoFault};
use sheets::{Sheet, map_sheets};
use std::alloc::{AllocError, Global};
use std::sync::Wait;

/// The leaf of an input, through the memo: with a new pin, or without one if an entry of another input has its digest
/// or the shard's lock is worn. It maps the records if the memo has no entry of the input. It may block.
pub(crate) fn fetch<J: Job, W: Wait>(
    alloc: Global,
    rt: &W,
    memo: &Memo<MapRecipe<J>>,
    caller: &mut Caller<MapRecipe<J>>,
    job: &J,
    run: u64,
    input: &LeafInput,
    m: &mut J::Meter,
) -> Brought<J>
    requires of { caller.old.locks ≡ memo.now.locks }
    requires accepted { AllAccepted (meaning_of J.Job job.now) input.now.text }
    requires parts { (1 ≤ input.now.parts) × (input.now.parts ≤ 16) }
    requires setting { input.now.setting ≡ J.setting job.now }
    ensures leaf { IfOk result.leaf (λ l. l ≡ input.now) }
    ensures pin { All (λ p. p.digest ≡ digest_of_input input.now) (maybe_pins result.pin) }
    ensures got { Got caller.old (maybe_pins result.pin) caller.new }
    ensures given { AreGiven caller.new (maybe_pins result.pin) }
    ensures kept { OnOk result.leaf (KeptOrClashed (input_digest input.now.text) caller.old caller.new) }
    ensures looked { (J.Meter.counts m.old).maps < (J.Meter.counts m.new).maps → LookedFirst (input_digest input.now.text) caller.old caller.new }
    ensures counted { RoseBy (length input.now.text) 0 (length (pairs_of (J.emits (J.setting job.now)) input.now.text)) (J.Meter.counts m.old) (J.Meter.counts m.new) }
{
    let _ = caller.number();
    match memo.look(rt, caller, run, input) {
        Ok(Looked::Hit(pin)) => {
            let leaf = shared_leaf(alloc, input, pin.out().as_slice());
            return Brought {
                leaf,
                pin: Some(pin),
            };
        }
        Ok(Looked::Absent) => {
            return map_and_keep(alloc, rt, memo, caller, job, run, input, m);
        }
        Ok(Looked::Clash(_)) => {
            let leaf = mapped_leaf(alloc, job, input, m);
            return Brought { leaf, pin: None };
        }
        Err(MemoFault::Worn { ticket: _ }) => {
            let leaf = mapped_leaf(alloc, job, input, m);
            return Brought { leaf, pin: None };
        }
        Err(MemoFault::Mem) => {
            return Brought {
                leaf: Err(AllocError),
                pin: None,
            };
        }
    }
}

// A leaf with shares of these sheets.
fn shared_leaf<J: Job>(
    alloc: Global,
    input: &LeafInput,
    sheets: &[Sheet<J>],
) -> Result<Leaf<J>, AllocError>
    requires { AreSheetsOf J.Job input.now sheets.now }
    ensures { IfOk result (λ l. l ≡ input.now) }
{
    let sheets = share_all::<J>(alloc, sheets)?;
    let input = input.share()?;
    Leaf::new(alloc, input, sheets)
}

// Maps the leaf of an input.
fn mapped_leaf<J: Job>(
    alloc: Global,
    job: &J,
    input: &LeafInput,
    m: &mut J::Meter,
) -> Result<Leaf<J>, AllocError>
    requires accepted { AllAccepted (meaning_of J.Job job.now) input.now.text }
    requires parts { (1 ≤ input.now.parts) × (input.now.parts ≤ 16) }
    requires setting { input.now.setting ≡ J.setting job.now }
    ensures leaf { IfOk result (λ l. l ≡ input.now) }
    ensures counted { RoseBy (length input.now.text) 0 (length (pairs_of (J.emits (J.setting job.now)) input.now.text)) (J.Meter.counts m.old) (J.Meter.counts m.new) }
{
    let sheets = map_sheets(alloc, job, input.bundle().records(), input.parts(), m)?;
    let input = input.share()?;
    Leaf::new(alloc, input, sheets)
}

// Maps the records and keeps their sheets, of which the leaf has shares.
fn map_and_keep<J: Job, W: Wait>(
    alloc: Global,
    rt: &W,
    memo: &Memo<MapRecipe<J>>,
    caller: &mut Caller<MapRecipe<J>>,
    job: &J,
    run: u64,
    input: &LeafInput,
    m: &mut J::Meter,
) -> Brought<J>
    requires of { caller.old.locks ≡ memo.now.locks }
    requires accepted { AllAccepted (meaning_of J.Job job.now) input.now.text }
    requires parts { (1 ≤ input.now.parts) × (input.now.parts ≤ 16) }
    requires setting { input.now.setting ≡ J.setting job.now }
    ensures leaf { IfOk result.leaf (λ l. l ≡ input.now) }
    ensures pin { All (λ p. p.digest ≡ digest_of_input input.now) (maybe_pins result.pin) }
    ensures got { Got caller.old (maybe_pins result.pin) caller.new }
    ensures given { AreGiven caller.new (maybe_pins result.pin) }
    ensures kept { OnOk result.leaf (KeptOrClashed (input_digest input.now.text) caller.old caller.new) }
    ensures counted { RoseBy (length input.now.text) 0 (length (pairs_of (J.emits (J.setting job.now)) input.now.text)) (J.Meter.counts m.old) (J.Meter.counts m.new) }
{
    let sheets = match map_sheets(alloc, job, input.bundle().records(), input.parts(), m) {
        Ok(sheets) => sheets,
        Err(e) => {
            return Brought {
                leaf: Err(e),
                pin: None,
            };
        }
    };
    keep_leaf(alloc, rt, memo, caller, run, input, sheets)
}

// Keeps sheets, of which the leaf has shares.
fn keep_leaf<J: Job, W: Wait>(
    alloc: Global,
    rt: &W,
    memo: &Memo<MapRecipe<J>>,
    caller: &mut Caller<MapRecipe<J>>,
    run: u64,
    input: &LeafInput,
    sheets: Vec<Sheet<J>>,
) -> Brought<J>
    requires of { caller.old.locks ≡ memo.now.locks }
    requires sheets { AreSheetsOf J.Job input.now sheets.items }
    ensures leaf { IfOk result.leaf (λ l. l ≡ input.now) }
    ensures pin { All (λ p. p.digest ≡ digest_of_input input.now) (maybe_pins result.pin) }
    ensures got { Got caller.old (maybe_pins result.pin) caller.new }
    ensures given { AreGiven caller.new (maybe_pins result.pin) }
    ensures kept { OnOk result.leaf (KeptOrClashed (input_digest input.now.text) caller.old caller.new) }
{
    let leaf = match shared_leaf(alloc, input, sheets.as_slice()) {
        Ok(leaf) => leaf,
        Err(e) => {
            return Brought {
                leaf: Err(e),
                pin: None,
            };
        }
    };
    let copy = match input.share() {
        Ok(copy) => copy,
        Err(e) => {
            return Brought {
                leaf: Err(e),
                pin: None,
            };
        }
    };
    keep_shared(rt, memo, caller, run, copy, sheets, leaf)
}

// Keeps sheets whose leaf was made.
fn keep_shared<J: Job, W: Wait>(
    rt: &W,
    memo: &Memo<MapRecipe<J>>,
    caller: &mut Caller<MapRecipe<J>>,
    run: u64,
    input: LeafInput,
    sheets: Vec<Sheet<J>>,
    leaf: Leaf<J>,
) -> Brought<J>
    requires of { caller.old.locks ≡ memo.now.locks }
    requires sheets { AreSheetsOf J.Job input sheets.items }
    requires leaf { leaf ≡ input }
    ensures leaf { IfOk result.leaf (λ l. l ≡ input) }
    ensures pin { All (λ p. p.digest ≡ digest_of_input input) (maybe_pins result.pin) }
    ensures got { Got caller.old (maybe_pins result.pin) caller.new }
    ensures given { AreGiven caller.new (maybe_pins result.pin) }
    ensures kept { OnOk result.leaf (KeptOrClashed (input_digest input.text) caller.old caller.new) }
{
    let _ = caller.number();
    match memo.keep(rt, caller, run, input, sheets) {
        Ok(Kept::Stored(pin)) => {
            return Brought {
                leaf: Ok(leaf),
                pin: Some(pin),
            };
        }
        Ok(Kept::Found(pin)) => {
            return Brought {
                leaf: Ok(leaf),
                pin: Some(pin),
            };
        }
        Ok(Kept::Clash(_, _, _)) => {
            return Brought {
                leaf: Ok(leaf),
                pin: None,
            };
        }
        Err(refused) => {
            let KeepRefused {
                fault,
                input: _,
                out: _,
            } = refused;
            match fault {
                MemoFault::Worn { ticket: _ } => {
                    return Brought {
                        leaf: Ok(leaf),
                        pin: None,
                    };
                }
                MemoFault::Mem => {
                    return Brought {
                        leaf: Err(AllocError),
                        pin: None,
                    };
                }
            }
        }
    }
}
