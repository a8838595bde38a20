//! How a text comes to a lane that does not hold it.
ghost use Rattle.std.specs.Prelude.{◌≡◌, ◌≤◌, ◌<◌, ◌++◌, List, length, IfOk, OnOk, OnErr, None};
ghost use Rattle.definitions.specs.Answer.{pairs_of};
ghost use Rattle.job_laws.specs.Counted.{RoseBy};
ghost use Rattle.job_laws.specs.Meanings.{AllAccepted, meaning_of};
ghost use Rattle.pin_table.specs.Covers.{PinName, IsLater, Backed, names_of};
ghost use Rattle.map_tasks.specs.Inputs.{input_digest};
ghost use Rattle.map_tasks.specs.Texts.{digest_of_input, pins_in, maybe_pins, BringsText};
ghost use Rattle.map_tasks.specs.Table.{texts_in, FindsText};
ghost use Rattle.map_tasks.specs.Lanes.{LookedFirst, KeptOrClashed};

use crate::brought::Brought;
use crate::fetching::fetch;
use crate::leaf::Leaf;
use crate::leaf_input::LeafInput;
use crate::map_recipe::MapRecipe;
use crate::texts::Texts;
use job_laws::{Job, Meter};
use pin_table::{Caller, Memo, Pin};
use std::alloc::{AllocError, Global};
use std::sync::Wait;

/// Brings a leaf of a text that the lane does not hold. A pin that no text keeps is spare, also if memory ran out.
pub(crate) fn bring_new<J: Job, W: Wait>(
    alloc: Global,
    rt: &W,
    memo: &Memo<MapRecipe<J>>,
    caller: &mut Caller<MapRecipe<J>>,
    texts: &mut Texts<J>,
    spare: &mut Vec<Pin<MapRecipe<J>>>,
    job: &J,
    run: u64,
    input: &LeafInput,
    m: &mut J::Meter,
) -> Result<Leaf<J>, AllocError>
    requires of { caller.old.locks ≡ memo.now.locks }
    requires accepted { AllAccepted (meaning_of J.Job job.now) input.now.text }
    requires parts { (1 ≤ input.now.parts) × (input.now.parts ≤ 16) }
    requires setting { input.now.setting ≡ J.setting job.now }
    requires absent { FindsText input.now.text texts.old.rows None }
    ensures leaf { IfOk result (λ l. l ≡ input.now) }
    ensures ok { OnOk result (BringsText input.now (texts_in texts.old.rows) (texts_in texts.new.rows)) }
    ensures err { OnErr result (texts_in texts.new.rows ≡ texts_in texts.old.rows) }
    ensures counted { RoseBy (length input.now.text) 0 (length (pairs_of (J.emits (J.setting job.now)) input.now.text)) (J.Meter.counts m.old) (J.Meter.counts m.new) }
    ensures later { IsLater caller.old caller.new }
    ensures backed { Backed caller.old (pins_in (texts_in texts.old.rows) ++ names_of digest_of_input spare.old.items) → Backed caller.new (pins_in (texts_in texts.new.rows) ++ names_of digest_of_input spare.new.items) }
    ensures looked { (J.Meter.counts m.old).maps < (J.Meter.counts m.new).maps → LookedFirst (input_digest input.now.text) caller.old caller.new }
    ensures kept { OnOk result (KeptOrClashed (input_digest input.now.text) caller.old caller.new) }
{
    match spare.reserve(1) {
        Ok(()) => (),
        Err(e) => return Err(e),
    }
    let Brought { leaf, pin } = fetch_into(alloc, rt, memo, caller, texts, job, run, input, m);
    match pin {
        Some(pin) => {
            spare.push_reserved(pin);
            return leaf;
        }
        None => return leaf,
    }
}

// Gets the leaf, and holds it.
fn fetch_into<J: Job, W: Wait>(
    alloc: Global,
    rt: &W,
    memo: &Memo<MapRecipe<J>>,
    caller: &mut Caller<MapRecipe<J>>,
    texts: &mut Texts<J>,
    job: &J,
    run: u64,
    input: &LeafInput,
    m: &mut J::Meter,
) -> Brought<J>
    requires of { caller.old.locks ≡ memo.now.locks }
    requires accepted { AllAccepted (meaning_of J.Job job.now) input.now.text }
    requires parts { (1 ≤ input.now.parts) × (input.now.parts ≤ 16) }
    requires setting { input.now.setting ≡ J.setting job.now }
    requires absent { FindsText input.now.text texts.old.rows None }
    ensures leaf { IfOk result.leaf (λ l. l ≡ input.now) }
    ensures ok { OnOk result.leaf (BringsText input.now (texts_in texts.old.rows) (texts_in texts.new.rows)) }
    ensures err { OnErr result.leaf (texts_in texts.new.rows ≡ texts_in texts.old.rows) }
    ensures counted { RoseBy (length input.now.text) 0 (length (pairs_of (J.emits (J.setting job.now)) input.now.text)) (J.Meter.counts m.old) (J.Meter.counts m.new) }
    ensures later { IsLater caller.old caller.new }
    ensures backed { (spare : List PinName) → Backed caller.old (pins_in (texts_in texts.old.rows) ++ spare) → Backed caller.new (pins_in (texts_in texts.new.rows) ++ (spare ++ maybe_pins result.pin)) }
    ensures looked { (J.Meter.counts m.old).maps < (J.Meter.counts m.new).maps → LookedFirst (input_digest input.now.text) caller.old caller.new }
    ensures kept { OnOk result.leaf (KeptOrClashed (input_digest input.now.text) caller.old caller.new) }
{
    let Brought { leaf, pin } = fetch(alloc, rt, memo, caller, job, run, input, m);
    match leaf {
        Ok(leaf) => return texts.insert(leaf, pin),
        Err(e) => return Brought { leaf: Err(e), pin },
    }
}
