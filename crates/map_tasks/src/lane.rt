//! A lane: one caller of the memo of leaves, with the texts whose leaves it has.
ghost use Rattle.std.specs.Prelude.{◌≡◌, ℕ, ◌+◌, ◌<◌, ◌≤◌, List, [], length, All, IsTrue, ◌↔◌, IfOk, OnOk, OnErr};
ghost use Rattle.definitions.specs.Answer.{pairs_of};
ghost use Rattle.job_laws.specs.Counted.{RoseBy};
ghost use Rattle.job_laws.specs.Meanings.{AllAccepted, meaning_of};
ghost use Rattle.pin_table.specs.Known.{CallerFits, known_at};
ghost use Rattle.pin_table.specs.Covers.{IsLater, Backed};
ghost use Rattle.map_tasks.specs.Inputs.{input_digest};
ghost use Rattle.map_tasks.specs.Leaves.{sheet_for};
ghost use Rattle.map_tasks.specs.Texts.{IsMappedSo, IsHeld, AreSound, StayPinned, Comes, Leaves, Settles, Reverts, used_of, gone_of};
ghost use Rattle.map_tasks.specs.Lanes.{LaneView, pins_of, StayMappedSo, LookedFirst, KeptOrClashed, ReleasesAll, HoldsOnce};

use crate::bringing::bring_new;
use crate::finishing::finish_texts;
use crate::held::Finish;
use crate::leaf::Leaf;
use crate::leaf_input::{LeafInput, digest_of};
use crate::map_recipe::MapRecipe;
use crate::texts::Texts;
use job_laws::{Job, Meter};
use pin_table::{Caller, Memo, Pin};
use record_text::Bundle;
use sheets::Sheet;
use std::alloc::{AllocError, Global};
use std::marker::Model;
use std::mem::replace;
use std::sync::Wait;

/// Texts with their leaves, and how many leaves of the window use each. Leaves that come and leave are noted; all notes
/// together are made final or undone.
#[derive(Drop)]
pub struct Lane<J: Job> {
    alloc: Global,
    caller: Caller<MapRecipe<J>>,
    texts: Texts<J>,
    // Pins that no text has. They are given up when the lane is next settled or reverted.
    spare: Vec<Pin<MapRecipe<J>>>,
}

impl<J: Job> Model for Lane<J> {
    ghost use Rattle.std.specs.Prelude.{◌++◌};
    ghost use Rattle.pin_table.specs.Covers.{Backed, names_of};
    ghost use Rattle.map_tasks.specs.Texts.{digest_of_input, pins_in};
    ghost use Rattle.map_tasks.specs.Table.{texts_in};
    ghost use Rattle.map_tasks.specs.Lanes.{LaneView};

    ghost Value = { LaneView };

    ghost view = { λ l. record { caller = l.caller; texts = texts_in l.texts.rows; spare = names_of digest_of_input l.spare.items } };

    ghost invariant = { λ l. Backed l.caller (pins_in (texts_in l.texts.rows) ++ names_of digest_of_input l.spare.items) };
}

impl<J: Job> Lane<J> {
    /// A lane that holds no text, for a caller that made no call yet. It takes no memory.
    pub fn new(alloc: Global, caller: Caller<MapRecipe<J>>) -> Lane<J>
        requires unused { (s : ℕ) → (known_at s caller).mine ≡ [] }
        ensures { result ≡ record { caller = caller; texts = []; spare = [] } }
    {
        Lane {
            alloc,
            caller,
            texts: Texts::new(alloc),
            spare: Vec::new(alloc),
        }
    }

    /// The number of its caller. What the caller has seen of each shard is a legal history with its own events in
    /// order, and in each shard whose lock was not shown worn it holds exactly the lane's pins.
    pub fn number(&self) -> u64
        ensures number { result ≡ self.now.caller.number }
        ensures fits { CallerFits self.now.caller }
        ensures backed { Backed self.now.caller (pins_of self.now) }
    {
        self.caller.number()
    }

    /// How many distinct texts it holds.
    pub fn len(&self) -> usize
        ensures count { result ≡ length self.now.texts }
        ensures sound { AreSound self.now.texts }
    {
        self.texts.len()
    }

    /// Whether it holds no text.
    pub fn is_empty(&self) -> bool
        ensures { IsTrue result ↔ (self.now.texts ≡ []) }
    {
        self.texts.len() == 0
    }

    /// How many leaves of these records may still leave until the lane is next settled or reverted.
    pub fn left(&self, bundle: &Bundle) -> u64
        ensures { result + gone_of bundle.now self.now.texts ≡ used_of bundle.now self.now.texts }
    {
        let records = bundle.records();
        self.texts.left(&digest_of(records), records)
    }

    /// Brings a leaf of these records: their sheets, in `parts` parts. It is `bring_input` with the input made here, so
    /// the records are hashed.
    ///
    /// # Errors
    ///
    /// Out of memory; the texts are unchanged.
    pub fn bring<W: Wait>(
        &mut self,
        rt: &W,
        memo: &Memo<MapRecipe<J>>,
        job: &J,
        run: u64,
        parts: u32,
        bundle: &Bundle,
        m: &mut J::Meter,
    ) -> Result<Leaf<J>, AllocError>
        requires of { self.old.caller.locks ≡ memo.now.locks }
        requires accepted { AllAccepted (meaning_of J.Job job.now) bundle.now }
        requires parts { (1 ≤ parts) × (parts ≤ 16) }
        requires mapped { All (IsMappedSo parts (J.setting job.now)) self.old.texts }
        ensures leaf { IfOk result (λ l. l ≡ record { text = bundle.now; parts = parts; setting = J.setting job.now }) }
        ensures ok { OnOk result (Comes bundle.now self.old.texts self.new.texts) }
        ensures err { OnErr result (self.new.texts ≡ self.old.texts) }
        ensures mapped { All (IsMappedSo parts (J.setting job.now)) self.new.texts }
        ensures pinned { StayPinned self.old.texts self.new.texts }

        // Whatever it returns, a text that is held costs nothing, and no other costs more than its mapping.
        ensures held { IsHeld bundle.now self.old.texts → J.Meter.counts m.new ≡ J.Meter.counts m.old }
        ensures counted { RoseBy (length bundle.now) 0 (length (pairs_of (J.emits (J.setting job.now)) bundle.now)) (J.Meter.counts m.old) (J.Meter.counts m.new) }

        // The memo is asked before anything is mapped, and has the leaf afterwards.
        ensures later { IsLater self.old.caller self.new.caller }
        ensures looked { (J.Meter.counts m.old).maps < (J.Meter.counts m.new).maps → LookedFirst (input_digest bundle.now) self.old.caller self.new.caller }
        ensures kept { OnOk result ((IsHeld bundle.now self.old.texts → ⊥) → KeptOrClashed (input_digest bundle.now) self.old.caller self.new.caller) }
    {
        let bundle = match bundle.share() {
            Ok(bundle) => bundle,
            Err(e) => return Err(e),
        };
        let input = LeafInput::new(bundle, parts, job.setting());
        self.bring_input(rt, memo, job, run, &input, m)
    }

    /// Brings a leaf of this input: its sheets. A text that the lane holds costs one look-up and one comparison; any
    /// other is looked up in the memo, and mapped and kept if the memo has no entry of it. If a lock is worn, or an
    /// entry of another input has its digest, it has no pin. It may block.
    ///
    /// # Errors
    ///
    /// Out of memory; the texts are unchanged.
    pub fn bring_input<W: Wait>(
        &mut self,
        rt: &W,
        memo: &Memo<MapRecipe<J>>,
        job: &J,
        run: u64,
        input: &LeafInput,
        m: &mut J::Meter,
    ) -> Result<Leaf<J>, AllocError>
        requires of { self.old.caller.locks ≡ memo.now.locks }
        requires accepted { AllAccepted (meaning_of J.Job job.now) input.now.text }
        requires parts { (1 ≤ input.now.parts) × (input.now.parts ≤ 16) }
        requires setting { input.now.setting ≡ J.setting job.now }
        requires mapped { All (IsMappedSo input.now.parts input.now.setting) self.old.texts }
        ensures leaf { IfOk result (λ l. l ≡ input.now) }
        ensures ok { OnOk result (Comes input.now.text self.old.texts self.new.texts) }
        ensures err { OnErr result (self.new.texts ≡ self.old.texts) }
        ensures mapped { All (IsMappedSo input.now.parts input.now.setting) self.new.texts }
        ensures pinned { StayPinned self.old.texts self.new.texts }

        // Whatever it returns, a text that is held costs nothing, and no other costs more than its mapping.
        ensures held { IsHeld input.now.text self.old.texts → J.Meter.counts m.new ≡ J.Meter.counts m.old }
        ensures counted { RoseBy (length input.now.text) 0 (length (pairs_of (J.emits (J.setting job.now)) input.now.text)) (J.Meter.counts m.old) (J.Meter.counts m.new) }

        // The memo is asked before anything is mapped, and has the leaf afterwards.
        ensures later { IsLater self.old.caller self.new.caller }
        ensures looked { (J.Meter.counts m.old).maps < (J.Meter.counts m.new).maps → LookedFirst (input_digest input.now.text) self.old.caller self.new.caller }
        ensures kept { OnOk result ((IsHeld input.now.text self.old.texts → ⊥) → KeptOrClashed (input_digest input.now.text) self.old.caller self.new.caller) }
    {
        match self.texts.find(&input.digest(), input.bundle().records()) {
            Some(place) => match self.texts.come(place) {
                Ok(leaf) => return Ok(leaf),
                Err(e) => return Err(e),
            },
            None => match bring_new(
                self.alloc,
                rt,
                memo,
                &mut self.caller,
                &mut self.texts,
                &mut self.spare,
                job,
                run,
                input,
                m,
            ) {
                Ok(leaf) => return Ok(leaf),
                Err(e) => return Err(e),
            },
        }
    }

    /// Notes that a leaf of these records leaves; the records are hashed for it. It takes no memory and no turn.
    pub fn leave(&mut self, bundle: &Bundle)
        requires there { gone_of bundle.now self.old.texts < used_of bundle.now self.old.texts }
        ensures texts { Leaves bundle.now self.old.texts self.new.texts }
        ensures mapped { StayMappedSo self.old.texts self.new.texts }
        ensures pinned { StayPinned self.old.texts self.new.texts }
        ensures same { (self.new.caller ≡ self.old.caller) × (self.new.spare ≡ self.old.spare) }
    {
        let records = bundle.records();
        self.texts.leave(&digest_of(records), records);
    }

    /// Notes that a leaf of this input leaves. It takes no memory and no turn.
    pub fn leave_input(&mut self, input: &LeafInput)
        requires there { gone_of input.now.text self.old.texts < used_of input.now.text self.old.texts }
        ensures texts { Leaves input.now.text self.old.texts self.new.texts }
        ensures mapped { StayMappedSo self.old.texts self.new.texts }
        ensures pinned { StayPinned self.old.texts self.new.texts }
        ensures same { (self.new.caller ≡ self.old.caller) × (self.new.spare ≡ self.old.spare) }
    {
        self.texts.leave(&input.digest(), input.bundle().records());
    }

    /// A share of the sheet of a part of an input that it holds. It fails only if the count of owners is full.
    pub fn sheet_of(&self, input: &LeafInput, part: u32) -> Result<Sheet<J>, AllocError>
        requires held { IsHeld input.now.text self.now.texts }
        requires mapped { All (IsMappedSo input.now.parts input.now.setting) self.now.texts }
        requires part { part < input.now.parts }
        ensures { IfOk result (λ s. s ≡ sheet_for J.Job input.now part) }
    {
        match self.texts.find(&input.digest(), input.bundle().records()) {
            Some(place) => self.texts.sheet(place, part).share(),
            None => unreachable!(),
        }
    }

    /// Makes all notes final, and gives up the pins that no text needs. It takes no memory, walks only the texts with
    /// notes, and may block for each pin.
    pub fn settle<W: Wait>(&mut self, rt: &W, memo: &Memo<MapRecipe<J>>)
        requires of { self.old.caller.locks ≡ memo.now.locks }
        ensures texts { Settles self.old.texts self.new.texts }
        ensures mapped { StayMappedSo self.old.texts self.new.texts }
        ensures pinned { StayPinned self.old.texts self.new.texts }
        ensures later { IsLater self.old.caller self.new.caller }
        ensures released { ReleasesAll self.old self.new }
        ensures once { HoldsOnce self.new.caller self.new.texts }
        ensures spare { self.new.spare ≡ [] }
    {
        finish_texts(rt, memo, &mut self.caller, &mut self.texts, Finish::Settle);
        memo.give_up_all(
            rt,
            &mut self.caller,
            replace(&mut self.spare, Vec::new(self.alloc)),
        );
        let _ = self.caller.number();
    }

    /// Undoes all notes since the lane was last settled or reverted, and gives up the pins that no text needs. It takes
    /// no memory, walks only the texts with notes, and may block for each pin.
    pub fn revert<W: Wait>(&mut self, rt: &W, memo: &Memo<MapRecipe<J>>)
        requires of { self.old.caller.locks ≡ memo.now.locks }
        ensures texts { Reverts self.old.texts self.new.texts }
        ensures mapped { StayMappedSo self.old.texts self.new.texts }
        ensures pinned { StayPinned self.old.texts self.new.texts }
        ensures later { IsLater self.old.caller self.new.caller }
        ensures released { ReleasesAll self.old self.new }
        ensures once { HoldsOnce self.new.caller self.new.texts }
        ensures spare { self.new.spare ≡ [] }
    {
        finish_texts(rt, memo, &mut self.caller, &mut self.texts, Finish::Revert);
        memo.give_up_all(
            rt,
            &mut self.caller,
            replace(&mut self.spare, Vec::new(self.alloc)),
        );
        let _ = self.caller.number();
    }

    /// Gives the caller back. The entries of texts that the lane holds stay pinned for the memo's life.
    pub fn into_caller(self) -> Caller<MapRecipe<J>>
        ensures { result ≡ self.caller }
    {
        let Lane {
            alloc: _,
            caller,
            texts: _,
            spare: _,
        } = self;
        caller
    }
}
