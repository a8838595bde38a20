//! A text that a lane holds, with its leaf and how many leaves of the window use it.
ghost use Rattle.std.specs.Prelude.{◌≡◌, ◌<◌, ◌+◌, ◌^◌, ◌-◌, IsTrue, ◌↔◌, IfOk, OnOk, All};
ghost use Rattle.map_tasks.specs.Leaves.{sheet_for};
ghost use Rattle.map_tasks.specs.Texts.{TextFits, rest_of, finished, maybe_pins, with_came, with_gone, new_text, digest_of_input};

use crate::leaf::Leaf;
use crate::map_recipe::MapRecipe;
use job_laws::Job;
use pin_table::Pin;
use record_text::Records;
use sheets::Sheet;
use std::alloc::AllocError;
use std::marker::Model;

/// What becomes of the notes of leaves that came and went.
#[derive(Clone, Copy)]
pub(crate) enum Finish {
    /// They are final.
    Settle,
    /// They are undone.
    Revert,
}

/// A text's leaf with its pin, if it has one, and how many leaves used it, came and left.
#[derive(Drop)]
pub(crate) struct Held<J: Job> {
    leaf: Leaf<J>,
    pin: Option<Pin<MapRecipe<J>>>,
    used: u64,
    came: u64,
    gone: u64,
}

impl<J: Job> Model for Held<J> {
    ghost use Rattle.map_tasks.specs.Texts.{TextView, TextFits, maybe_pins};

    ghost Value = { TextView };

    ghost view = { λ h. record { input = h.leaf; used = h.used; came = h.came; gone = h.gone; pins = maybe_pins h.pin } };

    ghost invariant = { λ h. TextFits (record { input = h.leaf; used = h.used; came = h.came; gone = h.gone; pins = maybe_pins h.pin }) };
}

impl<J: Job> Held<J> {
    /// A text whose first leaf has just come.
    pub fn new(leaf: Leaf<J>, pin: Option<Pin<MapRecipe<J>>>) -> Held<J>
        requires { All (λ p. p.digest ≡ digest_of_input leaf) (maybe_pins pin) }
        ensures { result ≡ new_text leaf (maybe_pins pin) }
    {
        Held {
            leaf,
            pin,
            used: 0,
            came: 1,
            gone: 0,
        }
    }

    /// Whether it is the text of these records. Whole texts are compared.
    pub fn is(&self, records: &Records) -> bool
        ensures { IsTrue result ↔ (self.now.input.text ≡ records.now) }
    {
        self.leaf.input().bundle().records().same(records)
    }

    /// The sheet of a part.
    pub fn sheet(&self, part: u32) -> &Sheet<J>
        requires { part < self.now.input.parts }
        ensures { result.now ≡ sheet_for J.Job self.now.input part }
    {
        self.leaf.sheet(part)
    }

    /// A share of its leaf, if one more leaf can be counted. It fails if a count is full.
    pub fn lend(&self) -> Result<Leaf<J>, AllocError>
        ensures leaf { IfOk result (λ l. l ≡ self.now.input) }
        ensures room { OnOk result (self.now.used + self.now.came < 2 ^ 64 - 1) }
    {
        if self.used == u64::MAX - self.came {
            return Err(AllocError);
        }
        self.leaf.share()
    }

    /// Notes that one more leaf came.
    pub fn come(&mut self)
        requires { self.old.used + self.old.came < 2 ^ 64 - 1 }
        ensures { self.new ≡ with_came self.old }
    {
        self.came += 1;
    }

    /// Notes that one more leaf left.
    pub fn leave(&mut self)
        requires { self.old.gone < self.old.used }
        ensures { self.new ≡ with_gone self.old }
    {
        self.gone += 1;
    }

    /// How many of the leaves that used it when the notes were last made final are still there.
    pub fn left(&self) -> u64
        ensures { result + self.now.gone ≡ self.now.used }
    {
        self.used - self.gone
    }

    /// How many leaves use it in the end.
    pub fn rest(&self, how: Finish) -> u64
        ensures rest { result ≡ rest_of how self.now }
        ensures fits { TextFits self.now }
    {
        match how {
            Finish::Settle => self.used + self.came - self.gone,
            Finish::Revert => self.used,
        }
    }

    /// Makes this number final.
    pub fn finish(&mut self, how: Finish)
        requires { 0 < rest_of how self.old }
        ensures { self.new ≡ finished how self.old }
    {
        self.used = self.rest(how);
        self.came = 0;
        self.gone = 0;
    }

    /// Its pin.
    pub fn into_pin(self) -> Option<Pin<MapRecipe<J>>>
        ensures { maybe_pins result ≡ self.pins }
    {
        let Held {
            leaf: _,
            pin,
            used: _,
            came: _,
            gone: _,
        } = self;
        pin
    }
}
