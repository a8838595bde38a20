//! The texts of a lane, by their digests.
ghost use Rattle.std.specs.Prelude.{◌≡◌, ℕ, ◌+◌, ◌-◌, ◌^◌, ◌<◌, ◌≤◌, ◌↔◌, IsTrue, List, [], ◌∷◌, ◌++◌, length, take, Some, None, slice_get, IfOk, IfErr, OnOk, OnErr, All};
ghost use Rattle.map_tasks.specs.Inputs.{input_digest};
ghost use Rattle.map_tasks.specs.Leaves.{sheet_for};
ghost use Rattle.map_tasks.specs.Texts.{TextView, IsQuiet, AreSound, BringsText, Changes, used_of, gone_of, maybe_pins, digest_of_input, with_came, with_gone, new_text};
ghost use Rattle.std.specs.Map.{lookup};
ghost use Rattle.map_tasks.specs.Table.{TableView, texts_in, is_key, Touches, FindsText, SplitsPins, FinishesNext};

use crate::brought::Brought;
use crate::held::{Finish, Held};
use crate::leaf::Leaf;
use crate::map_recipe::MapRecipe;
use indexmap::IndexMap;
use job_laws::Job;
use pin_table::Pin;
use record_text::Records;
use sheets::Sheet;
use std::alloc::{AllocError, Global};
use std::marker::Model;

/// Texts by their digests. Those with notes, of leaves that came or left, come after those without, the calm ones, so
/// that making the notes final costs the notes and not the texts.
#[derive(Drop)]
pub(crate) struct Texts<J: Job> {
    // The key is a text's digest with 0, or with a number of its own if another text had the digest.
    map: IndexMap<([u8; 32], u64), Held<J>>,
    // How many calm texts come first.
    calm: usize,
    // The next of these numbers, 1 until two texts have had one digest.
    next: u64,
}

impl<J: Job> Model for Texts<J> {
    ghost use Rattle.map_tasks.specs.Table.{TableView, IsTable};

    ghost Value = { TableView };

    ghost view = { λ t. record { rows = t.map.entries; calm = t.calm; next = t.next } };

    ghost invariant = { λ t. IsTable t.calm t.next t.map.entries };
}

impl<J: Job> Texts<J> {
    /// No texts.
    pub fn new(alloc: Global) -> Texts<J>
        ensures { result.rows ≡ [] }
    {
        Texts {
            map: IndexMap::new(alloc),
            calm: 0,
            next: 1,
        }
    }

    /// How many texts there are.
    pub fn len(&self) -> usize
        ensures count { result ≡ length self.now.rows }
        ensures sound { AreSound (texts_in self.now.rows) }
    {
        let _calm = self.calm;
        self.map.len()
    }

    /// The place of the text of these records, found by its digest and compared whole.
    pub fn find(&self, digest: &[u8; 32], records: &Records) -> Option<usize>
        requires { digest.now ≡ input_digest records.now }
        ensures { FindsText records.now self.now.rows result }
    {
        match self.map.get_full(&(*digest, 0)) {
            Some((place, _, held)) => {
                if held.is(records) {
                    return Some(place);
                }
            }
            None => {
                if self.next == 1 {
                    return None;
                }
            }
        }
        self.walk(records)
    }

    // The place of the text, by comparing each text, if two texts have had one digest.
    fn walk(&self, records: &Records) -> Option<usize>
        ensures { FindsText records.now self.now.rows result }
    {
        'places: for place in 0..self.map.len() {
            match self.map.get_index(place) {
                Some((_, held)) => {
                    if held.is(records) {
                        return Some(place);
                    }
                }
                None => unreachable!(),
            }
        }
        None
    }

    /// The sheet of a part of the text at a place.
    pub fn sheet(&self, place: usize, part: u32) -> &Sheet<J>
        requires { (r : (List ℕ × ℕ) × TextView) × (slice_get self.now.rows place ≡ Some r) × (part < r.1.input.parts) }
        ensures { (r : (List ℕ × ℕ) × TextView) → slice_get self.now.rows place ≡ Some r → result.now ≡ sheet_for J.Job r.1.input part }
    {
        match self.map.get_index(place) {
            Some((_, held)) => held.sheet(part),
            None => unreachable!(),
        }
    }

    /// How many leaves of these records were there when the notes were last made final, and have not left since.
    pub fn left(&self, digest: &[u8; 32], records: &Records) -> u64
        requires { digest.now ≡ input_digest records.now }
        ensures { result + gone_of records.now (texts_in self.now.rows) ≡ used_of records.now (texts_in self.now.rows) }
    {
        match self.find(digest, records) {
            Some(place) => match self.map.get_index(place) {
                Some((_, held)) => held.left(),
                None => unreachable!(),
            },
            None => 0,
        }
    }

    // Moves a text behind the calm ones, and returns its place there.
    fn touch(&mut self, place: usize) -> usize
        requires { place < length self.old.rows }
        ensures { Touches place result self.old self.new }
    {
        if place >= self.calm {
            return place;
        }
        self.calm -= 1;
        self.map.swap_indices(place, self.calm);
        self.calm
    }

    /// Notes that one more leaf of the text at a place came, and returns it. It fails if a count is full.
    pub fn come(&mut self, place: usize) -> Result<Leaf<J>, AllocError>
        requires { place < length self.old.rows }
        ensures leaf { IfOk result (λ l. (r : (List ℕ × ℕ) × TextView) → slice_get self.old.rows place ≡ Some r → l ≡ r.1.input) }
        ensures ok { OnOk result ((r : (List ℕ × ℕ) × TextView) → slice_get self.old.rows place ≡ Some r → Changes r.1.input.text with_came (texts_in self.old.rows) (texts_in self.new.rows)) }
        ensures err { OnErr result (self.new ≡ self.old) }
    {
        let leaf = match self.lend(place) {
            Ok(leaf) => leaf,
            Err(e) => return Err(e),
        };
        let place = self.touch(place);
        let (_, held) = self.map.pair_mut(place);
        held.come();
        Ok(leaf)
    }

    // The leaf of the text at a place, if one more leaf of it can be counted.
    fn lend(&self, place: usize) -> Result<Leaf<J>, AllocError>
        requires { place < length self.now.rows }
        ensures leaf { IfOk result (λ l. (r : (List ℕ × ℕ) × TextView) → slice_get self.now.rows place ≡ Some r → l ≡ r.1.input) }
        ensures room { OnOk result ((r : (List ℕ × ℕ) × TextView) → slice_get self.now.rows place ≡ Some r → r.1.used + r.1.came < 2 ^ 64 - 1) }
    {
        match self.map.get_index(place) {
            Some((_, held)) => held.lend(),
            None => unreachable!(),
        }
    }

    /// Notes that one more leaf of these records left.
    pub fn leave(&mut self, digest: &[u8; 32], records: &Records)
        requires digest { digest.now ≡ input_digest records.now }
        requires there { gone_of records.now (texts_in self.old.rows) < used_of records.now (texts_in self.old.rows) }
        ensures { Changes records.now with_gone (texts_in self.old.rows) (texts_in self.new.rows) }
    {
        match self.find(digest, records) {
            Some(place) => self.leave_at(place),
            None => unreachable!(),
        }
    }

    // Notes that one more leaf of the text at a place left.
    fn leave_at(&mut self, place: usize)
        requires { (r : (List ℕ × ℕ) × TextView) × (slice_get self.old.rows place ≡ Some r) × (r.1.gone < r.1.used) }
        ensures { (r : (List ℕ × ℕ) × TextView) → slice_get self.old.rows place ≡ Some r → Changes r.1.input.text with_gone (texts_in self.old.rows) (texts_in self.new.rows) }
    {
        let place = self.touch(place);
        let (_, held) = self.map.pair_mut(place);
        held.leave();
    }

    /// Adds a text, of which one leaf came, with a share of its leaf. It keeps the pin if no other text has its digest.
    pub fn insert(&mut self, leaf: Leaf<J>, pin: Option<Pin<MapRecipe<J>>>) -> Brought<J>
        requires absent { FindsText leaf.text self.old.rows None }
        requires pin { All (λ p. p.digest ≡ digest_of_input leaf) (maybe_pins pin) }
        ensures leaf { IfOk result.leaf (λ l. l ≡ leaf) }
        ensures ok { OnOk result.leaf (BringsText leaf (texts_in self.old.rows) (texts_in self.new.rows)) }
        ensures err { OnErr result.leaf (self.new.rows ≡ self.old.rows) }
        ensures pins { SplitsPins (maybe_pins pin) (maybe_pins result.pin) (texts_in self.old.rows) (texts_in self.new.rows) }
    {
        let own = match leaf.share() {
            Ok(own) => own,
            Err(e) => return Brought { leaf: Err(e), pin },
        };
        let digest = leaf.input().digest();
        if self.map.contains_key(&(digest, 0)) {
            match self.insert_another(digest, own) {
                Ok(()) => return Brought {
                    leaf: Ok(leaf),
                    pin,
                },
                Err(e) => return Brought { leaf: Err(e), pin },
            }
        }
        match self.insert_first(digest, own, pin) {
            Ok(()) => return Brought {
                leaf: Ok(leaf),
                pin: None,
            },
            Err(pin) => return Brought {
                leaf: Err(AllocError),
                pin,
            },
        }
    }

    // Adds the first text of its digest, with its pin. Out of memory, the pin comes back.
    fn insert_first(
        &mut self,
        digest: [u8; 32],
        leaf: Leaf<J>,
        pin: Option<Pin<MapRecipe<J>>>,
    ) -> Result<(), Option<Pin<MapRecipe<J>>>>
        requires digest { digest ≡ input_digest leaf.text }
        requires free { lookup (is_key digest 0) self.old.rows ≡ None }
        requires absent { FindsText leaf.text self.old.rows None }
        requires pin { All (λ p. p.digest ≡ digest_of_input leaf) (maybe_pins pin) }
        ensures ok { OnOk result (texts_in self.new.rows ≡ texts_in self.old.rows ++ new_text leaf (maybe_pins pin) ∷ []) }
        ensures err { IfErr result (λ back. (self.new.rows ≡ self.old.rows) × (maybe_pins back ≡ maybe_pins pin)) }
    {
        match self.map.insert((digest, 0), Held::new(leaf, pin)) {
            Ok(_) => return Ok(()),
            Err(failed) => {
                let (_, held) = failed.value;
                return Err(held.into_pin());
            }
        }
    }

    // Adds a text whose digest another one has, without a pin.
    fn insert_another(&mut self, digest: [u8; 32], leaf: Leaf<J>) -> Result<(), AllocError>
        requires digest { digest ≡ input_digest leaf.text }
        requires absent { FindsText leaf.text self.old.rows None }
        ensures ok { OnOk result (texts_in self.new.rows ≡ texts_in self.old.rows ++ new_text leaf [] ∷ []) }
        ensures err { OnErr result (self.new.rows ≡ self.old.rows) }
    {
        if self.next == u64::MAX {
            return Err(AllocError);
        }
        let next = self.next;
        match self.map.insert((digest, next), Held::new(leaf, None)) {
            Ok(_) => {
                self.next = next + 1;
                return Ok(());
            }
            Err(_) => return Err(AllocError),
        }
    }

    /// Whether a text is not final.
    pub fn has_next(&self) -> bool
        ensures next { IsTrue result ↔ (self.now.calm < length self.now.rows) }
        ensures calm { self.now.calm ≤ length self.now.rows }
        ensures quiet { All (λ r. IsQuiet r.1) (take self.now.calm self.now.rows) }
        ensures sound { AreSound (texts_in self.now.rows) }
    {
        self.calm < self.map.len()
    }

    /// Makes the first text that is not final final, or removes it if no leaf uses it.
    pub fn finish_next(&mut self, how: Finish) -> Option<Held<J>>
        requires { self.old.calm < length self.old.rows }
        ensures { FinishesNext how self.old self.new result }
    {
        let rest = match self.map.get_index(self.calm) {
            Some((_, held)) => held.rest(how),
            None => unreachable!(),
        };
        // Reading the length gives the prover that the place is within the map.
        let _count = self.map.len();
        if rest > 0 {
            let (_, held) = self.map.pair_mut(self.calm);
            held.finish(how);
            self.calm += 1;
            return None;
        }
        match self.map.swap_remove_index(self.calm) {
            Some((_, held)) => Some(held),
            None => unreachable!(),
        }
    }
}
