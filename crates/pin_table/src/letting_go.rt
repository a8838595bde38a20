//! How pins are given up for good, also if their lock is worn.
ghost use Rattle.std.specs.Prelude.{◌≡◌, List, [], ◌∷◌, ◌++◌};
ghost use Rattle.pin_table.specs.Covers.{PinName, Covered, Balanced, name_of, names_of};

use crate::caller::Caller;
use crate::memo::Memo;
use crate::pin::Pin;
use memo_server::Recipe;
use std::sync::Wait;

impl<R: Recipe> Memo<R> {
    /// Gives up a pin: it is released, or dropped if its lock is worn, so that its entry stays pinned for the memo's
    /// life. What the caller holds beyond it stays. It takes no memory, and may block.
    pub fn give_up<W: Wait>(&self, rt: &W, caller: &mut Caller<R>, pin: Pin<R>)
        requires of { caller.old.locks ≡ self.now.locks }
        requires covered { Covered caller.old (name_of R.digest_of pin ∷ []) }
        ensures { (ps : List PinName) → Balanced caller.old (name_of R.digest_of pin ∷ ps) caller.new ps }
    {
        let _ = caller.number();
        match self.release(rt, caller, pin) {
            Ok(()) => return,
            Err(_) => return,
        }
    }

    /// Gives up each of the pins, the last one first, as `give_up` does. It takes no memory, and may block for each.
    pub fn give_up_all<W: Wait>(&self, rt: &W, caller: &mut Caller<R>, mut pins: Vec<Pin<R>>)
        requires of { caller.old.locks ≡ self.now.locks }
        requires covered { Covered caller.old (names_of R.digest_of pins.items) }
        ensures { (ps : List PinName) → Balanced caller.old (names_of R.digest_of pins.items ++ ps) caller.new ps }
    {
        'pins: while let Some(pin) = pins.pop() {
            self.give_up(rt, caller, pin);
        }
    }
}
