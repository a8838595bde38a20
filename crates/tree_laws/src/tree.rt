//! All that an engine knows of a tree, so that it runs every kind of tree by the same steps. `specs/Trees.antt` has the
//! definitions.
ghost use Rattle.std.specs.Prelude.{◌≡◌, ℕ, ◌+◌, ◌*◌, ◌<◌, ◌≤◌, Bool, true, false, List, [], length, map, All, Option, Some, None, IfOk, OnOk, OnErr, IsSome, option_copied};
ghost use Rattle.job_laws.specs.Counted.{RoseWithin, RoseBy};
ghost use Rattle.sheets.specs.United.{tables_of};
ghost use Rattle.pin_table.specs.Covers.{PinName, Covered, Balanced};
ghost use Rattle.pin_table.specs.OwnEvents.{Met};
ghost use Rattle.record_text.specs.Shifts.{FitsShift, shifted};
ghost use Rattle.tree_laws.specs.Trees.{Shape, TreeView, bare, IsDrafted, LooseOnlyIf, settled, reverted, IsRoot, distinct_keys, bound_of};

use crate::MergeRecipe;
use job_laws::{Job, Meter};
use pin_table::{Caller, Memo};
use record_text::{Kind, Shift};
use sheets::Sheet;
use std::alloc::{AllocError, Global};
use std::sync::Wait;

/// A tree of merged sheets over the leaves of a window of one kind. An advance makes a draft of the shifted leaves,
/// apart from the leaves, which is then settled or reverted; a tree shares the sheets of its leaves and never copies
/// one. The nodes that went through the memo are pinned, and each call that takes a caller leaves what this caller
/// holds beyond them.
pub trait Tree<J: Job>: Drop {
    ghost use Rattle.record_text.specs.declared.kind.Kind.{Kind};
    ghost use Rattle.record_text.specs.declared.shift.Shift.{Shift};

    /// The kind of window that it is for.
    const KIND: Kind;

    ghost KIND: { Kind };

    // Its setting and places, its leaves, and the draft.
    ghost view: { Self → TreeView J.Val };

    // Its own pins, including those of a draft, and then those of an inner tree.
    ghost pins: { Self → List PinName };

    // The most pins that it has without a draft.
    ghost most: { Self → ℕ };

    // The most merges of an advance by the shift, by the places of the window, the shape of the leaves and their number.
    ghost bound: { ℕ → Shape → ℕ → Shift → ℕ };

    // The most merges of an advance by the shift that brings these tables, if nothing is loose or becomes loose.
    ghost tight: { Self → Shift → List (List (List ℕ × J.Val)) → ℕ };

    // The shape of the leaves after a shift, by the shape before it.
    ghost shaped: { Shape → Shift → Shape };

    // Its work ahead is done.
    ghost is_prepared: { Self → Bool };

    // The most merges of the work ahead.
    ghost ahead_bound: { Self → ℕ };

    /// A tree without leaves, for a window of `places` places and sheets of this setting.
    fn fresh(alloc: Global, setting: u32, places: u32) -> Result<Self, AllocError>
        requires least { 0 < places }
        requires most { places ≤ 4096 }
        ensures view { IfOk result (λ t. view t ≡ bare setting places) }
        ensures pins { IfOk result (λ t. pins t ≡ []) };

    /// Makes a draft of the leaves after the shift: `fresh` are the sheets that it brings, those of its places first.
    /// Out of memory, there is no draft. It walks only the paths above the changed places, and may block.
    fn advance<W: Wait>(
        &mut self,
        alloc: Global,
        rt: &W,
        memo: &Memo<MergeRecipe<J>>,
        caller: &mut Caller<MergeRecipe<J>>,
        job: &J,
        run: u64,
        shift: &Shift,
        fresh: &[Sheet<J>],
        m: &mut J::Meter,
    ) -> Result<(), AllocError>
        requires of { caller.old.locks ≡ memo.now.locks }
        requires covered { Covered caller.old (pins self.old) }
        requires no_draft { (view self.old).draft ≡ None }
        requires fits { FitsShift KIND (view self.old).places (view self.old).leaves.first (length (view self.old).leaves.tables) (length fresh.now) shift.now }
        requires job { J.setting job.now ≡ (view self.old).setting }
        requires settings { All (λ s. s.setting ≡ (view self.old).setting) fresh.now }
        ensures ok { OnOk result (IsDrafted shaped shift.now fresh.now (view self.old) (view self.new)) }
        ensures err { OnErr result (view self.new ≡ view self.old) }

        // Whatever it returns:
        ensures covered { Covered caller.new (pins self.new) }
        ensures balanced { Balanced caller.old (pins self.old) caller.new (pins self.new) }
        ensures few { (view self.new).draft ≡ None → length (pins self.new) ≤ most self.new }
        ensures loose { LooseOnlyIf (Met caller.old caller.new) (view self.old) (view self.new) }
        ensures counted { RoseBy 0 (bound_of view bound self.old shift.now) (bound_of view bound self.old shift.now * distinct_keys (shifted shift.now (tables_of fresh.now) (view self.old).leaves.tables)) (J.Meter.counts m.old) (J.Meter.counts m.new) }
        ensures tight { (view self.old).leaves.loose ≡ false → (Met caller.old caller.new → ⊥) → RoseWithin (tight self.old shift.now (tables_of fresh.now)) (J.Meter.counts m.old).merges (J.Meter.counts m.new).merges };

    /// Makes the draft the leaves, and gives up the pins that only the leaves before it used. It takes no memory, walks
    /// only the nodes that the draft replaced, and may block.
    fn settle<W: Wait>(
        &mut self,
        rt: &W,
        memo: &Memo<MergeRecipe<J>>,
        caller: &mut Caller<MergeRecipe<J>>,
    )
        requires of { caller.old.locks ≡ memo.now.locks }
        requires covered { Covered caller.old (pins self.old) }
        requires draft { IsSome (view self.old).draft }
        ensures settled { view self.new ≡ settled (view self.old) }
        ensures covered { Covered caller.new (pins self.new) }
        ensures balanced { Balanced caller.old (pins self.old) caller.new (pins self.new) }
        ensures few { length (pins self.new) ≤ most self.new };

    /// Drops the draft, if there is one, and gives up the pins that only the draft used. It takes no memory, walks only
    /// the nodes of the draft, and may block.
    fn revert<W: Wait>(
        &mut self,
        rt: &W,
        memo: &Memo<MergeRecipe<J>>,
        caller: &mut Caller<MergeRecipe<J>>,
    )
        requires of { caller.old.locks ≡ memo.now.locks }
        requires covered { Covered caller.old (pins self.old) }
        ensures reverted { view self.new ≡ reverted (view self.old) }
        ensures covered { Covered caller.new (pins self.new) }
        ensures balanced { Balanced caller.old (pins self.old) caller.new (pins self.new) }
        ensures few { length (pins self.new) ≤ most self.new };

    /// The merge of the leaves in order, without those of a draft; `None` exactly if there are no leaves.
    fn root(&self) -> Option<&Sheet<J>>
        ensures { IsRoot J.joined (view self.now) (option_copied result) };

    /// Whether the work ahead is done.
    fn prepared(&self) -> bool
        ensures { result ≡ is_prepared self.now };

    /// Does the work ahead, which leaves less for the next advance. Out of memory, it may be called again.
    fn ahead<W: Wait>(
        &mut self,
        alloc: Global,
        rt: &W,
        memo: &Memo<MergeRecipe<J>>,
        caller: &mut Caller<MergeRecipe<J>>,
        job: &J,
        run: u64,
        m: &mut J::Meter,
    ) -> Result<(), AllocError>
        requires of { caller.old.locks ≡ memo.now.locks }
        requires covered { Covered caller.old (pins self.old) }
        requires no_draft { (view self.old).draft ≡ None }
        requires job { J.setting job.now ≡ (view self.old).setting }
        ensures ok { OnOk result (is_prepared self.new ≡ true) }

        // Whatever it returns:
        ensures same { view self.new ≡ view self.old }
        ensures covered { Covered caller.new (pins self.new) }
        ensures balanced { Balanced caller.old (pins self.old) caller.new (pins self.new) }
        ensures few { length (pins self.new) ≤ most self.new }
        ensures counted { RoseBy 0 (ahead_bound self.old) (ahead_bound self.old * distinct_keys (view self.old).leaves.tables) (J.Meter.counts m.old) (J.Meter.counts m.new) };
}
