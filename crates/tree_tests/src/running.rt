//! All that an engine does with a tree, for any tree: the trait is enough.
ghost use Rattle.std.specs.Prelude.{◌≡◌, ◌*◌, ◌≤◌, List, ◌++◌, length, All, None, OnOk, OnErr};
ghost use Rattle.job_laws.specs.Counted.{RoseBy};
ghost use Rattle.sheets.specs.United.{tables_of};
ghost use Rattle.record_text.specs.Shifts.{FitsShift, shifted};
ghost use Rattle.pin_table.specs.Covers.{PinName, Covered, Balanced};
ghost use Rattle.tree_laws.specs.Trees.{IsSettled, bound_of, distinct_keys};

use job_laws::{Job, Meter};
use pin_table::{Caller, Memo};
use record_text::Shift;
use sheets::Sheet;
use std::alloc::{AllocError, Global};
use std::sync::Wait;
use tree_laws::{MergeRecipe, Tree};

/// Gives the tree the leaves after the shift, or leaves it unchanged.
pub(crate) fn run_once<J: Job, T: Tree<J>, W: Wait>(
    alloc: Global,
    rt: &W,
    memo: &Memo<MergeRecipe<J>>,
    caller: &mut Caller<MergeRecipe<J>>,
    job: &J,
    run: u64,
    tree: &mut T,
    shift: &Shift,
    fresh: &[Sheet<J>],
    m: &mut J::Meter,
) -> Result<(), AllocError>
    requires of { caller.old.locks ≡ memo.now.locks }
    requires covered { Covered caller.old (T.pins tree.old) }
    requires no_draft { (T.view tree.old).draft ≡ None }
    requires fits { FitsShift T.KIND (T.view tree.old).places (T.view tree.old).leaves.first (length (T.view tree.old).leaves.tables) (length fresh.now) shift.now }
    requires job { J.setting job.now ≡ (T.view tree.old).setting }
    requires settings { All (λ s. s.setting ≡ (T.view tree.old).setting) fresh.now }
    ensures ok { OnOk result (IsSettled T.shaped shift.now fresh.now (T.view tree.old) (T.view tree.new)) }
    ensures err { OnErr result (T.view tree.new ≡ T.view tree.old) }

    // Whatever it returns:
    ensures covered { Covered caller.new (T.pins tree.new) }
    ensures balanced { Balanced caller.old (T.pins tree.old) caller.new (T.pins tree.new) }
    ensures few { length (T.pins tree.new) ≤ T.most tree.new }
    ensures counted { RoseBy 0 (bound_of T.view T.bound tree.old shift.now) (bound_of T.view T.bound tree.old shift.now * distinct_keys (shifted shift.now (tables_of fresh.now) (T.view tree.old).leaves.tables)) (J.Meter.counts m.old) (J.Meter.counts m.new) }
{
    match tree.advance(alloc, rt, memo, caller, job, run, shift, fresh, m) {
        Ok(()) => {
            tree.settle(rt, memo, caller);
            return Ok(());
        }
        Err(e) => {
            tree.revert(rt, memo, caller);
            return Err(e);
        }
    }
}

/// Runs a tree and drops it. Its pins stay on the memo's entries.
pub(crate) fn run_and_drop<J: Job, T: Tree<J>, W: Wait>(
    alloc: Global,
    rt: &W,
    memo: &Memo<MergeRecipe<J>>,
    caller: &mut Caller<MergeRecipe<J>>,
    job: &J,
    run: u64,
    mut tree: T,
    shift: &Shift,
    fresh: &[Sheet<J>],
    m: &mut J::Meter,
) -> Result<(), AllocError>
    requires of { caller.old.locks ≡ memo.now.locks }
    requires covered { Covered caller.old (T.pins tree) }
    requires no_draft { (T.view tree).draft ≡ None }
    requires fits { FitsShift T.KIND (T.view tree).places (T.view tree).leaves.first (length (T.view tree).leaves.tables) (length fresh.now) shift.now }
    requires job { J.setting job.now ≡ (T.view tree).setting }
    requires settings { All (λ s. s.setting ≡ (T.view tree).setting) fresh.now }
    ensures of { caller.new.locks ≡ caller.old.locks }
    ensures others { (ps : List PinName) → Covered caller.old (T.pins tree ++ ps) → Covered caller.new ps }
    ensures counted { RoseBy 0 (bound_of T.view T.bound tree shift.now) (bound_of T.view T.bound tree shift.now * distinct_keys (shifted shift.now (tables_of fresh.now) (T.view tree).leaves.tables)) (J.Meter.counts m.old) (J.Meter.counts m.new) }
{
    run_once(
        alloc, rt, memo, caller, job, run, &mut tree, shift, fresh, m,
    )
}
