//! A merge walks over two tables, so it is first looked up by its two sheets.
ghost use Rattle.std.specs.Prelude.{◌≡◌, ◌<◌, ◌⊎◌, [], true, false, IfOk, OnOk, OnErr};
ghost use Rattle.std.specs.List.{list_any};
ghost use Rattle.definitions.specs.Tables.{common_keys};
ghost use Rattle.job_laws.specs.Counted.{risen, RoseBy};
ghost use Rattle.pin_table.specs.Known.{CallerFits, IsWorn};
ghost use Rattle.pin_table.specs.Covers.{Got};
ghost use Rattle.pin_table.specs.OwnEvents.{Met, IsKnown, there, gained, is_hit, is_miss};
ghost use Rattle.tree_laws.specs.Holds.{sheet_of, IsHeld};
ghost use Rattle.tree_laws.specs.Pairs.{merge_of, pair_of, pair_digest};

use crate::{Hold, MergeRecipe, Pair};
use job_laws::{Job, Meter};
use pin_table::{Caller, KeepRefused, Kept, Looked, Memo, MemoFault};
use sheets::{Sheet, merge_sheets};
use std::alloc::{AllocError, Global};
use std::sync::Wait;

/// The merge of two sheets, `a` on the left: that of the memo if a look hits, otherwise it is made and kept. It takes
/// one or two turns at the shard of the pair's digest, and may block.
pub fn merge_through<J: Job, W: Wait>(
    alloc: Global,
    rt: &W,
    memo: &Memo<MergeRecipe<J>>,
    caller: &mut Caller<MergeRecipe<J>>,
    job: &J,
    run: u64,
    a: &Sheet<J>,
    b: &Sheet<J>,
    m: &mut J::Meter,
) -> Result<Hold<J>, AllocError>
    requires of { caller.old.locks ≡ memo.now.locks }
    requires left { a.now.setting ≡ J.setting job.now }
    requires right { b.now.setting ≡ J.setting job.now }
    ensures value { IfOk result (λ hold. sheet_of hold ≡ merge_of J.joined (pair_of a.now b.now)) }
    ensures held { IfOk result (λ hold. IsHeld (pair_digest J.encoded) (pair_of a.now b.now) caller.old caller.new hold) }
    ensures unheld { OnErr result (Got caller.old [] caller.new) }

    // A merge is made at most once, and only if no look hit; a look for a known pair hits, unless it met a clash or a
    // worn lock.
    ensures looked { let digest = pair_digest J.encoded (pair_of a.now b.now) in (J.Meter.counts m.old).merges < (J.Meter.counts m.new).merges → (list_any (is_miss digest) (gained digest caller.old caller.new) ≡ true) ⊎ IsWorn (there digest caller.old) caller.new }
    ensures known { let digest = pair_digest J.encoded (pair_of a.now b.now) in IsKnown digest caller.old → (J.Meter.counts m.new ≡ J.Meter.counts m.old) ⊎ Met caller.old caller.new }
    ensures hit { let digest = pair_digest J.encoded (pair_of a.now b.now) in list_any (is_hit digest) (gained digest caller.old caller.new) ≡ true → J.Meter.counts m.new ≡ J.Meter.counts m.old }
    ensures made { let digest = pair_digest J.encoded (pair_of a.now b.now) in OnOk result (list_any (is_hit digest) (gained digest caller.old caller.new) ≡ false → (J.Meter.counts m.new).merges ≡ risen (J.Meter.counts m.old).merges) }
    ensures counted { RoseBy 0 1 (common_keys a.now.entries b.now.entries) (J.Meter.counts m.old) (J.Meter.counts m.new) }
{
    let left = a.share()?;
    let right = b.share()?;
    let pair = Pair { left, right };
    merge_pair(alloc, rt, memo, caller, job, run, pair, m)
}

// The merge of a pair.
fn merge_pair<J: Job, W: Wait>(
    alloc: Global,
    rt: &W,
    memo: &Memo<MergeRecipe<J>>,
    caller: &mut Caller<MergeRecipe<J>>,
    job: &J,
    run: u64,
    pair: Pair<J>,
    m: &mut J::Meter,
) -> Result<Hold<J>, AllocError>
    requires of { caller.old.locks ≡ memo.now.locks }
    requires setting { pair.setting ≡ J.setting job.now }
    ensures value { IfOk result (λ hold. sheet_of hold ≡ merge_of J.joined pair) }
    ensures held { IfOk result (λ hold. IsHeld (pair_digest J.encoded) pair caller.old caller.new hold) }
    ensures unheld { OnErr result (Got caller.old [] caller.new) }
    ensures looked { let digest = pair_digest J.encoded pair in (J.Meter.counts m.old).merges < (J.Meter.counts m.new).merges → (list_any (is_miss digest) (gained digest caller.old caller.new) ≡ true) ⊎ IsWorn (there digest caller.old) caller.new }
    ensures known { let digest = pair_digest J.encoded pair in IsKnown digest caller.old → (J.Meter.counts m.new ≡ J.Meter.counts m.old) ⊎ Met caller.old caller.new }
    ensures hit { let digest = pair_digest J.encoded pair in list_any (is_hit digest) (gained digest caller.old caller.new) ≡ true → J.Meter.counts m.new ≡ J.Meter.counts m.old }
    ensures made { let digest = pair_digest J.encoded pair in OnOk result (list_any (is_hit digest) (gained digest caller.old caller.new) ≡ false → (J.Meter.counts m.new).merges ≡ risen (J.Meter.counts m.old).merges) }
    ensures counted { RoseBy 0 1 (common_keys pair.left pair.right) (J.Meter.counts m.old) (J.Meter.counts m.new) }
{
    let _ = caller.number();
    match memo.look(rt, caller, run, &pair) {
        Ok(Looked::Hit(pin)) => return Ok(Hold::Pinned(pin)),
        Ok(Looked::Absent) => return merge_and_keep(alloc, rt, memo, caller, job, run, pair, m),
        Ok(Looked::Clash(_)) => return merge_and_keep(alloc, rt, memo, caller, job, run, pair, m),
        Err(MemoFault::Worn { ticket: _ }) => {
            return merge_and_keep(alloc, rt, memo, caller, job, run, pair, m);
        }
        Err(MemoFault::Mem) => return Err(AllocError),
    }
}

// Merges the pair and keeps the merge.
fn merge_and_keep<J: Job, W: Wait>(
    alloc: Global,
    rt: &W,
    memo: &Memo<MergeRecipe<J>>,
    caller: &mut Caller<MergeRecipe<J>>,
    job: &J,
    run: u64,
    pair: Pair<J>,
    m: &mut J::Meter,
) -> Result<Hold<J>, AllocError>
    requires of { caller.old.locks ≡ memo.now.locks }
    requires setting { pair.setting ≡ J.setting job.now }
    ensures value { IfOk result (λ hold. sheet_of hold ≡ merge_of J.joined pair) }
    ensures held { IfOk result (λ hold. IsHeld (pair_digest J.encoded) pair caller.old caller.new hold) }
    ensures unheld { OnErr result (Got caller.old [] caller.new) }
    ensures quiet { let digest = pair_digest J.encoded pair in list_any (is_hit digest) (gained digest caller.old caller.new) ≡ false }
    ensures merges { (J.Meter.counts m.new).merges ≡ risen (J.Meter.counts m.old).merges }
    ensures counted { RoseBy 0 1 (common_keys pair.left pair.right) (J.Meter.counts m.old) (J.Meter.counts m.new) }
{
    let _ = caller.number();
    let sheet = match merge_sheets(alloc, job, &pair.left, &pair.right, m) {
        Ok(sheet) => sheet,
        Err(e) => return Err(e),
    };
    match memo.keep(rt, caller, run, pair, sheet) {
        Ok(Kept::Stored(pin)) => return Ok(Hold::Pinned(pin)),
        Ok(Kept::Found(pin)) => return Ok(Hold::Pinned(pin)),
        Ok(Kept::Clash(_, _, sheet)) => return Ok(Hold::Loose(sheet)),
        Err(refused) => {
            let KeepRefused {
                fault,
                input: _,
                out,
            } = refused;
            match fault {
                MemoFault::Worn { ticket: _ } => return Ok(Hold::Loose(out)),
                MemoFault::Mem => return Err(AllocError),
            }
        }
    }
}
