//! The draft of a level, from that of the level below: half as many nodes leave, come and change.
ghost use Rattle.std.specs.Prelude.{◌≡◌, ℕ, ◌+◌, ◌-◌, ◌*◌, ◌/◌, ◌<◌, ◌≤◌, List, [], true, IfOk, OnErr};
ghost use Rattle.job_laws.specs.Counted.{RoseBy};
ghost use Rattle.pin_table.specs.OwnEvents.{Met};
ghost use Rattle.tree_laws.specs.Pairs.{pair_digest};
ghost use Rattle.tree_laws.specs.Trees.{IsLeaf, IsWithin, distinct_keys};
ghost use Rattle.folding_tree.specs.Levels.{IsFit, IsRaised, EachSheet, row_after, beyond, ahead_loose};
ghost use Rattle.folding_tree.specs.Folding.{row_of, ahead_of, draft_pins};
ghost use Rattle.tree_laws.specs.Trades.{Trades};

use crate::draft::Draft;
use crate::letting::let_last_go;
use crate::level::Level;
use crate::making::make_all;
use crate::parents::{parents_of, places_between};
use job_laws::{Job, Meter};
use pin_table::{Caller, Memo};
use std::alloc::{AllocError, Global};
use std::sync::Wait;
use tree_laws::MergeRecipe;

/// Makes the draft of the level over one that has its draft. If it fails, it leaves no pin. It takes at most two
/// merges, and one for each changed place and each fresh node below, less one for each fresh node of its own.
pub(crate) fn raise<J: Job, W: Wait>(
    alloc: Global,
    rt: &W,
    memo: &Memo<MergeRecipe<J>>,
    caller: &mut Caller<MergeRecipe<J>>,
    job: &J,
    run: u64,
    below: &Level<J>,
    draft: &Draft<J>,
    m: &mut J::Meter,
) -> Result<Draft<J>, AllocError>
    requires of { caller.old.locks ≡ memo.now.locks }
    requires fits { IsFit (row_of below.now) (ahead_of draft.now) }
    requires begins { draft.now.low ≡ draft.now.high → draft.now.low ≡ 0 }
    requires leaves { EachSheet (IsLeaf J.good (J.setting job.now)) (row_after (row_of below.now) (ahead_of draft.now)) }
    ensures raised { IfOk result (λ above. IsRaised J.joined (row_of below.now) (ahead_of draft.now) (ahead_of above)) }
    ensures trades { IfOk result (λ above. Trades caller.old [] caller.new (draft_pins (pair_digest J.encoded) above)) }
    ensures loose { IfOk result (λ above. ahead_loose (ahead_of above) ≡ true → Met caller.old caller.new) }
    ensures err { OnErr result (Trades caller.old [] caller.new []) }
    ensures counted { (ts : List (List (List ℕ × J.Val))) → EachSheet (λ s. IsWithin s.entries ts) (row_after (row_of below.now) (ahead_of draft.now)) → let n = 2 + beyond draft.now.low draft.now.places.items + (draft.now.high - draft.now.mid) in RoseBy 0 n (n * distinct_keys ts) (J.Meter.counts m.old) (J.Meter.counts m.new) }
    ensures spared { IfOk result (λ above. (ts : List (List (List ℕ × J.Val))) → EachSheet (λ s. IsWithin s.entries ts) (row_after (row_of below.now) (ahead_of draft.now)) → let n = 2 + beyond draft.now.low draft.now.places.items + (draft.now.high - draft.now.mid) - (above.high - above.mid) in RoseBy 0 n (n * distinct_keys ts) (J.Meter.counts m.old) (J.Meter.counts m.new)) }
{
    let high = draft.high / 2 + draft.high % 2;
    let mid = end_of_kept(draft, high);
    let places = match parents_of(alloc, below, draft, mid) {
        Ok(places) => places,
        Err(e) => return Err(e),
    };
    let behind = match places_between(alloc, mid, high) {
        Ok(behind) => behind,
        Err(e) => return Err(e),
    };
    let mut changed = match make_all(
        alloc,
        rt,
        memo,
        caller,
        job,
        run,
        below,
        draft,
        places.as_slice(),
        m,
    ) {
        Ok(changed) => changed,
        Err(e) => return Err(e),
    };
    match make_all(
        alloc,
        rt,
        memo,
        caller,
        job,
        run,
        below,
        draft,
        behind.as_slice(),
        m,
    ) {
        Ok(fresh) => {
            return Ok(Draft {
                from: draft.from / 2,
                low: draft.low / 2,
                mid,
                high,
                places,
                changed,
                fresh,
            });
        }
        Err(e) => {
            let_last_go(rt, memo, caller, &mut changed, 0);
            return Err(e);
        }
    }
}

// The end of those nodes of the level above that have no fresh ones below.
fn end_of_kept<J: Job>(draft: &Draft<J>, high: usize) -> usize
    ensures some { draft.now.mid < draft.now.high → result ≡ draft.now.mid / 2 }
    ensures none { draft.now.high ≤ draft.now.mid → result ≡ high }
{
    if draft.mid < draft.high {
        draft.mid / 2
    } else {
        high
    }
}
