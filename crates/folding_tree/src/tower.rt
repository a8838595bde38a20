//! An advance over all levels: the draft of the leaves, then that of each level from the one below.
ghost use Rattle.std.specs.Prelude.{◌≡◌, ℕ, List, ◌+◌, ◌-◌, ◌*◌, ◌^◌, ◌<◌, ◌≤◌, ◌⊎◌, [], suc, true, false, All, IfOk, OnOk, OnErr, length, take, drop, ◌++◌};
ghost use Rattle.job_laws.specs.Counted.{RoseBy};
ghost use Rattle.sheets.specs.United.{tables_of};
ghost use Rattle.record_text.specs.Shifts.{put_at};
ghost use Rattle.pin_table.specs.OwnEvents.{Met};
ghost use Rattle.tree_laws.specs.Pairs.{pair_digest};
ghost use Rattle.tree_laws.specs.Trees.{IsLeaf, IsWithin, distinct_keys};
ghost use Rattle.folding_tree.specs.Shapes.{without, with_fresh};
ghost use Rattle.folding_tree.specs.Levels.{IsTower, IsOver, IsBegun, EachSheet, IsPlain, sheets_of, rows_loose, ahead_loose};
ghost use Rattle.folding_tree.specs.Folding.{IsTree, IsAdvanced, IsMoved, AreFit, HaveRoom, shape_of, span_shape, rows_of, aheads_of, rows_after, levels_pins, drafts_pins};
ghost use Rattle.tree_laws.specs.Trades.{Trades};

use crate::beginning::begin;
use crate::deepening::{deepen, make_room};
use crate::draft::Draft;
use crate::letting::let_drafts_go;
use crate::level::Level;
use crate::raising::raise;
use crate::span::{Span, fold, grow};
use crate::standing::Standing;
use job_laws::{Job, Meter};
use pin_table::{Caller, Memo};
use record_text::Places;
use sheets::Sheet;
use std::alloc::{AllocError, Global};
use std::sync::Wait;
use tree_laws::MergeRecipe;

/// Makes the drafts of the shifted leaves and of all levels over them: `gone` leaves go, those at the `changed` places
/// of the others become the first of the sheets, and the rest come after them. It returns the places of the leaves
/// afterwards. Out of memory, there is no draft.
pub(crate) fn advance<J: Job, W: Wait>(
    alloc: Global,
    rt: &W,
    memo: &Memo<MergeRecipe<J>>,
    caller: &mut Caller<MergeRecipe<J>>,
    job: &J,
    run: u64,
    at: Standing,
    levels: &mut Vec<Level<J>>,
    drafts: &mut Vec<Draft<J>>,
    first: u64,
    gone: usize,
    changed: &Places,
    came: usize,
    news: &[Sheet<J>],
    m: &mut J::Meter,
) -> Result<Standing, AllocError>
    requires of { caller.old.locks ≡ memo.now.locks }
    requires none { drafts.old.items ≡ [] }
    requires deep { at.height < length levels.old.items }
    requires tree { IsTree J.good J.joined (J.setting job.now) at (rows_of levels.old.items) }
    requires within { gone ≤ length (rows_of levels.old.items 0).parts }
    requires changed { All (λ p. p < length (rows_of levels.old.items 0).parts - gone) changed.now }
    requires news { length news.now ≡ length changed.now + came }
    requires settings { All (λ s. s.setting ≡ J.setting job.now) news.now }
    ensures ok { IfOk result (λ next. IsAdvanced J.good J.joined (J.setting job.now) at first gone changed.now came news.now levels.old.items levels.new.items drafts.new.items next) }
    ensures err { OnErr result (drafts.new.items ≡ []) }
    ensures deep { length levels.old.items ≤ length levels.new.items }
    ensures rows { (k : ℕ) → rows_of levels.new.items k ≡ rows_of levels.old.items k }
    ensures pins { levels_pins (pair_digest J.encoded) levels.new.items ≡ levels_pins (pair_digest J.encoded) levels.old.items }
    ensures trades { Trades caller.old [] caller.new (drafts_pins (pair_digest J.encoded) drafts.new.items) }
    ensures loose { IfOk result (λ next. rows_loose (suc next.height) (rows_after levels.new.items drafts.new.items) ≡ true → (rows_loose (suc at.height) (rows_of levels.old.items) ≡ true) ⊎ Met caller.old caller.new) }
    ensures counted { let n = came + (2 + length changed.now) * (with_fresh came (without gone (shape_of at.height (rows_of levels.old.items 0)))).height in RoseBy 0 n (n * distinct_keys (tables_of (put_at changed.now news.now (drop gone (sheets_of (rows_of levels.old.items 0).parts)) ++ drop (length changed.now) news.now))) (J.Meter.counts m.old) (J.Meter.counts m.new) }
{
    let low = levels[0].low;
    let count = levels[0].nodes.len();
    let kept = span_of_kept(at, low, count, gone);
    let Some(whole) = grow(kept, came) else {
        return Err(AllocError);
    };
    match build(
        alloc,
        rt,
        memo,
        caller,
        job,
        run,
        levels,
        drafts,
        low + gone,
        kept,
        whole,
        changed,
        news,
        m,
    ) {
        Ok(()) => {
            return Ok(Standing {
                first,
                height: whole.height,
                width: whole.width,
            });
        }
        Err(e) => {
            let_drafts_go(rt, memo, caller, drafts);
            return Err(e);
        }
    }
}

// The folded places of the leaves that stay if `gone` of `count` leave.
fn span_of_kept(at: Standing, low: usize, count: usize, gone: usize) -> Span
    requires wide { at.width ≡ 2 ^ at.height }
    requires fits { low + count ≤ at.width }
    requires within { gone ≤ count }
    ensures shape { span_shape result ≡ without gone (record { height = at.height; low = low; high = low + count }) }
    ensures wide { result.width ≡ 2 ^ result.height }
    ensures fits { result.high ≤ result.width }
    ensures lower { result.height ≤ at.height }
    ensures count { result.high ≡ result.low + (count - gone) }
    ensures none { count ≡ gone → result.low ≡ 0 }
    ensures moved { gone < count → (j : ℕ) × (low + gone ≡ result.low + j * 2 ^ result.height) }
{
    if gone < count {
        return fold(Span {
            height: at.height,
            width: at.width,
            low: low + gone,
            high: low + count,
        });
    }
    Span {
        height: 0,
        width: 1,
        low: 0,
        high: 0,
    }
}

// Makes the drafts of all levels. If it fails, those made before are there.
fn build<J: Job, W: Wait>(
    alloc: Global,
    rt: &W,
    memo: &Memo<MergeRecipe<J>>,
    caller: &mut Caller<MergeRecipe<J>>,
    job: &J,
    run: u64,
    levels: &mut Vec<Level<J>>,
    drafts: &mut Vec<Draft<J>>,
    from: usize,
    kept: Span,
    whole: Span,
    changed: &Places,
    news: &[Sheet<J>],
    m: &mut J::Meter,
) -> Result<(), AllocError>
    requires of { caller.old.locks ≡ memo.now.locks }
    requires none { drafts.old.items ≡ [] }
    requires over { (k : ℕ) → k < kept.height → IsOver J.joined (rows_of levels.old.items k) (rows_of levels.old.items (suc k)) }
    requires plain { All IsPlain (rows_of levels.old.items 0).parts }
    requires leaves { All (IsLeaf J.good (J.setting job.now)) (sheets_of (rows_of levels.old.items 0).parts) }
    requires kept { (kept.low ≤ kept.high) × (kept.high ≤ 2 ^ kept.height) }
    requires whole { (whole.low ≡ kept.low) × (kept.high ≤ whole.high) × (whole.high ≤ 2 ^ whole.height) × (kept.height ≤ whole.height) }
    requires starts { kept.low ≡ kept.high → kept.low ≡ 0 }
    requires grows { (kept.height ≡ whole.height) ⊎ (kept.high < whole.high) }
    requires stays { kept.low < kept.high → IsMoved (rows_of levels.old.items 0) from kept }
    requires changed { All (λ p. kept.low + p < kept.high) changed.now }
    requires news { kept.high + length news.now ≡ whole.high + length changed.now }
    requires settings { All (λ s. s.setting ≡ J.setting job.now) news.now }
    ensures count { OnOk result (length drafts.new.items ≡ whole.height + 1) }
    ensures deep { OnOk result (length drafts.new.items ≤ length levels.new.items) }
    ensures fit { OnOk result (AreFit levels.new.items drafts.new.items) }
    ensures room { OnOk result (HaveRoom levels.new.items drafts.new.items) }
    ensures tower { OnOk result (IsTower J.joined whole.height (rows_after levels.new.items drafts.new.items)) }
    ensures leaves { OnOk result (sheets_of (rows_after levels.new.items drafts.new.items 0).parts ≡ put_at changed.now news.now (take (kept.high - kept.low) (drop (from - (rows_of levels.old.items 0).low) (sheets_of (rows_of levels.old.items 0).parts))) ++ drop (length changed.now) news.now) }
    ensures sound { OnOk result (All (IsLeaf J.good (J.setting job.now)) (sheets_of (rows_after levels.new.items drafts.new.items 0).parts)) }
    ensures low { OnOk result ((rows_after levels.new.items drafts.new.items 0).low ≡ whole.low) }
    ensures high { OnOk result ((rows_after levels.new.items drafts.new.items 0).low + length (rows_after levels.new.items drafts.new.items 0).parts ≡ whole.high) }
    ensures more { length levels.old.items ≤ length levels.new.items }
    ensures rows { (k : ℕ) → rows_of levels.new.items k ≡ rows_of levels.old.items k }
    ensures pins { levels_pins (pair_digest J.encoded) levels.new.items ≡ levels_pins (pair_digest J.encoded) levels.old.items }
    ensures trades { Trades caller.old [] caller.new (drafts_pins (pair_digest J.encoded) drafts.new.items) }
    ensures loose { (k : ℕ) → ahead_loose (aheads_of drafts.new.items k) ≡ true → Met caller.old caller.new }
    ensures counted { let n = whole.high - kept.high + (2 + length changed.now) * whole.height in RoseBy 0 n (n * distinct_keys (tables_of (put_at changed.now news.now (take (kept.high - kept.low) (drop (from - (rows_of levels.old.items 0).low) (sheets_of (rows_of levels.old.items 0).parts))) ++ drop (length changed.now) news.now))) (J.Meter.counts m.old) (J.Meter.counts m.new) }
{
    match deepen(alloc, levels, whole.height) {
        Ok(()) => (),
        Err(e) => return Err(e),
    }
    let leaves = match begin(alloc, from, kept, whole, changed, news) {
        Ok(leaves) => leaves,
        Err(e) => return Err(e),
    };
    match drafts.reserve(1) {
        Ok(()) => (),
        Err(e) => return Err(e),
    }
    drafts.push_reserved(leaves);
    match climb(
        alloc,
        rt,
        memo,
        caller,
        job,
        run,
        levels.as_slice(),
        drafts,
        whole.height,
        m,
    ) {
        Ok(()) => (),
        Err(e) => return Err(e),
    }
    match make_room(levels, drafts.as_slice()) {
        Ok(()) => return Ok(()),
        Err(e) => return Err(e),
    }
}

// Makes the drafts of the levels over the first one, each from the one below.
fn climb<J: Job, W: Wait>(
    alloc: Global,
    rt: &W,
    memo: &Memo<MergeRecipe<J>>,
    caller: &mut Caller<MergeRecipe<J>>,
    job: &J,
    run: u64,
    levels: &[Level<J>],
    drafts: &mut Vec<Draft<J>>,
    height: usize,
    m: &mut J::Meter,
) -> Result<(), AllocError>
    requires of { caller.old.locks ≡ memo.now.locks }
    requires one { length drafts.old.items ≡ 1 }
    requires deep { height < length levels.now }
    requires begun { IsBegun J.joined height (rows_of levels.now) (aheads_of drafts.old.items 0) }
    requires leaves { EachSheet (IsLeaf J.good (J.setting job.now)) (rows_after levels.now drafts.old.items 0) }
    requires plain { ahead_loose (aheads_of drafts.old.items 0) ≡ false }
    ensures count { OnOk result (length drafts.new.items ≡ height + 1) }
    ensures fit { AreFit levels.now drafts.new.items }
    ensures over { OnOk result ((k : ℕ) → k < height → IsOver J.joined (rows_after levels.now drafts.new.items k) (rows_after levels.now drafts.new.items (suc k))) }
    ensures first { aheads_of drafts.new.items 0 ≡ aheads_of drafts.old.items 0 }
    ensures trades { Trades caller.old (drafts_pins (pair_digest J.encoded) drafts.old.items) caller.new (drafts_pins (pair_digest J.encoded) drafts.new.items) }
    ensures loose { (k : ℕ) → ahead_loose (aheads_of drafts.new.items k) ≡ true → Met caller.old caller.new }
    ensures counted { (ts : List (List (List ℕ × J.Val))) → EachSheet (λ s. IsWithin s.entries ts) (rows_after levels.now drafts.old.items 0) → let leaves = aheads_of drafts.old.items 0 in let n = leaves.high - leaves.mid + (2 + length leaves.places) * height in RoseBy 0 n (n * distinct_keys ts) (J.Meter.counts m.old) (J.Meter.counts m.new) }
{
    'levels: for k in 0..height {
        match drafts.reserve(1) {
            Ok(()) => (),
            Err(e) => return Err(e),
        }
        match raise(alloc, rt, memo, caller, job, run, &levels[k], &drafts[k], m) {
            Ok(above) => drafts.push_reserved(above),
            Err(e) => return Err(e),
        }
    }
    Ok(())
}
