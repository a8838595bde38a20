//! The draft of the leaves, which takes no merge.
ghost use Rattle.std.specs.Prelude.{◌≡◌, ℕ, ◌+◌, ◌-◌, ◌<◌, ◌≤◌, [], All, IfOk, map, take, drop, length};
ghost use Rattle.std.specs.List.Sorted.{IsStrictlyIncreasing};
ghost use Rattle.tree_laws.specs.Pairs.{pair_digest};
ghost use Rattle.tree_laws.specs.Trees.{IsLeaf};
ghost use Rattle.folding_tree.specs.Folding.{draft_pins};

use crate::draft::Draft;
use crate::part::Part;
use crate::span::Span;
use job_laws::Job;
use record_text::Places;
use sheets::Sheet;
use std::alloc::{AllocError, Global};
use std::collections::VecDeque;

/// The draft in which the leaves from the place `from` on stay, at the places of `kept`; those at the `changed` places
/// among them become the first of the sheets, and the other sheets come after them, up to the end of `whole`.
pub(crate) fn begin<J: Job>(
    alloc: Global,
    from: usize,
    kept: Span,
    whole: Span,
    changed: &Places,
    news: &[Sheet<J>],
) -> Result<Draft<J>, AllocError>
    requires within { All (λ p. kept.low + p < kept.high) changed.now }
    requires enough { length changed.now ≤ length news.now }
    ensures numbers { IfOk result (λ draft. (draft.from ≡ from) × (draft.low ≡ kept.low) × (draft.mid ≡ kept.high) × (draft.high ≡ whole.high)) }
    ensures places { IfOk result (λ draft. draft.places.items ≡ map (λ p. kept.low + p) changed.now) }
    ensures rising { IfOk result (λ draft. IsStrictlyIncreasing changed.now) }
    ensures changed { IfOk result (λ draft. draft.changed.items ≡ map Part.Shared (take (length changed.now) news.now)) }
    ensures fresh { IfOk result (λ draft. draft.fresh.items ≡ map Part.Shared (drop (length changed.now) news.now)) }
    ensures leaves { (setting : ℕ) → All (λ s. s.setting ≡ setting) news.now → IfOk result (λ draft. All (IsLeaf J.good setting) news.now) }
    ensures pins { IfOk result (λ draft. draft_pins (pair_digest J.encoded) draft ≡ []) }
{
    let places = places_at(alloc, kept.low, kept.high, changed)?;
    let (again, fresh) = news.split_at(changed.len());
    let changed = share_all(alloc, again)?;
    let fresh = share_all(alloc, fresh)?;
    Ok(Draft {
        from,
        low: kept.low,
        mid: kept.high,
        high: whole.high,
        places,
        changed,
        fresh,
    })
}

// The places of the level, if the first leaf is at `low`.
fn places_at(
    alloc: Global,
    low: usize,
    high: usize,
    changed: &Places,
) -> Result<Vec<usize>, AllocError>
    requires { All (λ p. low + p < high) changed.now }
    ensures { IfOk result (λ places. places.items ≡ map (λ p. low + p) changed.now) }
{
    let mut places = Vec::new(alloc);
    'changed: for i in 0..changed.len() {
        places.push(low + changed.get(i))?;
    }
    Ok(places)
}

// Parts that share the sheets.
fn share_all<J: Job>(alloc: Global, sheets: &[Sheet<J>]) -> Result<VecDeque<Part<J>>, AllocError>
    ensures parts { IfOk result (λ parts. parts.items ≡ map Part.Shared sheets.now) }
    ensures leaves { IfOk result (λ parts. All (λ s. IsLeaf J.good s.setting s) sheets.now) }
{
    let mut parts = VecDeque::with_capacity(alloc, sheets.len())?;
    'sheets: for i in 0..sheets.len() {
        let sheet = sheets[i].share()?;
        parts.push_back_reserved(Part::Shared(sheet));
    }
    Ok(parts)
}
