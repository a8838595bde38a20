//! Which places are live, and how high the tree over them is.
ghost use Rattle.std.specs.Prelude.{◌≡◌, ℕ, ◌+◌, ◌*◌, ◌^◌, ◌<◌, ◌≤◌, IfSome, IfNone};
ghost use Rattle.folding_tree.specs.Shapes.{folded, with_fresh};
ghost use Rattle.folding_tree.specs.Folding.{IsHalf, span_shape};

/// Of `width` = 2^height places those from `low` to `high - 1` are live.
#[derive(Clone, Copy, Drop)]
pub(crate) struct Span {
    pub(crate) height: usize,
    pub(crate) width: usize,
    pub(crate) low: usize,
    pub(crate) high: usize,
}

/// While one half of the places is wholly void, the other half becomes the span.
pub(crate) fn fold(span: Span) -> Span
    requires wide { span.width ≡ 2 ^ span.height }
    requires some { span.low < span.high }
    requires fits { span.high ≤ span.width }
    ensures shape { span_shape result ≡ folded span.height span.low span.high }
    ensures wide { result.width ≡ 2 ^ result.height }
    ensures fits { result.high ≤ result.width }
    ensures lower { result.height ≤ span.height }
    ensures moved { (j : ℕ) × (span.low ≡ result.low + j * 2 ^ result.height) × (span.high ≡ result.high + j * 2 ^ result.height) }
{
    let mut span = span;
    'halves: while span.height > 0 {
        match live_half(span) {
            Some(half) => span = half,
            None => return span,
        }
    }
    span
}

// The half that is left if the other one is void.
fn live_half(span: Span) -> Option<Span>
    requires wide { span.width ≡ 2 ^ span.height }
    requires some { span.low < span.high }
    requires fits { span.high ≤ span.width }
    requires high { 0 < span.height }
    ensures none { IfNone result (folded span.height span.low span.high ≡ span_shape span) }
    ensures half { IfSome result (IsHalf span) }
{
    let half = span.width / 2;
    if span.high <= half {
        return Some(Span {
            height: span.height - 1,
            width: half,
            low: span.low,
            high: span.high,
        });
    }
    if half <= span.low {
        return Some(Span {
            height: span.height - 1,
            width: half,
            low: span.low - half,
            high: span.high - half,
        });
    }
    None
}

/// Adds `fresh` leaves after the others, and doubles the places until they suffice. `None` if there would be more
/// places than can be counted.
pub(crate) fn grow(span: Span, fresh: usize) -> Option<Span>
    requires wide { span.width ≡ 2 ^ span.height }
    requires fits { span.high ≤ span.width }
    ensures shape { IfSome result (λ grown. span_shape grown ≡ with_fresh fresh (span_shape span)) }
    ensures wide { IfSome result (λ grown. grown.width ≡ 2 ^ grown.height) }
    ensures fits { IfSome result (λ grown. grown.high ≤ grown.width) }
    ensures low { IfSome result (λ grown. (grown.low ≡ span.low) × (grown.high ≡ span.high + fresh)) }
    ensures higher { IfSome result (λ grown. span.height ≤ grown.height) }
    ensures doubled { IfSome result (λ grown. span.height < grown.height → span.high < grown.high) }
{
    let Some(high) = span.high.checked_add(fresh) else {
        return None;
    };
    let mut height = span.height;
    let mut width = span.width;
    'doubles: while width < high {
        let Some(twice) = width.checked_mul(2) else {
            return None;
        };
        width = twice;
        height += 1;
    }
    Some(Span {
        height,
        width,
        low: span.low,
        high,
    })
}
