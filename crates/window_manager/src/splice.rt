//! Keeps the splice of a document as changes come, by numbers alone.
ghost use Rattle.std.specs.Prelude.{◌≡◌, ◌≤◌, ◌+◌};
ghost use Rattle.window_manager.specs.Splices.{FitsSplice, splice_after};

use chunk_store::Change;
use record_text::Shift;

/// Composes the splice with a change, which made `new` leaves of `old` ones; `stood` were there at the last run. It
/// looks at numbers only.
pub fn splice_on(shift: &mut Shift, stood: usize, old: usize, new: usize, change: Change)
    requires fits { FitsSplice stood shift.old old }
    requires old { change.first + change.gone ≤ old }
    requires new { change.first + change.fresh ≤ new }
    requires kept { old + change.fresh ≡ new + change.gone }
    ensures after { shift.new ≡ splice_after stood old new shift.old change }
    ensures fits { FitsSplice stood shift.new new }
{
    match shift {
        Shift::Splice { first, gone, fresh } => {
            if change.gone == 0 && change.fresh == 0 {
                return;
            }
            if *gone == 0 && *fresh == 0 {
                *first = change.first;
                *gone = change.gone;
                *fresh = change.fresh;
                return;
            }
            let kept = (stood - (*first + *gone)).min(old - (change.first + change.gone));
            let from = (*first).min(change.first);
            *first = from;
            *gone = stood - kept - from;
            *fresh = new - kept - from;
        }
        Shift::Slide { .. } => unreachable!(),
    }
}
