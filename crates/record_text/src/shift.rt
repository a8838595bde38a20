//! How the leaves of a window changed, as the window says it to the engine. `specs/Shifts.antt` says what a shift makes
//! of a list, and which shifts a window can give.
use crate::Places;

/// How the leaves of a window changed since its last run.
#[derive(Drop)]
pub enum Shift {
    /// The `gone` oldest leaves left, those at `places` of the present list gained records, and `fresh` ones came at
    /// the end. `first` is the number of the window's first bucket, or of the next one if there is none; buckets are
    /// counted from 0.
    Slide {
        first: u64,
        gone: usize,
        places: Places,
        fresh: usize,
    },
    /// From the leaf at `first` on, `gone` leaves became `fresh` new ones.
    Splice {
        first: usize,
        gone: usize,
        fresh: usize,
    },
}
