//! A draft is kept apart from the level that it changes, so that it can be dropped without a trace.
ghost use Rattle.std.specs.Prelude.{◌≡◌, option_copied};
ghost use Rattle.folding_tree.specs.Levels.{IsFit, row_after, sheet_at};
ghost use Rattle.folding_tree.specs.Folding.{row_of, ahead_of};

use crate::level::Level;
use crate::part::Part;
use job_laws::Job;
use sheets::Sheet;
use std::collections::VecDeque;

/// What a level becomes when its draft is settled. Places are those of its nodes afterwards.
#[derive(Drop)]
pub(crate) struct Draft<J: Job> {
    /// The place, before, of the first node that stays.
    pub(crate) from: usize,
    /// The place of that node afterwards.
    pub(crate) low: usize,
    /// The end of the nodes that stay.
    pub(crate) mid: usize,
    /// The end of the level.
    pub(crate) high: usize,
    /// The places, among those of nodes that stay, that get another node.
    pub(crate) places: Vec<usize>,
    /// The nodes for these places.
    pub(crate) changed: VecDeque<Part<J>>,
    /// The nodes from `mid` on.
    pub(crate) fresh: VecDeque<Part<J>>,
}

/// The sheet at a place of the level when the draft is settled, if there is one.
pub(crate) fn next<'a, J: Job>(
    level: &'a Level<J>,
    draft: &'a Draft<J>,
    place: usize,
) -> Option<&'a Sheet<J>>
    requires { IsFit (row_of level.now) (ahead_of draft.now) }
    ensures { option_copied result ≡ sheet_at (row_after (row_of level.now) (ahead_of draft.now)) place }
{
    if place < draft.low {
        return None;
    }
    if place >= draft.high {
        return None;
    }
    if place >= draft.mid {
        return Some(draft.fresh[place - draft.mid].sheet());
    }
    match draft.places.as_slice().binary_search(&place) {
        Ok(i) => return Some(draft.changed[i].sheet()),
        Err(_) => {
            let gone = draft.from.saturating_sub(level.low);
            return Some(level.nodes[gone + (place - draft.low)].sheet());
        }
    }
}
