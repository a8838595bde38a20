//! Room for a draft, which is reserved before it is made, so that settling takes no memory.
ghost use Rattle.std.specs.Prelude.{◌≡◌, ◌<◌, ◌≤◌, ◌-◌, ◌++◌, [], length, OnOk, ℕ};
ghost use Rattle.std.specs.VecDeque.{deque_capacity};
ghost use Rattle.tree_laws.specs.Pairs.{pair_digest};
ghost use Rattle.folding_tree.specs.Folding.{row_of, rows_of, levels_pins, HaveRoom};

use crate::draft::Draft;
use crate::level::Level;
use job_laws::Job;
use std::alloc::{AllocError, Global};
use std::collections::VecDeque;

/// Adds levels without nodes until there are levels above this height.
pub(crate) fn deepen<J: Job>(
    alloc: Global,
    levels: &mut Vec<Level<J>>,
    height: usize,
) -> Result<(), AllocError>
    ensures deep { OnOk result (height < length levels.new.items) }
    ensures more { length levels.old.items ≤ length levels.new.items }
    ensures rows { (k : ℕ) → rows_of levels.new.items k ≡ rows_of levels.old.items k }
    ensures pins { levels_pins (pair_digest J.encoded) levels.new.items ≡ levels_pins (pair_digest J.encoded) levels.old.items }
{
    'levels: while levels.len() <= height {
        let level = Level {
            low: 0,
            nodes: VecDeque::new(alloc),
        };
        match levels.push(level) {
            Ok(()) => (),
            Err(_) => return Err(AllocError),
        }
    }
    Ok(())
}

/// Reserves room in each level for the nodes that its draft leaves there.
pub(crate) fn make_room<J: Job>(
    levels: &mut Vec<Level<J>>,
    drafts: &[Draft<J>],
) -> Result<(), AllocError>
    requires { length drafts.now ≤ length levels.old.items }
    ensures room { OnOk result (HaveRoom levels.new.items drafts.now) }
    ensures count { length levels.new.items ≡ length levels.old.items }
    ensures rows { (k : ℕ) → rows_of levels.new.items k ≡ rows_of levels.old.items k }
    ensures pins { levels_pins (pair_digest J.encoded) levels.new.items ≡ levels_pins (pair_digest J.encoded) levels.old.items }
{
    'levels: for k in 0..drafts.len() {
        let draft = &drafts[k];
        let count = draft.high.saturating_sub(draft.low);
        match make_room_in(&mut levels[k], count) {
            Ok(()) => (),
            Err(e) => return Err(e),
        }
    }
    Ok(())
}

// Reserves room for a total number of nodes.
fn make_room_in<J: Job>(level: &mut Level<J>, count: usize) -> Result<(), AllocError>
    ensures room { OnOk result (count ≤ deque_capacity level.new.nodes) }
    ensures row { row_of level.new ≡ row_of level.old }
{
    let more = count.saturating_sub(level.nodes.len());
    level.nodes.reserve(more)
}
