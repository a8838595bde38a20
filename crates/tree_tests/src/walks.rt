//! Walks: a desk compared with a plain list of its window's leaves, which is merged without a tree.
use crate::desk::Desk;
use crate::leaves::{leaf, splice};
use job_laws::{CountMeter, Job};
use jobs_basic::Latest;
use record_text::Shift;
use sheets::Sheet;
use std::alloc::{AllocError, Global};
use std::sync::Wait;
use tree_laws::Tree;

/// The next pseudo-random number.
pub(crate) fn chance(before: u32) -> u32 {
    before.wrapping_mul(1103515245).wrapping_add(12345)
}

/// The leaves of a step of a walk. Their keys come again at other steps, with other values.
pub(crate) fn leaves_of_step(
    alloc: Global,
    step: usize,
    count: usize,
) -> Result<Vec<Sheet<Latest<CountMeter>>>, AllocError> {
    let job = Latest::new();
    let mut m = CountMeter::new();
    let mut news = Vec::new(alloc);
    'came: for k in 0..count {
        let key = b'a' + ((step % 12 * 7 + k % 12) % 12) as u8;
        let value = b'0' + (step % 10) as u8;
        news.push(leaf(alloc, &job, &[key, b'\t', value], &mut m)?)?;
    }
    Ok(news)
}

/// A run by the shift; at each third step a draft of it is dropped first. Returns whether the window can give it.
pub(crate) fn goes<J: Job, T: Tree<J>, W: Wait>(
    desk: &mut Desk<J, T>,
    alloc: Global,
    rt: &W,
    step: usize,
    shift: &Shift,
    news: &[Sheet<J>],
) -> Result<bool, AllocError> {
    if step % 3 == 0 && !desk.tries(alloc, rt, shift, news)? {
        return Ok(false);
    }
    desk.runs(alloc, rt, shift, news)
}

/// A step by a slide, by which `gone` of the oldest leaves go, and which brings these sheets, those of the changed
/// places first. Returns whether the root is then the plain merge of the window's leaves.
pub(crate) fn slides_on<J: Job, T: Tree<J>, W: Wait>(
    desk: &mut Desk<J, T>,
    alloc: Global,
    rt: &W,
    step: usize,
    gone: usize,
    changed: &[usize],
    news: Vec<Sheet<J>>,
    window: &mut Vec<Sheet<J>>,
    m: &mut J::Meter,
) -> Result<bool, AllocError> {
    let shift = desk.slide(alloc, gone, changed, news.len())?;
    let went = goes(desk, alloc, rt, step, &shift, news.as_slice())?;
    moves_on(window, gone, changed, news)?;
    Ok(went && desk.is_merge_of(alloc, window.as_slice(), m)?)
}

/// A step by a splice, by which `gone` leaves go from the `first`th on, and these sheets come. Returns whether the root
/// is then the plain merge of the document's leaves.
pub(crate) fn splices_on<J: Job, T: Tree<J>, W: Wait>(
    desk: &mut Desk<J, T>,
    alloc: Global,
    rt: &W,
    step: usize,
    first: usize,
    gone: usize,
    news: Vec<Sheet<J>>,
    window: &mut Vec<Sheet<J>>,
    m: &mut J::Meter,
) -> Result<bool, AllocError> {
    let shift = splice(first, gone, news.len());
    let went = goes(desk, alloc, rt, step, &shift, news.as_slice())?;
    is_spliced(window, first, gone, news)?;
    Ok(went && desk.is_merge_of(alloc, window.as_slice(), m)?)
}

// The leaves of a window after a slide.
fn moves_on<J: Job>(
    window: &mut Vec<Sheet<J>>,
    gone: usize,
    changed: &[usize],
    news: Vec<Sheet<J>>,
) -> Result<(), AllocError> {
    goes_first(window, gone);
    let mut k = 0usize;
    'news: for sheet in news {
        if k < changed.len() {
            let at = changed[k];
            if at < window.len() {
                window[at] = sheet;
            }
            k += 1;
        } else {
            window.push(sheet)?;
        }
    }
    Ok(())
}

// The leaves of a document after a splice.
fn is_spliced<J: Job>(
    window: &mut Vec<Sheet<J>>,
    first: usize,
    gone: usize,
    mut news: Vec<Sheet<J>>,
) -> Result<(), AllocError> {
    let mut behind = window.split_off(first.min(window.len()))?;
    goes_first(&mut behind, gone);
    window.append(&mut news)?;
    window.append(&mut behind)
}

// Removes a number of sheets from the front, or all.
fn goes_first<J: Job>(sheets: &mut Vec<Sheet<J>>, gone: usize) {
    'gone: for _ in 0..gone {
        if !sheets.is_empty() {
            sheets.remove(0);
        }
    }
}
