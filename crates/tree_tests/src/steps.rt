//! Steps at a desk, and what they must show.
use crate::desk::Desk;
use crate::leaves::splice;
use job_laws::Job;
use sheets::Sheet;
use std::alloc::{AllocError, Global};
use std::sync::Wait;
use tree_laws::Tree;

/// What a step does with its leaves.
#[derive(Clone, Copy, PartialEq, Eq)]
enum Deed {
    /// A run with them.
    Runs,
    /// A run whose draft is dropped.
    Tries,
    /// A run that is made once more if memory runs out.
    Insists,
    /// A run of another tree over the same memo.
    AnotherRuns,
    /// No run, but the work ahead of it.
    WorksAhead,
}

/// A step: `gone` leaves go, in a document from the `first`th on and elsewhere the oldest ones, and leaves of the
/// records of a text come, those of the changed places first. It must make `merges` merges, if the window can give the
/// shift, and then the root must have these lines.
#[derive(Clone, Copy)]
pub(crate) struct Step<'a> {
    deed: Deed,
    first: Option<usize>,
    gone: usize,
    changed: &'a [usize],
    records: &'a [u8],
    merges: Option<u64>,
    lines: &'a [u8],
}

/// A run.
pub(crate) fn runs<'a>(
    gone: usize,
    changed: &'a [usize],
    records: &'a [u8],
    merges: u64,
    lines: &'a [u8],
) -> Step<'a> {
    Step {
        deed: Deed::Runs,
        first: None,
        gone,
        changed,
        records,
        merges: Some(merges),
        lines,
    }
}

/// A run whose draft is dropped.
pub(crate) fn tries<'a>(
    gone: usize,
    changed: &'a [usize],
    records: &'a [u8],
    merges: u64,
    lines: &'a [u8],
) -> Step<'a> {
    Step {
        deed: Deed::Tries,
        ..runs(gone, changed, records, merges, lines)
    }
}

/// A run that is made once more if memory runs out.
pub(crate) fn insists<'a>(
    gone: usize,
    changed: &'a [usize],
    records: &'a [u8],
    lines: &'a [u8],
) -> Step<'a> {
    Step {
        deed: Deed::Insists,
        ..runs(gone, changed, records, 0, lines)
    }
}

/// A run of another tree, which leaves the root of the desk's tree unchanged.
pub(crate) fn another_runs<'a>(records: &'a [u8], merges: u64, lines: &'a [u8]) -> Step<'a> {
    Step {
        deed: Deed::AnotherRuns,
        ..runs(0, &[], records, merges, lines)
    }
}

/// The work ahead, which makes no merge in a tree that has none.
pub(crate) fn works_ahead<'a>(lines: &'a [u8]) -> Step<'a> {
    Step {
        deed: Deed::WorksAhead,
        ..runs(0, &[], b"", 0, lines)
    }
}

/// What a window cannot give.
pub(crate) fn refuses<'a>(
    gone: usize,
    changed: &'a [usize],
    records: &'a [u8],
    lines: &'a [u8],
) -> Step<'a> {
    Step {
        merges: None,
        ..runs(gone, changed, records, 0, lines)
    }
}

/// The same step in a document, whose leaves go and come from the `first`th on.
pub(crate) fn at<'a>(first: usize, step: Step<'a>) -> Step<'a> {
    Step {
        first: Some(first),
        ..step
    }
}

impl<J: Job, T: Tree<J>> Desk<J, T> {
    /// How many of the steps went as expected before one that did not.
    pub(crate) fn plays<W: Wait>(
        &mut self,
        alloc: Global,
        rt: &W,
        steps: &[Step],
    ) -> Result<usize, AllocError> {
        'steps: for i in 0..steps.len() {
            if !self.plays_one(alloc, rt, &steps[i])? {
                return Ok(i);
            }
        }
        Ok(steps.len())
    }

    // Whether a step went as expected.
    fn plays_one<W: Wait>(
        &mut self,
        alloc: Global,
        rt: &W,
        step: &Step,
    ) -> Result<bool, AllocError> {
        let news = self.leaves(alloc, step.records)?;
        let before = self.merges();
        let went = self.does(alloc, rt, step, news.as_slice())?;
        let made = self.merges().saturating_sub(before);
        let as_counted = match step.merges {
            Some(merges) => went && (merges == made || step.deed == Deed::Insists),
            None => !went && made == 0,
        };
        Ok(as_counted && self.shows(alloc, step.lines)?)
    }

    // Does the step with its leaves. Returns whether the window can give the shift.
    fn does<W: Wait>(
        &mut self,
        alloc: Global,
        rt: &W,
        step: &Step,
        news: &[Sheet<J>],
    ) -> Result<bool, AllocError> {
        let shift = match step.first {
            Some(first) => splice(first, step.gone, news.len()),
            None => self.slide(alloc, step.gone, step.changed, news.len())?,
        };
        match step.deed {
            Deed::Runs => self.runs(alloc, rt, &shift, news),
            Deed::Tries => self.tries(alloc, rt, &shift, news),
            Deed::Insists => self.insists(alloc, rt, &shift, news),
            Deed::AnotherRuns => self.another_runs(alloc, rt, &shift, news),
            Deed::WorksAhead => self.works_ahead(alloc, rt),
        }
    }
}
