//! A tree of any kind at work, with its memo and caller, its job, and the window of its leaves.
ghost use Rattle.std.specs.Prelude.{◌≡◌, All, IsTrue};

use crate::leaves::{leaves, lines_of, plain, slide};
use crate::running::{run_and_drop, run_once};
use crate::window::Window;
use job_laws::{Job, Meter};
use memo_core::Event;
use pin_table::{Caller, Memo};
use record_text::Shift;
use sheets::{Sheet, same_sheet};
use std::alloc::{AllocError, Global};
use std::marker::Model;
use std::sync::Wait;
use tree_laws::{MergeRecipe, Tree};

/// A tree without a draft, and all that its calls ask for.
#[derive(Drop)]
pub(crate) struct Desk<J: Job, T: Tree<J>> {
    job: J,
    memo: Memo<MergeRecipe<J>>,
    caller: Caller<MergeRecipe<J>>,
    tree: T,
    m: J::Meter,
    window: Window,
}

impl<J: Job, T: Tree<J>> Model for Desk<J, T> {
    ghost use Rattle.std.specs.Prelude.{ℕ};
    ghost use Rattle.tree_tests.specs.Desks.{IsSeated};

    ghost Value = { ℕ };

    ghost view = { λ d. d.window.count };

    ghost invariant = { λ d. IsSeated d.memo d.caller (T.pins d.tree) (T.view d.tree) (J.setting d.job) d.window.places d.window.first d.window.count };
}

impl<J: Job, T: Tree<J>> Desk<J, T> {
    /// A tree without leaves, of 1 to 4,096 places, over a memo whose locks start at `start`, at most 2^62.
    pub(crate) fn new(
        alloc: Global,
        job: J,
        m: J::Meter,
        places: u32,
        start: u64,
    ) -> Result<Desk<J, T>, AllocError> {
        let places = places.clamp(1, 4096);
        let (memo, mut callers) = Memo::starting_at(alloc, start.min(1 << 62), 1, 1)?;
        let caller = match callers.pop() {
            Some(caller) => caller,
            None => unreachable!(),
        };
        let tree = T::fresh(alloc, job.setting(), places)?;
        Ok(Desk {
            job,
            memo,
            caller,
            tree,
            m,
            window: Window {
                places,
                first: 0,
                count: 0,
            },
        })
    }

    /// A run by the shift, which brings these leaves. Returns whether the window can give the shift.
    pub(crate) fn runs<W: Wait>(
        &mut self,
        alloc: Global,
        rt: &W,
        shift: &Shift,
        news: &[Sheet<J>],
    ) -> Result<bool, AllocError> {
        let Some(after) = self.window.after(shift) else {
            return Ok(false);
        };
        if !self.window.fits(T::KIND, news.len(), shift) {
            return Ok(false);
        }
        if !all_of(news, self.job.setting()) {
            return Ok(false);
        }
        match run_once(
            alloc,
            rt,
            &self.memo,
            &mut self.caller,
            &self.job,
            0,
            &mut self.tree,
            shift,
            news,
            &mut self.m,
        ) {
            Ok(()) => {
                self.window = after;
                return Ok(true);
            }
            Err(e) => return Err(e),
        }
    }

    /// A run whose draft is dropped, whether there is one or memory ran out.
    pub(crate) fn tries<W: Wait>(
        &mut self,
        alloc: Global,
        rt: &W,
        shift: &Shift,
        news: &[Sheet<J>],
    ) -> Result<bool, AllocError> {
        if !self.window.fits(T::KIND, news.len(), shift) {
            return Ok(false);
        }
        if !all_of(news, self.job.setting()) {
            return Ok(false);
        }
        match self.tree.advance(
            alloc,
            rt,
            &self.memo,
            &mut self.caller,
            &self.job,
            0,
            shift,
            news,
            &mut self.m,
        ) {
            Ok(()) => {
                self.tree.revert(rt, &self.memo, &mut self.caller);
                return Ok(true);
            }
            Err(e) => {
                self.tree.revert(rt, &self.memo, &mut self.caller);
                return Err(e);
            }
        }
    }

    /// The work ahead of the next run.
    pub(crate) fn works_ahead<W: Wait>(
        &mut self,
        alloc: Global,
        rt: &W,
    ) -> Result<bool, AllocError> {
        match self.tree.ahead(
            alloc,
            rt,
            &self.memo,
            &mut self.caller,
            &self.job,
            0,
            &mut self.m,
        ) {
            Ok(()) => (),
            Err(e) => return Err(e),
        }
        Ok(self.tree.prepared())
    }

    /// A run of another tree over the same memo, with as many places and no leaves before it, which is then dropped.
    pub(crate) fn another_runs<W: Wait>(
        &mut self,
        alloc: Global,
        rt: &W,
        shift: &Shift,
        news: &[Sheet<J>],
    ) -> Result<bool, AllocError> {
        let window = Window {
            places: self.window.places.clamp(1, 4096),
            first: 0,
            count: 0,
        };
        if !window.fits(T::KIND, news.len(), shift) {
            return Ok(false);
        }
        if !all_of(news, self.job.setting()) {
            return Ok(false);
        }
        let tree: T = T::fresh(alloc, self.job.setting(), window.places)?;
        match run_and_drop(
            alloc,
            rt,
            &self.memo,
            &mut self.caller,
            &self.job,
            0,
            tree,
            shift,
            news,
            &mut self.m,
        ) {
            Ok(()) => return Ok(true),
            Err(e) => return Err(e),
        }
    }

    /// A run, and once more if memory runs out. Returns whether the window can give it, and the root was unchanged in
    /// between.
    pub(crate) fn insists<W: Wait>(
        &mut self,
        alloc: Global,
        rt: &W,
        shift: &Shift,
        news: &[Sheet<J>],
    ) -> Result<bool, AllocError> {
        let before = self.lines(alloc)?;
        if let Ok(done) = self.runs(alloc, rt, shift, news) {
            return Ok(done);
        }
        let same = self.shows(alloc, before.as_slice())?;
        let done = self.runs(alloc, rt, shift, news)?;
        Ok(same && done)
    }

    /// The leaves of the records of a text.
    pub(crate) fn leaves(
        &mut self,
        alloc: Global,
        text: &[u8],
    ) -> Result<Vec<Sheet<J>>, AllocError> {
        leaves(alloc, &self.job, text, &mut self.m)
    }

    /// The slide by which `gone` of the oldest leaves go, and which brings `news` sheets, those of the changed places
    /// first.
    pub(crate) fn slide(
        &self,
        alloc: Global,
        gone: usize,
        changed: &[usize],
        news: usize,
    ) -> Result<Shift, AllocError> {
        slide(alloc, self.window.first, gone, changed, news)
    }

    /// How many merges were made.
    pub(crate) fn merges(&self) -> u64 {
        self.m.counts().merges
    }

    /// Whether the root is the merge of these sheets from left to right, made without the tree; without sheets there
    /// must be no root.
    pub(crate) fn is_merge_of(
        &self,
        alloc: Global,
        sheets: &[Sheet<J>],
        m: &mut J::Meter,
    ) -> Result<bool, AllocError> {
        if sheets.is_empty() {
            return Ok(self.tree.root().is_none());
        }
        let want = plain(alloc, &self.job, sheets, m)?;
        Ok(self.has(&want))
    }

    /// How often the memo was asked, once the desk is closed.
    pub(crate) fn looks(self, alloc: Global) -> Result<usize, AllocError> {
        let Desk { memo, caller, .. } = self;
        let mut callers = Vec::new(alloc);
        callers.push(caller)?;
        let mut count = 0usize;
        let shards = match memo.close(callers) {
            Ok(shards) => shards,
            // Out of memory all comes back, so it can be closed again.
            Err((_, memo, callers)) => match memo.close(callers) {
                Ok(shards) => shards,
                Err((e, _, _)) => return Err(e),
            },
        };
        'shards: for i in 0..shards.len() {
            count = count.saturating_add(looks_in(shards[i].history()));
        }
        Ok(count)
    }

    /// Whether the root is this sheet.
    pub(crate) fn has(&self, sheet: &Sheet<J>) -> bool {
        matches!(self.tree.root(), Some(root) if same_sheet(root, sheet))
    }

    /// The root's lines.
    pub(crate) fn lines(&self, alloc: Global) -> Result<Vec<u8>, AllocError> {
        match self.tree.root() {
            Some(root) => lines_of(alloc, &self.job, root),
            None => Ok(Vec::new(alloc)),
        }
    }

    /// Whether these are the root's lines.
    pub(crate) fn shows(&self, alloc: Global, lines: &[u8]) -> Result<bool, AllocError> {
        let shown = self.lines(alloc)?;
        Ok(shown.as_slice() == lines)
    }
}

// How many of the events are looks.
fn looks_in(events: &[Event]) -> usize {
    let mut count = 0usize;
    'events: for i in 0..events.len() {
        if matches!(events[i], Event::Look { .. }) {
            count = count.saturating_add(1);
        }
    }
    count
}

/// Whether all sheets have this setting.
fn all_of<J: Job>(sheets: &[Sheet<J>], setting: u32) -> bool
    ensures { IsTrue result → All (λ s. s.setting ≡ setting) sheets.now }
{
    'sheets: for i in 0..sheets.len() {
        if sheets[i].setting() != setting {
            return false;
        }
    }
    true
}
