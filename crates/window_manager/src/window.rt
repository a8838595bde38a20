//! Windows of every kind: a command goes in, leaves and their change come out.
ghost use Rattle.std.specs.Prelude.{◌≡◌, ◌≤◌, ◌<◌, ◌^◌, [], length, slice_index_or};
ghost use Rattle.window_manager.specs.Windows.{refusal_of};
ghost use Rattle.definitions.specs.Limits.{most_places};
ghost use Rattle.window_manager.specs.Since.{LeadsOn};
ghost use Rattle.window_manager.specs.Views.{Done, no_leaves, shift_of, view_anew};

use crate::WindowFault;
use crate::buckets::BucketWindow;
use crate::content::Content;
use crate::document::DocumentWindow;
use job_laws::Job;
use record_text::{Bundle, Command, Kind, Shift};
use std::alloc::Global;
use std::marker::Model;

/// The records that count for the next run, as leaves: buckets in a row, in a circle or in a row that only grows, or
/// the chunks of a document in files. Each kind has some of the commands.
#[derive(Drop)]
pub struct Window {
    content: Content,
}

impl Model for Window {
    ghost use Rattle.window_manager.specs.Views.{FitsKind, WindowView, view_of};
    ghost use Rattle.window_manager.specs.Since.{LeadsOn};

    ghost Value = { WindowView };

    ghost view = { λ w. view_of w.content };

    ghost invariant = { λ w. FitsKind w.content × LeadsOn (view_of w.content) };
}

impl Window {
    /// An empty window. Only a circle uses `places`. It takes no memory.
    pub fn new(alloc: Global, kind: Kind, places: u32) -> Window
        requires some { 1 ≤ places }
        requires few { places ≤ most_places }
        ensures { result ≡ no_leaves kind places }
    {
        let content = match kind {
            Kind::Document => Content::OfDocument(DocumentWindow::new(alloc, places)),
            Kind::Buckets | Kind::Circle | Kind::Growing => {
                Content::OfBuckets(BucketWindow::new(alloc, kind, places))
            }
        };
        Window { content }
    }

    /// Carries out a command. A bucket costs its own records, late records cost their bucket, a drop the buckets that
    /// leave, an edit the chunks that it touches, and a load the text of the file. On an error nothing changes.
    ///
    /// # Errors
    ///
    /// The first of these that applies: `NotHere` if the kind lacks the command, `TooMany` if it asks for more than
    /// there is or may be, `BadRecord` if the job does not accept a record, `WindowLarge` if the text would have more
    /// than 268,435,456 bytes. `Mem` out of memory, only if nothing else applies.
    pub fn apply<J: Job>(&mut self, alloc: Global, c: Command, job: &J) -> Result<(), WindowFault>
        requires accepted { self.old.slid.accepted < 2 ^ 63 }
        ensures { Done (refusal_of (J.accepts (J.setting job.now)) self.old.window c) self.old self.new c result }
    {
        match &mut self.content {
            Content::OfBuckets(buckets) => buckets.apply(alloc, c, job),
            Content::OfDocument(document) => document.apply(alloc, c, job),
        }
    }

    /// How many leaves there are.
    pub fn leaf_count(&self) -> usize
        ensures { result ≡ length self.now.window.leaves }
    {
        match &self.content {
            Content::OfBuckets(buckets) => buckets.leaf_count(),
            Content::OfDocument(document) => document.leaf_count(),
        }
    }

    /// A leaf, by its place: buckets in window order, or the chunks of all files.
    pub fn leaf(&self, i: usize) -> &Bundle
        requires { i < length self.now.window.leaves }
        ensures { result.now ≡ slice_index_or self.now.window.leaves i [] }
    {
        match &self.content {
            Content::OfBuckets(buckets) => buckets.leaf(i),
            Content::OfDocument(document) => document.leaf(i),
        }
    }

    /// How the leaves changed since the last run. It takes no memory.
    pub fn shift(&self) -> &Shift
        ensures shift { result.now ≡ shift_of self.now }
        ensures leads { LeadsOn self.now }
    {
        match &self.content {
            Content::OfBuckets(buckets) => buckets.shift(),
            Content::OfDocument(document) => document.shift(),
        }
    }

    /// Notes that a run was made over the present leaves.
    pub fn run_done(&mut self, alloc: Global)
        ensures { self.new ≡ view_anew self.old }
    {
        match &mut self.content {
            Content::OfBuckets(buckets) => buckets.run_done(alloc),
            Content::OfDocument(document) => document.run_done(),
        }
    }

    /// The kind of the window.
    pub fn kind(&self) -> Kind
        ensures { result ≡ self.now.window.kind }
    {
        match &self.content {
            Content::OfBuckets(buckets) => buckets.kind(),
            Content::OfDocument(_) => Kind::Document,
        }
    }
}
