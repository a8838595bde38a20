//! Buckets as a window: in a row from which the oldest are dropped, in a circle of places, or in a row that only grows.
ghost use Rattle.std.specs.Prelude.{ℕ, Bool, List, ◌≡◌, ◌≢◌, ◌≤◌, ◌<◌, ◌+◌, ◌^◌, ◌&&◌, not, nat_le, [], length, false, drop, OnOk, OnErr, slice_index_or};
ghost use Rattle.definitions.specs.Limits.{most_buckets, most_places, most_text};
ghost use Rattle.record_text.specs.declared.kind.Kind.TheVariants as Kinds;
ghost use Rattle.record_text.specs.declared.command.Command.TheVariants.{Bucket, Drop, Late, Run};
ghost use Rattle.window_manager.specs.Windows.{asks_too_many, is_circle, is_large, refusal_of, window_after};
ghost use Rattle.window_manager.specs.Slides.{slide_of};
ghost use Rattle.window_manager.specs.Buckets.{Applied, IsAllowed, IsOfBuckets, buckets_after, buckets_anew, leaving, no_buckets, text_size};

use crate::WindowFault;
use crate::leaves::{forget_oldest, is_circle, leaving, takes_drop, takes_late, text_of_oldest};
use crate::records::{joined_records, records_refusal};
use crate::slide::{mark_late, slide_on};
use definitions::MOST_BUCKETS;
use job_laws::Job;
use record_text::{Bundle, Command, Kind, Places, Records, Shift};
use std::alloc::{AllocError, Global};
use std::collections::VecDeque;
use std::marker::Model;

/// Buckets of records, the oldest first, modelled with how they changed since the last run.
#[derive(Drop)]
pub struct BucketWindow {
    kind: Kind,
    places: u32,
    leaves: VecDeque<Bundle>,
    size: u64,
    shift: Shift,
}

impl Model for BucketWindow {
    ghost use Rattle.std.specs.Prelude.{[], length};
    ghost use Rattle.window_manager.specs.Slides.{slid_by};
    ghost use Rattle.window_manager.specs.Buckets.{AreKept, BucketView};

    ghost Value = { BucketView };

    ghost view = { λ b. record { window = record { kind = b.kind; places = b.places; leaves = b.leaves.items; files = []; current = [] }; slid = slid_by b.shift (length b.leaves.items) } };

    ghost invariant = { λ b. AreKept (record { kind = b.kind; places = b.places; leaves = b.leaves.items; files = []; current = [] }) b.size b.shift };
}

impl BucketWindow {
    /// No buckets. It takes no memory.
    pub fn new(alloc: Global, kind: Kind, places: u32) -> BucketWindow
        requires kind { kind ≢ Kinds.Document }
        requires some { 1 ≤ places }
        requires few { places ≤ most_places }
        ensures { result ≡ no_buckets kind places }
    {
        BucketWindow {
            kind,
            places,
            leaves: VecDeque::new(alloc),
            size: 0,
            shift: Shift::Slide {
                first: 0,
                gone: 0,
                places: Places::new(alloc),
                fresh: 0,
            },
        }
    }

    /// How many buckets there are.
    pub fn leaf_count(&self) -> usize
        ensures count { result ≡ length self.now.window.leaves }
        ensures window { IsOfBuckets self.now.window }
    {
        self.leaves.len()
    }

    /// A bucket, by its place.
    pub fn leaf(&self, i: usize) -> &Bundle
        requires { i < length self.now.window.leaves }
        ensures { result.now ≡ slice_index_or self.now.window.leaves i [] }
    {
        &self.leaves[i]
    }

    /// How the buckets changed since the last run. It takes no memory.
    pub fn shift(&self) -> &Shift
        ensures { result.now ≡ slide_of (length self.now.window.leaves) self.now.slid }
    {
        &self.shift
    }

    /// Notes that a run was made over the present buckets.
    pub fn run_done(&mut self, alloc: Global)
        ensures { self.new ≡ buckets_anew self.old }
    {
        match &mut self.shift {
            Shift::Slide {
                gone,
                places,
                fresh,
                ..
            } => {
                *gone = 0;
                *places = Places::new(alloc);
                *fresh = 0;
            }
            Shift::Splice { .. } => unreachable!(),
        }
    }

    /// The kind of the window.
    pub fn kind(&self) -> Kind
        ensures { result ≡ self.now.window.kind }
    {
        self.kind
    }

    /// How many bytes of text stay if a new bucket comes.
    fn kept(&self) -> u64
        ensures kept { result ≡ text_size (drop (leaving self.now.window.kind self.now.window.places (length self.now.window.leaves)) self.now.window.leaves) }
        ensures small { result ≤ most_text }
        ensures window { IsOfBuckets self.now.window }
    {
        let went = leaving(self.kind, self.places, self.leaves.len());
        self.size - text_of_oldest(&self.leaves, went)
    }

    /// Whether there are as many buckets as there may be.
    fn is_full(&self) -> bool
        ensures { result ≡ (not (is_circle self.now.window.kind) && nat_le most_buckets (length self.now.window.leaves)) }
    {
        !is_circle(self.kind) && self.leaves.len() >= MOST_BUCKETS
    }

    /// Why a new bucket is refused.
    fn bucket_refusal<J: Job>(&self, records: &Records, job: &J) -> Option<WindowFault>
        ensures { result ≡ refusal_of (J.accepts (J.setting job.now)) self.now.window (Bucket records.now) }
    {
        let kept = self.kept();
        if self.is_full() {
            return Some(WindowFault::TooMany);
        }
        records_refusal(job, records, kept)
    }

    /// Adds a new bucket.
    fn push(&mut self, alloc: Global, records: Records) -> Result<(), AllocError>
        requires many { asks_too_many self.old.window (Bucket records) ≡ false }
        requires large { is_large (window_after self.old.window (Bucket records)) ≡ false }
        requires accepted { self.old.slid.accepted < 2 ^ 63 }
        ensures ok { OnOk result (self.new ≡ buckets_after self.old (Bucket records)) }
        ensures err { OnErr result (self.new ≡ self.old) }
    {
        let went = leaving(self.kind, self.places, self.leaves.len());
        let size = self.kept() + records.text_len();
        let bundle = Bundle::of(alloc, records)?;
        self.leaves.reserve(1)?;
        slide_on(alloc, &mut self.shift, self.leaves.len(), went, 1)?;
        forget_oldest(&mut self.leaves, went);
        self.leaves.push_back_reserved(bundle);
        self.size = size;
        Ok(())
    }

    /// Why the `n` oldest buckets cannot be dropped.
    fn drop_refusal(&self, n: u32) -> Option<WindowFault>
        ensures { (accepts : List ℕ → Bool) → result ≡ refusal_of accepts self.now.window (Drop n) }
    {
        if !takes_drop(self.kind) {
            return Some(WindowFault::NotHere);
        }
        if n as usize > self.leaves.len() {
            return Some(WindowFault::TooMany);
        }
        None
    }

    /// Drops the `n` oldest buckets.
    fn forget(&mut self, alloc: Global, n: u32) -> Result<(), AllocError>
        requires within { n ≤ length self.old.window.leaves }
        requires accepted { self.old.slid.accepted < 2 ^ 63 }
        ensures ok { OnOk result (self.new ≡ buckets_after self.old (Drop n)) }
        ensures err { OnErr result (self.new ≡ self.old) }
    {
        let n = n as usize;
        slide_on(alloc, &mut self.shift, self.leaves.len(), n, 0)?;
        self.size -= text_of_oldest(&self.leaves, n);
        forget_oldest(&mut self.leaves, n);
        Ok(())
    }

    /// Why records cannot be added to the bucket at a place.
    fn late_refusal<J: Job>(&self, place: u32, more: &Records, job: &J) -> Option<WindowFault>
        ensures { result ≡ refusal_of (J.accepts (J.setting job.now)) self.now.window (Late place more.now) }
    {
        if !takes_late(self.kind) {
            return Some(WindowFault::NotHere);
        }
        if place as usize >= self.leaves.len() {
            return Some(WindowFault::TooMany);
        }
        records_refusal(job, more, self.size)
    }

    /// Adds records at the end of the bucket at a place. The bucket is copied.
    fn add_late(&mut self, alloc: Global, place: u32, more: &Records) -> Result<(), AllocError>
        requires within { place < length self.old.window.leaves }
        requires large { is_large (window_after self.old.window (Late place more.now)) ≡ false }
        ensures ok { OnOk result (self.new ≡ buckets_after self.old (Late place more.now)) }
        ensures err { OnErr result (self.new ≡ self.old) }
    {
        if more.is_empty() {
            return Ok(());
        }
        let place = place as usize;
        let records = joined_records(alloc, self.leaves[place].records(), more)?;
        let bundle = Bundle::of(alloc, records)?;
        mark_late(alloc, &mut self.shift, self.leaves.len(), place)?;
        self.leaves[place] = bundle;
        self.size += more.text_len();
        Ok(())
    }

    /// Why a command is refused, if it is. It takes no memory.
    fn refusal<J: Job>(&self, c: &Command, job: &J) -> Option<WindowFault>
        ensures { result ≡ refusal_of (J.accepts (J.setting job.now)) self.now.window c.now }
    {
        let _ = &self.kind;
        match c {
            Command::Bucket(records) => self.bucket_refusal(records, job),
            Command::Drop(n) => self.drop_refusal(*n),
            Command::Late { place, more } => self.late_refusal(*place, more, job),
            _ => Some(WindowFault::NotHere),
        }
    }

    /// Carries out a command that is not refused.
    fn carry_out(&mut self, alloc: Global, c: Command) -> Result<(), AllocError>
        requires allowed { IsAllowed self.old.window c }
        requires accepted { self.old.slid.accepted < 2 ^ 63 }
        ensures ok { OnOk result (self.new ≡ buckets_after self.old c) }
        ensures err { OnErr result (self.new ≡ self.old) }
    {
        let _ = &self.kind;
        match c {
            Command::Bucket(records) => self.push(alloc, records),
            Command::Drop(n) => self.forget(alloc, n),
            Command::Late { place, more } => self.add_late(alloc, place, &more),
            _other => unreachable!(),
        }
    }

    /// Carries out a command, or returns why it is refused. A bucket costs its own records, late records cost their
    /// bucket, and a drop costs the buckets that leave. On an error nothing changes.
    pub fn apply<J: Job>(&mut self, alloc: Global, c: Command, job: &J) -> Result<(), WindowFault>
        requires accepted { self.old.slid.accepted < 2 ^ 63 }
        ensures { Applied (J.accepts (J.setting job.now)) self.old self.new c result }
    {
        if let Some(fault) = self.refusal(&c, job) {
            return Err(fault);
        }
        match self.carry_out(alloc, c) {
            Ok(()) => Ok(()),
            Err(_) => Err(WindowFault::Mem),
        }
    }
}
