//! The engine: its state between runs, and one run.
ghost use Rattle.std.specs.Prelude.{◌≡◌, ℕ, ◌+◌, ◌<◌, ◌≤◌, ◌^◌, All, IfOk, OnOk, OnErr, option_copied};
ghost use Rattle.job_laws.specs.Meanings.{AllAccepted, meaning_of};
ghost use Rattle.run_settings.specs.Settings.{AreWithin};
ghost use Rattle.window_manager.specs.Since.{IsSince};
ghost use Rattle.run_engine.specs.Engines.{IsAnswer, IsNewEngine};
ghost use Rattle.run_engine.specs.Runs.{IsRun, IsNoRun, RunWorked};

use crate::dealing::LANES;
use crate::finishing::{finish, undo};
use crate::lane_seat::LaneSeat;
use crate::making::{lanes_of, last_sweep, parts_of};
use crate::part_seat::PartSeat;
use crate::shifting::{first_of, shift_items};
use crate::sweep_seat::SweepSeat;
use crate::working::work_phases;
use job_laws::{Job, MeterRow};
use map_tasks::{LeafInput, MapRecipe};
use pin_table::Memo;
use run_settings::Settings;
use sheets::{Sheet, part_laws};
use slider_io::Gate;
use std::alloc::{AllocError, Global};
use std::marker::Model;
use std::sync::Wait;
use std::thread::Threads;
use tree_laws::{MergeRecipe, Tree};
use window_manager::Window;

/// Lanes that map leaves, a tree of merges for each part, and two memos, which the lanes and the trees each share with
/// a collector. Between runs all are over the leaves of the window at the last completed run.
#[derive(Drop)]
pub struct Engine<J: Job, T: Tree<J>> {
    alloc: Global,
    job: J,
    settings: Settings,
    runs: u64,
    first: u64,
    leaves: Vec<LeafInput>,
    leaf_memo: Memo<MapRecipe<J>>,
    merge_memo: Memo<MergeRecipe<J>>,
    lanes: Vec<LaneSeat<J>>,
    parts: Vec<PartSeat<J, T>>,
    // `None` only while a board has it.
    leaf_sweep: Option<SweepSeat<MapRecipe<J>>>,
    merge_sweep: Option<SweepSeat<MergeRecipe<J>>>,
}

impl<J: Job, T: Tree<J>> Model for Engine<J, T> {
    ghost use Rattle.std.specs.Prelude.{IsSome, option_map};
    ghost use Rattle.job_laws.specs.Meanings.{meaning_of};
    ghost use Rattle.run_engine.specs.Inputs.{texts_of};
    ghost use Rattle.run_engine.specs.Sweeps.{swept_by};
    ghost use Rattle.run_engine.specs.Engines.{EngineView, IsWhole, engine_of};

    ghost Value = { EngineView J T };

    ghost view = { λ e. engine_of e.job e.settings e.runs e.first e.leaves.items e.leaf_memo e.merge_memo e.lanes.items e.parts.items (option_map (λ s. s.collector) e.leaf_sweep) (option_map (λ s. s.collector) e.merge_sweep) };

    ghost invariant = { λ e. IsWhole (meaning_of J.Job e.job) T.view T.pins T.most (J.setting e.job) e.first e.settings (texts_of e.leaves.items) e.leaf_memo.locks e.merge_memo.locks e.lanes.items e.parts.items (swept_by (option_map (λ s. s.collector) e.leaf_sweep)) (swept_by (option_map (λ s. s.collector) e.merge_sweep)) × IsSome e.leaf_sweep × IsSome e.merge_sweep };
}

impl<J: Job, T: Tree<J>> Engine<J, T> {
    /// An engine before its first run. The locks of both memos start at 0.
    pub fn new(alloc: Global, job: J, settings: Settings) -> Result<Engine<J, T>, AllocError>
        requires settings { AreWithin settings }
        ensures { IfOk result (λ e. IsNewEngine J.Job T.view T.pins 0 job settings e) }
    {
        Engine::starting_at(alloc, 0, job, settings)
    }

    /// The same with every lock of both memos starting at `n`.
    pub fn starting_at(
        alloc: Global,
        n: u64,
        job: J,
        settings: Settings,
    ) -> Result<Engine<J, T>, AllocError>
        requires start { n ≤ 2 ^ 62 }
        requires settings { AreWithin settings }
        ensures { IfOk result (λ e. IsNewEngine J.Job T.view T.pins n job settings e) }
    {
        let (leaf_memo, mut callers) = Memo::starting_at(alloc, n, settings.shards, LANES + 1)?;
        let leaf_sweep = last_sweep(&mut callers, settings.keep);
        let lanes = lanes_of(alloc, callers)?;
        let (merge_memo, mut callers) = Memo::starting_at(
            alloc,
            n,
            settings.shards,
            settings.parts + 1,
        )?;
        let merge_sweep = last_sweep(&mut callers, settings.keep);
        let parts = parts_of(alloc, callers, job.setting(), settings.places)?;
        Ok(Engine {
            alloc,
            job,
            settings,
            runs: 0,
            first: 0,
            leaves: Vec::new(alloc),
            leaf_memo,
            merge_memo,
            lanes,
            parts,
            leaf_sweep: Some(leaf_sweep),
            merge_sweep: Some(merge_sweep),
        })
    }

    /// One run over a window whose shift leads on from the last completed run. The lanes and the leaf memo's sweep run
    /// on one board, the parts and the merge memo's sweep on another, each task behind the gate; then everything
    /// becomes final. It costs the leaves that the shift names and the paths above them. It may block.
    ///
    /// # Errors
    ///
    /// Out of memory. Lanes and trees are reverted, so that everything is unchanged, and the run may be made again; its
    /// events stay in the memos' histories.
    pub fn run<G: Gate, R: Threads + Wait + Sync>(
        &mut self,
        rt: &R,
        window: &Window,
        meters: &mut MeterRow<J::Meter>,
        gate: &G,
    ) -> Result<(), AllocError>
    where
        J: Send + Sync,
        J::Val: Send + Sync,
        J::Meter: Send + Sync,
        T: Send,
        requires kind { window.now.window.kind ≡ T.KIND }
        requires places { window.now.window.places ≡ self.old.settings.places }
        requires accepted { All (AllAccepted (meaning_of J.Job self.old.job)) window.now.window.leaves }
        requires since { IsSince self.old.first self.old.leaves window.now }
        requires runs { self.old.runs < 2 ^ 63 }
        ensures ok { OnOk result (IsRun T.view T.shaped window.now self.old self.new) }
        ensures err { OnErr result (IsNoRun T.view self.old self.new) }

        // Whatever it returns:
        ensures worked { RunWorked J.Meter.counts (meaning_of J.Job self.old.job) T.bound T.tight T.view window.now meters.old meters.new self.old self.new }
    {
        part_laws::<J>();
        let run = self.runs + 1;
        let shift = window.shift();
        match work_phases(
            rt,
            self.alloc,
            window,
            &self.job,
            run,
            self.settings.parts,
            &mut self.leaves,
            &self.leaf_memo,
            &self.merge_memo,
            &mut self.lanes,
            &mut self.parts,
            &mut self.leaf_sweep,
            &mut self.merge_sweep,
            &mut meters.lanes,
            &mut meters.parts,
            self.settings.workers,
            gate,
        ) {
            Ok(fresh) => {
                finish(
                    rt,
                    &self.leaf_memo,
                    &self.merge_memo,
                    &mut self.lanes,
                    &mut self.parts,
                );
                shift_items(&mut self.leaves, shift, fresh);
                self.first = first_of(shift, self.first);
                self.runs = run;
                return Ok(());
            }
            Err(e) => {
                undo(
                    rt,
                    &self.leaf_memo,
                    &self.merge_memo,
                    &mut self.lanes,
                    &mut self.parts,
                );
                return Err(e);
            }
        }
    }

    /// The root of a part: its table of the records of the window at the last completed run; `None` exactly if that
    /// window had no leaves. It takes no memory.
    pub fn root(&self, part: u32) -> Option<&Sheet<J>>
        requires { part < self.now.settings.parts }
        ensures { IsAnswer (meaning_of J.Job self.now.job) (J.setting self.now.job) self.now.settings.parts part self.now.leaves (option_copied result) }
    {
        part_laws::<J>();
        self.parts[part as usize].tree.root()
    }

    /// How many runs it completed.
    pub fn runs(&self) -> u64
        ensures { result ≡ self.now.runs }
    {
        self.runs
    }

    /// Its job.
    pub fn job(&self) -> &J
        ensures { result.now ≡ self.now.job }
    {
        &self.job
    }
}
