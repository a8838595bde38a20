//! An engine with its window, as a session has them, and what tests ask of them.
ghost use Rattle.std.specs.Prelude.{◌≡◌, All, IsTrue, IfOk, IfSome};
ghost use Rattle.job_laws.specs.Meanings.{AllAccepted, meaning_of};

use definitions::MOST_SCRIPT;
use job_laws::{CountMeter, Job, Meter, MeterRow};
use record_text::{Command, Records, ScriptReader};
use run_engine::{Engine, Settings};
use sheets::{Sheet, map_sheets, same_sheet};
use slider_io::{Gate, NoGate, SureSource};
use std::alloc::{AllocError, Global};
use std::marker::Model;
use std::sync::Wait;
use std::thread::Threads;
use tree_laws::Tree;
use window_manager::{Window, WindowFault};

/// Records mapped by the lanes, tables merged and values joined by the parts.
#[derive(Clone, Copy, Debug, PartialEq, Eq)]
pub struct Work {
    pub maps: u64,
    pub merges: u64,
    pub joins: u64,
}

impl Work {
    /// What was counted since `before`.
    fn since(self, before: Work) -> Work {
        Work {
            maps: self.maps.wrapping_sub(before.maps),
            merges: self.merges.wrapping_sub(before.merges),
            joins: self.joins.wrapping_sub(before.joins),
        }
    }
}

/// What a desk is made of: the job of its engine, which may run out of memory, another one that means the same, and the
/// meters of both. Whoever makes it says which meters these are, so that the desk itself does not know.
#[derive(Drop)]
pub struct Jobs<J: Job> {
    engine: J,
    plain: J,
    meters: MeterRow<J::Meter>,
    meter: J::Meter,
}

impl<J: Job<Meter = CountMeter>> Jobs<J> {
    /// These jobs, with meters at zero.
    pub fn new(alloc: Global, engine: J, plain: J) -> Result<Jobs<J>, AllocError> {
        Ok(Jobs {
            engine,
            plain,
            meters: new_meters(alloc)?,
            meter: CountMeter::new(),
        })
    }
}

/// An engine over a window, with meters, and how many commands the window was given. It is seen as how many runs it made.
#[derive(Drop)]
pub struct Desk<J: Job, T: Tree<J>> {
    alloc: Global,
    engine: Engine<J, T>,
    window: Window,
    meters: MeterRow<J::Meter>,
    plain: J,
    // Of what is computed plainly.
    meter: J::Meter,
    parts: u32,
    told: u64,
}

impl<J: Job, T: Tree<J>> Model for Desk<J, T> {
    ghost use Rattle.std.specs.Prelude.{ℕ};
    ghost use Rattle.engine_tests.specs.Desks.{IsDesk};

    ghost Value = { ℕ };

    ghost view = { λ d. d.engine.runs };

    ghost invariant = { λ d. IsDesk T.KIND d.parts d.told d.engine d.window };
}

/// Settings with these numbers of workers, shards, parts and places of a circle.
pub fn settings(workers: u32, shards: u32, parts: u32, places: u32) -> Settings {
    Settings {
        parts,
        workers,
        shards,
        keep: 1,
        places,
        work: true,
        split: false,
        steal: false,
    }
}

// A row of meters at zero.
fn new_meters(alloc: Global) -> Result<MeterRow<CountMeter>, AllocError> {
    let mut lanes = Vec::new(alloc);
    let mut parts = Vec::new(alloc);
    'meters: while parts.len() < 16 {
        lanes.push(CountMeter::new())?;
        parts.push(CountMeter::new())?;
    }
    Ok(MeterRow { lanes, parts })
}

// Whether the job accepts all records of a leaf.
fn accepts_leaf<J: Job>(job: &J, leaf: &Records) -> bool
    ensures { IsTrue result → AllAccepted (meaning_of J.Job job.now) leaf.now }
{
    'records: for i in 0..leaf.len() {
        if !job.accepts(leaf.get(i)) {
            return false;
        }
    }
    true
}

// Whether the job accepts all records of a window.
fn accepts_window<J: Job>(job: &J, window: &Window) -> bool
    ensures { IsTrue result → All (AllAccepted (meaning_of J.Job job.now)) window.now.window.leaves }
{
    'leaves: for i in 0..window.leaf_count() {
        if !accepts_leaf(job, window.leaf(i).records()) {
            return false;
        }
    }
    true
}

// The records of all leaves of a window, or none if the job does not accept one or there are more than 1,000,000.
fn gathered<J: Job>(alloc: Global, job: &J, window: &Window) -> Result<Option<Records>, AllocError>
    ensures { IfOk result (λ o. IfSome o (λ records. AllAccepted (meaning_of J.Job job.now) records)) }
{
    let mut all = Records::new(alloc);
    'leaves: for i in 0..window.leaf_count() {
        if !gather(job, window.leaf(i).records(), &mut all)? {
            return Ok(None);
        }
    }
    Ok(Some(all))
}

// Adds the records of a leaf, and answers whether the job accepts them and there was room.
fn gather<J: Job>(job: &J, leaf: &Records, all: &mut Records) -> Result<bool, AllocError>
    requires { AllAccepted (meaning_of J.Job job.now) all.old }
    ensures { IfOk result (λ whole. IsTrue whole → AllAccepted (meaning_of J.Job job.now) all.new) }
{
    'records: for k in 0..leaf.len() {
        let record = leaf.get(k);
        if !job.accepts(record) || all.len() >= 1_000_000 {
            return Ok(false);
        }
        all.push(record)?;
    }
    Ok(true)
}

// What the meters of a row have counted together.
fn counted<M: Meter>(meters: &MeterRow<M>) -> Work {
    let mut work = Work {
        maps: 0,
        merges: 0,
        joins: 0,
    };
    'lanes: for i in 0..meters.lanes.len() {
        work.maps = work.maps.wrapping_add(meters.lanes[i].counts().maps);
    }
    'parts: for i in 0..meters.parts.len() {
        work.merges = work.merges.wrapping_add(meters.parts[i].counts().merges);
        work.joins = work.joins.wrapping_add(meters.parts[i].counts().joins);
    }
    work
}

impl<J: Job, T: Tree<J>> Desk<J, T> {
    /// An engine before its first run, whose locks start at `start`, and an empty window. Settings past their limits and a
    /// `start` past 2^62 are refused.
    pub fn new(
        alloc: Global,
        start: u64,
        jobs: Jobs<J>,
        settings: Settings,
    ) -> Result<Desk<J, T>, AllocError> {
        if start > 1 << 62 || !settings.are_within() {
            return Err(AllocError);
        }
        let Jobs {
            engine: job,
            plain,
            meters,
            meter,
        } = jobs;
        let engine = Engine::starting_at(alloc, start, job, settings)?;
        Ok(Desk {
            alloc,
            engine,
            window: Window::new(alloc, T::KIND, settings.places),
            meters,
            plain,
            meter,
            parts: settings.parts,
            told: 0,
        })
    }

    /// Its allocator.
    pub fn alloc(&self) -> Global {
        self.alloc
    }

    /// How many leaves the window has.
    pub fn leaf_count(&self) -> usize {
        self.window.leaf_count()
    }

    /// Gives the window a command, and answers whether it took it.
    pub fn apply(&mut self, c: Command) -> Result<bool, AllocError> {
        if self.told >= 1 << 62 {
            return Ok(false);
        }
        let done = self.window.apply(self.alloc, c, self.engine.job());
        self.told += 1;
        match done {
            Ok(()) => Ok(true),
            Err(WindowFault::Mem) => Err(AllocError),
            Err(_) => Ok(false),
        }
    }

    /// One run behind a gate, and what was counted in it, or none if it ran out of memory; then the window learns of no run.
    pub fn run<G: Gate, R: Threads + Wait + Sync>(&mut self, rt: &R, gate: &G) -> Option<Work>
    where
        J: Send + Sync,
        J::Val: Send + Sync,
        J::Meter: Send + Sync,
        T: Send,
    {
        if self.engine.runs() >= 1 << 62 || !accepts_window(self.engine.job(), &self.window) {
            return None;
        }
        let before = counted(&self.meters);
        match self.engine.run(rt, &self.window, &mut self.meters, gate) {
            Ok(()) => {
                self.window.run_done(self.alloc);
                return Some(counted(&self.meters).since(before));
            }
            Err(_) => return None,
        }
    }

    /// Whether a run does this work, after which there is one run more and the roots agree.
    pub fn works<R: Threads + Wait + Sync>(
        &mut self,
        rt: &R,
        work: Work,
    ) -> Result<bool, AllocError>
    where
        J: Send + Sync,
        J::Val: Send + Sync,
        J::Meter: Send + Sync,
        T: Send,
    {
        let runs = self.engine.runs();
        let did = self.run(rt, &NoGate);
        Ok(did == Some(work) && self.engine.runs() > runs && self.agrees()?)
    }

    /// Whether a run is out of memory, after which all is as before.
    pub fn fails<R: Threads + Wait + Sync>(&mut self, rt: &R) -> Result<bool, AllocError>
    where
        J: Send + Sync,
        J::Val: Send + Sync,
        J::Meter: Send + Sync,
        T: Send,
    {
        let runs = self.engine.runs();
        let before = self.digests()?;
        let failed = self.run(rt, &NoGate).is_none();
        Ok(failed && self.engine.runs() == runs && self.digests()?.as_slice() == before.as_slice())
    }

    /// A run, and a second one if the first is out of memory: whether all was as before in between, and the roots agree at
    /// last.
    pub fn insists<R: Threads + Wait + Sync>(&mut self, rt: &R) -> Result<bool, AllocError>
    where
        J: Send + Sync,
        J::Val: Send + Sync,
        J::Meter: Send + Sync,
        T: Send,
    {
        let runs = self.engine.runs();
        let before = self.digests()?;
        if self.run(rt, &NoGate).is_none() {
            if self.engine.runs() != runs || self.digests()?.as_slice() != before.as_slice() {
                return Ok(false);
            }
            if self.run(rt, &NoGate).is_none() {
                return Ok(false);
            }
        }
        Ok(self.engine.runs() > runs && self.agrees()?)
    }

    /// Whether each root is the sheet of its part that is made of all records of the window from nothing. A window without
    /// leaves must have no root.
    pub fn agrees(&mut self) -> Result<bool, AllocError> {
        let all = match gathered(self.alloc, &self.plain, &self.window)? {
            Some(all) => all,
            None => return Ok(false),
        };
        let plain = map_sheets(self.alloc, &self.plain, &all, self.parts, &mut self.meter)?;
        if self.window.leaf_count() == 0 {
            return Ok(self.digests()?.is_empty());
        }
        Ok(self.has(plain.as_slice()))
    }

    // Whether these are the roots, part by part.
    fn has(&self, sheets: &[Sheet<J>]) -> bool {
        'parts: for part in 0..self.parts {
            match (self.engine.root(part), sheets.get(part as usize)) {
                (Some(root), Some(sheet)) => {
                    if !same_sheet(root, sheet) {
                        return false;
                    }
                }
                _ => return false,
            }
        }
        true
    }

    /// What the commands of a script write, each run its header and then the lines of one part after the other. A script
    /// with a fault, a command that is refused and a run that is out of memory end it.
    pub fn answers<R: Threads + Wait + Sync>(
        &mut self,
        rt: &R,
        script: &[u8],
    ) -> Result<Vec<u8>, AllocError>
    where
        J: Send + Sync,
        J::Val: Send + Sync,
        J::Meter: Send + Sync,
        T: Send,
    {
        let mut source = SureSource::new(Vec::from_slice(self.alloc, script)?);
        let mut reader = ScriptReader::new(&mut source, self.alloc, MOST_SCRIPT);
        let mut out = Vec::new(self.alloc);
        'commands: loop {
            let command = match reader.next(self.alloc) {
                Ok(Some(command)) => command,
                Ok(None) => return Ok(out),
                Err(_) => return Err(AllocError),
            };
            let went = match command {
                Command::Run => self.run(rt, &NoGate).is_some() && self.writes(&mut out)?,
                command => self.apply(command)?,
            };
            if !went {
                return Err(AllocError);
            }
        }
    }

    // Appends the answer of the last run, and says whether the sheets are of the job's setting.
    fn writes(&self, out: &mut Vec<u8>) -> Result<bool, AllocError> {
        let run = self.engine.runs();
        let mut keys = 0usize;
        let mut lines = Vec::new(self.alloc);
        'parts: for part in 0..self.parts {
            if let Some(root) = self.engine.root(part) {
                if root.setting() != self.plain.setting() {
                    return Ok(false);
                }
                keys = keys.wrapping_add(root.entries().len());
                root.write_lines(self.alloc, &self.plain, &mut lines)?;
            }
        }
        let header = format!(in self.alloc; "# run {run} keys {keys}\n")?;
        out.extend_from_slice(header.as_bytes())?;
        out.extend_from_slice(lines.as_slice())?;
        Ok(true)
    }

    // The digests of all roots, end to end.
    fn digests(&self) -> Result<Vec<u8>, AllocError> {
        let mut digests = Vec::new(self.alloc);
        'parts: for part in 0..self.parts {
            if let Some(root) = self.engine.root(part) {
                digests.extend_from_slice(&root.digest())?;
            }
        }
        Ok(digests)
    }
}
