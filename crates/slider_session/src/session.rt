//! One script's window and its runs.
ghost use Rattle.std.specs.Prelude.{◌≡◌, ◌≢◌, ◌<◌, ◌≤◌, ◌+◌, ◌^◌, true, false, IfOk, IsErrOf};
ghost use Rattle.record_text.specs.declared.command.Command.TheVariants.{Run};
ghost use Rattle.job_laws.specs.Meanings.{meaning_of};
ghost use Rattle.marker_chunker.specs.Cuts.{joined};
ghost use Rattle.window_manager.specs.Views.{no_leaves};
ghost use Rattle.run_settings.specs.Settings.{AreWithin};
ghost use Rattle.run_engine.specs.Engines.{IsNewEngine};
ghost use Rattle.run_engine.specs.Runs.{RunWorked};
ghost use Rattle.slider_session.specs.Devices.{sink_view, AreTried};
ghost use Rattle.slider_session.specs.WorkLines.{work_of, work_between, work_line, IsMoreWork};
ghost use Rattle.slider_session.specs.Output.{piece_over};
ghost use Rattle.slider_session.specs.Calls.{accepted_of, HasRoom, Changes, RunAnswered, RunSaid, Steps, AnswerWritten, LineTried};
ghost use Rattle.slider_session.specs.Serving.{RefusalIs};

use crate::answering::piece_of;
use crate::{Halt, Work};
use job_laws::{Job, MeterRow};
use record_text::{Command, ScriptFault, Why};
use run_engine::Engine;
use run_settings::Settings;
use slider_io::{Gate, Sink, WriteFault, put_all};
use std::alloc::{AllocError, Global};
use std::marker::Model;
use std::sync::Wait;
use std::thread::Threads;
use tree_laws::Tree;
use window_manager::{Window, WindowFault};

/// The window of one script, and the engine that answers its runs. A run costs the leaves that changed since the last
/// one, the paths above them, and one walk over the answer; any other command costs what it costs the window.
#[derive(Drop)]
pub struct Session<J: Job, T: Tree<J>> {
    alloc: Global,
    engine: Engine<J, T>,
    settings: Settings,
    window: Window,
}

impl<J: Job, T: Tree<J>> Model for Session<J, T> {
    ghost use Rattle.std.specs.Prelude.{◌≡◌};
    ghost use Rattle.job_laws.specs.Meanings.{meaning_of};
    ghost use Rattle.slider_session.specs.Accepted.{IsSession};
    ghost use Rattle.slider_session.specs.Calls.{SessionView};

    ghost Value = { SessionView J T };

    ghost view = { λ s. record { engine = s.engine; window = s.window } };

    ghost invariant = { λ s. IsSession (meaning_of J.Job s.engine.job) T.KIND s.engine s.window × (s.settings ≡ s.engine.settings) };
}

impl<J: Job, T: Tree<J>> Session<J, T> {
    /// A session over the empty window of the tree's kind, before the first run.
    pub fn new(alloc: Global, job: J, settings: Settings) -> Result<Session<J, T>, AllocError>
        requires settings { AreWithin settings }
        ensures engine { IfOk result (λ s. IsNewEngine J.Job T.view T.pins 0 job settings s.engine) }
        ensures window { IfOk result (λ s. s.window ≡ no_leaves T.KIND settings.places) }
    {
        let engine = Engine::new(alloc, job, settings)?;
        let window = Window::new(alloc, T::KIND, settings.places);
        Ok(Session {
            alloc,
            engine,
            settings,
            window,
        })
    }

    /// Carries out the command on a line of the script. A run writes its number, the number of keys, and the lines of
    /// each key in byte order, and with `work` then tries its work line on `err`; any other command changes the window,
    /// or is refused at its line, and touches neither the sinks nor the meters. It may block.
    ///
    /// # Errors
    ///
    /// The script's fault if the window refuses the command; a failed write, after which the run is kept; out of
    /// memory, after which the run is kept or was not made.
    pub fn step<K: Sink, E: Sink, G: Gate, R: Threads + Wait + Sync>(
        &mut self,
        rt: &R,
        c: Command,
        line: u64,
        out: &mut K,
        err: &mut E,
        meters: &mut MeterRow<J::Meter>,
        gate: &G,
    ) -> Result<(), Halt>
    where
        J: Send + Sync,
        J::Val: Send + Sync,
        J::Meter: Send + Sync,
        T: Send,
        requires { HasRoom self.old line }
        ensures steps { Steps (meaning_of J.Job self.old.engine.job) T.view T.shaped self.old self.new c line (sink_view K.Sink out.old) (sink_view K.Sink out.new) result }
        ensures untouched { c ≢ Run → (out.new ≡ out.old) × (err.new ≡ err.old) × (meters.new ≡ meters.old) }
        ensures worked { c ≡ Run → RunWorked J.Meter.counts (meaning_of J.Job self.old.engine.job) T.bound T.tight T.view self.old.window meters.old meters.new self.old.engine self.new.engine }
        ensures said { c ≡ Run → RunSaid self.old.engine.settings.work (self.old.engine.runs + 1) (work_between (work_of J.Meter.counts meters.old) (work_of J.Meter.counts meters.new)) (sink_view E.Sink err.old) (sink_view E.Sink err.new) result }
        ensures more { IsMoreWork (work_of J.Meter.counts meters.old) (work_of J.Meter.counts meters.new) }
        ensures quiet { self.old.engine.settings.work ≡ false → err.new ≡ err.old }
    {
        match c {
            Command::Run => self.answer(rt, out, err, meters, gate),
            c => self.change(c, line),
        }
    }

    /// Carries out a command on the window. Its only error is that the window refuses the command, or is out of memory.
    fn change(&mut self, c: Command, line: u64) -> Result<(), Halt>
        requires line { line ≤ 2 ^ 62 }
        requires accepted { accepted_of self.old < 2 ^ 63 }
        ensures changes { Changes (J.accepts (J.setting self.old.engine.job)) self.old self.new c line result }
    {
        match self.window.apply(self.alloc, c, self.engine.job()) {
            Ok(()) => Ok(()),
            Err(refused) => Err(halt_of_refusal(line, refused)),
        }
    }

    /// Answers the next run: gathers all of its bytes, writes them, and then tries its work line. It fails if the write
    /// does, or out of memory.
    fn answer<K: Sink, E: Sink, G: Gate, R: Threads + Wait + Sync>(
        &mut self,
        rt: &R,
        out: &mut K,
        err: &mut E,
        meters: &mut MeterRow<J::Meter>,
        gate: &G,
    ) -> Result<(), Halt>
    where
        J: Send + Sync,
        J::Val: Send + Sync,
        J::Meter: Send + Sync,
        T: Send,
        requires { self.old.engine.runs < 2 ^ 63 }
        ensures answered { RunAnswered (meaning_of J.Job self.old.engine.job) T.view T.shaped self.old self.new (sink_view K.Sink out.old) (sink_view K.Sink out.new) result }
        ensures later { K.faults out.old ≤ K.faults out.new }
        ensures worked { RunWorked J.Meter.counts (meaning_of J.Job self.old.engine.job) T.bound T.tight T.view self.old.window meters.old meters.new self.old.engine self.new.engine }
        ensures said { RunSaid self.old.engine.settings.work (self.old.engine.runs + 1) (work_between (work_of J.Meter.counts meters.old) (work_of J.Meter.counts meters.new)) (sink_view E.Sink err.old) (sink_view E.Sink err.new) result }
        ensures more { IsMoreWork (work_of J.Meter.counts meters.old) (work_of J.Meter.counts meters.new) }
        ensures quiet { self.old.engine.settings.work ≡ false → err.new ≡ err.old }
    {
        let before = Work::of(meters);
        let ran = self.engine.run(rt, &self.window, meters, gate);
        let now = Work::of(meters);
        match ran {
            Ok(()) => (),
            Err(_) => return Err(Halt::Mem),
        }
        self.window.run_done(self.alloc);
        match self.write_answer(out) {
            Ok(()) => (),
            Err(halt) => return Err(halt),
        }
        if !self.settings.work {
            return Ok(());
        }
        self.try_work(err, &before, &now)
    }

    /// Writes the answer of the last run. It fails if the write does, or out of memory.
    fn write_answer<K: Sink>(&self, out: &mut K) -> Result<(), Halt>
        ensures written { AnswerWritten (piece_over (meaning_of J.Job self.now.engine.job) self.now.engine.runs (joined self.now.engine.leaves)) (sink_view K.Sink out.old) (sink_view K.Sink out.new) result }
    {
        let run = self.engine.runs();
        let bytes = match piece_of(self.alloc, &self.engine, self.settings.parts, run) {
            Ok(bytes) => bytes,
            Err(_) => return Err(Halt::Mem),
        };
        match put_all(out, &bytes) {
            Ok(()) => Ok(()),
            Err(WriteFault::Failed) => Err(Halt::Write),
            Err(WriteFault::Mem) => Err(Halt::Mem),
        }
    }

    /// Tries the work line of the last run on `err`. It fails only out of memory.
    fn try_work<E: Sink>(&self, err: &mut E, before: &Work, now: &Work) -> Result<(), Halt>
        requires { IsMoreWork before.now now.now }
        ensures tried { LineTried (work_line self.now.engine.runs (work_between before.now now.now)) (sink_view E.Sink err.old) (sink_view E.Sink err.new) result }
    {
        let line = match now.line_since(self.alloc, self.engine.runs(), before) {
            Ok(line) => line,
            Err(_) => return Err(Halt::Mem),
        };
        match put_all(err, line.as_bytes()) {
            Ok(()) => Ok(()),
            Err(WriteFault::Failed) => Ok(()),
            Err(WriteFault::Mem) => Err(Halt::Mem),
        }
    }
}

/// The halt for a refusal of the command on a line.
fn halt_of_refusal(line: u64, refused: WindowFault) -> Halt
    requires { line ≤ 2 ^ 62 }
    ensures { RefusalIs line refused result }
{
    match refused {
        WindowFault::NotHere => halt_at(line, Why::NotHere),
        WindowFault::TooMany => halt_at(line, Why::TooMany),
        WindowFault::BadRecord { index } => halt_at(line + 1 + index as u64, Why::BadRecord),
        WindowFault::WindowLarge => halt_at(line, Why::WindowLarge),
        WindowFault::Mem => Halt::Mem,
    }
}

/// The script's fault at a line.
fn halt_at(line: u64, why: Why) -> Halt
    ensures { result ≡ Halt.Script (record { line = line; why = why }) }
{
    Halt::Script(ScriptFault { line, why })
}
