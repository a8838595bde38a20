//! Serves a whole script.
ghost use Rattle.std.specs.Prelude.{◌≡◌, ℕ, List, false};
ghost use Rattle.std.specs.declared.option.Option.TheVariants.{Some};
ghost use Rattle.definitions.specs.Limits.{most_script};
ghost use Rattle.job_laws.specs.Meanings.{meaning_of};
ghost use Rattle.job_laws.specs.Rows.{RowRose};
ghost use Rattle.record_text.specs.Script.{commands};
ghost use Rattle.window_manager.specs.Windows.{empty_window};
ghost use Rattle.window_manager.specs.Views.{no_leaves};
ghost use Rattle.run_settings.specs.Settings.{AreWithin};
ghost use Rattle.slider_session.specs.Devices.{source_view, sink_view};
ghost use Rattle.slider_session.specs.Costs.{ScriptCosts};
ghost use Rattle.slider_session.specs.Serving.{Serves, ScriptSaid, HaltIs};

use crate::{Halt, Session};
use definitions::MOST_SCRIPT;
use job_laws::{Job, MeterRow};
use record_text::{ScriptFault, ScriptReader, Why};
use run_settings::Settings;
use slider_io::{Gate, Sink, Source};
use std::alloc::Global;
use std::sync::Wait;
use std::thread::Threads;
use tree_laws::Tree;

/// The halt for a fault of the reader.
fn halt_of(fault: ScriptFault) -> Halt
    ensures { HaltIs fault result }
{
    match fault.why {
        Why::Mem => Halt::Mem,
        Why::Read => Halt::Read,
        _ => Halt::Script(fault),
    }
}

/// Serves the script that a source has left, from the empty window of a tree's kind on. Each command is carried out
/// before the next one is read, so each run is answered before more of the source is taken. With `work` each run's work
/// line is tried on `err`. A run costs the leaves that changed since the run before it, the paths above them, and one
/// walk over the answer. It may block.
///
/// # Errors
///
/// The script's first fault, a failed read, a failed write, or out of memory; serving stops there. At a fault and at a
/// failed read all runs before it are written.
pub fn serve<
    J: Job + Send + Sync,
    T: Tree<J> + Send,
    S: Source,
    K: Sink,
    E: Sink,
    G: Gate,
    R: Threads + Wait + Sync,
>(
    alloc: Global,
    rt: &R,
    job: J,
    settings: Settings,
    source: &mut S,
    out: &mut K,
    err: &mut E,
    meters: &mut MeterRow<J::Meter>,
    gate: &G,
) -> Result<(), Halt>
where
    J::Val: Send + Sync,
    J::Meter: Send + Sync,
    requires { AreWithin settings }
    ensures serves { Serves (meaning_of J.Job job) (empty_window T.KIND settings.places) most_script (source_view S.Source source.old) (source_view S.Source source.new) (sink_view K.Sink out.old) (sink_view K.Sink out.new) result }
    ensures rose { RowRose J.Meter.counts meters.old meters.new }
    ensures costs { (script : List ℕ) → S.left source.old ≡ Some script → ScriptCosts (meaning_of J.Job job) T.bound T.shaped J.Meter.counts (no_leaves T.KIND settings.places) (commands most_script script).0 meters.old meters.new }
    ensures said { ScriptSaid (meaning_of J.Job job) (empty_window T.KIND settings.places) most_script J.Meter.counts settings.work (S.left source.old) meters.old meters.new (sink_view E.Sink err.old) (sink_view E.Sink err.new) result }
    ensures quiet { settings.work ≡ false → err.new ≡ err.old }
{
    let mut session = match Session::<J, T>::new(alloc, job, settings) {
        Ok(session) => session,
        Err(_) => return Err(Halt::Mem),
    };
    let mut reader = ScriptReader::new(source, alloc, MOST_SCRIPT);

    // At each exit the session is dropped first, so that giving the source back is the last step.
    'commands: loop {
        let command = match reader.next(alloc) {
            Ok(Some(command)) => command,
            Ok(None) => {
                drop(session);
                reader.into_source();
                return Ok(());
            }
            Err(fault) => {
                drop(session);
                reader.into_source();
                return Err(halt_of(fault));
            }
        };
        match session.step(rt, command, reader.line(), out, err, meters, gate) {
            Ok(()) => (),
            Err(halt) => {
                drop(session);
                reader.into_source();
                return Err(halt);
            }
        }
    }
}
