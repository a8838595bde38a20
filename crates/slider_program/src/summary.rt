//! The line that sums up what is written for a generated script.
ghost use Rattle.std.specs.Prelude.{◌≡◌, false, IfOk, string_bytes};
ghost use Rattle.std.specs.declared.option.Option.TheVariants.{Some};
ghost use Rattle.definitions.specs.Limits.{most_script};
ghost use Rattle.definitions.specs.Outside.{Told};
ghost use Rattle.record_text.specs.Script.{commands};
ghost use Rattle.job_laws.specs.Meanings.{meaning_of};
ghost use Rattle.job_laws.specs.Rows.{RowRose};
ghost use Rattle.window_manager.specs.Windows.{empty_window};
ghost use Rattle.window_manager.specs.Views.{no_leaves};
ghost use Rattle.run_settings.specs.Settings.{AreWithin};
ghost use Rattle.slider_session.specs.Devices.{sink_view};
ghost use Rattle.slider_session.specs.Costs.{ScriptCosts};
ghost use Rattle.slider_program.specs.Program.{ErrSaid, status_if_ok};
ghost use Rattle.slider_program.specs.Summaries.{runs_in, runs_of, summary_line, summary_of};

use definitions::MOST_SCRIPT;
use job_laws::{Job, MeterRow};
use record_text::{Command, ScriptFault, ScriptReader};
use run_settings::Settings;
use sha2::{Digest, Sha256};
use slider_io::{Gate, Sink, Source, SureSink, SureSource};
use slider_session::serve;
use std::alloc::{AllocError, Global};
use std::sync::Wait;
use std::thread::Threads;
use tree_laws::Tree;

/// How many runs a command is: one or none.
fn runs_in(command: &Command) -> u64
    ensures { result ≡ runs_in command.now }
{
    match command {
        Command::Run => 1,
        _ => 0,
    }
}

/// How many runs the script has that a source has left, if it has no fault of form.
fn count_runs<S: Source>(alloc: Global, source: &mut S) -> Result<u64, ScriptFault>
    ensures { IfOk result (λ runs. Told (S.left source.old) (S.left source.new) (λ script after. runs ≡ runs_of (commands most_script script))) }
{
    let mut reader = ScriptReader::new(source, alloc, MOST_SCRIPT);
    let mut runs = 0u64;
    'commands: loop {
        match reader.next(alloc) {
            Ok(Some(command)) => runs += runs_in(&command),
            Ok(None) => {
                reader.into_source();
                return Ok(runs);
            }
            Err(fault) => {
                reader.into_source();
                return Err(fault);
            }
        }
    }
}

/// The summary line of an output, with a number of runs. The digest is SHA-256 (FIPS 180-4).
fn line_of_output(alloc: Global, runs: u64, output: &[u8]) -> Result<String, AllocError>
    ensures { IfOk result (λ line. string_bytes line ≡ summary_line runs output.now) }
{
    let bytes = output.len();
    let digest = hex::encode(alloc, Sha256::digest(output))?;
    format!(in alloc; "runs {runs} bytes {bytes} sha256 {digest}\n")
}

/// Serves a generated script with a job in trees of one kind, from the empty window on, and sums up its output, which
/// is gathered and not written. A generated script has no fault, so it fails only out of memory.
pub fn summary_of<
    J: Job + Send + Sync,
    T: Tree<J> + Send,
    E: Sink,
    G: Gate,
    R: Threads + Wait + Sync,
>(
    alloc: Global,
    rt: &R,
    job: J,
    settings: Settings,
    script: Vec<u8>,
    err: &mut E,
    meters: &mut MeterRow<J::Meter>,
    gate: &G,
) -> Result<String, AllocError>
where
    J::Val: Send + Sync,
    J::Meter: Send + Sync,
    requires { AreWithin settings }
    ensures summary { IfOk result (λ line. string_bytes line ≡ summary_of (meaning_of J.Job job) (empty_window T.KIND settings.places) script.items) }
    ensures said { ErrSaid (meaning_of J.Job job) (empty_window T.KIND settings.places) J.Meter.counts settings.work (Some script.items) meters.old meters.new (sink_view E.Sink err.old) (sink_view E.Sink err.new) (status_if_ok result) }
    ensures rose { RowRose J.Meter.counts meters.old meters.new }
    ensures costs { ScriptCosts (meaning_of J.Job job) T.bound T.shaped J.Meter.counts (no_leaves T.KIND settings.places) (commands most_script script.items).0 meters.old meters.new }
    ensures quiet { settings.work ≡ false → err.new ≡ err.old }
{
    let mut first = SureSource::new(Vec::from_slice(alloc, script.as_slice())?);
    let Ok(runs) = count_runs(alloc, &mut first) else {
        return Err(AllocError);
    };
    let mut source = SureSource::new(script);
    let mut output = SureSink::new(alloc);
    match serve::<J, T, _, _, E, G, R>(
        alloc,
        rt,
        job,
        settings,
        &mut source,
        &mut output,
        err,
        meters,
        gate,
    ) {
        Ok(()) => line_of_output(alloc, runs, output.held()),
        Err(_) => Err(AllocError),
    }
}
