//! What is written for a script.
ghost use Rattle.std.specs.Prelude.{◌≡◌, ◌<◌, ◌≤◌, ◌+◌, ◌^◌, ℕ, None, All, IfOk};
ghost use Rattle.record_text.specs.declared.command.Command.TheVariants.{Run};
ghost use Rattle.record_text.specs.Script.{Ending, Done, Faulty, commands};
ghost use Rattle.job_laws.specs.Meanings.{meaning_of};
ghost use Rattle.window_manager.specs.Windows.{empty_window};
ghost use Rattle.slider_session.specs.Output.{ended_by, outcome_of};
ghost use Rattle.slider_session.specs.Accepted.{HoldsAccepted};
ghost use Rattle.definitions.specs.Limits.{most_script};
ghost use Rattle.plain_program.specs.Plain.{ending_of_rest};
ghost use Rattle.plain_program.specs.Walk.{Walks, walked_from};

use crate::answering::plain_piece;
use crate::plain_commands;
use crate::refusing::plain_apply;
use crate::walk::PlainWalk;
use definitions::MOST_SCRIPT;
use job_laws::Job;
use record_text::{Command, Kind, ScriptFault, Why};
use std::alloc::{AllocError, Global};
use window_manager::WindowFault;

/// What was written for a script, and the fault that ended it, if any.
#[derive(Drop)]
pub struct PlainOutcome {
    pub written: Vec<u8>,
    pub fault: Option<ScriptFault>,
}

/// What is written for a script by a job over a window of a kind, and how the script ends: each run is computed from
/// nothing.
pub fn plain_outcome<J: Job>(
    alloc: Global,
    job: &J,
    kind: Kind,
    places: u32,
    script: Vec<u8>,
    m: &mut J::Meter,
) -> Result<PlainOutcome, AllocError>
    ensures { IfOk result (λ o. (o.written.items, ending_of_rest o.fault Done) ≡ outcome_of (meaning_of J.Job job.now) (empty_window kind places) (commands most_script script.items)) }
{
    let script = plain_commands(alloc, script, MOST_SCRIPT)?;
    let mut walk = PlainWalk::new(alloc, kind, places);
    let refused = walk_commands(alloc, job, &script.commands, &mut walk, m)?;
    Ok(PlainOutcome {
        written: walk.written,
        fault: refused.or(script.fault),
    })
}

/// Carries out commands in order, up to the first that the window refuses.
fn walk_commands<J: Job>(
    alloc: Global,
    job: &J,
    commands: &[(Command, u64)],
    walk: &mut PlainWalk,
    m: &mut J::Meter,
) -> Result<Option<ScriptFault>, AllocError>
    requires lines { All (λ c. c.1 < 2 ^ 62) commands.now }
    requires run { walk.old.run ≤ 1 }
    requires accepted { HoldsAccepted (meaning_of J.Job job.now) walk.old.window }
    ensures { IfOk result (λ fault. (ending : Ending) → (walk.new.written.items, ending_of_rest fault ending) ≡ walked_from (meaning_of J.Job job.now) walk.old commands.now ending) }
{
    let mut rest = commands;
    'commands: while let [c, more @ ..] = rest {
        match step(alloc, job, &c.0, c.1, walk, m) {
            Ok(None) => (),
            Ok(Some(fault)) => return Ok(Some(fault)),
            Err(e) => return Err(e),
        }
        rest = more;
    }
    Ok(None)
}

/// Carries out the command on a line, or returns why the window refuses it.
fn step<J: Job>(
    alloc: Global,
    job: &J,
    c: &Command,
    line: u64,
    walk: &mut PlainWalk,
    m: &mut J::Meter,
) -> Result<Option<ScriptFault>, AllocError>
    requires line { line < 2 ^ 62 }
    requires run { walk.old.run < 2 ^ 63 }
    requires accepted { HoldsAccepted (meaning_of J.Job job.now) walk.old.window }
    ensures walks { IfOk result (λ fault. Walks (meaning_of J.Job job.now) walk.old walk.new c.now line fault) }
    ensures run { walk.new.run ≤ walk.old.run + 1 }
    ensures accepted { IfOk result (λ fault. fault ≡ None → HoldsAccepted (meaning_of J.Job job.now) walk.new.window) }
{
    match c {
        Command::Run => answer(alloc, job, walk, m),
        c => change(alloc, job, c, line, walk),
    }
}

/// Has the window carry out a command, or returns why it refuses it.
fn change<J: Job>(
    alloc: Global,
    job: &J,
    c: &Command,
    line: u64,
    walk: &mut PlainWalk,
) -> Result<Option<ScriptFault>, AllocError>
    requires window { c.now ≡ Run → ⊥ }
    requires line { line < 2 ^ 62 }
    requires accepted { HoldsAccepted (meaning_of J.Job job.now) walk.old.window }
    ensures walks { IfOk result (λ fault. Walks (meaning_of J.Job job.now) walk.old walk.new c.now line fault) }
    ensures run { walk.new.run ≡ walk.old.run }
    ensures accepted { IfOk result (λ fault. fault ≡ None → HoldsAccepted (meaning_of J.Job job.now) walk.new.window) }
{
    match plain_apply(alloc, job, &mut walk.window, c)? {
        None => Ok(None),
        Some(refused) => Ok(Some(fault_of(line, refused))),
    }
}

/// The script's fault if the window refuses the command on a line.
fn fault_of(line: u64, refused: WindowFault) -> ScriptFault
    requires line { line < 2 ^ 62 }
    ensures { ended_by line refused ≡ Faulty result.line result.why }
{
    match refused {
        WindowFault::NotHere => fault_at(line, Why::NotHere),
        WindowFault::TooMany => fault_at(line, Why::TooMany),
        WindowFault::BadRecord { index } => fault_at(line + 1 + index as u64, Why::BadRecord),
        WindowFault::WindowLarge => fault_at(line, Why::WindowLarge),
        WindowFault::Mem => fault_at(line, Why::Mem),
    }
}

/// A fault at a line.
fn fault_at(line: u64, why: Why) -> ScriptFault
    ensures { result ≡ record { line = line; why = why } }
{
    ScriptFault { line, why }
}

/// Answers the next run.
fn answer<J: Job>(
    alloc: Global,
    job: &J,
    walk: &mut PlainWalk,
    m: &mut J::Meter,
) -> Result<Option<ScriptFault>, AllocError>
    requires run { walk.old.run < 2 ^ 63 }
    requires accepted { HoldsAccepted (meaning_of J.Job job.now) walk.old.window }
    ensures walks { (line : ℕ) → IfOk result (λ fault. Walks (meaning_of J.Job job.now) walk.old walk.new Run line fault) }
    ensures run { walk.new.run ≤ walk.old.run + 1 }
    ensures window { walk.new.window ≡ walk.old.window }
{
    plain_piece(alloc, job, walk.run, &walk.window, &mut walk.written, m)?;
    walk.run += 1;
    Ok(None)
}
