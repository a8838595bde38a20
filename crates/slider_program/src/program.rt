//! The top-level call, from arguments and devices to a status. The clause of the last function has the promises.
ghost use Rattle.std.specs.Prelude.{◌≡◌, ◌≢◌, ◌≤◌, ◌⊎◌, ℕ, List, false, map, string_bytes};
ghost use Rattle.std.specs.declared.option.Option.TheVariants.{Some};
ghost use Rattle.definitions.specs.Limits.{most_script};
ghost use Rattle.definitions.specs.Outside.{Told, GainsPrefix};
ghost use Rattle.job_laws.specs.Meanings.{meaning_of};
ghost use Rattle.job_laws.specs.Rows.{RowRose};
ghost use Rattle.record_text.specs.Script.{commands};
ghost use Rattle.window_manager.specs.Windows.{empty_window};
ghost use Rattle.window_manager.specs.Views.{no_leaves};
ghost use Rattle.run_settings.specs.Settings.{AreWithin};
ghost use Rattle.slider_session.specs.Devices.{sink_view};
ghost use Rattle.slider_session.specs.Costs.{ScriptCosts};
ghost use Rattle.program_words.specs.declared.plan.TreeName.TheVariants.{Rotating};
ghost use Rattle.program_words.specs.Plans.{IsWithin, plan_of};
ghost use Rattle.slider_program.specs.Trees.{Rotates};
ghost use Rattle.slider_program.specs.Words.{fault_line};
ghost use Rattle.slider_program.specs.Summaries.{summary_of};
ghost use Rattle.slider_program.specs.Program.{Tries, SumsUp, ScriptAnswered, ErrSaid, Planned, PlannedBy, PlannedFor, Ran, jobs_of, outside, seen_of};

use crate::summary::summary_of;
use crate::words::line_of_fault;
use coalescing_tree::CoalescingTree;
use folding_tree::FoldingTree;
use job_laws::{Job, JobSet, MeterRow};
use program_words::{JobName, Plan, TreeName, WordsFault, line_of_usage, read_words};
use random_tree::RandomTree;
use record_text::ScriptFault;
use rotating_tree::RotatingTree;
use run_settings::Settings;
use script_generator::generate;
use slider_io::{Gate, Sink, Source, WriteFault, put_all};
use slider_session::{Halt, serve};
use std::alloc::Global;
use std::sync::Wait;
use std::thread::Threads;
use tree_laws::Tree;

/// Tries a line on `err`, and returns this status. A failed write ends the line and does not change the status; out of
/// memory, it returns 6.
fn status_after<E: Sink>(err: &mut E, line: &[u8], status: u8) -> u8
    ensures status { (result ≡ status) ⊎ (result ≡ 6) }
    ensures tried { result ≢ 6 → Tries line.now (sink_view E.Sink err.old) (sink_view E.Sink err.new) }
    ensures prefix { Told (E.held err.old) (E.held err.new) (GainsPrefix line.now) }
    ensures later { E.faults err.old ≤ E.faults err.new }
{
    match put_all(err, line) {
        Ok(()) => status,
        Err(WriteFault::Failed) => status,
        Err(WriteFault::Mem) => 6,
    }
}

/// Writes the line of a script's fault to `err`.
fn status_of_fault<E: Sink>(alloc: Global, err: &mut E, fault: ScriptFault) -> u8
    ensures status { (result ≡ 3) ⊎ (result ≡ 6) }
    ensures tried { result ≡ 3 → Tries (fault_line fault.line fault.why) (sink_view E.Sink err.old) (sink_view E.Sink err.new) }
    ensures prefix { Told (E.held err.old) (E.held err.new) (GainsPrefix (fault_line fault.line fault.why)) }
    ensures later { E.faults err.old ≤ E.faults err.new }
{
    match line_of_fault(alloc, fault) {
        Ok(line) => status_after(err, line.as_bytes(), 3),
        Err(_) => 6,
    }
}

/// Serves the script that the source has left with a job in trees of one kind, from the empty window on, and returns
/// the status.
fn serve_script<
    J: Job + Send + Sync,
    T: Tree<J> + Send,
    S: Source,
    K: Sink,
    E: Sink,
    G: Gate,
    R: Threads + Wait + Sync,
>(
    alloc: Global,
    rt: &R,
    job: J,
    settings: Settings,
    source: &mut S,
    out: &mut K,
    err: &mut E,
    meters: &mut MeterRow<J::Meter>,
    gate: &G,
) -> u8
where
    J::Val: Send + Sync,
    J::Meter: Send + Sync,
    requires { AreWithin settings }
    ensures answered { ScriptAnswered (meaning_of J.Job job) (empty_window T.KIND settings.places)
        (seen_of S.Source K.Sink E.Sink (outside source.old out.old err.old meters.old)) (seen_of S.Source K.Sink E.Sink (outside source.new out.new err.new meters.new)) result }
    ensures said { ErrSaid (meaning_of J.Job job) (empty_window T.KIND settings.places) J.Meter.counts settings.work (S.left source.old) meters.old meters.new (sink_view E.Sink err.old) (sink_view E.Sink err.new) result }
    ensures rose { RowRose J.Meter.counts meters.old meters.new }
    ensures costs { (script : List ℕ) → S.left source.old ≡ Some script → ScriptCosts (meaning_of J.Job job) T.bound T.shaped J.Meter.counts (no_leaves T.KIND settings.places) (commands most_script script).0 meters.old meters.new }
    ensures quiet { settings.work ≡ false → result ≢ 3 → result ≢ 6 → err.new ≡ err.old }
{
    match serve::<J, T, S, K, E, G, R>(alloc, rt, job, settings, source, out, err, meters, gate) {
        Ok(()) => 0,
        Err(Halt::Script(fault)) => status_of_fault(alloc, err, fault),
        Err(Halt::Read) => 4,
        Err(Halt::Write) => 5,
        Err(Halt::Mem) => 6,
    }
}

/// Writes the line of a summary, and returns the status.
fn status_of_summary<K: Sink>(out: &mut K, line: &[u8]) -> u8
    ensures { SumsUp line.now (sink_view K.Sink out.old) (sink_view K.Sink out.new) result }
{
    match put_all(out, line) {
        Ok(()) => 0,
        Err(WriteFault::Failed) => 5,
        Err(WriteFault::Mem) => 6,
    }
}

/// Writes the summary of a generated script, and returns the status.
fn sum_up<
    J: Job + Send + Sync,
    T: Tree<J> + Send,
    K: Sink,
    E: Sink,
    G: Gate,
    R: Threads + Wait + Sync,
>(
    alloc: Global,
    rt: &R,
    job: J,
    settings: Settings,
    script: Vec<u8>,
    out: &mut K,
    err: &mut E,
    meters: &mut MeterRow<J::Meter>,
    gate: &G,
) -> u8
where
    J::Val: Send + Sync,
    J::Meter: Send + Sync,
    requires { AreWithin settings }
    ensures summed { SumsUp (summary_of (meaning_of J.Job job) (empty_window T.KIND settings.places) script.items) (sink_view K.Sink out.old) (sink_view K.Sink out.new) result }
    ensures said { ErrSaid (meaning_of J.Job job) (empty_window T.KIND settings.places) J.Meter.counts settings.work (Some script.items) meters.old meters.new (sink_view E.Sink err.old) (sink_view E.Sink err.new) result }
    ensures rose { RowRose J.Meter.counts meters.old meters.new }
    ensures costs { ScriptCosts (meaning_of J.Job job) T.bound T.shaped J.Meter.counts (no_leaves T.KIND settings.places) (commands most_script script.items).0 meters.old meters.new }
    ensures quiet { settings.work ≡ false → err.new ≡ err.old }
{
    match summary_of::<J, T, E, G, R>(alloc, rt, job, settings, script, err, meters, gate) {
        Ok(line) => status_of_summary(out, line.as_bytes()),
        Err(_) => 6,
    }
}

/// Serves the script that the source has left with a job, or sums up the generated one, as a plan asks for, in trees of
/// one kind.
fn run_trees<
    J: Job + Send + Sync,
    T: Tree<J> + Send,
    S: Source,
    K: Sink,
    E: Sink,
    G: Gate,
    R: Threads + Wait + Sync,
>(
    alloc: Global,
    rt: &R,
    job: J,
    plan: Plan,
    source: &mut S,
    out: &mut K,
    err: &mut E,
    meters: &mut MeterRow<J::Meter>,
    gate: &G,
) -> u8
where
    J::Val: Send + Sync,
    J::Meter: Send + Sync,
    requires { IsWithin plan }
    ensures ran { Planned J.Meter.counts (seen_of S.Source K.Sink E.Sink) (meaning_of J.Job job) T.KIND T.bound T.shaped plan
        (outside source.old out.old err.old meters.old) (outside source.new out.new err.new meters.new) result }
{
    let Some(seed) = plan.seed else {
        return serve_script::<J, T, S, K, E, G, R>(
            alloc,
            rt,
            job,
            plan.settings,
            source,
            out,
            err,
            meters,
            gate,
        );
    };
    match generate(alloc, &plan, seed) {
        Ok(script) => sum_up::<J, T, K, E, G, R>(
            alloc,
            rt,
            job,
            plan.settings,
            script,
            out,
            err,
            meters,
            gate,
        ),
        Err(_) => 6,
    }
}

/// Runs a job in the trees that a plan names, which do not rotate.
fn run_job<J: Job + Send + Sync, S: Source, K: Sink, E: Sink, G: Gate, R: Threads + Wait + Sync>(
    alloc: Global,
    rt: &R,
    job: J,
    plan: Plan,
    source: &mut S,
    out: &mut K,
    err: &mut E,
    meters: &mut MeterRow<J::Meter>,
    gate: &G,
) -> u8
where
    J::Val: Send + Sync,
    J::Meter: Send + Sync,
    requires plan { IsWithin plan }
    requires in_order { plan.tree ≢ Rotating }
    ensures ran { PlannedBy J.Meter.counts (seen_of S.Source K.Sink E.Sink) (meaning_of J.Job job) plan
        (outside source.old out.old err.old meters.old) (outside source.new out.new err.new meters.new) result }
{
    match plan.tree {
        TreeName::Folding => run_trees::<J, FoldingTree<J>, S, K, E, G, R>(
            alloc, rt, job, plan, source, out, err, meters, gate,
        ),
        TreeName::Random => run_trees::<J, RandomTree<J>, S, K, E, G, R>(
            alloc, rt, job, plan, source, out, err, meters, gate,
        ),
        TreeName::Coalescing => run_trees::<J, CoalescingTree<J>, S, K, E, G, R>(
            alloc, rt, job, plan, source, out, err, meters, gate,
        ),
        TreeName::Rotating => unreachable!(),
    }
}

/// Runs a job whose values may swap in the trees that a plan names; `T` is the rotating tree.
fn run_swapping<
    J: Job + Send + Sync,
    T: Tree<J> + Send,
    S: Source,
    K: Sink,
    E: Sink,
    G: Gate,
    R: Threads + Wait + Sync,
>(
    alloc: Global,
    rt: &R,
    job: J,
    plan: Plan,
    source: &mut S,
    out: &mut K,
    err: &mut E,
    meters: &mut MeterRow<J::Meter>,
    gate: &G,
) -> u8
where
    J::Val: Send + Sync,
    J::Meter: Send + Sync,
    requires plan { IsWithin plan }
    requires tree { Rotates T.KIND T.bound T.shaped }
    ensures ran { PlannedBy J.Meter.counts (seen_of S.Source K.Sink E.Sink) (meaning_of J.Job job) plan
        (outside source.old out.old err.old meters.old) (outside source.new out.new err.new meters.new) result }
{
    match plan.tree {
        TreeName::Rotating => run_trees::<J, T, S, K, E, G, R>(
            alloc, rt, job, plan, source, out, err, meters, gate,
        ),
        _ => run_job::<J, S, K, E, G, R>(alloc, rt, job, plan, source, out, err, meters, gate),
    }
}

/// Runs the job that a plan names.
fn run_plan<S: Source, K: Sink, E: Sink, B: JobSet, G: Gate, R: Threads + Wait + Sync>(
    alloc: Global,
    rt: &R,
    plan: Plan,
    jobs: &B,
    source: &mut S,
    out: &mut K,
    err: &mut E,
    meters: &mut MeterRow<B::Meter>,
    gate: &G,
) -> u8
    requires { IsWithin plan }
    ensures ran { PlannedFor B.Meter.counts (seen_of S.Source K.Sink E.Sink) (jobs_of B.Count.Job B.Index.Job B.Latest.Job B.TopK.Job) plan.job plan
        (outside source.old out.old err.old meters.old) (outside source.new out.new err.new meters.new) result }
{
    match plan.job {
        JobName::Count => run_swapping::<B::Count, RotatingTree<B::Count>, S, K, E, G, R>(
            alloc,
            rt,
            jobs.count(),
            plan,
            source,
            out,
            err,
            meters,
            gate,
        ),
        JobName::Index => run_swapping::<B::Index, RotatingTree<B::Index>, S, K, E, G, R>(
            alloc,
            rt,
            jobs.index(),
            plan,
            source,
            out,
            err,
            meters,
            gate,
        ),
        JobName::Latest => run_job::<B::Latest, S, K, E, G, R>(
            alloc,
            rt,
            jobs.latest(),
            plan,
            source,
            out,
            err,
            meters,
            gate,
        ),
        JobName::TopK => run_swapping::<B::TopK, RotatingTree<B::TopK>, S, K, E, G, R>(
            alloc,
            rt,
            jobs.topk(plan.k),
            plan,
            source,
            out,
            err,
            meters,
            gate,
        ),
    }
}

/// Reads the arguments `words`, takes the named job from `jobs`, serves the script that `source` has left from the
/// empty window of the named tree on, and returns the status: 0 done, 2 arguments refused, 3 a fault of the script, 4 a
/// read failed, 5 a write failed, 6 out of memory. Answers go to `out`; work lines, if asked for, and the line for a
/// refusal or a fault go to `err`. With a seed it does not touch `source`, serves the generated script, and writes the
/// summary of its answers to `out`. Of the jobs it knows only their laws. It may block.
pub fn run_program<Q: Threads + Wait + Sync, S: Source, K: Sink, E: Sink, B: JobSet, G: Gate>(
    alloc: Global,
    rt: &Q,
    words: &[String],
    jobs: &B,
    source: &mut S,
    out: &mut K,
    err: &mut E,
    meters: &mut MeterRow<B::Meter>,
    gate: &G,
) -> u8
    ensures ran { Ran B.Meter.counts (seen_of S.Source K.Sink E.Sink) (jobs_of B.Count.Job B.Index.Job B.Latest.Job B.TopK.Job) (plan_of (map string_bytes words.now))
        (outside source.old out.old err.old meters.old) (outside source.new out.new err.new meters.new) result }
{
    match read_words(alloc, words) {
        Ok(plan) => run_plan(alloc, rt, plan, jobs, source, out, err, meters, gate),
        Err(WordsFault::Usage(field)) => status_after(err, line_of_usage(field), 2),
        Err(WordsFault::Mem) => 6,
    }
}
