//! The job served over a window, as a program of one's own serves it.
ghost use Rattle.std.specs.Prelude.{◌≡◌, length, IfOk};

use crate::Extremes;
use job_laws::{CountMeter, Job, MeterRow};
use rotating_tree::RotatingTree;
use run_settings::Settings;
use slider_io::{NoGate, SureSink, SureSource};
use slider_session::serve;
use std::alloc::{AllocError, Global};
use std::sync::Wait;
use std::test::Fail;
use std::thread::Threads;
use tree_laws::Tree;

type Times = Extremes<CountMeter>;

// The tree of a circle of buckets, which takes the job since its values swap.
type Circle = RotatingTree<Times>;

// As many meters as there are lanes, and parts.
fn new_meters(alloc: Global) -> Result<Vec<CountMeter>, AllocError>
    ensures { IfOk result (λ meters. length meters.items ≡ 16) }
{
    let mut meters = Vec::new(alloc);
    'meters: while meters.len() < 16 {
        meters.push(CountMeter::new())?;
    }
    Ok(meters)
}

// What is written for a script, over a circle of three buckets if the tree is that of a circle. It is generic in job and
// tree, since a proof over a whole session becomes too long if it sees which they are.
fn written<J: Job + Send + Sync, T: Tree<J> + Send, R: Threads + Wait + Sync>(
    rt: &R,
    alloc: Global,
    job: J,
    meters: &mut MeterRow<J::Meter>,
    script: &[u8],
) -> Result<Vec<u8>, Fail>
where
    J::Val: Send + Sync,
    J::Meter: Send + Sync,
{
    let settings = Settings {
        places: 3,
        ..Settings::default()
    };
    let mut source = SureSource::new(Vec::from_slice(alloc, script)?);
    let mut out = SureSink::new(alloc);
    let mut err = SureSink::new(alloc);
    serve::<J, T, _, _, _, _, R>(
        alloc,
        rt,
        job,
        settings,
        &mut source,
        &mut out,
        &mut err,
        meters,
        &NoGate,
    )?;
    Ok(Vec::from_slice(alloc, out.held())?)
}

#[test]
fn response_times_of_each_page_over_three_minutes(rt: HostRuntime) -> Result<(), Fail> {
    let script = b"bucket 2
/index.html\t120
/about.html\t80
bucket 2
/index.html\t95
/index.html\t310
run
bucket 1
/about.html\t45
late 1 1
/index.html\t70
run
bucket 1
/index.html\t200
run
bucket 0
run
";
    let answers = b"# run 1 keys 2
/about.html\t80\t80
/index.html\t95\t310
# run 2 keys 2
/about.html\t45\t80
/index.html\t70\t310
# run 3 keys 2
/about.html\t45\t45
/index.html\t70\t310
# run 4 keys 2
/about.html\t45\t45
/index.html\t200\t200
";
    let alloc = rt.alloc();
    let mut meters = MeterRow {
        lanes: new_meters(alloc)?,
        parts: new_meters(alloc)?,
    };
    let out = written::<Times, Circle, HostRuntime>(
        &rt,
        alloc,
        Extremes::new(),
        &mut meters,
        script,
    )?;
    assert_eq!(rt; out.as_slice(), answers.as_slice());
    Ok(())
}
