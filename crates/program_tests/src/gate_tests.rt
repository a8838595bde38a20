//! Gates that hold a task back until another one is in progress.

use crate::calling::{basic_jobs, words};
use slider_io::{Gate, SureSink, SureSource};
use slider_program::{new_meters, run_program};
use std::alloc::{AllocError, Global};
use std::sync::Wait;
use std::sync::atomic::{AtomicBool, Ordering};
use std::thread;
use std::thread::Threads;

/// Holds task 0 back until a thread has passed another task, for at most 10,000,000 turns.
#[derive(Drop)]
struct HoldsFirst {
    until: u64,
    passed: AtomicBool,
    ran_out: AtomicBool,
}

impl HoldsFirst {
    /// A gate that holds task 0 back until this one is passed.
    fn until(until: u64) -> HoldsFirst {
        HoldsFirst {
            until,
            passed: AtomicBool::new(false),
            ran_out: AtomicBool::new(false),
        }
    }

    /// Waits until the other task is passed, or all turns are used up.
    fn wait(&self) {
        for _ in 0..10_000_000 {
            if self.passed.load(Ordering::SeqCst) {
                return;
            }
            thread::yield_now();
        }
        self.ran_out.store(true, Ordering::SeqCst);
    }
}

impl Gate for HoldsFirst {
    ghost passed = { λ gate task. Unit {0} };

    fn pass(&self, task: u64) {
        if task == self.until {
            self.passed.store(true, Ordering::SeqCst);
        }
        if task == 0 {
            self.wait();
        }
    }
}

/// Whether two workers, counting the words of one bucket behind a gate, pass it in time and write what one worker does.
fn passes_in_time<Q: Threads + Wait + Sync>(
    rt: &Q,
    alloc: Global,
    gate: &HoldsFirst,
) -> Result<bool, AllocError> {
    let Ok(mut meters) = new_meters(alloc) else {
        return Err(AllocError);
    };
    let words = words(alloc, "--job count --tree coalescing --workers 2")?;
    let mut source = SureSource::new(Vec::from_slice(alloc, b"bucket 1\na b a\nrun\n")?);
    let mut out = SureSink::new(alloc);
    let mut err = SureSink::new(alloc);
    let status = run_program(
        alloc,
        rt,
        words.as_slice(),
        &basic_jobs(),
        &mut source,
        &mut out,
        &mut err,
        &mut meters,
        gate,
    );
    Ok(
        status == 0
            && out.held() == b"# run 1 keys 2\na\t2\nb\t1\n".as_slice()
            && !gate.ran_out.load(Ordering::SeqCst),
    )
}

#[test]
fn two_tasks_are_under_way_together(rt: HostRuntime) -> Result<(), AllocError> {
    assert!(rt; passes_in_time(&rt, rt.alloc(), &HoldsFirst::until(1))?);
    Ok(())
}

#[test]
fn the_sweep_does_not_wait_for_the_lanes(rt: HostRuntime) -> Result<(), AllocError> {
    assert!(rt; passes_in_time(&rt, rt.alloc(), &HoldsFirst::until(16))?);
    Ok(())
}
