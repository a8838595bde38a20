//! Gates that hold a task back until another one has passed.

use crate::desk::{Desk, Jobs, settings};
use crate::made::records;
use folding_tree::FoldingTree;
use job_laws::CountMeter;
use jobs_basic::Count;
use record_text::Command;
use slider_io::Gate;
use std::alloc::{AllocError, Global};
use std::sync::Wait;
use std::sync::atomic::{AtomicBool, Ordering};
use std::test::Fail;
use std::thread;
use std::thread::Threads;

type Counting = Count<CountMeter>;

/// Holds task 0 back until task `until` has passed, for 10,000,000 turns at most. On later boards nothing is held back.
#[derive(Drop)]
struct HoldsFirst {
    until: u64,
    passed: AtomicBool,
    ran_out: AtomicBool,
}

impl HoldsFirst {
    fn until(until: u64) -> HoldsFirst {
        HoldsFirst {
            until,
            passed: AtomicBool::new(false),
            ran_out: AtomicBool::new(false),
        }
    }

    /// Waits until the other task has passed or all turns are used up.
    fn wait(&self) {
        for _ in 0..10_000_000 {
            if self.passed.load(Ordering::SeqCst) {
                return;
            }
            thread::yield_now();
        }
        self.ran_out.store(true, Ordering::SeqCst);
    }
}

impl Gate for HoldsFirst {
    ghost passed = { λ gate task. Unit {0} };

    fn pass(&self, task: u64) {
        if task == self.until {
            self.passed.store(true, Ordering::SeqCst);
        }
        if task == 0 {
            self.wait();
        }
    }
}

// Whether a run of two workers passes a gate in time, and its roots agree.
fn passes_in_time<R: Threads + Wait + Sync>(
    rt: &R,
    alloc: Global,
    gate: &HoldsFirst,
) -> Result<bool, AllocError> {
    let mut desk = Desk::<Counting, FoldingTree<Counting>>::new(
        alloc,
        0,
        Jobs::new(alloc, Count::new(), Count::new())?,
        settings(2, 1, 1, 5),
    )?;
    let told = desk.apply(Command::Bucket(records(alloc, "b a b")?))?;
    let ran = desk.run(rt, gate).is_some();
    let passed = gate.passed.load(Ordering::SeqCst) && !gate.ran_out.load(Ordering::SeqCst);
    Ok(told && ran && passed && desk.agrees()?)
}

#[test]
fn two_tasks_are_under_way_together(rt: HostRuntime) -> Result<(), Fail> {
    assert!(rt; passes_in_time(&rt, rt.alloc(), &HoldsFirst::until(1))?);
    Ok(())
}

// Task 16 of the first board is the sweep.
#[test]
fn the_sweep_does_not_wait_for_the_lanes(rt: HostRuntime) -> Result<(), Fail> {
    assert!(rt; passes_in_time(&rt, rt.alloc(), &HoldsFirst::until(16))?);
    Ok(())
}
