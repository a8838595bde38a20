//! Boards of a few numbers: each task is done at its place, two at the same time, and each number is given once.
ghost use Rattle.std.specs.Prelude.{◌≡◌, ◌+◌, ◌<◌, ◌^◌, ℕ};
ghost use Rattle.worker_claims.specs.declared.knowledge.Doing.TheVariants.{Free};
ghost use Rattle.worker_claims.specs.Hands.{IsHandOf};

use crate::{Board, Hand, Worker, work_all};
use slider_io::{Gate, NoGate};
use std::process::Abort;
use std::sync::Wait;
use std::sync::atomic::{AtomicBool, AtomicU64, Ordering};
use std::test::Fail;
use std::thread;
use std::thread::Threads;

/// Adds its number to a task.
struct Adds;

impl Worker<u64> for Adds {
    ghost ready = { λ _ number task. number + task < 2 ^ 64 };

    ghost works = { λ _ number old new. new ≡ number + old };

    fn work<R: Threads + Wait + Sync>(&self, _rt: &R, number: u64, task: &mut u64) {
        *task += number;
    }
}

#[test]
fn each_task_is_worked_in_its_place(rt: HostRuntime) -> Result<(), Fail> {
    let tasks = vec![in rt.alloc(); 10u64, 20, 30]?;
    match work_all(&rt, rt.alloc(), tasks, 2, &NoGate, &Adds) {
        Ok(done) => assert_eq!(rt; done.as_slice(), [10, 21, 32].as_slice()),
        Err(_) => panic!(rt; "there is memory for three tasks"),
    }
    let none = Vec::new(rt.alloc());
    match work_all(&rt, rt.alloc(), none, 16, &NoGate, &Adds) {
        Ok(done) => assert!(rt; done.is_empty()),
        Err(_) => panic!(rt; "there is memory for no task"),
    }
    Ok(())
}

/// Holds task 0 back until task 1 has passed, for a limited number of looks, and counts the passes.
#[derive(Drop)]
struct Waits {
    comers: AtomicU64,
    passed: AtomicBool,
    ran_out: AtomicBool,
}

impl Gate for Waits {
    ghost passed = { λ gate task. Unit {0} };

    fn pass(&self, task: u64) {
        self.comers.fetch_add(1, Ordering::SeqCst);
        if task == 1 {
            self.passed.store(true, Ordering::SeqCst);
        }
        if task == 0 {
            for _ in 0..10_000_000 {
                if self.passed.load(Ordering::SeqCst) {
                    return;
                }
                thread::yield_now();
            }
            self.ran_out.store(true, Ordering::SeqCst);
        }
    }
}

#[test]
fn two_tasks_are_under_way_together(rt: HostRuntime) -> Result<(), Fail> {
    let gate = Waits {
        comers: AtomicU64::new(0),
        passed: AtomicBool::new(false),
        ran_out: AtomicBool::new(false),
    };
    let tasks = vec![in rt.alloc(); 10u64, 20, 30]?;
    let done = work_all(&rt, rt.alloc(), tasks, 2, &gate, &Adds).is_ok();
    assert!(rt; done);
    assert!(rt; !gate.ran_out.load(Ordering::SeqCst));
    assert_eq!(rt; gate.comers.load(Ordering::SeqCst), 3);
    Ok(())
}

/// Claims a task, which must be the wanted one, and gives `worked` back in its place.
fn works_next<R: Abort>(
    rt: &R,
    board: &Board<u64>,
    hand: &mut Hand<u64>,
    wanted: (u64, u64),
    worked: u64,
)
    requires of { IsHandOf board.now hand.old }
    requires free { hand.old.doing ≡ Free }
    ensures of { IsHandOf board.now hand.new }
    ensures free { hand.new.doing ≡ Free }
{
    let Some((number, task)) = board.claim(hand) else {
        panic!(rt; "a task is left")
    };
    assert_eq!(rt; (number, task), wanted);
    board.give(hand, number, worked);
}

#[test]
fn a_board_gives_each_number_once(rt: HostRuntime) -> Result<(), Fail> {
    let tasks = vec![in rt.alloc(); 7u64, 8]?;
    let Ok((board, mut hands)) = Board::new(rt.alloc(), tasks, 1) else {
        panic!(rt; "there is memory for a board")
    };
    let Some(mut hand) = hands.pop() else {
        panic!(rt; "there is one hand")
    };
    works_next(&rt, &board, &mut hand, (0, 7), 70);
    works_next(&rt, &board, &mut hand, (1, 8), 80);
    assert!(rt; board.claim(&mut hand).is_none());
    assert!(rt; board.claim(&mut hand).is_none());
    hands.push_reserved(hand);
    assert_eq!(rt; board.close(hands).as_slice(), [70, 80].as_slice());
    Ok(())
}
