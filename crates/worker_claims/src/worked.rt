//! All tasks, done by several threads: each hand claims a task, passes the gate, does the task and gives it back, until
//! none is left.
ghost use Rattle.std.specs.Prelude.{◌≡◌, ◌<◌, ◌≤◌, ◌^◌, [], length, vec_len, IfOk, IfErr, All};
ghost use Rattle.worker_claims.specs.declared.knowledge.Doing.TheVariants.{Free};
ghost use Rattle.worker_claims.specs.Hands.{IsHandOf, HasEnded, AllWorked, AllReady, IsWorked, gated};

use crate::tokens::{Board, Hand};
use crate::work::Worker;
use slider_io::Gate;
use std::alloc::{AllocError, Global};
use std::sync::Wait;
use std::thread;
use std::thread::Threads;

// Claims and does one task after another until none is left.
fn work_hand<T, G: Gate, W: Worker<T>, R: Threads + Wait + Sync>(
    rt: &R,
    board: &Board<T>,
    hand: &mut Hand<T>,
    gate: &G,
    worker: &W,
)
    requires of { IsHandOf board.now hand.old }
    requires fresh { (hand.old.doing ≡ Free) × (hand.old.given ≡ []) }
    requires ready { AllReady (W.ready worker.now) board.now.tasks }
    ensures of { IsHandOf board.now hand.new }
    ensures ended { HasEnded hand.new.doing }
    ensures worked { AllWorked (gated (G.passed gate.now) (W.works worker.now)) board.now.tasks hand.new.given }
{
    'claims: for _ in rt.forever() {
        let Some((number, mut task)) = board.claim(hand) else {
            return;
        };
        gate.pass(number);
        worker.work(rt, number, &mut task);
        board.give(hand, number, task);
    }
    unreachable!()
}

// Each hand in a thread of its own.
fn work_hands<T: Send, G: Gate, W: Worker<T>, R: Threads + Wait + Sync>(
    rt: &R,
    board: &Board<T>,
    hands: &mut [Hand<T>],
    gate: &G,
    worker: &W,
)
    requires some { 0 < length hands.old }
    requires fresh { All (λ h. IsHandOf board.now h × (h.doing ≡ Free) × (h.given ≡ [])) hands.old }
    requires ready { AllReady (W.ready worker.now) board.now.tasks }
    ensures { All (λ h. IsHandOf board.now h × HasEnded h.doing × AllWorked (gated (G.passed gate.now) (W.works worker.now)) board.now.tasks h.given) hands.new }
{
    let threads = hands.len();
    thread::for_each_mut(
        rt,
        hands,
        threads,
        &|_, hand: &mut Hand<T>|
            requires { IsHandOf board.now hand.now × (hand.now.doing ≡ Free) × (hand.now.given ≡ []) × AllReady (W.ready worker.now) board.now.tasks }
            ensures { IsHandOf board.entry.now hand.exit.now × HasEnded hand.exit.now.doing × AllWorked (gated (G.passed gate.entry.now) (W.works worker.entry.now)) board.entry.now.tasks hand.exit.now.given }
        { work_hand(rt, board, hand, gate, worker) },
    );
}

/// Does each task once, in as many threads as there are hands, and gives the tasks back at their places. The gate is
/// passed before each task. No task is copied. It may block.
///
/// # Errors
///
/// Out of memory, before any task is done. The tasks come back unchanged.
pub fn work_all<T: Send + Drop, G: Gate, W: Worker<T>, R: Threads + Wait + Sync>(
    rt: &R,
    alloc: Global,
    tasks: Vec<T>,
    hands: u32,
    gate: &G,
    worker: &W,
) -> Result<Vec<T>, (AllocError, Vec<T>)>
    requires tasks { vec_len tasks < 2 ^ 32 }
    requires hands { (0 < hands) × (hands ≤ 16) }
    requires ready { AllReady (W.ready worker.now) tasks.items }
    ensures worked { IfOk result (λ done. IsWorked (gated (G.passed gate.now) (W.works worker.now)) tasks.items done.items) }
    ensures err { IfErr result (λ e. e.1.items ≡ tasks.items) }
{
    let (board, mut hands) = Board::new(alloc, tasks, hands)?;
    work_hands(rt, &board, hands.as_mut_slice(), gate, worker);
    Ok(board.close(hands))
}
