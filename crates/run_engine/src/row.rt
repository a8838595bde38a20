//! Boards with a row of tasks, each with its meter, and a last task. They are packed when a board begins, and are at
//! their places again when it ends.
ghost use Rattle.std.specs.Prelude.{◌≡◌, ℕ, ◌+◌, ◌<◌, ◌≤◌, ◌^◌, [], drop, length, vec_len, vec_capacity, OnOk, OnErr};
ghost use Rattle.worker_claims.specs.Hands.{gated};
ghost use Rattle.run_engine.specs.declared.task.Task.{Task as TaskOf};
ghost use Rattle.run_engine.specs.Rows.{row_of, IsRow, IsRowReady, IsRowWorked, SameKind};

use crate::task::Task;
use slider_io::Gate;
use std::alloc::{AllocError, Global};
use std::sync::Wait;
use std::thread::Threads;
use worker_claims::{Worker, work_all};

// Packs these into a row, in order, with the last task at its end. Meters without an item stay where they are.
fn packed<A: Drop, M: Drop, B: Drop>(
    mut row: Vec<Task<A, M, B>>,
    items: &mut Vec<A>,
    meters: &mut Vec<M>,
    last: B,
) -> Vec<Task<A, M, B>>
    requires empty { row.items ≡ [] }
    requires room { vec_len items.old < vec_capacity row }
    requires count { vec_len items.old ≤ vec_len meters.old }
    ensures row { result.items ≡ row_of items.old.items meters.old.items last }
    ensures items { (vec_len items.new ≡ 0) × (vec_capacity items.new ≡ vec_capacity items.old) }
    ensures meters { (meters.new.items ≡ drop (vec_len items.old) meters.old.items) × (vec_capacity meters.new ≡ vec_capacity meters.old) }
{
    row.push_reserved(Task::Sweep(last));
    'items: while let Some(item) = items.pop() {
        let meter = meters.remove(items.len());
        match row.insert(0, Task::Work(item, meter)) {
            Ok(()) => {}
            Err(_) => unreachable!(),
        }
    }
    row
}

// Unpacks a row, so that everything is at its place again.
fn unpacked<A: Drop, M: Drop, B: Drop>(
    mut row: Vec<Task<A, M, B>>,
    items: &mut Vec<A>,
    meters: &mut Vec<M>,
) -> B
    requires row { IsRow row.items }
    requires items { (vec_len items.old ≡ 0) × (vec_len row ≤ vec_capacity items.old + 1) }
    requires meters { vec_len row + vec_len meters.old ≤ vec_capacity meters.old + 1 }
    ensures row { row.items ≡ row_of items.new.items meters.new.items result }
    ensures count { vec_len meters.new ≡ vec_len items.new + vec_len meters.old }
    ensures others { drop (vec_len items.new) meters.new.items ≡ meters.old.items }
{
    let last = match row.pop() {
        Some(Task::Sweep(last)) => last,
        Some(Task::Work(_, _)) => unreachable!(),
        None => unreachable!(),
    };
    'tasks: while let Some(task) = row.pop() {
        let (item, meter) = match task {
            Task::Work(item, meter) => (item, meter),
            Task::Sweep(_) => unreachable!(),
        };
        match items.insert(0, item) {
            Ok(()) => {}
            Err(_) => unreachable!(),
        }
        match meters.insert(0, meter) {
            Ok(()) => {}
            Err(_) => unreachable!(),
        }
    }
    last
}

/// Does each task of the row and the last task once, on one board. All memory is taken before: if it runs out, nothing
/// was done. Whatever it returns, everything is at its place.
pub(crate) fn work_row<
    A: Send + Drop,
    M: Send + Drop,
    B: Send + Drop,
    G: Gate,
    W: Worker<Task<A, M, B>>,
    R: Threads + Wait + Sync,
>(
    rt: &R,
    alloc: Global,
    items: &mut Vec<A>,
    meters: &mut Vec<M>,
    last: B,
    hands: u32,
    gate: &G,
    worker: &W,
) -> (Result<(), AllocError>, B)
    requires few { vec_len items.old < 2 ^ 31 }
    requires count { vec_len items.old ≤ vec_len meters.old }
    requires hands { (0 < hands) × (hands ≤ 16) }
    requires ready { IsRowReady items.old.items meters.old.items last (W.ready worker.now) }
    requires kinds { (k : ℕ) (x y : TaskOf A M B) → W.works worker.now k x y → SameKind x y }
    ensures ok { OnOk result.0 (IsRowWorked items.old.items meters.old.items last items.new.items meters.new.items result.1 (gated (G.passed gate.now) (W.works worker.now))) }
    ensures err { OnErr result.0 ((items.new.items ≡ items.old.items) × (meters.new.items ≡ meters.old.items) × (result.1 ≡ last)) }
{
    let row = match Vec::with_capacity(alloc, items.len() + 1) {
        Ok(row) => row,
        Err(e) => return (Err(e), last),
    };
    let row = packed(row, items, meters, last);
    match work_all(rt, alloc, row, hands, gate, worker) {
        Ok(row) => {
            let last = unpacked(row, items, meters);
            return (Ok(()), last);
        }
        Err((e, row)) => {
            let last = unpacked(row, items, meters);
            return (Err(e), last);
        }
    }
}
