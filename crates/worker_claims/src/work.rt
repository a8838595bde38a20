//! Workers do tasks: a worker says which tasks it may be given, and what it makes of each.
ghost use Rattle.std.specs.Prelude.{ℕ};

use std::sync::Wait;
use std::thread::Threads;

/// Does tasks, in several threads at the same time.
pub trait Worker<T>: Sync {
    // It may do the task of this number.
    ghost ready: { Self → ℕ → T → Type 0 };
    // The task of a number, before and after it is done.
    ghost works: { Self → ℕ → T → T → Type 0 };

    /// Does the task of this number, in place.
    fn work<R: Threads + Wait + Sync>(&self, rt: &R, number: u64, task: &mut T)
        requires { ready self.now number task.old }
        ensures { works self.now number task.old task.new };
}
