//! Walks: many runs over a window that changes at every step.

use crate::desk::Desk;
use crate::made::command_of_step;
use job_laws::Job;
use std::alloc::AllocError;
use std::sync::Wait;
use std::thread::Threads;
use tree_laws::Tree;

impl<J: Job, T: Tree<J>> Desk<J, T> {
    /// Whether a walk of `steps` steps passes: at each the window takes a command, and at two of three the roots agree after
    /// a run, which is made once more if it is out of memory.
    pub fn walks<R: Threads + Wait + Sync>(
        &mut self,
        rt: &R,
        steps: u32,
    ) -> Result<bool, AllocError>
    where
        J: Send + Sync,
        J::Val: Send + Sync,
        J::Meter: Send + Sync,
        T: Send,
    {
        'steps: for step in 0..steps {
            let command = command_of_step(self.alloc(), T::KIND, step, self.leaf_count())?;
            if !self.apply(command)? {
                return Ok(false);
            }
            if step % 3 != 1 && !self.insists(rt)? {
                return Ok(false);
            }
        }
        Ok(true)
    }
}
