//! Steps at a desk, and what must be seen after each: so a test is a list.

use crate::desk::{Desk, Jobs, Work};
use crate::made::{name, records};
use job_laws::Job;
use record_text::Command;
use run_engine::Settings;
use std::alloc::{AllocError, Global};
use std::sync::Wait;
use std::thread::Threads;
use tree_laws::Tree;

/// A command for the window, with its records between commas, or a run.
#[derive(Clone, Copy)]
pub enum Step<'a> {
    Bucket(&'a str),
    Drop(u32),
    Late(u32, &'a str),
    File(&'a str),
    Remove(&'a str),
    Edit(u32, u32, &'a str),
    Load(&'a str),
    /// A run that maps, merges and joins this often, after which the roots agree.
    Run(u64, u64, u64),
    /// A run that is out of memory, after which all is as before.
    Fails,
    /// A run of any work, which is made once more if it is out of memory.
    Insists,
    /// A walk of this many steps.
    Walk(u32),
    /// A script, and what it must write.
    Script(&'a str, &'a str),
}

// The command of a step, or none if it is another one.
fn command_of(alloc: Global, step: &Step) -> Result<Option<Command>, AllocError> {
    let command = match *step {
        Step::Bucket(text) => Command::Bucket(records(alloc, text)?),
        Step::Drop(n) => Command::Drop(n),
        Step::Late(place, text) => Command::Late {
            place,
            more: records(alloc, text)?,
        },
        Step::File(text) => Command::File {
            name: name(alloc, text)?,
        },
        Step::Remove(text) => Command::Remove {
            name: name(alloc, text)?,
        },
        Step::Edit(at, del, text) => Command::Edit {
            at,
            del,
            ins: records(alloc, text)?,
        },
        Step::Load(text) => Command::Load(records(alloc, text)?),
        _ => return Ok(None),
    };
    Ok(Some(command))
}

impl<J: Job, T: Tree<J>> Desk<J, T> {
    /// How many of the steps passed before one failed.
    pub fn plays<R: Threads + Wait + Sync>(
        &mut self,
        rt: &R,
        steps: &[Step],
    ) -> Result<usize, AllocError>
    where
        J: Send + Sync,
        J::Val: Send + Sync,
        J::Meter: Send + Sync,
        T: Send,
    {
        'steps: for i in 0..steps.len() {
            if !self.plays_one(rt, &steps[i])? {
                return Ok(i);
            }
        }
        Ok(steps.len())
    }

    // Whether a step passed.
    fn plays_one<R: Threads + Wait + Sync>(
        &mut self,
        rt: &R,
        step: &Step,
    ) -> Result<bool, AllocError>
    where
        J: Send + Sync,
        J::Val: Send + Sync,
        J::Meter: Send + Sync,
        T: Send,
    {
        match *step {
            Step::Run(maps, merges, joins) => {
                let work = Work {
                    maps,
                    merges,
                    joins,
                };
                self.works(rt, work)
            }
            Step::Fails => self.fails(rt),
            Step::Insists => self.insists(rt),
            Step::Walk(steps) => self.walks(rt, steps),
            Step::Script(script, answers) => {
                Ok(self.answers(rt, script.as_bytes())?.as_slice() == answers.as_bytes())
            }
            _ => match command_of(self.alloc(), step)? {
                Some(command) => self.apply(command),
                None => Ok(false),
            },
        }
    }
}

/// How many of the steps passed at a new desk before one failed; `Desk::new` says what it takes. It is generic in job
/// and tree, and each function that knows both calls it once: a proof over a whole engine is long.
pub fn plays<J: Job, T: Tree<J>, R: Threads + Wait + Sync>(
    rt: &R,
    alloc: Global,
    start: u64,
    jobs: Jobs<J>,
    settings: Settings,
    steps: &[Step],
) -> Result<usize, AllocError>
where
    J: Send + Sync,
    J::Val: Send + Sync,
    J::Meter: Send + Sync,
    T: Send,
{
    let mut desk = Desk::<J, T>::new(alloc, start, jobs, settings)?;
    desk.plays(rt, steps)
}
