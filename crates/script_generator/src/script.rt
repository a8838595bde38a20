//! The script of a job and a tree.
ghost use Rattle.std.specs.Prelude.{◌≡◌, ◌+◌, ◌<◌, IfOk, OnOk};
ghost use Rattle.script_generator.specs.Generated.{drops, with_bucket, with_round, with_rounds, with_load, with_edit, with_script, times, generated};

use crate::writer::Writer;
use program_words::{JobName, Plan, TreeName};
use std::alloc::{AllocError, Global};

/// The script for a plan's job and tree, made from `seed`; nothing else of the plan matters. For a random tree it loads
/// a document of 40,000 records, then edits 20 of them 39 times, with a run after each command. For the other trees it
/// has 40 buckets of 2,000 records, with a run after each; for a folding tree it drops the oldest bucket before each
/// one after the 24th. The script has 0.5 to 4.2 million bytes.
#[tactic(auto, unfolding(crate::specs::Generated::generated))]
pub fn generate(alloc: Global, plan: &Plan, seed: u32) -> Result<Vec<u8>, AllocError>
    ensures { IfOk result (λ script. script.items ≡ generated plan.now.job plan.now.tree seed) }
{
    let mut writer = Writer::new(alloc, seed);
    script(&mut writer, plan.job, plan.tree)?;
    Ok(writer.into_text())
}

/// Writes the whole script.
#[tactic(auto, unfolding(crate::specs::Generated::with_script))]
fn script(writer: &mut Writer, job: JobName, tree: TreeName) -> Result<(), AllocError>
    ensures { OnOk result (writer.new ≡ with_script job tree writer.old) }
{
    match tree {
        TreeName::Random => {
            load(writer, job)?;
            edits(writer, job, 39)
        }
        TreeName::Folding | TreeName::Rotating | TreeName::Coalescing => {
            rounds(writer, job, tree, 40)
        }
    }
}

/// Writes the rounds of buckets.
#[tactic(auto, using(crate::proofs::Steps::rounds_none, crate::proofs::Steps::rounds_more))]
fn rounds(writer: &mut Writer, job: JobName, tree: TreeName, count: u32) -> Result<(), AllocError>
    ensures { OnOk result (writer.new ≡ with_rounds job tree count writer.old) }
{
    'rounds: for before in 0..count {
        round(writer, job, tree, before + 1)?;
    }
    Ok(())
}

/// Writes a round.
#[tactic(auto, unfolding(crate::specs::Generated::with_round))]
fn round(writer: &mut Writer, job: JobName, tree: TreeName, number: u32) -> Result<(), AllocError>
    ensures { OnOk result (writer.new ≡ with_round job tree number writer.old) }
{
    if drops(tree, number) {
        writer.bytes(b"drop 1\n")?;
    }
    bucket(writer, job)
}

/// Whether a round drops the oldest bucket.
fn drops(tree: TreeName, round: u32) -> bool
    ensures { result ≡ drops tree round }
{
    tree == TreeName::Folding && round > 24
}

/// Writes a bucket and a run.
#[tactic(auto, unfolding(crate::specs::Generated::with_bucket))]
fn bucket(writer: &mut Writer, job: JobName) -> Result<(), AllocError>
    ensures { OnOk result (writer.new ≡ with_bucket job writer.old) }
{
    writer.bytes(b"bucket 2000\n")?;
    writer.records(job, 2000)?;
    writer.bytes(b"run\n")
}

/// Writes the document and a run.
#[tactic(auto, unfolding(crate::specs::Generated::with_load))]
fn load(writer: &mut Writer, job: JobName) -> Result<(), AllocError>
    ensures { OnOk result (writer.new ≡ with_load job writer.old) }
{
    writer.bytes(b"load 40000\n")?;
    writer.records(job, 40000)?;
    writer.bytes(b"run\n")
}

/// Writes edits, each with its run.
#[tactic(auto, using(crate::proofs::Steps::times_none, crate::proofs::Steps::times_more))]
fn edits(writer: &mut Writer, job: JobName, count: u32) -> Result<(), AllocError>
    ensures { OnOk result (writer.new ≡ times count (with_edit job) writer.old) }
{
    'edits: for _written in 0..count {
        edit(writer, job)?;
    }
    Ok(())
}

/// Writes an edit and a run.
#[tactic(auto, unfolding(crate::specs::Generated::with_edit))]
fn edit(writer: &mut Writer, job: JobName) -> Result<(), AllocError>
    ensures { OnOk result (writer.new ≡ with_edit job writer.old) }
{
    writer.field(b"edit ", 39981)?;
    writer.bytes(b" 20 20\n")?;
    writer.records(job, 20)?;
    writer.bytes(b"run\n")
}
