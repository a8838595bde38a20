//! What a run writes: the entries of the roots of all parts in byte order of their keys.
ghost use Rattle.std.specs.Prelude.{◌≡◌, ◌≤◌, ◌++◌, IfOk};
ghost use Rattle.definitions.specs.Limits.{most_parts};
ghost use Rattle.job_laws.specs.Meanings.{meaning_of};
ghost use Rattle.marker_chunker.specs.Cuts.{joined};
ghost use Rattle.sheets.specs.Parts.{IsMapped};
ghost use Rattle.slider_session.specs.Output.{header, piece_over};

use job_laws::Job;
use run_engine::Engine;
use sheets::{Sheet, answer_of};
use std::alloc::{AllocError, Global};
use tree_laws::Tree;

/// The bytes that run number `run` writes, from the roots of an engine's last run. It walks all entries once and copies
/// no table.
pub(crate) fn piece_of<J: Job, T: Tree<J>>(
    alloc: Global,
    engine: &Engine<J, T>,
    parts: u32,
    run: u64,
) -> Result<Vec<u8>, AllocError>
    requires parts { parts ≡ engine.now.settings.parts }
    requires some { (1 ≤ parts) × (parts ≤ most_parts) }
    ensures { IfOk result (λ bytes. bytes.items ≡ piece_over (meaning_of J.Job engine.now.job) run (joined engine.now.leaves)) }
{
    let roots = roots_of(alloc, engine, parts)?;
    let mut lines = Vec::new(alloc);
    let keys = answer_of(alloc, engine.job(), roots.as_slice(), &mut lines)?;
    bytes_of(alloc, run, keys, lines.as_slice())
}

/// Shares of the roots of all parts.
fn roots_of<J: Job, T: Tree<J>>(
    alloc: Global,
    engine: &Engine<J, T>,
    parts: u32,
) -> Result<Vec<Sheet<J>>, AllocError>
    requires parts { parts ≡ engine.now.settings.parts }
    ensures { IfOk result (λ roots. IsMapped (meaning_of J.Job engine.now.job) (J.setting engine.now.job) parts (joined engine.now.leaves) roots.items) }
{
    let mut roots = Vec::new(alloc);
    'parts: for part in 0..parts {
        match engine.root(part) {
            Some(root) => roots.push(root.share()?)?,
            None => roots.push(Sheet::empty(alloc, engine.job().setting())?)?,
        }
    }
    Ok(roots)
}

/// The header of a run, with the number of keys, and their lines.
fn bytes_of(alloc: Global, run: u64, keys: u64, lines: &[u8]) -> Result<Vec<u8>, AllocError>
    ensures { IfOk result (λ bytes. bytes.items ≡ header run keys ++ lines.now) }
{
    let head = format!(in alloc; "# run {run} keys {keys}\n")?;
    let mut bytes = Vec::from_slice(alloc, head.as_bytes())?;
    bytes.extend_from_slice(lines)?;
    Ok(bytes)
}
