//! Leaves: the sheets of an input, which the lane shares with the code that brought it.
ghost use Rattle.std.specs.Prelude.{◌≡◌, ◌<◌, IfOk};
ghost use Rattle.map_tasks.specs.Leaves.{AreSheetsOf, sheet_for};

use crate::leaf_input::LeafInput;
use job_laws::Job;
use sheets::Sheet;
use std::alloc::{AllocError, Global};
use std::marker::Model;
use std::sync::Arc;

// An input with its sheets, one for each part.
#[derive(Drop)]
struct Row<J: Job> {
    input: LeafInput,
    sheets: Vec<Sheet<J>>,
}

/// The sheets of an input, one for each part, shared. It is modelled by its input, and its type keeps that the sheets
/// are those that the records are mapped to.
#[derive(Drop)]
pub struct Leaf<J: Job> {
    row: Arc<Row<J>, Global>,
}

impl<J: Job> Model for Leaf<J> {
    ghost use Rattle.std.specs.Arc.{arc_value};
    ghost use Rattle.map_tasks.specs.Inputs.{InputView};
    ghost use Rattle.map_tasks.specs.Leaves.{AreSheetsOf};

    ghost Value = { InputView };

    ghost view = { λ l. (arc_value l.row).input };

    ghost invariant = { λ l. AreSheetsOf J.Job (arc_value l.row).input (arc_value l.row).sheets.items };
}

impl<J: Job> Leaf<J> {
    // The leaf of an input with its sheets.
    pub(crate) fn new(
        alloc: Global,
        input: LeafInput,
        sheets: Vec<Sheet<J>>,
    ) -> Result<Leaf<J>, AllocError>
        requires { AreSheetsOf J.Job input sheets.items }
        ensures { IfOk result (λ l. l ≡ input) }
    {
        let row = Arc::new(alloc, Row { input, sheets })?;
        Ok(Leaf { row })
    }

    /// The input.
    pub fn input(&self) -> &LeafInput
        ensures { result.now ≡ self.now }
    {
        &self.row.input
    }

    /// The sheet of a part. It takes no memory.
    pub fn sheet(&self, part: u32) -> &Sheet<J>
        requires { part < self.now.parts }
        ensures { result.now ≡ sheet_for J.Job self.now part }
    {
        &self.row.sheets[part as usize]
    }

    /// Another owner of the same leaf. Nothing is copied; it fails only if the count of owners is full.
    pub fn share(&self) -> Result<Leaf<J>, AllocError>
        ensures { IfOk result (λ l. l ≡ self.now) }
    {
        let row = Arc::try_clone(&self.row)?;
        Ok(Leaf { row })
    }
}
