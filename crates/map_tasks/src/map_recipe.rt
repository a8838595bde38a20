//! What the memo of leaves keeps: the sheets that the records of each input are mapped to.
ghost use Rattle.std.specs.Prelude.{◌≡◌, IfOk};

use crate::leaf_input::LeafInput;
use job_laws::Job;
use memo_server::Recipe;
use sheets::Sheet;
use std::alloc::{AllocError, Global};
use std::marker::PhantomData;

/// Inputs of leaves, each with the result of `map_sheets`: a sheet for each part.
#[derive(Drop)]
pub struct MapRecipe<J: Job> {
    marker: PhantomData<J>,
}

impl<J: Job> Recipe for MapRecipe<J> {
    ghost use Rattle.map_tasks.specs.Inputs.{input_digest};
    ghost use Rattle.map_tasks.specs.Leaves.{AreSheetsOf};

    type In = LeafInput;

    type Out = Vec<Sheet<J>>;

    ghost fits = { λ input out. AreSheetsOf J.Job input out.items };

    ghost digest_of = { λ input. input_digest input.text };

    fn digest(input: &LeafInput) -> [u8; 32] {
        input.digest()
    }

    fn same(a: &LeafInput, b: &LeafInput) -> bool {
        a.same(b)
    }

    fn share_in(_alloc: Global, input: &LeafInput) -> Result<LeafInput, AllocError> {
        input.share()
    }

    fn share_out(alloc: Global, out: &Vec<Sheet<J>>) -> Result<Vec<Sheet<J>>, AllocError> {
        share_all::<J>(alloc, out.as_slice())
    }
}

/// Shares of the sheets. Nothing is copied.
pub(crate) fn share_all<J: Job>(
    alloc: Global,
    sheets: &[Sheet<J>],
) -> Result<Vec<Sheet<J>>, AllocError>
    ensures { IfOk result (λ copy. copy.items ≡ sheets.now) }
{
    let mut copy = Vec::with_capacity(alloc, sheets.len())?;
    let mut rest = sheets;
    'sheets: while let [sheet, more @ ..] = rest {
        copy.push(sheet.share()?)?;
        rest = more;
    }
    Ok(copy)
}
