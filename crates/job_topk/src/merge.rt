//! Merging ranked lists.
ghost use Rattle.std.specs.Prelude.{◌≡◌, IfOk, take};
ghost use Rattle.job_topk.specs.Merging.{in_order};
ghost use Rattle.job_topk.specs.TopK.{member_cmp};

use crate::Members;
use crate::members::is_behind;
use jobs_basic::Bytes;
use std::alloc::{AllocError, Global};

/// The first `most` members of both lists merged. It is one pass, which ends at the last member that is kept; memory is
/// taken once, for no more members than are kept.
pub fn merge_first(
    alloc: Global,
    most: u32,
    a: &[(u32, Bytes)],
    b: &[(u32, Bytes)],
) -> Result<Members, AllocError>
    ensures { IfOk result (λ m. m ≡ take most (in_order member_cmp a.now b.now)) }
{
    let room = a.len().saturating_add(b.len()).min(most as usize);
    let mut merged = Members::with_room(alloc, room)?;
    let mut left = a;
    let mut right = b;
    'kept: for i in 0..most {
        match (left, right) {
            ([], []) => break,
            ([x, more @ ..], []) => {
                merged.push(x)?;
                left = more;
            }
            ([], [y, others @ ..]) => {
                merged.push(y)?;
                right = others;
            }
            ([x, more @ ..], [y, others @ ..]) => {
                if is_behind(x, y) {
                    merged.push(y)?;
                    right = others;
                } else {
                    merged.push(x)?;
                    left = more;
                }
            }
        }
    }
    Ok(merged)
}
