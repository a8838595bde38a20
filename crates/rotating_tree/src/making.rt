//! A tree of void places, as low as its places allow.
ghost use Rattle.std.specs.Prelude.{◌≡◌, ◌*◌, ◌^◌, ◌<◌, ◌≤◌, None, [], false, IfOk};
ghost use Rattle.tree_laws.specs.Pairs.{pair_digest};
ghost use Rattle.rotating_tree.specs.Nodes.{IsSettled, IsEven, IsSound, now_of, places, size, height as tall, node_pins, node_loose};
ghost use Rattle.rotating_tree.specs.Circles.{voids};

use crate::draft::Draft;
use crate::node::Node;
use crate::part::Part;
use job_laws::Job;
use std::alloc::{AllocError, Global};

/// A full tree of 2^height void places.
pub(crate) fn full<J: Job>(alloc: Global, height: u32) -> Result<Node<J>, AllocError>
    requires { height < 32 }
    ensures places { IfOk result (λ n. places n ≡ voids (2 ^ height)) }
    ensures even { IfOk result IsEven }
    ensures settled { IfOk result IsSettled }
    ensures sound { IfOk result (IsSound J.joined) }
    ensures void { IfOk result (λ n. now_of n ≡ None) }
    ensures size { IfOk result (λ n. (size n ≡ 2 ^ height) × (tall n ≡ height)) }
    ensures pins { IfOk result (λ n. node_pins (pair_digest J.encoded) n ≡ []) }
    ensures loose { IfOk result (λ n. node_loose n ≡ false) }
{
    if height == 0 {
        return Ok(Node::Leaf(Part::Void, Draft::Same));
    }
    let left = full(alloc, height - 1)?;
    let right = full(alloc, height - 1)?;
    Ok(Node::Fork(
        Box::new(alloc, left)?,
        Box::new(alloc, right)?,
        Part::Void,
        Draft::Same,
    ))
}

/// The least height of a tree with at least `n` places, and the number of its places.
pub(crate) fn height_of(n: usize) -> (u32, usize)
    requires { (0 < n) × (n ≤ 4096) }
    ensures width { result.1 ≡ 2 ^ result.0 }
    ensures enough { n ≤ result.1 }
    ensures least { result.1 < 2 * n }
    ensures small { result.0 < 32 }
{
    let mut height = 0;
    let mut width = 1usize;
    'levels: while width < n {
        height += 1;
        width *= 2;
    }
    (height, width)
}
