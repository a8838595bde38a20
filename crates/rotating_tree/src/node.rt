//! A full tree of places, changed in place.
ghost use Rattle.std.specs.Prelude.{◌≡◌, option_copied};
ghost use Rattle.rotating_tree.specs.Nodes.{now_of, taken, stays, is_due};

use crate::draft::Draft;
use crate::part::Part;
use job_laws::Job;
use sheets::Sheet;

/// A place with its leaf, or a node over two halves of equal size, each with its draft.
#[derive(Drop)]
pub(crate) enum Node<J: Job> {
    Leaf(Part<J>, Draft<J>),
    Fork(Box<Node<J>>, Box<Node<J>>, Part<J>, Draft<J>),
}

/// The sheet of a node, not of its draft.
pub(crate) fn now<J: Job>(node: &Node<J>) -> Option<&Sheet<J>>
    ensures { option_copied result ≡ now_of node.now }
{
    match node {
        Node::Leaf(now, _) => now.sheet(),
        Node::Fork(_, _, now, _) => now.sheet(),
    }
}

/// The sheet that a node has when its draft is settled.
pub(crate) fn next<J: Job>(node: &Node<J>) -> Option<&Sheet<J>>
    ensures { option_copied result ≡ now_of (taken node.now) }
{
    match node {
        Node::Leaf(_, Draft::New(part)) => part.sheet(),
        Node::Leaf(now, _) => now.sheet(),
        Node::Fork(_, _, _, Draft::New(part)) => part.sheet(),
        Node::Fork(_, _, now, _) => now.sheet(),
    }
}

/// Whether a node stays.
pub(crate) fn stays<J: Job>(node: &Node<J>) -> bool
    ensures { result ≡ stays node.now }
{
    match node {
        Node::Leaf(_, draft) => matches!(draft, Draft::Same),
        Node::Fork(_, _, _, draft) => matches!(draft, Draft::Same),
    }
}

/// Whether a node must be made again.
pub(crate) fn is_due<J: Job>(node: &Node<J>) -> bool
    ensures { result ≡ is_due node.now }
{
    match node {
        Node::Leaf(_, draft) => matches!(draft, Draft::Due),
        Node::Fork(_, _, _, draft) => matches!(draft, Draft::Due),
    }
}
