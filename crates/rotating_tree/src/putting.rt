//! A changed place marks its path, so that a node over several changed places is made once.
ghost use Rattle.std.specs.Prelude.{◌≡◌, ◌++◌, ◌+◌, ◌<◌, ◌≤◌, Some, true, slice_set};
ghost use Rattle.tree_laws.specs.Pairs.{pair_digest};
ghost use Rattle.rotating_tree.specs.Nodes.{IsEven, IsStaged, undrafted, taken, places, size, height, drafts, node_pins, node_loose};

use crate::draft::Draft;
use crate::node::Node;
use crate::part::Part;
use job_laws::Job;
use sheets::Sheet;

/// Puts the sheet into the draft of the place, and makes the nodes over it due. It takes no memory.
#[cycle(put)]
pub(crate) fn put<J: Job>(node: &mut Node<J>, width: usize, place: usize, sheet: Sheet<J>)
    requires staged { IsStaged node.old }
    requires width { width ≡ size node.old }
    requires within { place < width }
    requires even { IsEven node.old }
    ensures kept { undrafted node.new ≡ undrafted node.old }
    ensures places { places (taken node.new) ≡ slice_set (places (taken node.old)) place (Some sheet) }
    ensures staged { IsStaged node.new }
    ensures drafts { (drafts node.new ≤ drafts node.old + 1) × (0 < drafts node.new) }
    ensures pins { node_pins (pair_digest J.encoded) node.new ≡ node_pins (pair_digest J.encoded) node.old }
    ensures loose { node_loose (taken node.new) ≡ true → node_loose (taken node.old) ≡ true }
{
    match node {
        Node::Leaf(_, draft) => {
            *draft = Draft::New(Part::Shared(sheet));
        }
        Node::Fork(left, right, _, draft) => {
            put_below(left, right, width / 2, place, sheet);
            *draft = Draft::Due;
        }
    }
}

// The same for both halves of a node, each of a given width.
#[cycle(put)]
fn put_below<J: Job>(
    left: &mut Node<J>,
    right: &mut Node<J>,
    half: usize,
    place: usize,
    sheet: Sheet<J>,
)
    requires staged { IsStaged left.old × IsStaged right.old }
    requires half { (half ≡ size left.old) × (half ≡ size right.old) × (height left.old ≡ height right.old) }
    requires within { place < half + half }
    requires even { IsEven left.old × IsEven right.old }
    ensures kept { (undrafted left.new ≡ undrafted left.old) × (undrafted right.new ≡ undrafted right.old) }
    ensures places { places (taken left.new) ++ places (taken right.new) ≡ slice_set (places (taken left.old) ++ places (taken right.old)) place (Some sheet) }
    ensures staged { IsStaged left.new × IsStaged right.new }
    ensures drafts { (drafts left.new + drafts right.new ≤ drafts left.old + drafts right.old + 1) × (0 < drafts left.new + drafts right.new) }
    ensures pins { (node_pins (pair_digest J.encoded) left.new ≡ node_pins (pair_digest J.encoded) left.old) × (node_pins (pair_digest J.encoded) right.new ≡ node_pins (pair_digest J.encoded) right.old) }
    ensures loose { (node_loose (taken left.new) ≡ true → node_loose (taken left.old) ≡ true) × (node_loose (taken right.new) ≡ true → node_loose (taken right.old) ≡ true) }
{
    if place < half {
        put(left, half, place, sheet)
    } else {
        put(right, half, place - half, sheet)
    }
}
