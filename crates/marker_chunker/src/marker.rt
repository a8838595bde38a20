//! Markers are records that end a chunk by their own bytes, so that an edit moves only the boundaries next to it.
ghost use Rattle.std.specs.Prelude.{◌≡◌, ◌&&◌, nat_lt};
ghost use Rattle.marker_chunker.specs.Markers.{marks, is_marker};

use crate::roll::Roll;

fn marks_full(i: usize, roll: &Roll) -> bool
    ensures { result ≡ (nat_lt 14 i && marks roll.now) }
{
    i > 14 && roll.marks()
}

/// Whether a record is a marker: some window of 16 successive bytes of its text, which is its bytes and one LF, has a
/// hash of 4095 modulo 4096. If the text has fewer bytes, the one window is the whole text. It is one pass over the
/// bytes.
pub fn is_marker(r: &[u8]) -> bool
    ensures { result ≡ is_marker r.now }
{
    let mut roll = Roll::new();
    'windows: for (i, b) in r.iter().enumerate() {
        roll.push(*b);
        if marks_full(i, &roll) {
            return true;
        }
    }
    roll.push(b'\n');
    roll.marks()
}
