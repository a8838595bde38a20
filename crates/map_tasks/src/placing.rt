//! The lane of a leaf, so that equal texts meet in one lane.
ghost use Rattle.std.specs.Prelude.{◌≡◌, ◌<◌};
ghost use Rattle.map_tasks.specs.Inputs.{lane_at};

/// The lane of the leaves with this digest: its first byte modulo the number of lanes.
pub fn lane_of(digest: &[u8; 32], lanes: u32) -> u32
    requires { 0 < lanes }
    ensures place { result ≡ lane_at digest.now lanes }
    ensures within { result < lanes }
{
    digest[0] as u32 % lanes
}
