//! The shard of an input, by the second byte of its digest.
ghost use Rattle.std.specs.Prelude.{◌≡◌, ◌<◌};
ghost use Rattle.pin_table.specs.Placing.{shard_at};

/// The shard of the inputs with this digest: its second byte modulo the number of shards.
pub fn shard_of(digest: &[u8; 32], shards: u32) -> u32
    requires { 0 < shards }
    ensures place { result ≡ shard_at digest.now shards }
    ensures within { result < shards }
{
    digest[1] as u32 % shards
}
