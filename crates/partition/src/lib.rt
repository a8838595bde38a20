//! The part of a key: [`part_of`] is the 32-bit FNV-1a hash of its bytes, by Fowler, Noll and Vo, modulo the number of
//! parts. One pass over the bytes; it takes no memory.
#![tactic(auto)]

ghost use Rattle.std.specs.Prelude.{◌≡◌, ◌≤◌, ◌<◌};
ghost use Rattle.partition.specs.Parts.{hash_of, part_number};

/// The part of a key, from 0 to `parts` - 1. One pass over the key.
pub fn part_of(key: &[u8], parts: u32) -> u32
    requires { 1 ≤ parts }
    ensures part { result ≡ part_number key.now parts }
    ensures within { result < parts }
{
    hash(key) % parts
}

fn hash(key: &[u8]) -> u32
    ensures { result ≡ hash_of key.now }
{
    let mut hash = 2166136261u32;
    'bytes: for byte in key {
        hash = (hash ^ u32::from(*byte)).wrapping_mul(16777619);
    }
    hash
}

#[cfg(test)]
mod tests {
    use super::*;
    use std::test::Fail;

    #[test]
    fn parts_are_those_of_fnv(rt: HostRuntime) -> Result<(), Fail> {
        // The hashes of the empty text, "a" and "foobar" are test vectors of the authors.
        assert_eq!(rt; hash(b""), 0x811c_9dc5);
        assert_eq!(rt; hash(b"a"), 0xe40c_292c);
        assert_eq!(rt; hash(b"foobar"), 0xbf9c_f968);
        assert_eq!(rt; part_of(b"a", 16), 12);
        assert_eq!(rt; part_of(b"b", 16), 5);
        assert_eq!(rt; part_of(b"c", 16), 2);
        assert_eq!(rt; part_of(b"c", 1), 0);
        Ok(())
    }
}
