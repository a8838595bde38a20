//! Numbers as digests write them.
ghost use Rattle.std.specs.Prelude.{◌≡◌};
ghost use Rattle.job_laws.specs.Encoding.{be32, be64};

/// A number as 4 bytes, the highest first.
pub fn be32_bytes(n: u32) -> [u8; 4]
    ensures { result ≡ be32 n }
{
    n.to_be_bytes()
}

/// A number as 8 bytes, the highest first.
pub fn be64_bytes(n: u64) -> [u8; 8]
    ensures { result ≡ be64 n }
{
    n.to_be_bytes()
}
