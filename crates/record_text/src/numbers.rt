//! Decimal numbers as scripts and answers write them: each value in one way only.
ghost use Rattle.std.specs.Prelude.{◌≡◌, ◌≤◌, length, take, drop, decimal, IsTrue, SomeIff};
ghost use Rattle.definitions.specs.Numbers.{is_number, digits_value};

use itoa::Buffer;

/// The value of a number of 1 to 10 digits, without a leading 0 unless it is `0` alone, and up to 4,294,967,295. `None`
/// for any other bytes.
pub fn parse_number(bytes: &[u8]) -> Option<u32>
    ensures { SomeIff result (IsTrue (is_number bytes.now)) (digits_value bytes.now) }
{
    if bytes.is_empty() || bytes.len() > 10 {
        return None;
    }
    if bytes.len() > 1 && bytes[0] == b'0' {
        return None;
    }
    let mut value = 0u64;
    for b in bytes {
        if !b.is_ascii_digit() {
            return None;
        }
        value = value * 10 + (*b as u64 - 48);
    }
    u32::try_from(value).ok()
}

/// Writes the decimal digits of a number at the start of a buffer, and returns how many there are. The bytes after them
/// stay.
pub fn print_number(n: u64, into: &mut [u8; 20]) -> usize
    ensures digits { take result into.new ≡ decimal n }
    ensures count { result ≡ length (decimal n) }
    ensures behind { drop result into.new ≡ drop result into.old }
{
    let mut buffer = Buffer::new();
    let digits = buffer.format(n).as_bytes();
    into[..digits.len()].copy_from_slice(digits);
    digits.len()
}
