//! The line for arguments that are refused.
ghost use Rattle.std.specs.Prelude.{◌≡◌};
ghost use Rattle.program_words.specs.Usages.{line_for};

use crate::plan::Field;

/// Why the arguments give no plan.
#[derive(Clone, Copy, Debug, PartialEq, Eq)]
pub enum WordsFault {
    /// The arguments are refused for this field, the first that applies.
    Usage(Field),
    /// Out of memory.
    Mem,
}

/// The line for a refused field: `usage` and its word.
pub fn line_of_usage(field: Field) -> &'static [u8]
    ensures { result.now ≡ line_for field }
{
    match field {
        Field::Words => b"usage words\n",
        Field::Job => b"usage job\n",
        Field::K => b"usage k\n",
        Field::Tree => b"usage tree\n",
        Field::Buckets => b"usage buckets\n",
        Field::Parts => b"usage parts\n",
        Field::Workers => b"usage workers\n",
        Field::Shards => b"usage shards\n",
        Field::Keep => b"usage keep\n",
        Field::Gen => b"usage gen\n",
    }
}
