//! What an edit or a load returns: which chunks are new, so that a caller looks at nothing else again, or why it is
//! refused.
ghost use Rattle.std.specs.Prelude.{◌≡◌, ◌<◌, ◌+◌, ◌^◌};
ghost use Rattle.chunk_store.specs.Files.{raised};

use thiserror::Error;

/// How a list of chunks changed: from the chunk at `first` on, `gone` old ones became `fresh` new ones.
#[derive(Clone, Copy, Debug, PartialEq, Eq)]
pub struct Change {
    pub first: usize,
    pub gone: usize,
    pub fresh: usize,
}

impl Change {
    /// The same change with `before` more chunks in front.
    pub(crate) fn raised(self, before: usize) -> Change
        requires { before + self.first < 2 ^ 64 }
        ensures { result ≡ raised before self }
    {
        Change {
            first: before + self.first,
            ..self
        }
    }
}

/// Why an edit or a load is refused, in the order in which the causes are tested.
#[derive(Clone, Copy, Debug, PartialEq, Eq, Drop, Error)]
pub enum EditFault {
    /// More records would be replaced than there are, or there would be more than 65,536 files with records.
    #[error("more than there is, or than there may be")]
    TooMany,
    /// The text would have more than 268,435,456 bytes.
    #[error("more text than a window may have")]
    WindowLarge,
    /// Out of memory.
    #[error("out of memory")]
    Mem,
}
