//! The refusals of a command, in the order in which a window tests them.
use thiserror::Error;

/// Why a window refuses a command, in the order in which the causes are tested.
#[derive(Clone, Copy, Debug, PartialEq, Eq, Drop, Error)]
pub enum WindowFault {
    /// The window is of a kind that lacks the command.
    #[error("no such command in this kind of window")]
    NotHere,
    /// The command asks for more than there is, or than there may be.
    #[error("more than there is, or than there may be")]
    TooMany,
    /// The job does not accept a record of the command. The first such record has this index, counted from 0.
    #[error("record {index} of the command is not accepted")]
    BadRecord { index: u32 },
    /// The text of the window would have more than 268,435,456 bytes.
    #[error("more text than a window may have")]
    WindowLarge,
    /// Out of memory.
    #[error("out of memory")]
    Mem,
}
