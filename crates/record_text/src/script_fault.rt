//! The faults that end a script at one of its lines: of the script's form, of a command that the window or the job
//! refuses, of a device, and of memory.

/// Why a script stops before its end.
#[derive(Clone, Copy, Debug, PartialEq, Eq)]
pub enum Why {
    /// An unknown command word, or a wrong number of fields.
    Unknown,
    /// A field that is no number.
    BadNumber,
    /// A name with more than 255 bytes.
    BadName,
    /// The script ends before the last record line of a command.
    ShortInput,
    /// A line with 65,536 bytes or more.
    LongLine,
    /// More bytes than the script may have.
    LongScript,
    /// A command that this kind of window lacks.
    NotHere,
    /// A command that asks for more than there is, or than there may be.
    TooMany,
    /// A record that the job does not accept.
    BadRecord,
    /// More text than the records of a command, or a window, may have.
    WindowLarge,
    /// The source failed.
    Read,
    /// Out of memory.
    Mem,
}

/// The fault that ends a script, with its line, counted from 1.
#[derive(Clone, Copy, Debug, PartialEq, Eq)]
pub struct ScriptFault {
    pub line: u64,
    pub why: Why,
}
