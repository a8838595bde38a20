//! Why serving a script stops early.
use record_text::ScriptFault;

/// Why serving a script stops early.
#[derive(Clone, Copy, Debug, PartialEq, Eq)]
pub enum Halt {
    /// The script's first fault.
    Script(ScriptFault),
    /// The source failed.
    Read,
    /// The sink failed.
    Write,
    /// Out of memory.
    Mem,
}
