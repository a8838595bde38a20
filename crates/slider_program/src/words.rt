//! The lines that are written to `err` at the end of a script.
ghost use Rattle.std.specs.Prelude.{◌≡◌, IfOk, string_bytes};
ghost use Rattle.slider_program.specs.Words.{fault_word, fault_line};

use record_text::{ScriptFault, Why};
use std::alloc::{AllocError, Global};

/// The word of a fault.
fn word_of_fault(why: Why) -> &'static str
    ensures { result.now ≡ fault_word why }
{
    match why {
        Why::Unknown => "unknown",
        Why::BadNumber => "number",
        Why::BadName => "name",
        Why::ShortInput => "short",
        Why::LongLine => "long",
        Why::LongScript => "script",
        Why::NotHere => "nothere",
        Why::TooMany => "many",
        Why::BadRecord => "record",
        Why::WindowLarge => "window",
        Why::Read => "read",
        Why::Mem => "memory",
    }
}

/// The line for a script's fault: `fault`, the line's number and the fault's word.
pub fn line_of_fault(alloc: Global, fault: ScriptFault) -> Result<String, AllocError>
    ensures { IfOk result (λ line. string_bytes line ≡ fault_line fault.line fault.why) }
{
    let line = fault.line;
    let word = word_of_fault(fault.why);
    format!(in alloc; "fault {line} {word}\n")
}
