//! How far a reader is in its script, and what the bytes that it holds show of the next line.
ghost use Rattle.std.specs.Prelude.{◌≡◌};
ghost use Rattle.record_text.specs.Reading.{FoundIs};

use crate::ScriptFault;
use crate::ahead::Ahead;
use definitions::MOST_RECORD;

/// What the bytes ahead show of the next line.
#[derive(Clone, Copy, Debug, PartialEq, Eq)]
pub enum Found {
    /// A line: its length in bytes without its line end, and with it.
    Line(usize, usize),
    /// The end of the script.
    End,
    /// A line that is too long.
    Long,
    /// A line that goes on past the script's limit.
    Cut,
    /// A line whose end has not come yet.
    More,
}

/// How far a reader is in its script.
#[derive(Drop)]
pub struct Reading {
    /// The bytes that were taken and are not used yet.
    pub ahead: Ahead,
    /// How many bytes may still be taken.
    pub room: u64,
    /// Whether the source has ended.
    pub ended: bool,
    /// How many lines were used.
    pub line: u64,
    /// The line of the last command that was returned.
    pub last: u64,
    /// The fault that was returned.
    pub fault: Option<ScriptFault>,
}

/// Looks for the next line in the bytes ahead.
pub fn look(ahead: &mut Ahead, ended: bool, room: u64) -> Found
    ensures found { FoundIs ended room ahead.old result }
    ensures same { ahead.new ≡ ahead.old }
{
    let end = ahead.line_end();
    if end > MOST_RECORD {
        return Found::Long;
    }
    if end < ahead.len() {
        return Found::Line(end, end + 1);
    }
    if ended {
        if end == 0 {
            return Found::End;
        }
        return Found::Line(end, end);
    }
    if room == 0 {
        return Found::Cut;
    }
    Found::More
}
