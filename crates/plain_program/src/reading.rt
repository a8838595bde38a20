//! The commands of a whole script.
ghost use Rattle.std.specs.Prelude.{◌≡◌, ◌<◌, ◌≤◌, ◌^◌, All, IfOk};
ghost use Rattle.record_text.specs.Script.{commands, Done};
ghost use Rattle.plain_program.specs.Plain.{ending_of_rest};

use record_text::{Command, ScriptFault, ScriptReader, Why};
use slider_io::SureSource;
use std::alloc::{AllocError, Global};

/// The commands of a script, each with its line, and the fault that ends it, if any.
#[derive(Drop)]
pub struct PlainScript {
    pub commands: Vec<(Command, u64)>,
    pub fault: Option<ScriptFault>,
}

/// All commands of a script, of which the first `most` bytes count.
pub fn plain_commands(alloc: Global, script: Vec<u8>, most: u64) -> Result<PlainScript, AllocError>
    requires some { 1 ≤ most }
    requires size { most < 2 ^ 62 }
    ensures commands { IfOk result (λ s. (s.commands.items, ending_of_rest s.fault Done) ≡ commands most script.items) }
    ensures lines { IfOk result (λ s. All (λ c. c.1 < 2 ^ 62) s.commands.items) }
{
    let mut source = SureSource::new(script);
    let mut reader = ScriptReader::new(&mut source, alloc, most);
    let mut commands = Vec::new(alloc);
    'commands: loop {
        let fault = match reader.next(alloc) {
            Ok(Some(command)) => {
                let line = reader.line();
                commands.push((command, line))?;
                continue 'commands;
            }
            Ok(None) => None,
            Err(fault) => Some(fault),
        };
        match fault {
            Some(ScriptFault { why: Why::Mem, .. }) => return Err(AllocError),
            fault => return Ok(PlainScript { commands, fault }),
        }
    }
}
