//! The lines of an answer: a key, a TAB, what is written of its value, and LF.
ghost use Rattle.std.specs.Prelude.{◌≡◌, ◌++◌, OnOk, OnErr};
ghost use Rattle.definitions.specs.Outside.{GainsPrefix};
ghost use Rattle.jobs_basic.specs.Lines.{line_of};

use std::alloc::AllocError;

/// Appends the line of a key with what is written of its value; out of memory, a prefix of it.
pub fn put_line(key: &[u8], field: &[u8], out: &mut Vec<u8>) -> Result<(), AllocError>
    ensures ok { OnOk result (out.new.items ≡ out.old.items ++ line_of key.now field.now) }
    ensures err { OnErr result (GainsPrefix (line_of key.now field.now) out.old.items out.new.items) }
{
    out.extend_from_slice(key)?;
    out.push(b'\t')?;
    out.extend_from_slice(field)?;
    out.push(b'\n')?;
    Ok(())
}
