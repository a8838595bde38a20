//! Tests of scripts, with expected values written by hand.
ghost use Rattle.std.specs.Prelude.{◌<◌, ◌≤◌, ◌^◌};

use crate::{Command, ScriptReader};
use slider_io::{MemSource, Source};
use std::alloc::{AllocError, Global};

/// A command with its line and its numbers, the number and size of its records, and the size of its name.
fn spelled(alloc: Global, command: &Command, line: u64) -> Result<String, AllocError> {
    match command {
        Command::Bucket(records) => {
            format!(in alloc; "{line} bucket {} {}, ", records.len(), records.text_len())
        }
        Command::Drop(n) => format!(in alloc; "{line} drop {n}, "),
        Command::Late { place, more } => {
            format!(in alloc; "{line} late {place} {} {}, ", more.len(), more.text_len())
        }
        Command::File { name } => format!(in alloc; "{line} file {}, ", name.bytes().len()),
        Command::Remove { name } => format!(in alloc; "{line} remove {}, ", name.bytes().len()),
        Command::Edit { at, del, ins } => {
            format!(in alloc; "{line} edit {at} {del} {} {}, ", ins.len(), ins.text_len())
        }
        Command::Load(records) => {
            format!(in alloc; "{line} load {} {}, ", records.len(), records.text_len())
        }
        Command::Run => format!(in alloc; "{line} run, "),
    }
}

/// What a reader returns in a given number of calls.
fn some_answers<S: Source>(
    alloc: Global,
    source: &mut S,
    most: u64,
    calls: u64,
) -> Result<String, AllocError>
    requires some { 1 ≤ most }
    requires size { most < 2 ^ 62 }
{
    let mut reader = ScriptReader::new(source, alloc, most);
    let mut text = String::new(alloc);
    'calls: for _ in 0..calls {
        let answer = match reader.next(alloc) {
            Ok(Some(command)) => spelled(alloc, &command, reader.line()),
            Ok(None) => format!(in alloc; "none, "),
            Err(fault) => format!(in alloc; "{} {:?}, ", fault.line, fault.why),
        };
        text.push_str(answer?.as_str())?;
    }
    Ok(text)
}

/// The same for a script of which a take gives at most `piece` bytes, and the takes with these numbers fail.
fn answers(
    alloc: Global,
    script: &[u8],
    piece: usize,
    fails: &[u64],
    most: u64,
    calls: u64,
) -> Result<String, AllocError>
    requires piece { 1 ≤ piece }
    requires some { 1 ≤ most }
    requires size { most < 2 ^ 62 }
{
    let mut source = MemSource::new(script.to_vec(alloc)?, piece, fails.to_vec(alloc)?);
    some_answers(alloc, &mut source, most, calls)
}

#[test]
fn commands_come_with_their_lines(rt: HostRuntime) -> Result<(), AllocError> {
    let alloc = rt.alloc();
    let script = b"bucket 2\na b\nrun\nrun\nbucket 0\nrun";
    let want = "1 bucket 2 8, 4 run, 5 bucket 0 0, 6 run, none, ";
    assert_eq!(rt; answers(alloc, script, 1, &[], 100, 5)?.as_str(), want);
    assert_eq!(rt; answers(alloc, script, 1000, &[], 100, 5)?.as_str(), want);
    assert_eq!(rt; answers(alloc, b"", 1, &[], 1, 2)?.as_str(), "none, none, ");
    Ok(())
}

#[test]
fn each_command_has_its_fields(rt: HostRuntime) -> Result<(), AllocError> {
    let alloc = rt.alloc();
    let script =
        b"late 4294967295 2\nx\nrun\ndrop 4294967295\nedit 4294967295 7 1\n\nedit 1 4294967295 0\nload 1\nab\nfile a/b\nremove \nload 0\ndrop 0";
    let want =
        "1 late 4294967295 2 6, 4 drop 4294967295, 5 edit 4294967295 7 1 1, 7 edit 1 4294967295 0 0, 8 load 1 3, 10 file 3, 11 remove 0, 12 load 0 0, 13 drop 0, none, ";
    assert_eq!(rt; answers(alloc, script, 1, &[], 1000, 10)?.as_str(), want);
    assert_eq!(rt; answers(alloc, script, 1000, &[], 1000, 10)?.as_str(), want);
    Ok(())
}

#[test]
fn numbers_and_words_are_exact(rt: HostRuntime) -> Result<(), AllocError> {
    let alloc = rt.alloc();
    let unknown = "1 Unknown, ";
    let number = "1 BadNumber, ";
    let short = "1 ShortInput, ";
    for (script, want) in [
        (b"\nrun\n".as_slice(), unknown),
        (b" run\n".as_slice(), unknown),
        (b"run \n".as_slice(), unknown),
        (b"run\r\n".as_slice(), unknown),
        (b"Run\n".as_slice(), unknown),
        (b"bucket\n".as_slice(), unknown),
        (b"bucket 1 \n".as_slice(), unknown),
        (b"bucket  1\n".as_slice(), unknown),
        (b"bucket\t1\n".as_slice(), unknown),
        (b"drop\n".as_slice(), unknown),
        (b"drop 1 2\n".as_slice(), unknown),
        (b"late 0\n".as_slice(), unknown),
        (b"late x 0 0\n".as_slice(), unknown),
        (b"edit 0 0\n".as_slice(), unknown),
        (b"edit x 0 0 0\n".as_slice(), unknown),
        (b"load\n".as_slice(), unknown),
        (b"file\n".as_slice(), unknown),
        (b"file a b\n".as_slice(), unknown),
        (b"file  \n".as_slice(), unknown),
        (b"remove\n".as_slice(), unknown),
        (b"removes a\n".as_slice(), unknown),
        (b"bucket \n".as_slice(), number),
        (b"bucket 01\n".as_slice(), number),
        (b"bucket -1\n".as_slice(), number),
        (b"bucket 1\r\n".as_slice(), number),
        (b"bucket 4294967296\n".as_slice(), number),
        (b"drop x\n".as_slice(), number),
        (b"late x 0\n".as_slice(), number),
        (b"late 0 x\n".as_slice(), number),
        (b"edit x 0 0\n".as_slice(), number),
        (b"edit 0 x 0\n".as_slice(), number),
        (b"edit 0 0 x\n".as_slice(), number),
        (b"load \n".as_slice(), number),
        (b"bucket 1\n".as_slice(), short),
        (b"bucket 4294967295\n".as_slice(), short),
        (b"late 9 1\n".as_slice(), short),
        (b"edit 0 0 2\na\n".as_slice(), short),
        (b"load 2\na\n".as_slice(), short),
    ] {
        assert_eq!(rt; answers(alloc, script, 5, &[], 1000, 1)?.as_str(), want);
    }
    Ok(())
}

/// The name that a script of one line brings.
fn name_in(alloc: Global, script: &[u8]) -> Result<Option<Vec<u8>>, AllocError> {
    let mut source = MemSource::new(script.to_vec(alloc)?, 2, Vec::new(alloc));
    let mut reader = ScriptReader::new(&mut source, alloc, 1000);
    match reader.next(alloc) {
        Ok(Some(Command::File { name })) => Ok(Some(name.bytes().to_vec(alloc)?)),
        Ok(Some(Command::Remove { name })) => Ok(Some(name.bytes().to_vec(alloc)?)),
        _ => Ok(None),
    }
}

#[test]
fn names_of_files_are_checked(rt: HostRuntime) -> Result<(), AllocError> {
    let alloc = rt.alloc();
    for (script, name) in [
        (b"file a".as_slice(), b"a".as_slice()),
        (b"file \n".as_slice(), b"".as_slice()),
        (
            b"file \t\r\0\x80\xff\r\n".as_slice(),
            b"\t\r\0\x80\xff\r".as_slice(),
        ),
        (b"remove run\n".as_slice(), b"run".as_slice()),
    ] {
        let Some(got) = name_in(alloc, script)? else {
            assert!(rt; false);
            return Ok(());
        };
        assert_eq!(rt; got.as_slice(), name);
    }
    let mut script = b"run\nremove ".to_vec(alloc)?;
    script.resize(11 + 255, b'n')?;
    let most = "1 run, 2 remove 255, none, ";
    assert_eq!(rt;
        answers(alloc, script.as_slice(), 7, &[], 1000, 3)?.as_str(),
        most
    );
    script.resize(11 + 256, b'n')?;
    let above = "1 run, 2 BadName, 2 BadName, ";
    assert_eq!(rt;
        answers(alloc, script.as_slice(), 7, &[], 1000, 3)?.as_str(),
        above
    );
    Ok(())
}

#[test]
fn a_script_of_its_limit_is_too_long(rt: HostRuntime) -> Result<(), AllocError> {
    let alloc = rt.alloc();
    let at = "1 run, 2 run, 3 LongScript, 3 LongScript, 3 LongScript, ";
    assert_eq!(rt; answers(alloc, b"run\nrun\n", 3, &[], 8, 5)?.as_str(), at);
    let below = "1 run, 2 run, none, none, none, ";
    assert_eq!(rt;
        answers(alloc, b"run\nrun\n", 3, &[], 9, 5)?.as_str(),
        below
    );
    Ok(())
}

#[test]
fn a_short_script_stops_after_its_runs(rt: HostRuntime) -> Result<(), AllocError> {
    let want = "1 run, 2 ShortInput, 2 ShortInput, 2 ShortInput, 2 ShortInput, ";
    assert_eq!(rt;
        answers(rt.alloc(), b"run\nbucket 2\nb", 4, &[], 100, 5)?.as_str(),
        want
    );
    Ok(())
}

#[test]
fn a_failed_take_is_answered_from_then_on(rt: HostRuntime) -> Result<(), AllocError> {
    let alloc = rt.alloc();
    let script = b"run\nbucket 2\na\nb\n";
    let third = "1 run, 3 Read, 3 Read, 3 Read, 3 Read, ";
    assert_eq!(rt; answers(alloc, script, 7, &[3], 100, 5)?.as_str(), third);
    let first = "1 Read, 1 Read, 1 Read, 1 Read, 1 Read, ";
    assert_eq!(rt; answers(alloc, script, 7, &[1], 100, 5)?.as_str(), first);
    Ok(())
}

#[test]
fn a_reader_takes_no_more_than_it_needs(rt: HostRuntime) -> Result<(), AllocError> {
    let alloc = rt.alloc();
    let mut source = MemSource::new(b"run\nrun\n".to_vec(alloc)?, 4, Vec::new(alloc));
    let mut reader = ScriptReader::new(&mut source, alloc, 1000);
    let first = reader.next(alloc);
    assert!(rt; matches!(first, Ok(Some(Command::Run))));
    let source = reader.into_source();
    let mut rest = [0u8; 8];
    assert!(rt; source.take(&mut rest) == Ok(4));
    assert!(rt; &rest[..4] == b"run\n".as_slice());
    Ok(())
}

#[test]
fn a_last_line_without_lf_and_a_long_record(rt: HostRuntime) -> Result<(), AllocError> {
    let alloc = rt.alloc();
    let mut script = b"bucket 1\n".to_vec(alloc)?;
    script.resize(9 + 65535, b'a')?;
    let want = "1 bucket 1 65536, none, none, none, none, ";
    assert_eq!(rt;
        answers(alloc, script.as_slice(), 40000, &[], 1000000, 5)?.as_str(),
        want
    );
    script.push(b'a').map_err(|_| AllocError)?;
    let long = "2 LongLine, 2 LongLine, 2 LongLine, 2 LongLine, 2 LongLine, ";
    assert_eq!(rt;
        answers(alloc, script.as_slice(), 40000, &[], 1000000, 5)?.as_str(),
        long
    );
    Ok(())
}
