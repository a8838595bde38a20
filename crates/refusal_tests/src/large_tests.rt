//! One byte more of text than a window may have, 268,435,456 bytes: in files, in buckets and in a document.
use chunk_store::{EditFault, Files};
use job_laws::CountMeter;
use jobs_basic::Count;
use record_text::{Command, Kind, Name, Records, is_name, is_record};
use std::alloc::{AllocError, Global};
use std::test::Fail;
use window_manager::{Window, WindowFault};

// A record that often, if it is one. It is searched for an LF once.
fn times(alloc: Global, count: u32, bytes: &[u8]) -> Result<Records, AllocError> {
    let mut records = Records::new(alloc);
    if is_record(bytes) {
        'times: for _ in 0..count {
            if records.len() < 4294967295 {
                records.push(bytes)?;
            }
        }
    }
    Ok(records)
}

// Records with as much text as a window may have.
fn most_text(alloc: Global) -> Result<Records, AllocError> {
    times(alloc, 4096, &[b'x'; 65535])
}

// Records without bytes. The text of each is one LF.
fn no_bytes(alloc: Global, count: u32) -> Result<Records, AllocError> {
    times(alloc, count, b"")
}

fn select(alloc: Global, files: &mut Files, bytes: &[u8]) -> Result<(), AllocError> {
    if is_name(bytes) {
        return files.select(alloc, &Name::of(alloc, bytes)?);
    }
    Ok(())
}

#[test]
fn text_of_all_files_is_too_large(rt: HostRuntime) -> Result<(), Fail> {
    let alloc = rt.alloc();
    let mut files = Files::new(alloc);
    assert!(rt; files.load(alloc, no_bytes(alloc, 1)?).is_ok());
    select(alloc, &mut files, b"b")?;
    let refused = files.load(alloc, most_text(alloc)?);
    assert_eq!(rt; refused, Err(EditFault::WindowLarge));
    let refused = files.edit(alloc, 0, 0, most_text(alloc)?);
    assert_eq!(rt; refused, Err(EditFault::WindowLarge));
    assert_eq!(rt; (files.file_count(), files.text_len()), (1, 1));
    Ok(())
}

// Gives a new window of this kind two commands; what it says to the second one.
fn second_of(
    alloc: Global,
    kind: Kind,
    first: Command,
    second: Command,
) -> Result<(), WindowFault> {
    let job: Count<CountMeter> = Count::new();
    let mut window = Window::new(alloc, kind, 1);
    window.apply(alloc, first, &job)?;
    window.apply(alloc, second, &job)
}

#[test]
fn text_of_all_buckets_is_too_large(rt: HostRuntime) -> Result<(), Fail> {
    let alloc = rt.alloc();
    for (held, said) in [(0, Ok(())), (1, Err(WindowFault::WindowLarge))] {
        let first = Command::Bucket(no_bytes(alloc, held)?);
        let second = Command::Bucket(most_text(alloc)?);
        assert_eq!(rt; second_of(alloc, Kind::Growing, first, second), said);
    }
    Ok(())
}

#[test]
fn text_of_a_document_is_too_large(rt: HostRuntime) -> Result<(), Fail> {
    let alloc = rt.alloc();
    let first = Command::Load(no_bytes(alloc, 1)?);
    let second = Command::Edit {
        at: 1,
        del: 0,
        ins: most_text(alloc)?,
    };
    let said = second_of(alloc, Kind::Document, first, second);
    assert_eq!(rt; said, Err(WindowFault::WindowLarge));
    Ok(())
}
