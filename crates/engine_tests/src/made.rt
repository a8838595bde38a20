//! Records and commands made for tests, of a few letters or of pseudorandom numbers.

use record_text::{Command, Kind, Name, Records, is_name, is_record};
use std::alloc::{AllocError, Global};

/// The bytes of a long record, at least. A chunk has no room for two of them.
const LONG: usize = 40_000;

/// A pseudorandom number for each number: a step of a linear congruential generator, scrambled by a multiplication.
pub fn chance(of: u32) -> u32 {
    of.wrapping_mul(1103515245)
        .wrapping_add(12345)
        .wrapping_mul(2654435761)
        >> 7
}

/// The records between commas, or none if there is no text.
pub fn records(alloc: Global, text: &str) -> Result<Records, AllocError> {
    let mut records = Records::new(alloc);
    if text.len() == 0 {
        return Ok(records);
    }
    'records: for record in text.split(',') {
        push_record(record.as_bytes(), &mut records)?;
    }
    Ok(records)
}

/// The name of these bytes, or the empty one if they are no name.
pub fn name(alloc: Global, text: &str) -> Result<Name, AllocError> {
    let bytes = text.as_bytes();
    if !is_name(bytes) {
        return Ok(Name::empty(alloc));
    }
    Name::of(alloc, bytes)
}

/// The command of a step of a walk, over a window of this kind with `leaves` leaves, which takes it.
pub fn command_of_step(
    alloc: Global,
    kind: Kind,
    step: u32,
    leaves: usize,
) -> Result<Command, AllocError> {
    match kind {
        Kind::Growing => Ok(Command::Bucket(records_of_step(alloc, step)?)),
        Kind::Circle => bucket_or_late(alloc, step, leaves),
        Kind::Buckets => {
            if step % 5 == 4 {
                let most = leaves.min(6) as u32;
                return Ok(Command::Drop(chance(step) % (most + 1)));
            }
            bucket_or_late(alloc, step, leaves)
        }
        Kind::Document => change_of_file(alloc, step),
    }
}

// A new bucket, or at times late records for a bucket of the window.
fn bucket_or_late(alloc: Global, step: u32, leaves: usize) -> Result<Command, AllocError> {
    let records = records_of_step(alloc, step)?;
    let most = leaves.min(5) as u32;
    if step % 7 == 3 && most > 0 {
        return Ok(Command::Late {
            place: chance(step) % most,
            more: records,
        });
    }
    Ok(Command::Bucket(records))
}

// Of four steps in turn one goes to a file, one loads it, one edits it, and one removes a file; there are nine files.
fn change_of_file(alloc: Global, step: u32) -> Result<Command, AllocError> {
    let file = step / 4;
    let count = chance(file) % 4 + 1;
    match step % 4 {
        0 => Ok(Command::File {
            name: name_of(alloc, chance(file))?,
        }),
        1 => Ok(Command::Load(loaded(alloc, file, count)?)),
        2 => {
            let at = chance(step) % (count + 1);
            let del = chance(step / 2) % (count - at + 1);
            let ins = made_records(alloc, step, step % 3)?;
            Ok(Command::Edit { at, del, ins })
        }
        _ => Ok(Command::Remove {
            name: name_of(alloc, chance(step))?,
        }),
    }
}

fn name_of(alloc: Global, number: u32) -> Result<Name, AllocError> {
    let digit = number % 9;
    let text = format!(in alloc; "file{digit}")?;
    name(alloc, text.as_str())
}

// `count` records, and at times long ones behind them, which make the file several chunks.
fn loaded(alloc: Global, file: u32, count: u32) -> Result<Records, AllocError> {
    let mut records = made_records(alloc, file, count)?;
    if file % 6 == 5 {
        let long = long_record(alloc)?;
        push_record(long.as_slice(), &mut records)?;
        push_record(b"w1\tlong", &mut records)?;
        push_record(long.as_slice(), &mut records)?;
    }
    Ok(records)
}

fn long_record(alloc: Global) -> Result<Vec<u8>, AllocError> {
    let mut record = Vec::from_slice(alloc, b"w2\t")?;
    record.resize(LONG, b'-')?;
    Ok(record)
}

// Up to three records; two steps in turn bring equal ones, or one of them none.
fn records_of_step(alloc: Global, step: u32) -> Result<Records, AllocError> {
    made_records(alloc, step / 2, chance(step / 4) % 4)
}

// `count` records of a word, a TAB and a digit.
fn made_records(alloc: Global, seed: u32, count: u32) -> Result<Records, AllocError> {
    let mut records = Records::new(alloc);
    'made: for i in 0..count {
        let word = chance(seed.wrapping_mul(8).wrapping_add(i)) % 23;
        let digit = seed % 10;
        let record = format!(in alloc; "w{word}\t{digit}")?;
        push_record(record.as_bytes(), &mut records)?;
    }
    Ok(records)
}

// Adds a record, if the bytes are one and there is room for it.
fn push_record(record: &[u8], records: &mut Records) -> Result<(), AllocError> {
    if is_record(record) && records.len() < 1_000_000 {
        records.push(record)?;
    }
    Ok(())
}
