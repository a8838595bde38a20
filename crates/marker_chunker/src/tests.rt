//! Tests of markers and cuts, with values computed by hand.
use crate::{Roll, cut_all, first_cut, is_marker};
use record_text::{Records, is_record};
use std::alloc::{AllocError, Global};

/// Adds the record `times` times.
fn with(mut records: Records, bytes: &[u8], times: usize) -> Result<Records, AllocError> {
    if is_record(bytes) {
        'times: for _ in 0..times {
            if records.len() < 4294967295 {
                records.push(bytes)?;
            }
        }
    }
    Ok(records)
}

/// A list of `times` records of `size` bytes `-`.
fn dashes(alloc: Global, size: usize, times: usize) -> Result<Records, AllocError> {
    let mut bytes = Vec::new(alloc);
    'bytes: for _ in 0..size {
        bytes.push(b'-')?;
    }
    with(Records::new(alloc), &bytes, times)
}

#[test]
fn markers_have_a_window(rt: HostRuntime) -> Result<(), AllocError> {
    let alloc = rt.alloc();
    // 110 * 403^2 + 45 * 403 + 10 is 4095 modulo 4096.
    assert_eq!(rt; is_marker(b"n-"), true);
    assert_eq!(rt; is_marker(b""), false);
    assert_eq!(rt; is_marker(b"-n"), false);
    let long = dashes(alloc, 100, 1)?;
    if long.len() > 0 {
        assert_eq!(rt; is_marker(long.get(0)), false);
    }
    let mut roll = Roll::new();
    'bytes: for b in b"n-\n" {
        roll.push(*b);
    }
    assert_eq!(rt; roll.hash() % 4096, 4095);
    Ok(())
}

#[test]
fn chunks_end_at_markers_and_limits(rt: HostRuntime) -> Result<(), AllocError> {
    let alloc = rt.alloc();
    let six = with(with(dashes(alloc, 100, 6)?, b"n-", 1)?, b"x", 1)?;
    assert_eq!(rt; cut_all(alloc, &six)?.as_slice(), [7, 8].as_slice());
    // Five have too little text for a marker to end the chunk, and it ends with the list.
    let five = with(with(dashes(alloc, 100, 5)?, b"n-", 1)?, b"x", 1)?;
    assert_eq!(rt; cut_all(alloc, &five)?.as_slice(), [7].as_slice());
    Ok(())
}

#[test]
fn a_full_chunk_ends(rt: HostRuntime) -> Result<(), AllocError> {
    let alloc = rt.alloc();
    // Two records of 32768 bytes of text fill a chunk.
    let full = with(dashes(alloc, 32767, 2)?, b"x", 1)?;
    assert_eq!(rt; cut_all(alloc, &full)?.as_slice(), [2, 3].as_slice());
    if full.len() > 0 {
        assert_eq!(rt; first_cut(&full, 0), 2);
    }
    assert_eq!(rt; cut_all(alloc, &Records::new(alloc))?.is_empty(), true);
    Ok(())
}
