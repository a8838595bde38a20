//! Keys, emitted pairs and counts, as a caller meets them.
ghost use Rattle.std.specs.Prelude.{◌≡◌, length, IfOk};

use crate::{CountMeter, Counts, Emit, Key, Meter, MeterRow, be32_bytes, be64_bytes, tab_at};
use std::alloc::{AllocError, Global};
use std::cmp::Ordering;
use std::test::Fail;

fn cross<T: Send + Sync>(_value: &T) {}

fn new_meters(alloc: Global) -> Result<Vec<CountMeter>, AllocError>
    ensures { IfOk result (λ meters. length meters.items ≡ 16) }
{
    let mut meters = Vec::new(alloc);
    'meters: while meters.len() < 16 {
        meters.push(CountMeter::new())?;
    }
    Ok(meters)
}

#[test]
fn keys_are_shared_and_ordered(rt: HostRuntime) -> Result<(), Fail> {
    let short = Key::of(rt.alloc(), b"ab")?;
    let long = Key::of(rt.alloc(), b"abc")?;
    let high = Key::of(rt.alloc(), b"\xff")?;
    let again = short.share()?;
    assert_eq!(rt; again.bytes(), b"ab".as_slice());
    assert_eq!(rt; short.compare(&long), Ordering::Less);
    assert_eq!(rt; high.compare(&long), Ordering::Greater);
    assert_eq!(rt; again.compare(&short), Ordering::Equal);
    cross(&again);
    Ok(())
}

#[test]
fn a_key_may_have_65535_bytes(rt: HostRuntime) -> Result<(), Fail> {
    let bytes = vec![in rt.alloc(); 7u8; 65535]?;
    let key = Key::of(rt.alloc(), bytes.as_slice())?;
    assert_eq!(rt; key.bytes().len(), 65535);
    Ok(())
}

#[test]
fn pairs_stand_in_their_order(rt: HostRuntime) -> Result<(), Fail> {
    let mut first = Emit::new(rt.alloc());
    first.put(b"b", 1u64)?;
    first.put(b"a", 2)?;
    first.put(b"b", 3)?;
    cross(&first);
    assert_eq!(rt; first.len(), 3);
    let (key, val) = first.pair(1);
    assert_eq!(rt; key, b"a".as_slice());
    assert_eq!(rt; *val, 2);
    first.truncate(1);
    assert_eq!(rt; first.len(), 1);
    Ok(())
}

#[test]
fn each_call_raises_its_own_count(rt: HostRuntime) -> Result<(), Fail> {
    let mut meter = CountMeter::new();
    assert_eq!(rt;
        meter.counts(),
        Counts {
            maps: 0,
            merges: 0,
            joins: 0
        }
    );
    meter.map();
    meter.merge();
    meter.merge();
    meter.join();
    meter.join();
    meter.join();
    assert_eq!(rt;
        meter.counts(),
        Counts {
            maps: 1,
            merges: 2,
            joins: 3
        }
    );
    cross(&meter);
    Ok(())
}

#[test]
fn a_row_has_sixteen_lanes_and_parts(rt: HostRuntime) -> Result<(), Fail> {
    let mut row = MeterRow {
        lanes: new_meters(rt.alloc())?,
        parts: new_meters(rt.alloc())?,
    };
    row.lanes[15].map();
    row.parts[0].merge();
    assert_eq!(rt; row.lanes[15].counts().maps, 1);
    assert_eq!(rt; row.parts[0].counts().merges, 1);
    cross(&row);
    Ok(())
}

#[test]
fn numbers_stand_with_their_highest_byte_first(rt: HostRuntime) -> Result<(), Fail> {
    assert_eq!(rt; be32_bytes(0x0102_0304), [1, 2, 3, 4]);
    assert_eq!(rt; be64_bytes(0x0102_0304_0506_0708), [1, 2, 3, 4, 5, 6, 7, 8]);
    Ok(())
}

#[test]
fn a_record_divides_at_its_first_tab(rt: HostRuntime) -> Result<(), Fail> {
    assert_eq!(rt; tab_at(b""), 0);
    assert_eq!(rt; tab_at(b"\t"), 0);
    assert_eq!(rt; tab_at(b"ab\tc\td"), 2);
    assert_eq!(rt; tab_at(b"ab\t"), 2);
    assert_eq!(rt; tab_at(b"a b"), 3);
    Ok(())
}
