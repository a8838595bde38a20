//! Tests of records, numbers, names and places, with values written by hand.
use crate::{Bundle, Name, Places, Records, is_name, is_record, parse_number, print_number};
use std::alloc::{AllocError, Global};
use std::cmp::Ordering;

#[test]
fn numbers_are_exact(rt: HostRuntime) {
    assert_eq!(rt; parse_number(b"0"), Some(0));
    assert_eq!(rt; parse_number(b"4294967295"), Some(4294967295));
    assert_eq!(rt; parse_number(b"4294967296"), None);
    assert_eq!(rt; parse_number(b"00000000001"), None);
    assert_eq!(rt; parse_number(b""), None);
    let mut into = [0u8; 20];
    assert_eq!(rt; print_number(18446744073709551615, &mut into), 20);
    assert_eq!(rt; into.as_slice(), b"18446744073709551615".as_slice());
    assert_eq!(rt; print_number(0, &mut into), 1);
    assert_eq!(rt; into[0], b'0');
}

#[test]
fn records_keep_their_order(rt: HostRuntime) -> Result<(), AllocError> {
    let alloc = rt.alloc();
    assert!(rt; is_record(b"a b"));
    assert!(rt; !is_record(b"a\nb"));
    let mut records = Records::new(alloc);
    assert!(rt; records.is_empty());
    records.push(b"a b")?;
    records.push(b"")?;
    assert_eq!(rt; records.len(), 2);
    assert_eq!(rt; records.get(0), b"a b".as_slice());
    assert_eq!(rt; records.get(1), b"".as_slice());
    assert_eq!(rt; records.text(), b"a b\n\n".as_slice());
    assert_eq!(rt; records.text_len(), 5);
    let mut other = records.copy(alloc)?;
    assert!(rt; records.same(&other));
    other.push(b"")?;
    assert!(rt; !records.same(&other));
    let bundle = Bundle::of(alloc, records)?;
    let shared = bundle.share()?;
    assert_eq!(rt; shared.records().len(), 2);
    Ok(())
}

#[test]
fn names_have_255_bytes_without_space_and_lf(rt: HostRuntime) {
    for bytes in [
        b"".as_slice(),
        b"a".as_slice(),
        b"a\t\r\0\xff".as_slice(),
        [b'n'; 255].as_slice(),
    ] {
        assert!(rt; is_name(bytes));
    }
    for bytes in [
        b" ".as_slice(),
        b"a b".as_slice(),
        b"a\n".as_slice(),
        [b'n'; 256].as_slice(),
    ] {
        assert!(rt; !is_name(bytes));
    }
}

/// How two names are ordered and whether they are equal; `None` if one is no name.
fn ordered(
    alloc: Global,
    left: &[u8],
    right: &[u8],
) -> Result<Option<(Ordering, bool)>, AllocError> {
    if !is_name(left) || !is_name(right) {
        return Ok(None);
    }
    let left = Name::of(alloc, left)?;
    let right = Name::of(alloc, right)?;
    Ok(Some((left.compare(&right), left.same(&right))))
}

#[test]
fn names_are_ordered_bytewise(rt: HostRuntime) -> Result<(), AllocError> {
    for (left, right, want) in [
        (b"".as_slice(), b"".as_slice(), Ordering::Equal),
        (b"".as_slice(), b"a".as_slice(), Ordering::Less),
        (b"a".as_slice(), b"ab".as_slice(), Ordering::Less),
        (b"b".as_slice(), b"ab".as_slice(), Ordering::Greater),
        (b"a".as_slice(), b"B".as_slice(), Ordering::Greater),
        (b"a\xff".as_slice(), b"a~".as_slice(), Ordering::Greater),
        (b"a\t".as_slice(), b"a\t".as_slice(), Ordering::Equal),
    ] {
        let same = want == Ordering::Equal;
        assert_eq!(rt; ordered(rt.alloc(), left, right)?, Some((want, same)));
    }
    Ok(())
}

#[test]
fn a_name_keeps_its_bytes(rt: HostRuntime) -> Result<(), AllocError> {
    let alloc = rt.alloc();
    if is_name(b"a\t") {
        let name = Name::of(alloc, b"a\t")?;
        assert_eq!(rt; name.bytes(), b"a\t".as_slice());
        let copy = name.copy(alloc)?;
        assert_eq!(rt; copy.bytes(), b"a\t".as_slice());
        assert!(rt; copy.same(&name));
        assert!(rt; !name.same(&Name::empty(alloc)));
    }
    assert_eq!(rt; Name::empty(alloc).bytes(), b"".as_slice());
    Ok(())
}

#[test]
fn places_rise(rt: HostRuntime) -> Result<(), AllocError> {
    let alloc = rt.alloc();
    let mut places = Places::new(alloc);
    assert_eq!(rt; places.len(), 0);
    places.push(0)?;
    places.push(7)?;
    assert_eq!(rt; places.len(), 2);
    assert_eq!(rt; places.get(0), 0);
    assert_eq!(rt; places.get(1), 7);
    Ok(())
}
