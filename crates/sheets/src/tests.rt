//! Sheets of a small job whose joining is not commutative, through the bound.
ghost use Rattle.std.specs.Prelude.{◌≡◌, ◌<◌, ◌++◌, ◌∷◌, [], true, ◌&&◌, nat_le, take, length, refl, IsTrue};
ghost use Rattle.job_laws.specs.Encoding.{be64};
ghost use Rattle.job_laws.specs.Meanings.{AllAccepted, meaning_of};

use crate::digest::digest_of;
use crate::{Sheet, answer_of, map_sheets, merge_sheets, same_sheet};
use job_laws::{CountMeter, Emit, Job, Key, Meter, be64_bytes};
use record_text::{Records, is_record};
use std::alloc::{AllocError, Global};
use std::marker::PhantomData;
use std::test::Fail;

// The first byte of a record with the record's length, of which the last is kept.
#[derive(Drop)]
struct LastLength<M: Meter> {
    meter: PhantomData<M>,
}

impl<M: Meter> Job for LastLength<M> {
    type Val = u64;

    type Meter = M;

    ghost setting = { λ _. 3 };

    ghost accepts = { λ _ r. nat_le 1 (length r) && nat_le (length r) 65535 };

    ghost emits = { λ _ r. (take 1 r, length r) ∷ [] };

    ghost joined = { λ _ a b. b };

    ghost good = { λ _ n. Unit {0} };

    ghost text = { λ _ k n. k };

    ghost encoded = { λ n. be64 n };

    fn setting(&self) -> u32 {
        3
    }

    fn accepts(&self, r: &[u8]) -> bool {
        1 <= r.len() && r.len() <= 65535
    }

    fn map(
        &self,
        alloc: Global,
        r: &[u8],
        out: &mut Emit<u64>,
        m: &mut M,
    ) -> Result<(), AllocError> {
        m.map();
        out.put(&r[..1], r.len() as u64)
    }

    fn combine(&self, _alloc: Global, _a: &u64, b: &u64, m: &mut M) -> Result<u64, AllocError> {
        m.join();
        Ok(*b)
    }

    fn line(&self, _alloc: Global, k: &Key, _v: &u64, out: &mut Vec<u8>) -> Result<(), AllocError> {
        out.extend_from_slice(k.bytes())
    }

    fn copy(_alloc: Global, v: &u64) -> Result<u64, AllocError> {
        Ok(*v)
    }

    fn same(a: &u64, b: &u64) -> bool {
        *a == *b
    }

    fn encode(v: &u64, out: &mut Vec<u8>) -> Result<(), AllocError> {
        out.extend_from_slice(&be64_bytes(*v))
    }

    ghost emits_good = { λ s r h. (tt, tt) };

    ghost join_laws = { λ s. record { keeps = λ a b g h. tt; assoc = λ a b c g h i. refl } };
}

fn all_accepted<J: Job>(job: &J, records: &Records) -> bool
    ensures { IsTrue result → AllAccepted (meaning_of J.Job job.now) records.now }
{
    for i in 0..records.len() {
        if !job.accepts(records.get(i)) {
            return false;
        }
    }
    true
}

// The records of a text, which LF separates; the first nine that are records.
fn records_of(alloc: Global, text: &[u8]) -> Result<Records, AllocError> {
    let mut records = Records::new(alloc);
    for line in text.split(|b| *b == b'\n') {
        if is_record(line) && records.len() < 9 {
            records.push(line)?;
        }
    }
    Ok(records)
}

// The sheet of the records in one part; an empty one if the job does not accept them all.
fn sheet_of<J: Job>(
    alloc: Global,
    job: &J,
    text: &[u8],
    m: &mut J::Meter,
) -> Result<Sheet<J>, AllocError> {
    let records = records_of(alloc, text)?;
    if all_accepted(job, &records) {
        let mut sheets = map_sheets(alloc, job, &records, 1, m)?;
        if let Some(sheet) = sheets.pop() {
            return Ok(sheet);
        }
    }
    Sheet::empty(alloc, job.setting())
}

fn merged<J: Job>(
    alloc: Global,
    job: &J,
    a: &Sheet<J>,
    b: &Sheet<J>,
    m: &mut J::Meter,
) -> Result<Sheet<J>, AllocError> {
    if a.setting() == job.setting() && b.setting() == job.setting() {
        return merge_sheets(alloc, job, a, b, m);
    }
    Sheet::empty(alloc, job.setting())
}

// The entries as text.
fn shown<J: Job<Val = u64>>(alloc: Global, sheet: &Sheet<J>) -> Result<String, AllocError> {
    let table = sheet.entries();
    let mut text = String::new(alloc);
    for i in 0..table.len() {
        let key = table.key(i).bytes();
        let n = *table.val(i);
        text.push_str(format!(in alloc; "{key:?}={n} ")?.as_str())?;
    }
    Ok(text)
}

type Last = LastLength<CountMeter>;

fn last_length() -> Last {
    LastLength { meter: PhantomData }
}

#[test]
fn a_table_joins_the_values_of_a_key_in_order(rt: HostRuntime) -> Result<(), Fail> {
    let alloc = rt.alloc();
    let mut m = CountMeter::new();
    let sheet = sheet_of(alloc, &last_length(), b"b22\na\nb\na333", &mut m)?;
    assert_eq!(rt; shown(alloc, &sheet)?.as_str(), "[97]=4 [98]=1 ");
    let counts = m.counts();
    assert_eq!(rt; (counts.maps, counts.merges, counts.joins), (4, 0, 2));
    Ok(())
}

// Sheets of two lists of records, which have one key in common.
fn two_sheets(alloc: Global, m: &mut CountMeter) -> Result<(Sheet<Last>, Sheet<Last>), AllocError> {
    let left = sheet_of(alloc, &last_length(), b"a333\nb", m)?;
    let right = sheet_of(alloc, &last_length(), b"c\nb4444", m)?;
    Ok((left, right))
}

#[test]
fn a_merge_joins_common_keys_with_the_left_first(rt: HostRuntime) -> Result<(), Fail> {
    let alloc = rt.alloc();
    let mut m = CountMeter::new();
    let (left, right) = two_sheets(alloc, &mut m)?;
    let both = merged(alloc, &last_length(), &left, &right, &mut m)?;
    assert_eq!(rt; shown(alloc, &both)?.as_str(), "[97]=4 [98]=5 [99]=1 ");
    let counts = m.counts();
    assert_eq!(rt; (counts.maps, counts.merges, counts.joins), (4, 1, 1));
    Ok(())
}

#[test]
fn a_merge_the_other_way_is_another_sheet(rt: HostRuntime) -> Result<(), Fail> {
    let alloc = rt.alloc();
    let mut m = CountMeter::new();
    let (left, right) = two_sheets(alloc, &mut m)?;
    let both = merged(alloc, &last_length(), &left, &right, &mut m)?;
    let other = merged(alloc, &last_length(), &right, &left, &mut m)?;
    assert_eq!(rt; shown(alloc, &other)?.as_str(), "[97]=4 [98]=1 [99]=1 ");
    assert!(rt; !same_sheet(&both, &other));
    Ok(())
}

#[test]
fn an_empty_sheet_has_no_entries(rt: HostRuntime) -> Result<(), Fail> {
    let alloc = rt.alloc();
    let empty = Sheet::<Last>::empty(alloc, 3)?;
    assert_eq!(rt; empty.entries().len(), 0);
    assert_eq!(rt; empty.setting(), 3);
    assert!(rt; same_sheet(&empty, &empty.share()?));
    assert!(rt; !same_sheet(&empty, &Sheet::empty(alloc, 4)?));
    Ok(())
}

#[test]
fn a_merge_with_an_empty_sheet_changes_nothing(rt: HostRuntime) -> Result<(), Fail> {
    let alloc = rt.alloc();
    let mut m = CountMeter::new();
    let empty = Sheet::empty(alloc, 3)?;
    let some = sheet_of(alloc, &last_length(), b"z\ny", &mut m)?;
    assert!(rt;
        same_sheet(
            &some,
            &merged(alloc, &last_length(), &some, &empty, &mut m)?
        )
    );
    assert!(rt;
        same_sheet(
            &some,
            &merged(alloc, &last_length(), &empty, &some, &mut m)?
        )
    );
    Ok(())
}

#[test]
fn an_empty_sheet_has_the_digest_of_no_bytes(rt: HostRuntime) -> Result<(), Fail> {
    let alloc = rt.alloc();
    let none = Sheet::<Last>::empty(alloc, 3)?;
    assert_eq!(rt;
        none.digest(),
        [
            0xe3, 0xb0, 0xc4, 0x42, 0x98, 0xfc, 0x1c, 0x14, 0x9a, 0xfb, 0xf4, 0xc8, 0x99, 0x6f,
            0xb9, 0x24, 0x27, 0xae, 0x41, 0xe4, 0x64, 0x9b, 0x93, 0x4c, 0xa4, 0x95, 0x99, 0x1b,
            0x78, 0x52, 0xb8, 0x55
        ]
    );
    Ok(())
}

#[test]
fn a_sheet_has_the_digest_of_its_table(rt: HostRuntime) -> Result<(), Fail> {
    let alloc = rt.alloc();
    let mut m = CountMeter::new();
    // SHA-256 of 0000000000000001 61 0000000000000008 0000000000000002.
    let one = sheet_of(alloc, &last_length(), b"ab", &mut m)?;
    assert_eq!(rt;
        one.digest(),
        [
            0x01, 0xef, 0x73, 0x42, 0x1c, 0xb8, 0x54, 0xcf, 0xaa, 0x54, 0x74, 0x42, 0x34, 0x1d,
            0xbe, 0x46, 0xe1, 0xeb, 0x2a, 0x2b, 0x58, 0x2d, 0xc1, 0xd6, 0x7b, 0x59, 0x1d, 0x9c,
            0x76, 0xe2, 0x18, 0x55
        ]
    );
    Ok(())
}

// Adds an entry whose key is the same byte, repeated.
fn put_entry(
    alloc: Global,
    entries: &mut Vec<(Key, u64)>,
    byte: u8,
    times: usize,
    val: u64,
) -> Result<(), AllocError> {
    let mut key = Vec::new(alloc);
    key.resize(times, byte)?;
    if 1 <= key.len() && key.len() <= 65535 {
        entries.push((Key::of(alloc, key.as_slice())?, val))?;
    }
    Ok(())
}

#[test]
fn a_table_longer_than_a_piece_is_hashed_whole(rt: HostRuntime) -> Result<(), Fail> {
    let alloc = rt.alloc();
    let mut entries = Vec::new(alloc);
    put_entry(alloc, &mut entries, b'a', 40_000, 1)?;
    put_entry(alloc, &mut entries, b'b', 1, 2)?;
    // SHA-256 of the lengths, keys and values of both, as Python's hashlib has it.
    assert_eq!(rt;
        digest_of::<Last>(alloc, entries.as_slice())?,
        [
            0x2d, 0xe1, 0xd8, 0x4f, 0x7a, 0x15, 0x30, 0x50, 0x4f, 0x48, 0xbe, 0xc6, 0x09, 0x3d,
            0x02, 0x83, 0x6f, 0xc5, 0x59, 0x0c, 0x82, 0xa2, 0xf4, 0xd4, 0xea, 0x99, 0x99, 0x69,
            0x7a, 0x07, 0xe1, 0x4f
        ]
    );
    Ok(())
}

// The entries of some of 16 parts as text, one part after the other; `None` if the job does not accept the records.
fn shown_parts(alloc: Global, text: &[u8], parts: &[usize]) -> Result<String, AllocError> {
    let job = last_length();
    let records = records_of(alloc, text)?;
    let mut all = String::new(alloc);
    if all_accepted(&job, &records) {
        let sheets = map_sheets(alloc, &job, &records, 16, &mut CountMeter::new())?;
        for part in parts {
            if let Some(sheet) = sheets.get(*part) {
                all.push_str(shown(alloc, sheet)?.as_str())?;
            }
        }
    }
    Ok(all)
}

#[test]
fn each_key_stands_in_its_own_part(rt: HostRuntime) -> Result<(), Fail> {
    let alloc = rt.alloc();
    let found = shown_parts(alloc, b"c\nb\na", &[12, 5, 2, 0])?;
    assert_eq!(rt; found.as_str(), "[97]=1 [98]=1 [99]=1 ");
    Ok(())
}

// The lines of the records in 16 parts, in one order, with the number of entries; `None` if the job does not accept the
// records.
fn answered<J: Job>(
    alloc: Global,
    job: &J,
    text: &[u8],
    m: &mut J::Meter,
) -> Result<(Vec<u8>, u64), AllocError> {
    let records = records_of(alloc, text)?;
    let mut out = Vec::new(alloc);
    let mut count = 0;
    if all_accepted(job, &records) {
        count = answer_in_parts(alloc, job, &records, &mut out, m)?;
    }
    Ok((out, count))
}

fn answer_in_parts<J: Job>(
    alloc: Global,
    job: &J,
    records: &Records,
    out: &mut Vec<u8>,
    m: &mut J::Meter,
) -> Result<u64, AllocError>
    requires { AllAccepted (meaning_of J.Job job.now) records.now }
{
    let roots = map_sheets(alloc, job, records, 16, m)?;
    answer_of(alloc, job, roots.as_slice(), out)
}

#[test]
fn parts_are_written_in_one_key_order(rt: HostRuntime) -> Result<(), Fail> {
    let alloc = rt.alloc();
    let mut m = CountMeter::new();
    let (lines, count) = answered(alloc, &last_length(), b"c\na\nb\naaa", &mut m)?;
    assert_eq!(rt; lines.as_slice(), b"abc".as_slice());
    assert_eq!(rt; count, 3);
    Ok(())
}

#[test]
fn parts_without_records_have_no_lines(rt: HostRuntime) -> Result<(), Fail> {
    let alloc = rt.alloc();
    let mut m = CountMeter::new();
    let (none, no_keys) = answered(alloc, &last_length(), b"", &mut m)?;
    assert_eq!(rt; none.len(), 0);
    assert_eq!(rt; no_keys, 0);
    Ok(())
}

#[test]
fn lines_stand_in_the_order_of_keys(rt: HostRuntime) -> Result<(), Fail> {
    let alloc = rt.alloc();
    let job = last_length();
    let mut m = CountMeter::new();
    let sheet = sheet_of(alloc, &job, b"c\n\xff\na", &mut m)?;
    let mut out = Vec::new(alloc);
    if sheet.setting() == job.setting() {
        sheet.write_lines(alloc, &job, &mut out)?;
    }
    assert_eq!(rt; out.as_slice(), b"ac\xff".as_slice());
    Ok(())
}
