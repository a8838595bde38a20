//! Tests of windows, with leaves and shifts written by hand.
ghost use Rattle.std.specs.Prelude.{◌≡◌, ◌≤◌, ◌<◌, ◌^◌, ◌∷◌, [], length, nat_le, refl};
ghost use Rattle.job_laws.specs.Encoding.{be64};

use crate::Window;
use job_laws::{CountMeter, Emit, Job, Key, Meter, be64_bytes};
use record_text::{Command, Kind, Name, Records, Shift, is_name, is_record};
use std::alloc::{AllocError, Global};
use std::marker::PhantomData;

// A job that refuses the empty record.
#[derive(Drop)]
struct NotEmpty<M: Meter> {
    meter: PhantomData<M>,
}

impl<M: Meter> Job for NotEmpty<M> {
    type Val = u64;

    type Meter = M;

    ghost setting = { λ _. 0 };

    ghost accepts = { λ _ r. nat_le 1 (length r) };

    ghost emits = { λ _ r. [] };

    ghost joined = { λ _ a b. b };

    ghost good = { λ _ n. Unit {0} };

    ghost text = { λ _ k n. k };

    ghost encoded = { λ n. be64 n };

    fn setting(&self) -> u32 {
        0
    }

    fn accepts(&self, r: &[u8]) -> bool {
        1 <= r.len()
    }

    fn map(
        &self,
        _alloc: Global,
        _r: &[u8],
        _out: &mut Emit<u64>,
        m: &mut M,
    ) -> Result<(), AllocError> {
        m.map();
        Ok(())
    }

    fn combine(&self, _alloc: Global, _a: &u64, b: &u64, m: &mut M) -> Result<u64, AllocError> {
        m.join();
        Ok(*b)
    }

    fn line(&self, _alloc: Global, k: &Key, _v: &u64, out: &mut Vec<u8>) -> Result<(), AllocError> {
        out.extend_from_slice(k.bytes())
    }

    fn copy(_alloc: Global, v: &u64) -> Result<u64, AllocError> {
        Ok(*v)
    }

    fn same(a: &u64, b: &u64) -> bool {
        *a == *b
    }

    fn encode(v: &u64, out: &mut Vec<u8>) -> Result<(), AllocError> {
        out.extend_from_slice(&be64_bytes(*v))
    }

    ghost emits_good = { λ s r h. tt };

    ghost join_laws = { λ s. record { keeps = λ a b g h. tt; assoc = λ a b c g h i. refl } };
}

/// A command in short, or the end of a run. Each byte is a record, and `_` the empty one.
#[derive(Clone, Copy)]
enum Step<'a> {
    Bucket(&'a [u8]),
    Drop(u32),
    Late(u32, &'a [u8]),
    File(&'a [u8]),
    Remove(&'a [u8]),
    Edit(u32, u32, &'a [u8]),
    Load(&'a [u8]),
    RunDone,
}

fn records_of(alloc: Global, bytes: &[u8]) -> Result<Records, AllocError> {
    let mut records = Records::new(alloc);
    'bytes: for b in bytes {
        let one = [*b];
        let len = if *b == b'_' { 0 } else { 1 };
        let bytes = &one[..len];
        if is_record(bytes) && records.len() < 1000 {
            records.push(bytes)?;
        }
    }
    Ok(records)
}

fn name_of(alloc: Global, bytes: &[u8]) -> Result<Name, AllocError> {
    if is_name(bytes) {
        return Name::of(alloc, bytes);
    }
    Ok(Name::empty(alloc))
}

/// The command of a step; `None` at the end of a run.
fn command_of(alloc: Global, step: Step<'_>) -> Result<Option<Command>, AllocError> {
    let command = match step {
        Step::Bucket(bytes) => Command::Bucket(records_of(alloc, bytes)?),
        Step::Drop(n) => Command::Drop(n),
        Step::Late(place, bytes) => Command::Late {
            place,
            more: records_of(alloc, bytes)?,
        },
        Step::File(bytes) => Command::File {
            name: name_of(alloc, bytes)?,
        },
        Step::Remove(bytes) => Command::Remove {
            name: name_of(alloc, bytes)?,
        },
        Step::Edit(at, del, bytes) => Command::Edit {
            at,
            del,
            ins: records_of(alloc, bytes)?,
        },
        Step::Load(bytes) => Command::Load(records_of(alloc, bytes)?),
        Step::RunDone => return Ok(None),
    };
    Ok(Some(command))
}

/// The text of each leaf with a bar after it, and the shift.
fn shown(alloc: Global, window: &Window, out: &mut Vec<u8>) -> Result<(), AllocError> {
    'leaves: for i in 0..window.leaf_count() {
        out.extend_from_slice(window.leaf(i).records().text())?;
        out.extend_from_slice(b"|")?;
    }
    match window.shift() {
        Shift::Slide {
            first,
            gone,
            places,
            fresh,
        } => {
            let slide = format!(in alloc; " slide {first} {gone} {fresh}")?;
            out.extend_from_slice(slide.as_bytes())?;
            'places: for i in 0..places.len() {
                let place = format!(in alloc; " {}", places.get(i))?;
                out.extend_from_slice(place.as_bytes())?;
            }
            Ok(())
        }
        Shift::Splice { first, gone, fresh } => {
            let splice = format!(in alloc; " splice {first} {gone} {fresh}")?;
            out.extend_from_slice(splice.as_bytes())
        }
    }
}

/// What a window refuses of these steps, and what it holds after them.
fn played(alloc: Global, kind: Kind, places: u32, steps: &[Step<'_>]) -> Result<Vec<u8>, AllocError>
    requires some { 1 ≤ places }
    requires few { places ≤ 4096 }
    requires steps { length steps.now < 2 ^ 62 }
{
    let job: NotEmpty<CountMeter> = NotEmpty { meter: PhantomData };
    let mut window = Window::new(alloc, kind, places);
    let mut out = Vec::new(alloc);
    'steps: for i in 0..steps.len() {
        match command_of(alloc, steps[i])? {
            None => window.run_done(alloc),
            Some(command) => match window.apply(alloc, command, &job) {
                Ok(()) => (),
                Err(fault) => {
                    let fault = format!(in alloc; "{fault:?} ")?;
                    out.extend_from_slice(fault.as_bytes())?;
                }
            },
        }
    }
    shown(alloc, &window, &mut out)?;
    Ok(out)
}

#[test]
fn a_circle_keeps_its_places(rt: HostRuntime) -> Result<(), AllocError> {
    let steps = [
        Step::Bucket(b"a"),
        Step::Bucket(b"b"),
        Step::Bucket(b"c"),
        Step::RunDone,
        Step::Late(2, b"xy"),
        Step::Late(0, b"z"),
        Step::Bucket(b"d"),
        Step::Late(2, b"w"),
        Step::Drop(1),
    ];
    let got = played(rt.alloc(), Kind::Circle, 3, &steps)?;
    assert_eq!(rt;
        got.as_slice(),
        b"NotHere b\n|c\nx\ny\n|d\nw\n| slide 1 1 1 1".as_slice()
    );
    let got = played(rt.alloc(), Kind::Circle, 1, &steps[..3])?;
    assert_eq!(rt; got.as_slice(), b"c\n| slide 2 0 1".as_slice());
    Ok(())
}

#[test]
fn buckets_go_and_gain_records(rt: HostRuntime) -> Result<(), AllocError> {
    let steps = [
        Step::Bucket(b"a"),
        Step::Bucket(b""),
        Step::Bucket(b"c"),
        Step::RunDone,
        Step::Late(2, b"x"),
        Step::Late(1, b""),
        Step::Late(0, b"y"),
        Step::Drop(4),
        Step::Late(3, b"z"),
        Step::Bucket(b"ab_"),
        Step::Drop(1),
        Step::Bucket(b"d"),
    ];
    let want = b"TooMany TooMany BadRecord { index: 2 } |c\nx\n|d\n| slide 1 1 1 1".as_slice();
    assert_eq!(rt;
        played(rt.alloc(), Kind::Buckets, 1, &steps)?.as_slice(),
        want
    );
    let want =
        b"NotHere NotHere NotHere NotHere NotHere BadRecord { index: 2 } NotHere a\n||c\n|d\n| slide 0 0 1".as_slice();
    assert_eq!(rt;
        played(rt.alloc(), Kind::Growing, 1, &steps)?.as_slice(),
        want
    );
    Ok(())
}

#[test]
fn files_stand_in_name_order(rt: HostRuntime) -> Result<(), AllocError> {
    let steps = [
        Step::File(b"b"),
        Step::Load(b"k"),
        Step::File(b"a"),
        Step::Load(b"lm"),
        Step::RunDone,
        Step::Edit(2, 1, b""),
        Step::Edit(0, 0, b"_"),
        Step::Edit(1, 1, b"n"),
        Step::Bucket(b"o"),
        Step::Remove(b"b"),
        Step::Remove(b"q"),
    ];
    let got = played(rt.alloc(), Kind::Document, 1, &steps)?;
    assert_eq!(rt;
        got.as_slice(),
        b"TooMany BadRecord { index: 0 } NotHere l\nn\n| splice 0 2 1".as_slice()
    );
    let got = played(rt.alloc(), Kind::Document, 1, &steps[..5])?;
    assert_eq!(rt; got.as_slice(), b"l\nm\n|k\n| splice 0 0 0".as_slice());
    Ok(())
}
