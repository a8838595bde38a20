//! Keeps the slide of a window of buckets as they come, leave and gain records, by numbers and places alone.
ghost use Rattle.std.specs.Prelude.{◌≡◌, ◌<◌, ◌≤◌, ◌+◌, ◌-◌, ◌^◌, min, nat_lt, if◌then◌else◌, OnOk, OnErr};
ghost use Rattle.definitions.specs.Limits.{most_buckets};
ghost use Rattle.window_manager.specs.Slides.{FitsCount, Slid, slid_by, lowered, with_place};

use crate::late_places::{add_place, lower};
use record_text::Shift;
use std::alloc::{AllocError, Global};

/// The first `went` of `count` buckets leave, then `came` new ones come.
pub fn slide_on(
    alloc: Global,
    shift: &mut Shift,
    count: usize,
    went: usize,
    came: usize,
) -> Result<(), AllocError>
    requires fits { FitsCount shift.old count }
    requires within { went ≤ count }
    requires small { (count ≤ most_buckets) × (came ≤ 1) }
    requires accepted { (slid_by shift.old count).accepted < 2 ^ 63 }
    ensures slid { OnOk result (slid_by shift.new (count + came - went) ≡ record {
      accepted = (slid_by shift.old count).accepted + came;
      stood = (slid_by shift.old count).stood;
      fresh = min ((slid_by shift.old count).fresh + came) (count + came - went);
      late = lowered went (slid_by shift.old count).late;
    }) }
    ensures fits { OnOk result (FitsCount shift.new (count + came - went)) }
    ensures err { OnErr result (shift.new ≡ shift.old) }
{
    match shift {
        Shift::Slide {
            first,
            gone,
            places,
            fresh,
        } => {
            *places = lower(alloc, places, went)?;
            let stood = count - *fresh;
            *first += went as u64;
            *gone += went.min(stood);
            *fresh = (*fresh + came).min(count + came - went);
            Ok(())
        }
        Shift::Splice { .. } => unreachable!(),
    }
}

/// Notes that the bucket at a place gained records, in a window of `count` buckets.
pub fn mark_late(
    alloc: Global,
    shift: &mut Shift,
    count: usize,
    place: usize,
) -> Result<(), AllocError>
    requires { FitsCount shift.old count }
    ensures slid { OnOk result (slid_by shift.new count ≡ record {
      accepted = (slid_by shift.old count).accepted;
      stood = (slid_by shift.old count).stood;
      fresh = (slid_by shift.old count).fresh;
      late = if nat_lt place (count - (slid_by shift.old count).fresh) then with_place place (slid_by shift.old count).late else (slid_by shift.old count).late;
    }) }
    ensures fits { OnOk result (FitsCount shift.new count) }
    ensures err { OnErr result (shift.new ≡ shift.old) }
{
    match shift {
        Shift::Slide { places, fresh, .. } => {
            if place < count - *fresh {
                *places = add_place(alloc, places, place)?;
            }
            Ok(())
        }
        Shift::Splice { .. } => unreachable!(),
    }
}
