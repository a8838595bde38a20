//! The window of a tree's leaves, as far as it says which shifts it can give.
ghost use Rattle.std.specs.Prelude.{◌≡◌, ◌<◌, All, IsTrue, IfSome};
ghost use Rattle.record_text.specs.Shifts.{FitsShift, IsSlideOf, first_after};
ghost use Rattle.record_text.specs.declared.kind.Kind.TheVariants.{Buckets, Circle, Growing, Document};
ghost use Rattle.tree_tests.specs.Desks.{count_after};

use record_text::{Kind, Places, Shift};

/// How many places it has, the number of the first leaf, and how many leaves there are.
#[derive(Clone, Copy)]
pub(crate) struct Window {
    pub(crate) places: u32,
    pub(crate) first: u64,
    pub(crate) count: usize,
}

impl Window {
    /// Whether a window of this kind can give the shift, which brings `news` sheets.
    pub(crate) fn fits(&self, kind: Kind, news: usize, shift: &Shift) -> bool
        ensures { IsTrue result → FitsShift kind self.now.places self.now.first self.now.count news shift.now }
    {
        match kind {
            Kind::Growing => self.fits_growing(news, shift),
            Kind::Buckets => self.fits_buckets(news, shift),
            Kind::Circle => self.fits_circle(news, shift),
            Kind::Document => self.fits_document(news, shift),
        }
    }

    fn fits_growing(&self, news: usize, shift: &Shift) -> bool
        ensures { IsTrue result → FitsShift Growing self.now.places self.now.first self.now.count news shift.now }
    {
        match shift {
            Shift::Slide {
                first,
                gone,
                places,
                fresh,
            } => {
                *gone == 0
                    && places.len() == 0
                    && *first == self.first
                    && self.slides(*first, *gone, places, *fresh, news)
            }
            Shift::Splice { .. } => false,
        }
    }

    fn fits_buckets(&self, news: usize, shift: &Shift) -> bool
        ensures { IsTrue result → FitsShift Buckets self.now.places self.now.first self.now.count news shift.now }
    {
        match shift {
            Shift::Slide {
                first,
                gone,
                places,
                fresh,
            } => self.slides(*first, *gone, places, *fresh, news),
            Shift::Splice { .. } => false,
        }
    }

    fn fits_circle(&self, news: usize, shift: &Shift) -> bool
        ensures { IsTrue result → FitsShift Circle self.now.places self.now.first self.now.count news shift.now }
    {
        match shift {
            Shift::Slide {
                first,
                gone,
                places,
                fresh,
            } => {
                let most = self.places as usize;
                let kept = self.count.saturating_sub(*gone);
                *fresh <= most
                    && kept <= most - *fresh
                    && (*gone == 0 || kept == most - *fresh)
                    && self.slides(*first, *gone, places, *fresh, news)
            }
            Shift::Splice { .. } => false,
        }
    }

    fn fits_document(&self, news: usize, shift: &Shift) -> bool
        ensures { IsTrue result → FitsShift Document self.now.places self.now.first self.now.count news shift.now }
    {
        match shift {
            Shift::Slide { .. } => false,
            Shift::Splice { first, gone, fresh } => {
                *gone <= self.count && *first <= self.count - *gone && *fresh == news
            }
        }
    }

    // Whether a slide removes present leaves, and brings what it says.
    fn slides(&self, first: u64, gone: usize, places: &Places, fresh: usize, news: usize) -> bool
        ensures { IsTrue result → IsSlideOf self.now.first self.now.count news first gone places.now fresh }
    {
        gone <= self.count
            && places.len() <= news
            && fresh == news - places.len()
            && first >= self.first
            && first - self.first == gone as u64
            && all_below(places, self.count - gone)
    }

    /// The window after a shift, if its leaves can be counted.
    pub(crate) fn after(&self, shift: &Shift) -> Option<Window>
        ensures places { IfSome result (λ w. w.places ≡ self.now.places) }
        ensures first { IfSome result (λ w. w.first ≡ first_after shift.now self.now.first) }
        ensures count { IfSome result (λ w. w.count ≡ count_after shift.now self.now.count) }
    {
        match shift {
            Shift::Slide {
                first,
                gone,
                fresh,
                ..
            } => match self.count.saturating_sub(*gone).checked_add(*fresh) {
                Some(count) => Some(Window {
                    places: self.places,
                    first: *first,
                    count,
                }),
                None => None,
            },
            Shift::Splice { gone, fresh, .. } => {
                match self.count.saturating_sub(*gone).checked_add(*fresh) {
                    Some(count) => Some(Window {
                        places: self.places,
                        first: self.first,
                        count,
                    }),
                    None => None,
                }
            }
        }
    }
}

/// Whether all places come before the `n`th.
pub(crate) fn all_below(places: &Places, n: usize) -> bool
    ensures { IsTrue result → All (λ p. p < n) places.now }
{
    'places: for i in 0..places.len() {
        if places.get(i) >= n {
            return false;
        }
    }
    true
}
