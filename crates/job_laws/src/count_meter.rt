//! The meter that a program makes.
ghost use Rattle.std.specs.Prelude.{◌≡◌};

use crate::{Counts, Meter};
use std::marker::Model;

/// A meter that starts at zero. It is modelled by its counts.
#[derive(Drop)]
pub struct CountMeter {
    counts: Counts,
}

impl Model for CountMeter {
    ghost use Rattle.job_laws.specs.declared.meter.Counts.{Counts};

    ghost Value = { Counts };

    ghost view = { λ m. m.counts };
}

impl CountMeter {
    /// A meter whose counts are zero.
    pub fn new() -> CountMeter
        ensures { result ≡ record { maps = 0; merges = 0; joins = 0 } }
    {
        CountMeter {
            counts: Counts {
                maps: 0,
                merges: 0,
                joins: 0,
            },
        }
    }
}

impl Meter for CountMeter {
    ghost counts = { λ m. m };

    fn map(&mut self) {
        self.counts.maps = self.counts.maps.saturating_add(1);
    }

    fn merge(&mut self) {
        self.counts.merges = self.counts.merges.saturating_add(1);
    }

    fn join(&mut self) {
        self.counts.joins = self.counts.joins.saturating_add(1);
    }

    fn counts(&self) -> Counts {
        self.counts
    }
}
