//! How much was done: maps, merges and joins, counted call by call.
ghost use Rattle.std.specs.Prelude.{◌≡◌};
ghost use Rattle.job_laws.specs.Counted.{one_map, one_merge, one_join};

/// How many records were mapped, how many tables merged and how many values joined. A count stays at 2^64 - 1.
#[derive(Clone, Copy, Debug, PartialEq, Eq)]
pub struct Counts {
    pub maps: u64,
    pub merges: u64,
    pub joins: u64,
}

/// Counts calls. No call of the trait makes a meter, so generic code counts on those that it is given.
pub trait Meter: Drop {
    ghost use Rattle.job_laws.specs.declared.meter.Counts.{Counts};

    // The three counts.
    ghost counts: { Self → Counts };

    /// Counts a record that is mapped.
    fn map(&mut self)
        ensures { counts self.new ≡ one_map (counts self.old) };

    /// Counts two tables that are merged.
    fn merge(&mut self)
        ensures { counts self.new ≡ one_merge (counts self.old) };

    /// Counts two values that are joined.
    fn join(&mut self)
        ensures { counts self.new ≡ one_join (counts self.old) };

    /// All three counts.
    fn counts(&self) -> Counts
        ensures { result ≡ counts self.now };
}
