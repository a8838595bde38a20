//! Records that several owners share without a copy of their text, as a window and the lanes share those of a leaf.
ghost use Rattle.std.specs.Prelude.{◌≡◌, IfOk};

use crate::Records;
use std::alloc::{AllocError, Global};
use std::marker::Model;
use std::sync::Arc;

/// Shared records that do not change, modelled as the records.
#[derive(Drop)]
pub struct Bundle {
    records: Arc<Records, Global>,
}

impl Model for Bundle {
    ghost use Rattle.std.specs.Prelude.{ℕ, List};
    ghost use Rattle.std.specs.Arc.{arc_value};

    ghost Value = { List (List ℕ) };

    ghost view = { λ b. arc_value b.records };
}

impl Bundle {
    /// Makes these records shared. They are not copied.
    pub fn of(alloc: Global, records: Records) -> Result<Bundle, AllocError>
        ensures { IfOk result (λ b. b ≡ records) }
    {
        let records = Arc::new(alloc, records)?;
        Ok(Bundle { records })
    }

    /// The records.
    pub fn records(&self) -> &Records
        ensures { result.now ≡ self.now }
    {
        &self.records
    }

    /// Another owner of the same records. They are not copied.
    pub fn share(&self) -> Result<Bundle, AllocError>
        ensures { IfOk result (λ b. b ≡ self.now) }
    {
        let records = Arc::try_clone(&self.records)?;
        Ok(Bundle { records })
    }
}
