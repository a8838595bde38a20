//! The meters of a run, one for each lane and one for each part.
use crate::Meter;
use std::marker::Model;

/// The meters of the 16 lanes that map, and of the 16 parts that merge. It is modelled by both lists; a call that takes
/// a row leaves each meter in its place.
#[derive(Drop)]
pub struct MeterRow<M: Meter> {
    pub lanes: Vec<M>,
    pub parts: Vec<M>,
}

impl<M: Meter> Model for MeterRow<M> {
    ghost use Rattle.std.specs.Prelude.{◌≡◌, length};
    ghost use Rattle.job_laws.specs.Rows.{Row};

    ghost Value = { Row M };

    ghost view = { λ r. record { lanes = r.lanes.items; parts = r.parts.items } };

    ghost invariant = { λ r. (length r.lanes.items ≡ 16) × (length r.parts.items ≡ 16) };
}
