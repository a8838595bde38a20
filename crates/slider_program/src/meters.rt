//! The meters that a program begins with.
use job_laws::{CountMeter, MeterRow};
use std::alloc::{AllocError, Global};

/// A row of meters at zero.
pub fn new_meters(alloc: Global) -> Result<MeterRow<CountMeter>, AllocError> {
    let mut lanes = Vec::new(alloc);
    let mut parts = Vec::new(alloc);
    'meters: while parts.len() < 16 {
        lanes.push(CountMeter::new())?;
        parts.push(CountMeter::new())?;
    }
    Ok(MeterRow { lanes, parts })
}
