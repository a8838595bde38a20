//! The result of bringing a text.
use crate::leaf::Leaf;
use crate::map_recipe::MapRecipe;
use job_laws::Job;
use pin_table::Pin;
use std::alloc::AllocError;

/// A leaf, or out of memory; and a pin that was taken on the way and that no text keeps.
#[derive(Drop)]
pub(crate) struct Brought<J: Job> {
    pub leaf: Result<Leaf<J>, AllocError>,
    pub pin: Option<Pin<MapRecipe<J>>>,
}
