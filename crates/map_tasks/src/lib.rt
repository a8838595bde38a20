//! Leaves through the memo: each distinct text of a window is mapped once, shared, and kept as long as a leaf has it.
//!
//! Start at [`Lane`], which holds the texts whose digests [`lane_of`] assigns to it, or at [`LeafInput`] and
//! [`MapRecipe`] for the memo that the lanes share. A text that a lane holds costs one look-up by its digest and one
//! comparison, a text that the memo holds also a turn at a shard, and a new one its mapping and two turns. A text is
//! hashed once and never copied, and nothing walks over the other texts of a lane.
#![tactic(auto)]

mod bringing;
mod brought;
mod fetching;
mod finishing;
mod held;
mod lane;
mod leaf;
mod leaf_input;
mod map_recipe;
mod placing;
mod texts;

pub use lane::Lane;
pub use leaf::Leaf;
pub use leaf_input::LeafInput;
pub use map_recipe::MapRecipe;
pub use placing::lane_of;

#[cfg(test)]
mod tests;
