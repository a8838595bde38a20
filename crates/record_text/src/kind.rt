//! The kinds of windows. The kind decides which commands a window has, and which leaves it drops.

/// How a window loses leaves: by commands, in a circle of places, never, or as an edited document.
#[derive(Clone, Copy, Debug, PartialEq, Eq)]
pub enum Kind {
    Buckets,
    Circle,
    Growing,
    Document,
}
