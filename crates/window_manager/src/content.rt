//! The content of a window: buckets, or a document.
use crate::buckets::BucketWindow;
use crate::document::DocumentWindow;

/// Buckets, or a document.
#[derive(Drop)]
pub enum Content {
    OfBuckets(BucketWindow),
    OfDocument(DocumentWindow),
}
