//! What a reader returns for bytes that are no record.

/// Bytes that are no record of the kind that was read.
#[derive(Clone, Copy, Debug, PartialEq, Eq)]
pub struct BadRecord {
    /// How many bytes at the front begin some record of the kind: the most that do.
    pub place: usize,
}
