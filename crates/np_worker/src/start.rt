//! Accepted starts.

use np_cloud::Tag;
use np_text::SessionId;

/// An accepted start: who made it, and which launch it is.
#[derive(Clone, Copy, Debug, PartialEq, Eq)]
pub struct Start {
    pub session: SessionId,
    pub tag: Tag,
}
