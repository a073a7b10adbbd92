//! How a round goes on.

/// How a round goes on after a part of it.
#[derive(Clone, Copy, Debug, PartialEq, Eq)]
pub(crate) enum Next {
    /// The role goes on.
    Go,
    /// The role has nothing to do, or has taken all its turns.
    Idle,
    /// The journal has no room. The round ends.
    Full,
    /// A removal failed. There are no more of them in this round.
    Failed,
}
