//! The gate before each launch.

use np_text::PoolId;

/// What each launch passes first. It always lets the launch through in the end; a test's gate may
/// look a bounded number of times whether another launch has come.
pub trait Gate {
    /// Lets a launch of the pool through.
    fn pass(&self, pool: PoolId);
}

/// A gate that holds nobody up.
#[derive(Clone, Copy, Debug)]
pub struct OpenGate;

impl Gate for OpenGate {
    fn pass(&self, _pool: PoolId) {}
}
