//! What is heard of a run while it is played.

/// Hears how far a run is played.
pub trait Progress {
    /// One more entry was played.
    fn played(&mut self);

    /// What is written comes next.
    fn done(&mut self);
}

/// Hears it, and does nothing.
#[derive(Clone, Copy)]
pub struct Silent;

impl Progress for Silent {
    fn played(&mut self) {}

    fn done(&mut self) {}
}
