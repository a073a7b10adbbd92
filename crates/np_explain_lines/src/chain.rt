//! The links of chains of facts.

use np_causes::{Fact, Thing};

/// A fact at its place in the chains.
#[derive(Clone, Copy)]
pub struct Link {
    pub fact: Fact,
    /// How far below its job it is: 0 for the job's own fact.
    pub depth: u32,
    /// Whether the same was told before. What it names is then not told below it.
    pub again: bool,
}

/// A thing that is to be told.
#[derive(Clone, Copy)]
pub struct Next {
    pub thing: Thing,
    pub depth: u32,
}
