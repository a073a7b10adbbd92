//! What is wrong with a line.

/// The first fault of a line that is no event's.
#[derive(Clone, Copy, PartialEq, Eq)]
pub enum LineFault {
    /// The first word names no event.
    UnknownEvent,
    /// The event has another count of words.
    WrongCount,
    /// This word, counted from 1, does not fit its place. No word before it is at fault.
    BadArgument { word: u32 },
}
