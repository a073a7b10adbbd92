//! How a command ends.

ghost use Rattle.std.specs.Prelude.{◌≡◌};

use np_io::ReadAll;
use np_text::NoMemory;

/// How a command ends, before anything is written.
#[derive(Drop)]
pub enum Ending {
    /// The text is printed, with this status.
    Prints { text: Vec<u8>, status: u8 },
    /// The text is printed, and a line on err says that the journal was full.
    Full { text: Vec<u8> },
    /// Nothing is printed, and this line says why, with this status.
    Says { line: Vec<u8>, status: u8 },
    /// Nothing is printed: the words are no command.
    NoCommand,
    /// Nothing is printed: a read failed.
    ReadFault,
    /// Nothing is printed: more bytes came than an input may have.
    TooLong,
    /// Nothing is printed: memory ran out.
    NoMemory,
}

impl From<NoMemory> for Ending {
    ghost use Rattle.np_replay.specs.declared.ending.Ending.TheVariants as ending;

    ghost from_gives = { λ _ e. e ≡ ending.NoMemory };

    fn from(_: NoMemory) -> Ending {
        Ending::NoMemory
    }
}

impl From<ReadAll> for Ending {
    ghost use Rattle.np_replay.specs.Told.{ending_of};

    ghost from_gives = { λ fault e. e ≡ ending_of fault };

    fn from(fault: ReadAll) -> Ending {
        match fault {
            ReadAll::ReadFault => Ending::ReadFault,
            ReadAll::TooLong => Ending::TooLong,
            ReadAll::NoMemory => Ending::NoMemory,
        }
    }
}
