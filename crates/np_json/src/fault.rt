//! Faults of a configuration's text, and their places.

ghost use Rattle.std.specs.Prelude.{◌≡◌, Some, IfOk};
ghost use Rattle.np_json.specs.declared.fault.ConfigRead.TheVariants.{NoMemory};

use std::alloc::{AllocError, AllocFailed, Global};
use std::marker::Model;

/// A place in a JSON text: the bytes of a JSON pointer (RFC 6901).
#[derive(Drop)]
pub struct Pointer {
    text: Vec<u8>,
}

impl Model for Pointer {
    ghost use Rattle.std.specs.Prelude.{List, ℕ};

    ghost Value = { List ℕ };

    ghost view = { λ p. p.text.items };
}

impl Pointer {
    /// The pointer with these bytes. It takes no memory.
    pub fn new(text: Vec<u8>) -> Pointer
        ensures { result ≡ text.items }
    {
        Pointer { text }
    }

    /// The bytes, which are empty at the root.
    pub fn items(&self) -> &[u8]
        ensures { result.now ≡ self.now }
    {
        self.text.as_slice()
    }
}

/// What is wrong with a configuration.
#[derive(Clone, Copy, Debug, PartialEq, Eq)]
pub enum ConfigKind {
    /// The bytes are no JSON text, or nest deeper than 127.
    NotJson,
    /// A key that must be there is absent.
    Missing,
    /// An object has a key that means nothing there.
    UnknownKey,
    /// A value of another kind than expected; also a number with a sign, a point or an exponent if
    /// a whole number is expected, and `null` anywhere.
    WrongType,
    /// A number outside its range, a fail-start that is not above the one before it, or a list
    /// shorter than its least length.
    OutOfRange,
    /// A name that is not 1 to 64 letters, digits, `.`, `_` or `-`.
    BadName,
    /// A name that an earlier one has, or a reference that was made before.
    Repeated,
    /// A reference to nothing, or a word that means nothing there.
    UnknownName,
    /// A list longer than its limit.
    TooMany,
}

/// A fault of a configuration, and where it is.
#[derive(Drop)]
pub struct ConfigFault {
    pub kind: ConfigKind,
    pub pointer: Pointer,
}

/// Why no configuration was read.
#[derive(Drop)]
pub enum ConfigRead {
    /// The first fault of the text.
    Fault(ConfigFault),
    /// Memory ran out.
    NoMemory,
}

/// What reading comes to: what was read, or why there is nothing.
pub type Reading<T> = Result<T, ConfigRead>;

impl From<AllocError> for ConfigRead {
    ghost from_gives = { λ _ e. e ≡ NoMemory };

    fn from(_: AllocError) -> ConfigRead {
        ConfigRead::NoMemory
    }
}

impl From<np_text::NoMemory> for ConfigRead {
    ghost from_gives = { λ _ e. e ≡ NoMemory };

    fn from(_: np_text::NoMemory) -> ConfigRead {
        ConfigRead::NoMemory
    }
}

impl<T: Drop> From<AllocFailed<T>> for ConfigRead {
    ghost from_gives = { λ _ e. e ≡ NoMemory };

    fn from(_: AllocFailed<T>) -> ConfigRead {
        ConfigRead::NoMemory
    }
}

/// A place below one that has a pointer. Its own pointer is made only if it is needed.
#[derive(Clone, Copy)]
pub enum Place<'a> {
    /// The member of an object with this key.
    Member(&'a [u8], &'a str),
    /// The item of a list at this index.
    Item(&'a [u8], usize),
}

ghost use Rattle.np_json.specs.Reading.{Fails, pointer_to};

impl Place<'_> {
    /// The pointer to the place.
    pub fn pointer(self, alloc: Global) -> Result<Vec<u8>, AllocError>
        ensures { IfOk result (λ text. text.items ≡ pointer_to self.entry) }
    {
        match self {
            Place::Member(object, key) => extended(alloc, object, key.as_bytes()),
            Place::Item(list, index) => {
                let digits = index.to_string(alloc)?;
                extended(alloc, list, digits.as_bytes())
            }
        }
    }
}

ghost use Rattle.np_json.specs.Reading.{below};

fn extended(alloc: Global, at: &[u8], step: &[u8]) -> Result<Vec<u8>, AllocError>
    ensures { IfOk result (λ text. text.items ≡ below at.now step.now) }
{
    let mut text = Vec::from_slice(alloc, at)?;
    text.push(b'/')?;
    text.extend_from_slice(step)?;
    Ok(text)
}

/// The fault at this pointer.
pub fn fault_at(alloc: Global, kind: ConfigKind, at: &[u8]) -> ConfigRead
    ensures { Fails result (Some (record { kind = kind; pointer = at.now })) }
{
    match Vec::from_slice(alloc, at) {
        Ok(text) => ConfigRead::Fault(ConfigFault {
            kind,
            pointer: Pointer::new(text),
        }),
        Err(_) => ConfigRead::NoMemory,
    }
}

/// The fault at this place.
pub fn fault_in(alloc: Global, kind: ConfigKind, place: Place<'_>) -> ConfigRead
    ensures { Fails result (Some (record { kind = kind; pointer = pointer_to place.entry })) }
{
    match place.pointer(alloc) {
        Ok(text) => ConfigRead::Fault(ConfigFault {
            kind,
            pointer: Pointer::new(text),
        }),
        Err(_) => ConfigRead::NoMemory,
    }
}
