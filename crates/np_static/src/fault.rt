//! Why host lines, or a site with hosts, are refused.

ghost use Rattle.std.specs.Prelude.{◌≡◌};
ghost use Rattle.np_static.specs.declared.fault.HostsRead.TheVariants.{NoMemory};

use np_event::LineFault;
use np_json::ConfigFault;
use np_text::PoolId;
use std::alloc::{AllocError, AllocFailed};

/// What is wrong with host lines.
#[derive(Drop)]
pub enum HostsFault {
    /// The line of this number, from 1, has this fault: it does not begin with `host`, it has
    /// another count of words than 3, or a word does not fit.
    Line { line: u32, fault: LineFault },
    /// The line of this number, from 1, is one more than there may be.
    TooMany { line: u32 },
    /// The hosts of this pool carry so many servers together, and the pool may have more.
    Room { pool: PoolId, room: u64 },
}

/// What is wrong with a configuration and the host lines after it.
#[derive(Drop)]
pub enum HostedFault {
    /// The configuration has this fault.
    Config(ConfigFault),
    /// No line is exactly `%%`.
    NoSeparator,
    /// The host lines have this fault.
    Hosts(HostsFault),
}

/// Why host lines gave no drivers.
#[derive(Drop)]
pub enum HostsRead {
    /// Their first fault.
    Fault(HostsFault),
    /// Memory ran out.
    NoMemory,
}

impl From<np_text::NoMemory> for HostsRead {
    ghost from_gives = { λ _ e. e ≡ NoMemory };

    fn from(_: np_text::NoMemory) -> HostsRead {
        HostsRead::NoMemory
    }
}

impl From<AllocError> for HostsRead {
    ghost from_gives = { λ _ e. e ≡ NoMemory };

    fn from(_: AllocError) -> HostsRead {
        HostsRead::NoMemory
    }
}

impl<T: Drop> From<AllocFailed<T>> for HostsRead {
    ghost from_gives = { λ _ e. e ≡ NoMemory };

    fn from(_: AllocFailed<T>) -> HostsRead {
        HostsRead::NoMemory
    }
}
