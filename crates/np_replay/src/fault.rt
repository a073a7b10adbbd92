//! Why a log was not written or not read.

ghost use Rattle.std.specs.Prelude.{◌≡◌, IfOk};
ghost use Rattle.np_replay.specs.Faults.{IsSaidOf, TellsFault};
ghost use Rattle.np_replay.specs.Logged.{damaged_line};

use crate::Ending;
use np_io::DiskFailed;
use np_log::{AppendFault, CreateFault, LoadFault};
use np_text::{NoMemory, put_number};
use std::alloc::{AllocError, Global};

/// Why a log was not written or not read.
#[derive(Drop)]
pub(crate) enum LogFault {
    /// A call of the disk failed.
    Disk,
    /// The file has bytes already.
    NotEmpty,
    /// The record of this number is missing or at fault.
    Damaged { number: u32 },
    /// Memory ran out.
    NoMemory,
}

impl From<DiskFailed> for LogFault {
    ghost use Rattle.std.specs.Prelude.{◌≡◌};
    ghost use Rattle.np_replay.specs.declared.fault.LogFault.TheVariants as log;

    ghost from_gives = { λ _ e. e ≡ log.Disk };

    fn from(_: DiskFailed) -> LogFault {
        LogFault::Disk
    }
}

impl From<CreateFault> for LogFault {
    ghost use Rattle.std.specs.Prelude.{◌≡◌};
    ghost use Rattle.np_replay.specs.Faults.{of_create};

    ghost from_gives = { λ fault e. e ≡ of_create fault };

    fn from(fault: CreateFault) -> LogFault {
        match fault {
            CreateFault::NotEmpty => LogFault::NotEmpty,
            CreateFault::DiskFault => LogFault::Disk,
            CreateFault::NoMemory => LogFault::NoMemory,
        }
    }
}

impl From<LoadFault> for LogFault {
    ghost use Rattle.std.specs.Prelude.{◌≡◌};
    ghost use Rattle.np_replay.specs.Faults.{of_load};

    ghost from_gives = { λ fault e. e ≡ of_load fault };

    fn from(fault: LoadFault) -> LogFault {
        match fault {
            LoadFault::Damaged { number } => LogFault::Damaged { number },
            LoadFault::DiskFault => LogFault::Disk,
            LoadFault::NoMemory => LogFault::NoMemory,
        }
    }
}

impl From<AppendFault> for LogFault {
    ghost use Rattle.std.specs.Prelude.{◌≡◌};
    ghost use Rattle.np_replay.specs.Faults.{of_append};

    ghost from_gives = { λ fault e. e ≡ of_append fault };

    fn from(fault: AppendFault) -> LogFault {
        match fault {
            AppendFault::DiskFault => LogFault::Disk,
            AppendFault::NoMemory(_) => LogFault::NoMemory,
        }
    }
}

impl From<NoMemory> for LogFault {
    ghost use Rattle.std.specs.Prelude.{◌≡◌};
    ghost use Rattle.np_replay.specs.declared.fault.LogFault.TheVariants as log;

    ghost from_gives = { λ _ e. e ≡ log.NoMemory };

    fn from(_: NoMemory) -> LogFault {
        LogFault::NoMemory
    }
}

impl From<AllocError> for LogFault {
    ghost use Rattle.std.specs.Prelude.{◌≡◌};
    ghost use Rattle.np_replay.specs.declared.fault.LogFault.TheVariants as log;

    ghost from_gives = { λ _ e. e ≡ log.NoMemory };

    fn from(_: AllocError) -> LogFault {
        LogFault::NoMemory
    }
}

/// The line of a damaged log.
#[tactic(auto, unfolding(crate::specs::Logged::damaged_line))]
fn line_of_damage(alloc: Global, number: u32) -> Result<Vec<u8>, NoMemory>
    ensures { IfOk result (λ line. line.items ≡ damaged_line number) }
{
    let mut line = Vec::from_slice(alloc, b"poolsim: log: damaged at record ")?;
    put_number(&mut line, u64::from(number))?;
    line.push(b'\n')?;
    Ok(line)
}

/// The line and the status of a fault.
fn said_of(alloc: Global, fault: LogFault) -> Result<(Vec<u8>, u8), NoMemory>
    ensures { IfOk result (λ said. IsSaidOf fault said.0.items said.1) }
{
    match fault {
        LogFault::Disk => Ok((Vec::from_slice(alloc, b"poolsim: log: disk fault\n")?, 10)),
        LogFault::NotEmpty => {
            Ok((
                Vec::from_slice(alloc, b"poolsim: log: file is not empty\n")?,
                11,
            ))
        }
        LogFault::Damaged { number } => Ok((line_of_damage(alloc, number)?, 11)),
        LogFault::NoMemory => Err(NoMemory),
    }
}

/// How a command ends whose log was not written or not read. The time and the memory are those of
/// one line.
pub(crate) fn ending_of_fault(alloc: Global, fault: LogFault) -> Ending
    ensures { TellsFault fault result }
{
    match said_of(alloc, fault) {
        Ok((line, status)) => Ending::Says { line, status },
        Err(NoMemory) => Ending::NoMemory,
    }
}
