//! Why a call of the log gave up.

use crate::log::Log;
use np_io::DiskFailed;
use np_text::NoMemory;
use std::alloc::{AllocError, AllocFailed};

/// Why an append gave up.
#[derive(Drop)]
pub enum AppendFault {
    /// A call of the disk failed: its count of faults rose. Load the log again.
    DiskFault,
    /// Memory ran out before the record was written. The log comes back.
    NoMemory(Log),
}

impl From<DiskFailed> for AppendFault {
    ghost use Rattle.std.specs.Prelude.{◌≡◌};
    ghost use Rattle.np_log.specs.declared.fault.AppendFault.TheVariants.{DiskFault};

    ghost from_gives = { λ _ e. e ≡ DiskFault };

    fn from(_: DiskFailed) -> AppendFault {
        AppendFault::DiskFault
    }
}

/// Why a log was not made.
#[derive(Clone, Copy, Debug, PartialEq, Eq)]
pub enum CreateFault {
    /// The file has bytes already.
    NotEmpty,
    /// A call of the disk failed: its count of faults rose.
    DiskFault,
    /// Memory ran out before anything was written.
    NoMemory,
}

impl From<DiskFailed> for CreateFault {
    ghost use Rattle.std.specs.Prelude.{◌≡◌};
    ghost use Rattle.np_log.specs.declared.fault.CreateFault.TheVariants.{DiskFault};

    ghost from_gives = { λ _ e. e ≡ DiskFault };

    fn from(_: DiskFailed) -> CreateFault {
        CreateFault::DiskFault
    }
}

impl From<NoMemory> for CreateFault {
    ghost use Rattle.std.specs.Prelude.{◌≡◌};
    ghost use Rattle.np_log.specs.declared.fault.CreateFault.TheVariants.{NoMemory};

    ghost from_gives = { λ _ e. e ≡ NoMemory };

    fn from(_: NoMemory) -> CreateFault {
        CreateFault::NoMemory
    }
}

/// Why a log was not loaded.
#[derive(Clone, Copy, Debug, PartialEq, Eq)]
pub enum LoadFault {
    /// This record is missing or at fault. Record 0 is the configuration.
    Damaged { number: u32 },
    /// A call of the disk failed: its count of faults rose.
    DiskFault,
    /// Memory ran out.
    NoMemory,
}

impl From<DiskFailed> for LoadFault {
    ghost use Rattle.std.specs.Prelude.{◌≡◌};
    ghost use Rattle.np_log.specs.declared.fault.LoadFault.TheVariants.{DiskFault};

    ghost from_gives = { λ _ e. e ≡ DiskFault };

    fn from(_: DiskFailed) -> LoadFault {
        LoadFault::DiskFault
    }
}

impl From<AllocError> for LoadFault {
    ghost use Rattle.std.specs.Prelude.{◌≡◌};
    ghost use Rattle.np_log.specs.declared.fault.LoadFault.TheVariants.{NoMemory};

    ghost from_gives = { λ _ e. e ≡ NoMemory };

    fn from(_: AllocError) -> LoadFault {
        LoadFault::NoMemory
    }
}

impl<T: Drop> From<AllocFailed<T>> for LoadFault {
    ghost use Rattle.std.specs.Prelude.{◌≡◌};
    ghost use Rattle.np_log.specs.declared.fault.LoadFault.TheVariants.{NoMemory};

    ghost from_gives = { λ _ e. e ≡ NoMemory };

    fn from(_: AllocFailed<T>) -> LoadFault {
        LoadFault::NoMemory
    }
}
