//! Why a whole run did not come to its end.

use crate::close_fault::CloseFault;
use crate::run_fault::RunFault;
use byte_io::Bytes;
use catalogue_core::OpenFault;
use dbf_image::ImageFault;
use ndx_index::NdxFault;
use std::alloc::{AllocError, AllocFailed};

/// Why a file was not read.
#[derive(Clone, Copy, Debug, PartialEq, Eq)]
pub enum FileFault {
    /// It can't be read, or is over 1,073,741,824 bytes, or its path ends with a reserved name.
    CannotRead,
    /// The list of a set of new files lies in its folder: not all of them are in place.
    Unrecovered,
    /// Its bytes are no table.
    Image(ImageFault),
    /// Its bytes are no index.
    Ndx(NdxFault),
}

/// A bad line of a setup.
#[derive(Debug, PartialEq, Eq, Drop)]
pub struct BadSetup {
    /// Its number, from 1.
    pub number: usize,
    /// What is told of it: its number, and why it is bad. There is none where memory was refused for it.
    pub told: Option<Bytes>,
}

/// Why a whole run did not come to its end. The order is that of its steps.
#[derive(Debug, PartialEq, Eq, Drop)]
pub enum ServeFault {
    /// A line of the setup is bad.
    Setup(BadSetup),
    /// The file of this path was not read. Of a table's two files the reader's fault names the DBF.
    File(Bytes, FileFault),
    /// The catalogue was not opened.
    Refused(OpenFault),
    /// The stations' run did not come to its end, for want of memory too.
    Run(RunFault),
    /// The files were not written, or not all.
    Close(CloseFault),
    /// Memory was refused in reading, opening or closing.
    NoMemory,
}

impl From<AllocError> for ServeFault {
    ghost use Rattle.std.specs.Prelude.{◌≡◌};
    ghost use Rattle.office_run.specs.declared.fault.ServeFault.TheVariants.{NoMemory};

    ghost from_gives = { λ _ fault. fault ≡ NoMemory };

    fn from(_refused: AllocError) -> ServeFault {
        ServeFault::NoMemory
    }
}

impl<T: Drop> From<AllocFailed<T>> for ServeFault {
    ghost use Rattle.std.specs.Prelude.{◌≡◌};
    ghost use Rattle.office_run.specs.declared.fault.ServeFault.TheVariants.{NoMemory};

    ghost from_gives = { λ _ fault. fault ≡ NoMemory };

    fn from(_refused: AllocFailed<T>) -> ServeFault {
        ServeFault::NoMemory
    }
}

impl From<OpenFault> for ServeFault {
    ghost use Rattle.std.specs.Prelude.{◌≡◌};
    ghost use Rattle.office_run.specs.WholeRun.{open_fault};

    ghost from_gives = { λ fault serve. serve ≡ open_fault fault };

    fn from(fault: OpenFault) -> ServeFault {
        match fault {
            OpenFault::NoMemory => ServeFault::NoMemory,
            fault => ServeFault::Refused(fault),
        }
    }
}

impl From<RunFault> for ServeFault {
    ghost use Rattle.std.specs.Prelude.{◌≡◌};
    ghost use Rattle.office_run.specs.declared.fault.ServeFault.TheVariants.{Run};

    ghost from_gives = { λ fault serve. serve ≡ Run fault };

    fn from(fault: RunFault) -> ServeFault {
        ServeFault::Run(fault)
    }
}

impl From<CloseFault> for ServeFault {
    ghost use Rattle.std.specs.Prelude.{◌≡◌};
    ghost use Rattle.office_run.specs.WholeRun.{close_fault};

    ghost from_gives = { λ fault serve. serve ≡ close_fault fault };

    fn from(fault: CloseFault) -> ServeFault {
        match fault {
            CloseFault::NoMemory => ServeFault::NoMemory,
            fault => ServeFault::Close(fault),
        }
    }
}
