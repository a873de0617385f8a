//! Why no further case of a file is run.
use s7_base::NoMemory;
use std::alloc::{AllocError, AllocFailed};
use std::io;

/// Why no further case of a file is run.
#[derive(Clone, Copy, Debug, PartialEq)]
pub enum Stop {
    /// A line does not have the form of a line of a case.
    NoForm,

    /// The file can't be read, or the output not written.
    NoFile,
    NoMemory,
}

impl From<io::Error> for Stop {
    fn from(_fault: io::Error) -> Stop {
        Stop::NoFile
    }
}

impl From<NoMemory> for Stop {
    fn from(_refused: NoMemory) -> Stop {
        Stop::NoMemory
    }
}

impl From<AllocError> for Stop {
    fn from(_refused: AllocError) -> Stop {
        Stop::NoMemory
    }
}

impl<T: Drop> From<AllocFailed<T>> for Stop {
    fn from(_refused: AllocFailed<T>) -> Stop {
        Stop::NoMemory
    }
}
