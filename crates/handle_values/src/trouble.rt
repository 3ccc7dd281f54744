use pt_show::ReadError;
use pt_words::LineError;
use std::alloc::{AllocError, AllocFailed};

/// Why a line was not taken.
#[derive(Clone, Copy, Debug, PartialEq, Eq)]
pub enum Trouble {
    /// It is no line, or may not stand where it does.
    Bad,
    /// An earlier line, of this number, is none.
    At(u64),
    Memory,
}

impl From<AllocError> for Trouble {
    fn from(_: AllocError) -> Self {
        Trouble::Memory
    }
}

impl<T: Drop> From<AllocFailed<T>> for Trouble {
    fn from(_: AllocFailed<T>) -> Self {
        Trouble::Memory
    }
}

impl From<LineError> for Trouble {
    fn from(error: LineError) -> Self {
        match error {
            LineError::Bad => Trouble::Bad,
            LineError::Memory => Trouble::Memory,
        }
    }
}

impl From<ReadError> for Trouble {
    fn from(error: ReadError) -> Self {
        match error {
            ReadError::Bad => Trouble::Bad,
            ReadError::Memory => Trouble::Memory,
        }
    }
}
