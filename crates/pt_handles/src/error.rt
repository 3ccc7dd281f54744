ghost use Rattle.std.specs.Prelude.{◌≡◌, IfOk};
ghost use Rattle.pt_handles.specs.Texts.{handle_error_text, as_it_is};

use crate::text::{around, errno_text, text_of};
use bstr::BStr;
use pt_host::{Bytes, Errno};
use std::alloc::{AllocError, Global};
use std::error::Error;
use std::fmt;

/// Why a handle, a descriptor or a path was not had.
#[derive(Debug, Drop)]
pub enum HandleError {
    /// The path could not be opened, with the host's error.
    Named(Errno, Bytes),
    /// A file handle has more than 128 bytes.
    TooLong,
    /// The path does not begin with the prefix.
    OutsidePrefix,
    /// The host's error.
    Host(Errno),
    Memory,
}

impl HandleError {
    /// Its text, with the path as it is, which may be no UTF-8.
    pub fn text(&self, alloc: Global) -> Result<Bytes, AllocError>
        ensures { IfOk result (λ text. text ≡ handle_error_text as_it_is self.now) }
    {
        match self {
            HandleError::Named(errno, path) => {
                let number = errno.0;
                let behind = format!(in alloc; ": os error {number}")?;
                around(alloc, "", path.as_slice(), behind.as_str())
            }
            HandleError::TooLong => text_of(alloc, "file handle too long"),
            HandleError::OutsidePrefix => text_of(alloc, "path is outside the prefix"),
            HandleError::Host(errno) => errno_text(alloc, *errno),
            HandleError::Memory => text_of(alloc, "no memory"),
        }
    }
}

/// The same with U+FFFD for what is no character.
impl fmt::Display for HandleError {
    ghost use Rattle.std.specs.Prelude.{Some};
    ghost use Rattle.pt_handles.specs.Texts.{handle_error_text, printed};

    ghost output = { λ error. Some (handle_error_text printed error) };

    fn fmt<W: fmt::Write>(&self, f: &mut fmt::Formatter<W>) -> fmt::Result {
        match self {
            HandleError::Named(errno, path) => {
                let path = BStr::new(path.as_slice());
                let number = errno.0;
                write!(f, "{path}: os error {number}")
            }
            HandleError::TooLong => f.write_str("file handle too long"),
            HandleError::OutsidePrefix => f.write_str("path is outside the prefix"),
            HandleError::Host(errno) => {
                let number = errno.0;
                write!(f, "os error {number}")
            }
            HandleError::Memory => f.write_str("no memory"),
        }
    }
}

impl Error for HandleError {}
