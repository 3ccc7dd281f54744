ghost use Rattle.std.specs.Prelude.{◌≡◌, IfOk};
ghost use Rattle.pt_handles.specs.Texts.{fd_path_text, inode_path_text, as_it_is};

use crate::text::{around, errno_text, from_string, text_of};
use bstr::BStr;
use pt_host::{Bytes, Errno};
use std::alloc::{AllocError, Global};
use std::error::Error;
use std::fmt;

/// Why a descriptor has no path, in the order in which they are looked for.
#[derive(Debug, Drop)]
pub enum FdPathError {
    /// The host told no path, with its error.
    ReadLink(Errno),
    /// The path has 4,096 bytes or more.
    TooLong,
    /// The path has a NUL, first at this place.
    InvalidCString(u64),
    /// What the descriptor is open on is no file.
    NotAFile(Bytes),
    /// The file has lost this name.
    Deleted(Bytes),
    Memory,
}

/// Why an inode has no path.
#[derive(Debug, Drop)]
pub enum InodePathError {
    /// Its file could not be opened, with the host's error.
    NoFd(Errno),
    FdPathError(FdPathError),
    /// The path is that of the root, and the inode is another.
    OutsideRoot,
}

impl FdPathError {
    /// Its text, with the path as it is, which may be no UTF-8.
    pub fn text(&self, alloc: Global) -> Result<Bytes, AllocError>
        ensures { IfOk result (λ text. text ≡ fd_path_text as_it_is self.now) }
    {
        match self {
            FdPathError::ReadLink(errno) => {
                let number = errno.0;
                Ok(from_string(format!(in alloc; "readlink: os error {number}")?))
            }
            FdPathError::TooLong => text_of(alloc, "Path returned from readlink is too long"),
            FdPathError::InvalidCString(place) => Ok(from_string(format!(in alloc;
                "readlink returned invalid path: nul byte at {place}"
            )?)),
            FdPathError::NotAFile(path) => around(alloc, "Not a file (", path.as_slice(), ")"),
            FdPathError::Deleted(path) => around(alloc, "Inode deleted (", path.as_slice(), ")"),
            FdPathError::Memory => text_of(alloc, "no memory"),
        }
    }
}

/// The same with U+FFFD for what is no character.
impl fmt::Display for FdPathError {
    ghost use Rattle.std.specs.Prelude.{Some};
    ghost use Rattle.pt_handles.specs.Texts.{fd_path_text, printed};

    ghost output = { λ error. Some (fd_path_text printed error) };

    fn fmt<W: fmt::Write>(&self, f: &mut fmt::Formatter<W>) -> fmt::Result {
        match self {
            FdPathError::ReadLink(errno) => {
                let number = errno.0;
                write!(f, "readlink: os error {number}")
            }
            FdPathError::TooLong => f.write_str("Path returned from readlink is too long"),
            FdPathError::InvalidCString(place) => {
                write!(f, "readlink returned invalid path: nul byte at {place}")
            }
            FdPathError::NotAFile(path) => {
                let path = BStr::new(path.as_slice());
                write!(f, "Not a file ({path})")
            }
            FdPathError::Deleted(path) => {
                let path = BStr::new(path.as_slice());
                write!(f, "Inode deleted ({path})")
            }
            FdPathError::Memory => f.write_str("no memory"),
        }
    }
}

impl Error for FdPathError {}

impl InodePathError {
    /// Its text, with the path as it is, which may be no UTF-8.
    pub fn text(&self, alloc: Global) -> Result<Bytes, AllocError>
        ensures { IfOk result (λ text. text ≡ inode_path_text as_it_is self.now) }
    {
        match self {
            InodePathError::NoFd(errno) => errno_text(alloc, *errno),
            InodePathError::FdPathError(why) => why.text(alloc),
            InodePathError::OutsideRoot => text_of(
                alloc,
                "Got empty path for non-root node, so it is outside the shared directory",
            ),
        }
    }
}

/// The same with U+FFFD for what is no character.
impl fmt::Display for InodePathError {
    ghost use Rattle.std.specs.Prelude.{Some};
    ghost use Rattle.pt_handles.specs.Texts.{inode_path_text, printed};

    ghost output = { λ error. Some (inode_path_text printed error) };

    fn fmt<W: fmt::Write>(&self, f: &mut fmt::Formatter<W>) -> fmt::Result {
        match self {
            InodePathError::NoFd(errno) => {
                let number = errno.0;
                write!(f, "os error {number}")
            }
            InodePathError::FdPathError(why) => write!(f, "{why}"),
            InodePathError::OutsideRoot => f.write_str(
                "Got empty path for non-root node, so it is outside the shared directory",
            ),
        }
    }
}

impl Error for InodePathError {}
