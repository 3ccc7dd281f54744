//! The error of a mount.

ghost use Rattle.std.specs.Prelude.{◌≡◌, ◌++◌, IfOk, IfErr, codes};
ghost use Rattle.std.specs.Fmt.{WritesOnOk};
ghost use Rattle.pt_handles.specs.Texts.{as_it_is, printed};
ghost use Rattle.pt_handles.specs.MountErrors.{mount_text, mount_error_text};
ghost use Rattle.pt_handles.specs.declared.mount_error.MountError.TheVariants.{Memory};

use crate::text::{around, from_string};
use bstr::BStr;
use pt_host::{Bytes, Errno};
use std::alloc::{AllocError, Global};
use std::error::Error;
use std::fmt;

/// An error that has to do with a mount, and which mount that is, as far as it is known.
#[derive(Debug, Drop)]
pub struct MPRError {
    pub errno: Errno,
    /// What is told of it beside the mount.
    pub description: Bytes,
    /// One of its mount was told already, or of too many others.
    pub silent: bool,
    pub fs_mount_id: Option<u64>,
    /// The mount point.
    pub fs_mount_root: Option<Bytes>,
}

/// Why a call that has to do with a mount is refused.
#[derive(Debug, Drop)]
pub enum MountError {
    Failed(MPRError),
    Memory,
}

impl From<AllocError> for MountError {
    ghost use Rattle.pt_handles.specs.declared.mount_error.MountError.TheVariants.{Memory};

    ghost from_gives = { λ error result. result ≡ Memory };

    fn from(_: AllocError) -> MountError {
        MountError::Memory
    }
}

pub type MPRResult<T> = Result<T, MountError>;

impl MPRError {
    /// The error with another description.
    pub fn set_desc(self, description: Bytes) -> MPRError
        ensures { result ≡ record self { description = description } }
    {
        MPRError {
            description,
            ..self
        }
    }

    /// The error with a text and `: ` in front of the description.
    pub fn prefix(self, s: Bytes) -> MPRResult<MPRError>
        ensures ok { IfOk result (λ error.
            error ≡ record self { description = s ++ (codes ": " ++ self.description) }) }
        ensures alone { IfErr result (λ why. why ≡ Memory) }
    {
        let mut description = s.into_vec();
        description.extend_from_slice(b": ")?;
        description.extend_from_slice(self.description.as_slice())?;
        Ok(self.set_desc(Bytes::from_vec(description)))
    }

    /// Whether it is not to be logged.
    pub fn silent(&self) -> bool
        ensures { result ≡ self.now.silent }
    {
        self.silent
    }

    /// The error number alone.
    pub fn into_inner(self) -> Errno
        ensures { result ≡ self.errno }
    {
        self.errno
    }

    /// Which mount it is, as far as it is known.
    fn mount_text(&self, alloc: Global) -> Result<Bytes, AllocError>
        ensures { IfOk result (λ text. text ≡ mount_text as_it_is self.now.fs_mount_id self.now.fs_mount_root) }
    {
        let front = "Filesystem mounted on \"";
        match (self.fs_mount_id, &self.fs_mount_root) {
            (None, None) => Ok(Bytes::new(alloc)),
            (Some(id), None) => {
                let text = format!(in alloc; "Filesystem with mount ID {id}: ")?;
                Ok(from_string(text))
            }
            (None, Some(root)) => around(alloc, front, root.as_slice(), "\": "),
            (Some(id), Some(root)) => {
                let back = format!(in alloc; "\" (mount ID: {id}): ")?;
                around(alloc, front, root.as_slice(), back.as_str())
            }
        }
    }

    /// The same, with U+FFFD for what is no character.
    fn show_mount<W: fmt::Write>(&self, f: &mut fmt::Formatter<W>) -> fmt::Result
        ensures { WritesOnOk W.write_str_gives f.old result
            (mount_text printed self.now.fs_mount_id self.now.fs_mount_root) f.new }
    {
        match (self.fs_mount_id, &self.fs_mount_root) {
            (None, None) => Ok(()),
            (Some(id), None) => write!(f, "Filesystem with mount ID {id}: "),
            (None, Some(root)) => {
                let root = BStr::new(root.as_slice());
                write!(f, "Filesystem mounted on \"{root}\": ")
            }
            (Some(id), Some(root)) => {
                let root = BStr::new(root.as_slice());
                write!(f, "Filesystem mounted on \"{root}\" (mount ID: {id}): ")
            }
        }
    }

    /// Its text, with mount point and description as they are, which may be no UTF-8.
    pub fn text(&self, alloc: Global) -> Result<Bytes, AllocError>
        ensures { IfOk result (λ text. text ≡ mount_error_text as_it_is self.now) }
    {
        let mut text = self.mount_text(alloc)?.into_vec();
        text.extend_from_slice(self.description.as_slice())?;
        Ok(Bytes::from_vec(text))
    }
}

/// The same with U+FFFD for what is no character.
impl fmt::Display for MPRError {
    ghost use Rattle.std.specs.Prelude.{Some};
    ghost use Rattle.pt_handles.specs.Texts.{printed};
    ghost use Rattle.pt_handles.specs.MountErrors.{mount_error_text};

    ghost output = { λ error. Some (mount_error_text printed error) };

    fn fmt<W: fmt::Write>(&self, f: &mut fmt::Formatter<W>) -> fmt::Result {
        self.show_mount(f)?;
        let description = BStr::new(self.description.as_slice());
        write!(f, "{description}")
    }
}

impl Error for MPRError {}
