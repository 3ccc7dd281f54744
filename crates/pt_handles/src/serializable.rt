//! File handles as plain data.

ghost use Rattle.std.specs.Prelude.{◌≡◌, ◌≤◌, ◌↔◌, ◌++◌, IfOk, IfErr, OnOk, IsOk, length};
ghost use Rattle.std.specs.List.{flat_map};
ghost use Rattle.std.specs.Fmt.{WritesOnOk};
ghost use Rattle.pt_handles.specs.Serial.{hex_byte};
ghost use Rattle.pt_handles.specs.Serial.{IsSerialOf, IsSerialFrom, Differ, HandlesDiffer, TellsDifference};
ghost use Rattle.pt_handles.specs.Serial.{openable_of};
ghost use Rattle.pt_handles.specs.declared.error.HandleError.TheVariants.{TooLong};

use crate::error::HandleError;
use crate::file_handle::from_fd_fail_hard;
use crate::mount_fd::MountFd;
use crate::openable::{FileOrHandle, OpenableFileHandle};
use crate::text::from_string;
use pt_host::{Bytes, CFileHandle, FileHandle, HandleBytes, Host, HostSeat};
use std::alloc::{AllocError, Global};
use std::fmt;

/// A file handle as plain data, of any length. Its mount may be another host's.
#[derive(Debug, Drop)]
pub struct SerializableFileHandle {
    pub mnt_id: u64,
    pub handle_type: i32,
    pub handle: Bytes,
}

/// Why two handles are not found to be equal.
#[derive(Debug, Drop)]
pub enum EqualError {
    /// They differ, and in what first.
    Differs(Bytes),
    Memory,
}

impl From<AllocError> for EqualError {
    ghost use Rattle.pt_handles.specs.declared.serializable.EqualError.TheVariants.{Memory};

    ghost from_gives = { λ error result. result ≡ Memory };

    fn from(_: AllocError) -> EqualError {
        EqualError::Memory
    }
}

/// Bytes in hexadecimal, each behind this text.
#[derive(Clone, Copy)]
struct Hex<'a> {
    before: &'a str,
    bytes: &'a [u8],
}

impl fmt::Display for Hex<'_> {
    ghost use Rattle.std.specs.Prelude.{Some, ◌++◌};
    ghost use Rattle.std.specs.List.{flat_map};
    ghost use Rattle.pt_handles.specs.Serial.{hex_byte};

    ghost output = { λ hex. Some (flat_map (λ byte. hex.before.now ++ hex_byte byte) hex.bytes.now) };

    fn fmt<W: fmt::Write>(&self, f: &mut fmt::Formatter<W>) -> fmt::Result {
        write_hex(self.before, self.bytes, f)
    }
}

fn write_hex<W: fmt::Write>(before: &str, bytes: &[u8], f: &mut fmt::Formatter<W>) -> fmt::Result
    ensures { WritesOnOk W.write_str_gives f.old result
        (flat_map (λ byte. before.now ++ hex_byte byte) bytes.now) f.new }
{
    for byte in bytes {
        write!(f, "{before}{byte:02x}")?;
    }
    Ok(())
}

impl SerializableFileHandle {
    /// A copy of a handle.
    pub fn from_handle(
        alloc: Global,
        handle: &FileHandle,
    ) -> Result<SerializableFileHandle, HandleError>
        ensures { IsSerialOf handle.now result }
    {
        match Bytes::from_slice(alloc, handle.handle.as_bytes()) {
            Ok(bytes) => Ok(SerializableFileHandle {
                mnt_id: handle.mnt_id,
                handle_type: handle.handle.handle_type(),
                handle: bytes,
            }),
            Err(AllocError) => Err(HandleError::Memory),
        }
    }

    /// The handle of what an object is opened by, which the host is asked for where that is a descriptor.
    pub fn from_file_or_handle<H: Host>(
        alloc: Global,
        host: &mut H,
        seat: &mut HostSeat,
        from: &FileOrHandle,
    ) -> Result<SerializableFileHandle, HandleError>
        ensures { IsSerialFrom H.does from.now host.old seat.old result host.new seat.new }
    {
        match from {
            FileOrHandle::Handle(openable) => {
                SerializableFileHandle::from_handle(alloc, openable.inner())
            }
            FileOrHandle::File(fd) => match from_fd_fail_hard(host, seat, *fd) {
                Ok(handle) => SerializableFileHandle::from_handle(alloc, &handle),
                Err(why) => Err(why),
            },
        }
    }

    /// That both stand for one object, whichever mount it was found on. Else what they differ in first.
    pub fn require_equal_without_mount_id(
        &self,
        alloc: Global,
        other: &SerializableFileHandle,
    ) -> Result<(), EqualError>
        ensures ok { OnOk result ((self.now.handle_type ≡ other.now.handle_type)
            × (self.now.handle ≡ other.now.handle)) }
        ensures err { IfErr result (λ why. TellsDifference (HandlesDiffer self.now other.now) why) }
    {
        let (one, two) = (self.handle_type, other.handle_type);
        if one != two {
            let text = format!(in alloc; "File handle type differs: 0x{one:x} != 0x{two:x}")?;
            return Err(EqualError::Differs(from_string(text)));
        }
        if self.handle != other.handle {
            let one = Hex {
                before: " ",
                bytes: self.as_bytes(),
            };
            let two = Hex {
                before: " ",
                bytes: other.as_bytes(),
            };
            let text = format!(in alloc; "File handle differs:{one} !={two}")?;
            return Err(EqualError::Differs(from_string(text)));
        }
        Ok(())
    }

    /// That both are the same. Else what they differ in first.
    pub fn require_equal(
        &self,
        alloc: Global,
        other: &SerializableFileHandle,
    ) -> Result<(), EqualError>
        ensures ok { OnOk result (self.now ≡ other.now) }
        ensures err { IfErr result (λ why. TellsDifference (Differ self.now other.now) why) }
    {
        let (one, two) = (self.mnt_id, other.mnt_id);
        if one != two {
            let text = format!(in alloc; "File handle mount ID differs: {one} != {two}")?;
            return Err(EqualError::Differs(from_string(text)));
        }
        self.require_equal_without_mount_id(alloc, other)
    }

    /// The handle's bytes.
    pub fn as_bytes(&self) -> &[u8]
        ensures { result.now ≡ self.now.handle }
    {
        self.handle.as_slice()
    }

    /// The handle's type.
    pub fn handle_type(&self) -> i32
        ensures { result ≡ self.now.handle_type }
    {
        self.handle_type
    }

    /// The mount on which the handle was found.
    pub fn mount_id(&self) -> u64
        ensures { result ≡ self.now.mnt_id }
    {
        self.mnt_id
    }

    /// The handle with a holder of a mount on which it is to be good. The holder comes back where the handle has more
    /// than 128 bytes. Takes no memory.
    pub fn to_openable(
        &self,
        mount_fd: MountFd,
    ) -> Result<OpenableFileHandle, (HandleError, MountFd)>
        ensures fits { IsOk result ↔ (length self.now.handle ≤ 128) }
        ensures ok { IfOk result (λ openable. openable ≡ openable_of self.now mount_fd) }
        ensures err { IfErr result (λ refused. (refused.0 ≡ TooLong) × (refused.1 ≡ mount_fd)) }
    {
        let Some(bytes) = HandleBytes::from_slice(self.as_bytes()) else {
            return Err((HandleError::TooLong, mount_fd));
        };
        let handle = CFileHandle {
            handle_type: self.handle_type,
            bytes,
        };
        Ok(OpenableFileHandle {
            handle: FileHandle {
                mnt_id: mount_fd.mount_id,
                handle,
            },
            mount_fd,
        })
    }
}

impl fmt::Display for SerializableFileHandle {
    ghost use Rattle.std.specs.Prelude.{Some};
    ghost use Rattle.pt_handles.specs.Serial.{serial_text};

    ghost output = { λ serial. Some (serial_text serial) };

    fn fmt<W: fmt::Write>(&self, f: &mut fmt::Formatter<W>) -> fmt::Result {
        let (mount, kind) = (self.mnt_id, self.handle_type);
        let bytes = Hex {
            before: "",
            bytes: self.as_bytes(),
        };
        write!(
            f,
            "mount_id={mount}, handle_type=0x{kind:x}, handle={bytes}"
        )
    }
}
