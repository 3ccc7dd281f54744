//! Calls of extended attributes, with names that the request or what it made lends them.

ghost use Rattle.std.specs.Prelude.{◌≡◌, Some};
ghost use Rattle.pt_host.specs.Call.{call_of};
ghost use Rattle.pt_host.specs.declared.op.KeptHostOp.TheVariants as call;

use crate::parts::XattrFile;
use pt_host::{Bytes, Fd, HostOp};

/// `setxattr(2)`.
pub fn set_xattr<'a>(file: XattrFile, name: &'a Bytes, value: &'a Bytes, flags: u32) -> HostOp<'a>
    ensures { call_of result ≡ call.SetXattr file.fd file.through name.now value.now flags }
{
    HostOp::SetXattr {
        fd: file.fd,
        through: file.through,
        name: name.as_slice(),
        value: value.as_slice(),
        flags,
    }
}

/// `getxattr(2)`.
pub fn get_xattr<'a>(file: XattrFile, name: &'a Bytes, size: u32) -> HostOp<'a>
    ensures { call_of result ≡ call.GetXattr file.fd file.through name.now size }
{
    HostOp::GetXattr {
        fd: file.fd,
        through: file.through,
        name: name.as_slice(),
        size,
    }
}

/// `listxattr(2)`.
pub fn list_xattr<'a>(file: XattrFile, size: u32) -> HostOp<'a>
    ensures { call_of result ≡ call.ListXattr file.fd file.through size }
{
    HostOp::ListXattr {
        fd: file.fd,
        through: file.through,
        size,
    }
}

/// `removexattr(2)`.
pub fn remove_xattr<'a>(file: XattrFile, name: &'a Bytes) -> HostOp<'a>
    ensures { call_of result ≡ call.RemoveXattr file.fd file.through name.now }
{
    HostOp::RemoveXattr {
        fd: file.fd,
        through: file.through,
        name: name.as_slice(),
    }
}

/// `getdents64(2)` from an offset on.
pub fn list_at<'a>(fd: Fd, offset: u64, size: u32) -> HostOp<'a>
    ensures { call_of result ≡ call.ListAt fd (Some offset) size }
{
    HostOp::ListAt {
        fd,
        offset: Some(offset),
        size,
    }
}
