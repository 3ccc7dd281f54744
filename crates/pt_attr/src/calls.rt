//! Calls with bytes that the request lends them, and one with an offset that is signed.

ghost use Rattle.std.specs.Int.{w64, cast_signed};
ghost use Rattle.std.specs.Prelude.{◌≡◌};
ghost use Rattle.pt_host.specs.Call.{call_of};
ghost use Rattle.pt_host.specs.declared.op.KeptHostOp.TheVariants as call;

use pt_host::{Bytes, Fd, HostOp};

/// `mkdirat(2)`.
pub fn make_dir<'a>(fd: Fd, name: &'a Bytes, mode: u32) -> HostOp<'a>
    ensures { call_of result ≡ call.MakeDir fd name.now mode }
{
    let name = name.as_slice();
    HostOp::MakeDir { fd, name, mode }
}

/// `mknodat(2)`.
pub fn make_node<'a>(fd: Fd, name: &'a Bytes, mode: u32, rdev: u32) -> HostOp<'a>
    ensures { call_of result ≡ call.MakeNode fd name.now mode rdev }
{
    let name = name.as_slice();
    HostOp::MakeNode {
        fd,
        name,
        mode,
        rdev,
    }
}

/// `symlinkat(2)`.
pub fn make_symlink<'a>(fd: Fd, name: &'a Bytes, target: &'a Bytes) -> HostOp<'a>
    ensures { call_of result ≡ call.SymLink fd name.now target.now }
{
    let name = name.as_slice();
    let target = target.as_slice();
    HostOp::SymLink { fd, name, target }
}

/// `linkat(2)` of what `from` is open on.
pub fn make_link<'a>(from: Fd, fd: Fd, name: &'a Bytes) -> HostOp<'a>
    ensures { call_of result ≡ call.MakeLink from fd name.now }
{
    let name = name.as_slice();
    HostOp::MakeLink { from, fd, name }
}

/// `unlinkat(2)`.
pub fn unlink_name<'a>(fd: Fd, name: &'a Bytes) -> HostOp<'a>
    ensures { call_of result ≡ call.Unlink fd name.now }
{
    let name = name.as_slice();
    HostOp::Unlink { fd, name }
}

/// `unlinkat(2)` with `AT_REMOVEDIR`.
pub fn remove_dir<'a>(fd: Fd, name: &'a Bytes) -> HostOp<'a>
    ensures { call_of result ≡ call.RemoveDir fd name.now }
{
    let name = name.as_slice();
    HostOp::RemoveDir { fd, name }
}

/// `renameat2(2)`.
pub fn rename_name<'a>(fd: Fd, name: &'a Bytes, fd2: Fd, name2: &'a Bytes, flags: u32) -> HostOp<'a>
    ensures { call_of result ≡ call.Rename fd name.now fd2 name2.now flags }
{
    let name = name.as_slice();
    let name2 = name2.as_slice();
    HostOp::Rename {
        fd,
        name,
        fd2,
        name2,
        flags,
    }
}

/// `pwritev2(2)`.
pub fn write_at<'a>(fd: Fd, offset: u64, bytes: &'a Bytes, append: bool) -> HostOp<'a>
    ensures { call_of result ≡ call.WriteAt fd offset bytes.now append }
{
    let bytes = bytes.as_slice();
    HostOp::WriteAt {
        fd,
        offset,
        bytes,
        append,
    }
}

/// `lseek(2)`, by an offset that is taken as signed.
pub fn seek_to<'a>(fd: Fd, offset: u64, whence: u32) -> HostOp<'a>
    ensures { call_of result ≡ call.Seek fd (cast_signed w64 offset) whence }
{
    let offset = offset.cast_signed();
    HostOp::Seek { fd, offset, whence }
}
