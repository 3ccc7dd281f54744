ghost use Rattle.std.specs.Prelude.{◌≡◌, ◌++◌, OnOk};
ghost use Rattle.pt_host.specs.Call.{call_of};
ghost use Rattle.pt_host.specs.CallGroups.{
  IsOfSeat,
  IsOnAttributes,
  IsOnContents,
  IsOnNames,
  OpensOrCloses,
  TellsObject,
};
ghost use Rattle.pt_show.specs.HostTexts.{caps_text, groups_text, time_set_text, call_text};

use crate::plain::{push_five, push_four, push_name, push_named, push_three, push_two};
use crate::text::Text;
use pt_host::{Caps, GroupList, HostOp, KeptHostOp, TimeSet};
use std::alloc::AllocError;
use std::slice;

impl Text for Caps {
    ghost text = { caps_text };

    fn write(&self, out: &mut Vec<u8>) -> Result<(), AllocError> {
        self.0.write(out)
    }
}

impl Text for GroupList {
    ghost text = { groups_text };

    fn write(&self, out: &mut Vec<u8>) -> Result<(), AllocError> {
        self.as_slice().write(out)
    }
}

impl Text for TimeSet {
    ghost text = { time_set_text };

    fn write(&self, out: &mut Vec<u8>) -> Result<(), AllocError> {
        match self {
            TimeSet::Omit => push_name(out, b" Omit"),
            TimeSet::Now => push_name(out, b" Now"),
            TimeSet::At(time) => push_named(out, b" At", time),
        }
    }
}

// The calls in groups, by what they are on.

fn push_opening(out: &mut Vec<u8>, op: &HostOp<'_>) -> Result<(), AllocError>
    requires { OpensOrCloses op.now }
    ensures { OnOk result (out.new.items ≡ out.old.items ++ call_text (call_of op.now)) }
{
    match op {
        HostOp::OpenRoot { path, flags } => push_two(out, b" OpenRoot", path, flags),
        HostOp::OpenPath { fd, path, flags } => push_three(out, b" OpenPath", fd, path, flags),
        HostOp::OpenAt {
            fd,
            name,
            flags,
            mode,
        } => push_four(out, b" OpenAt", fd, name, flags, mode),
        HostOp::Reopen { fd, flags } => push_two(out, b" Reopen", fd, flags),
        HostOp::OpenByHandle { fd, handle, flags } => push_three(
            out,
            b" OpenByHandle",
            fd,
            handle,
            flags,
        ),
        HostOp::Close { fd } => push_named(out, b" Close", fd),
        _ => unreachable!(),
    }
}

fn push_telling(out: &mut Vec<u8>, op: &HostOp<'_>) -> Result<(), AllocError>
    requires { TellsObject op.now }
    ensures { OnOk result (out.new.items ≡ out.old.items ++ call_text (call_of op.now)) }
{
    match op {
        HostOp::Stat { fd } => push_named(out, b" Stat", fd),
        HostOp::HandleOf { fd } => push_named(out, b" HandleOf", fd),
        HostOp::StatFs { fd } => push_named(out, b" StatFs", fd),
        HostOp::ReadLink { fd } => push_named(out, b" ReadLink", fd),
        HostOp::FdPath { fd } => push_named(out, b" FdPath", fd),
        HostOp::MountInfo => push_name(out, b" MountInfo"),
        _ => unreachable!(),
    }
}

fn push_on_names(out: &mut Vec<u8>, op: &HostOp<'_>) -> Result<(), AllocError>
    requires { IsOnNames op.now }
    ensures { OnOk result (out.new.items ≡ out.old.items ++ call_text (call_of op.now)) }
{
    match op {
        HostOp::MakeDir { fd, name, mode } => push_three(out, b" MakeDir", fd, name, mode),
        HostOp::MakeNode {
            fd,
            name,
            mode,
            rdev,
        } => push_four(out, b" MakeNode", fd, name, mode, rdev),
        HostOp::MakeLink { from, fd, name } => push_three(out, b" MakeLink", from, fd, name),
        HostOp::SymLink { fd, name, target } => push_three(out, b" SymLink", fd, name, target),
        HostOp::Unlink { fd, name } => push_two(out, b" Unlink", fd, name),
        HostOp::RemoveDir { fd, name } => push_two(out, b" RemoveDir", fd, name),
        HostOp::Rename {
            fd,
            name,
            fd2,
            name2,
            flags,
        } => push_five(out, b" Rename", fd, name, fd2, name2, flags),
        _ => unreachable!(),
    }
}

fn push_on_contents(out: &mut Vec<u8>, op: &HostOp<'_>) -> Result<(), AllocError>
    requires { IsOnContents op.now }
    ensures { OnOk result (out.new.items ≡ out.old.items ++ call_text (call_of op.now)) }
{
    match op {
        HostOp::ReadAt { fd, offset, size } => push_three(out, b" ReadAt", fd, offset, size),
        HostOp::WriteAt {
            fd,
            offset,
            bytes,
            append,
        } => push_four(out, b" WriteAt", fd, offset, bytes, append),
        HostOp::Truncate { fd, size } => push_two(out, b" Truncate", fd, size),
        HostOp::Allocate {
            fd,
            mode,
            offset,
            length,
        } => push_four(out, b" Allocate", fd, mode, offset, length),
        HostOp::Seek { fd, offset, whence } => push_three(out, b" Seek", fd, offset, whence),
        HostOp::CopyRange {
            fd,
            offset,
            fd2,
            offset2,
            length,
            flags,
        } => {
            push_five(out, b" CopyRange", fd, offset, fd2, offset2, length)?;
            flags.write(out)
        }
        HostOp::ListAt { fd, offset, size } => push_three(out, b" ListAt", fd, offset, size),
        HostOp::Flush { fd } => push_named(out, b" Flush", fd),
        HostOp::Sync { fd, datasync } => push_two(out, b" Sync", fd, datasync),
        HostOp::SyncFs { fd } => push_named(out, b" SyncFs", fd),
        _ => unreachable!(),
    }
}

fn push_on_attributes(out: &mut Vec<u8>, op: &HostOp<'_>) -> Result<(), AllocError>
    requires { IsOnAttributes op.now }
    ensures { OnOk result (out.new.items ≡ out.old.items ++ call_text (call_of op.now)) }
{
    match op {
        HostOp::ChMod { fd, through, mode } => push_three(out, b" ChMod", fd, through, mode),
        HostOp::ChOwn { fd, uid, gid } => push_three(out, b" ChOwn", fd, uid, gid),
        HostOp::SetTimes {
            fd,
            through,
            atime,
            mtime,
        } => push_four(out, b" SetTimes", fd, through, atime, mtime),
        HostOp::SetXattr {
            fd,
            through,
            name,
            value,
            flags,
        } => push_five(out, b" SetXattr", fd, through, name, value, flags),
        HostOp::GetXattr {
            fd,
            through,
            name,
            size,
        } => push_four(out, b" GetXattr", fd, through, name, size),
        HostOp::ListXattr { fd, through, size } => push_three(
            out,
            b" ListXattr",
            fd,
            through,
            size,
        ),
        HostOp::RemoveXattr { fd, through, name } => push_three(
            out,
            b" RemoveXattr",
            fd,
            through,
            name,
        ),
        _ => unreachable!(),
    }
}

fn push_of_seat(out: &mut Vec<u8>, op: &HostOp<'_>) -> Result<(), AllocError>
    requires { IsOfSeat op.now }
    ensures { OnOk result (out.new.items ≡ out.old.items ++ call_text (call_of op.now)) }
{
    match op {
        HostOp::SetGroups { list } => push_named(out, b" SetGroups", list),
        HostOp::SetEgid { gid } => push_named(out, b" SetEgid", gid),
        HostOp::SetEuid { uid } => push_named(out, b" SetEuid", uid),
        HostOp::RaiseCap { caps } => push_named(out, b" RaiseCap", caps),
        HostOp::DropCap { caps } => push_named(out, b" DropCap", caps),
        HostOp::SetUmask { mask } => push_named(out, b" SetUmask", mask),
        _ => unreachable!(),
    }
}

impl Text for HostOp<'_> {
    ghost text = { λ op. call_text (call_of op) };

    fn write(&self, out: &mut Vec<u8>) -> Result<(), AllocError> {
        match self {
            HostOp::OpenRoot { .. }
            | HostOp::OpenPath { .. }
            | HostOp::OpenAt { .. }
            | HostOp::Reopen { .. }
            | HostOp::OpenByHandle { .. }
            | HostOp::Close { .. } => push_opening(out, self),
            HostOp::Stat { .. }
            | HostOp::HandleOf { .. }
            | HostOp::StatFs { .. }
            | HostOp::ReadLink { .. }
            | HostOp::FdPath { .. }
            | HostOp::MountInfo => push_telling(out, self),
            HostOp::MakeDir { .. }
            | HostOp::MakeNode { .. }
            | HostOp::MakeLink { .. }
            | HostOp::SymLink { .. }
            | HostOp::Unlink { .. }
            | HostOp::RemoveDir { .. }
            | HostOp::Rename { .. } => push_on_names(out, self),
            HostOp::ReadAt { .. }
            | HostOp::WriteAt { .. }
            | HostOp::Truncate { .. }
            | HostOp::Allocate { .. }
            | HostOp::Seek { .. }
            | HostOp::CopyRange { .. }
            | HostOp::ListAt { .. }
            | HostOp::Flush { .. }
            | HostOp::Sync { .. }
            | HostOp::SyncFs { .. } => push_on_contents(out, self),
            HostOp::ChMod { .. }
            | HostOp::ChOwn { .. }
            | HostOp::SetTimes { .. }
            | HostOp::SetXattr { .. }
            | HostOp::GetXattr { .. }
            | HostOp::ListXattr { .. }
            | HostOp::RemoveXattr { .. } => push_on_attributes(out, self),
            HostOp::SetGroups { .. }
            | HostOp::SetEgid { .. }
            | HostOp::SetEuid { .. }
            | HostOp::RaiseCap { .. }
            | HostOp::DropCap { .. }
            | HostOp::SetUmask { .. } => push_of_seat(out, self),
            HostOp::SetGroup { group } => push_named(out, b" SetGroups", &slice::from_ref(group)),
            HostOp::Edit(edit) => push_named(out, b" Edit", edit),
        }
    }
}

impl Text for KeptHostOp {
    ghost text = { call_text };

    fn write(&self, out: &mut Vec<u8>) -> Result<(), AllocError> {
        self.lend().write(out)
    }
}
