ghost use Rattle.std.specs.Prelude.{◌≡◌, IfOk, OnErr};
ghost use Rattle.pt_host.specs.Call.{call_of, HoldsBytes};
ghost use Rattle.pt_host.specs.Texts.{HoldsText, HoldsTexts, IsPlain};

use crate::bytes::Bytes;
use crate::groups::GroupList;
use crate::op::{HostOp, KeptHostOp};
use std::alloc::{AllocError, Global};
use std::slice;

impl<'a> HostOp<'a> {
    /// The same call with bytes of its own.
    pub fn keep(&self, alloc: Global) -> Result<KeptHostOp, AllocError>
        ensures ok { IfOk result (λ kept. kept ≡ call_of self.now) }
        ensures err { OnErr result (HoldsBytes (call_of self.now)) }
    {
        match self {
            HostOp::OpenRoot { path: text, .. }
            | HostOp::OpenPath { path: text, .. }
            | HostOp::OpenAt { name: text, .. }
            | HostOp::MakeDir { name: text, .. }
            | HostOp::MakeNode { name: text, .. }
            | HostOp::MakeLink { name: text, .. }
            | HostOp::Unlink { name: text, .. }
            | HostOp::RemoveDir { name: text, .. }
            | HostOp::WriteAt { bytes: text, .. }
            | HostOp::GetXattr { name: text, .. }
            | HostOp::RemoveXattr { name: text, .. } => {
                let text = Bytes::from_slice(alloc, text)?;
                Ok(self.with_text(text))
            }
            HostOp::SymLink {
                name: text,
                target: other,
                ..
            }
            | HostOp::Rename {
                name: text,
                name2: other,
                ..
            }
            | HostOp::SetXattr {
                name: text,
                value: other,
                ..
            } => {
                let text = Bytes::from_slice(alloc, text)?;
                let other = Bytes::from_slice(alloc, other)?;
                Ok(self.with_texts(text, other))
            }
            HostOp::SetGroups { list } => {
                let list = GroupList::from_slice(alloc, list)?;
                Ok(KeptHostOp::SetGroups { list })
            }
            HostOp::SetGroup { group } => {
                let list = GroupList::from_slice(alloc, slice::from_ref(group))?;
                Ok(KeptHostOp::SetGroups { list })
            }
            HostOp::Edit(edit) => {
                let edit = edit.copy(alloc)?;
                Ok(KeptHostOp::Edit(edit))
            }
            _ => Ok(self.keep_plain()),
        }
    }

    /// The same call, whose one text is this.
    fn with_text(&self, text: Bytes) -> KeptHostOp
        requires { HoldsText (call_of self.now) text }
        ensures { result ≡ call_of self.now }
    {
        match self {
            HostOp::OpenRoot { flags, .. } => KeptHostOp::OpenRoot {
                path: text,
                flags: *flags,
            },
            HostOp::OpenPath { fd, flags, .. } => KeptHostOp::OpenPath {
                fd: *fd,
                path: text,
                flags: *flags,
            },
            HostOp::OpenAt {
                fd,
                flags,
                mode,
                ..
            } => KeptHostOp::OpenAt {
                fd: *fd,
                name: text,
                flags: *flags,
                mode: *mode,
            },
            HostOp::MakeDir { fd, mode, .. } => KeptHostOp::MakeDir {
                fd: *fd,
                name: text,
                mode: *mode,
            },
            HostOp::MakeNode { fd, mode, rdev, .. } => KeptHostOp::MakeNode {
                fd: *fd,
                name: text,
                mode: *mode,
                rdev: *rdev,
            },
            HostOp::MakeLink { from, fd, .. } => KeptHostOp::MakeLink {
                from: *from,
                fd: *fd,
                name: text,
            },
            HostOp::Unlink { fd, .. } => KeptHostOp::Unlink {
                fd: *fd,
                name: text,
            },
            HostOp::RemoveDir { fd, .. } => KeptHostOp::RemoveDir {
                fd: *fd,
                name: text,
            },
            HostOp::WriteAt {
                fd,
                offset,
                append,
                ..
            } => KeptHostOp::WriteAt {
                fd: *fd,
                offset: *offset,
                bytes: text,
                append: *append,
            },
            HostOp::GetXattr {
                fd,
                through,
                size,
                ..
            } => KeptHostOp::GetXattr {
                fd: *fd,
                through: *through,
                name: text,
                size: *size,
            },
            HostOp::RemoveXattr { fd, through, .. } => KeptHostOp::RemoveXattr {
                fd: *fd,
                through: *through,
                name: text,
            },
            _ => unreachable!(),
        }
    }

    /// The same call, whose two texts are these.
    fn with_texts(&self, text: Bytes, other: Bytes) -> KeptHostOp
        requires { HoldsTexts (call_of self.now) text other }
        ensures { result ≡ call_of self.now }
    {
        match self {
            HostOp::SymLink { fd, .. } => KeptHostOp::SymLink {
                fd: *fd,
                name: text,
                target: other,
            },
            HostOp::Rename { fd, fd2, flags, .. } => KeptHostOp::Rename {
                fd: *fd,
                name: text,
                fd2: *fd2,
                name2: other,
                flags: *flags,
            },
            HostOp::SetXattr {
                fd,
                through,
                flags,
                ..
            } => KeptHostOp::SetXattr {
                fd: *fd,
                through: *through,
                name: text,
                value: other,
                flags: *flags,
            },
            _ => unreachable!(),
        }
    }

    /// The same call, which has no bytes that lie elsewhere.
    fn keep_plain(&self) -> KeptHostOp
        requires { IsPlain (call_of self.now) }
        ensures { result ≡ call_of self.now }
    {
        match self {
            HostOp::Reopen { fd, flags } => KeptHostOp::Reopen {
                fd: *fd,
                flags: *flags,
            },
            HostOp::OpenByHandle { fd, handle, flags } => KeptHostOp::OpenByHandle {
                fd: *fd,
                handle: handle.copy(),
                flags: *flags,
            },
            HostOp::Close { fd } => KeptHostOp::Close { fd: *fd },
            HostOp::Stat { fd } => KeptHostOp::Stat { fd: *fd },
            HostOp::HandleOf { fd } => KeptHostOp::HandleOf { fd: *fd },
            HostOp::StatFs { fd } => KeptHostOp::StatFs { fd: *fd },
            HostOp::ReadLink { fd } => KeptHostOp::ReadLink { fd: *fd },
            HostOp::FdPath { fd } => KeptHostOp::FdPath { fd: *fd },
            HostOp::MountInfo => KeptHostOp::MountInfo,
            HostOp::ReadAt { fd, offset, size } => KeptHostOp::ReadAt {
                fd: *fd,
                offset: *offset,
                size: *size,
            },
            HostOp::Truncate { fd, size } => KeptHostOp::Truncate {
                fd: *fd,
                size: *size,
            },
            HostOp::Allocate {
                fd,
                mode,
                offset,
                length,
            } => KeptHostOp::Allocate {
                fd: *fd,
                mode: *mode,
                offset: *offset,
                length: *length,
            },
            HostOp::Seek { fd, offset, whence } => KeptHostOp::Seek {
                fd: *fd,
                offset: *offset,
                whence: *whence,
            },
            HostOp::CopyRange {
                fd,
                offset,
                fd2,
                offset2,
                length,
                flags,
            } => KeptHostOp::CopyRange {
                fd: *fd,
                offset: *offset,
                fd2: *fd2,
                offset2: *offset2,
                length: *length,
                flags: *flags,
            },
            HostOp::ListAt { fd, offset, size } => KeptHostOp::ListAt {
                fd: *fd,
                offset: *offset,
                size: *size,
            },
            HostOp::Flush { fd } => KeptHostOp::Flush { fd: *fd },
            HostOp::Sync { fd, datasync } => KeptHostOp::Sync {
                fd: *fd,
                datasync: *datasync,
            },
            HostOp::SyncFs { fd } => KeptHostOp::SyncFs { fd: *fd },
            HostOp::ChMod { fd, through, mode } => KeptHostOp::ChMod {
                fd: *fd,
                through: *through,
                mode: *mode,
            },
            HostOp::ChOwn { fd, uid, gid } => KeptHostOp::ChOwn {
                fd: *fd,
                uid: *uid,
                gid: *gid,
            },
            HostOp::SetTimes {
                fd,
                through,
                atime,
                mtime,
            } => KeptHostOp::SetTimes {
                fd: *fd,
                through: *through,
                atime: *atime,
                mtime: *mtime,
            },
            HostOp::ListXattr { fd, through, size } => KeptHostOp::ListXattr {
                fd: *fd,
                through: *through,
                size: *size,
            },
            HostOp::SetEgid { gid } => KeptHostOp::SetEgid { gid: *gid },
            HostOp::SetEuid { uid } => KeptHostOp::SetEuid { uid: *uid },
            HostOp::RaiseCap { caps } => KeptHostOp::RaiseCap { caps: *caps },
            HostOp::DropCap { caps } => KeptHostOp::DropCap { caps: *caps },
            HostOp::SetUmask { mask } => KeptHostOp::SetUmask { mask: *mask },
            _ => unreachable!(),
        }
    }
}

impl KeptHostOp {
    /// The same call, whose bytes are lent.
    pub fn lend(&self) -> HostOp<'_>
        ensures { call_of result ≡ self.now }
    {
        match self {
            KeptHostOp::OpenRoot { path, flags } => HostOp::OpenRoot {
                path: path.as_slice(),
                flags: *flags,
            },
            KeptHostOp::OpenPath { fd, path, flags } => HostOp::OpenPath {
                fd: *fd,
                path: path.as_slice(),
                flags: *flags,
            },
            KeptHostOp::OpenAt {
                fd,
                name,
                flags,
                mode,
            } => HostOp::OpenAt {
                fd: *fd,
                name: name.as_slice(),
                flags: *flags,
                mode: *mode,
            },
            KeptHostOp::MakeDir { fd, name, mode } => HostOp::MakeDir {
                fd: *fd,
                name: name.as_slice(),
                mode: *mode,
            },
            KeptHostOp::MakeNode {
                fd,
                name,
                mode,
                rdev,
            } => HostOp::MakeNode {
                fd: *fd,
                name: name.as_slice(),
                mode: *mode,
                rdev: *rdev,
            },
            KeptHostOp::MakeLink { from, fd, name } => HostOp::MakeLink {
                from: *from,
                fd: *fd,
                name: name.as_slice(),
            },
            KeptHostOp::SymLink { fd, name, target } => HostOp::SymLink {
                fd: *fd,
                name: name.as_slice(),
                target: target.as_slice(),
            },
            KeptHostOp::Unlink { fd, name } => HostOp::Unlink {
                fd: *fd,
                name: name.as_slice(),
            },
            KeptHostOp::RemoveDir { fd, name } => HostOp::RemoveDir {
                fd: *fd,
                name: name.as_slice(),
            },
            KeptHostOp::Rename {
                fd,
                name,
                fd2,
                name2,
                flags,
            } => HostOp::Rename {
                fd: *fd,
                name: name.as_slice(),
                fd2: *fd2,
                name2: name2.as_slice(),
                flags: *flags,
            },
            KeptHostOp::WriteAt {
                fd,
                offset,
                bytes,
                append,
            } => HostOp::WriteAt {
                fd: *fd,
                offset: *offset,
                bytes: bytes.as_slice(),
                append: *append,
            },
            KeptHostOp::SetXattr {
                fd,
                through,
                name,
                value,
                flags,
            } => HostOp::SetXattr {
                fd: *fd,
                through: *through,
                name: name.as_slice(),
                value: value.as_slice(),
                flags: *flags,
            },
            KeptHostOp::GetXattr {
                fd,
                through,
                name,
                size,
            } => HostOp::GetXattr {
                fd: *fd,
                through: *through,
                name: name.as_slice(),
                size: *size,
            },
            KeptHostOp::RemoveXattr { fd, through, name } => HostOp::RemoveXattr {
                fd: *fd,
                through: *through,
                name: name.as_slice(),
            },
            KeptHostOp::SetGroups { list } => HostOp::SetGroups {
                list: list.as_slice(),
            },
            KeptHostOp::Edit(edit) => HostOp::Edit(edit),
            _ => self.lend_plain(),
        }
    }

    /// The same call, which has no bytes to lend.
    fn lend_plain(&self) -> HostOp<'_>
        requires { IsPlain self.now }
        ensures { call_of result ≡ self.now }
    {
        match self {
            KeptHostOp::Reopen { fd, flags } => HostOp::Reopen {
                fd: *fd,
                flags: *flags,
            },
            KeptHostOp::OpenByHandle { fd, handle, flags } => HostOp::OpenByHandle {
                fd: *fd,
                handle,
                flags: *flags,
            },
            KeptHostOp::Close { fd } => HostOp::Close { fd: *fd },
            KeptHostOp::Stat { fd } => HostOp::Stat { fd: *fd },
            KeptHostOp::HandleOf { fd } => HostOp::HandleOf { fd: *fd },
            KeptHostOp::StatFs { fd } => HostOp::StatFs { fd: *fd },
            KeptHostOp::ReadLink { fd } => HostOp::ReadLink { fd: *fd },
            KeptHostOp::FdPath { fd } => HostOp::FdPath { fd: *fd },
            KeptHostOp::MountInfo => HostOp::MountInfo,
            KeptHostOp::ReadAt { fd, offset, size } => HostOp::ReadAt {
                fd: *fd,
                offset: *offset,
                size: *size,
            },
            KeptHostOp::Truncate { fd, size } => HostOp::Truncate {
                fd: *fd,
                size: *size,
            },
            KeptHostOp::Allocate {
                fd,
                mode,
                offset,
                length,
            } => HostOp::Allocate {
                fd: *fd,
                mode: *mode,
                offset: *offset,
                length: *length,
            },
            KeptHostOp::Seek { fd, offset, whence } => HostOp::Seek {
                fd: *fd,
                offset: *offset,
                whence: *whence,
            },
            KeptHostOp::CopyRange {
                fd,
                offset,
                fd2,
                offset2,
                length,
                flags,
            } => HostOp::CopyRange {
                fd: *fd,
                offset: *offset,
                fd2: *fd2,
                offset2: *offset2,
                length: *length,
                flags: *flags,
            },
            KeptHostOp::ListAt { fd, offset, size } => HostOp::ListAt {
                fd: *fd,
                offset: *offset,
                size: *size,
            },
            KeptHostOp::Flush { fd } => HostOp::Flush { fd: *fd },
            KeptHostOp::Sync { fd, datasync } => HostOp::Sync {
                fd: *fd,
                datasync: *datasync,
            },
            KeptHostOp::SyncFs { fd } => HostOp::SyncFs { fd: *fd },
            KeptHostOp::ChMod { fd, through, mode } => HostOp::ChMod {
                fd: *fd,
                through: *through,
                mode: *mode,
            },
            KeptHostOp::ChOwn { fd, uid, gid } => HostOp::ChOwn {
                fd: *fd,
                uid: *uid,
                gid: *gid,
            },
            KeptHostOp::SetTimes {
                fd,
                through,
                atime,
                mtime,
            } => HostOp::SetTimes {
                fd: *fd,
                through: *through,
                atime: *atime,
                mtime: *mtime,
            },
            KeptHostOp::ListXattr { fd, through, size } => HostOp::ListXattr {
                fd: *fd,
                through: *through,
                size: *size,
            },
            KeptHostOp::SetEgid { gid } => HostOp::SetEgid { gid: *gid },
            KeptHostOp::SetEuid { uid } => HostOp::SetEuid { uid: *uid },
            KeptHostOp::RaiseCap { caps } => HostOp::RaiseCap { caps: *caps },
            KeptHostOp::DropCap { caps } => HostOp::DropCap { caps: *caps },
            KeptHostOp::SetUmask { mask } => HostOp::SetUmask { mask: *mask },
            _ => unreachable!(),
        }
    }
}
