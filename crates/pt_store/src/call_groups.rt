ghost use Rattle.pt_host.specs.Call.{call_of};
ghost use Rattle.pt_host.specs.CallGroups.{
  IsOnAttributes,
  IsOnContents,
  IsOnNames,
  OpensOrCloses,
  TellsObject,
};
ghost use Rattle.pt_rules.specs.Does.{ComesTo};
ghost use Rattle.pt_rules.specs.Table.{outcome};
ghost use Rattle.pt_store.specs.StoreState.{IsKeptBy, numbers_of, state_of};

use crate::store::Store;
use pt_host::{HostOp, HostReply, HostSeat};

// The calls on the tree in groups, by what they are on; none of them changes the seat.
impl Store {
    /// A call that opens or closes a descriptor.
    pub(crate) fn answer_opening(&mut self, seat: &HostSeat, op: &HostOp<'_>) -> HostReply
        requires kept { IsKeptBy self.old }
        requires group { OpensOrCloses op.now }
        ensures answers { ComesTo (state_of self.old) seat.now (call_of op.now)
            (outcome (state_of self.old) (numbers_of self.old) seat.now (call_of op.now)) result
            (state_of self.new) seat.now }
        ensures kept { IsKeptBy self.new }
    {
        match *op {
            HostOp::OpenRoot { path, flags } => self.open_root(seat, path, flags),
            HostOp::OpenPath { fd, path, flags } => self.open_path(seat, fd, path, flags),
            HostOp::OpenAt {
                fd,
                name,
                flags,
                mode,
            } => self.open_name(seat, fd, name, flags, mode),
            HostOp::Reopen { fd, flags } => self.reopen(seat, fd, flags),
            HostOp::OpenByHandle { fd, handle, flags } => self.open_by_handle(
                seat, fd, handle, flags,
            ),
            HostOp::Close { fd } => self.close(fd),
            _ => unreachable!(),
        }
    }

    /// A call that tells of an object, or of the mounts.
    pub(crate) fn answer_telling(&mut self, seat: &HostSeat, op: &HostOp<'_>) -> HostReply
        requires kept { IsKeptBy self.old }
        requires group { TellsObject op.now }
        ensures answers { ComesTo (state_of self.old) seat.now (call_of op.now)
            (outcome (state_of self.old) (numbers_of self.old) seat.now (call_of op.now)) result
            (state_of self.new) seat.now }
        ensures kept { IsKeptBy self.new }
    {
        match *op {
            HostOp::Stat { fd } => self.stat(fd),
            HostOp::HandleOf { fd } => self.handle_of(fd),
            HostOp::StatFs { fd } => self.stat_fs(fd),
            HostOp::ReadLink { fd } => self.read_link(fd),
            HostOp::FdPath { fd } => self.fd_path(fd),
            HostOp::MountInfo => self.mount_info(),
            _ => unreachable!(),
        }
    }

    /// A call that makes, moves or takes a name.
    pub(crate) fn answer_on_names(&mut self, seat: &HostSeat, op: &HostOp<'_>) -> HostReply
        requires kept { IsKeptBy self.old }
        requires group { IsOnNames op.now }
        ensures answers { ComesTo (state_of self.old) seat.now (call_of op.now)
            (outcome (state_of self.old) (numbers_of self.old) seat.now (call_of op.now)) result
            (state_of self.new) seat.now }
        ensures kept { IsKeptBy self.new }
    {
        match *op {
            HostOp::MakeDir { fd, name, mode } => self.make_dir(seat, fd, name, mode),
            HostOp::MakeNode {
                fd,
                name,
                mode,
                rdev,
            } => self.make_node(seat, fd, name, mode, rdev),
            HostOp::MakeLink { from, fd, name } => self.make_link(seat, from, fd, name),
            HostOp::SymLink { fd, name, target } => self.make_symlink(seat, fd, name, target),
            HostOp::Unlink { fd, name } => self.unlink_name(seat, fd, name),
            HostOp::RemoveDir { fd, name } => self.remove_dir(seat, fd, name),
            HostOp::Rename {
                fd,
                name,
                fd2,
                name2,
                flags,
            } => self.rename_names(seat, (fd, name), (fd2, name2), flags),
            _ => unreachable!(),
        }
    }

    /// A call on the contents of an object.
    pub(crate) fn answer_on_contents(&mut self, seat: &HostSeat, op: &HostOp<'_>) -> HostReply
        requires kept { IsKeptBy self.old }
        requires group { IsOnContents op.now }
        ensures answers { ComesTo (state_of self.old) seat.now (call_of op.now)
            (outcome (state_of self.old) (numbers_of self.old) seat.now (call_of op.now)) result
            (state_of self.new) seat.now }
        ensures kept { IsKeptBy self.new }
    {
        match *op {
            HostOp::ReadAt { fd, offset, size } => self.read(fd, offset, size),
            HostOp::WriteAt {
                fd,
                offset,
                bytes,
                append,
            } => self.write_bytes(seat, fd, offset, bytes, append),
            HostOp::Truncate { fd, size } => self.truncate(seat, fd, size),
            HostOp::Allocate {
                fd,
                mode,
                offset,
                length,
            } => self.allocate(fd, mode, offset, length),
            HostOp::Seek { fd, offset, whence } => self.seek(fd, offset, whence),
            HostOp::CopyRange {
                fd,
                offset,
                fd2,
                offset2,
                length,
                flags,
            } => self.copy_range(seat, (fd, offset), (fd2, offset2), length, flags),
            HostOp::ListAt { fd, offset, size } => self.list_at(fd, offset, size),
            HostOp::Flush { fd } => self.flush(fd),
            HostOp::Sync { fd, .. } | HostOp::SyncFs { fd } => self.sync(fd),
            _ => unreachable!(),
        }
    }

    /// A call on the attributes of an object.
    pub(crate) fn answer_on_attributes(&mut self, seat: &HostSeat, op: &HostOp<'_>) -> HostReply
        requires kept { IsKeptBy self.old }
        requires group { IsOnAttributes op.now }
        ensures answers { ComesTo (state_of self.old) seat.now (call_of op.now)
            (outcome (state_of self.old) (numbers_of self.old) seat.now (call_of op.now)) result
            (state_of self.new) seat.now }
        ensures kept { IsKeptBy self.new }
    {
        match *op {
            HostOp::ChMod { fd, through, mode } => self.change_mode(seat, fd, through, mode),
            HostOp::ChOwn { fd, uid, gid } => self.change_owner(seat, fd, uid, gid),
            HostOp::SetTimes {
                fd,
                through,
                atime,
                mtime,
            } => self.set_times(seat, fd, through, atime, mtime),
            HostOp::SetXattr {
                fd,
                through,
                name,
                value,
                flags,
            } => self.set_xattr(fd, through, name, value, flags),
            HostOp::GetXattr {
                fd,
                through,
                name,
                size,
            } => self.get_xattr(fd, through, name, size),
            HostOp::ListXattr { fd, through, size } => self.list_xattr(fd, through, size),
            HostOp::RemoveXattr { fd, through, name } => self.remove_xattr(fd, through, name),
            _ => unreachable!(),
        }
    }
}
