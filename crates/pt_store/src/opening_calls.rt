ghost use Rattle.std.specs.Prelude.{◌≡◌, ◌==◌, ◌&&◌, ◌<◌, ℕ, Some, None, option_map, slice_get, true};
ghost use Rattle.pt_node.specs.declared.node.Node.{Node};
ghost use Rattle.pt_store.specs.StoreState.{IsKeptBy, numbers_of, state_of};
ghost use Rattle.pt_rules.specs.Does.{AnswersAs};
ghost use Rattle.pt_rules.specs.Rows.{on_row};
ghost use Rattle.pt_node.specs.Entries.{is_directory_at};
ghost use Rattle.pt_node.specs.Node.{handle_of, name_at};
ghost use Rattle.pt_rules.specs.OpeningCalls.{
  handled,
  handled_where,
  open_at_name,
  open_by_handle,
  open_creating,
  open_new,
  open_path,
  read_link_row,
  same_handle,
  stat_fs_row,
  tell_handle,
  tell_mounts,
};
ghost use Rattle.pt_rules.specs.Sound.{IsShort};

use crate::finding::{node_at, open_on};
use crate::store::{Store, begun_on};
use pt_change::name_checks::{masked, name_refusal};
use pt_change::node_edits::add_node;
use pt_change::opening_checks::{
    created_refusal, creating_refusal, handle_of, handle_refusal, same_handle, serial_in,
};
use pt_host::{
    Bytes, CFileHandle, Errno, Fd, FileHandle, FsStat, HostReply, HostSeat, HostValue, OpenFlags,
};
use pt_node::entries::new_object;
use pt_node::mounts::push_mounts;
use pt_node::node::{Content, Node};
use pt_node::opening::apply_opening;
use pt_node::path::walk_from;

/// Whether the object is on the mount and has the handle.
fn has_handle(node: &Node, mount: u64, handle: &CFileHandle) -> bool
    ensures { result
        ≡ ((node.now.ids.mnt_id == mount) && node.now.has_handle && same_handle (handle_of node.now) handle.now) }
{
    node.ids.mnt_id == mount && node.has_handle && same_handle(&handle_of(node), handle)
}

impl Store {
    pub fn open_path(&mut self, seat: &HostSeat, fd: Fd, path: &[u8], flags: OpenFlags) -> HostReply
        requires { IsKeptBy self.old }
        ensures answers { AnswersAs (open_path (state_of self.old) seat.now fd path.now flags)
            (state_of self.old) result (state_of self.new) }
        ensures kept { IsKeptBy self.new }
    {
        let Some((file, node)) = open_on(&self.files, &self.nodes, fd) else {
            return HostReply::Refused(Errno::EBADF);
        };
        match walk_from(&self.nodes, (file.object, node), path) {
            Ok((object, _)) => self.open(seat, flags, object),
            Err(errno) => HostReply::Refused(errno),
        }
    }

    /// A new file under a name that is free, opened.
    fn open_made(
        &mut self,
        seat: &HostSeat,
        dir: usize,
        name: &[u8],
        flags: OpenFlags,
        permissions: u32,
    ) -> HostReply
        requires kept { IsKeptBy self.old }
        requires into { is_directory_at self.old.nodes.items dir ≡ true }
        requires free { name_at self.old.nodes.items dir name.now ≡ None }
        requires good { IsShort name.now }
        requires small { permissions < 4096 }
        ensures answers { (parent : Node) → slice_get self.old.nodes.items dir ≡ Some parent →
            AnswersAs
            (open_new (state_of self.old) (numbers_of self.old) seat.now flags permissions dir name.now parent)
            (state_of self.old) result (state_of self.new) }
        ensures kept { IsKeptBy self.new }
    {
        let object = self.nodes.len();
        let length = self.files.len();
        let now = self.now();
        let parent = node_at(&self.nodes, dir);
        let dev = parent.ids.dev;
        let Ok(name) = name.to_vec(self.alloc) else {
            return HostReply::NoMemory;
        };
        let Ok(fd) = self.files.open(begun_on(flags, object)) else {
            return HostReply::NoMemory;
        };
        let Ok(number) = self.inodes.add(self.alloc, dev, object, 1) else {
            self.files.take_back(fd, length);
            return HostReply::NoMemory;
        };
        let node = new_object(
            self.alloc,
            now,
            number,
            object as u64 + 1,
            parent,
            permissions,
            seat.eff_uid,
            seat.eff_gid,
            0,
            Content::Regular(Bytes::new(self.alloc)),
        );
        match add_node(&mut self.nodes, dir, name, node, now) {
            Ok(()) => {
                self.inodes.holds[object] = 2;
                HostReply::Ok(HostValue::Fd(fd))
            }
            Err(_) => {
                self.inodes.take_back(dev, number);
                self.files.take_back(fd, length);
                HostReply::NoMemory
            }
        }
    }

    /// `OpenAt` with `O_CREAT`.
    fn open_creating(
        &mut self,
        seat: &HostSeat,
        fd: Fd,
        name: &[u8],
        flags: OpenFlags,
        mode: u32,
    ) -> HostReply
        requires { IsKeptBy self.old }
        ensures answers { AnswersAs
            (open_creating (state_of self.old) (numbers_of self.old) seat.now fd name.now flags mode)
            (state_of self.old) result (state_of self.new) }
        ensures kept { IsKeptBy self.new }
    {
        let Some((file, dir)) = open_on(&self.files, &self.nodes, fd) else {
            return HostReply::Refused(Errno::EBADF);
        };
        if let Some(errno) = name_refusal(seat, dir, name) {
            return HostReply::Refused(errno);
        }
        let there = dir.content.lookup(name);
        if let Some(errno) = creating_refusal(flags, there) {
            return HostReply::Refused(errno);
        }
        if let Some(object) = there {
            return self.open(seat, flags, object);
        }
        if let Some(errno) = created_refusal(seat, dir, flags) {
            return HostReply::Refused(errno);
        }
        self.open_made(seat, file.object, name, flags, masked(seat, mode))
    }

    pub fn open_name(
        &mut self,
        seat: &HostSeat,
        fd: Fd,
        name: &[u8],
        flags: OpenFlags,
        mode: u32,
    ) -> HostReply
        requires { IsKeptBy self.old }
        ensures answers { AnswersAs
            (open_at_name (state_of self.old) (numbers_of self.old) seat.now fd name.now flags mode)
            (state_of self.old) result (state_of self.new) }
        ensures kept { IsKeptBy self.new }
    {
        if flags.includes(OpenFlags::O_CREAT) {
            self.open_creating(seat, fd, name, flags, mode)
        } else {
            self.open_named(seat, fd, name, flags)
        }
    }

    /// Whether the object at this place is on the mount, has the handle and lives.
    fn is_handled(&self, mount: u64, handle: &CFileHandle, place: usize) -> bool
        requires { IsKeptBy self.now }
        ensures { result ≡ handled_where (state_of self.now) mount handle.now place
            (slice_get self.now.nodes.items place) }
    {
        match self.nodes.get(place) {
            None => false,
            Some(node) => has_handle(node, mount, handle) && self.inodes.is_held(place),
        }
    }

    /// The object on this mount that has the handle and lives. The handle tells the serial, and that the place.
    fn handled(&self, mount: u64, handle: &CFileHandle) -> Option<usize>
        requires { IsKeptBy self.now }
        ensures { result ≡ option_map (λ (at : ℕ × Node). at.0) (handled (state_of self.now) mount handle.now) }
    {
        let Some(serial) = serial_in(handle) else {
            return None;
        };
        if serial == 0 {
            return None;
        }
        let place = serial as usize - 1;
        if self.is_handled(mount, handle, place) {
            Some(place)
        } else {
            None
        }
    }

    pub fn open_by_handle(
        &mut self,
        seat: &HostSeat,
        fd: Fd,
        handle: &CFileHandle,
        flags: OpenFlags,
    ) -> HostReply
        requires { IsKeptBy self.old }
        ensures answers { AnswersAs (open_by_handle (state_of self.old) seat.now fd handle.now flags)
            (state_of self.old) result (state_of self.new) }
        ensures kept { IsKeptBy self.new }
    {
        let Some((file, node)) = open_on(&self.files, &self.nodes, fd) else {
            return HostReply::Refused(Errno::EBADF);
        };
        if let Some(errno) = handle_refusal(seat, file) {
            return HostReply::Refused(errno);
        }
        let mount = node.ids.mnt_id;
        match self.handled(mount, handle) {
            Some(object) => self.open(seat, flags, object),
            None => HostReply::Refused(Errno::ESTALE),
        }
    }

    pub fn handle_of(&self, fd: Fd) -> HostReply
        requires { IsKeptBy self.now }
        ensures { (result, state_of self.now) ≡ tell_handle (state_of self.now) fd }
    {
        let Some((file, node)) = open_on(&self.files, &self.nodes, fd) else {
            return HostReply::Refused(Errno::EBADF);
        };
        if !node.has_handle {
            return HostReply::Refused(Errno::EOPNOTSUPP);
        }
        HostReply::Ok(HostValue::Handle(FileHandle {
            mnt_id: node.ids.mnt_id,
            handle: handle_of(node),
        }))
    }

    pub fn stat_fs(&self, fd: Fd) -> HostReply
        requires { IsKeptBy self.now }
        ensures { (result, state_of self.now) ≡ on_row (state_of self.now) fd (stat_fs_row (state_of self.now)) }
    {
        let Some((file, node)) = open_on(&self.files, &self.nodes, fd) else {
            return HostReply::Refused(Errno::EBADF);
        };
        HostReply::Ok(HostValue::FsStat(FsStat {
            blocks: 0,
            bfree: 0,
            bavail: 0,
            files: self.inodes.living(node.ids.dev) as u64,
            ffree: 0,
            bsize: 4096,
            namelen: 255,
            frsize: 4096,
        }))
    }

    pub fn read_link(&mut self, fd: Fd) -> HostReply
        requires { IsKeptBy self.old }
        ensures answers { AnswersAs (on_row (state_of self.old) fd (read_link_row (state_of self.old)))
            (state_of self.old) result (state_of self.new) }
        ensures kept { IsKeptBy self.new }
    {
        let now = self.now();
        let Some((file, node)) = open_on(&self.files, &self.nodes, fd) else {
            return HostReply::Refused(Errno::EBADF);
        };
        if !node.is_link() {
            return HostReply::Refused(Errno::EINVAL);
        }
        match Bytes::from_slice(self.alloc, node.content.bytes()) {
            Ok(target) => {
                self.nodes[file.object].atime = now;
                HostReply::Ok(HostValue::Bytes(target))
            }
            Err(_) => HostReply::NoMemory,
        }
    }

    pub fn mount_info(&self) -> HostReply
        requires { IsKeptBy self.now }
        ensures { AnswersAs (tell_mounts (state_of self.now)) (state_of self.now) result (state_of self.now) }
    {
        let mut text = Vec::new(self.alloc);
        match push_mounts(&mut text, &self.mounts) {
            Ok(()) => HostReply::Ok(HostValue::Bytes(Bytes::from_vec(text))),
            Err(_) => HostReply::NoMemory,
        }
    }
}
