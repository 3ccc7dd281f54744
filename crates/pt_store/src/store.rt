ghost use Rattle.std.specs.Prelude.{◌≡◌, ℕ, Ok, Some, is_some, slice_get, true};
ghost use Rattle.pt_store.specs.StoreState.{IsKeptBy, device_at, number_at, state_of};
ghost use Rattle.pt_rules.specs.State.{time_of};
ghost use Rattle.pt_rules.specs.Holds.{HasHold};
ghost use Rattle.pt_rules.specs.ContentCalls.{read_row};
ghost use Rattle.pt_rules.specs.Rows.{on_row};
ghost use Rattle.pt_rules.specs.Does.{AnswersAs};
ghost use Rattle.pt_node.specs.Links.{links_of};
ghost use Rattle.pt_node.specs.declared.node.Node.{Node};
ghost use Rattle.pt_rules.specs.Calls.{
  begun_on,
  close_file,
  open_walked,
  opening,
  reopen,
  tell_status,
};
ghost use Rattle.pt_rules.specs.OpeningCalls.{open_named};
ghost use Rattle.pt_node.specs.Paths.{walk_root};

use crate::finding::{node_at, open_on};
use crate::plans::Plans;
use pt_change::name_checks::name_refusal;
use pt_host::{Bytes, Errno, Fd, HostReply, HostSeat, HostValue, OpenFlags, Time};
use pt_node::inodes::Inodes;
use pt_node::links::links_of;
use pt_node::mounts::Mounts;
use pt_node::node::Node;
use pt_node::opening::{apply_opening, opening_refusal};
use pt_node::path::{led_on, walk_root};
use pt_node::reading::{part_of, read_refusal};
use pt_node::slots::{Descriptors, OpenFile};
use std::alloc::Global;

/// What a tree host keeps.
#[derive(Drop)]
pub struct Store {
    pub alloc: Global,
    /// The objects in the order of their making, the root first.
    pub nodes: Vec<Node>,
    pub files: Descriptors,
    pub mounts: Mounts,
    pub inodes: Inodes,
    /// How many calls were answered.
    pub calls: u64,
    /// The calls that are to fail.
    pub plans: Plans,
    /// How many of them did.
    pub faults: u64,
}

/// A descriptor that begins at the start.
pub fn begun_on(flags: OpenFlags, object: usize) -> OpenFile
    ensures { result ≡ begun_on flags object }
{
    OpenFile {
        object,
        flags,
        position: 0,
    }
}

impl Store {
    pub fn now(&self) -> Time
        requires { IsKeptBy self.now }
        ensures { result ≡ time_of (state_of self.now) }
    {
        Time {
            sec: self.calls as i64,
            nsec: 0,
        }
    }

    /// Opens an object that is there and lives.
    pub fn open(&mut self, seat: &HostSeat, flags: OpenFlags, object: usize) -> HostReply
        requires kept { IsKeptBy self.old }
        requires there { is_some (slice_get self.old.nodes.items object) ≡ true }
        requires lives { HasHold (state_of self.old) object }
        ensures answers { (node : Node) → slice_get self.old.nodes.items object ≡ Some node →
            AnswersAs (opening (state_of self.old) seat.now flags object node) (state_of self.old) result
            (state_of self.new) }
        ensures kept { IsKeptBy self.new }
    {
        let node = node_at(&self.nodes, object);
        if let Some(errno) = opening_refusal(seat, node, flags) {
            return HostReply::Refused(errno);
        }
        let Some(holds) = self.inodes.one_more(object) else {
            return HostReply::NoMemory;
        };
        let now = self.now();
        match self.files.open(begun_on(flags, object)) {
            Ok(fd) => {
                apply_opening(self.alloc, seat, now, flags, &mut self.nodes[object]);
                self.inodes.holds[object] = holds;
                HostReply::Ok(HostValue::Fd(fd))
            }
            Err(_) => HostReply::NoMemory,
        }
    }

    /// The links of this object.
    pub fn links_of(&self, object: usize, node: &Node) -> u32
        requires kept { IsKeptBy self.now }
        requires there { slice_get self.now.nodes.items object ≡ Some node.now }
        ensures { result ≡ links_of self.now.nodes.items object node.now }
    {
        let names = self.inodes.names[object];
        let directories = self.inodes.directories[object];
        links_of(node, names, directories)
    }

    pub fn stat(&self, fd: Fd) -> HostReply
        requires { IsKeptBy self.now }
        ensures { (result, state_of self.now) ≡ tell_status (state_of self.now) fd }
    {
        let Some((file, node)) = open_on(&self.files, &self.nodes, fd) else {
            return HostReply::Refused(Errno::EBADF);
        };
        let links = self.links_of(file.object, node);
        HostReply::Ok(HostValue::Stat(node.status(links)))
    }

    pub fn read(&mut self, fd: Fd, offset: u64, size: u32) -> HostReply
        requires { IsKeptBy self.old }
        ensures answers { AnswersAs (on_row (state_of self.old) fd (read_row (state_of self.old) offset size))
            (state_of self.old) result (state_of self.new) }
        ensures kept { IsKeptBy self.new }
    {
        let now = self.now();
        let Some((file, node)) = open_on(&self.files, &self.nodes, fd) else {
            return HostReply::Refused(Errno::EBADF);
        };
        if let Some(errno) = read_refusal(node, file.flags) {
            return HostReply::Refused(errno);
        }
        match Bytes::from_slice(
            self.alloc,
            part_of(node.content.bytes(), offset, u64::from(size)),
        ) {
            Ok(bytes) => {
                self.nodes[file.object].atime = now;
                HostReply::Ok(HostValue::Bytes(bytes))
            }
            Err(_) => HostReply::NoMemory,
        }
    }

    pub fn close(&mut self, fd: Fd) -> HostReply
        requires { IsKeptBy self.old }
        ensures answers { (result, state_of self.new) ≡ close_file (state_of self.old) fd }
        ensures kept { IsKeptBy self.new }
    {
        let Some(file) = self.files.get(fd) else {
            return HostReply::Refused(Errno::EBADF);
        };
        let dev = device_at(&self.nodes, file.object);
        let number = number_at(&self.nodes, file.object);
        self.files.close(fd.0 as usize);
        self.inodes.release(file.object, dev, number);
        HostReply::Ok(HostValue::Unit)
    }

    pub fn open_root(&mut self, seat: &HostSeat, path: &[u8], flags: OpenFlags) -> HostReply
        requires { IsKeptBy self.old }
        ensures answers { AnswersAs
            (open_walked (state_of self.old) seat.now flags (walk_root self.old.nodes.items path.now))
            (state_of self.old) result (state_of self.new) }
        ensures kept { IsKeptBy self.new }
    {
        match walk_root(&self.nodes, path) {
            Ok((object, _)) => self.open(seat, flags, object),
            Err(errno) => HostReply::Refused(errno),
        }
    }

    /// Opens what the name leads to.
    pub fn open_named(
        &mut self,
        seat: &HostSeat,
        fd: Fd,
        name: &[u8],
        flags: OpenFlags,
    ) -> HostReply
        requires { IsKeptBy self.old }
        ensures answers { AnswersAs (open_named (state_of self.old) seat.now fd name.now flags)
            (state_of self.old) result (state_of self.new) }
        ensures kept { IsKeptBy self.new }
    {
        let Some((_, dir)) = open_on(&self.files, &self.nodes, fd) else {
            return HostReply::Refused(Errno::EBADF);
        };
        if let Some(errno) = name_refusal(seat, dir, name) {
            return HostReply::Refused(errno);
        }
        let Some((object, _)) = led_on(&self.nodes, dir.content.lookup(name)) else {
            return HostReply::Refused(Errno::ENOENT);
        };
        self.open(seat, flags, object)
    }

    pub fn reopen(&mut self, seat: &HostSeat, fd: Fd, flags: OpenFlags) -> HostReply
        requires { IsKeptBy self.old }
        ensures answers { AnswersAs (reopen (state_of self.old) seat.now fd flags) (state_of self.old) result
            (state_of self.new) }
        ensures kept { IsKeptBy self.new }
    {
        let Some((file, _)) = open_on(&self.files, &self.nodes, fd) else {
            return HostReply::Refused(Errno::EBADF);
        };
        if flags.includes(OpenFlags::O_CREAT) && flags.includes(OpenFlags::O_EXCL) {
            return HostReply::Refused(Errno::EEXIST);
        }
        self.open(seat, flags, file.object)
    }
}

/// The device of the object at this place.
pub fn device_at(nodes: &[Node], object: usize) -> u64
    ensures { result ≡ device_at nodes.now object }
{
    match nodes.get(object) {
        None => 0,
        Some(node) => node.ids.dev,
    }
}

/// The inode number of the object at this place.
pub fn number_at(nodes: &[Node], object: usize) -> u64
    ensures { result ≡ number_at nodes.now object }
{
    match nodes.get(object) {
        None => 0,
        Some(node) => node.ids.ino,
    }
}
