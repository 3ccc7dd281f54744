ghost use Rattle.std.specs.Prelude.{◌≡◌, ◌<◌, Some, None, Ok, IfErr, IfOk, OnErr, OnOk, true};
ghost use Rattle.pt_store.specs.StoreState.{IsKeptBy, numbers_of, state_of};
ghost use Rattle.pt_rules.specs.Calls.{done, refused};
ghost use Rattle.pt_rules.specs.Does.{AnswersAs};
ghost use Rattle.pt_node.specs.Entries.{is_directory_at};
ghost use Rattle.pt_rules.specs.Holds.{HasHold};
ghost use Rattle.pt_node.specs.Node.{name_at};
ghost use Rattle.pt_rules.specs.NameCalls.{
  make_dir,
  make_link,
  make_node,
  make_symlink,
  remove_dir,
  unlink,
  with_linked,
};
ghost use Rattle.pt_rules.specs.Sound.{IsShort};

use crate::finding::open_on;
use crate::store::Store;
use pt_change::name_checks::{
    content_of_kind, kind_bits, link_refusal, make_refusal, masked, name_refusal, node_refusal,
    remove_refusal, symlink_refusal, take_refusal,
};
use pt_change::node_edits::link;
use pt_host::{Bytes, Errno, Fd, HostReply, HostSeat, HostValue};
use pt_node::links::is_directory_at;
use pt_node::names::Names;
use pt_node::node::Content;
use pt_node::path::led_on;
use std::alloc::AllocError;

impl Store {
    pub fn make_dir(&mut self, seat: &HostSeat, fd: Fd, name: &[u8], mode: u32) -> HostReply
        requires { IsKeptBy self.old }
        ensures answers { AnswersAs (make_dir (state_of self.old) (numbers_of self.old) seat.now fd name.now mode)
            (state_of self.old) result (state_of self.new) }
        ensures kept { IsKeptBy self.new }
    {
        let Some((file, dir)) = open_on(&self.files, &self.nodes, fd) else {
            return HostReply::Refused(Errno::EBADF);
        };
        if let Some(errno) = name_refusal(seat, dir, name) {
            return HostReply::Refused(errno);
        }
        if let Some(errno) = make_refusal(seat, dir, name) {
            return HostReply::Refused(errno);
        }
        let content = Content::Directory(Names::new(self.alloc));
        let permissions = masked(seat, mode);
        self.make_in(
            file.object,
            name,
            permissions,
            seat.eff_uid,
            seat.eff_gid,
            0,
            content,
        )
    }

    pub fn make_node(
        &mut self,
        seat: &HostSeat,
        fd: Fd,
        name: &[u8],
        mode: u32,
        rdev: u32,
    ) -> HostReply
        requires { IsKeptBy self.old }
        ensures answers { AnswersAs
            (make_node (state_of self.old) (numbers_of self.old) seat.now fd name.now mode rdev)
            (state_of self.old) result (state_of self.new) }
        ensures kept { IsKeptBy self.new }
    {
        let Some((file, dir)) = open_on(&self.files, &self.nodes, fd) else {
            return HostReply::Refused(Errno::EBADF);
        };
        if let Some(errno) = name_refusal(seat, dir, name) {
            return HostReply::Refused(errno);
        }
        if let Some(errno) = node_refusal(seat, dir, name, kind_bits(mode)) {
            return HostReply::Refused(errno);
        }
        match content_of_kind(self.alloc, kind_bits(mode)) {
            None => HostReply::Refused(Errno::EINVAL),
            Some(content) => {
                let permissions = masked(seat, mode);
                self.make_in(
                    file.object,
                    name,
                    permissions,
                    seat.eff_uid,
                    seat.eff_gid,
                    rdev,
                    content,
                )
            }
        }
    }

    pub fn make_symlink(&mut self, seat: &HostSeat, fd: Fd, name: &[u8], target: &[u8]) -> HostReply
        requires { IsKeptBy self.old }
        ensures answers { AnswersAs
            (make_symlink (state_of self.old) (numbers_of self.old) seat.now fd name.now target.now)
            (state_of self.old) result (state_of self.new) }
        ensures kept { IsKeptBy self.new }
    {
        let Some((file, dir)) = open_on(&self.files, &self.nodes, fd) else {
            return HostReply::Refused(Errno::EBADF);
        };
        if let Some(errno) = name_refusal(seat, dir, name) {
            return HostReply::Refused(errno);
        }
        if let Some(errno) = symlink_refusal(seat, dir, name, target) {
            return HostReply::Refused(errno);
        }
        match Bytes::from_slice(self.alloc, target) {
            Ok(target) => {
                let content = Content::Link(target);
                self.make_in(
                    file.object,
                    name,
                    0o777,
                    seat.eff_uid,
                    seat.eff_gid,
                    0,
                    content,
                )
            }
            Err(_) => HostReply::NoMemory,
        }
    }

    /// The object, which lives, gets this name, which is free in the directory.
    pub fn link_name(&mut self, dir: usize, name: &[u8], object: usize) -> Result<(), AllocError>
        requires kept { IsKeptBy self.old }
        requires into { is_directory_at self.old.nodes.items dir ≡ true }
        requires free { name_at self.old.nodes.items dir name.now ≡ None }
        requires good { IsShort name.now }
        requires lives { HasHold (state_of self.old) object }
        ensures ok { OnOk result (state_of self.new ≡ with_linked (state_of self.old) dir name.now object) }
        ensures err { OnErr result (state_of self.new ≡ state_of self.old) }
        ensures tables { self.new.inodes.tables.items ≡ self.old.inodes.tables.items }
        ensures kept { IsKeptBy self.new }
    {
        let Some(holds) = self.inodes.one_more(object) else {
            return Err(AllocError);
        };
        let Some(names) = self.inodes.one_name_more(object) else {
            return Err(AllocError);
        };
        let is_directory = is_directory_at(&self.nodes, object);
        let Some(directories) = self.inodes.directories_with(dir, is_directory) else {
            return Err(AllocError);
        };
        let now = self.now();
        let name = name.to_vec(self.alloc)?;
        link(&mut self.nodes, now, dir, name, object)?;
        self.inodes.holds[object] = holds;
        self.inodes.names[object] = names;
        self.inodes.directories[dir] = directories;
        Ok(())
    }

    /// The object to be linked and the directory that is to have the name, or why it does not get it.
    fn link_ends(
        &self,
        seat: &HostSeat,
        from: Fd,
        fd: Fd,
        name: &[u8],
    ) -> Result<(usize, usize), Errno>
        requires { IsKeptBy self.now }
        ensures ok { IfOk result (λ ends. make_link (state_of self.now) seat.now from fd name.now
            ≡ done (with_linked (state_of self.now) ends.1 name.now ends.0)) }
        ensures into { IfOk result (λ ends. is_directory_at self.now.nodes.items ends.1 ≡ true) }
        ensures free { IfOk result (λ ends. name_at self.now.nodes.items ends.1 name.now ≡ None) }
        ensures good { IfOk result (λ ends. IsShort name.now) }
        ensures lives { IfOk result (λ ends. HasHold (state_of self.now) ends.0) }
        ensures err { IfErr result (λ errno. make_link (state_of self.now) seat.now from fd name.now
            ≡ refused (state_of self.now) errno) }
    {
        let Some((linked, node)) = open_on(&self.files, &self.nodes, from) else {
            return Err(Errno::EBADF);
        };
        let Some((file, dir)) = open_on(&self.files, &self.nodes, fd) else {
            return Err(Errno::EBADF);
        };
        if let Some(errno) = name_refusal(seat, dir, name) {
            return Err(errno);
        }
        let links = self.links_of(linked.object, node);
        match link_refusal(seat, links, node, dir, name) {
            Some(errno) => Err(errno),
            None => Ok((linked.object, file.object)),
        }
    }

    pub fn make_link(&mut self, seat: &HostSeat, from: Fd, fd: Fd, name: &[u8]) -> HostReply
        requires { IsKeptBy self.old }
        ensures answers { AnswersAs (make_link (state_of self.old) seat.now from fd name.now)
            (state_of self.old) result (state_of self.new) }
        ensures kept { IsKeptBy self.new }
    {
        let (object, dir) = match self.link_ends(seat, from, fd, name) {
            Ok(ends) => ends,
            Err(errno) => return HostReply::Refused(errno),
        };
        match self.link_name(dir, name, object) {
            Ok(()) => HostReply::Ok(HostValue::Unit),
            Err(_) => HostReply::NoMemory,
        }
    }

    pub fn unlink_name(&mut self, seat: &HostSeat, fd: Fd, name: &[u8]) -> HostReply
        requires { IsKeptBy self.old }
        ensures answers { (result, state_of self.new) ≡ unlink (state_of self.old) seat.now fd name.now }
        ensures kept { IsKeptBy self.new }
    {
        let Some((file, dir)) = open_on(&self.files, &self.nodes, fd) else {
            return HostReply::Refused(Errno::EBADF);
        };
        if let Some(errno) = name_refusal(seat, dir, name) {
            return HostReply::Refused(errno);
        }
        let Some((object, node)) = led_on(&self.nodes, dir.content.lookup(name)) else {
            return HostReply::Refused(Errno::ENOENT);
        };
        if let Some(errno) = take_refusal(seat, dir, node) {
            return HostReply::Refused(errno);
        }
        self.take_name(file.object, name, object);
        HostReply::Ok(HostValue::Unit)
    }

    pub fn remove_dir(&mut self, seat: &HostSeat, fd: Fd, name: &[u8]) -> HostReply
        requires { IsKeptBy self.old }
        ensures answers { (result, state_of self.new) ≡ remove_dir (state_of self.old) seat.now fd name.now }
        ensures kept { IsKeptBy self.new }
    {
        let Some((file, dir)) = open_on(&self.files, &self.nodes, fd) else {
            return HostReply::Refused(Errno::EBADF);
        };
        if let Some(errno) = name_refusal(seat, dir, name) {
            return HostReply::Refused(errno);
        }
        let Some((object, node)) = led_on(&self.nodes, dir.content.lookup(name)) else {
            return HostReply::Refused(Errno::ENOENT);
        };
        if let Some(errno) = remove_refusal(seat, dir, node) {
            return HostReply::Refused(errno);
        }
        self.take_name(file.object, name, object);
        HostReply::Ok(HostValue::Unit)
    }
}
