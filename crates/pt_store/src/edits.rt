ghost use Rattle.std.specs.Prelude.{◌≡◌, ◌≢◌, ◌<◌, Some, None, Ok, OnErr, OnOk, [], is_some, slice_get, true};
ghost use Rattle.pt_host.specs.Errno.{ebusy, eexist, eisdir};
ghost use Rattle.pt_store.specs.StoreState.{
  IsKeptBy,
  device_where,
  node_where,
  number_where,
  numbers_of,
  state_of,
};
ghost use Rattle.pt_node.specs.Node.{name_at, names_in};
ghost use Rattle.pt_node.specs.NewPlace.{seen_place};
ghost use Rattle.pt_node.specs.Paths.{led_on};
ghost use Rattle.pt_node.specs.declared.node.Node.{Node};
ghost use Rattle.pt_rules.specs.Does.{AnswersAs};
ghost use Rattle.pt_node.specs.Entries.{is_directory_at, is_directory_where};
ghost use Rattle.pt_rules.specs.EditPaths.{judged};
ghost use Rattle.pt_rules.specs.Edits.{
  at_place,
  edited,
  make_at,
  make_in,
  rename_judged,
  rename_onto,
  rename_placed,
  unlink_at,
  with_moved,
  with_rewritten,
  with_unlinked,
  write_at,
};
ghost use Rattle.pt_rules.specs.Sound.{IsShort};

use crate::finding::node_at;
use crate::store::{Store, device_at, number_at};
use pt_change::edit_paths::{judged, path_goes_through};
use pt_change::node_edits::{
    add_node, move_refusal, rename, replace_refusal, rewrite, unlink, unlink_refusal, write_refusal,
};
use pt_host::{Bytes, Edit, Errno, HostReply, HostValue};
use pt_node::entries::new_object;
use pt_node::links::is_directory_at;
use pt_node::names::Names;
use pt_node::node::{Content, FILE_MAX, Node};
use pt_node::path::led_on;
use std::alloc::AllocError;

/// The device of an object that may be none.
fn device_where(nodes: &[Node], object: Option<usize>) -> u64
    ensures { result ≡ device_where nodes.now object }
{
    match object {
        None => 0,
        Some(object) => device_at(nodes, object),
    }
}

/// The inode number of an object that may be none.
fn number_where(nodes: &[Node], object: Option<usize>) -> u64
    ensures { result ≡ number_where nodes.now object }
{
    match object {
        None => 0,
        Some(object) => number_at(nodes, object),
    }
}

/// Whether an object that may be none is a directory.
fn is_directory_where(nodes: &[Node], object: Option<usize>) -> bool
    ensures { result ≡ is_directory_where (node_where nodes.now object) }
{
    match object {
        None => false,
        Some(object) => is_directory_at(nodes, object),
    }
}

impl Store {
    /// The object loses this name, which leads to it.
    pub fn take_name(&mut self, dir: usize, name: &[u8], object: usize)
        requires kept { IsKeptBy self.old }
        requires leads { name_at self.old.nodes.items dir name.now ≡ Some object }
        ensures state { state_of self.new ≡ with_unlinked (state_of self.old) dir name.now object }
        ensures kept { IsKeptBy self.new }
    {
        let now = self.now();
        let dev = device_at(&self.nodes, object);
        let number = number_at(&self.nodes, object);
        let is_directory = is_directory_at(&self.nodes, object);
        unlink(&mut self.nodes, now, dir, name, object);
        self.inodes.lose_directory(dir, is_directory);
        self.inodes.lose_name(object);
        self.inodes.release(object, dev, number);
    }

    /// Unlinks by a place whose path was judged.
    fn unlink_at(&mut self, dir: usize, name: &[u8]) -> HostReply
        requires kept { IsKeptBy self.old }
        requires there { is_some (slice_get self.old.nodes.items dir) ≡ true }
        ensures answers { (parent : Node) → slice_get self.old.nodes.items dir ≡ Some parent →
            (result, state_of self.new) ≡ unlink_at (state_of self.old) ((dir, parent), name.now) }
        ensures kept { IsKeptBy self.new }
    {
        let parent = node_at(&self.nodes, dir);
        let Some((object, node)) = led_on(&self.nodes, parent.content.lookup(name)) else {
            return HostReply::Refused(Errno::ENOENT);
        };
        if let Some(errno) = unlink_refusal(parent, node) {
            return HostReply::Refused(errno);
        }
        self.take_name(dir, name, object);
        HostReply::Ok(HostValue::Unit)
    }

    fn unlink(&mut self, path: &[u8]) -> HostReply
        requires { IsKeptBy self.old }
        ensures answers { (result, state_of self.new)
            ≡ at_place (state_of self.old) ebusy (judged self.old.nodes.items path.now)
            (unlink_at (state_of self.old)) }
        ensures kept { IsKeptBy self.new }
    {
        match judged(&self.nodes, path) {
            Err(errno) => HostReply::Refused(errno),
            Ok(((dir, _), name)) => {
                if name.is_empty() {
                    return HostReply::Refused(Errno::EBUSY);
                }
                self.unlink_at(dir, name)
            }
        }
    }

    /// The object, to which the one name leads, gets the other one, which leads to the target where there is one.
    fn move_name(
        &mut self,
        from: (usize, &[u8]),
        to: (usize, &[u8]),
        object: usize,
        target: Option<usize>,
    ) -> Result<(), AllocError>
        requires kept { IsKeptBy self.old }
        requires leads { name_at self.old.nodes.items from.0 from.1.now ≡ Some object }
        requires into { is_directory_at self.old.nodes.items to.0 ≡ true }
        requires good { IsShort to.1.now }
        requires target { name_at self.old.nodes.items to.0 to.1.now ≡ target }
        requires another { target ≢ Some object }
        ensures ok { OnOk result (state_of self.new
            ≡ with_moved (state_of self.old) (seen_place from.entry) (seen_place to.entry) object target) }
        ensures err { OnErr result (state_of self.new ≡ state_of self.old) }
        ensures kept { IsKeptBy self.new }
    {
        let now = self.now();
        let dev = device_where(&self.nodes, target);
        let number = number_where(&self.nodes, target);
        let moved = is_directory_at(&self.nodes, object);
        let replaced = is_directory_where(&self.nodes, target);
        let Some(directories) = self.inodes.directories_with(to.0, moved) else {
            return Err(AllocError);
        };
        rename(self.alloc, &mut self.nodes, now, from, to, object, target)?;
        self.inodes.directories[to.0] = directories;
        self.inodes.lose_directory(from.0, moved);
        self.inodes.lose_directory(to.0, replaced);
        self.inodes.lose_name_where(target);
        self.inodes.release_where(target, dev, number);
        Ok(())
    }

    pub fn rename_onto(
        &mut self,
        from: (usize, &[u8]),
        to: (usize, &[u8]),
        object: usize,
        target: Option<usize>,
    ) -> HostReply
        requires kept { IsKeptBy self.old }
        requires leads { name_at self.old.nodes.items from.0 from.1.now ≡ Some object }
        requires into { is_directory_at self.old.nodes.items to.0 ≡ true }
        requires good { IsShort to.1.now }
        requires target { name_at self.old.nodes.items to.0 to.1.now ≡ target }
        ensures answers { (node : Node) → slice_get self.old.nodes.items object ≡ Some node →
            AnswersAs
            (rename_onto (state_of self.old) (seen_place from.entry) (seen_place to.entry) object node
            (led_on self.old.nodes.items target)) (state_of self.old) result (state_of self.new) }
        ensures kept { IsKeptBy self.new }
    {
        if let Some(other) = target {
            if other == object {
                return HostReply::Ok(HostValue::Unit);
            }
            let node = node_at(&self.nodes, object);
            if let Some(errno) = replace_refusal(node, node_at(&self.nodes, other)) {
                return HostReply::Refused(errno);
            }
        }
        match self.move_name(from, to, object, target) {
            Ok(()) => HostReply::Ok(HostValue::Unit),
            Err(_) => HostReply::NoMemory,
        }
    }

    /// Renames by two places whose paths were judged.
    fn rename_placed(&mut self, new: &[u8], from: (usize, &[u8]), to: (usize, &[u8])) -> HostReply
        requires kept { IsKeptBy self.old }
        requires out { is_some (slice_get self.old.nodes.items from.0) ≡ true }
        requires into { is_directory_at self.old.nodes.items to.0 ≡ true }
        requires good { IsShort to.1.now }
        ensures answers { (dir : Node) (dir2 : Node) →
            slice_get self.old.nodes.items from.entry.0 ≡ Some dir →
            slice_get self.old.nodes.items to.entry.0 ≡ Some dir2 →
            AnswersAs
            (rename_placed (state_of self.old) new.now ((from.entry.0, dir), from.entry.1.now)
            ((to.entry.0, dir2), to.entry.1.now)) (state_of self.old) result (state_of self.new) }
        ensures kept { IsKeptBy self.new }
    {
        let dir = node_at(&self.nodes, from.0);
        let into = node_at(&self.nodes, to.0);
        let Some((object, node)) = led_on(&self.nodes, dir.content.lookup(from.1)) else {
            return HostReply::Refused(Errno::ENOENT);
        };
        let there = into.content.lookup(to.1);
        let target = led_on(&self.nodes, there);
        let into_itself = path_goes_through(&self.nodes, new, object);
        if let Some(errno) = move_refusal(into_itself, dir, into, node, target) {
            return HostReply::Refused(errno);
        }
        self.rename_onto(from, to, object, there)
    }

    fn rename(&mut self, old: &[u8], new: &[u8]) -> HostReply
        requires { IsKeptBy self.old }
        ensures answers { AnswersAs
            (rename_judged (state_of self.old) new.now (judged self.old.nodes.items old.now)
            (judged self.old.nodes.items new.now)) (state_of self.old) result (state_of self.new) }
        ensures kept { IsKeptBy self.new }
    {
        match judged(&self.nodes, old) {
            Err(errno) => HostReply::Refused(errno),
            Ok(((dir, _), name)) => match judged(&self.nodes, new) {
                Err(errno) => HostReply::Refused(errno),
                Ok(((into, _), name2)) => {
                    if name.is_empty() || name2.is_empty() {
                        return HostReply::Refused(Errno::EBUSY);
                    }
                    self.rename_placed(new, (dir, name), (into, name2))
                }
            },
        }
    }

    /// A new object under a name that is free in the directory.
    pub fn make_in(
        &mut self,
        dir: usize,
        name: &[u8],
        permissions: u32,
        uid: u32,
        gid: u32,
        rdev: u32,
        content: Content,
    ) -> HostReply
        requires kept { IsKeptBy self.old }
        requires into { is_directory_at self.old.nodes.items dir ≡ true }
        requires free { name_at self.old.nodes.items dir name.now ≡ None }
        requires good { IsShort name.now }
        requires empty { names_in content ≡ [] }
        requires small { permissions < 4096 }
        ensures answers { (parent : Node) → slice_get self.old.nodes.items dir ≡ Some parent →
            AnswersAs
            (make_in (state_of self.old) (numbers_of self.old) dir name.now permissions uid gid rdev content parent)
            (state_of self.old) result (state_of self.new) }
        ensures kept { IsKeptBy self.new }
    {
        let now = self.now();
        let object = self.nodes.len();
        let parent = node_at(&self.nodes, dir);
        let Ok(name) = name.to_vec(self.alloc) else {
            return HostReply::NoMemory;
        };
        let Some(directories) = self.inodes.directories_with(dir, content.is_directory()) else {
            return HostReply::NoMemory;
        };
        let dev = parent.ids.dev;
        let Ok(number) = self.inodes.add(self.alloc, dev, object, 1) else {
            return HostReply::NoMemory;
        };
        let serial = object as u64 + 1;
        let node = new_object(
            self.alloc,
            now,
            number,
            serial,
            parent,
            permissions,
            uid,
            gid,
            rdev,
            content,
        );
        match add_node(&mut self.nodes, dir, name, node, now) {
            Ok(()) => {
                self.inodes.directories[dir] = directories;
                HostReply::Ok(HostValue::Unit)
            }
            Err(_) => {
                self.inodes.take_back(dev, number);
                HostReply::NoMemory
            }
        }
    }

    fn make(&mut self, path: &[u8], mode: u32, uid: u32, gid: u32, content: Content) -> HostReply
        requires kept { IsKeptBy self.old }
        requires empty { names_in content ≡ [] }
        ensures answers { AnswersAs
            (at_place (state_of self.old) eexist (judged self.old.nodes.items path.now)
            (make_at (state_of self.old) (numbers_of self.old) mode uid gid content)) (state_of self.old) result
            (state_of self.new) }
        ensures kept { IsKeptBy self.new }
    {
        match judged(&self.nodes, path) {
            Err(errno) => HostReply::Refused(errno),
            Ok(((dir, parent), name)) => {
                if name.is_empty() || parent.content.lookup(name).is_some() {
                    return HostReply::Refused(Errno::EEXIST);
                }
                if content.size() > FILE_MAX as u64 {
                    return HostReply::Refused(Errno::EFBIG);
                }
                self.make_in(dir, name, mode % 4096, uid, gid, 0, content)
            }
        }
    }

    fn rewrite(&mut self, object: usize, bytes: &[u8]) -> Result<(), AllocError>
        requires { IsKeptBy self.old }
        ensures ok { OnOk result (state_of self.new ≡ with_rewritten (state_of self.old) object bytes.now) }
        ensures err { OnErr result (state_of self.new ≡ state_of self.old) }
        ensures kept { IsKeptBy self.new }
    {
        let now = self.now();
        let bytes = Bytes::from_slice(self.alloc, bytes)?;
        rewrite(&mut self.nodes, object, bytes, now);
        Ok(())
    }

    /// Writes by a place whose path was judged.
    fn write_at(&mut self, dir: usize, name: &[u8], bytes: &[u8]) -> HostReply
        requires kept { IsKeptBy self.old }
        requires there { is_some (slice_get self.old.nodes.items dir) ≡ true }
        ensures answers { (parent : Node) → slice_get self.old.nodes.items dir ≡ Some parent →
            AnswersAs (write_at (state_of self.old) bytes.now ((dir, parent), name.now))
            (state_of self.old) result (state_of self.new) }
        ensures kept { IsKeptBy self.new }
    {
        let parent = node_at(&self.nodes, dir);
        let Some((object, node)) = led_on(&self.nodes, parent.content.lookup(name)) else {
            return HostReply::Refused(Errno::ENOENT);
        };
        if let Some(errno) = write_refusal(node, bytes.len()) {
            return HostReply::Refused(errno);
        }
        match self.rewrite(object, bytes) {
            Ok(()) => HostReply::Ok(HostValue::Unit),
            Err(_) => HostReply::NoMemory,
        }
    }

    fn write(&mut self, path: &[u8], bytes: &[u8]) -> HostReply
        requires { IsKeptBy self.old }
        ensures answers { AnswersAs
            (at_place (state_of self.old) eisdir (judged self.old.nodes.items path.now)
            (write_at (state_of self.old) bytes.now)) (state_of self.old) result (state_of self.new) }
        ensures kept { IsKeptBy self.new }
    {
        match judged(&self.nodes, path) {
            Err(errno) => HostReply::Refused(errno),
            Ok(((dir, _), name)) => {
                if name.is_empty() {
                    return HostReply::Refused(Errno::EISDIR);
                }
                self.write_at(dir, name, bytes)
            }
        }
    }

    /// Makes an edit, which is not counted yet.
    pub fn edit(&mut self, edit: &Edit) -> HostReply
        requires { IsKeptBy self.old }
        ensures answers { AnswersAs (edited (state_of self.old) (numbers_of self.old) edit.now)
            (state_of self.old) result (state_of self.new) }
        ensures kept { IsKeptBy self.new }
    {
        match edit {
            Edit::Unlink { path } => self.unlink(path.as_slice()),
            Edit::Rename { old, new } => self.rename(old.as_slice(), new.as_slice()),
            Edit::File {
                path,
                mode,
                uid,
                gid,
                bytes,
            } => match bytes.copy(self.alloc) {
                Ok(bytes) => {
                    let content = Content::Regular(bytes);
                    self.make(path.as_slice(), *mode, *uid, *gid, content)
                }
                Err(_) => HostReply::NoMemory,
            },
            Edit::Dir {
                path,
                mode,
                uid,
                gid,
            } => {
                let content = Content::Directory(Names::new(self.alloc));
                self.make(path.as_slice(), *mode, *uid, *gid, content)
            }
            Edit::Write { path, bytes } => self.write(path.as_slice(), bytes.as_slice()),
        }
    }
}
