ghost use Rattle.std.specs.Prelude.{
  ◌≡◌,
  ◌<◌,
  ◌+◌,
  ◌/◌,
  [],
  None,
  Ok,
  IfOk,
  IsTrue,
  OnOk,
  length,
  slice_get,
  true,
};
ghost use Rattle.std.specs.List.{list_all};
ghost use Rattle.pt_node.specs.Entries.{is_directory_at};
ghost use Rattle.pt_node.specs.Mounts.{has_device};
ghost use Rattle.pt_node.specs.Node.{name_at, names_in};
ghost use Rattle.pt_rules.specs.Edits.{with_made};
ghost use Rattle.pt_rules.specs.NameCalls.{special_kind};
ghost use Rattle.pt_store.specs.StoreState.{IsStarting, numbered, state_of};
ghost use Rattle.pt_rules.specs.Building.{
  add_file,
  add_symlink,
  AddsIf,
  add_hard,
  add_mount,
  add_object,
  add_of_mode,
  add_special,
  add_xattr,
  is_linkable,
  is_new_mount,
  is_printed,
  mount_root,
  mounted,
  next_number,
  start_with,
};
ghost use Rattle.pt_rules.specs.Sound.{IsShort};

use crate::plans::Plans;
use crate::store::Store;
use pt_change::attribute_checks::{XATTR_NAME_MAX, XATTR_VALUE_MAX};
use pt_change::name_checks::{TARGET_MAX, special_kind};
use pt_change::node_edits::add_node;
use pt_host::{Bytes, ObjIds, Time};
use pt_node::attributes::Attributes;
use pt_node::entries::new_object;
use pt_node::inodes::Inodes;
use pt_node::mounts::{Mount, Mounts};
use pt_node::names::Names;
use pt_node::new_place::place_of;
use pt_node::node::{Content, FILE_MAX, Node};
use pt_node::path::object_named;
use pt_node::slots::Descriptors;
use std::alloc::{AllocError, Global};

const NEVER: Time = Time { sec: 0, nsec: 0 };

/// The directory of a mount, which is the first object of its device.
fn mount_root(alloc: Global, id: u64, dev: u64, serial: u64, handles: bool) -> Node
    ensures { result ≡ mount_root id dev serial handles }
{
    Node {
        ids: ObjIds {
            ino: 1,
            dev,
            mnt_id: id,
        },
        serial,
        has_handle: handles,
        permissions: 0o755,
        uid: 0,
        gid: 0,
        rdev: 0,
        atime: NEVER,
        mtime: NEVER,
        ctime: NEVER,
        content: Content::Directory(Names::new(alloc)),
        xattrs: Attributes::new(alloc),
    }
}

/// A path of bytes that print, without a space.
fn is_printed(path: &[u8]) -> bool
    ensures { result ≡ list_all is_printed path.now }
{
    path.iter().all(|byte| *byte > 32 && *byte < 127)
}

pub fn is_new_mount(mounts: &Mounts, id: u64, dev: u64, path: &[u8]) -> bool
    ensures { result ≡ is_new_mount mounts.now id dev path.now }
{
    id > 0 && dev > 0 && !mounts.has_id(id) && !mounts.has_device(dev) && is_printed(path)
}

/// Whether the object may get another name in this directory.
fn is_linkable(nodes: &[Node], object: usize, dir: usize) -> bool
    ensures { result ≡ is_linkable (slice_get nodes.now object) (slice_get nodes.now dir) }
{
    match (nodes.get(object), nodes.get(dir)) {
        (Some(node), Some(dir)) => !node.is_directory() && node.ids.mnt_id == dir.ids.mnt_id,
        _ => false,
    }
}

impl Store {
    /// The object comes under this name, which is free in the directory, with the next number of its device.
    fn start_node(&mut self, dir: usize, name: &[u8], mut node: Node) -> Result<(), AllocError>
        requires starting { IsStarting self.old }
        requires into { is_directory_at self.old.nodes.items dir ≡ true }
        requires free { name_at self.old.nodes.items dir name.now ≡ None }
        requires good { IsShort name.now }
        requires empty { names_in node.content ≡ [] }
        requires bare { node.xattrs ≡ [] }
        requires small { node.permissions < 4096 }
        requires serial { node.serial ≡ length self.old.nodes.items + 1 }
        requires mounted { has_device node.ids.dev self.old.mounts ≡ true }
        ensures made { OnOk result (state_of self.new ≡ with_made (state_of self.old) dir name.now
            (numbered (next_number self.old.nodes.items node.ids.dev) node)) }
        ensures starting { OnOk result (IsStarting self.new) }
    {
        let Some(directories) = self
            .inodes
            .directories_with(dir, node.content.is_directory())
        else {
            return Err(AllocError);
        };
        let name = name.to_vec(self.alloc)?;
        let object = self.nodes.len();
        node.ids.ino = self.inodes.add(self.alloc, node.ids.dev, object, 1)?;
        add_node(&mut self.nodes, dir, name, node, NEVER)?;
        self.inodes.directories[dir] = directories;
        Ok(())
    }

    /// A new object at the end of this path; false where the path may not stand there.
    fn add_object(
        &mut self,
        path: &[u8],
        permissions: u32,
        uid: u32,
        gid: u32,
        rdev: u32,
        content: Content,
    ) -> Result<bool, AllocError>
        requires starting { IsStarting self.old }
        requires small { permissions < 4096 }
        requires empty { names_in content ≡ [] }
        ensures added { IfOk result (λ added.
            AddsIf added (add_object (state_of self.old) path.now permissions uid gid rdev content)
            (state_of self.new)) }
        ensures starting { IfOk result (λ added. IsTrue added → IsStarting self.new) }
    {
        let Some((dir, name)) = place_of(&self.nodes, path) else {
            return Ok(false);
        };
        let Some(parent) = self.nodes.get(dir) else {
            return Ok(false);
        };
        let serial = self.nodes.len() as u64 + 1;
        // Its number is given as it comes under its name.
        let node = new_object(
            self.alloc,
            NEVER,
            0,
            serial,
            parent,
            permissions,
            uid,
            gid,
            rdev,
            content,
        );
        self.start_node(dir, name, node)?;
        Ok(true)
    }

    pub fn add_of_mode(
        &mut self,
        path: &[u8],
        mode: u32,
        uid: u32,
        gid: u32,
        content: Content,
    ) -> Result<bool, AllocError>
        requires starting { IsStarting self.old }
        requires empty { names_in content ≡ [] }
        ensures added { IfOk result (λ added.
            AddsIf added (add_of_mode (state_of self.old) path.now mode uid gid content) (state_of self.new)) }
        ensures starting { IfOk result (λ added. IsTrue added → IsStarting self.new) }
    {
        if mode >= 4096 {
            return Ok(false);
        }
        self.add_object(path, mode, uid, gid, 0, content)
    }

    pub fn add_file(
        &mut self,
        path: &[u8],
        mode: u32,
        uid: u32,
        gid: u32,
        bytes: &Bytes,
    ) -> Result<bool, AllocError>
        requires { IsStarting self.old }
        ensures added { IfOk result (λ added.
            AddsIf added (add_file (state_of self.old) path.now mode uid gid bytes.now) (state_of self.new)) }
        ensures starting { IfOk result (λ added. IsTrue added → IsStarting self.new) }
    {
        if bytes.len() > FILE_MAX {
            return Ok(false);
        }
        let content = Content::Regular(bytes.copy(self.alloc)?);
        self.add_of_mode(path, mode, uid, gid, content)
    }

    pub fn add_symlink(
        &mut self,
        path: &[u8],
        uid: u32,
        gid: u32,
        target: &Bytes,
    ) -> Result<bool, AllocError>
        requires { IsStarting self.old }
        ensures added { IfOk result (λ added.
            AddsIf added (add_symlink (state_of self.old) path.now uid gid target.now) (state_of self.new)) }
        ensures starting { IfOk result (λ added. IsTrue added → IsStarting self.new) }
    {
        if target.len() > TARGET_MAX {
            return Ok(false);
        }
        let content = Content::Link(target.copy(self.alloc)?);
        self.add_object(path, 0o777, uid, gid, 0, content)
    }

    pub fn add_special(
        &mut self,
        path: &[u8],
        mode: u32,
        uid: u32,
        gid: u32,
        rdev: u32,
    ) -> Result<bool, AllocError>
        requires { IsStarting self.old }
        ensures added { IfOk result (λ added.
            AddsIf added (add_special (state_of self.old) path.now mode uid gid rdev (special_kind (mode / 4096)))
            (state_of self.new)) }
        ensures starting { IfOk result (λ added. IsTrue added → IsStarting self.new) }
    {
        match special_kind(mode / 4096) {
            None => Ok(false),
            Some(kind) => self.add_object(
                path,
                mode % 4096,
                uid,
                gid,
                rdev,
                Content::Special(kind),
            ),
        }
    }

    pub fn add_hard(&mut self, path: &[u8], old: &[u8]) -> Result<bool, AllocError>
        requires { IsStarting self.old }
        ensures added { IfOk result (λ added.
            AddsIf added (add_hard (state_of self.old) path.now old.now) (state_of self.new)) }
        ensures starting { IfOk result (λ added. IsTrue added → IsStarting self.new) }
    {
        let Some((dir, name)) = place_of(&self.nodes, path) else {
            return Ok(false);
        };
        let Some(object) = object_named(&self.nodes, old) else {
            return Ok(false);
        };
        if !is_linkable(&self.nodes, object, dir) {
            return Ok(false);
        }
        self.link_name(dir, name, object)?;
        Ok(true)
    }

    pub fn add_xattr(&mut self, path: &[u8], name: &[u8], value: &Bytes) -> Result<bool, AllocError>
        requires { IsStarting self.old }
        ensures added { IfOk result (λ added.
            AddsIf added (add_xattr (state_of self.old) path.now name.now value.now) (state_of self.new)) }
        ensures starting { IfOk result (λ added. IsTrue added → IsStarting self.new) }
    {
        if name.len() > XATTR_NAME_MAX || value.len() > XATTR_VALUE_MAX {
            return Ok(false);
        }
        let Some(object) = object_named(&self.nodes, path) else {
            return Ok(false);
        };
        let name = name.to_vec(self.alloc)?;
        let value = value.copy(self.alloc)?;
        if object < self.nodes.len() {
            self.nodes[object].xattrs.insert(name, value)?;
        }
        Ok(true)
    }

    pub fn add_mount(
        &mut self,
        id: u64,
        dev: u64,
        path: &Bytes,
        handles: bool,
    ) -> Result<bool, AllocError>
        requires { IsStarting self.old }
        ensures added { IfOk result (λ added.
            AddsIf added (add_mount (state_of self.old) id dev path.now handles) (state_of self.new)) }
        ensures starting { IfOk result (λ added. IsTrue added → IsStarting self.new) }
    {
        if !is_new_mount(&self.mounts, id, dev, path.as_slice()) {
            return Ok(false);
        }
        let Some((dir, name)) = place_of(&self.nodes, path.as_slice()) else {
            return Ok(false);
        };
        let Some(parent) = self.nodes.get(dir) else {
            return Ok(false);
        };
        let mount = Mount {
            parent: parent.ids.mnt_id,
            dev,
            path: path.copy(self.alloc)?,
        };
        self.mounts.insert(id, mount)?;
        let serial = self.nodes.len() as u64 + 1;
        let root = mount_root(self.alloc, id, dev, serial, handles);
        self.start_node(dir, name, root)?;
        Ok(true)
    }

    /// With the root alone, which is mounted.
    pub fn with_root(
        alloc: Global,
        id: u64,
        dev: u64,
        path: &Bytes,
        handles: bool,
    ) -> Result<Store, AllocError>
        ensures state { IfOk result (λ store. state_of store
            ≡ mounted (start_with (mount_root id dev 1 handles)) 0 id dev path.now) }
        ensures starting { IfOk result (λ store. IsStarting store) }
    {
        let mut mounts = Mounts::new(alloc);
        let mount = Mount {
            parent: 0,
            dev,
            path: path.copy(alloc)?,
        };
        mounts.insert(id, mount)?;
        let mut inodes = Inodes::new(alloc);
        let _ = inodes.add(alloc, dev, 0, 0)?;
        let mut nodes = Vec::new(alloc);
        nodes.push(mount_root(alloc, id, dev, 1, handles))?;
        Ok(Store {
            alloc,
            nodes,
            files: Descriptors::new(alloc)?,
            mounts,
            inodes,
            calls: 0,
            plans: Plans::new(alloc),
            faults: 0,
        })
    }
}
