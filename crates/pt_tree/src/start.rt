ghost use Rattle.std.specs.Prelude.{
  ◌≡◌,
  ◌<◌,
  ◌/◌,
  ◌^◌,
  ◌∷◌,
  [],
  Ok,
  IfOk,
  IfErr,
  IfSome,
  IsTrue,
  length,
  option_map,
};
ghost use Rattle.std.specs.Str.{bytes_eq};
ghost use Rattle.pt_host.specs.Tree.{IsWellFormed};
ghost use Rattle.pt_rules.specs.State.{tree_of};
ghost use Rattle.pt_store.specs.StoreState.{IsKeptBy, IsStarting, state_of};
ghost use Rattle.pt_rules.specs.Building.{
  AddsIf,
  add_hard,
  add_mount,
  add_of_mode,
  add_special,
  add_xattr,
  is_new_mount,
};
ghost use Rattle.pt_tree.specs.Start.{add_line, first_line, IsCause, NoneOpen, start_of, StartsAs};

use crate::host::TreeHost;
use crate::spec::{SpecError, TreeLine, TreeSpec};
use pt_node::mounts::Mounts;
use pt_node::names::Names;
use pt_node::node::Content;
use pt_store::building::is_new_mount;
use pt_store::store::Store;
use std::alloc::{AllocError, Global};

/// What one more line makes; false where it breaks the rules.
fn add_line(store: &mut Store, line: &TreeLine) -> Result<bool, AllocError>
    requires { IsStarting store.old }
    ensures added { IfOk result (λ added. AddsIf added (add_line (state_of store.old) line.now) (state_of store.new)) }
    ensures starting { IfOk result (λ added. IsTrue added → IsStarting store.new) }
{
    match line {
        TreeLine::Mount {
            id,
            dev,
            path,
            handles,
        } => store.add_mount(*id, *dev, path, *handles),
        TreeLine::File {
            path,
            mode,
            uid,
            gid,
            bytes,
        } => store.add_file(path.as_slice(), *mode, *uid, *gid, bytes),
        TreeLine::Dir {
            path,
            mode,
            uid,
            gid,
        } => {
            let content = Content::Directory(Names::new(store.alloc));
            store.add_of_mode(path.as_slice(), *mode, *uid, *gid, content)
        }
        TreeLine::Link {
            path,
            uid,
            gid,
            target,
        } => store.add_symlink(path.as_slice(), *uid, *gid, target),
        TreeLine::Spec {
            path,
            mode,
            uid,
            gid,
            rdev,
        } => store.add_special(path.as_slice(), *mode, *uid, *gid, *rdev),
        TreeLine::Hard { path, old } => store.add_hard(path.as_slice(), old.as_slice()),
        TreeLine::Xattr { path, name, value } => {
            store.add_xattr(path.as_slice(), name.as_slice(), value)
        }
    }
}

/// The store as the first line has it, which mounts the root.
fn store_from(alloc: Global, line: &TreeLine) -> Result<Option<Store>, AllocError>
    ensures state { IfOk result (λ store. option_map state_of store ≡ first_line line.now) }
    ensures starting { IfOk result (λ store. IfSome store (λ begun. IsStarting begun)) }
{
    match line {
        TreeLine::Mount {
            id,
            dev,
            path,
            handles,
        } => {
            let none = Mounts::new(alloc);
            if is_new_mount(&none, *id, *dev, path.as_slice()) && is_root(path.as_slice()) {
                let store = Store::with_root(alloc, *id, *dev, path, *handles)?;
                Ok(Some(store))
            } else {
                Ok(None)
            }
        }
        _ => Ok(None),
    }
}

fn is_root(path: &[u8]) -> bool
    ensures { result ≡ bytes_eq path.now (47 ∷ []) }
{
    path == b"/".as_slice()
}

/// The store that the lines describe.
fn store_of(alloc: Global, lines: &[TreeLine]) -> Result<Store, SpecError>
    requires { length lines.now < 2 ^ 32 }
    ensures ok { IfOk result (λ store. start_of lines.now ≡ Ok (state_of store)) }
    ensures kept { IfOk result (λ store. IsKeptBy store) }
    ensures err { IfErr result (λ error. IsCause lines.now error) }
{
    let Some((first, rest)) = lines.split_first() else {
        return Err(SpecError::NotATree(1));
    };
    let Some(mut store) = store_from(alloc, first)? else {
        return Err(SpecError::NotATree(1));
    };
    let mut number = 1;
    for line in rest {
        number += 1;
        if !add_line(&mut store, line)? {
            return Err(SpecError::NotATree(number));
        }
    }
    Ok(store)
}

impl TreeHost {
    /// A host that holds the tree which the lines describe, with no file open and no call answered.
    pub fn from_spec(alloc: Global, spec: &TreeSpec) -> Result<TreeHost, SpecError>
        requires { length spec.now < 2 ^ 32 }
        ensures ok { IfOk result (λ host. StartsAs spec.now host) }
        ensures well_formed { IfOk result (λ host. IsWellFormed (tree_of host)) }
        ensures none_open { IfOk result (λ host. NoneOpen (tree_of host)) }
        ensures none_failed { IfOk result (λ host. host.faults ≡ 0) }
        ensures err { IfErr result (λ error. IsCause spec.now error) }
    {
        let store = store_of(alloc, spec.as_slice())?;
        Ok(TreeHost { store })
    }
}
