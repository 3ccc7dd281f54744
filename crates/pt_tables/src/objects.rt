//! Where an object has its live row.
ghost use Rattle.std.specs.Prelude.{◌≡◌, None, Some, OnOk, OnErr};
ghost use Rattle.pt_tables.specs.Index.{key_of, by_object};
ghost use Rattle.pt_rows.specs.Index.{Puts, SameAt, Leaves};

use pt_host::ObjIds;
use std::alloc::AllocError;
use std::collections::BTreeMap;

/// Inode number and device, then mount.
pub type ObjectKey = ((u64, u64), u64);

/// The serial of the live row of each object that has one.
pub type Objects = BTreeMap<ObjectKey, u64>;

pub fn object_key(ids: ObjIds) -> ObjectKey
    ensures { result ≡ key_of ids }
{
    ((ids.ino, ids.dev), ids.mnt_id)
}

/// Enters the object of a row into the index, or leaves that as it is.
pub fn enter_object(objects: &mut Objects, ids: ObjIds, serial: u64) -> Result<(), AllocError>
    ensures ok { OnOk result (Puts (key_of ids) (Some serial) (by_object objects.old) (by_object objects.new)) }
    ensures err { OnErr result (SameAt (by_object objects.old) (by_object objects.new)) }
{
    match objects.insert(object_key(ids), serial) {
        Ok(_) => Ok(()),
        Err(_) => Err(AllocError),
    }
}

/// Takes the object of a row out of the index, where the row is live.
pub fn leave_object(objects: &mut Objects, live: bool, ids: ObjIds)
    ensures { Leaves live (key_of ids) (by_object objects.old) (by_object objects.new) }
{
    if live {
        let _ = objects.remove(&object_key(ids));
    }
}
