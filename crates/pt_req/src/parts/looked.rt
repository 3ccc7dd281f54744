use pt_host::ObjIds;
use pt_iface::Entry;

/// What a lookup had: the entry, and the ids of its object.
#[derive(Drop)]
pub struct Looked {
    pub entry: Entry,
    pub ids: ObjIds,
}
