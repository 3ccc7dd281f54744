use pt_host::Bytes;
use pt_iface::DirEntries;

/// What a request makes, which takes memory.
#[derive(Drop)]
pub enum Product {
    Bytes(Bytes),
    Entries(DirEntries),
}
