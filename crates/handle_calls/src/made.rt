//! What calls are made with.

use pt_handles::{MountFds, ReadDir};
use pt_host::HostSeat;
use pt_tree::TreeHost;

/// The tree and the seat, and where the case has them the table of mounts and the reader.
#[derive(Drop)]
pub struct Made {
    pub host: TreeHost,
    pub seat: HostSeat,
    pub mounts: Option<MountFds>,
    pub reader: Option<ReadDir>,
}

impl Made {
    /// Without a table of mounts and without a reader.
    pub fn new(host: TreeHost, seat: HostSeat) -> Self {
        Made {
            host,
            seat,
            mounts: None,
            reader: None,
        }
    }
}
