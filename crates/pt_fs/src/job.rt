use pt_host::{Edit, HostSeat};
use pt_iface::{Context, Request};

/// A job's number: its place in the list of jobs.
#[derive(Clone, Copy)]
pub struct JobId(pub u32);

/// One job of `drive`.
#[derive(Drop)]
pub enum Job {
    /// A guest's request, and the seat that it runs under.
    Request(Context, HostSeat, Request),
    /// The daemon opens the shared directory.
    OpenRoot(HostSeat),
    /// Somebody else changes the host's tree, beside the requests.
    Edit(Edit),
}
