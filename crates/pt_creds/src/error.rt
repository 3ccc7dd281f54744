use pt_host::Errno;

/// Why an identity was not taken on, or not given back.
#[derive(Clone, Copy, Debug)]
pub enum CredError {
    /// A step was refused, and the seat is as before.
    Host(Errno),
    /// A step back was refused, the first with this error: the seat is lost.
    Lost(Errno),
}
