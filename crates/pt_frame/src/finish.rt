use pt_host::Errno;
use pt_iface::Answer;

/// How a job ends.
#[derive(Drop)]
pub enum Finish {
    Answer(Answer),
    /// Its seat could not be restored: this is what the first restoring call was answered.
    Lost(Errno),
}
