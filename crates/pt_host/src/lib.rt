//! What a host is asked and what it answers: descriptors, statuses, seats, calls and replies, and the trait `Host`
//! whose laws every host keeps.
#![tactic(auto)]

mod bytes;
mod edit;
mod flags;
mod groups;
mod handle;
mod host;
mod ids;
mod kept;
mod op;
mod reply;
mod seat;
mod seat_call;
mod stat;

pub use bytes::Bytes;
pub use edit::Edit;
pub use flags::{Caps, OpenFlags};
pub use groups::{GroupList, Groups};
pub use handle::{CFileHandle, FileHandle, HandleBytes};
pub use host::Host;
pub use ids::{Errno, Fd, Inode, MountId, ObjIds, Time, TimeSet};
pub use op::{HostOp, KeptHostOp};
pub use reply::{HostReply, HostValue};
pub use seat::HostSeat;
pub use stat::{FsStat, Stat, StatExt};
