//! Requests as trees of steps, by their parts, and the functions that take the steps.
#![tactic(auto)]

mod begun;
mod parts;
mod plan;
mod replies;
mod requests;
mod steps;
mod words;

pub use begun::BegunSession;
pub use parts::{
    Label, Looked, agreed_with, as_asker, asker_of, attr_of, can_open, clear_capability,
    create_options, do_lookup, do_open, drops_fsetid, file_of, handled, host_label, host_name,
    init_answer, is_bad_name, is_bad_offset, is_blocked, making_flags, named, open_inode,
    open_options, open_row, placed, root_open, umask_of, under_umask, without_fsetid,
};
pub use plan::{CachePolicy, Config, Plan};
pub use replies::{Made, ok_in};
pub use requests::{
    batch_forget, destroy, forget, init, lookup, open, opendir, read, release, root,
};
pub use steps::{
    begin, claim, clear, draw_handle, draw_node, drop_xattr, forget_all, forget_one, insert,
    insert_handle, insert_root, make_at, open_at, open_root, open_scope, pin_handle, read_at,
    release_handle, reopen, resolve, set_xattr, stat, take_fd, try_call,
};
pub use words::InodeFileHandlesMode;
