mod asker;
mod capability;
mod entry;
mod label;
mod looked;
mod looking;
mod name;
mod offset;
mod opening;
mod options;
mod rooting;
mod row;

pub use asker::{as_asker, asker_of, umask_of, under_umask};
pub use capability::{clear_capability, drops_fsetid, without_fsetid};
pub use entry::attr_of;
pub use label::{Label, host_label, host_name, is_blocked};
pub use looked::Looked;
pub use looking::do_lookup;
pub use name::{is_bad_name, named};
pub use offset::{is_bad_offset, placed};
pub use opening::{do_open, handled};
pub use options::{
    agreed_with, create_options, init_answer, inode_flags, making_flags, open_options,
    without_nofollow,
};
pub use rooting::root_open;
pub use row::{can_open, file_of, open_inode, open_row};
