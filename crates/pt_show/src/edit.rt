ghost use Rattle.pt_show.specs.EditTexts.{edit_text};

use crate::plain::{push_five, push_four, push_named, push_two};
use crate::text::Text;
use pt_host::Edit;
use std::alloc::AllocError;

impl Text for Edit {
    ghost text = { edit_text };

    fn write(&self, out: &mut Vec<u8>) -> Result<(), AllocError> {
        match self {
            Edit::Unlink { path } => push_named(out, b" Unlink", path),
            Edit::Rename { old, new } => push_two(out, b" Rename", old, new),
            Edit::File {
                path,
                mode,
                uid,
                gid,
                bytes,
            } => push_five(out, b" File", path, mode, uid, gid, bytes),
            Edit::Dir {
                path,
                mode,
                uid,
                gid,
            } => push_four(out, b" Dir", path, mode, uid, gid),
            Edit::Write { path, bytes } => push_two(out, b" Write", path, bytes),
        }
    }
}
