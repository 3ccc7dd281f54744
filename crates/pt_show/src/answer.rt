ghost use Rattle.pt_show.specs.AnswerTexts.{timeout_text, attr_text, entry_text, options_text, open_options_text};
ghost use Rattle.pt_show.specs.AnswerTexts.{dir_entry_text, listing_text, xattr_text, xattrs_text, answer_text};

use crate::plain::{push_name, push_named};
use crate::text::Text;
use pt_iface::{
    Answer, Attr, DirEntries, DirEntry, Entry, FsOptions, GetxattrReply, ListxattrReply,
    OpenOptions, Timeout,
};
use std::alloc::AllocError;

impl Text for Timeout {
    ghost text = { timeout_text };

    fn write(&self, out: &mut Vec<u8>) -> Result<(), AllocError> {
        self.secs.write(out)?;
        self.nanos.write(out)
    }
}

impl Text for Attr {
    ghost text = { attr_text };

    fn write(&self, out: &mut Vec<u8>) -> Result<(), AllocError> {
        self.ino.write(out)?;
        self.size.write(out)?;
        self.blocks.write(out)?;
        self.atime.write(out)?;
        self.mtime.write(out)?;
        self.ctime.write(out)?;
        self.mode.write(out)?;
        self.nlink.write(out)?;
        self.uid.write(out)?;
        self.gid.write(out)?;
        self.rdev.write(out)?;
        self.blksize.write(out)?;
        self.flags.write(out)
    }
}

impl Text for Entry {
    ghost text = { entry_text };

    fn write(&self, out: &mut Vec<u8>) -> Result<(), AllocError> {
        self.inode.write(out)?;
        self.generation.write(out)?;
        self.attr.write(out)?;
        self.attr_timeout.write(out)?;
        self.entry_timeout.write(out)
    }
}

impl Text for FsOptions {
    ghost text = { options_text };

    fn write(&self, out: &mut Vec<u8>) -> Result<(), AllocError> {
        self.0.write(out)
    }
}

impl Text for OpenOptions {
    ghost text = { open_options_text };

    fn write(&self, out: &mut Vec<u8>) -> Result<(), AllocError> {
        self.0.write(out)
    }
}

impl Text for DirEntry {
    ghost text = { dir_entry_text };

    fn write(&self, out: &mut Vec<u8>) -> Result<(), AllocError> {
        self.ino.write(out)?;
        self.offset.write(out)?;
        self.kind.write(out)?;
        self.name.write(out)
    }
}

impl Text for DirEntries {
    ghost text = { listing_text };

    fn write(&self, out: &mut Vec<u8>) -> Result<(), AllocError> {
        self.as_slice().write(out)
    }
}

impl Text for GetxattrReply {
    ghost text = { xattr_text };

    fn write(&self, out: &mut Vec<u8>) -> Result<(), AllocError> {
        match self {
            GetxattrReply::Value(bytes) => push_named(out, b" Value", bytes),
            GetxattrReply::Count(count) => push_named(out, b" Count", count),
        }
    }
}

impl Text for ListxattrReply {
    ghost text = { xattrs_text };

    fn write(&self, out: &mut Vec<u8>) -> Result<(), AllocError> {
        match self {
            ListxattrReply::Names(bytes) => push_named(out, b" Names", bytes),
            ListxattrReply::Count(count) => push_named(out, b" Count", count),
        }
    }
}

impl Text for Answer {
    ghost text = { answer_text };

    fn write(&self, out: &mut Vec<u8>) -> Result<(), AllocError> {
        match self {
            Answer::NoReply => push_name(out, b" NoReply"),
            Answer::Done => push_name(out, b" Done"),
            Answer::Inited(options) => push_named(out, b" Inited", options),
            Answer::Entry(entry) => push_named(out, b" Entry", entry),
            Answer::Opened(handle, options) => {
                push_named(out, b" Opened", handle)?;
                options.write(out)
            }
            Answer::Created(entry, handle, options) => {
                push_named(out, b" Created", entry)?;
                handle.write(out)?;
                options.write(out)
            }
            Answer::Attr(attr, timeout) => {
                push_named(out, b" Attr", attr)?;
                timeout.write(out)
            }
            Answer::Read(bytes) => push_named(out, b" Read", bytes),
            Answer::Wrote(count) => push_named(out, b" Wrote", count),
            Answer::Link(target) => push_named(out, b" Link", target),
            Answer::FsStat(stat) => push_named(out, b" FsStat", stat),
            Answer::Listing(entries) => push_named(out, b" Listing", entries),
            Answer::Xattr(told) => push_named(out, b" Xattr", told),
            Answer::Xattrs(told) => push_named(out, b" Xattrs", told),
            Answer::Offset(place) => push_named(out, b" Offset", place),
            Answer::Edited => push_name(out, b" Edited"),
            Answer::EditRefused(errno) => push_named(out, b" EditRefused", errno),
            Answer::Refused(errno) => push_named(out, b" Refused", errno),
            Answer::NoMemory => push_name(out, b" NoMemory"),
            Answer::Cut => push_name(out, b" Cut"),
        }
    }
}
