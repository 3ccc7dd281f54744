ghost use Rattle.pt_show.specs.HostTexts.{errno_text, fd_text, flags_text, ids_text, time_text, stat_text};
ghost use Rattle.pt_show.specs.HostTexts.{fs_stat_text, c_handle_text, handle_text, value_text, host_reply_text};

use crate::plain::{push_bytes, push_name, push_named};
use crate::text::Text;
use pt_host::{
    CFileHandle, Errno, Fd, FileHandle, FsStat, HostReply, HostValue, ObjIds, OpenFlags, Stat, Time,
};
use std::alloc::AllocError;

impl Text for Errno {
    ghost text = { errno_text };

    fn write(&self, out: &mut Vec<u8>) -> Result<(), AllocError> {
        self.0.write(out)
    }
}

impl Text for Fd {
    ghost text = { fd_text };

    fn write(&self, out: &mut Vec<u8>) -> Result<(), AllocError> {
        self.0.write(out)
    }
}

impl Text for OpenFlags {
    ghost text = { flags_text };

    fn write(&self, out: &mut Vec<u8>) -> Result<(), AllocError> {
        self.0.write(out)
    }
}

impl Text for ObjIds {
    ghost text = { ids_text };

    fn write(&self, out: &mut Vec<u8>) -> Result<(), AllocError> {
        self.ino.write(out)?;
        self.dev.write(out)?;
        self.mnt_id.write(out)
    }
}

impl Text for Time {
    ghost text = { time_text };

    fn write(&self, out: &mut Vec<u8>) -> Result<(), AllocError> {
        self.sec.write(out)?;
        self.nsec.write(out)
    }
}

impl Text for Stat {
    ghost text = { stat_text };

    fn write(&self, out: &mut Vec<u8>) -> Result<(), AllocError> {
        self.ids.write(out)?;
        self.mode.write(out)?;
        self.nlink.write(out)?;
        self.uid.write(out)?;
        self.gid.write(out)?;
        self.rdev.write(out)?;
        self.size.write(out)?;
        self.blksize.write(out)?;
        self.blocks.write(out)?;
        self.atime.write(out)?;
        self.mtime.write(out)?;
        self.ctime.write(out)
    }
}

impl Text for FsStat {
    ghost text = { fs_stat_text };

    fn write(&self, out: &mut Vec<u8>) -> Result<(), AllocError> {
        self.blocks.write(out)?;
        self.bfree.write(out)?;
        self.bavail.write(out)?;
        self.files.write(out)?;
        self.ffree.write(out)?;
        self.bsize.write(out)?;
        self.namelen.write(out)?;
        self.frsize.write(out)
    }
}

impl Text for CFileHandle {
    ghost text = { c_handle_text };

    fn write(&self, out: &mut Vec<u8>) -> Result<(), AllocError> {
        self.handle_type.write(out)?;
        push_bytes(out, self.as_bytes())
    }
}

impl Text for FileHandle {
    ghost text = { handle_text };

    fn write(&self, out: &mut Vec<u8>) -> Result<(), AllocError> {
        self.mnt_id.write(out)?;
        self.handle.write(out)
    }
}

impl Text for HostValue {
    ghost text = { value_text };

    fn write(&self, out: &mut Vec<u8>) -> Result<(), AllocError> {
        match self {
            HostValue::Unit => push_name(out, b" Unit"),
            HostValue::Fd(fd) => push_named(out, b" Fd", fd),
            HostValue::Stat(stat) => push_named(out, b" Stat", stat),
            HostValue::Handle(handle) => push_named(out, b" Handle", handle),
            HostValue::FsStat(stat) => push_named(out, b" FsStat", stat),
            HostValue::Bytes(bytes) => push_named(out, b" Bytes", bytes),
            HostValue::Count(count) => push_named(out, b" Count", count),
        }
    }
}

impl Text for HostReply {
    ghost text = { host_reply_text };

    fn write(&self, out: &mut Vec<u8>) -> Result<(), AllocError> {
        match self {
            HostReply::Ok(value) => push_named(out, b" Ok", value),
            HostReply::Refused(errno) => push_named(out, b" Refused", errno),
            HostReply::Fault(errno) => push_named(out, b" Fault", errno),
            HostReply::NoMemory => push_name(out, b" NoMemory"),
        }
    }
}
