ghost use Rattle.std.specs.Prelude.{◌≡◌, ◌≤◌, ◌+◌, OnErr, OnOk, length};
ghost use Rattle.pt_store.specs.StoreState.{IsKeptBy, state_of};
ghost use Rattle.pt_rules.specs.Does.{AnswersAs};
ghost use Rattle.pt_rules.specs.Rows.{on_row};
ghost use Rattle.pt_rules.specs.ContentCalls.{
  allocate_row,
  copy_range,
  flush_row,
  is_path_only,
  lengthens,
  resized,
  seek,
  sought,
  sync_row,
  truncate_row,
  with_written,
  write_row,
  written,
};
ghost use Rattle.pt_node.specs.Limits.{file_max};

use crate::finding::open_on;
use crate::store::Store;
use pt_change::contents::{
    allocate_refusal, copy_refusal, is_path_only, lengthens, resized, sought, truncate_refusal,
    write_refusal, written,
};
use pt_host::{Errno, Fd, HostReply, HostSeat, HostValue};
use pt_node::reading::part_of;
use std::alloc::AllocError;

impl Store {
    /// The bytes come into the file from a place on.
    fn write_from(
        &mut self,
        seat: &HostSeat,
        object: usize,
        start: usize,
        bytes: &[u8],
    ) -> Result<(), AllocError>
        requires kept { IsKeptBy self.old }
        requires fits { start + length bytes.now ≤ file_max }
        ensures ok { OnOk result (state_of self.new
            ≡ with_written (state_of self.old) seat.now object start bytes.now) }
        ensures err { OnErr result (state_of self.new ≡ state_of self.old) }
        ensures kept { IsKeptBy self.new }
    {
        if bytes.is_empty() {
            return Ok(());
        }
        let now = self.now();
        let Some(node) = self.nodes.get(object) else {
            return Ok(());
        };
        let after = written(self.alloc, start, bytes, node.content.bytes())?;
        self.nodes[object].refill(seat, after, now);
        Ok(())
    }

    pub fn write_bytes(
        &mut self,
        seat: &HostSeat,
        fd: Fd,
        offset: u64,
        bytes: &[u8],
        append: bool,
    ) -> HostReply
        requires { IsKeptBy self.old }
        ensures answers { AnswersAs
            (on_row (state_of self.old) fd (write_row (state_of self.old) seat.now offset bytes.now append))
            (state_of self.old) result (state_of self.new) }
        ensures kept { IsKeptBy self.new }
    {
        let Some((file, node)) = open_on(&self.files, &self.nodes, fd) else {
            return HostReply::Refused(Errno::EBADF);
        };
        let start = if append { node.content.size() } else { offset };
        if let Some(errno) = write_refusal(file, start, bytes.len() as u64) {
            return HostReply::Refused(errno);
        }
        match self.write_from(seat, file.object, start as usize, bytes) {
            Ok(()) => HostReply::Ok(HostValue::Count(bytes.len() as u64)),
            Err(_) => HostReply::NoMemory,
        }
    }

    pub fn truncate(&mut self, seat: &HostSeat, fd: Fd, size: u64) -> HostReply
        requires { IsKeptBy self.old }
        ensures answers { AnswersAs (on_row (state_of self.old) fd (truncate_row (state_of self.old) seat.now size))
            (state_of self.old) result (state_of self.new) }
        ensures kept { IsKeptBy self.new }
    {
        let now = self.now();
        let Some((file, node)) = open_on(&self.files, &self.nodes, fd) else {
            return HostReply::Refused(Errno::EBADF);
        };
        if let Some(errno) = truncate_refusal(file, size) {
            return HostReply::Refused(errno);
        }
        match resized(self.alloc, size as usize, node.content.bytes()) {
            Ok(bytes) => {
                self.nodes[file.object].refill(seat, bytes, now);
                HostReply::Ok(HostValue::Unit)
            }
            Err(_) => HostReply::NoMemory,
        }
    }

    pub fn allocate(&mut self, fd: Fd, mode: u32, offset: u64, size: u64) -> HostReply
        requires { IsKeptBy self.old }
        ensures answers { AnswersAs
            (on_row (state_of self.old) fd (allocate_row (state_of self.old) mode offset size))
            (state_of self.old) result (state_of self.new) }
        ensures kept { IsKeptBy self.new }
    {
        let now = self.now();
        let Some((file, node)) = open_on(&self.files, &self.nodes, fd) else {
            return HostReply::Refused(Errno::EBADF);
        };
        if let Some(errno) = allocate_refusal(file, mode, offset, size) {
            return HostReply::Refused(errno);
        }
        let end = offset + size;
        if !lengthens(mode, node.content.size(), end) {
            return HostReply::Ok(HostValue::Unit);
        }
        match resized(self.alloc, end as usize, node.content.bytes()) {
            Ok(bytes) => {
                self.nodes[file.object].rewrite(bytes, now);
                HostReply::Ok(HostValue::Unit)
            }
            Err(_) => HostReply::NoMemory,
        }
    }

    pub fn seek(&mut self, fd: Fd, offset: i64, whence: u32) -> HostReply
        requires { IsKeptBy self.old }
        ensures answers { (result, state_of self.new) ≡ seek (state_of self.old) fd offset whence }
        ensures kept { IsKeptBy self.new }
    {
        let Some((file, node)) = open_on(&self.files, &self.nodes, fd) else {
            return HostReply::Refused(Errno::EBADF);
        };
        if is_path_only(file) {
            return HostReply::Refused(Errno::EBADF);
        }
        if node.is_directory() {
            return HostReply::Refused(Errno::EINVAL);
        }
        match sought(file.position, node.content.size(), offset, whence) {
            Ok(position) => {
                self.files.go_to(fd, position);
                HostReply::Ok(HostValue::Count(position))
            }
            Err(errno) => HostReply::Refused(errno),
        }
    }

    pub fn copy_range(
        &mut self,
        seat: &HostSeat,
        from: (Fd, u64),
        to: (Fd, u64),
        size: u64,
        flags: u64,
    ) -> HostReply
        requires { IsKeptBy self.old }
        ensures answers { AnswersAs (copy_range (state_of self.old) seat.now from.0 from.1 to.0 to.1 size flags)
            (state_of self.old) result (state_of self.new) }
        ensures kept { IsKeptBy self.new }
    {
        let now = self.now();
        let Some((file, node)) = open_on(&self.files, &self.nodes, from.0) else {
            return HostReply::Refused(Errno::EBADF);
        };
        let Some((file2, target)) = open_on(&self.files, &self.nodes, to.0) else {
            return HostReply::Refused(Errno::EBADF);
        };
        let part = part_of(node.content.bytes(), from.1, size);
        let count = part.len() as u64;
        if let Some(errno) = copy_refusal(file, node, file2, from.1, to.1, count, flags) {
            return HostReply::Refused(errno);
        }
        if part.is_empty() {
            self.nodes[file.object].atime = now;
            return HostReply::Ok(HostValue::Count(0));
        }
        match written(self.alloc, to.1 as usize, part, target.content.bytes()) {
            Ok(bytes) => {
                self.nodes[file.object].atime = now;
                self.nodes[file2.object].refill(seat, bytes, now);
                HostReply::Ok(HostValue::Count(count))
            }
            Err(_) => HostReply::NoMemory,
        }
    }

    pub fn flush(&self, fd: Fd) -> HostReply
        requires { IsKeptBy self.now }
        ensures { (result, state_of self.now) ≡ on_row (state_of self.now) fd flush_row }
    {
        let Some((file, _)) = open_on(&self.files, &self.nodes, fd) else {
            return HostReply::Refused(Errno::EBADF);
        };
        HostReply::Ok(HostValue::Unit)
    }

    /// `Sync` and `SyncFs`: all is written already.
    pub fn sync(&self, fd: Fd) -> HostReply
        requires { IsKeptBy self.now }
        ensures { (result, state_of self.now) ≡ on_row (state_of self.now) fd sync_row }
    {
        let Some((file, _)) = open_on(&self.files, &self.nodes, fd) else {
            return HostReply::Refused(Errno::EBADF);
        };
        if is_path_only(file) {
            return HostReply::Refused(Errno::EBADF);
        }
        HostReply::Ok(HostValue::Unit)
    }
}
