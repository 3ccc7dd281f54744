ghost use Rattle.std.specs.Prelude.{◌≡◌};
ghost use Rattle.pt_store.specs.StoreState.{IsKeptBy, state_of};
ghost use Rattle.pt_rules.specs.Does.{AnswersAs};
ghost use Rattle.pt_rules.specs.Rows.{on_row};
ghost use Rattle.pt_node.specs.Attributes.{names_listed};
ghost use Rattle.pt_rules.specs.AttributeCalls.{
  chmod_row,
  chown_row,
  does_not_serve,
  get_xattr_row,
  list_xattr_row,
  remove_xattr_row,
  times_row,
  set_xattr_row,
};

use crate::finding::open_on;
use crate::store::Store;
use pt_change::attribute_checks::{
    chmod_refusal, does_not_serve, is_too_long, names_listed, set_xattr_refusal, sized,
    times_refusal,
};
use pt_host::{Bytes, Caps, Errno, Fd, HostReply, HostSeat, HostValue, TimeSet};

impl Store {
    pub fn change_mode(&mut self, seat: &HostSeat, fd: Fd, through: bool, mode: u32) -> HostReply
        requires { IsKeptBy self.old }
        ensures answers { (result, state_of self.new)
            ≡ on_row (state_of self.old) fd (chmod_row (state_of self.old) seat.now through mode) }
        ensures kept { IsKeptBy self.new }
    {
        let Some((file, node)) = open_on(&self.files, &self.nodes, fd) else {
            return HostReply::Refused(Errno::EBADF);
        };
        if let Some(errno) = chmod_refusal(seat, file, node, through) {
            return HostReply::Refused(errno);
        }
        let now = self.now();
        self.nodes[file.object].change_mode(mode, now);
        HostReply::Ok(HostValue::Unit)
    }

    pub fn change_owner(&mut self, seat: &HostSeat, fd: Fd, uid: u32, gid: u32) -> HostReply
        requires { IsKeptBy self.old }
        ensures answers { (result, state_of self.new)
            ≡ on_row (state_of self.old) fd (chown_row (state_of self.old) seat.now uid gid) }
        ensures kept { IsKeptBy self.new }
    {
        let Some((file, _)) = open_on(&self.files, &self.nodes, fd) else {
            return HostReply::Refused(Errno::EBADF);
        };
        if !seat.eff_caps.includes(Caps::CHOWN) {
            return HostReply::Refused(Errno::EPERM);
        }
        let now = self.now();
        self.nodes[file.object].change_owner(uid, gid, now);
        HostReply::Ok(HostValue::Unit)
    }

    pub fn set_times(
        &mut self,
        seat: &HostSeat,
        fd: Fd,
        through: bool,
        atime: TimeSet,
        mtime: TimeSet,
    ) -> HostReply
        requires { IsKeptBy self.old }
        ensures answers { (result, state_of self.new)
            ≡ on_row (state_of self.old) fd (times_row (state_of self.old) seat.now through atime mtime) }
        ensures kept { IsKeptBy self.new }
    {
        let Some((file, node)) = open_on(&self.files, &self.nodes, fd) else {
            return HostReply::Refused(Errno::EBADF);
        };
        if let Some(errno) = times_refusal(seat, file, node, through, atime, mtime) {
            return HostReply::Refused(errno);
        }
        let now = self.now();
        self.nodes[file.object].change_times(atime, mtime, now);
        HostReply::Ok(HostValue::Unit)
    }

    pub fn set_xattr(
        &mut self,
        fd: Fd,
        through: bool,
        name: &[u8],
        value: &[u8],
        flags: u32,
    ) -> HostReply
        requires { IsKeptBy self.old }
        ensures answers { AnswersAs
            (on_row (state_of self.old) fd (set_xattr_row (state_of self.old) through name.now value.now flags))
            (state_of self.old) result (state_of self.new) }
        ensures kept { IsKeptBy self.new }
    {
        let Some((file, node)) = open_on(&self.files, &self.nodes, fd) else {
            return HostReply::Refused(Errno::EBADF);
        };
        if let Some(errno) = set_xattr_refusal(file, through, name, value, flags, &node.xattrs) {
            return HostReply::Refused(errno);
        }
        let now = self.now();
        let Ok(name) = name.to_vec(self.alloc) else {
            return HostReply::NoMemory;
        };
        let Ok(value) = Bytes::from_slice(self.alloc, value) else {
            return HostReply::NoMemory;
        };
        match self.nodes[file.object].set_xattr(name, value, now) {
            Ok(()) => HostReply::Ok(HostValue::Unit),
            Err(_) => HostReply::NoMemory,
        }
    }

    pub fn get_xattr(&self, fd: Fd, through: bool, name: &[u8], size: u32) -> HostReply
        requires { IsKeptBy self.now }
        ensures { AnswersAs (on_row (state_of self.now) fd (get_xattr_row through name.now size))
            (state_of self.now) result (state_of self.now) }
    {
        let Some((file, node)) = open_on(&self.files, &self.nodes, fd) else {
            return HostReply::Refused(Errno::EBADF);
        };
        if does_not_serve(file, through) {
            return HostReply::Refused(Errno::EBADF);
        }
        let Some(value) = node.xattrs.get(name) else {
            return HostReply::Refused(Errno::ENODATA);
        };
        if is_too_long(value.as_slice(), size) {
            return HostReply::Refused(Errno::ERANGE);
        }
        match sized(self.alloc, value.as_slice(), size) {
            Ok(told) => HostReply::Ok(told),
            Err(_) => HostReply::NoMemory,
        }
    }

    pub fn list_xattr(&self, fd: Fd, through: bool, size: u32) -> HostReply
        requires { IsKeptBy self.now }
        ensures { AnswersAs (on_row (state_of self.now) fd (list_xattr_row through size)) (state_of self.now) result
            (state_of self.now) }
    {
        let Some((file, node)) = open_on(&self.files, &self.nodes, fd) else {
            return HostReply::Refused(Errno::EBADF);
        };
        if does_not_serve(file, through) {
            return HostReply::Refused(Errno::EBADF);
        }
        let Ok(names) = names_listed(self.alloc, &node.xattrs) else {
            return HostReply::NoMemory;
        };
        if is_too_long(&names, size) {
            return HostReply::Refused(Errno::ERANGE);
        }
        match sized(self.alloc, &names, size) {
            Ok(told) => HostReply::Ok(told),
            Err(_) => HostReply::NoMemory,
        }
    }

    pub fn remove_xattr(&mut self, fd: Fd, through: bool, name: &[u8]) -> HostReply
        requires { IsKeptBy self.old }
        ensures answers { (result, state_of self.new)
            ≡ on_row (state_of self.old) fd (remove_xattr_row (state_of self.old) through name.now) }
        ensures kept { IsKeptBy self.new }
    {
        let Some((file, node)) = open_on(&self.files, &self.nodes, fd) else {
            return HostReply::Refused(Errno::EBADF);
        };
        if does_not_serve(file, through) {
            return HostReply::Refused(Errno::EBADF);
        }
        if node.xattrs.get(name).is_none() {
            return HostReply::Refused(Errno::ENODATA);
        }
        let now = self.now();
        self.nodes[file.object].remove_xattr(name, now);
        HostReply::Ok(HostValue::Unit)
    }
}
