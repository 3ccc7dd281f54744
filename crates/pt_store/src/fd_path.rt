ghost use Rattle.pt_rules.specs.Does.{AnswersAs};
ghost use Rattle.pt_rules.specs.Rows.{on_row};
ghost use Rattle.pt_rules.specs.OpeningCalls.{least_path, fd_path_row};
ghost use Rattle.pt_store.specs.StoreState.{IsKeptBy, state_of};

use crate::finding::open_on;
use crate::store::Store;
use pt_change::fd_paths::least_path;
use pt_host::{Bytes, Errno, Fd, HostReply, HostValue};

impl Store {
    pub fn fd_path(&self, fd: Fd) -> HostReply
        requires { IsKeptBy self.now }
        ensures { AnswersAs (on_row (state_of self.now) fd (fd_path_row (state_of self.now)))
            (state_of self.now) result (state_of self.now) }
    {
        let Some((file, node)) = open_on(&self.files, &self.nodes, fd) else {
            return HostReply::Refused(Errno::EBADF);
        };
        match least_path(self.alloc, &self.nodes, file.object, node) {
            Ok(path) => HostReply::Ok(HostValue::Bytes(Bytes::from_vec(path))),
            Err(_) => HostReply::NoMemory,
        }
    }
}
