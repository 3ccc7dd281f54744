ghost use Rattle.pt_store.specs.StoreState.{IsKeptBy, state_of};
ghost use Rattle.pt_rules.specs.Does.{AnswersAs};
ghost use Rattle.pt_rules.specs.ListCalls.{list_at};

use crate::finding::open_on;
use crate::store::Store;
use pt_change::records::{list_refusal, records_from};
use pt_host::{Bytes, Errno, Fd, HostReply, HostValue};

impl Store {
    pub fn list_at(&mut self, fd: Fd, offset: Option<u64>, size: u32) -> HostReply
        requires { IsKeptBy self.old }
        ensures answers { AnswersAs (list_at (state_of self.old) fd offset size) (state_of self.old) result
            (state_of self.new) }
        ensures kept { IsKeptBy self.new }
    {
        let now = self.now();
        let Some((file, node)) = open_on(&self.files, &self.nodes, fd) else {
            return HostReply::Refused(Errno::EBADF);
        };
        let start = offset.unwrap_or(file.position);
        if let Some(errno) = list_refusal(file, node, start, size) {
            return HostReply::Refused(errno);
        }
        match records_from(self.alloc, &self.nodes, node, start, size) {
            Ok(listed) => {
                self.nodes[file.object].list_to(now, listed.place as usize, listed.next);
                self.files.go_to(fd, listed.place);
                HostReply::Ok(HostValue::Bytes(Bytes::from_vec(listed.bytes)))
            }
            Err(_) => HostReply::NoMemory,
        }
    }
}
