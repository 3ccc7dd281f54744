ghost use Rattle.std.specs.Prelude.{◌≡◌, ◌≢◌, ◌<◌, OnErr, OnOk, Some, None, is_some, slice_get, true};
ghost use Rattle.pt_store.specs.StoreState.{IsKeptBy, state_of};
ghost use Rattle.pt_rules.specs.Does.{AnswersAs};
ghost use Rattle.pt_node.specs.Entries.{is_directory_at};
ghost use Rattle.pt_node.specs.Node.{name_at};
ghost use Rattle.pt_node.specs.NewPlace.{seen_place};
ghost use Rattle.pt_node.specs.Paths.{led_on};
ghost use Rattle.pt_node.specs.declared.node.Node.{Node};
ghost use Rattle.pt_rules.specs.NameCalls.{rename, rename_between, rename_to, with_exchanged};
ghost use Rattle.pt_rules.specs.Sound.{IsShort};

use crate::finding::{node_at, open_on};
use crate::store::Store;
use pt_change::name_checks::name_refusal;
use pt_change::node_edits::exchange;
use pt_change::rename_checks::{EXCHANGE, moves_into_itself, rename_refusal};
use pt_host::{Errno, Fd, HostReply, HostSeat, HostValue};
use pt_node::links::is_directory_at;
use pt_node::path::led_on;
use std::alloc::AllocError;

impl Store {
    /// The two objects, to which the names lead, get each other's names.
    fn exchange_names(
        &mut self,
        from: (usize, &[u8]),
        to: (usize, &[u8]),
        object: usize,
        other: usize,
    ) -> Result<(), AllocError>
        requires kept { IsKeptBy self.old }
        requires there { name_at self.old.nodes.items from.0 from.1.now ≡ Some object }
        requires too { name_at self.old.nodes.items to.0 to.1.now ≡ Some other }
        requires apart { other ≢ object }
        ensures ok { OnOk result (state_of self.new
            ≡ with_exchanged (state_of self.old) (seen_place from.entry) (seen_place to.entry) object other) }
        ensures err { OnErr result (state_of self.new ≡ state_of self.old) }
        ensures kept { IsKeptBy self.new }
    {
        let now = self.now();
        let moved = is_directory_at(&self.nodes, object);
        let back = is_directory_at(&self.nodes, other);
        self.inodes.swap_directories(from.0, to.0, moved, back)?;
        exchange(&mut self.nodes, now, from, to, object, other);
        Ok(())
    }

    fn rename_to(
        &mut self,
        from: (usize, &[u8]),
        to: (usize, &[u8]),
        object: usize,
        target: Option<usize>,
        flags: u32,
    ) -> HostReply
        requires kept { IsKeptBy self.old }
        requires leads { name_at self.old.nodes.items from.0 from.1.now ≡ Some object }
        requires into { is_directory_at self.old.nodes.items to.0 ≡ true }
        requires good { IsShort to.1.now }
        requires target { name_at self.old.nodes.items to.0 to.1.now ≡ target }
        ensures answers { (node : Node) → slice_get self.old.nodes.items object ≡ Some node →
            AnswersAs
            (rename_to (state_of self.old) (seen_place from.entry) (seen_place to.entry) object node
            (led_on self.old.nodes.items target) flags) (state_of self.old) result (state_of self.new) }
        ensures kept { IsKeptBy self.new }
    {
        match target {
            None => self.rename_onto(from, to, object, target),
            Some(other) => {
                if other == object {
                    return self.rename_onto(from, to, object, target);
                }
                if flags != EXCHANGE {
                    return self.rename_onto(from, to, object, target);
                }
                match self.exchange_names(from, to, object, other) {
                    Ok(()) => HostReply::Ok(HostValue::Unit),
                    Err(_) => HostReply::NoMemory,
                }
            }
        }
    }

    fn rename_between(
        &mut self,
        seat: &HostSeat,
        from: (usize, &[u8]),
        to: (usize, &[u8]),
        flags: u32,
    ) -> HostReply
        requires kept { IsKeptBy self.old }
        requires out { is_some (slice_get self.old.nodes.items from.0) ≡ true }
        requires into { is_directory_at self.old.nodes.items to.0 ≡ true }
        requires good { IsShort to.1.now }
        ensures answers { (dir : Node) (dir2 : Node) →
            slice_get self.old.nodes.items from.entry.0 ≡ Some dir →
            slice_get self.old.nodes.items to.entry.0 ≡ Some dir2 →
            AnswersAs
            (rename_between (state_of self.old) seat.now ((from.entry.0, dir), from.entry.1.now)
            ((to.entry.0, dir2), to.entry.1.now) flags) (state_of self.old) result (state_of self.new) }
        ensures kept { IsKeptBy self.new }
    {
        if flags > EXCHANGE {
            return HostReply::Refused(Errno::EINVAL);
        }
        let dir = node_at(&self.nodes, from.0);
        let into = node_at(&self.nodes, to.0);
        let Some((object, node)) = led_on(&self.nodes, dir.content.lookup(from.1)) else {
            return HostReply::Refused(Errno::ENOENT);
        };
        let there = into.content.lookup(to.1);
        let target = led_on(&self.nodes, there);
        let into_itself = moves_into_itself(&self.nodes, from.0, to.0, object, target, flags);
        if let Some(errno) = rename_refusal(into_itself, seat, dir, into, node, target, flags) {
            return HostReply::Refused(errno);
        }
        self.rename_to(from, to, object, there, flags)
    }

    pub fn rename_names(
        &mut self,
        seat: &HostSeat,
        from: (Fd, &[u8]),
        to: (Fd, &[u8]),
        flags: u32,
    ) -> HostReply
        requires { IsKeptBy self.old }
        ensures answers { AnswersAs
            (rename (state_of self.old) seat.now from.entry.0 from.entry.1.now to.entry.0 to.entry.1.now flags)
            (state_of self.old) result (state_of self.new) }
        ensures kept { IsKeptBy self.new }
    {
        let Some((other, into)) = open_on(&self.files, &self.nodes, to.0) else {
            return HostReply::Refused(Errno::EBADF);
        };
        let Some((file, dir)) = open_on(&self.files, &self.nodes, from.0) else {
            return HostReply::Refused(Errno::EBADF);
        };
        if let Some(errno) = name_refusal(seat, dir, from.1) {
            return HostReply::Refused(errno);
        }
        if let Some(errno) = name_refusal(seat, into, to.1) {
            return HostReply::Refused(errno);
        }
        self.rename_between(seat, (file.object, from.1), (other.object, to.1), flags)
    }
}
