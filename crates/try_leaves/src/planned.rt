//! A host that answers a seat's own calls by the rules of seats, but for those that are planned to fail.

ghost use Rattle.std.specs.Prelude.{◌≡◌, None, true};
ghost use Rattle.pt_host.specs.Call.{call_of};
ghost use Rattle.pt_host.specs.Contents.{no_contents};
ghost use Rattle.pt_host.specs.Promises.{IsPromised, MayFault};
ghost use Rattle.pt_host.specs.declared.ids.Errno.{Errno};

use pt_host::{Errno, Host, HostOp, HostReply, HostSeat};

/// What its calls fail with, one after another, and how many there were.
#[derive(Drop)]
pub struct Planned<'a> {
    plan: &'a [Option<Errno>],
    pub made: usize,
    pub faults: u64,
}

impl Planned<'_> {
    pub fn new(plan: &[Option<Errno>]) -> Planned<'_> {
        Planned {
            plan,
            made: 0,
            faults: 0,
        }
    }

    /// The failure that is planned for the next call, which is counted.
    fn next_failure(&mut self) -> Option<Errno>
        ensures { self.new.faults ≡ self.old.faults }
    {
        let failure = self.plan.get(self.made).copied().flatten();
        self.made = self.made.saturating_add(1);
        failure
    }
}

/// Whether the call is one of the identity's, which can fail.
fn can_fail(op: &HostOp<'_>) -> bool
    ensures { result ≡ true → (errno : Errno) → MayFault (call_of op.now) errno }
{
    matches!(
        op,
        HostOp::SetGroups { .. }
            | HostOp::SetGroup { .. }
            | HostOp::SetEgid { .. }
            | HostOp::SetEuid { .. }
            | HostOp::RaiseCap { .. }
            | HostOp::DropCap { .. }
    )
}

impl Host for Planned<'_> {
    ghost tree = { λ host. None };

    ghost contents = { λ host. no_contents };

    ghost faults = { λ host. host.faults };

    ghost does = { λ host seat call reply after seat_after.
        IsPromised host.faults seat call reply after.faults seat_after };

    fn call(&mut self, seat: &mut HostSeat, op: &HostOp<'_>) -> HostReply {
        if let Some(errno) = self.next_failure()
            && can_fail(op)
        {
            self.faults = self.faults.saturating_add(1);
            return HostReply::Fault(errno);
        }
        match seat.answer(op) {
            Some(told) => told,
            None => HostReply::Refused(Errno::EIO),
        }
    }

    ghost promised = { λ host seat call reply after seat_after done. done };

    ghost lawful = { λ host seat call reply after seat_after done before told. cc };
}
