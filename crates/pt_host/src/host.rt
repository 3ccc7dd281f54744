ghost use Rattle.std.specs.Prelude.{◌≡◌, ℕ, Option, Some};
ghost use Rattle.pt_host.specs.Call.{Call, call_of};
ghost use Rattle.pt_host.specs.Tree.{Tree};
ghost use Rattle.pt_host.specs.Contents.{Contents};
ghost use Rattle.pt_host.specs.LawfulStep.{LawfulStep};
ghost use Rattle.pt_host.specs.LawfulContents.{LawfulContents};
ghost use Rattle.pt_host.specs.Promises.{IsPromised};
ghost use Rattle.pt_host.specs.declared.reply.HostReply.{HostReply};
ghost use Rattle.pt_host.specs.declared.seat.HostSeat.{HostSeat};

use crate::op::HostOp;
use crate::reply::HostReply;
use crate::seat::HostSeat;

/// Whatever answers calls: a tree in memory, a folder, a host shared by threads.
pub trait Host {
    /// What the host holds, where it tells.
    ghost tree: { Self → Option Tree };

    /// What it has beside its tree, which says something only where the tree is told.
    ghost contents: { Self → Contents };

    /// How many faults it has had.
    ghost faults: { Self → ℕ };

    /// From this host and seat the call may be answered so, and leaves that host and seat.
    ghost does: { Self → HostSeat → Call → HostReply → Self → HostSeat → Type 0 };

    fn call(&mut self, seat: &mut HostSeat, op: &HostOp<'_>) -> HostReply
        ensures { does self.old seat.old (call_of op.now) result self.new seat.new };

    /// What every host keeps, told or not.
    ghost promised: { (host : Self) (seat : HostSeat) (call : Call) (reply : HostReply) (after : Self)
        (seat_after : HostSeat) →
        does host seat call reply after seat_after →
        IsPromised (faults host) seat call reply (faults after) seat_after };

    /// A host that tells its tree goes on to, and its step is lawful.
    ghost lawful: { (host : Self) (seat : HostSeat) (call : Call) (reply : HostReply) (after : Self)
        (seat_after : HostSeat) →
        does host seat call reply after seat_after → (before : Tree) → tree host ≡ Some before →
        ((later : Tree) × (tree after ≡ Some later) × LawfulStep before seat call reply later seat_after
        × LawfulContents before (contents host) call reply later (contents after)) };
}
