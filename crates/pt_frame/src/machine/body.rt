ghost use Rattle.std.specs.Prelude.{◌≡◌, ℕ, ◌≤◌, List};
ghost use Rattle.pt_host.specs.declared.seat.HostSeat.{HostSeat};
ghost use Rattle.pt_frame.specs.Machine.Walk.{IsAsks, IsStop, Reads, walk};
ghost use Rattle.pt_frame.specs.Machine.Room.{Keeps, most_holds, most_rows, most_told};
ghost use Rattle.pt_frame.specs.Tree.{RequestTree, Gives};
ghost use Rattle.pt_frame.specs.declared.told.Heard.{Heard};

use crate::asking::{Asked, Stop};
use crate::told::Heard;
use pt_host::HostSeat;
use pt_iface::Answer;

/// What a request does, its frame aside: it never sees a hold. All calls of one job are given one plan, and the seat
/// with which the job began.
pub trait Body: Drop {
    type Plan;

    ghost tree: { Self → Self.Plan → HostSeat → RequestTree };

    /// A bound on its acts, and on the holds that they bring.
    ghost acts: { Self → ℕ };

    /// Where the request stops, read from its beginning, once it was told all this.
    fn run<'a>(&'a self, plan: &'a Self::Plan, seat: &'a HostSeat, told: &'a [Heard]) -> Stop<'a>
        ensures { IsStop told.now (walk (tree self.now plan.now seat.now) told.now) result };

    /// It is told, asks and brings no more than there is room for.
    ghost within: { (body : Self) (plan : Self.Plan) (seat : HostSeat) →
        Keeps (tree body plan seat) most_told (acts body) most_holds most_rows };

    /// It begins with an act.
    ghost begins: { (body : Self) (plan : Self.Plan) (seat : HostSeat) → IsAsks (tree body plan seat) };

    ghost goes: { (body : Self) → 1 ≤ acts body };
}

/// Where a request stops that was read from its beginning.
#[tactic(auto, using(crate::proofs::Reading::ends, crate::proofs::Reading::halts))]
pub fn ended<'a>(asked: Asked<'a, Answer>) -> Stop<'a>
    ensures { (told : List Heard) (new : ℕ) (tree : RequestTree) →
        Reads told 0 new asked.entry tree Gives → IsStop told (walk tree told) result }
{
    match asked {
        Ok(answer) => Stop::Gives(answer),
        Err(stop) => stop,
    }
}
