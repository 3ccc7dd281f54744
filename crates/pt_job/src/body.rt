//! The one body: what is asked, and who asks it. It is read anew each time, over all that its job was told.

ghost use Rattle.std.specs.Prelude.{◌≡◌};
ghost use Rattle.pt_frame.specs.Machine.Walk.{Reads};
ghost use Rattle.pt_frame.specs.Tree.{Gives};
ghost use Rattle.pt_req.specs.Steps.{begin};
ghost use Rattle.pt_job.specs.Requests.{in_session, tree_of};

use crate::table::in_session;
use pt_frame::{Asked, Body, Heard, Stop, ended};
use pt_host::HostSeat;
use pt_iface::{Answer, Context, Request};
use pt_req::{Plan, begin, destroy, init};

/// A request, and who asks it.
#[derive(Drop)]
pub struct AnyBody {
    pub who: Context,
    pub request: Request,
}

/// It is asked in the session that goes on.
fn begun<'a>(
    told: &'a [Heard],
    at: &mut usize,
    plan: &'a Plan,
    seat: &'a HostSeat,
    who: Context,
    request: &'a Request,
) -> Asked<'a, Answer>
    ensures { Reads told.now at.old at.new result (begin (in_session plan.now seat.now who request.now)) Gives }
{
    let session = begin(told, at)?;
    in_session(told, at, plan, seat, who, session, request)
}

/// Two begin one anew.
fn answered<'a>(
    told: &'a [Heard],
    at: &mut usize,
    plan: &'a Plan,
    seat: &'a HostSeat,
    who: Context,
    request: &'a Request,
) -> Asked<'a, Answer>
    ensures { Reads told.now at.old at.new result (tree_of plan.now seat.now who request.now) Gives }
{
    match request {
        Request::Init { capable } => init(told, at, plan, *capable),
        Request::Destroy => destroy(told, at),
        _ => begun(told, at, plan, seat, who, request),
    }
}

impl Body for AnyBody {
    ghost use Rattle.pt_job.specs.Machine.Body.{any_acts, any_tree};
    ghost use Rattle.pt_job.specs.Machine.Keeping.{any_begins, any_goes, any_within};

    type Plan = Plan;

    ghost tree = { any_tree };

    ghost acts = { any_acts };

    fn run<'a>(&'a self, plan: &'a Plan, seat: &'a HostSeat, told: &'a [Heard]) -> Stop<'a> {
        let mut at = 0;
        ended(answered(told, &mut at, plan, seat, self.who, &self.request))
    }

    ghost within = { any_within };

    ghost begins = { any_begins };

    ghost goes = { any_goes };
}
