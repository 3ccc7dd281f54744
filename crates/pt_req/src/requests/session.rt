//! Requests that begin or end a session, and its root.

ghost use Rattle.std.specs.Prelude.{◌≡◌};
ghost use Rattle.pt_frame.specs.Machine.Walk.{Reads};
ghost use Rattle.pt_frame.specs.Tree.{Gives};
ghost use Rattle.pt_req.specs.Requests.{init, destroy, root};

use crate::begun::BegunSession;
use crate::parts::{agreed_with, init_answer, root_open};
use crate::plan::Plan;
use crate::steps::clear;
use pt_frame::{Asked, Heard};
use pt_iface::{Answer, FsOptions};
use pt_session::Negotiated;

/// The session begins anew, and what was agreed on is said with its root.
pub fn init<'a>(
    told: &'a [Heard],
    at: &mut usize,
    plan: &'a Plan,
    capable: FsOptions,
) -> Asked<'a, Answer>
    ensures { Reads told.now at.old at.new result (init plan.now capable) Gives }
{
    let agreed = agreed_with(&plan.config, capable);
    let answer = init_answer(&plan.config, capable);
    let era = clear(told, at)?;
    let session = BegunSession {
        era,
        agreed: Negotiated::NONE,
    };
    root_open(told, at, plan, session, Some(agreed))?;
    Ok(answer)
}

/// The session ends, and one without a root begins.
pub fn destroy<'a>(told: &'a [Heard], at: &mut usize) -> Asked<'a, Answer>
    ensures { Reads told.now at.old at.new result destroy Gives }
{
    clear(told, at)?;
    Ok(Answer::NoReply)
}

/// The root is numbered in the session as it stands.
pub fn root<'a>(
    told: &'a [Heard],
    at: &mut usize,
    plan: &'a Plan,
    session: BegunSession,
) -> Asked<'a, Answer>
    ensures { Reads told.now at.old at.new result (root plan.now session) Gives }
{
    root_open(told, at, plan, session, None)?;
    Ok(Answer::Done)
}
