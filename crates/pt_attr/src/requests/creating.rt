//! The request that makes a file and opens it.

ghost use Rattle.std.specs.Prelude.{◌≡◌};
ghost use Rattle.pt_frame.specs.Machine.Walk.{Reads};
ghost use Rattle.pt_frame.specs.Tree.{Gives};
ghost use Rattle.pt_attr.specs.Creating.{asked_of, create};

use crate::parts::{FileAsked, make_file};
use pt_frame::{Asked, Heard};
use pt_host::HostSeat;
use pt_iface::Answer;
use pt_req::{BegunSession, Plan, create_options, file_of, host_label, named, resolve};

/// A file is made and opened.
pub fn create<'a>(
    told: &'a [Heard],
    at: &mut usize,
    plan: &'a Plan,
    seat: &HostSeat,
    session: BegunSession,
    asked: FileAsked<'a>,
) -> Asked<'a, Answer>
    ensures { Reads told.now at.old at.new result (create plan.now seat.now (asked_of asked.entry) session) Gives }
{
    let options = create_options(&plan.config);
    named(asked.name)?;
    let directory = resolve(told, at, asked.parent)?;
    let label = host_label(told, at, plan, session.agreed, &asked.ext.secctx)?;
    let dir = file_of(&directory.form)?;
    let file = make_file(told, at, plan, seat, session, asked, label, dir)?;
    Ok(Answer::Created(file.entry, file.handle, options))
}
