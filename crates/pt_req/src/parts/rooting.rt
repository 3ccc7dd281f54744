ghost use Rattle.std.specs.Prelude.{◌≡◌};
ghost use Rattle.pt_frame.specs.Machine.Walk.{Reads};
ghost use Rattle.pt_frame.specs.Tree.{RequestTree};
ghost use Rattle.pt_req.specs.Parts.{root_open};

use crate::begun::BegunSession;
use crate::plan::Plan;
use crate::steps::{insert_root, open_root, stat, take_fd};
use pt_frame::{Asked, Heard};
use pt_host::OpenFlags;
use pt_session::{Negotiated, RowForm};

/// The shared directory is opened and numbered 1. What is agreed on is said, or left.
pub fn root_open<'a>(
    told: &'a [Heard],
    at: &mut usize,
    plan: &'a Plan,
    session: BegunSession,
    agreed: Option<Negotiated>,
) -> Asked<'a, ()>
    ensures { (next : RequestTree) →
        Reads told.now at.old at.new result (root_open plan.now session agreed next) (λ done. next) }
{
    let fd = open_root(told, at, &plan.config.root_dir, OpenFlags::PATH)?;
    let stat = stat(told, at, fd)?;
    take_fd(told, at)?;
    insert_root(told, at, session, RowForm::File(fd), stat, agreed)
}
