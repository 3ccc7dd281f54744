ghost use Rattle.std.specs.Prelude.{◌≡◌, ℕ};
ghost use Rattle.pt_frame.specs.Machine.Walk.{Reads};
ghost use Rattle.pt_frame.specs.Tree.{RequestTree};
ghost use Rattle.pt_host.specs.Flags.{includes, o_trunc};
ghost use Rattle.pt_req.specs.Parts.{handled, open_num};

use crate::begun::BegunSession;
use crate::parts::capability::{clear_if, drops_fsetid, without_fsetid};
use crate::parts::options::cleaned;
use crate::parts::row::open_inode;
use crate::plan::Plan;
use crate::steps::{draw_handle, insert_handle, take_fd};
use pt_frame::{Asked, Heard, bares, brackets, shuts};
use pt_host::{Fd, HostSeat, OpenFlags};

/// What was opened gets a handle.
pub fn handled<'a>(
    told: &'a [Heard],
    at: &mut usize,
    session: BegunSession,
    number: u64,
    fd: Fd,
) -> Asked<'a, u64>
    ensures { (next : ℕ → RequestTree) →
        Reads told.now at.old at.new result (handled session number fd next) next }
{
    let handle = draw_handle(told, at)?;
    take_fd(told, at)?;
    insert_handle(told, at, session, handle, number, fd)?;
    Ok(handle)
}

/// Whether an opening with these flags empties the file.
fn empties(flags: u32) -> bool
    ensures { result ≡ includes flags o_trunc }
{
    OpenFlags(flags).includes(OpenFlags::O_TRUNC)
}

/// A number is opened by a handle. Where `kill` asks for it, set-id bits of what is emptied by that go; capabilities of
/// what is emptied go in any case.
pub fn do_open<'a>(
    told: &'a [Heard],
    at: &mut usize,
    plan: &'a Plan,
    seat: &HostSeat,
    session: BegunSession,
    number: u64,
    kill: bool,
    flags: u32,
) -> Asked<'a, u64>
    ensures { (next : ℕ → RequestTree) →
        Reads told.now at.old at.new result (open_num plan.now seat.now session number kill flags next) next }
{
    let drops = drops_fsetid(plan, seat, kill);
    let emptied = empties(flags);
    let flags = cleaned(&plan.config, flags);
    brackets(told, at)?;
    without_fsetid(told, at, drops)?;
    let fd = open_inode(told, at, plan, session, number, flags)?;
    bares(told, at)?;
    clear_if(told, at, emptied, &plan.capability, fd)?;
    let handle = handled(told, at, session, number, fd)?;
    shuts(told, at, false)?;
    Ok(handle)
}
