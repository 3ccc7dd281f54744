//! How a row's object is reached: by the form in which it is kept.

ghost use Rattle.std.specs.Prelude.{◌≡◌, ℕ, List};
ghost use Rattle.pt_frame.specs.Machine.Walk.{Reads};
ghost use Rattle.pt_frame.specs.Tree.{RequestTree};
ghost use Rattle.pt_frame.specs.declared.told.Heard.{Heard};
ghost use Rattle.pt_host.specs.declared.ids.Fd.{Fd};
ghost use Rattle.pt_req.specs.Entries.{can_open};
ghost use Rattle.pt_req.specs.Parts.{file_of, open_form, open_inode, open_row};

use crate::begun::BegunSession;
use crate::parts::options::{inode_flags, without_nofollow};
use crate::plan::Plan;
use crate::steps::{reopen, resolve};
use pt_frame::{Asked, Heard, Stop};
use pt_host::{Errno, Fd};
use pt_iface::Answer;
use pt_session::{Resolved, RowForm};

/// Linux's kinds of what has contents, the mode's bits above 4096.
const REGULAR: u32 = 8;

const DIRECTORY: u32 = 4;

/// Whether what has this mode is a regular file or a directory.
pub fn can_open(mode: u32) -> bool
    ensures { result ≡ can_open mode }
{
    mode / 4096 == REGULAR || mode / 4096 == DIRECTORY
}

/// The file of a row: the descriptor that stands for its object.
#[tactic(auto, using(pt_frame::proofs::Reading::here))]
pub fn file_of<'a>(form: &RowForm) -> Asked<'a, Fd>
    ensures { (told : List Heard) (at : ℕ) (next : Fd → RequestTree) →
        Reads told at at result (file_of form.now next) next }
{
    match form {
        RowForm::File(fd) => Ok(*fd),
    }
}

/// A row's object is opened anew, by its descriptor's link in `/proc`.
fn open_form<'a>(told: &'a [Heard], at: &mut usize, form: &RowForm, flags: u32) -> Asked<'a, Fd>
    ensures { (next : Fd → RequestTree) →
        Reads told.now at.old at.new result (open_form form.now flags next) next }
{
    let flags = without_nofollow(flags);
    match form {
        RowForm::File(fd) => reopen(told, at, *fd, flags),
    }
}

/// It is opened if it is a regular file or a directory.
#[tactic(auto, using(pt_frame::proofs::Reading::gives), unfolding(crate::specs::Parts::open_row))]
pub fn open_row<'a>(told: &'a [Heard], at: &mut usize, row: &Resolved, flags: u32) -> Asked<'a, Fd>
    ensures { (next : Fd → RequestTree) →
        Reads told.now at.old at.new result (open_row row.now flags next) next }
{
    if can_open(row.mode) {
        open_form(told, at, &row.form, flags)
    } else {
        Err(Stop::Gives(Answer::Refused(Errno::EBADF)))
    }
}

/// A number is opened.
pub fn open_inode<'a>(
    told: &'a [Heard],
    at: &mut usize,
    plan: &Plan,
    session: BegunSession,
    number: u64,
    flags: u32,
) -> Asked<'a, Fd>
    ensures { (next : Fd → RequestTree) →
        Reads told.now at.old at.new result (open_inode plan.now session number flags next) next }
{
    let flags = inode_flags(&plan.config, session.agreed, flags);
    let row = resolve(told, at, number)?;
    open_row(told, at, &row, flags)
}
