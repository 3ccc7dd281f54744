//! The parts of requests of names and attributes.

ghost use Rattle.std.specs.Prelude.{◌≡◌};
ghost use Rattle.pt_frame.specs.Machine.Walk.{Reads};
ghost use Rattle.pt_frame.specs.Tree.{RequestTree, Gives};
ghost use Rattle.pt_host.specs.declared.ids.Fd.{Fd};
ghost use Rattle.pt_attr.specs.Parts.{file_by, files_by, tell_attr};
ghost use Rattle.pt_attr.specs.declared.parts.TwoFiles.{TwoFiles};

mod creating;
mod making;
mod setting;

pub use creating::{FileAsked, NamedHandle, make_file, or_refused, undone};
pub use making::{ObjectAsked, make_object, targeted};
use pt_frame::{Asked, Heard};
use pt_host::Fd;
use pt_iface::Answer;
use pt_req::{Plan, attr_of, file_of, resolve, stat};
pub use setting::{Target, file_set, set_mode, set_owner, set_size, set_times, sized, target_of};

/// The files of two numbers.
#[derive(Clone, Copy)]
pub struct TwoFiles {
    pub from: Fd,
    pub to: Fd,
}

/// The file of a number.
pub fn file_by<'a>(told: &'a [Heard], at: &mut usize, number: u64) -> Asked<'a, Fd>
    ensures { (next : Fd → RequestTree) → Reads told.now at.old at.new result (file_by number next) next }
{
    let row = resolve(told, at, number)?;
    file_of(&row.form)
}

/// The files of two numbers, which may be one number.
pub fn files_by<'a>(
    told: &'a [Heard],
    at: &mut usize,
    first: u64,
    second: u64,
) -> Asked<'a, TwoFiles>
    ensures { (next : TwoFiles → RequestTree) →
        Reads told.now at.old at.new result (files_by first second next) next }
{
    let one = resolve(told, at, first)?;
    let other = resolve(told, at, second)?;
    let from = file_of(&one.form)?;
    let to = file_of(&other.form)?;
    Ok(TwoFiles { from, to })
}

/// The attributes of what a number stands for, and how long they may be kept.
pub fn tell_attr<'a>(
    told: &'a [Heard],
    at: &mut usize,
    plan: &Plan,
    inode: u64,
) -> Asked<'a, Answer>
    ensures { Reads told.now at.old at.new result (tell_attr plan.now inode) Gives }
{
    let fd = file_by(told, at, inode)?;
    let stat = stat(told, at, fd)?;
    let attr = attr_of(plan, &stat, 0);
    Ok(Answer::Attr(attr, plan.config.attr_timeout))
}
