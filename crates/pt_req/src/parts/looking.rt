ghost use Rattle.std.specs.Prelude.{◌≡◌, ℕ};
ghost use Rattle.pt_frame.specs.Machine.Walk.{Reads};
ghost use Rattle.pt_frame.specs.Tree.{RequestTree};
ghost use Rattle.pt_req.specs.Parts.{look_up, looked_of, numbered, numbered_anew, numbered_as};
ghost use Rattle.pt_req.specs.declared.parts.looked.Looked.{Looked};

use crate::begun::BegunSession;
use crate::parts::entry::entry_of;
use crate::parts::looked::Looked;
use crate::parts::row::file_of;
use crate::plan::Plan;
use crate::steps::{claim, draw_node, insert, open_at, resolve, stat, take_fd};
use pt_frame::{Asked, Heard, brackets, shuts};
use pt_host::{Bytes, ObjIds, OpenFlags, Stat};
use pt_session::RowForm;

/// What was opened gets a new number.
fn numbered_anew<'a>(
    told: &'a [Heard],
    at: &mut usize,
    session: BegunSession,
    form: RowForm,
    stat: Stat,
) -> Asked<'a, u64>
    ensures { (next : ℕ → RequestTree) →
        Reads told.now at.old at.new result (numbered_anew session form stat next) next }
{
    take_fd(told, at)?;
    let fresh = draw_node(told, at)?;
    insert(told, at, session, fresh, form, stat)
}

/// It keeps the number that its object has.
#[tactic(auto, using(pt_frame::proofs::Reading::here))]
fn numbered_as<'a>(
    told: &'a [Heard],
    at: &mut usize,
    session: BegunSession,
    form: RowForm,
    stat: Stat,
    given: Option<u64>,
) -> Asked<'a, u64>
    ensures { (next : ℕ → RequestTree) →
        Reads told.now at.old at.new result (numbered_as session form stat given next) next }
{
    match given {
        None => numbered_anew(told, at, session, form, stat),
        Some(number) => Ok(number),
    }
}

/// What was opened gets the number of its object, where it has one, or a new one.
fn numbered<'a>(
    told: &'a [Heard],
    at: &mut usize,
    session: BegunSession,
    form: RowForm,
    stat: Stat,
) -> Asked<'a, u64>
    ensures { (next : ℕ → RequestTree) →
        Reads told.now at.old at.new result (numbered session form stat next) next }
{
    let given = claim(told, at, session, None, stat.ids)?;
    numbered_as(told, at, session, form, stat, given)
}

/// What a lookup hands on, in a directory of these ids.
fn looked_of(plan: &Plan, session: BegunSession, parent: ObjIds, stat: &Stat, number: u64) -> Looked
    ensures { result ≡ looked_of plan.now session parent stat.now number }
{
    Looked {
        entry: entry_of(plan, session.agreed, parent, stat, number),
        ids: stat.ids,
    }
}

/// A name in a numbered directory becomes an entry, whose count passes the end of the bracket.
pub fn do_lookup<'a>(
    told: &'a [Heard],
    at: &mut usize,
    plan: &Plan,
    session: BegunSession,
    parent: u64,
    name: &'a Bytes,
) -> Asked<'a, Looked>
    ensures { (next : Looked → RequestTree) →
        Reads told.now at.old at.new result (look_up plan.now session parent name.now next) next }
{
    brackets(told, at)?;
    let directory = resolve(told, at, parent)?;
    let dir = file_of(&directory.form)?;
    let fd = open_at(told, at, dir, name, OpenFlags::PATH)?;
    let stat = stat(told, at, fd)?;
    let number = numbered(told, at, session, RowForm::File(fd), stat)?;
    shuts(told, at, true)?;
    Ok(looked_of(plan, session, directory.ids, &stat, number))
}
