ghost use Rattle.std.specs.Prelude.{◌≡◌, ◌++◌, OnOk};
ghost use Rattle.pt_tables.specs.Change.{change_of};
ghost use Rattle.pt_tables.specs.declared.event.KeptEvent.TheVariants as event;
ghost use Rattle.pt_show.specs.SessionTexts.{form_text, class_text, row_text, negotiated_text, pair_text};
ghost use Rattle.pt_show.specs.SessionTexts.{forgets_text};
ghost use Rattle.pt_show.specs.SessionTexts.{event_text, refusal_text, event_reply_text};

use crate::plain::{push_five, push_name, push_named, push_three, push_two};
use crate::text::Text;
use pt_host::ObjIds;
use pt_session::{
    Event, EventRefusal, EventReply, ForgetPairs, KeptEvent, Negotiated, NewRoot, NewRow, RowForm,
};
use std::alloc::AllocError;
use std::slice;

impl Text for RowForm {
    ghost text = { form_text };

    fn write(&self, out: &mut Vec<u8>) -> Result<(), AllocError> {
        match self {
            RowForm::File(fd) => push_named(out, b" File", fd),
        }
    }
}

/// A class, the last field of its event or reply. Class 0 prints nothing.
#[derive(Clone, Copy)]
struct Class(u32);

impl Text for Class {
    ghost text = { λ class. class_text class.0 };

    fn write(&self, out: &mut Vec<u8>) -> Result<(), AllocError> {
        if self.0 == 0 {
            return Ok(());
        }
        push_named(out, b" class", &self.0)
    }
}

// What a row keeps of its object.
fn write_row(out: &mut Vec<u8>, form: &RowForm, ids: ObjIds, mode: u32) -> Result<(), AllocError>
    ensures { OnOk result (out.new.items ≡ out.old.items ++ row_text form.now ids mode) }
{
    form.write(out)?;
    ids.write(out)?;
    mode.write(out)
}

fn write_insertion(out: &mut Vec<u8>, new: &NewRow) -> Result<(), AllocError>
    ensures { OnOk result (out.new.items ≡ out.old.items ++ event_text (event.Insert new.now)) }
{
    push_two(out, b" Insert", &new.era, &new.number)?;
    write_row(out, &new.form, new.ids, new.mode)?;
    Class(new.class).write(out)
}

fn write_root(out: &mut Vec<u8>, new: &NewRoot) -> Result<(), AllocError>
    ensures { OnOk result (out.new.items ≡ out.old.items ++ event_text (event.InsertRoot new.now)) }
{
    push_named(out, b" InsertRoot", &new.era)?;
    write_row(out, &new.form, new.ids, new.mode)?;
    new.negotiated.write(out)
}

impl Text for Negotiated {
    ghost text = { negotiated_text };

    fn write(&self, out: &mut Vec<u8>) -> Result<(), AllocError> {
        self.writeback.write(out)?;
        self.announce_submounts.write(out)?;
        self.posix_acl.write(out)?;
        self.sup_group.write(out)
    }
}

impl Text for (u64, u64) {
    ghost text = { pair_text };

    fn write(&self, out: &mut Vec<u8>) -> Result<(), AllocError> {
        self.0.write(out)?;
        self.1.write(out)
    }
}

impl Text for ForgetPairs {
    ghost text = { forgets_text };

    fn write(&self, out: &mut Vec<u8>) -> Result<(), AllocError> {
        self.as_slice().write(out)
    }
}

impl Text for Event<'_> {
    ghost text = { λ event. event_text (change_of event) };

    fn write(&self, out: &mut Vec<u8>) -> Result<(), AllocError> {
        match self {
            Event::Begin => push_name(out, b" Begin"),
            Event::Resolve { number } => push_named(out, b" Resolve", number),
            Event::Unpin { row } => push_named(out, b" Unpin", row),
            Event::Claim(claim) => {
                push_three(out, b" Claim", &claim.era, &claim.handle, &claim.ids)
            }
            Event::TakeFd { class } => push_named(out, b" TakeFd", &Class(*class)),
            Event::GiveFd { class } => push_named(out, b" GiveFd", &Class(*class)),
            Event::DrawNode => push_name(out, b" DrawNode"),
            Event::Insert(new) => write_insertion(out, new),
            Event::InsertRoot(new) => write_root(out, new),
            Event::Forget { list } => push_named(out, b" Forget", list),
            Event::ForgetOne { number, count } => {
                push_named(out, b" Forget", &slice::from_ref(&(*number, *count)))
            }
            Event::GiveBack { era, number } => push_two(out, b" GiveBack", era, number),
            Event::DrawHandle => push_name(out, b" DrawHandle"),
            Event::InsertHandle(new) => {
                push_five(
                    out,
                    b" InsertHandle",
                    &new.era,
                    &new.handle,
                    &new.number,
                    &new.fd,
                    &Class(new.class),
                )
            }
            Event::PinHandle { handle, number } => push_two(out, b" PinHandle", handle, number),
            Event::UnpinHandle { row } => push_named(out, b" UnpinHandle", row),
            Event::Release { handle, number } => push_two(out, b" Release", handle, number),
            Event::Clear => push_name(out, b" Clear"),
            Event::TakeClosing => push_name(out, b" TakeClosing"),
        }
    }
}

impl Text for KeptEvent {
    ghost text = { event_text };

    fn write(&self, out: &mut Vec<u8>) -> Result<(), AllocError> {
        self.lend().write(out)
    }
}

impl Text for EventRefusal {
    ghost text = { refusal_text };

    fn write(&self, out: &mut Vec<u8>) -> Result<(), AllocError> {
        match self {
            EventRefusal::NotLive => push_name(out, b" NotLive"),
            EventRefusal::Overtaken => push_name(out, b" Overtaken"),
            EventRefusal::NoSlot => push_name(out, b" NoSlot"),
            EventRefusal::Last => push_name(out, b" Last"),
            EventRefusal::Live => push_name(out, b" Live"),
            EventRefusal::Memory => push_name(out, b" Memory"),
        }
    }
}

impl Text for EventReply {
    ghost text = { event_reply_text };

    fn write(&self, out: &mut Vec<u8>) -> Result<(), AllocError> {
        match self {
            EventReply::Began { era, negotiated } => push_two(out, b" Began", era, negotiated),
            EventReply::Resolved(resolved) => {
                push_named(out, b" Resolved", &resolved.row)?;
                write_row(out, &resolved.form, resolved.ids, resolved.mode)?;
                Class(resolved.class).write(out)
            }
            EventReply::Done { closings } => push_named(out, b" Done", closings),
            EventReply::Claimed(given) => {
                push_two(out, b" Claimed", &given.number, &Class(given.class))
            }
            EventReply::Absent => push_name(out, b" Absent"),
            EventReply::Taken => push_name(out, b" Taken"),
            EventReply::Given => push_name(out, b" Given"),
            EventReply::Drawn { number } => push_named(out, b" Drawn", number),
            EventReply::Inserted { number } => push_named(out, b" Inserted", number),
            EventReply::Found(given) => {
                push_two(out, b" Found", &given.number, &Class(given.class))
            }
            EventReply::Closing(first) => push_three(
                out,
                b" Closing",
                &first.fd,
                &first.slot,
                &Class(first.class),
            ),
            EventReply::Pinned { row, fd } => push_two(out, b" Pinned", row, fd),
            EventReply::Cleared { era, closings } => push_two(out, b" Cleared", era, closings),
            EventReply::Refused(refusal) => push_named(out, b" Refused", refusal),
        }
    }
}
