ghost use Rattle.pt_frame.specs.Deed.{deed_of};
ghost use Rattle.pt_show.specs.ActTexts.{deed_text, act_reply_text};

use crate::plain::push_name;
use crate::text::Text;
use pt_frame::{Act, ActReply};
use std::alloc::AllocError;

impl Text for Act<'_> {
    ghost text = { λ act. deed_text (deed_of act) };

    fn write(&self, out: &mut Vec<u8>) -> Result<(), AllocError> {
        match self {
            Act::Event(event) => event.write(out),
            Act::Host(call) => call.write(out),
        }
    }
}

impl Text for ActReply {
    ghost text = { act_reply_text };

    fn write(&self, out: &mut Vec<u8>) -> Result<(), AllocError> {
        match self {
            ActReply::Event(reply) => reply.write(out),
            ActReply::Host(reply) => reply.write(out),
            ActReply::NoCopy => push_name(out, b" NoCopy"),
        }
    }
}
