//! The host's own lines: its calls as a report prints them, edits, and the seat.

use handle_values::Trouble;
use pt_host::{Host, HostReply, HostSeat, KeptHostOp};
use pt_script::next_edit;
use pt_show::{Text, read_text};
use pt_text::{Parts, push_text};
use pt_tree::TreeHost;
use pt_words::{end, next_word};
use std::alloc::{AllocError, Global};

fn push_seat(out: &mut Vec<u8>, seat: &HostSeat) -> Result<(), AllocError> {
    for id in [
        seat.real_uid,
        seat.eff_uid,
        seat.saved_uid,
        seat.real_gid,
        seat.eff_gid,
        seat.saved_gid,
    ] {
        id.write(out)?;
    }
    (seat.groups.as_slice().len() as u64).write(out)?;
    for group in seat.groups.as_slice() {
        group.write(out)?;
    }
    seat.eff_caps.write(out)?;
    seat.perm_caps.write(out)?;
    seat.umask.write(out)
}

fn push_edited(out: &mut Vec<u8>, reply: &HostReply) -> Result<(), Trouble> {
    match reply {
        HostReply::Ok(_) => push_text(out, b" Edited")?,
        HostReply::Refused(errno) | HostReply::Fault(errno) => {
            push_text(out, b" EditRefused")?;
            errno.write(out)?;
        }
        HostReply::NoMemory => return Err(Trouble::Memory),
    }
    Ok(())
}

/// Whether a call of this name stands in no line: a line `edit` makes an edit, and scopes alone change the seat.
fn has_no_line(name: &[u8]) -> bool {
    matches!(
        name,
        b"Edit" | b"SetGroups" | b"SetEgid" | b"SetEuid" | b"RaiseCap" | b"DropCap" | b"SetUmask"
    )
}

/// Makes what a line asks of the host, and puts what it is answered behind others.
pub fn answer(
    alloc: Global,
    host: &mut TreeHost,
    seat: &mut HostSeat,
    line: &[u8],
    out: &mut Vec<u8>,
) -> Result<(), Trouble> {
    let mut words = Parts::words(line);
    let name = next_word(&mut words)?;
    if has_no_line(name) {
        return Err(Trouble::Bad);
    }
    match name {
        b"edit" => {
            let edit = next_edit(alloc, &mut words)?;
            push_edited(out, &host.edit(&edit))
        }
        b"seat" => {
            end(&words)?;
            Ok(push_seat(out, seat)?)
        }
        _ => {
            let call: KeptHostOp = read_text(alloc, line)?;
            Ok(host.call(seat, &call.lend()).write(out)?)
        }
    }
}
