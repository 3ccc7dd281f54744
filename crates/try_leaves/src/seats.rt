//! The seat's own calls, one after another on one seat.

use pt_host::{Caps, Fd, HostOp, HostReply, HostSeat, HostValue};
use std::alloc::{AllocError, Global};

/// The call that the words name, with a number or with so many groups of one number.
fn call_of<'a>(name: &str, number: u32, groups: &'a [u32]) -> Option<HostOp<'a>> {
    Some(match name {
        "SetEuid" => HostOp::SetEuid { uid: number },
        "SetEgid" => HostOp::SetEgid { gid: number },
        "SetGroups" => HostOp::SetGroups { list: groups },
        "RaiseCap" => HostOp::RaiseCap { caps: Caps(number) },
        "DropCap" => HostOp::DropCap { caps: Caps(number) },
        "SetUmask" => HostOp::SetUmask { mask: number },
        "Close" => HostOp::Close { fd: Fd(number) },
        _ => return None,
    })
}

fn told(alloc: Global, reply: Option<HostReply>) -> Result<String, AllocError> {
    match reply {
        Some(HostReply::Ok(HostValue::Unit)) => String::from_str(alloc, "Ok"),
        Some(HostReply::Ok(HostValue::Count(count))) => format!(in alloc; "Ok {count}"),
        Some(HostReply::Refused(errno)) => format!(in alloc; "Refused {}", errno.0),
        Some(_) => String::from_str(alloc, "another reply"),
        None => String::from_str(alloc, "no call of a seat"),
    }
}

/// The ids, the capabilities, the mask and the groups.
fn text_of(alloc: Global, seat: &HostSeat) -> Result<String, AllocError> {
    let groups = seat.groups.as_slice();
    let last = groups.last().copied().unwrap_or(0);
    format!(in alloc;
        "{} {} {}, {} {} {}, {} of {}, mask {}, {} groups, the last {last}",
        seat.real_uid,
        seat.eff_uid,
        seat.saved_uid,
        seat.real_gid,
        seat.eff_gid,
        seat.saved_gid,
        seat.eff_caps.0,
        seat.perm_caps.0,
        seat.umask,
        groups.len()
    )
}

fn number_in(words: &[&str], place: usize) -> u32 {
    match words.get(place) {
        Some(word) => word.parse::<u32>().unwrap_or(0),
        None => 0,
    }
}

pub fn answer(alloc: Global, seat: &mut HostSeat, words: &[&str]) -> Result<String, AllocError> {
    let [name, numbers @ ..] = words else {
        return String::from_str(alloc, "no call");
    };
    if *name == "new" {
        let (uid, gid) = (number_in(numbers, 0), number_in(numbers, 1));
        *seat = HostSeat::new(uid, gid, Caps(number_in(numbers, 2))).copy();
        return text_of(alloc, seat);
    }
    let many = number_in(numbers, 1).min(100) as usize;
    let groups = vec![in alloc; number_in(numbers, 0); many]?;
    let Some(op) = call_of(name, number_in(numbers, 0), groups.as_slice()) else {
        return String::from_str(alloc, "no call");
    };
    let reply = told(alloc, seat.answer(&op))?;
    let seat = text_of(alloc, seat)?;
    format!(in alloc; "{reply}: {seat}")
}
