//! Calls the leaf functions that lines name, and prints behind each line what it gives.
#![tactic(auto)]

mod copies;
mod creds;
mod flags;
mod handles;
mod ids;
mod lengths;
mod modes;
mod names;
mod planned;
mod replies;
mod seats;
mod texts;

use pt_host::{Caps, HostSeat};
use std::alloc::{AllocError, Global};
use std::io;

/// What the line's call gives, or that there is no such call.
fn answer(alloc: Global, seat: &mut HostSeat, words: &[&str]) -> Result<String, AllocError> {
    let Some((subject, rest)) = words.split_first() else {
        return String::from_str(alloc, "no call");
    };
    match *subject {
        "text" => texts::answer(alloc, rest),
        "flag" => flags::answer(alloc, rest),
        "length" => lengths::answer(alloc, rest),
        "copy" => copies::answer(alloc, rest),
        "seat" => seats::answer(alloc, seat, rest),
        "ids" => ids::answer(alloc, rest),
        "names" => names::answer(alloc, rest),
        "mode" => modes::answer(alloc, rest),
        "creds" => creds::creds(alloc, rest),
        "cap" => creds::cap(alloc, rest),
        "mask" => creds::mask(alloc, rest),
        "handles" => handles::answer(alloc, rest),
        _ => String::from_str(alloc, "no call"),
    }
}

fn main(rt: HostRuntime) -> io::Result<()> {
    let alloc = rt.alloc();
    let mut seat = HostSeat::new(0, 0, Caps(0));
    for line in rt.lines(alloc) {
        let line = line?;
        let words: Vec<&str> = line.as_str().split(' ').collect(alloc)?;
        let told = answer(alloc, &mut seat, words.as_slice())?;
        println!(rt; "{line} = {told}")?;
    }
    Ok(())
}
