//! Scopes: an identity, a capability or a mask that is taken on, the lines that stand in it, and its end.

ghost use Rattle.std.specs.Prelude.{◌≡◌, true};
ghost use Rattle.pt_host.specs.declared.seat.HostSeat.{HostSeat};
ghost use Rattle.pt_creds.specs.Caps.{IsDroppedFrom};
ghost use Rattle.pt_creds.specs.Identity.{IsWhole};
ghost use Rattle.pt_creds.specs.Setting.{IsLeftBy};

use crate::hosts;
use crate::identities::{last_identity, push_cred_error};
use crate::lines::{Line, begins_case, push_answered, push_line};
use handle_calls::Made;
use handle_values::{Trouble, last};
use pt_creds::{CredError, ScopedCaps, ScopedUmask, UnixCredentialsGuard, drop_effective_cap};
use pt_host::{Caps, HostSeat};
use pt_show::Words;
use pt_text::push_text;
use pt_tree::TreeHost;
use std::alloc::Global;

/// Whether ids are the same and what is permitted is effective, as those who take something on have it.
fn is_whole(seat: &HostSeat) -> bool
    ensures { result ≡ true → IsWhole seat.now }
{
    seat.eff_uid == seat.real_uid
        && seat.saved_uid == seat.real_uid
        && seat.eff_gid == seat.real_gid
        && seat.saved_gid == seat.real_gid
        && seat.eff_caps == seat.perm_caps
}

/// One line in a scope.
fn take_one(
    alloc: Global,
    host: &mut TreeHost,
    seat: &mut HostSeat,
    line: &[u8],
    out: &mut Vec<u8>,
) -> Result<(), Trouble> {
    let mut told = Vec::new(alloc);
    hosts::answer(alloc, host, seat, line, &mut told)?;
    push_answered(out, line, told.as_slice())?;
    Ok(())
}

/// The lines behind this one up to the end of its scope, and how many they are. None of them changes the seat.
fn take_behind(
    host: &mut TreeHost,
    seat: &HostSeat,
    line: &Line<'_>,
    out: &mut Vec<u8>,
) -> Result<usize, Trouble> {
    let mut seat = seat.copy();
    let mut number = line.number;
    for (place, text) in line.behind.iter().enumerate() {
        let text = *text;
        if begins_case(text) {
            return Ok(place);
        }
        if text == b"restore".as_slice() {
            return Ok(place.saturating_add(1));
        }
        number = number.saturating_add(1);
        match take_one(line.alloc, host, &mut seat, text, out) {
            Ok(()) => {}
            Err(Trouble::Bad) => return Err(Trouble::At(number)),
            Err(why) => return Err(why),
        }
    }
    Ok(line.behind.len())
}

/// The line that opens a scope, with what it is answered, and the lines in the scope.
fn take_scope(
    host: &mut TreeHost,
    seat: &HostSeat,
    line: &Line<'_>,
    told: &[u8],
    out: &mut Vec<u8>,
) -> Result<usize, Trouble> {
    push_text(out, line.text)?;
    push_line(out, told)?;
    take_behind(host, seat, line, out)
}

/// The end of a scope, which is told unless one of its lines was bad.
fn tell_end(
    taken: Result<usize, Trouble>,
    restored: Result<(), CredError>,
    out: &mut Vec<u8>,
) -> Result<usize, Trouble> {
    let taken = taken?;
    push_text(out, b"restore =")?;
    match restored {
        Ok(()) => push_text(out, b" Ok")?,
        Err(why) => push_cred_error(out, why)?,
    }
    push_text(out, b"\n")?;
    Ok(taken)
}

/// A line that opened no scope, because of this error.
fn tell_refused(line: &Line<'_>, why: CredError, out: &mut Vec<u8>) -> Result<usize, Trouble> {
    let mut told = Vec::new(line.alloc);
    push_cred_error(&mut told, why)?;
    push_answered(out, line.text, told.as_slice())?;
    Ok(0)
}

/// A line that had nothing to take on.
fn tell_none(line: &Line<'_>, out: &mut Vec<u8>) -> Result<usize, Trouble> {
    push_answered(out, line.text, b" Ok -")?;
    Ok(0)
}

fn hold_identity(
    made: &mut Made,
    guard: UnixCredentialsGuard,
    line: &Line<'_>,
    out: &mut Vec<u8>,
) -> Result<usize, Trouble>
    requires { (before : HostSeat) × IsLeftBy before guard made.old.seat }
{
    let taken = take_scope(&mut made.host, &made.seat, line, b" = Ok +", out);
    let restored = guard.restore(&mut made.host, &mut made.seat);
    tell_end(taken, restored, out)
}

fn hold_cap(
    made: &mut Made,
    scope: ScopedCaps,
    line: &Line<'_>,
    out: &mut Vec<u8>,
) -> Result<usize, Trouble>
    requires { (before : HostSeat) × IsDroppedFrom before scope made.old.seat }
{
    let taken = take_scope(&mut made.host, &made.seat, line, b" = Ok +", out);
    let restored = scope.restore(&mut made.host, &mut made.seat);
    tell_end(taken, restored, out)
}

fn take_identity(
    made: &mut Made,
    words: &mut Words<'_>,
    line: &Line<'_>,
    out: &mut Vec<u8>,
) -> Result<usize, Trouble> {
    if !is_whole(&made.seat) {
        return Err(Trouble::Bad);
    }
    let creds = last_identity(words)?;
    match creds.set(&mut made.host, &mut made.seat) {
        Ok(Some(guard)) => hold_identity(made, guard, line, out),
        Ok(None) => tell_none(line, out),
        Err(why) => tell_refused(line, why, out),
    }
}

fn take_cap(
    made: &mut Made,
    words: &mut Words<'_>,
    line: &Line<'_>,
    out: &mut Vec<u8>,
) -> Result<usize, Trouble> {
    if !is_whole(&made.seat) {
        return Err(Trouble::Bad);
    }
    let cap: Caps = last(words)?;
    if cap.0.count_ones() != 1 {
        return Err(Trouble::Bad);
    }
    match drop_effective_cap(&mut made.host, &mut made.seat, cap) {
        Ok(Some(scope)) => hold_cap(made, scope, line, out),
        Ok(None) => tell_none(line, out),
        Err(why) => tell_refused(line, why, out),
    }
}

fn take_mask(
    made: &mut Made,
    words: &mut Words<'_>,
    line: &Line<'_>,
    out: &mut Vec<u8>,
) -> Result<usize, Trouble> {
    let mask: u32 = last(words)?;
    let scope = ScopedUmask::new(&mut made.host, &mut made.seat, mask);
    let taken = take_scope(&mut made.host, &made.seat, line, b"", out);
    let restored = scope.restore(&mut made.host, &mut made.seat);
    tell_end(taken, restored, out)
}

/// Takes on what a line says, up to the end of its scope. None if it is no such line; else how many lines behind it
/// stood in the scope, its end among them.
pub fn take(made: &mut Made, line: &Line<'_>, out: &mut Vec<u8>) -> Result<Option<usize>, Trouble> {
    let mut words = Words::new(line.alloc, line.text);
    match words.word()? {
        b"UnixCredentials::set" => Ok(Some(take_identity(made, &mut words, line, out)?)),
        b"drop_effective_cap" => Ok(Some(take_cap(made, &mut words, line, out)?)),
        b"ScopedUmask::new" => Ok(Some(take_mask(made, &mut words, line, out)?)),
        _ => Ok(None),
    }
}
