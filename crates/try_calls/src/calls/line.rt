use crate::calls::case::Case;
use crate::calls::long::written_out;
use crate::trouble::Trouble;
use pt_host::{HostReply, HostSeat, KeptHostOp};
use pt_script::{next_edit, next_fault, next_identity, next_tree_line};
use pt_show::{Text, read_text};
use pt_text::{Parts, push_text};
use pt_words::{end, next_word};
use std::alloc::{AllocError, Global};

// The line as it was given, and what it was answered.
fn push_answer(out: &mut Vec<u8>, given: &[u8], reply: &HostReply) -> Result<(), AllocError> {
    push_text(out, given)?;
    push_text(out, b" =")?;
    reply.write(out)?;
    push_text(out, b"\n")
}

fn push_seat(out: &mut Vec<u8>, seat: &HostSeat) -> Result<(), AllocError> {
    push_text(out, b"who")?;
    for id in [
        seat.real_uid,
        seat.eff_uid,
        seat.saved_uid,
        seat.real_gid,
        seat.eff_gid,
        seat.saved_gid,
        seat.eff_caps.0,
        seat.perm_caps.0,
        seat.umask,
    ] {
        id.write(out)?;
    }
    for group in seat.groups.as_slice() {
        group.write(out)?;
    }
    push_text(out, b"\n")
}

/// Makes the tree where that was not done, and tells which of its lines is none of a tree.
pub fn settle(case: &mut Case, out: &mut Vec<u8>) -> Result<(), AllocError> {
    if let Some(place) = case.make_tree()? {
        push_text(out, b"no tree")?;
        place.write(out)?;
        push_text(out, b"\n")?;
    }
    Ok(())
}

// A seat of this name begins with an identity.
fn take_seat(case: &mut Case, words: &mut Parts<'_>) -> Result<(), Trouble> {
    let name = next_word(words)?;
    let who = next_identity(words)?;
    let seat = HostSeat::new(who.uid, who.gid, who.caps);
    case.seats.begin(name, seat)?;
    Ok(())
}

// The seat of this name is the current one again.
fn take_as(case: &mut Case, words: &mut Parts<'_>) -> Result<(), Trouble> {
    let name = next_word(words)?;
    end(words)?;
    case.seats.resume(name)
}

fn take_who(case: &mut Case, words: &mut Parts<'_>, out: &mut Vec<u8>) -> Result<(), Trouble> {
    end(words)?;
    push_seat(out, case.seats.current()?)?;
    Ok(())
}

fn take_list(case: &mut Case, words: &mut Parts<'_>, out: &mut Vec<u8>) -> Result<(), Trouble> {
    end(words)?;
    push_text(out, case.listing()?.as_slice())?;
    Ok(())
}

// An edit, as it was given.
fn take_edit(
    alloc: Global,
    case: &mut Case,
    given: &[u8],
    words: &mut Parts<'_>,
    out: &mut Vec<u8>,
) -> Result<(), Trouble> {
    let edit = next_edit(alloc, words)?;
    let reply = case.edit(&edit)?;
    push_answer(out, given, &reply)?;
    Ok(())
}

// A call, as it was given and written out.
fn take_call(
    alloc: Global,
    case: &mut Case,
    given: &[u8],
    line: &[u8],
    out: &mut Vec<u8>,
) -> Result<(), Trouble> {
    let call: KeptHostOp = read_text(alloc, line)?;
    let reply = case.call(&call)?;
    push_answer(out, given, &reply)?;
    Ok(())
}

// A line that is none of a tree, as it was given and written out.
fn take_other(
    alloc: Global,
    case: &mut Case,
    given: &[u8],
    line: &[u8],
    out: &mut Vec<u8>,
) -> Result<(), Trouble> {
    let mut words = Parts::words(line);
    match next_word(&mut words)? {
        b"fault" => case.plan(next_fault(&mut words)?),
        b"seat" => take_seat(case, &mut words),
        b"as" => take_as(case, &mut words),
        b"who" => take_who(case, &mut words, out),
        b"list" => take_list(case, &mut words, out),
        b"edit" => take_edit(alloc, case, given, &mut words, out),
        _ => take_call(alloc, case, given, line, out),
    }
}

fn is_of_tree(word: &[u8]) -> bool {
    matches!(
        word,
        b"mount" | b"dir" | b"file" | b"link" | b"spec" | b"hard" | b"xattr"
    )
}

/// What a line does to the case, and what it tells, which is put behind `out`.
pub fn take(
    alloc: Global,
    case: &mut Case,
    given: &[u8],
    out: &mut Vec<u8>,
) -> Result<(), Trouble> {
    let line = written_out(alloc, given)?.ok_or(Trouble::Bad)?;
    let mut words = Parts::words(line.as_slice());
    let word = next_word(&mut words)?;
    if is_of_tree(word) {
        let line = next_tree_line(alloc, word, &mut words)?;
        return case.take_tree_line(line);
    }
    settle(case, out)?;
    take_other(alloc, case, given, line.as_slice(), out)
}
