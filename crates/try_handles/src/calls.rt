//! The calls of a case.

use crate::case::{Called, Case};
use crate::lines::{Line, push_answered, push_line};
use crate::{hosts, identities, maps, names, scopes};
use handle_calls::make_mounts;
use handle_values::Trouble;
use pt_show::Words;
use std::alloc::Global;

/// Makes the call of a line and puts what it is answered behind others.
fn answer(
    alloc: Global,
    called: &mut Called,
    line: &[u8],
    out: &mut Vec<u8>,
) -> Result<(), Trouble> {
    let mut words = Words::new(alloc, line);
    let name = words.word()?;
    let is_known = handle_calls::answer(&mut called.made, name, &mut words, out)?
        || maps::take(&mut called.maps, name, &mut words, out)?
        || names::take(&called.maps.names, name, &mut words, out)?
        || identities::take_steps(&called.made.seat, name, &mut words, out)?;
    if is_known {
        return Ok(());
    }
    hosts::answer(
        alloc,
        &mut called.made.host,
        &mut called.made.seat,
        line,
        out,
    )
}

/// Makes what a line makes that is answered nothing, if it is such a line.
fn make(alloc: Global, called: &mut Called, line: &[u8]) -> Result<bool, Trouble> {
    let mut words = Words::new(alloc, line);
    match words.word()? {
        b"MountFds::new" => make_mounts(&mut called.made, &mut words)?,
        b"IdMap::empty" => maps::take_empty(&mut called.maps, &mut words)?,
        b"XattrMap::from_rules" => names::take_rules(&mut called.maps.names, &mut words)?,
        _ => return Ok(false),
    }
    Ok(true)
}

/// Makes the call of a line and tells it. How many lines behind it were taken too.
pub fn take(case: &mut Case, line: &Line<'_>, out: &mut Vec<u8>) -> Result<usize, Trouble> {
    let called = case.calls()?;
    if let Some(taken) = scopes::take(&mut called.made, line, out)? {
        return Ok(taken);
    }
    if make(line.alloc, called, line.text)? {
        push_line(out, line.text)?;
        return Ok(0);
    }
    let mut told = Vec::new(line.alloc);
    answer(line.alloc, called, line.text, &mut told)?;
    push_answered(out, line.text, told.as_slice())?;
    Ok(0)
}
