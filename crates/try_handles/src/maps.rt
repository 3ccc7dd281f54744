//! The map of ids of a case.

use handle_values::{Trouble, end, last, next, push_ok};
use pt_maps::{IdMap, IdRule, MapError, XattrMap};
use pt_show::{Text, Words};
use pt_text::push_text;
use std::alloc::Global;

/// The two maps of a case.
#[derive(Drop)]
pub struct Maps {
    pub ids: IdMap,
    pub names: XattrMap,
}

impl Maps {
    /// Without rules.
    pub fn new(alloc: Global) -> Self {
        Maps {
            ids: IdMap::empty(alloc),
            names: XattrMap::from_rules(alloc, Vec::new(alloc)),
        }
    }
}

/// Why an id, a name or a rule is refused.
pub fn push_map_error(out: &mut Vec<u8>, error: MapError) -> Result<(), Trouble> {
    push_text(out, b" Err")?;
    match error {
        MapError::Overlap(place) => {
            push_text(out, b" Overlap")?;
            place.write(out)?;
        }
        MapError::PastEnd(place) => {
            push_text(out, b" PastEnd")?;
            place.write(out)?;
        }
        MapError::Forbidden(id) => {
            push_text(out, b" Forbidden")?;
            id.write(out)?;
        }
        MapError::Unmet => push_text(out, b" Unmet")?,
        MapError::Memory => return Err(Trouble::Memory),
    }
    Ok(())
}

/// The two ids and the count of a rule.
fn next_ids(words: &mut Words<'_>) -> Result<(u32, u32, u32), Trouble> {
    let first: u32 = next(words)?;
    let target: u32 = next(words)?;
    Ok((first, target, next(words)?))
}

/// The rule that this word and the next ones are, as a script has it.
fn next_rule(kind: &[u8], words: &mut Words<'_>) -> Result<IdRule, Trouble> {
    if kind == b"forbid-guest".as_slice() {
        let first: u32 = next(words)?;
        return Ok(IdRule::ForbidGuest(first, next(words)?));
    }
    let (first, target, count) = next_ids(words)?;
    match kind {
        b"guest" => Ok(IdRule::Guest(first, target, count)),
        b"host" => Ok(IdRule::Host(first, target, count)),
        b"squash-guest" => Ok(IdRule::SquashGuest(first, target, count)),
        b"squash-host" => Ok(IdRule::SquashHost(first, target, count)),
        b"map" => Ok(IdRule::Map(first, target, count)),
        _ => Err(Trouble::Bad),
    }
}

/// So many rules as the next word says, to the last word.
fn last_rules(words: &mut Words<'_>) -> Result<Vec<IdRule>, Trouble> {
    let count: u64 = next(words)?;
    let mut rules = Vec::new(words.alloc());
    for _ in 0..count {
        let kind = words.word()?;
        let rule = next_rule(kind, words)?;
        rules.push(rule)?;
    }
    end(words)?;
    Ok(rules)
}

/// Makes the map without rules.
pub fn take_empty(maps: &mut Maps, words: &mut Words<'_>) -> Result<(), Trouble> {
    end(words)?;
    maps.ids = IdMap::empty(words.alloc());
    Ok(())
}

/// A refused map leaves the one that there was.
fn take_rules(maps: &mut Maps, words: &mut Words<'_>, out: &mut Vec<u8>) -> Result<(), Trouble> {
    let rules = last_rules(words)?;
    match IdMap::from_rules(words.alloc(), rules.as_slice()) {
        Ok(map) => {
            maps.ids = map;
            Ok(push_text(out, b" Ok")?)
        }
        Err(why) => push_map_error(out, why),
    }
}

fn take_guest(maps: &Maps, words: &mut Words<'_>, out: &mut Vec<u8>) -> Result<(), Trouble> {
    let id: u32 = last(words)?;
    match maps.ids.map_guest(id) {
        Ok(id) => Ok(push_ok(out, &id)?),
        Err(why) => push_map_error(out, why),
    }
}

fn take_host(maps: &Maps, words: &mut Words<'_>, out: &mut Vec<u8>) -> Result<(), Trouble> {
    let id: u32 = last(words)?;
    Ok(maps.ids.map_host(id).write(out)?)
}

/// Answers the call of this name, if it is one of these.
pub fn take(
    maps: &mut Maps,
    name: &[u8],
    words: &mut Words<'_>,
    out: &mut Vec<u8>,
) -> Result<bool, Trouble> {
    match name {
        b"IdMap::from_rules" => take_rules(maps, words, out)?,
        b"IdMap::map_guest" => take_guest(maps, words, out)?,
        b"IdMap::map_host" => take_host(maps, words, out)?,
        _ => return Ok(false),
    }
    Ok(true)
}
