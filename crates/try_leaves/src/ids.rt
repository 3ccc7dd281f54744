//! Maps of ids, by their rules.

use pt_maps::{IdMap, IdRule, rules_are_unambiguous};
use std::alloc::{AllocError, Global};

fn number_in(parts: &[&str], place: usize) -> u32 {
    match parts.get(place) {
        Some(part) => part.parse::<u32>().unwrap_or(0),
        None => 0,
    }
}

/// A rule such as `guest:0:1000:10`: its kind, and its numbers in their order.
fn rule_of(alloc: Global, word: &str) -> Result<Option<IdRule>, AllocError> {
    let parts: Vec<&str> = word.split(':').collect(alloc)?;
    let parts = parts.as_slice();
    let (one, two, three) = (
        number_in(parts, 1),
        number_in(parts, 2),
        number_in(parts, 3),
    );
    Ok(match parts.first() {
        Some(&"guest") => Some(IdRule::Guest(one, two, three)),
        Some(&"host") => Some(IdRule::Host(one, two, three)),
        Some(&"squash-guest") => Some(IdRule::SquashGuest(one, two, three)),
        Some(&"squash-host") => Some(IdRule::SquashHost(one, two, three)),
        Some(&"forbid-guest") => Some(IdRule::ForbidGuest(one, two)),
        Some(&"map") => Some(IdRule::Map(one, two, three)),
        _ => None,
    })
}

/// What the words behind the rules ask of the map: how an id is translated to the host or to the guest.
fn asked(alloc: Global, map: &IdMap, words: &[&str]) -> Result<String, AllocError> {
    match words {
        ["to-host", id] => format!(in alloc; "{:?}", map.map_guest(id.parse::<u32>().unwrap_or(0))),
        ["to-guest", id] => format!(in alloc; "{}", map.map_host(id.parse::<u32>().unwrap_or(0))),
        [] => String::from_str(alloc, "accepted"),
        _ => String::from_str(alloc, "no call"),
    }
}

/// Rules, and what is asked of their map. No rules at all are the empty map.
pub fn answer(alloc: Global, words: &[&str]) -> Result<String, AllocError> {
    rules_are_unambiguous();
    let mut rules = Vec::new(alloc);
    for word in words {
        match rule_of(alloc, word)? {
            Some(rule) => rules.push(rule)?,
            None => break,
        }
    }
    let rest = words.get(rules.len()..).unwrap_or(&[]);
    if rules.is_empty() {
        return asked(alloc, &IdMap::empty(alloc), rest);
    }
    match IdMap::from_rules(alloc, rules.as_slice()) {
        Ok(map) => asked(alloc, &map, rest),
        Err(error) => format!(in alloc; "{error:?}"),
    }
}
