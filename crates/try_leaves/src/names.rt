//! Maps of the names of extended attributes, by their rules.

use pt_host::Bytes;
use pt_maps::{AppliedRule, RuleKind, RuleScope, XattrMap, XattrRule, terminated_rules_meet_all};
use std::alloc::{AllocError, Global};

fn kind_of(word: &str) -> Option<RuleKind> {
    Some(match word {
        "prefix" => RuleKind::Prefix,
        "ok" => RuleKind::Okay,
        "bad" => RuleKind::Bad,
        "unsupported" => RuleKind::Unsupported,
        _ => return None,
    })
}

fn scope_of(word: &str) -> Option<RuleScope> {
    Some(match word {
        "client" => RuleScope::Client,
        "server" => RuleScope::Server,
        "all" => RuleScope::All,
        _ => return None,
    })
}

/// A rule such as `prefix:all:user.:trusted.`, or `map:user.:trusted.`.
fn rule_of(alloc: Global, word: &str) -> Result<Option<XattrRule>, AllocError> {
    let parts: Vec<&str> = word.split(':').collect(alloc)?;
    match parts.as_slice() {
        ["map", key, prepend] => {
            let key = Bytes::from_slice(alloc, key.as_bytes())?;
            let prepend = Bytes::from_slice(alloc, prepend.as_bytes())?;
            Ok(Some(XattrRule::Map(key, prepend)))
        }
        [kind, scope, key, prepend] => {
            let (Some(kind), Some(scope)) = (kind_of(kind), scope_of(scope)) else {
                return Ok(None);
            };
            let key = Bytes::from_slice(alloc, key.as_bytes())?;
            let prepend = Bytes::from_slice(alloc, prepend.as_bytes())?;
            Ok(Some(XattrRule::Rule(kind, scope, key, prepend)))
        }
        _ => Ok(None),
    }
}

/// The bytes as text, with `;` for the NUL behind a name.
fn text_of(alloc: Global, bytes: &[u8]) -> Result<String, AllocError> {
    let mut text = String::new(alloc);
    for byte in bytes {
        text.push(if *byte == 0 { ';' } else { char::from(*byte) })?;
    }
    Ok(text)
}

fn client(alloc: Global, map: &XattrMap, name: &str) -> Result<String, AllocError> {
    match map.map_client_xattr(name.as_bytes()) {
        Ok(AppliedRule::Pass(name)) => {
            let name = text_of(alloc, name.as_slice())?;
            format!(in alloc; "Pass {name}")
        }
        Ok(AppliedRule::Deny) => String::from_str(alloc, "Deny"),
        Ok(AppliedRule::Unsupported) => String::from_str(alloc, "Unsupported"),
        Err(error) => format!(in alloc; "{error:?}"),
    }
}

/// The list has a NUL behind each of the names.
fn listed(alloc: Global, map: &XattrMap, names: &[&str]) -> Result<String, AllocError> {
    let mut list = Vec::new(alloc);
    for name in names {
        list.extend_from_slice(name.as_bytes())?;
        list.push(0)?;
    }
    match map.map_server_xattrlist(list.as_slice()) {
        Ok(names) => text_of(alloc, names.as_slice()),
        Err(error) => format!(in alloc; "{error:?}"),
    }
}

/// Rules, and what is asked of their map.
pub fn answer(alloc: Global, words: &[&str]) -> Result<String, AllocError> {
    terminated_rules_meet_all();
    let mut rules = Vec::new(alloc);
    for word in words {
        match rule_of(alloc, word)? {
            Some(rule) => rules.push(rule)?,
            None => break,
        }
    }
    let rest = words.get(rules.len()..).unwrap_or(&[]);
    let map = XattrMap::from_rules(alloc, rules);
    match rest {
        ["client", name] => client(alloc, &map, name),
        ["listed", names @ ..] => listed(alloc, &map, names),
        ["terminated"] => format!(in alloc; "{}", map.is_terminated()),
        _ => String::from_str(alloc, "no call"),
    }
}
