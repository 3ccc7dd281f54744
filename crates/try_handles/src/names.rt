//! The map of a case for the names of extended attributes.

use crate::maps::push_map_error;
use handle_values::{Trouble, end, last, next, push_ok};
use pt_host::Bytes;
use pt_maps::{AppliedRule, RuleKind, RuleScope, XattrMap, XattrRule};
use pt_show::{Text, Words};
use pt_text::push_text;

fn next_kind(word: &[u8]) -> Result<RuleKind, Trouble> {
    match word {
        b"prefix" => Ok(RuleKind::Prefix),
        b"ok" => Ok(RuleKind::Okay),
        b"bad" => Ok(RuleKind::Bad),
        b"unsupported" => Ok(RuleKind::Unsupported),
        _ => Err(Trouble::Bad),
    }
}

fn next_scope(words: &mut Words<'_>) -> Result<RuleScope, Trouble> {
    match words.word()? {
        b"client" => Ok(RuleScope::Client),
        b"server" => Ok(RuleScope::Server),
        b"all" => Ok(RuleScope::All),
        _ => Err(Trouble::Bad),
    }
}

/// The rule that this word and the next ones are, as a script has it.
fn next_rule(kind: &[u8], words: &mut Words<'_>) -> Result<XattrRule, Trouble> {
    if kind == b"map".as_slice() {
        let key: Bytes = next(words)?;
        return Ok(XattrRule::Map(key, next(words)?));
    }
    let kind = next_kind(kind)?;
    let scope = next_scope(words)?;
    let key: Bytes = next(words)?;
    Ok(XattrRule::Rule(kind, scope, key, next(words)?))
}

/// So many rules as the next word says, to the last word.
fn last_rules(words: &mut Words<'_>) -> Result<Vec<XattrRule>, Trouble> {
    let count: u64 = next(words)?;
    let mut rules = Vec::new(words.alloc());
    for _ in 0..count {
        let kind = words.word()?;
        let rule = next_rule(kind, words)?;
        rules.push(rule)?;
    }
    end(words)?;
    Ok(rules)
}

/// Makes the map of these rules.
pub fn take_rules(names: &mut XattrMap, words: &mut Words<'_>) -> Result<(), Trouble> {
    let rules = last_rules(words)?;
    *names = XattrMap::from_rules(words.alloc(), rules);
    Ok(())
}

fn take_terminated(
    names: &XattrMap,
    words: &mut Words<'_>,
    out: &mut Vec<u8>,
) -> Result<(), Trouble> {
    end(words)?;
    Ok(names.is_terminated().write(out)?)
}

fn take_client(names: &XattrMap, words: &mut Words<'_>, out: &mut Vec<u8>) -> Result<(), Trouble> {
    let name: Bytes = last(words)?;
    match names.map_client_xattr(name.as_slice()) {
        Ok(AppliedRule::Pass(name)) => {
            push_text(out, b" Ok Pass")?;
            Ok(name.write(out)?)
        }
        Ok(AppliedRule::Deny) => Ok(push_text(out, b" Ok Deny")?),
        Ok(AppliedRule::Unsupported) => Ok(push_text(out, b" Ok Unsupported")?),
        Err(why) => push_map_error(out, why),
    }
}

fn take_list(names: &XattrMap, words: &mut Words<'_>, out: &mut Vec<u8>) -> Result<(), Trouble> {
    let list: Bytes = last(words)?;
    match names.map_server_xattrlist(list.as_slice()) {
        Ok(list) => Ok(push_ok(out, &list)?),
        Err(why) => push_map_error(out, why),
    }
}

/// Answers the call of this name, if it is one of these.
pub fn take(
    names: &XattrMap,
    name: &[u8],
    words: &mut Words<'_>,
    out: &mut Vec<u8>,
) -> Result<bool, Trouble> {
    match name {
        b"XattrMap::is_terminated" => take_terminated(names, words, out)?,
        b"XattrMap::map_client_xattr" => take_client(names, words, out)?,
        b"XattrMap::map_server_xattrlist" => take_list(names, words, out)?,
        _ => return Ok(false),
    }
    Ok(true)
}
