ghost use Rattle.std.specs.Prelude.{◌≡◌, ◌∷◌, IfOk, Some, None};
ghost use Rattle.pt_script.specs.NameRules.{
  kind_named,
  scope_named,
  map_rule_in,
  kind_rule_in,
  scoped_rule_in,
  name_rule_in,
};

use pt_maps::{RuleKind, RuleScope, XattrRule};
use pt_text::{Parts, is_word};
use pt_words::{LineError, end, next_bytes, next_word};
use std::alloc::Global;

fn kind_named(word: &[u8]) -> Option<RuleKind>
    ensures { result ≡ kind_named word.now }
{
    if is_word(word, b"prefix") {
        Some(RuleKind::Prefix)
    } else if is_word(word, b"ok") {
        Some(RuleKind::Okay)
    } else if is_word(word, b"bad") {
        Some(RuleKind::Bad)
    } else if is_word(word, b"unsupported") {
        Some(RuleKind::Unsupported)
    } else {
        None
    }
}

fn scope_named(word: &[u8]) -> Option<RuleScope>
    ensures { result ≡ scope_named word.now }
{
    if is_word(word, b"client") {
        Some(RuleScope::Client)
    } else if is_word(word, b"server") {
        Some(RuleScope::Server)
    } else if is_word(word, b"all") {
        Some(RuleScope::All)
    } else {
        None
    }
}

fn next_map_rule(alloc: Global, words: &mut Parts<'_>) -> Result<XattrRule, LineError>
    ensures ok { IfOk result (λ rule. map_rule_in words.old ≡ Some rule) }
    ensures bad { result ≡ Err LineError.Bad → map_rule_in words.old ≡ None }
{
    let key = next_bytes(alloc, words)?;
    let prepend = next_bytes(alloc, words)?;
    end(words)?;
    Ok(XattrRule::Map(key, prepend))
}

// The rest of a rule of this kind.
fn next_kind_rule(
    alloc: Global,
    kind: RuleKind,
    words: &mut Parts<'_>,
) -> Result<XattrRule, LineError>
    ensures ok { IfOk result (λ rule. kind_rule_in kind words.old ≡ Some rule) }
    ensures bad { result ≡ Err LineError.Bad → kind_rule_in kind words.old ≡ None }
{
    let word = next_word(words)?;
    let scope = scope_named(word).ok_or(LineError::Bad)?;
    let key = next_bytes(alloc, words)?;
    let prepend = next_bytes(alloc, words)?;
    end(words)?;
    Ok(XattrRule::Rule(kind, scope, key, prepend))
}

// The rule whose kind this word tells.
fn next_scoped_rule(
    alloc: Global,
    word: &[u8],
    words: &mut Parts<'_>,
) -> Result<XattrRule, LineError>
    ensures ok { IfOk result (λ rule. scoped_rule_in word.now words.old ≡ Some rule) }
    ensures bad { result ≡ Err LineError.Bad → scoped_rule_in word.now words.old ≡ None }
{
    let kind = kind_named(word).ok_or(LineError::Bad)?;
    next_kind_rule(alloc, kind, words)
}

fn next_name_rule_as(
    alloc: Global,
    word: &[u8],
    words: &mut Parts<'_>,
) -> Result<XattrRule, LineError>
    ensures ok { IfOk result (λ rule. name_rule_in (word.now ∷ words.old) ≡ Some rule) }
    ensures bad { result ≡ Err LineError.Bad → name_rule_in (word.now ∷ words.old) ≡ None }
{
    if is_word(word, b"map") {
        next_map_rule(alloc, words)
    } else {
        next_scoped_rule(alloc, word, words)
    }
}

/// A rule for the names of extended attributes, to the last word.
pub fn next_name_rule(alloc: Global, words: &mut Parts<'_>) -> Result<XattrRule, LineError>
    ensures ok { IfOk result (λ rule. name_rule_in words.old ≡ Some rule) }
    ensures bad { result ≡ Err LineError.Bad → name_rule_in words.old ≡ None }
{
    let word = next_word(words)?;
    next_name_rule_as(alloc, word, words)
}
