ghost use Rattle.std.specs.Prelude.{◌≡◌, IfOk, Some, None};
ghost use Rattle.pt_script.specs.IdRules.{rule_ids_in, forbidden_in, id_rule_as, id_rule_in};

use pt_maps::IdRule;
use pt_text::{Parts, is_word};
use pt_words::{LineError, end, next_small, next_word};

/// The first id of a range, what it becomes, and how many ids the range has.
#[derive(Clone, Copy)]
pub struct RuleIds {
    pub first: u32,
    pub target: u32,
    pub count: u32,
}

fn next_rule_ids(words: &mut Parts<'_>) -> Result<RuleIds, LineError>
    ensures ok { IfOk result (λ ids. rule_ids_in words.old ≡ Some ids) }
    ensures bad { result ≡ Err LineError.Bad → rule_ids_in words.old ≡ None }
    ensures no_memory { result ≡ Err LineError.Memory → ⊥ }
{
    let first = next_small(words)?;
    let target = next_small(words)?;
    let count = next_small(words)?;
    end(words)?;
    Ok(RuleIds {
        first,
        target,
        count,
    })
}

fn next_forbidden(words: &mut Parts<'_>) -> Result<IdRule, LineError>
    ensures ok { IfOk result (λ rule. forbidden_in words.old ≡ Some rule) }
    ensures bad { result ≡ Err LineError.Bad → forbidden_in words.old ≡ None }
    ensures no_memory { result ≡ Err LineError.Memory → ⊥ }
{
    let first = next_small(words)?;
    let count = next_small(words)?;
    end(words)?;
    Ok(IdRule::ForbidGuest(first, count))
}

// The rule that begins with this word.
fn next_id_rule_as(word: &[u8], words: &mut Parts<'_>) -> Result<IdRule, LineError>
    ensures ok { IfOk result (λ rule. id_rule_as word.now words.old ≡ Some rule) }
    ensures bad { result ≡ Err LineError.Bad → id_rule_as word.now words.old ≡ None }
    ensures no_memory { result ≡ Err LineError.Memory → ⊥ }
{
    if is_word(word, b"guest") {
        let ids = next_rule_ids(words)?;
        Ok(IdRule::Guest(ids.first, ids.target, ids.count))
    } else if is_word(word, b"host") {
        let ids = next_rule_ids(words)?;
        Ok(IdRule::Host(ids.first, ids.target, ids.count))
    } else if is_word(word, b"squash-guest") {
        let ids = next_rule_ids(words)?;
        Ok(IdRule::SquashGuest(ids.first, ids.target, ids.count))
    } else if is_word(word, b"squash-host") {
        let ids = next_rule_ids(words)?;
        Ok(IdRule::SquashHost(ids.first, ids.target, ids.count))
    } else if is_word(word, b"forbid-guest") {
        next_forbidden(words)
    } else if is_word(word, b"map") {
        let ids = next_rule_ids(words)?;
        Ok(IdRule::Map(ids.first, ids.target, ids.count))
    } else {
        Err(LineError::Bad)
    }
}

/// A rule by which ids are translated, to the last word.
pub fn next_id_rule(words: &mut Parts<'_>) -> Result<IdRule, LineError>
    ensures ok { IfOk result (λ rule. id_rule_in words.old ≡ Some rule) }
    ensures bad { result ≡ Err LineError.Bad → id_rule_in words.old ≡ None }
    ensures no_memory { result ≡ Err LineError.Memory → ⊥ }
{
    let word = next_word(words)?;
    next_id_rule_as(word, words)
}
