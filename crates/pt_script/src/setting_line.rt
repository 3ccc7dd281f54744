ghost use Rattle.std.specs.Prelude.{◌≡◌, IfOk, Some, None};
ghost use Rattle.pt_script.specs.SettingLine.{
  limit_in,
  identity_of,
  timeout_in,
  policy_in,
  root_dir_in,
  switch_as,
  serving_setting_as,
  setting_as,
  setting_in,
};

use crate::id_rule::next_id_rule;
use crate::name_rule::next_name_rule;
use crate::settings::{Identity, Setting};
use crate::switches::switch_named;
use pt_host::Caps;
use pt_iface::Timeout;
use pt_req::CachePolicy;
use pt_text::{Parts, is_word};
use pt_words::{LineError, end, next_bytes, next_number, next_small, next_switch, next_word};
use std::alloc::Global;

fn next_limit(words: &mut Parts<'_>) -> Result<Setting, LineError>
    ensures ok { IfOk result (λ setting. limit_in words.old ≡ Some setting) }
    ensures bad { result ≡ Err LineError.Bad → limit_in words.old ≡ None }
    ensures no_memory { result ≡ Err LineError.Memory → ⊥ }
{
    let limit = next_number(words)?;
    end(words)?;
    Ok(Setting::GuestFdLimit(limit))
}

/// Who a seat begins as, to the last word.
pub fn next_identity(words: &mut Parts<'_>) -> Result<Identity, LineError>
    ensures ok { IfOk result (λ who. identity_of words.old ≡ Some who) }
    ensures bad { result ≡ Err LineError.Bad → identity_of words.old ≡ None }
    ensures no_memory { result ≡ Err LineError.Memory → ⊥ }
{
    let uid = next_small(words)?;
    let gid = next_small(words)?;
    let caps = Caps(next_small(words)?);
    end(words)?;
    Ok(Identity { uid, gid, caps })
}

// Seconds and nanoseconds, to the last word.
fn next_timeout(words: &mut Parts<'_>) -> Result<Timeout, LineError>
    ensures ok { IfOk result (λ timeout. timeout_in words.old ≡ Some timeout) }
    ensures bad { result ≡ Err LineError.Bad → timeout_in words.old ≡ None }
    ensures no_memory { result ≡ Err LineError.Memory → ⊥ }
{
    let secs = next_number(words)?;
    let nanos = next_small(words)?;
    end(words)?;
    Ok(Timeout { secs, nanos })
}

// How the guest may cache, as the last word.
fn next_policy(words: &mut Parts<'_>) -> Result<CachePolicy, LineError>
    ensures ok { IfOk result (λ policy. policy_in words.old ≡ Some policy) }
    ensures bad { result ≡ Err LineError.Bad → policy_in words.old ≡ None }
    ensures no_memory { result ≡ Err LineError.Memory → ⊥ }
{
    let word = next_word(words)?;
    let policy = CachePolicy::named(word).ok_or(LineError::Bad)?;
    end(words)?;
    Ok(policy)
}

fn next_root_dir(alloc: Global, words: &mut Parts<'_>) -> Result<Setting, LineError>
    ensures ok { IfOk result (λ setting. root_dir_in words.old ≡ Some setting) }
    ensures bad { result ≡ Err LineError.Bad → root_dir_in words.old ≡ None }
{
    let path = next_bytes(alloc, words)?;
    end(words)?;
    Ok(Setting::RootDir(path))
}

// The switch of this key, on or off.
fn next_switch_as(key: &[u8], words: &mut Parts<'_>) -> Result<Setting, LineError>
    ensures ok { IfOk result (λ setting. switch_as key.now words.old ≡ Some setting) }
    ensures bad { result ≡ Err LineError.Bad → switch_as key.now words.old ≡ None }
    ensures no_memory { result ≡ Err LineError.Memory → ⊥ }
{
    let switch = switch_named(key).ok_or(LineError::Bad)?;
    let on = next_switch(words)?;
    end(words)?;
    Ok(Setting::Switch(switch, on))
}

// The setting of this key, by which the file system serves.
#[tactic(auto, unfolding(crate::specs::SettingLine::serving_setting_as))]
fn next_serving_setting_as(
    alloc: Global,
    key: &[u8],
    words: &mut Parts<'_>,
) -> Result<Setting, LineError>
    ensures ok { IfOk result (λ setting. serving_setting_as key.now words.old ≡ Some setting) }
    ensures bad { result ≡ Err LineError.Bad → serving_setting_as key.now words.old ≡ None }
{
    if is_word(key, b"entry_timeout") {
        Ok(Setting::EntryTimeout(next_timeout(words)?))
    } else if is_word(key, b"attr_timeout") {
        Ok(Setting::AttrTimeout(next_timeout(words)?))
    } else if is_word(key, b"cache_policy") {
        Ok(Setting::CachePolicy(next_policy(words)?))
    } else if is_word(key, b"root_dir") {
        next_root_dir(alloc, words)
    } else {
        next_switch_as(key, words)
    }
}

// The setting of this key.
fn next_setting_as(alloc: Global, key: &[u8], words: &mut Parts<'_>) -> Result<Setting, LineError>
    ensures ok { IfOk result (λ setting. setting_as key.now words.old ≡ Some setting) }
    ensures bad { result ≡ Err LineError.Bad → setting_as key.now words.old ≡ None }
{
    if is_word(key, b"guest_fd_limit") {
        next_limit(words)
    } else if is_word(key, b"seat") {
        Ok(Setting::Seat(next_identity(words)?))
    } else if is_word(key, b"uidmap") {
        Ok(Setting::UidRule(next_id_rule(words)?))
    } else if is_word(key, b"gidmap") {
        Ok(Setting::GidRule(next_id_rule(words)?))
    } else if is_word(key, b"xattrrule") {
        Ok(Setting::NameRule(next_name_rule(alloc, words)?))
    } else {
        next_serving_setting_as(alloc, key, words)
    }
}

/// What a line sets, behind its first word.
pub fn next_setting(alloc: Global, words: &mut Parts<'_>) -> Result<Setting, LineError>
    ensures ok { IfOk result (λ setting. setting_in words.old ≡ Some setting) }
    ensures bad { result ≡ Err LineError.Bad → setting_in words.old ≡ None }
{
    let key = next_word(words)?;
    next_setting_as(alloc, key, words)
}
