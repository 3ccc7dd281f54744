//! The words by which policies and modes are set.

use pt_req::{CachePolicy, InodeFileHandlesMode};
use std::alloc::{AllocError, Global};

pub fn answer(alloc: Global, words: &[&str]) -> Result<String, AllocError> {
    match words {
        ["policy", word] => match word.parse::<CachePolicy>() {
            Ok(policy) => format!(in alloc; "{policy:?}"),
            Err(why) => String::from_str(alloc, why),
        },
        ["handles", word] => match word.parse::<InodeFileHandlesMode>() {
            Ok(mode) => format!(in alloc; "{mode:?}"),
            Err(why) => String::from_str(alloc, why),
        },
        ["default"] => {
            let policy = CachePolicy::default();
            let mode = InodeFileHandlesMode::default();
            format!(in alloc; "{policy:?} {mode:?}")
        }
        _ => String::from_str(alloc, "no call"),
    }
}
