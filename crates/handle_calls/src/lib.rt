//! The calls of `pt_handles` that a line of a case names: each is read, made and answered.
#![tactic(auto)]

mod errors;
mod files;
mod made;
mod mounts;
mod paths;
mod readers;
mod serials;

use handle_values::Trouble;
pub use made::Made;
pub use mounts::make_mounts;
use pt_show::Words;

/// Makes the call of this name and puts what it is answered behind others, if it is one of these.
pub fn answer(
    made: &mut Made,
    name: &[u8],
    words: &mut Words<'_>,
    out: &mut Vec<u8>,
) -> Result<bool, Trouble> {
    Ok(
        files::take(made, name, words, out)?
            || serials::take(made, name, words, out)?
            || mounts::take(made, name, words, out)?
            || errors::take(name, words, out)?
            || paths::take(made, name, words, out)?
            || readers::take(made, name, words, out)?,
    )
}
