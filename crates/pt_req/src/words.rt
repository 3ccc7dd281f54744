ghost use Rattle.std.specs.Prelude.{◌≡◌, IsErr, IfErr, Ok, MatchOption, codes};
ghost use Rattle.pt_req.specs.Named.{policy_named, mode_named};

use crate::plan::CachePolicy;
use std::str::FromStr;

impl CachePolicy {
    /// The policy that a word names, without regard to ASCII case.
    pub fn named(word: &[u8]) -> Option<CachePolicy>
        ensures { result ≡ policy_named word.now }
    {
        if word.eq_ignore_ascii_case(b"never") {
            Some(CachePolicy::Never)
        } else if word.eq_ignore_ascii_case(b"metadata") {
            Some(CachePolicy::Metadata)
        } else if word.eq_ignore_ascii_case(b"auto") {
            Some(CachePolicy::Auto)
        } else if word.eq_ignore_ascii_case(b"always") {
            Some(CachePolicy::Always)
        } else {
            None
        }
    }
}

impl Default for CachePolicy {
    ghost use Rattle.pt_req.specs.declared.plan.CachePolicy.TheVariants.{Auto};

    ghost is_default = { λ policy. policy ≡ Auto };

    fn default() -> CachePolicy {
        CachePolicy::Auto
    }
}

/// Reads one of the four words, without regard to ASCII case.
impl FromStr for CachePolicy {
    type Err = &'static str;

    ghost from_str_gives = { λ word read. MatchOption (policy_named word)
        (IsErr read × IfErr read (λ why. why.now ≡ codes "invalid cache policy")) (λ policy. read ≡ Ok policy) };

    fn from_str(word: &str) -> Result<CachePolicy, &'static str> {
        match CachePolicy::named(word.as_bytes()) {
            Some(policy) => Ok(policy),
            None => Err("invalid cache policy"),
        }
    }
}

/// Whether objects of the host are kept by file handles, by virtiofsd's names.
#[derive(Clone, Copy, Debug)]
pub enum InodeFileHandlesMode {
    /// By descriptors alone.
    Never,
    /// By handles, where the host has them.
    Prefer,
    /// By handles alone.
    Mandatory,
}

impl Default for InodeFileHandlesMode {
    ghost use Rattle.pt_req.specs.declared.words.InodeFileHandlesMode.TheVariants.{Never};

    ghost is_default = { λ mode. mode ≡ Never };

    fn default() -> InodeFileHandlesMode {
        InodeFileHandlesMode::Never
    }
}

/// Reads one of the three words, in lower case.
impl FromStr for InodeFileHandlesMode {
    type Err = &'static str;

    ghost from_str_gives = { λ word read. MatchOption (mode_named word)
        (IsErr read × IfErr read (λ why. why.now ≡ codes "invalid inode file handles mode"))
        (λ mode. read ≡ Ok mode) };

    fn from_str(word: &str) -> Result<InodeFileHandlesMode, &'static str> {
        match word {
            "never" => Ok(InodeFileHandlesMode::Never),
            "prefer" => Ok(InodeFileHandlesMode::Prefer),
            "mandatory" => Ok(InodeFileHandlesMode::Mandatory),
            _ => Err("invalid inode file handles mode"),
        }
    }
}
