//! The bits of flags by their names, and which sets hold others.

use bitflags::Flags;
use pt_host::{Caps, OpenFlags};
use pt_iface::{Attr, FsOptions, OpenOptions, SetattrValid, SetxattrFlags};
use std::alloc::{AllocError, Global};

fn bits_of(kind: &str, name: &str) -> Option<u32> {
    match (kind, name) {
        ("open", "PATH") => Some(OpenFlags::PATH.0),
        ("caps", "ALL") => Some(Caps::ALL.0),
        ("attr", "SUBMOUNT") => Some(Attr::SUBMOUNT),
        ("open", _) => OpenFlags::from_name(name).map(|flags| flags.0),
        ("caps", _) => Caps::from_name(name).map(|caps| caps.0),
        ("options", _) => FsOptions::from_name(name).map(|options| options.0),
        ("opened", _) => OpenOptions::from_name(name).map(|options| options.0),
        ("setattr", _) => SetattrValid::from_name(name).map(|valid| valid.0),
        ("setxattr", _) => SetxattrFlags::from_name(name).map(|flags| flags.0),
        _ => None,
    }
}

/// Whether the first set holds all of the second.
fn includes(kind: &str, set: u32, other: u32) -> Option<bool> {
    match kind {
        "open" => Some(OpenFlags(set).includes(OpenFlags(other))),
        "caps" => Some(Caps(set).includes(Caps(other))),
        "options" => Some(FsOptions(set).includes(FsOptions(other))),
        "opened" => Some(OpenOptions(set).includes(OpenOptions(other))),
        "setattr" => Some(SetattrValid(set).includes(SetattrValid(other))),
        "setxattr" => Some(SetxattrFlags(set).includes(SetxattrFlags(other))),
        _ => None,
    }
}

pub fn answer(alloc: Global, words: &[&str]) -> Result<String, AllocError> {
    match words {
        [kind, name] => format!(in alloc; "{:?}", bits_of(kind, name)),
        [kind, set, "includes", other] => match (set.parse::<u32>(), other.parse::<u32>()) {
            (Ok(set), Ok(other)) => format!(in alloc; "{:?}", includes(kind, set, other)),
            _ => String::from_str(alloc, "no number"),
        },
        _ => String::from_str(alloc, "no call"),
    }
}
