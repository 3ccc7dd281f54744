ghost use Rattle.std.specs.Prelude.{◌≡◌, IfOk, Some, None};
ghost use Rattle.pt_words.specs.Fields.{optional_in};
ghost use Rattle.pt_words.specs.Making.{label_in, extensions_in, brought_in, create_in, mkdir_in, mknod_in, symlink_in};

use crate::fields::{
    LineError, end, next_bytes, next_number, next_optional_small, next_sign, next_small,
    next_switch,
};
use pt_iface::{Extensions, Request, SecContext};
use pt_text::Parts;
use std::alloc::Global;

// A security context: an extended attribute and its value.
fn next_label(alloc: Global, words: &mut Parts<'_>) -> Result<SecContext, LineError>
    ensures ok { IfOk result (λ label. label_in words.old ≡ Some (record { value = label; rest = words.new })) }
    ensures bad { result ≡ Err LineError.Bad → label_in words.old ≡ None }
{
    let name = next_bytes(alloc, words)?;
    let value = next_bytes(alloc, words)?;
    Ok(SecContext { name, value })
}

// One behind `+`, or none for `-`.
fn next_optional_label(
    alloc: Global,
    words: &mut Parts<'_>,
) -> Result<Option<SecContext>, LineError>
    ensures ok { IfOk result (λ label. optional_in label_in words.old
        ≡ Some (record { value = label; rest = words.new })) }
    ensures bad { result ≡ Err LineError.Bad → optional_in label_in words.old ≡ None }
{
    if next_sign(words)? {
        Ok(Some(next_label(alloc, words)?))
    } else {
        Ok(None)
    }
}

// What a request that makes an object brings beside.
fn next_extensions(alloc: Global, words: &mut Parts<'_>) -> Result<Extensions, LineError>
    ensures ok { IfOk result (λ ext. extensions_in words.old
        ≡ Some (record { value = ext; rest = words.new })) }
    ensures bad { result ≡ Err LineError.Bad → extensions_in words.old ≡ None }
{
    let secctx = next_optional_label(alloc, words)?;
    let sup_gid = next_optional_small(words)?;
    Ok(Extensions { secctx, sup_gid })
}

// The mask of the process and what it brings beside, and no more.
fn next_brought(alloc: Global, words: &mut Parts<'_>) -> Result<(u32, Extensions), LineError>
    ensures ok { IfOk result (λ told. brought_in words.old ≡ Some told) }
    ensures bad { result ≡ Err LineError.Bad → brought_in words.old ≡ None }
{
    let umask = next_small(words)?;
    let ext = next_extensions(alloc, words)?;
    end(words)?;
    Ok((umask, ext))
}

pub fn next_create(alloc: Global, words: &mut Parts<'_>) -> Result<Request, LineError>
    ensures ok { IfOk result (λ request. create_in words.old ≡ Some request) }
    ensures bad { result ≡ Err LineError.Bad → create_in words.old ≡ None }
{
    let parent = next_number(words)?;
    let name = next_bytes(alloc, words)?;
    let mode = next_small(words)?;
    let kill = next_switch(words)?;
    let flags = next_small(words)?;
    let (umask, ext) = next_brought(alloc, words)?;
    Ok(Request::Create {
        parent,
        name,
        mode,
        kill,
        flags,
        umask,
        ext,
    })
}

pub fn next_mkdir(alloc: Global, words: &mut Parts<'_>) -> Result<Request, LineError>
    ensures ok { IfOk result (λ request. mkdir_in words.old ≡ Some request) }
    ensures bad { result ≡ Err LineError.Bad → mkdir_in words.old ≡ None }
{
    let parent = next_number(words)?;
    let name = next_bytes(alloc, words)?;
    let mode = next_small(words)?;
    let (umask, ext) = next_brought(alloc, words)?;
    Ok(Request::Mkdir {
        parent,
        name,
        mode,
        umask,
        ext,
    })
}

pub fn next_mknod(alloc: Global, words: &mut Parts<'_>) -> Result<Request, LineError>
    ensures ok { IfOk result (λ request. mknod_in words.old ≡ Some request) }
    ensures bad { result ≡ Err LineError.Bad → mknod_in words.old ≡ None }
{
    let parent = next_number(words)?;
    let name = next_bytes(alloc, words)?;
    let mode = next_small(words)?;
    let rdev = next_small(words)?;
    let (umask, ext) = next_brought(alloc, words)?;
    Ok(Request::Mknod {
        parent,
        name,
        mode,
        rdev,
        umask,
        ext,
    })
}

pub fn next_symlink(alloc: Global, words: &mut Parts<'_>) -> Result<Request, LineError>
    ensures ok { IfOk result (λ request. symlink_in words.old ≡ Some request) }
    ensures bad { result ≡ Err LineError.Bad → symlink_in words.old ≡ None }
{
    let target = next_bytes(alloc, words)?;
    let parent = next_number(words)?;
    let name = next_bytes(alloc, words)?;
    let ext = next_extensions(alloc, words)?;
    end(words)?;
    Ok(Request::Symlink {
        target,
        parent,
        name,
        ext,
    })
}
