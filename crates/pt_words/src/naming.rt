ghost use Rattle.std.specs.Prelude.{◌≡◌, IfOk, Some, None};
ghost use Rattle.pt_words.specs.Naming.{link_in, name_in, unlink_in, rmdir_in, rename_in};

use crate::fields::{LineError, end, next_bytes, next_number, next_small};
use pt_host::Bytes;
use pt_iface::Request;
use pt_text::Parts;
use std::alloc::Global;

pub fn next_link(alloc: Global, words: &mut Parts<'_>) -> Result<Request, LineError>
    ensures ok { IfOk result (λ request. link_in words.old ≡ Some request) }
    ensures bad { result ≡ Err LineError.Bad → link_in words.old ≡ None }
{
    let inode = next_number(words)?;
    let newparent = next_number(words)?;
    let newname = next_bytes(alloc, words)?;
    end(words)?;
    Ok(Request::Link {
        inode,
        newparent,
        newname,
    })
}

/// A parent and a name in it, and no more.
pub fn next_name(alloc: Global, words: &mut Parts<'_>) -> Result<(u64, Bytes), LineError>
    ensures ok { IfOk result (λ told. name_in words.old ≡ Some told) }
    ensures bad { result ≡ Err LineError.Bad → name_in words.old ≡ None }
{
    let parent = next_number(words)?;
    let name = next_bytes(alloc, words)?;
    end(words)?;
    Ok((parent, name))
}

pub fn next_unlink(alloc: Global, words: &mut Parts<'_>) -> Result<Request, LineError>
    ensures ok { IfOk result (λ request. unlink_in words.old ≡ Some request) }
    ensures bad { result ≡ Err LineError.Bad → unlink_in words.old ≡ None }
{
    let (parent, name) = next_name(alloc, words)?;
    Ok(Request::Unlink { parent, name })
}

pub fn next_rmdir(alloc: Global, words: &mut Parts<'_>) -> Result<Request, LineError>
    ensures ok { IfOk result (λ request. rmdir_in words.old ≡ Some request) }
    ensures bad { result ≡ Err LineError.Bad → rmdir_in words.old ≡ None }
{
    let (parent, name) = next_name(alloc, words)?;
    Ok(Request::Rmdir { parent, name })
}

pub fn next_rename(alloc: Global, words: &mut Parts<'_>) -> Result<Request, LineError>
    ensures ok { IfOk result (λ request. rename_in words.old ≡ Some request) }
    ensures bad { result ≡ Err LineError.Bad → rename_in words.old ≡ None }
{
    let olddir = next_number(words)?;
    let oldname = next_bytes(alloc, words)?;
    let newdir = next_number(words)?;
    let newname = next_bytes(alloc, words)?;
    let flags = next_small(words)?;
    end(words)?;
    Ok(Request::Rename {
        olddir,
        oldname,
        newdir,
        newname,
        flags,
    })
}
