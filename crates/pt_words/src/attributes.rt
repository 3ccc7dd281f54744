ghost use Rattle.std.specs.Prelude.{◌≡◌, IfOk, Some, None};
ghost use Rattle.pt_words.specs.Attributes.{readlink_in, statfs_in, getattr_in, access_in, attributes_in, setattr_in};
ghost use Rattle.pt_words.specs.Parted.{owner_in, time_in};

use crate::fields::{LineError, end, next_number, next_optional_number, next_small};
use pt_iface::{Request, SetattrIn, SetattrValid};
use pt_text::Parts;

pub fn next_readlink(words: &mut Parts<'_>) -> Result<Request, LineError>
    ensures ok { IfOk result (λ request. readlink_in words.old ≡ Some request) }
    ensures bad { result ≡ Err LineError.Bad → readlink_in words.old ≡ None }
    ensures no_memory { result ≡ Err LineError.Memory → ⊥ }
{
    let inode = next_number(words)?;
    end(words)?;
    Ok(Request::Readlink { inode })
}

pub fn next_statfs(words: &mut Parts<'_>) -> Result<Request, LineError>
    ensures ok { IfOk result (λ request. statfs_in words.old ≡ Some request) }
    ensures bad { result ≡ Err LineError.Bad → statfs_in words.old ≡ None }
    ensures no_memory { result ≡ Err LineError.Memory → ⊥ }
{
    let inode = next_number(words)?;
    end(words)?;
    Ok(Request::StatFs { inode })
}

pub fn next_getattr(words: &mut Parts<'_>) -> Result<Request, LineError>
    ensures ok { IfOk result (λ request. getattr_in words.old ≡ Some request) }
    ensures bad { result ≡ Err LineError.Bad → getattr_in words.old ≡ None }
    ensures no_memory { result ≡ Err LineError.Memory → ⊥ }
{
    let inode = next_number(words)?;
    end(words)?;
    Ok(Request::GetAttr { inode })
}

pub fn next_access(words: &mut Parts<'_>) -> Result<Request, LineError>
    ensures ok { IfOk result (λ request. access_in words.old ≡ Some request) }
    ensures bad { result ≡ Err LineError.Bad → access_in words.old ≡ None }
    ensures no_memory { result ≡ Err LineError.Memory → ⊥ }
{
    let inode = next_number(words)?;
    let mask = next_small(words)?;
    end(words)?;
    Ok(Request::Access { inode, mask })
}

// The mode and the owner of an object.
fn next_owner(words: &mut Parts<'_>) -> Result<(u32, u32, u32), LineError>
    ensures ok { IfOk result (λ told. owner_in words.old ≡ Some (record { value = told; rest = words.new })) }
    ensures bad { result ≡ Err LineError.Bad → owner_in words.old ≡ None }
    ensures no_memory { result ≡ Err LineError.Memory → ⊥ }
{
    let mode = next_small(words)?;
    let uid = next_small(words)?;
    let gid = next_small(words)?;
    Ok((mode, uid, gid))
}

// Seconds and nanoseconds.
fn next_time(words: &mut Parts<'_>) -> Result<(u64, u32), LineError>
    ensures ok { IfOk result (λ told. time_in words.old ≡ Some (record { value = told; rest = words.new })) }
    ensures bad { result ≡ Err LineError.Bad → time_in words.old ≡ None }
    ensures no_memory { result ≡ Err LineError.Memory → ⊥ }
{
    let secs = next_number(words)?;
    let nanos = next_small(words)?;
    Ok((secs, nanos))
}

// The new attributes, of which not all need be valid.
fn next_attributes(words: &mut Parts<'_>) -> Result<SetattrIn, LineError>
    ensures ok { IfOk result (λ attr. attributes_in words.old
        ≡ Some (record { value = attr; rest = words.new })) }
    ensures bad { result ≡ Err LineError.Bad → attributes_in words.old ≡ None }
    ensures no_memory { result ≡ Err LineError.Memory → ⊥ }
{
    let (mode, uid, gid) = next_owner(words)?;
    let size = next_number(words)?;
    let (atime, atimensec) = next_time(words)?;
    let (mtime, mtimensec) = next_time(words)?;
    Ok(SetattrIn {
        mode,
        uid,
        gid,
        size,
        atime,
        atimensec,
        mtime,
        mtimensec,
    })
}

pub fn next_setattr(words: &mut Parts<'_>) -> Result<Request, LineError>
    ensures ok { IfOk result (λ request. setattr_in words.old ≡ Some request) }
    ensures bad { result ≡ Err LineError.Bad → setattr_in words.old ≡ None }
    ensures no_memory { result ≡ Err LineError.Memory → ⊥ }
{
    let inode = next_number(words)?;
    let handle = next_optional_number(words)?;
    let valid = SetattrValid(next_small(words)?);
    let attr = next_attributes(words)?;
    end(words)?;
    Ok(Request::SetAttr {
        inode,
        handle,
        valid,
        attr,
    })
}
