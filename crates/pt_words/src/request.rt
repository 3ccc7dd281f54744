ghost use Rattle.std.specs.Prelude.{◌≡◌, IfOk, Some, None};
ghost use Rattle.pt_words.specs.Fields.{at_end};
ghost use Rattle.pt_words.specs.Request.{
  other_in,
  attribute_request_in,
  xattr_request_in,
  naming_request_in,
  making_request_in,
  contents_request_in,
  handle_request_in,
  number_request_in,
  request_in,
};

use crate::attributes::{next_access, next_getattr, next_readlink, next_setattr, next_statfs};
use crate::contents::{
    next_copyfilerange, next_fallocate, next_flush, next_fsync, next_fsyncdir, next_lseek,
    next_syncfs, next_write,
};
use crate::fields::{LineError, end, next_small, next_word};
use crate::handles::{next_open, next_opendir, next_read, next_release, next_releasedir};
use crate::making::{next_create, next_mkdir, next_mknod, next_symlink};
use crate::naming::{next_link, next_rename, next_rmdir, next_unlink};
use crate::numbers::{next_batch_forget, next_forget, next_init, next_lookup};
use crate::xattrs::{next_getxattr, next_listxattr, next_readdir, next_removexattr, next_setxattr};
use pt_iface::Request;
use pt_text::{Parts, is_word};
use std::alloc::Global;

fn next_destroy(words: &mut Parts<'_>) -> Result<Request, LineError>
    ensures ok { IfOk result (λ request. at_end words.old Request.Destroy ≡ Some request) }
    ensures bad { result ≡ Err LineError.Bad → at_end words.old Request.Destroy ≡ None }
    ensures no_memory { result ≡ Err LineError.Memory → ⊥ }
{
    end(words)?;
    Ok(Request::Destroy)
}

fn next_root(words: &mut Parts<'_>) -> Result<Request, LineError>
    ensures ok { IfOk result (λ request. at_end words.old Request.Root ≡ Some request) }
    ensures bad { result ≡ Err LineError.Bad → at_end words.old Request.Root ≡ None }
    ensures no_memory { result ≡ Err LineError.Memory → ⊥ }
{
    end(words)?;
    Ok(Request::Root)
}

fn next_other(words: &mut Parts<'_>) -> Result<Request, LineError>
    ensures ok { IfOk result (λ request. other_in words.old ≡ Some request) }
    ensures bad { result ≡ Err LineError.Bad → other_in words.old ≡ None }
    ensures no_memory { result ≡ Err LineError.Memory → ⊥ }
{
    let opcode = next_small(words)?;
    end(words)?;
    Ok(Request::Other { opcode })
}

// None of the seven functions below is inlined into the next: a request is made where the reader of a line wants it,
// and is not moved from one to another.

// A request for what an object tells, or for a change of that.
#[tactic(auto, unfolding(crate::specs::Request::attribute_request_in))]
#[inline(never)]
fn next_attribute_request(word: &[u8], words: &mut Parts<'_>) -> Result<Request, LineError>
    ensures ok { IfOk result (λ request. attribute_request_in word.now words.old ≡ Some request) }
    ensures bad { result ≡ Err LineError.Bad → attribute_request_in word.now words.old ≡ None }
    ensures no_memory { result ≡ Err LineError.Memory → ⊥ }
{
    if is_word(word, b"readlink") {
        next_readlink(words)
    } else if is_word(word, b"statfs") {
        next_statfs(words)
    } else if is_word(word, b"getattr") {
        next_getattr(words)
    } else if is_word(word, b"setattr") {
        next_setattr(words)
    } else if is_word(word, b"access") {
        next_access(words)
    } else {
        Err(LineError::Bad)
    }
}

// A request for extended attributes, or for what a directory holds, or one of the above.
#[tactic(auto, unfolding(crate::specs::Request::xattr_request_in))]
#[inline(never)]
fn next_xattr_request(
    alloc: Global,
    word: &[u8],
    words: &mut Parts<'_>,
) -> Result<Request, LineError>
    ensures ok { IfOk result (λ request. xattr_request_in word.now words.old ≡ Some request) }
    ensures bad { result ≡ Err LineError.Bad → xattr_request_in word.now words.old ≡ None }
{
    if is_word(word, b"readdir") {
        next_readdir(words)
    } else if is_word(word, b"setxattr") {
        next_setxattr(alloc, words)
    } else if is_word(word, b"getxattr") {
        next_getxattr(alloc, words)
    } else if is_word(word, b"listxattr") {
        next_listxattr(words)
    } else if is_word(word, b"removexattr") {
        next_removexattr(alloc, words)
    } else {
        next_attribute_request(word, words)
    }
}

// A request that gives a name or takes one away, or one of the above.
#[tactic(auto, unfolding(crate::specs::Request::naming_request_in))]
#[inline(never)]
fn next_naming_request(
    alloc: Global,
    word: &[u8],
    words: &mut Parts<'_>,
) -> Result<Request, LineError>
    ensures ok { IfOk result (λ request. naming_request_in word.now words.old ≡ Some request) }
    ensures bad { result ≡ Err LineError.Bad → naming_request_in word.now words.old ≡ None }
{
    if is_word(word, b"link") {
        next_link(alloc, words)
    } else if is_word(word, b"unlink") {
        next_unlink(alloc, words)
    } else if is_word(word, b"rmdir") {
        next_rmdir(alloc, words)
    } else if is_word(word, b"rename") {
        next_rename(alloc, words)
    } else {
        next_xattr_request(alloc, word, words)
    }
}

// A request that makes an object, or one of the above.
#[tactic(auto, unfolding(crate::specs::Request::making_request_in))]
#[inline(never)]
fn next_making_request(
    alloc: Global,
    word: &[u8],
    words: &mut Parts<'_>,
) -> Result<Request, LineError>
    ensures ok { IfOk result (λ request. making_request_in word.now words.old ≡ Some request) }
    ensures bad { result ≡ Err LineError.Bad → making_request_in word.now words.old ≡ None }
{
    if is_word(word, b"create") {
        next_create(alloc, words)
    } else if is_word(word, b"mkdir") {
        next_mkdir(alloc, words)
    } else if is_word(word, b"mknod") {
        next_mknod(alloc, words)
    } else if is_word(word, b"symlink") {
        next_symlink(alloc, words)
    } else {
        next_naming_request(alloc, word, words)
    }
}

// A request for what files hold, or one of the above.
#[tactic(auto, unfolding(crate::specs::Request::contents_request_in))]
#[inline(never)]
fn next_contents_request(
    alloc: Global,
    word: &[u8],
    words: &mut Parts<'_>,
) -> Result<Request, LineError>
    ensures ok { IfOk result (λ request. contents_request_in word.now words.old ≡ Some request) }
    ensures bad { result ≡ Err LineError.Bad → contents_request_in word.now words.old ≡ None }
{
    if is_word(word, b"write") {
        next_write(alloc, words)
    } else if is_word(word, b"fallocate") {
        next_fallocate(words)
    } else if is_word(word, b"lseek") {
        next_lseek(words)
    } else if is_word(word, b"copyfilerange") {
        next_copyfilerange(words)
    } else if is_word(word, b"flush") {
        next_flush(words)
    } else if is_word(word, b"fsync") {
        next_fsync(words)
    } else if is_word(word, b"fsyncdir") {
        next_fsyncdir(words)
    } else if is_word(word, b"syncfs") {
        next_syncfs(words)
    } else {
        next_making_request(alloc, word, words)
    }
}

// A request that begins or ends a handle, or reads by one, or one of the above.
#[tactic(auto, unfolding(crate::specs::Request::handle_request_in))]
#[inline(never)]
fn next_handle_request(
    alloc: Global,
    word: &[u8],
    words: &mut Parts<'_>,
) -> Result<Request, LineError>
    ensures ok { IfOk result (λ request. handle_request_in word.now words.old ≡ Some request) }
    ensures bad { result ≡ Err LineError.Bad → handle_request_in word.now words.old ≡ None }
{
    if is_word(word, b"open") {
        next_open(words)
    } else if is_word(word, b"opendir") {
        next_opendir(words)
    } else if is_word(word, b"read") {
        next_read(words)
    } else if is_word(word, b"release") {
        next_release(words)
    } else if is_word(word, b"releasedir") {
        next_releasedir(words)
    } else {
        next_contents_request(alloc, word, words)
    }
}

// A request of a number's life, or one of the above.
#[tactic(auto, unfolding(crate::specs::Request::number_request_in))]
#[inline(never)]
fn next_number_request(
    alloc: Global,
    word: &[u8],
    words: &mut Parts<'_>,
) -> Result<Request, LineError>
    ensures ok { IfOk result (λ request. number_request_in word.now words.old ≡ Some request) }
    ensures bad { result ≡ Err LineError.Bad → number_request_in word.now words.old ≡ None }
{
    if is_word(word, b"lookup") {
        next_lookup(alloc, words)
    } else if is_word(word, b"forget") {
        next_forget(words)
    } else if is_word(word, b"batch_forget") {
        next_batch_forget(alloc, words)
    } else {
        next_handle_request(alloc, word, words)
    }
}

/// A request and its fields.
pub fn next_request(alloc: Global, words: &mut Parts<'_>) -> Result<Request, LineError>
    ensures ok { IfOk result (λ request. request_in words.old ≡ Some request) }
    ensures bad { result ≡ Err LineError.Bad → request_in words.old ≡ None }
{
    let word = next_word(words)?;
    if is_word(word, b"init") {
        next_init(words)
    } else if is_word(word, b"destroy") {
        next_destroy(words)
    } else if is_word(word, b"root") {
        next_root(words)
    } else if is_word(word, b"other") {
        next_other(words)
    } else {
        next_number_request(alloc, word, words)
    }
}
