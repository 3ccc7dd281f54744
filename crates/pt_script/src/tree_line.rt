ghost use Rattle.std.specs.Prelude.{◌≡◌, IfOk, Some, None};
ghost use Rattle.pt_script.specs.TreeLine.{mount_in, file_line, dir_line, link_in, spec_in, hard_in, xattr_in};
ghost use Rattle.pt_script.specs.TreeLine.{other_line_in, tree_line_in};

use crate::new_objects::{NewDir, NewFile, next_new_dir, next_new_file};
use pt_text::{Parts, is_word};
use pt_tree::TreeLine;
use pt_words::{LineError, end, next_bytes, next_number, next_small, next_switch};
use std::alloc::Global;

fn next_mount(alloc: Global, words: &mut Parts<'_>) -> Result<TreeLine, LineError>
    ensures ok { IfOk result (λ line. mount_in words.old ≡ Some line) }
    ensures bad { result ≡ Err LineError.Bad → mount_in words.old ≡ None }
{
    let id = next_number(words)?;
    let dev = next_number(words)?;
    let path = next_bytes(alloc, words)?;
    let handles = next_switch(words)?;
    end(words)?;
    Ok(TreeLine::Mount {
        id,
        dev,
        path,
        handles,
    })
}

fn file_line(file: NewFile) -> TreeLine
    ensures { result ≡ file_line file }
{
    TreeLine::File {
        path: file.path,
        mode: file.mode,
        uid: file.uid,
        gid: file.gid,
        bytes: file.bytes,
    }
}

fn dir_line(dir: NewDir) -> TreeLine
    ensures { result ≡ dir_line dir }
{
    TreeLine::Dir {
        path: dir.path,
        mode: dir.mode,
        uid: dir.uid,
        gid: dir.gid,
    }
}

fn next_link(alloc: Global, words: &mut Parts<'_>) -> Result<TreeLine, LineError>
    ensures ok { IfOk result (λ line. link_in words.old ≡ Some line) }
    ensures bad { result ≡ Err LineError.Bad → link_in words.old ≡ None }
{
    let path = next_bytes(alloc, words)?;
    let uid = next_small(words)?;
    let gid = next_small(words)?;
    let target = next_bytes(alloc, words)?;
    end(words)?;
    Ok(TreeLine::Link {
        path,
        uid,
        gid,
        target,
    })
}

fn next_spec(alloc: Global, words: &mut Parts<'_>) -> Result<TreeLine, LineError>
    ensures ok { IfOk result (λ line. spec_in words.old ≡ Some line) }
    ensures bad { result ≡ Err LineError.Bad → spec_in words.old ≡ None }
{
    let path = next_bytes(alloc, words)?;
    let mode = next_small(words)?;
    let uid = next_small(words)?;
    let gid = next_small(words)?;
    let rdev = next_small(words)?;
    end(words)?;
    Ok(TreeLine::Spec {
        path,
        mode,
        uid,
        gid,
        rdev,
    })
}

fn next_hard(alloc: Global, words: &mut Parts<'_>) -> Result<TreeLine, LineError>
    ensures ok { IfOk result (λ line. hard_in words.old ≡ Some line) }
    ensures bad { result ≡ Err LineError.Bad → hard_in words.old ≡ None }
{
    let path = next_bytes(alloc, words)?;
    let old = next_bytes(alloc, words)?;
    end(words)?;
    Ok(TreeLine::Hard { path, old })
}

fn next_xattr(alloc: Global, words: &mut Parts<'_>) -> Result<TreeLine, LineError>
    ensures ok { IfOk result (λ line. xattr_in words.old ≡ Some line) }
    ensures bad { result ≡ Err LineError.Bad → xattr_in words.old ≡ None }
{
    let path = next_bytes(alloc, words)?;
    let name = next_bytes(alloc, words)?;
    let value = next_bytes(alloc, words)?;
    end(words)?;
    Ok(TreeLine::Xattr { path, name, value })
}

// What is new without contents, or adds to what is there.
fn next_other_line(alloc: Global, word: &[u8], words: &mut Parts<'_>) -> Result<TreeLine, LineError>
    ensures ok { IfOk result (λ line. other_line_in word.now words.old ≡ Some line) }
    ensures bad { result ≡ Err LineError.Bad → other_line_in word.now words.old ≡ None }
{
    if is_word(word, b"link") {
        next_link(alloc, words)
    } else if is_word(word, b"spec") {
        next_spec(alloc, words)
    } else if is_word(word, b"hard") {
        next_hard(alloc, words)
    } else if is_word(word, b"xattr") {
        next_xattr(alloc, words)
    } else {
        Err(LineError::Bad)
    }
}

/// The line of a tree that begins with this word. Its paths are judged when the tree is made.
pub fn next_tree_line(
    alloc: Global,
    word: &[u8],
    words: &mut Parts<'_>,
) -> Result<TreeLine, LineError>
    ensures ok { IfOk result (λ line. tree_line_in word.now words.old ≡ Some line) }
    ensures bad { result ≡ Err LineError.Bad → tree_line_in word.now words.old ≡ None }
{
    if is_word(word, b"mount") {
        next_mount(alloc, words)
    } else if is_word(word, b"dir") {
        Ok(dir_line(next_new_dir(alloc, words)?))
    } else if is_word(word, b"file") {
        Ok(file_line(next_new_file(alloc, words)?))
    } else {
        next_other_line(alloc, word, words)
    }
}
