ghost use Rattle.std.specs.Prelude.{
  ◌≡◌,
  ◌≤◌,
  ◌+◌,
  ◌++◌,
  ◌+ℤ◌,
  IfOk,
  OnOk,
  drop,
  length,
  nat_lt,
  pos,
  replicate,
};
ghost use Rattle.pt_node.specs.Opening.{first_refusal};
ghost use Rattle.pt_rules.specs.ContentCalls.{
  allocate_checks,
  as_offset,
  as_position,
  copy_checks,
  is_path_only,
  is_unreadable,
  is_unwritable,
  lengthens,
  overlap,
  resized,
  sought,
  truncate_checks,
  write_checks,
  written,
};
ghost use Rattle.pt_node.specs.Limits.{file_max};

use pt_host::{Bytes, Errno, OpenFlags};
use pt_node::node::{FILE_MAX, Node};
use pt_node::opening::{wants_read, wants_write};
use pt_node::slots::OpenFile;
use std::alloc::{AllocError, Global};

pub fn is_path_only(file: OpenFile) -> bool
    ensures { result ≡ is_path_only file }
{
    file.flags.includes(OpenFlags::O_PATH)
}

fn is_unreadable(file: OpenFile) -> bool
    ensures { result ≡ is_unreadable file }
{
    is_path_only(file) || !wants_read(file.flags)
}

fn is_unwritable(file: OpenFile) -> bool
    ensures { result ≡ is_unwritable file }
{
    is_path_only(file) || !wants_write(file.flags)
}

/// Whether so many bytes from an offset on end past what a file may hold.
fn is_too_far(offset: u64, size: u64) -> bool
    ensures { result ≡ nat_lt file_max (offset + size) }
{
    match offset.checked_add(size) {
        None => true,
        Some(end) => end > FILE_MAX as u64,
    }
}

/// So many zeros more.
pub fn push_zeros(out: &mut Vec<u8>, count: usize) -> Result<(), AllocError>
    ensures { OnOk result (out.new.items ≡ out.old.items ++ replicate count 0) }
{
    for _zero in 0..count {
        out.push(0)?;
    }
    Ok(())
}

/// The bytes cut to the size, or lengthened with zeros.
fn cut_or_padded(alloc: Global, size: usize, old: &[u8]) -> Result<Vec<u8>, AllocError>
    ensures { IfOk result (λ after. after.items ≡ resized size old.now) }
{
    let kept = old.len().min(size);
    let mut after = old[..kept].to_vec(alloc)?;
    push_zeros(&mut after, size - kept)?;
    Ok(after)
}

/// What stands from an offset on.
fn rest_of(offset: usize, bytes: &[u8]) -> &[u8]
    ensures { result.now ≡ drop offset bytes.now }
{
    let start = bytes.len().min(offset);
    &bytes[start..]
}

/// The bytes with others in their place from an offset on; zeros fill a gap before them.
pub fn written(alloc: Global, offset: usize, bytes: &[u8], old: &[u8]) -> Result<Bytes, AllocError>
    requires { offset + length bytes.now ≤ file_max }
    ensures { IfOk result (λ after. after ≡ written offset bytes.now old.now) }
{
    let mut after = cut_or_padded(alloc, offset, old)?;
    after.extend_from_slice(bytes)?;
    after.extend_from_slice(rest_of(offset + bytes.len(), old))?;
    Ok(Bytes::from_vec(after))
}

pub fn resized(alloc: Global, size: usize, old: &[u8]) -> Result<Bytes, AllocError>
    ensures { IfOk result (λ after. after ≡ resized size old.now) }
{
    let after = cut_or_padded(alloc, size, old)?;
    Ok(Bytes::from_vec(after))
}

pub fn write_refusal(file: OpenFile, start: u64, size: u64) -> Option<Errno>
    ensures { result ≡ first_refusal (write_checks file start size) }
{
    if is_unwritable(file) {
        Some(Errno::EBADF)
    } else if is_too_far(start, size) {
        Some(Errno::EFBIG)
    } else {
        None
    }
}

pub fn truncate_refusal(file: OpenFile, size: u64) -> Option<Errno>
    ensures { result ≡ first_refusal (truncate_checks file size) }
{
    if is_path_only(file) {
        Some(Errno::EBADF)
    } else if !wants_write(file.flags) {
        Some(Errno::EINVAL)
    } else if size > FILE_MAX as u64 {
        Some(Errno::EFBIG)
    } else {
        None
    }
}

pub fn allocate_refusal(file: OpenFile, mode: u32, offset: u64, size: u64) -> Option<Errno>
    ensures { result ≡ first_refusal (allocate_checks file mode offset size) }
{
    if is_unwritable(file) {
        Some(Errno::EBADF)
    } else if is_too_far(offset, size) {
        Some(Errno::EFBIG)
    } else if size == 0 {
        Some(Errno::EINVAL)
    } else if mode > 1 {
        Some(Errno::EOPNOTSUPP)
    } else {
        None
    }
}

/// Whether a file of this size is lengthened up to an end; other modes keep the size.
pub fn lengthens(mode: u32, size: u64, end: u64) -> bool
    ensures { result ≡ lengthens mode size end }
{
    mode == 0 && size < end
}

/// A place from a base on, where it is a position.
fn position_from(base: u64, offset: i64) -> Result<u64, Errno>
    ensures { result ≡ as_position (pos base +ℤ offset) }
{
    let distance = offset.unsigned_abs();
    let place = if offset < 0 {
        base.checked_sub(distance).ok_or(Errno::EINVAL)?
    } else {
        base.saturating_add(distance)
    };
    if place > i64::MAX as u64 {
        return Err(Errno::EOVERFLOW);
    }
    Ok(place)
}

/// An offset that lies in the file.
fn offset_in(size: u64, offset: i64) -> Option<u64>
    ensures { result ≡ as_offset size offset }
{
    match u64::try_from(offset) {
        Ok(offset) if offset < size => Some(offset),
        _ => None,
    }
}

pub fn sought(position: u64, size: u64, offset: i64, whence: u32) -> Result<u64, Errno>
    ensures { result ≡ sought position size offset whence }
{
    match whence {
        0 => position_from(0, offset),
        1 => position_from(position, offset),
        2 => position_from(size, offset),
        3 => offset_in(size, offset).ok_or(Errno::ENXIO),
        4 => match offset_in(size, offset) {
            None => Err(Errno::ENXIO),
            Some(_) => Ok(size),
        },
        _ => Err(Errno::EINVAL),
    }
}

pub fn copy_refusal(
    file: OpenFile,
    node: &Node,
    file2: OpenFile,
    offset: u64,
    offset2: u64,
    size: u64,
    flags: u64,
) -> Option<Errno>
    ensures { result ≡ first_refusal (copy_checks file node.now file2 offset offset2 size flags) }
{
    if flags > 0 {
        Some(Errno::EINVAL)
    } else if is_unreadable(file) || is_unwritable(file2) {
        Some(Errno::EBADF)
    } else if node.is_directory() {
        Some(Errno::EISDIR)
    } else if file.object == file2.object && overlap(offset, offset2, size) {
        Some(Errno::EINVAL)
    } else if size > 0 && is_too_far(offset2, size) {
        Some(Errno::EFBIG)
    } else {
        None
    }
}

/// Whether an offset lies before the end of a range.
fn is_before_end(offset: u64, start: u64, size: u64) -> bool
    ensures { result ≡ nat_lt offset (start + size) }
{
    match start.checked_add(size) {
        None => true,
        Some(end) => offset < end,
    }
}

/// Whether ranges of this size have a place in common.
fn overlap(offset: u64, offset2: u64, size: u64) -> bool
    ensures { result ≡ overlap offset offset2 size }
{
    is_before_end(offset, offset2, size) && is_before_end(offset2, offset, size)
}
