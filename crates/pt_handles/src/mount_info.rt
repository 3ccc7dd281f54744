//! The list of mounts, as `/proc/self/mountinfo` has it.

ghost use Rattle.std.specs.Prelude.{◌≡◌, ◌<◌, ◌≤◌, ◌^◌, ◌==◌, List, ℕ, Some, length, position};
ghost use Rattle.std.specs.Prelude.{option_copied, MatchOption};
ghost use Rattle.pt_handles.specs.MountInfo.{white_size, first_column, IsId, TellsPoint, TellsFirst, lines_of};
ghost use Rattle.pt_handles.specs.MountInfo.{IsSeenFrom, IsMountRoot};
ghost use Rattle.pt_handles.specs.Columns.{cut_of};

use std::str;

/// A column of a line, and those behind it, if there are any.
#[derive(Clone, Copy)]
struct Columns<'a> {
    first: &'a [u8],
    rest: Option<&'a [u8]>,
}

/// How many bytes a white space character takes at the front; 0 where none stands there.
fn white_size(text: &[u8]) -> usize
    ensures size { result ≡ white_size text.now }
    ensures within { result ≤ length text.now }
{
    let (character, size) = bstr::decode_utf8(text);
    match character {
        Some(character) if character.is_whitespace() => size,
        _ => 0,
    }
}

fn first_column(line: &[u8]) -> Columns<'_>
    ensures { cut_of result ≡ first_column line.now }
{
    let mut place = 0;
    while place < line.len() {
        let size = white_size(&line[place..]);
        if size > 0 {
            return Columns {
                first: &line[..place],
                rest: Some(&line[place + size..]),
            };
        }
        place += 1;
    }
    Columns {
        first: line,
        rest: None,
    }
}

/// The number that a column is, as numbers are read from a text.
fn id_in(column: &[u8]) -> Option<u64>
    ensures { MatchOption result ((id : ℕ) → IsId column.now id → id < 2 ^ 64 → ⊥) (λ id. IsId column.now id) }
{
    match str::from_utf8(column) {
        Ok(text) => text.parse::<u64>().ok(),
        Err(_) => None,
    }
}

/// The mount point, if it is this mount's line.
fn point_in(line: &[u8], mount_id: u64) -> Option<&[u8]>
    ensures { MatchOption result ((point : List ℕ) → TellsPoint mount_id line.now point → ⊥)
        (λ point. TellsPoint mount_id line.now point.now) }
{
    let columns = first_column(line);
    if id_in(columns.first) != Some(mount_id) {
        return None;
    }
    let columns = first_column(columns.rest?);
    let columns = first_column(columns.rest?);
    let columns = first_column(columns.rest?);
    let columns = first_column(columns.rest?);
    Some(columns.first)
}

fn line_end(text: &[u8]) -> Option<usize>
    ensures place { result ≡ position (λ byte. byte == 10) text.now }
    ensures fits { length text.now < 2 ^ 64 }
{
    text.iter().position(|byte| *byte == b'\n')
}

/// The mount point that the first line tells which tells one of this mount.
fn point_of(text: &[u8], mount_id: u64) -> Option<&[u8]>
    ensures { TellsFirst mount_id (lines_of text.now) (option_copied result) }
{
    let mut left = text;
    while let Some(end) = line_end(left) {
        if let Some(point) = point_in(&left[..end], mount_id) {
            return Some(point);
        }
        left = &left[end + 1..];
    }
    point_in(left, mount_id)
}

/// A path as it is seen from below a prefix.
fn seen_from<'a>(path: &'a [u8], prefix: &[u8]) -> &'a [u8]
    ensures { IsSeenFrom (Some prefix.now) path.now result.now }
{
    match path.strip_prefix(prefix) {
        Some(rest) if !rest.is_empty() => rest,
        _ => b"/",
    }
}

/// Where a mount is by the text of `/proc/self/mountinfo`, seen from below the prefix, if one is given. None where no
/// line tells it.
pub fn mount_root_in<'a>(text: &'a [u8], mount_id: u64, prefix: Option<&[u8]>) -> Option<&'a [u8]>
    ensures { IsMountRoot text.now mount_id (option_copied prefix.entry) (option_copied result) }
{
    let point = point_of(text, mount_id)?;
    match prefix {
        Some(prefix) => Some(seen_from(point, prefix)),
        None => Some(point),
    }
}
