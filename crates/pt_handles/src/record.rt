ghost use Rattle.std.specs.Prelude.{◌≡◌, ◌+◌, ◌<◌, ◌≤◌, ◌^◌, ◌==◌, ℕ, List, IfNone, IfSome, length, take, drop};
ghost use Rattle.std.specs.Int.{from_le_bytes, w16, w64};
ghost use Rattle.std.specs.List.{list_all};
ghost use Rattle.pt_handles.specs.Record.{Dirent, record_size, BeginsWith, IsListing, BreaksAt};
ghost use Rattle.pt_handles.specs.Reading.{HasRecord};

use crate::padding::strip_padding;

/// The bytes of a record before its name.
pub(crate) const HEAD: usize = 19;

/// How long the record of a name is.
pub(crate) fn record_size(name: &[u8]) -> usize
    ensures { result ≡ record_size name.now }
{
    (name.len() + 20).next_multiple_of(8)
}

pub(crate) fn u64_at(bytes: &[u8], place: usize) -> u64
    requires { place + 8 ≤ length bytes.now }
    ensures { result ≡ from_le_bytes w64 (take 8 (drop place bytes.now)) }
{
    match bytes[place..].first_chunk::<8>() {
        Some(chunk) => u64::from_le_bytes(*chunk),
        None => unreachable!(),
    }
}

/// The length that the record tells.
fn size_told(bytes: &[u8]) -> usize
    requires { 18 ≤ length bytes.now }
    ensures told { result ≡ from_le_bytes w16 (take 2 (drop 16 bytes.now)) }
    ensures small { result < 2 ^ 16 }
{
    match bytes[16..].first_chunk::<2>() {
        Some(chunk) => usize::from(u16::from_le_bytes(*chunk)),
        None => unreachable!(),
    }
}

fn are_zeros(bytes: &[u8]) -> bool
    ensures { result ≡ list_all (λ byte. byte == 0) bytes.now }
{
    bytes.iter().all(|byte| *byte == 0)
}

/// How long the whole record at the front is, if one stands there.
fn whole_record(bytes: &[u8]) -> Option<usize>
    ensures some { IfSome result (λ size. HasRecord bytes.now size) }
    ensures within { IfSome result (λ size. size ≤ length bytes.now) }
    ensures none { IfNone result ((entry : Dirent) (rest : List ℕ) → BeginsWith bytes.now entry rest → ⊥) }
{
    if bytes.len() < HEAD {
        return None;
    }
    let Some(name) = strip_padding(&bytes[HEAD..]) else {
        return None;
    };
    let size = record_size(name);
    if size_told(bytes) != size {
        return None;
    }
    if bytes.len() < size {
        return None;
    }
    if are_zeros(&bytes[HEAD + name.len()..size]) {
        Some(size)
    } else {
        None
    }
}

/// Where the first piece begins that is no whole record.
pub(crate) fn first_broken(bytes: &[u8]) -> Option<usize>
    ensures none { IfNone result ((entries : List Dirent) × IsListing bytes.now entries) }
    ensures some { IfSome result (λ place. BreaksAt bytes.now place) }
{
    let mut place = 0;
    while place < bytes.len() {
        match whole_record(&bytes[place..]) {
            Some(size) => place += size,
            None => return Some(place),
        }
    }
    None
}
