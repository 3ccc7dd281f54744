ghost use Rattle.std.specs.Prelude.{◌≡◌, ◌<◌, ◌≤◌, ◌^◌, ◌≤ℤ◌, ℕ, List, Some, None, OnErr, pos, length, drop};
ghost use Rattle.std.specs.Borrow.{sem};
ghost use Rattle.std.specs.Io.BufRead.{Rests};
ghost use Rattle.pt_host.specs.declared.op.KeptHostOp.TheVariants as call;
ghost use Rattle.pt_handles.specs.OneCall.{AsksOnce};
ghost use Rattle.pt_handles.specs.Record.{Dirent, IsListing, BeginsWith, records_of};
ghost use Rattle.pt_handles.specs.Dirents.{is_listing, seen_dirent};
ghost use Rattle.pt_handles.specs.Listed.{IsRead, IsReadOf, Gives, GivesFirst, dirent_of};

use crate::padding::strip_padding;
use crate::record::{HEAD, first_broken, record_size, u64_at};
use pt_host::{Bytes, Errno, Fd, Host, HostOp, HostReply, HostSeat, HostValue};
use std::marker::Model;

/// One entry of a directory.
#[derive(Clone, Copy, Debug)]
pub struct DirEntryRef<'a> {
    pub ino: u64,
    /// Where the directory is read on after this entry.
    pub offset: u64,
    /// The kind of the object, a `DT_` number of `readdir(3)`.
    pub kind: u32,
    pub name: &'a [u8],
}

/// Why a listing cannot be read.
#[derive(Clone, Copy, Debug)]
pub enum ReadDirError {
    /// The bytes from this place on begin with no whole record, and those before it are whole ones.
    NotRecords(u64),
    /// The host's error.
    Host(Errno),
    Memory,
}

/// What gives the entries of a directory.
pub trait DirectoryIterator {
    /// Those that are left.
    ghost left: { Self → List Dirent };

    /// The next entry, which takes no memory.
    fn next(&mut self) -> Option<DirEntryRef<'_>>
        ensures given { GivesFirst (left self.old) result }
        ensures* after { sem 𝓛 (Rests Self.row self.entry (λ after. Gives (left self.old) result (left after))) };
}

/// The entries of a listing, one after another. Of no bytes it has none.
#[derive(Drop)]
pub struct ReadDir {
    bytes: Bytes,
    current: usize,
}

impl Model for ReadDir {
    ghost use Rattle.std.specs.Prelude.{List, drop};
    ghost use Rattle.pt_handles.specs.Record.{Dirent};
    ghost use Rattle.pt_handles.specs.Dirents.{dirents_in};
    ghost use Rattle.pt_handles.specs.Reading.{IsReadUpTo};

    ghost Value = { List Dirent };

    ghost view = { λ reader. dirents_in (drop reader.current reader.bytes) };

    ghost invariant = { λ reader. IsReadUpTo reader.bytes reader.current };
}

/// Whether these bytes are whole records. Takes no memory.
pub fn is_listing(bytes: &[u8]) -> bool
    ensures { result ≡ is_listing bytes.now }
{
    match first_broken(bytes) {
        None => true,
        Some(_place) => false,
    }
}

/// The bytes from a place on.
fn left_in(bytes: &Bytes, current: usize) -> &[u8]
    requires { current ≤ length bytes.now }
    ensures left { result.now ≡ drop current bytes.now }
    ensures fits { length bytes.now < 2 ^ 64 }
{
    &bytes.as_slice()[current..]
}

/// The entry whose record stands at the front.
fn first_entry(left: &[u8]) -> DirEntryRef<'_>
    requires { (entry : Dirent) × (rest : List ℕ) × BeginsWith left.now entry rest }
    ensures { dirent_of result ≡ seen_dirent left.now }
{
    let name = match strip_padding(&left[HEAD..]) {
        Some(name) => name,
        None => unreachable!(),
    };
    DirEntryRef {
        ino: u64_at(left, 0),
        offset: u64_at(left, 8),
        kind: u32::from(left[18]),
        name,
    }
}

/// Asks the host for records.
fn listed<H: Host>(
    host: &mut H,
    seat: &mut HostSeat,
    dir: Fd,
    offset: Option<u64>,
    size: u32,
) -> Result<ReadDir, ReadDirError>
    ensures { AsksOnce H.does (call.ListAt dir offset size) (λ told. IsReadOf told result)
        host.old seat.old host.new seat.new }
{
    let op = HostOp::ListAt {
        fd: dir,
        offset,
        size,
    };
    match host.call(seat, &op) {
        HostReply::Ok(HostValue::Bytes(bytes)) => ReadDir::from_bytes(bytes),
        HostReply::Ok(_) => unreachable!(),
        HostReply::Refused(errno) | HostReply::Fault(errno) => Err(ReadDirError::Host(errno)),
        HostReply::NoMemory => Err(ReadDirError::Memory),
    }
}

impl ReadDir {
    /// The records of a directory from an offset on, as many as go into the size.
    pub fn new<H: Host>(
        host: &mut H,
        seat: &mut HostSeat,
        dir: Fd,
        offset: i64,
        size: u32,
    ) -> Result<ReadDir, ReadDirError>
        requires { pos 0 ≤ℤ offset }
        ensures { (place : ℕ) × (offset ≡ pos place)
            × AsksOnce H.does (call.ListAt dir (Some place) size) (λ told. IsReadOf told result)
            host.old seat.old host.new seat.new }
    {
        listed(host, seat, dir, Some(offset as u64), size)
    }

    /// The same from where the descriptor stands.
    pub fn new_no_seek<H: Host>(
        host: &mut H,
        seat: &mut HostSeat,
        dir: Fd,
        size: u32,
    ) -> Result<ReadDir, ReadDirError>
        ensures { AsksOnce H.does (call.ListAt dir None size) (λ told. IsReadOf told result)
            host.old seat.old host.new seat.new }
    {
        listed(host, seat, dir, None, size)
    }

    /// The records that these bytes are, which takes no memory.
    pub fn from_bytes(bytes: Bytes) -> Result<ReadDir, ReadDirError>
        ensures read { IsRead bytes result }
        ensures no_listing { OnErr result ((entries : List Dirent) → IsListing bytes entries → ⊥) }
    {
        match first_broken(bytes.as_slice()) {
            None => Ok(ReadDir { bytes, current: 0 }),
            Some(place) => Err(ReadDirError::NotRecords(place as u64)),
        }
    }

    /// How many bytes of records are not given yet.
    pub fn remaining(&self) -> usize
        ensures { result ≡ length (records_of self.now) }
    {
        self.bytes.len() - self.current
    }
}

impl DirectoryIterator for ReadDir {
    ghost left = { λ reader. reader };

    fn next(&mut self) -> Option<DirEntryRef<'_>> {
        let left = left_in(&self.bytes, self.current);
        if left.is_empty() {
            return None;
        }
        let entry = first_entry(left);
        self.current += record_size(entry.name);
        Some(entry)
    }
}
