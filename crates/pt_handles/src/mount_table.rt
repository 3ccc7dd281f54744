//! The table of mounts, without calls of the host.

ghost use Rattle.std.specs.Prelude.{◌≡◌, ◌==◌, ℕ, [], None, Some, IsSome, IfOk, OnOk, OnErr, option_copied};
ghost use Rattle.std.specs.List.{list_any};
ghost use Rattle.pt_handles.specs.Mounts.{HasRow, Refuses, row_of, fd_to_close, with_one_less, logs, is_silent};
ghost use Rattle.pt_handles.specs.MountErrors.{error_by};
ghost use Rattle.pt_handles.specs.Holding.{Holds};

use crate::mount_cause::MountCause;
use crate::mount_error::{MPRError, MountError};
use arrayvec::ArrayVec;
use pt_host::{Bytes, Fd};
use std::alloc::{AllocError, Global};
use std::collections::BTreeMap;
use std::marker::Model;

/// A mount's descriptor, and how many hold it.
#[derive(Clone, Copy, Debug)]
pub struct HeldMount {
    pub fd: Fd,
    pub holders: u64,
}

/// The descriptors of mounts, by which file handles are opened. Each is open while somebody holds it.
#[derive(Drop)]
pub struct MountFds {
    pub(crate) alloc: Global,
    mountprefix: Option<Bytes>,
    rows: BTreeMap<u64, HeldMount>,
    /// The mounts of which an error was told.
    logged: ArrayVec<u64, 64>,
}

impl Model for MountFds {
    ghost use Rattle.pt_handles.specs.Mounts.{Mounts};

    ghost Value = { Mounts };

    ghost view = { λ table. record {
      prefix = table.mountprefix;
      rows = table.rows.entries;
      logged = table.logged.items;
    } };
}

/// What became of one holder more.
#[derive(Clone, Copy)]
pub(crate) enum Holding {
    /// There is one more of this descriptor.
    Held(Fd),
    TooMany,
    /// The mount has no row.
    NoRow,
}

impl MountFds {
    /// A table without mounts. Mount points are seen from below the prefix, if one is given.
    pub fn new(alloc: Global, mountprefix: Option<Bytes>) -> MountFds
        ensures prefix { result.prefix ≡ mountprefix }
        ensures rows { (id : ℕ) → row_of result id ≡ None }
        ensures logged { result.logged ≡ [] }
    {
        MountFds {
            alloc,
            mountprefix,
            rows: BTreeMap::new(alloc),
            logged: ArrayVec::new(),
        }
    }

    pub(crate) fn prefix(&self) -> Option<&[u8]>
        ensures { option_copied result ≡ self.now.prefix }
    {
        match &self.mountprefix {
            Some(prefix) => Some(prefix.as_slice()),
            None => None,
        }
    }

    fn row(&self, mount_id: u64) -> Option<HeldMount>
        ensures { result ≡ row_of self.now mount_id }
    {
        self.rows.get(&mount_id).copied()
    }

    /// Puts a row in the place of one that is there, which takes no memory.
    fn replace(&mut self, mount_id: u64, row: HeldMount)
        requires { IsSome (row_of self.old mount_id) }
        ensures { HasRow mount_id (Some row) self.old self.new }
    {
        if let Some(place) = self.rows.get_mut(&mount_id) {
            *place = row;
        }
    }

    /// One holder more, where the mount has a row and can have one more.
    pub(crate) fn hold(&mut self, mount_id: u64) -> Holding
        ensures { Holds mount_id self.old result self.new }
    {
        let Some(row) = self.row(mount_id) else {
            return Holding::NoRow;
        };
        let Some(holders) = row.holders.checked_add(1) else {
            return Holding::TooMany;
        };
        self.replace(mount_id, HeldMount { holders, ..row });
        Holding::Held(row.fd)
    }

    /// A row of a mount that has none, with one holder.
    pub(crate) fn enter(&mut self, mount_id: u64, fd: Fd) -> Result<(), AllocError>
        ensures ok { OnOk result (HasRow mount_id (Some (record { fd = fd; holders = 1 })) self.old self.new) }
        ensures err { OnErr result (self.new ≡ self.old) }
    {
        match self.rows.insert(mount_id, HeldMount { fd, holders: 1 }) {
            Ok(_) => Ok(()),
            Err(_) => Err(AllocError),
        }
    }

    /// One holder less. The descriptor is to be closed where that was the last one.
    pub fn give_back(&mut self, mount_id: u64) -> Option<Fd>
        ensures closed { result ≡ fd_to_close (row_of self.old mount_id) }
        ensures row { HasRow mount_id (with_one_less (row_of self.old mount_id)) self.old self.new }
    {
        let row = self.row(mount_id)?;
        if row.holders <= 1 {
            let _ = self.rows.remove(&mount_id);
            return Some(row.fd);
        }
        let holders = row.holders - 1;
        self.replace(mount_id, HeldMount { holders, ..row });
        None
    }

    fn is_logged(&self, mount_id: u64) -> bool
        ensures { result ≡ list_any (λ logged. logged == mount_id) self.now.logged }
    {
        self.logged
            .as_slice()
            .iter()
            .any(|logged| *logged == mount_id)
    }

    /// Whether an error of this mount was told already, or of 64 others.
    pub(crate) fn is_silent(&self, mount_id: u64) -> bool
        ensures { result ≡ is_silent self.now mount_id }
    {
        self.is_logged(mount_id) || self.logged.len() >= 64
    }

    /// Writes down that an error of this mount was told, if it is not silent.
    pub(crate) fn log(&mut self, mount_id: u64)
        ensures { self.new ≡ logs mount_id self.old }
    {
        if !self.is_silent(mount_id) {
            self.logged.push(mount_id);
        }
    }

    /// The error of a cause, without a word of it written down.
    fn error_by(
        &self,
        mount_id: u64,
        point: &[u8],
        why: &MountCause,
    ) -> Result<MPRError, AllocError>
        ensures { IfOk result (λ error. error ≡ error_by mount_id point.now why.now (is_silent self.now mount_id)) }
    {
        let description = why.description(self.alloc, mount_id, point)?;
        let silent = self.is_silent(mount_id);
        let fs_mount_root = if !silent && why.blames_point() {
            Some(Bytes::from_slice(self.alloc, point)?)
        } else {
            None
        };
        Ok(MPRError {
            errno: why.errno(),
            description,
            silent,
            fs_mount_id: Some(mount_id),
            fs_mount_root,
        })
    }

    /// The error of a cause, which is written down, unless memory ran out.
    pub(crate) fn refuse(&mut self, mount_id: u64, point: &[u8], why: &MountCause) -> MountError
        ensures { Refuses mount_id point.now why.now self.old result self.new }
    {
        if matches!(why, MountCause::Memory) {
            return MountError::Memory;
        }
        match self.error_by(mount_id, point, why) {
            Ok(error) => {
                self.log(mount_id);
                MountError::Failed(error)
            }
            Err(AllocError) => MountError::Memory,
        }
    }
}
