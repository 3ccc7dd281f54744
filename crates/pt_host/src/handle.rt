ghost use Rattle.std.specs.Prelude.{◌≡◌, ◌≤◌, ◌↔◌, length, replicate, pos, IfSome, IsSome};

use arrayvec::ArrayVec;
use std::marker::Model;

/// The bytes of a file handle, 128 at most.
#[derive(Debug, Drop)]
pub struct HandleBytes {
    kept: ArrayVec<u8, 128>,
}

impl Model for HandleBytes {
    ghost use Rattle.std.specs.Prelude.{List, ℕ};

    ghost Value = { List ℕ };

    ghost view = { λ handle. handle.kept.items };
}

impl HandleBytes {
    /// None where there are more than 128.
    pub fn from_slice(bytes: &[u8]) -> Option<HandleBytes>
        ensures fits { IsSome result ↔ (length bytes.now ≤ 128) }
        ensures bytes { IfSome result (λ handle. handle ≡ bytes.now) }
    {
        match ArrayVec::try_from(bytes) {
            Ok(kept) => Some(HandleBytes { kept }),
            Err(_) => None,
        }
    }

    /// 128 zero bytes.
    fn zeros() -> HandleBytes
        ensures { result ≡ replicate 128 0 }
    {
        HandleBytes {
            kept: ArrayVec::from([0; 128]),
        }
    }

    pub fn as_slice(&self) -> &[u8]
        ensures { result.now ≡ self.now }
    {
        self.kept.as_slice()
    }

    /// The same bytes once more, which takes no memory.
    pub fn copy(&self) -> HandleBytes
        ensures { result ≡ self.now }
    {
        let mut kept = ArrayVec::new();
        for byte in self.kept.as_slice() {
            kept.push(*byte);
        }
        HandleBytes { kept }
    }
}

/// What `name_to_handle_at(2)` tells of an object, its mount aside.
#[derive(Debug, Drop)]
pub struct CFileHandle {
    pub handle_type: i32,
    pub bytes: HandleBytes,
}

/// A file handle and the mount that it is good for.
#[derive(Debug, Drop)]
pub struct FileHandle {
    pub mnt_id: u64,
    pub handle: CFileHandle,
}

impl CFileHandle {
    /// The handle's bytes.
    pub fn as_bytes(&self) -> &[u8]
        ensures { result.now ≡ self.now.bytes }
    {
        self.bytes.as_slice()
    }

    /// The handle's type, which the file system chooses.
    pub fn handle_type(&self) -> i32
        ensures { result ≡ self.now.handle_type }
    {
        self.handle_type
    }

    /// The same handle once more, which takes no memory.
    pub fn copy(&self) -> CFileHandle
        ensures { result ≡ self.now }
    {
        CFileHandle {
            handle_type: self.handle_type,
            bytes: self.bytes.copy(),
        }
    }
}

/// Room for any handle: no type, and 128 zero bytes.
impl Default for CFileHandle {
    ghost is_default = { λ handle. (handle.handle_type ≡ pos 0) × (handle.bytes ≡ replicate 128 0) };

    fn default() -> Self {
        CFileHandle {
            handle_type: 0,
            bytes: HandleBytes::zeros(),
        }
    }
}

impl FileHandle {
    /// The same handle once more, which takes no memory.
    pub fn copy(&self) -> FileHandle
        ensures { result ≡ self.now }
    {
        FileHandle {
            mnt_id: self.mnt_id,
            handle: self.handle.copy(),
        }
    }
}
