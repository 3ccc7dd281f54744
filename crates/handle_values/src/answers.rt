//! What calls are answered, as words behind ` =`.

use pt_handles::{
    EqualError, HandleError, MPRError, MountError, MountFd, OpenableFileHandle,
    SerializableFileHandle,
};
use pt_show::Text;
use pt_text::push_text;
use std::alloc::AllocError;

/// Appends ` Ok` and the value.
pub fn push_ok<T: Text>(out: &mut Vec<u8>, value: &T) -> Result<(), AllocError> {
    push_text(out, b" Ok")?;
    value.write(out)
}

pub fn push_handle_error(out: &mut Vec<u8>, error: &HandleError) -> Result<(), AllocError> {
    push_text(out, b" Err")?;
    match error {
        HandleError::Named(errno, path) => {
            push_text(out, b" Named")?;
            errno.write(out)?;
            path.write(out)
        }
        HandleError::TooLong => push_text(out, b" TooLong"),
        HandleError::OutsidePrefix => push_text(out, b" OutsidePrefix"),
        HandleError::Host(errno) => {
            push_text(out, b" Host")?;
            errno.write(out)
        }
        HandleError::Memory => push_text(out, b" Memory"),
    }
}

/// A value or the error of a handle.
pub fn push_handled<T: Text>(
    out: &mut Vec<u8>,
    told: &Result<T, HandleError>,
) -> Result<(), AllocError> {
    match told {
        Ok(value) => push_ok(out, value),
        Err(error) => push_handle_error(out, error),
    }
}

pub fn push_mount(out: &mut Vec<u8>, mount: &MountFd) -> Result<(), AllocError> {
    mount.mount_id.write(out)?;
    mount.file.write(out)
}

pub fn push_openable(out: &mut Vec<u8>, openable: &OpenableFileHandle) -> Result<(), AllocError> {
    openable.handle.write(out)?;
    push_mount(out, &openable.mount_fd)
}

pub fn push_serial(out: &mut Vec<u8>, serial: &SerializableFileHandle) -> Result<(), AllocError> {
    serial.mnt_id.write(out)?;
    serial.handle_type.write(out)?;
    serial.handle.write(out)
}

pub fn push_mount_error(out: &mut Vec<u8>, error: &MPRError) -> Result<(), AllocError> {
    error.errno.write(out)?;
    error.description.write(out)?;
    error.silent.write(out)?;
    error.fs_mount_id.write(out)?;
    match &error.fs_mount_root {
        Some(root) => {
            push_text(out, b" +")?;
            root.write(out)
        }
        None => push_text(out, b" -"),
    }
}

pub fn push_refusal(out: &mut Vec<u8>, refusal: &MountError) -> Result<(), AllocError> {
    push_text(out, b" Err")?;
    match refusal {
        MountError::Failed(error) => {
            push_text(out, b" Failed")?;
            push_mount_error(out, error)
        }
        MountError::Memory => push_text(out, b" Memory"),
    }
}

pub fn push_equal(out: &mut Vec<u8>, told: &Result<(), EqualError>) -> Result<(), AllocError> {
    match told {
        Ok(()) => push_text(out, b" Ok"),
        Err(EqualError::Differs(text)) => {
            push_text(out, b" Err Differs")?;
            text.write(out)
        }
        Err(EqualError::Memory) => push_text(out, b" Err Memory"),
    }
}
