//! The one table of requests: what each does in the session that goes on.

ghost use Rattle.std.specs.Prelude.{◌≡◌, ℕ, List};
ghost use Rattle.pt_frame.specs.Machine.Walk.{Reads};
ghost use Rattle.pt_frame.specs.Tree.{Gives};
ghost use Rattle.pt_frame.specs.declared.told.Heard.{Heard};
ghost use Rattle.pt_req.specs.Requests.{unserved};
ghost use Rattle.pt_req.specs.declared.begun.BegunSession.{BegunSession};
ghost use Rattle.pt_job.specs.Requests.{in_session};

use pt_attr::{
    CopyAsked, FileAsked, ObjectAsked, WriteAsked, access, copyfilerange, create, fallocate, flush,
    fsync, getattr, link, lseek, mkdir, mknod, readlink, rename, rmdir, setattr, statfs, symlink,
    syncfs, unlink, write,
};
use pt_frame::{Asked, Heard};
use pt_host::{Errno, HostSeat};
use pt_iface::{Answer, Context, Request};
use pt_req::{
    BegunSession, Plan, batch_forget, forget, lookup, open, opendir, read, release, root,
};
use pt_xattr::{SetAsked, getxattr, listxattr, readdir, removexattr, setxattr};

/// There is no such function.
fn unserved<'a>() -> Asked<'a, Answer>
    ensures { (told : List Heard) (at : ℕ) (session : BegunSession) →
        Reads told at at result (unserved session) Gives }
{
    Ok(Answer::Refused(Errno::ENOSYS))
}

/// What a request does in the session that goes on; two are asked in none.
pub fn in_session<'a>(
    told: &'a [Heard],
    at: &mut usize,
    plan: &'a Plan,
    seat: &'a HostSeat,
    who: Context,
    session: BegunSession,
    request: &'a Request,
) -> Asked<'a, Answer>
    ensures { Reads told.now at.old at.new result (in_session plan.now seat.now who request.now session) Gives }
{
    match request {
        Request::Init { .. } => unserved(),
        Request::Destroy => unserved(),
        Request::Root => root(told, at, plan, session),
        Request::Lookup { parent, name } => lookup(told, at, plan, session, *parent, name),
        Request::Forget { inode, count } => forget(told, at, session, *inode, *count),
        Request::BatchForget { list } => batch_forget(told, at, session, list),
        Request::Open { inode, kill, flags } => open(
            told, at, plan, seat, session, *inode, *kill, *flags,
        ),
        Request::OpenDir { inode, flags } => opendir(told, at, plan, seat, session, *inode, *flags),
        Request::Release { inode, handle } => release(told, at, session, *inode, *handle),
        Request::ReleaseDir { inode, handle } => release(told, at, session, *inode, *handle),
        Request::Read {
            inode,
            handle,
            size,
            offset,
        } => read(told, at, session, *inode, *handle, *size, *offset),
        Request::Write {
            inode,
            handle,
            offset,
            bytes,
            delayed,
            kill,
            flags,
        } => {
            let asked = WriteAsked {
                inode: *inode,
                handle: *handle,
                offset: *offset,
                bytes,
                delayed: *delayed,
                kill: *kill,
                flags: *flags,
            };
            write(told, at, plan, seat, asked)
        }
        Request::Create {
            parent,
            name,
            mode,
            kill,
            flags,
            umask,
            ext,
        } => {
            let asked = FileAsked {
                who,
                parent: *parent,
                name,
                mode: *mode,
                kill: *kill,
                flags: *flags,
                umask: *umask,
                ext,
            };
            create(told, at, plan, seat, session, asked)
        }
        Request::Mkdir {
            parent,
            name,
            mode,
            umask,
            ext,
        } => {
            let asked = ObjectAsked {
                who,
                parent: *parent,
                name,
                umask: Some(*umask),
                ext,
            };
            mkdir(told, at, plan, seat, session, asked, *mode)
        }
        Request::Mknod {
            parent,
            name,
            mode,
            rdev,
            umask,
            ext,
        } => {
            let asked = ObjectAsked {
                who,
                parent: *parent,
                name,
                umask: Some(*umask),
                ext,
            };
            mknod(told, at, plan, seat, session, asked, *mode, *rdev)
        }
        Request::Symlink {
            target,
            parent,
            name,
            ext,
        } => {
            let asked = ObjectAsked {
                who,
                parent: *parent,
                name,
                umask: None,
                ext,
            };
            symlink(told, at, plan, seat, session, asked, target)
        }
        Request::Link {
            inode,
            newparent,
            newname,
        } => link(told, at, plan, session, *inode, *newparent, newname),
        Request::Unlink { parent, name } => unlink(told, at, *parent, name),
        Request::Rmdir { parent, name } => rmdir(told, at, *parent, name),
        Request::Rename {
            olddir,
            oldname,
            newdir,
            newname,
            flags,
        } => { rename(told, at, *olddir, oldname, *newdir, newname, *flags) }
        Request::Readlink { inode } => readlink(told, at, *inode),
        Request::StatFs { inode } => statfs(told, at, *inode),
        Request::GetAttr { inode } => getattr(told, at, plan, *inode),
        Request::SetAttr {
            inode,
            handle,
            valid,
            attr,
        } => { setattr(told, at, plan, seat, *inode, *handle, *valid, attr) }
        Request::Access { inode, mask } => access(told, at, plan, who, *inode, *mask),
        Request::ReadDir {
            inode,
            handle,
            size,
            offset,
        } => readdir(told, at, plan, session, *inode, *handle, *size, *offset),
        Request::Flush { inode, handle } => flush(told, at, *inode, *handle),
        Request::Fsync {
            inode,
            handle,
            datasync,
        } => fsync(told, at, *inode, *handle, *datasync),
        Request::FsyncDir {
            inode,
            handle,
            datasync,
        } => fsync(told, at, *inode, *handle, *datasync),
        Request::SyncFs { inode } => syncfs(told, at, plan, session, *inode),
        Request::Fallocate {
            inode,
            handle,
            mode,
            offset,
            length,
        } => { fallocate(told, at, *inode, *handle, *mode, *offset, *length) }
        Request::Lseek {
            inode,
            handle,
            offset,
            whence,
        } => lseek(told, at, *inode, *handle, *offset, *whence),
        Request::CopyFileRange {
            inode,
            handle,
            offset,
            inode2,
            handle2,
            offset2,
            length,
            flags,
        } => {
            let asked = CopyAsked {
                inode: *inode,
                handle: *handle,
                offset: *offset,
                inode2: *inode2,
                handle2: *handle2,
                offset2: *offset2,
                length: *length,
                flags: *flags,
            };
            copyfilerange(told, at, asked)
        }
        Request::SetXattr {
            inode,
            name,
            value,
            flags,
            extra,
        } => {
            let asked = SetAsked {
                inode: *inode,
                name,
                value,
                flags: *flags,
                extra: *extra,
            };
            setxattr(told, at, plan, session, asked)
        }
        Request::GetXattr { inode, name, size } => {
            getxattr(told, at, plan, session, *inode, name, *size)
        }
        Request::ListXattr { inode, size } => listxattr(told, at, plan, session, *inode, *size),
        Request::RemoveXattr { inode, name } => removexattr(told, at, plan, session, *inode, name),
        Request::Other { .. } => unserved(),
    }
}
