ghost use Rattle.std.specs.Prelude.{◌≡◌, ◌≤◌, ℕ, List, IfOk, length};
ghost use Rattle.pt_tables.specs.Tables.{empty_tables};

use crate::one_directory::a_seat;
use pt_fs::{DriveError, Driven, PassthroughFs, drive};
use pt_host::Errno;
use pt_iface::{Answer, Refusal};
use pt_req::Config;
use pt_script::{Script, parse};
use pt_tree::TreeHost;
use std::alloc::Global;
use std::mem::forget;

/// A file that is read from its second byte on.
const READ: &[u8] = b"mount 1 1 / 1\nfile /f 0o644 0 0 hello\njob 0 0 root\njob 0 0 lookup 1 f\n\
    job 0 0 open 2 0 0o0\njob 0 0 read 2 0 3 1\nend\n";

/// The tenth call, which puts a seat back behind a making by who is not root, fails.
const LOST: &[u8] = b"mount 1 1 / 1\nfile /a 0o644 0 0 hi\nfault 10 5\njob 0 0 init 0\n\
    job 1000 1000 create 1 f 0o644 0 0o102 0 - -\njob 0 0 lookup 1 a\njob 0 0 lookup 1 a\n\
    edit unlink /a\norder 0 0 0 0 0 2 2 2 2 1 1 1 1 1 1 1 2 2 3 4\nend\n";

/// A file system over this host.
fn made(alloc: Global, host: &mut TreeHost) -> Result<PassthroughFs, Refusal>
    ensures { IfOk result (λ fs. (limits : List ℕ) × (fs.tables ≡ empty_tables limits)) }
{
    let cfg = Config::new(alloc)?;
    PassthroughFs::new(alloc, cfg, host, &mut a_seat())
}

/// What a run of a script's jobs over its tree leaves, where it begins.
fn driven(
    alloc: Global,
    text: &[u8],
) -> Option<Result<Driven<PassthroughFs>, DriveError<PassthroughFs>>>
    requires { length text.now ≤ 16777216 }
{
    let Ok(
        Script {
            mut host,
            jobs,
            schedule,
            ..
        },
    ) = parse(alloc, text)
    else {
        return None;
    };
    let Ok(fs) = made(alloc, &mut host) else {
        return None;
    };
    Some(drive(alloc, fs, &mut host, jobs, schedule.as_slice()))
}

/// Whether the file's bytes are answered, and the trace tells them.
fn has_read(driven: &Driven<PassthroughFs>) -> bool {
    match driven.answers.as_slice() {
        [_, _, _, Answer::Read(bytes)] => bytes.as_slice() == b"ell".as_slice(),
        _ => false,
    }
}

#[test]
fn what_a_file_holds_is_read(rt: HostRuntime) {
    let ran = driven(rt.alloc(), READ);
    let is_read = match &ran {
        Some(Ok(driven)) => has_read(driven),
        _ => false,
    };
    forget(ran);
    assert!(rt; is_read);
}

#[test]
fn a_seat_that_is_not_put_back_is_lost(rt: HostRuntime) {
    let ran = driven(rt.alloc(), LOST);
    let is_lost = matches!(
        &ran,
        Some(Err(DriveError::CredentialsLost(1, Errno::EIO, _)))
    );
    forget(ran);
    assert!(rt; is_lost);
}
