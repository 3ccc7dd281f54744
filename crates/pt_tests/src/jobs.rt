use crate::plays::Step::{Acts, Cut, Wants};
use crate::plays::{Played, Step, Told, ends_so};
use pt_host::{Bytes, Errno};
use pt_iface::{Extensions, Request, SecContext};
use std::alloc::Global;

fn look_up(alloc: Global, name: &[u8]) -> Option<Played> {
    match Bytes::from_slice(alloc, name) {
        Ok(name) => Played::start(alloc, Request::Lookup { parent: 1, name }),
        Err(_) => None,
    }
}

/// What a request brings that has a context of this name.
fn with_context(alloc: Global, name: &[u8]) -> Option<Extensions> {
    let secctx = Some(SecContext {
        name: Bytes::from_slice(alloc, name).ok()?,
        value: Bytes::from_slice(alloc, b"v").ok()?,
    });
    Some(Extensions {
        secctx,
        sup_gid: None,
    })
}

/// A job that makes the file `a`, with a context of this name.
fn create(alloc: Global, context: &[u8]) -> Option<Played> {
    let request = Request::Create {
        parent: 1,
        name: Bytes::from_slice(alloc, b"a").ok()?,
        mode: 0o644,
        kill: false,
        flags: 2,
        umask: 0,
        ext: with_context(alloc, context)?,
    };
    Played::start(alloc, request)
}

/// A job that makes the directory `a`, with a context of this name.
fn make_dir(alloc: Global, context: &[u8]) -> Option<Played> {
    let request = Request::Mkdir {
        parent: 1,
        name: Bytes::from_slice(alloc, b"a").ok()?,
        mode: 0o755,
        umask: 0,
        ext: with_context(alloc, context)?,
    };
    Played::start(alloc, request)
}

/// A job that makes the symbolic link `a`, with a context of this name.
fn make_link(alloc: Global, context: &[u8]) -> Option<Played> {
    let request = Request::Symlink {
        target: Bytes::from_slice(alloc, b"t").ok()?,
        parent: 1,
        name: Bytes::from_slice(alloc, b"a").ok()?,
        ext: with_context(alloc, context)?,
    };
    Played::start(alloc, request)
}

const SET_CONTEXT: &[u8] = b" SetXattr 5 0 security.selinux v 0";

const SET_CONTEXT_THROUGH: &[u8] = b" SetXattr 5 1 security.selinux v 0";

const OPEN: &[u8] = b" OpenAt 4 a 2752512 0";

const CLAIM: &[u8] = b" Claim 1 - 2 1 1";

const CLOSE: Step = Acts(b" Close 5", Told::Unit);

const UNPIN: Step = Acts(b" Unpin 0", Told::Done(0));

/// The steps by which a directory is found.
const FINDS: &[Step] = &[
    Acts(b" Begin", Told::Began),
    Acts(b" Resolve 1", Told::Resolved),
];

/// The steps of a lookup up to its `Claim`.
const OPENS: &[Step] = &[Acts(OPEN, Told::Fd(5)), Acts(b" Stat 5", Told::Stat)];

/// And up to its `Insert`.
const DRAWS: &[Step] = &[
    Acts(CLAIM, Told::Absent),
    Acts(b" TakeFd", Told::Taken),
    Acts(b" DrawNode", Told::Drawn(2)),
];

/// The steps of a making up to the `Stat` of what was made.
const MAKES: &[Step] = &[
    Acts(b" OpenAt 4 a 655554 420", Told::Fd(5)),
    Acts(b" Stat 5", Told::Stat),
];

/// The name of a file or a link goes again, or stays.
const UNLINKS: Step = Acts(b" Unlink 4 a", Told::Refused(Errno::EACCES));

const MAKES_DIR: Step = Acts(b" MakeDir 4 a 493", Told::Unit);

const REMOVES_DIR: Step = Acts(b" RemoveDir 4 a", Told::Refused(Errno::EACCES));

#[test]
fn an_insertion_without_memory_gives_all_back(rt: HostRuntime) {
    let job = look_up(rt.alloc(), b"a");
    let gives_back = [
        Acts(b" Insert 1 2 File 5 2 1 1 33188", Told::NoMemory),
        CLOSE,
        Acts(b" GiveFd", Told::Given),
        UNPIN,
    ];
    let parts = [FINDS, OPENS, DRAWS, &gives_back];
    assert!(rt; ends_so(&rt, rt.alloc(), job, &parts, b" NoMemory"));
}

#[test]
fn a_job_that_is_cut_gives_its_count_back_first(rt: HostRuntime) {
    let job = look_up(rt.alloc(), b"a");
    let gives_back = [
        Acts(CLAIM, Told::Claimed(2)),
        Cut,
        Acts(b" GiveBack 1 2", Told::Done(0)),
        CLOSE,
        UNPIN,
    ];
    let parts = [FINDS, OPENS, &gives_back];
    assert!(rt; ends_so(&rt, rt.alloc(), job, &parts, b" Cut"));
}

#[test]
fn an_edit_that_is_cut_is_not_made(rt: HostRuntime) {
    let job = Played::edit(rt.alloc());
    assert!(rt; ends_so(&rt, rt.alloc(), job, &[&[Cut]], b" Cut"));
}

#[test]
fn what_is_no_request_is_refused(rt: HostRuntime) {
    let job = Played::start(rt.alloc(), Request::Other { opcode: 99 });
    let begins = [Acts(b" Begin", Told::Began)];
    assert!(rt; ends_so(&rt, rt.alloc(), job, &[&begins], b" Refused 38"));
}

/// No line of a script brings a context yet. The lookup of what was made follows, where the job is cut.
#[test]
fn what_is_made_gets_its_context(rt: HostRuntime) {
    let job = create(rt.alloc(), b"security.selinux");
    let goes_on = [
        Acts(SET_CONTEXT, Told::Unit),
        Wants(b" Resolve 1"),
        Cut,
        CLOSE,
        UNPIN,
    ];
    assert!(rt; ends_so(&rt, rt.alloc(), job, &[FINDS, MAKES, &goes_on], b" Cut"));
}

#[test]
fn what_gets_no_context_goes_again(rt: HostRuntime) {
    let job = create(rt.alloc(), b"security.selinux");
    let fails = [Acts(SET_CONTEXT, Told::Fault(Errno::EIO))];
    let goes = [UNLINKS, CLOSE, UNPIN];
    let parts = [FINDS, MAKES, &fails, &goes];
    assert!(rt; ends_so(&rt, rt.alloc(), job, &parts, b" Refused 5"));
    let blocked = create(rt.alloc(), b"system");
    assert!(rt;
        ends_so(
            &rt,
            rt.alloc(),
            blocked,
            &[FINDS, MAKES, &goes],
            b" Refused 95"
        )
    );
}

/// It is set by a descriptor that only stands for the directory, which is closed before the lookup.
#[test]
fn a_made_directory_gets_its_context(rt: HostRuntime) {
    let job = make_dir(rt.alloc(), b"security.selinux");
    let goes_on = [
        MAKES_DIR,
        Acts(OPEN, Told::Fd(5)),
        Acts(SET_CONTEXT_THROUGH, Told::Unit),
        CLOSE,
        Wants(b" Resolve 1"),
        Cut,
        UNPIN,
    ];
    assert!(rt; ends_so(&rt, rt.alloc(), job, &[FINDS, &goes_on], b" Cut"));
}

#[test]
fn a_directory_that_gets_no_context_goes_again(rt: HostRuntime) {
    let job = make_dir(rt.alloc(), b"security.selinux");
    let fails = [
        MAKES_DIR,
        Acts(OPEN, Told::Fd(5)),
        Acts(SET_CONTEXT_THROUGH, Told::Fault(Errno::EIO)),
        CLOSE,
    ];
    let goes = [REMOVES_DIR, UNPIN];
    assert!(rt; ends_so(&rt, rt.alloc(), job, &[FINDS, &fails, &goes], b" Refused 5"));
    let blocked = make_dir(rt.alloc(), b"system");
    let parts = [FINDS, &[MAKES_DIR], &goes];
    assert!(rt; ends_so(&rt, rt.alloc(), blocked, &parts, b" Refused 95"));
}

#[test]
fn a_link_that_is_not_opened_for_its_context_goes_again(rt: HostRuntime) {
    let job = make_link(rt.alloc(), b"security.selinux");
    let fails = [
        Acts(b" SymLink 4 a t", Told::Unit),
        Acts(OPEN, Told::Refused(Errno::EACCES)),
        UNLINKS,
        UNPIN,
    ];
    assert!(rt; ends_so(&rt, rt.alloc(), job, &[FINDS, &fails], b" Refused 13"));
}
