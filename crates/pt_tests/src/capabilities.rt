use crate::plays::Step::Acts;
use crate::plays::{Played, Step, Told, ends_so};
use pt_host::{Bytes, Errno};
use pt_iface::{Request, SetattrIn, SetattrValid};
use std::alloc::Global;

const NOTHING_SET: SetattrIn = SetattrIn {
    size: 0,
    atime: 0,
    mtime: 0,
    atimensec: 0,
    mtimensec: 0,
    mode: 0,
    uid: 7,
    gid: 0,
};

/// A job that gives an object another owner, where rules map the attribute of capabilities to this name.
fn give_away(alloc: Global) -> Option<Played> {
    let request = Request::SetAttr {
        inode: 1,
        handle: None,
        valid: SetattrValid::UID,
        attr: NOTHING_SET,
    };
    let name = Bytes::from_slice(alloc, b"user.cap").ok()?;
    Played::start_where(alloc, request, Some(name))
}

const FINDS: &[Step] = &[
    Acts(b" Begin", Told::Began),
    Acts(b" Resolve 1", Told::Resolved),
];

const REMOVES: &[u8] = b" RemoveXattr 4 1 user.cap";

const UNPIN: Step = Acts(b" Unpin 0", Told::Done(0));

const GIVES_AWAY: &[Step] = &[
    Acts(b" ChOwn 4 7 4294967295", Told::Unit),
    Acts(b" Resolve 1", Told::Resolved),
    Acts(b" Stat 4", Told::Stat),
    UNPIN,
    UNPIN,
];

const ATTRIBUTES: &[u8] = b" Attr 2 2 1 0 0 0 0 0 0 33188 1 0 0 0 4096 0 5 0";

/// The tree in memory tells this of a refusal alone, and not of a fault.
#[test]
fn a_file_that_has_no_capabilities_needs_to_lose_none(rt: HostRuntime) {
    for told in [
        Told::Unit,
        Told::Refused(Errno::ENODATA),
        Told::Fault(Errno::ENODATA),
        Told::Refused(Errno::EOPNOTSUPP),
        Told::Fault(Errno::EOPNOTSUPP),
    ] {
        let job = give_away(rt.alloc());
        let parts = [FINDS, &[Acts(REMOVES, told)], GIVES_AWAY];
        assert!(rt; ends_so(&rt, rt.alloc(), job, &parts, ATTRIBUTES));
    }
}

#[test]
fn a_file_that_keeps_its_capabilities_keeps_its_owner(rt: HostRuntime) {
    let job = give_away(rt.alloc());
    let fails = [Acts(REMOVES, Told::Fault(Errno::EIO)), UNPIN];
    assert!(rt; ends_so(&rt, rt.alloc(), job, &[FINDS, &fails], b" Refused 5"));
}
