use crate::plays::Step::Acts;
use crate::plays::{Played, Step, Told, ends_so};
use pt_host::Bytes;
use pt_iface::Request;
use std::alloc::Global;

fn write(alloc: Global) -> Option<Played> {
    let request = Request::Write {
        inode: 1,
        handle: 0,
        offset: 0,
        bytes: Bytes::from_slice(alloc, b"x").ok()?,
        delayed: false,
        kill: false,
        flags: 0,
    };
    Played::start(alloc, request)
}

fn seek(alloc: Global) -> Option<Played> {
    let request = Request::Lseek {
        inode: 1,
        handle: 0,
        offset: 0,
        whence: 2,
    };
    Played::start(alloc, request)
}

fn copy_range(alloc: Global) -> Option<Played> {
    let request = Request::CopyFileRange {
        inode: 1,
        handle: 0,
        offset: 0,
        inode2: 2,
        handle2: 1,
        offset2: 0,
        length: 9223372036854775807,
        flags: 0,
    };
    Played::start(alloc, request)
}

fn value_length(alloc: Global) -> Option<Played> {
    let request = Request::GetXattr {
        inode: 1,
        name: Bytes::from_slice(alloc, b"user.a").ok()?,
        size: 0,
    };
    Played::start_with_xattr(alloc, request)
}

fn list_length(alloc: Global) -> Option<Played> {
    Played::start_with_xattr(alloc, Request::ListXattr { inode: 1, size: 0 })
}

const PINS: &[Step] = &[
    Acts(b" Begin", Told::Began),
    Acts(b" PinHandle 0 1", Told::Pinned(3, 6)),
];

const PINS_ANOTHER: &[Step] = &[Acts(b" PinHandle 1 2", Told::Pinned(4, 7))];

const UNPINS_ANOTHER: &[Step] = &[Acts(b" UnpinHandle 4", Told::Done(0))];

const UNPINS: &[Step] = &[Acts(b" UnpinHandle 3", Told::Done(0))];

/// The steps by which a directory is opened, `O_RDONLY | O_NONBLOCK | O_CLOEXEC`.
const OPENS: &[Step] = &[
    Acts(b" Begin", Told::Began),
    Acts(b" Resolve 1", Told::Resolved),
    Acts(b" Resolve 1", Told::Resolved),
    Acts(b" Reopen 4 526336", Told::Fd(5)),
];

const UNPIN: Step = Acts(b" Unpin 0", Told::Done(0));

const CLOSES: &[Step] = &[Acts(b" Close 5", Told::Unit), UNPIN, UNPIN];

/// Counts on both sides of 32 bits, with what they are answered by.
const WROTE: &[(u64, &[u8])] = &[
    (4294967295, b" Wrote 4294967295"),
    (4294967296, b" Wrote 4294967296"),
    (18446744073709551615, b" Wrote 18446744073709551615"),
];

const PLACES: &[(u64, &[u8])] = &[
    (4294967295, b" Offset 4294967295"),
    (4294967296, b" Offset 4294967296"),
    (18446744073709551615, b" Offset 18446744073709551615"),
];

const LENGTHS: &[(u64, &[u8])] = &[
    (4294967295, b" Xattr Count 4294967295"),
    (4294967296, b" Refused 75"),
    (18446744073709551615, b" Refused 75"),
];

const LENGTHS_OF_LISTS: &[(u64, &[u8])] = &[
    (4294967295, b" Xattrs Count 4294967295"),
    (4294967296, b" Refused 75"),
    (18446744073709551615, b" Refused 75"),
];

#[test]
fn what_is_written_may_pass_32_bits(rt: HostRuntime) {
    for (count, answer) in WROTE {
        let job = write(rt.alloc());
        let writes = [Acts(b" WriteAt 6 0 x 0", Told::Count(*count))];
        let parts = [PINS, &writes, UNPINS];
        assert!(rt; ends_so(&rt, rt.alloc(), job, &parts, answer));
    }
}

#[test]
fn what_is_copied_may_pass_32_bits(rt: HostRuntime) {
    for (count, answer) in WROTE {
        let job = copy_range(rt.alloc());
        let copies = [Acts(
            b" CopyRange 6 0 7 0 9223372036854775807 0",
            Told::Count(*count),
        )];
        let parts = [PINS, PINS_ANOTHER, &copies, UNPINS_ANOTHER, UNPINS];
        assert!(rt; ends_so(&rt, rt.alloc(), job, &parts, answer));
    }
}

#[test]
fn a_place_may_pass_32_bits(rt: HostRuntime) {
    for (count, answer) in PLACES {
        let job = seek(rt.alloc());
        let seeks = [Acts(b" Seek 6 0 2", Told::Count(*count))];
        let parts = [PINS, &seeks, UNPINS];
        assert!(rt; ends_so(&rt, rt.alloc(), job, &parts, answer));
    }
}

#[test]
fn the_length_of_a_value_has_32_bits(rt: HostRuntime) {
    for (count, answer) in LENGTHS {
        let job = value_length(rt.alloc());
        let asks = [Acts(b" GetXattr 5 0 user.a 0", Told::Count(*count))];
        let parts = [OPENS, &asks, CLOSES];
        assert!(rt; ends_so(&rt, rt.alloc(), job, &parts, answer));
    }
}

#[test]
fn the_length_of_a_list_has_32_bits(rt: HostRuntime) {
    for (count, answer) in LENGTHS_OF_LISTS {
        let job = list_length(rt.alloc());
        let asks = [Acts(b" ListXattr 5 0 0", Told::Count(*count))];
        let parts = [OPENS, &asks, CLOSES];
        assert!(rt; ends_so(&rt, rt.alloc(), job, &parts, answer));
    }
}
