use crate::plays::Step::Acts;
use crate::plays::{Played, Step, Told, ends_so};
use pt_iface::Request;
use std::alloc::Global;

fn list(alloc: Global) -> Option<Played> {
    let request = Request::ReadDir {
        inode: 1,
        handle: 0,
        size: 1000,
        offset: 0,
    };
    Played::start(alloc, request)
}

const PINS: &[Step] = &[
    Acts(b" Begin", Told::Began),
    Acts(b" PinHandle 0 1", Told::Pinned(3, 6)),
];

const LISTS: &[u8] = b" ListAt 6 + 0 1000";

const UNPINS: &[Step] = &[Acts(b" UnpinHandle 3", Told::Done(0))];

/// None, one, and two; one with the greatest numbers and no name. A record is an inode number, where the directory is
/// read on, how long the record is, a kind, and the name, which a NUL ends, filled up with NULs.
const WHOLE: &[(&[u8], &[u8])] = &[
    (b"", b" Listing 0"),
    (
        b"\x05\0\0\0\0\0\0\0\x01\0\0\0\0\0\0\0\x18\0\x08a\0\0\0\0",
        b" Listing 1 5 1 8 a",
    ),
    (
        b"\x05\0\0\0\0\0\0\0\x01\0\0\0\0\0\0\0\x18\0\x08abcd\0\
        \x06\0\0\0\0\0\0\0\x02\0\0\0\0\0\0\0\x20\0\x04abcde\0\0\0\0\0\0\0\0",
        b" Listing 2 5 1 8 abcd 6 2 4 abcde",
    ),
    (
        b"\xff\xff\xff\xff\xff\xff\xff\xff\xff\xff\xff\xff\xff\xff\xff\xff\x18\0\xff\0\0\0\0\0",
        b" Listing 1 18446744073709551615 18446744073709551615 255 %-",
    ),
];

#[test]
fn whole_records_are_entries(rt: HostRuntime) {
    for (bytes, answer) in WHOLE {
        let parts = [PINS, &[Acts(LISTS, Told::Bytes(*bytes))], UNPINS];
        assert!(rt; ends_so(&rt, rt.alloc(), list(rt.alloc()), &parts, answer));
    }
}

/// The name of the only record, of the first one, and of the last one.
const WITHOUT_NUL: &[&[u8]] = &[
    b"\x05\0\0\0\0\0\0\0\x01\0\0\0\0\0\0\0\x18\0\x08abcde",
    b"\x05\0\0\0\0\0\0\0\x01\0\0\0\0\0\0\0\x18\0\x08abcde\
        \x06\0\0\0\0\0\0\0\x02\0\0\0\0\0\0\0\x18\0\x08b\0\0\0\0",
    b"\x05\0\0\0\0\0\0\0\x01\0\0\0\0\0\0\0\x18\0\x08a\0\0\0\0\
        \x06\0\0\0\0\0\0\0\x02\0\0\0\0\0\0\0\x18\0\x08bcdef",
];

#[test]
fn a_name_without_a_nul_is_no_entry(rt: HostRuntime) {
    for bytes in WITHOUT_NUL {
        let parts = [PINS, &[Acts(LISTS, Told::Bytes(*bytes))], UNPINS];
        assert!(rt; ends_so(&rt, rt.alloc(), list(rt.alloc()), &parts, b" Refused 5"));
    }
}

/// A byte of a record, all before its name, all but its last byte; the same of a second one.
const CUT_OFF: &[&[u8]] = &[
    b"\x05",
    b"\x05\0\0\0\0\0\0\0\x01\0\0\0\0\0\0\0\x18\0\x08",
    b"\x05\0\0\0\0\0\0\0\x01\0\0\0\0\0\0\0\x18\0\x08a\0\0\0",
    b"\x05\0\0\0\0\0\0\0\x01\0\0\0\0\0\0\0\x18\0\x08a\0\0\0\0\x06",
    b"\x05\0\0\0\0\0\0\0\x01\0\0\0\0\0\0\0\x18\0\x08a\0\0\0\0\
        \x06\0\0\0\0\0\0\0\x02\0\0\0\0\0\0\0\x18\0\x08",
    b"\x05\0\0\0\0\0\0\0\x01\0\0\0\0\0\0\0\x18\0\x08a\0\0\0\0\
        \x06\0\0\0\0\0\0\0\x02\0\0\0\0\0\0\0\x18\0\x08b\0\0\0",
];

#[test]
fn bytes_that_are_cut_off_are_no_entries(rt: HostRuntime) {
    for bytes in CUT_OFF {
        let parts = [PINS, &[Acts(LISTS, Told::Bytes(*bytes))], UNPINS];
        assert!(rt; ends_so(&rt, rt.alloc(), list(rt.alloc()), &parts, b" Refused 5"));
    }
}

/// Records that say that they are 0, 19 and 32 bytes long; a byte behind a name's NUL, and more NULs than fill it up.
const ODD: &[&[u8]] = &[
    b"\x05\0\0\0\0\0\0\0\x01\0\0\0\0\0\0\0\0\0\x08a\0\0\0\0",
    b"\x05\0\0\0\0\0\0\0\x01\0\0\0\0\0\0\0\x13\0\x08a\0\0\0\0",
    b"\x05\0\0\0\0\0\0\0\x01\0\0\0\0\0\0\0\x20\0\x08a\0\0\0\0",
    b"\x05\0\0\0\0\0\0\0\x01\0\0\0\0\0\0\0\x18\0\x08a\0\0b\0",
    b"\x05\0\0\0\0\0\0\0\x01\0\0\0\0\0\0\0\x18\0\x08a\0\0\0\0\0\0\0\0\0\0\0\0",
];

#[test]
fn records_of_another_form_are_no_entries(rt: HostRuntime) {
    for bytes in ODD {
        let parts = [PINS, &[Acts(LISTS, Told::Bytes(*bytes))], UNPINS];
        assert!(rt; ends_so(&rt, rt.alloc(), list(rt.alloc()), &parts, b" Refused 5"));
    }
}
