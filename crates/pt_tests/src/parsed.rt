use pt_fs::Job;
use pt_host::Caps;
use pt_iface::Request;
use pt_script::{Identity, ParseError, Script, parse};
use std::test::Fail;

/// What no report shows: who asks, what is offered, whether set-id bits are to go, the seat's numbers.
const TEXT: &[u8] =
    b"set seat 1000 100 0o77\nset guest_fd_limit 7\nmount 1 1 / 1\njob 5 6 lookup 1 a\n\
    job 0 0 init 513\njob 0 0 open 2 1 0o1\nend\n";

/// Whether the jobs are those of the text.
fn asks_as_written(script: &Script) -> bool {
    match script.jobs.as_slice() {
        [
            Job::Request(who, _, _),
            Job::Request(_, _, Request::Init { capable }),
            Job::Request(_, _, Request::Open { kill: true, .. }),
        ] => who.uid == 5 && who.gid == 6 && capable.0 == 513,
        _ => false,
    }
}

/// Whether the seat and the limit are those of the text.
fn is_set_as_written(script: &Script) -> bool {
    let who = Identity {
        uid: 1000,
        gid: 100,
        caps: Caps(63),
    };
    script.settings.seat == Some(who) && script.settings.guest_fd_limit == Some(7)
}

#[test]
fn what_no_report_shows_is_parsed(rt: HostRuntime) -> Result<(), Fail> {
    let script = match parse(rt.alloc(), TEXT) {
        Ok(script) => script,
        Err(_) => return Err(Fail::from("no script")),
    };
    assert!(rt; asks_as_written(&script));
    assert!(rt; is_set_as_written(&script));
    Ok(())
}

#[test]
fn a_script_without_an_end_is_bad(rt: HostRuntime) {
    let bad = parse(rt.alloc(), b"mount 1 1 / 1\n");
    assert!(rt; matches!(&bad, Err(ParseError::BadScript(2))));
}
