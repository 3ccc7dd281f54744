//! Identities, capabilities and masks, taken on and given back, over a host whose calls may be planned to fail.

ghost use Rattle.pt_creds.specs.Identity.{IsWhole};

use crate::planned::Planned;
use pt_creds::{CredError, ScopedUmask, UnixCredentials, drop_effective_cap};
use pt_host::{Caps, Errno, HostSeat};
use std::alloc::{AllocError, Global};

fn number_in(words: &[&str], place: usize) -> u32 {
    match words.get(place) {
        Some(word) => word.parse::<u32>().unwrap_or(0),
        None => 0,
    }
}

/// What each call fails with: an error number, or `-` where it does not.
fn plan_of(alloc: Global, words: &[&str]) -> Result<Vec<Option<Errno>>, AllocError> {
    let mut plan = Vec::new(alloc);
    for word in words {
        let failure = match word.parse::<i32>() {
            Ok(number) => Some(Errno(number)),
            Err(_) => None,
        };
        plan.push(failure)?;
    }
    Ok(plan)
}

/// Of one identity, with these capabilities, the group 5 and the mask 18.
fn a_seat(uid: u32, gid: u32, caps: u32) -> HostSeat
    ensures { IsWhole result }
{
    let mut seat = HostSeat::new(uid, gid, Caps(caps));
    seat.groups.push(5);
    seat.umask = 18;
    seat
}

/// Effective uid, gid and capabilities, and the first group.
type Identity = (u32, u32, u32, Option<u32>);

fn identity(seat: &HostSeat) -> Identity {
    let group = seat.groups.as_slice().first().copied();
    (seat.eff_uid, seat.eff_gid, seat.eff_caps.0, group)
}

/// How something that was to be taken on and given back ended.
#[derive(Debug, Drop)]
enum End {
    Back,
    Unchanged,
    Failed(CredError),
}

fn end_of(restored: Result<(), CredError>) -> End {
    match restored {
        Ok(()) => End::Back,
        Err(error) => End::Failed(error),
    }
}

/// Takes the identity on and gives it back: who one was meanwhile, and how it ended.
fn there_and_back(
    creds: UnixCredentials,
    host: &mut Planned<'_>,
    seat: &mut HostSeat,
) -> (Identity, End)
    requires { IsWhole seat.old }
{
    match creds.set(host, seat) {
        Ok(Some(guard)) => {
            let meanwhile = identity(seat);
            let restored = guard.restore(host, seat);
            (meanwhile, end_of(restored))
        }
        Ok(None) => (identity(seat), End::Unchanged),
        Err(error) => (identity(seat), End::Failed(error)),
    }
}

/// Makes the capability not effective and then effective again.
fn without_cap(host: &mut Planned<'_>, seat: &mut HostSeat, cap: Caps) -> (Identity, End)
    requires { IsWhole seat.old }
{
    match drop_effective_cap(host, seat, cap) {
        Ok(Some(scope)) => {
            let meanwhile = identity(seat);
            let restored = scope.restore(host, seat);
            (meanwhile, end_of(restored))
        }
        Ok(None) => (identity(seat), End::Unchanged),
        Err(error) => (identity(seat), End::Failed(error)),
    }
}

fn text_of(alloc: Global, who: Identity) -> Result<String, AllocError> {
    let (uid, gid, caps, group) = who;
    match group {
        Some(group) => format!(in alloc; "{uid} {gid} {caps} {group}"),
        None => format!(in alloc; "{uid} {gid} {caps}"),
    }
}

/// Who one was meanwhile and is now, and what was made of the host.
fn ended(
    alloc: Global,
    meanwhile: Identity,
    end: End,
    seat: &HostSeat,
    host: &Planned<'_>,
) -> Result<String, AllocError> {
    let meanwhile = text_of(alloc, meanwhile)?;
    let now = text_of(alloc, identity(seat))?;
    format!(in alloc;
        "{meanwhile}, {end:?}, {now}, {} calls, {} faults",
        host.made, host.faults
    )
}

/// A group, or `-`.
fn group_of(word: &str) -> Option<u32> {
    match word.parse::<u32>() {
        Ok(group) => Some(group),
        Err(_) => None,
    }
}

/// The seat's uid, gid and capabilities; the uid, gid and group of who asks, the group `-` where none is given,
/// `unknown` where the extension is not supported, and `unknown:7` where the group 7 is given all the same; and what
/// the calls fail with.
pub fn creds(alloc: Global, words: &[&str]) -> Result<String, AllocError> {
    let mut seat = a_seat(
        number_in(words, 0),
        number_in(words, 1),
        number_in(words, 2),
    );
    let plan = plan_of(alloc, words.get(6..).unwrap_or(&[]))?;
    let mut host = Planned::new(plan.as_slice());
    let who = UnixCredentials::new(number_in(words, 3), number_in(words, 4));
    let who = match words.get(5) {
        Some(&"unknown") => who.supplementary_gid(false, None),
        Some(word) => match word.strip_prefix("unknown:") {
            Some(group) => who.supplementary_gid(false, group_of(group)),
            None => who.supplementary_gid(true, group_of(word)),
        },
        None => who,
    };
    let steps = who.steps(&seat);
    let (meanwhile, end) = there_and_back(who, &mut host, &mut seat);
    let rest = ended(alloc, meanwhile, end, &seat, &host)?;
    format!(in alloc;
        "{:?} {:?} {:?} {}, {rest}",
        steps.groups, steps.egid, steps.euid, steps.raise
    )
}

/// The seat's capabilities, the one to be dropped, and what the calls fail with.
pub fn cap(alloc: Global, words: &[&str]) -> Result<String, AllocError> {
    let mut seat = a_seat(0, 0, number_in(words, 0));
    let plan = plan_of(alloc, words.get(2..).unwrap_or(&[]))?;
    let mut host = Planned::new(plan.as_slice());
    let (meanwhile, end) = without_cap(&mut host, &mut seat, Caps(number_in(words, 1)));
    ended(alloc, meanwhile, end, &seat, &host)
}

/// The mask meanwhile and afterwards.
pub fn mask(alloc: Global, words: &[&str]) -> Result<String, AllocError> {
    let mut seat = a_seat(0, 0, 0);
    let mut host = Planned::new(&[]);
    let scope = ScopedUmask::new(&mut host, &mut seat, number_in(words, 0));
    let meanwhile = seat.umask;
    let restored = scope.restore(&mut host, &mut seat).is_ok();
    format!(in alloc;
        "{meanwhile}, then {}, {restored}, {} calls",
        seat.umask, host.made
    )
}
