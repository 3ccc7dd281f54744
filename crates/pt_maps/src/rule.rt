ghost use Rattle.std.specs.Prelude.{◌≡◌, IsTrue, false};
ghost use Rattle.pt_maps.specs.Rule.{source, host_id, guest_id, holds, is_past_end};
ghost use Rattle.pt_maps.specs.declared.rule.Direction.TheVariants.{ToHost, ToGuest};
ghost use Rattle.pt_maps.specs.declared.rule.IdRule.TheVariants.{ForbidGuest};

use crate::range::IdRange;

/// A rule for ids, as the options `--translate-uid` and `--translate-gid` of virtiofsd give it. Its numbers are the
/// first id of a range, what that id becomes, and how many ids the range has.
#[derive(Clone, Copy)]
pub enum IdRule {
    /// The guest's ids become ids of the host, one for one.
    Guest(u32, u32, u32),
    /// The host's ids become ids of the guest, one for one.
    Host(u32, u32, u32),
    /// The guest's ids all become one id of the host.
    SquashGuest(u32, u32, u32),
    /// The host's ids all become one id of the guest.
    SquashHost(u32, u32, u32),
    /// The guest may not use these ids.
    ForbidGuest(u32, u32),
    /// The guest's ids, from the first number on, and the host's, from the second on, become each other.
    Map(u32, u32, u32),
}

/// Which way ids are translated.
#[derive(Clone, Copy)]
pub(crate) enum Direction {
    ToHost,
    ToGuest,
}

impl IdRule {
    /// The ids of which the rule says something in a direction.
    pub(crate) fn source(self, direction: Direction) -> IdRange
        ensures { result ≡ source direction self }
    {
        match direction {
            Direction::ToHost => self.guest_ids(),
            Direction::ToGuest => self.host_ids(),
        }
    }

    fn guest_ids(self) -> IdRange
        ensures { result ≡ source ToHost self }
    {
        match self {
            IdRule::Guest(start, _, count)
            | IdRule::SquashGuest(start, _, count)
            | IdRule::ForbidGuest(start, count)
            | IdRule::Map(start, _, count) => IdRange { start, count },
            IdRule::Host(_, _, _) | IdRule::SquashHost(_, _, _) => IdRange { start: 0, count: 0 },
        }
    }

    fn host_ids(self) -> IdRange
        ensures { result ≡ source ToGuest self }
    {
        match self {
            IdRule::Host(start, _, count)
            | IdRule::SquashHost(start, _, count)
            | IdRule::Map(_, start, count) => IdRange { start, count },
            IdRule::Guest(_, _, _) | IdRule::SquashGuest(_, _, _) | IdRule::ForbidGuest(_, _) => {
                IdRange { start: 0, count: 0 }
            }
        }
    }

    /// Whether a range of the rule goes past the last id.
    pub(crate) fn is_past_end(self) -> bool
        ensures { result ≡ is_past_end self }
    {
        match self {
            IdRule::Guest(one, other, count)
            | IdRule::Host(one, other, count)
            | IdRule::Map(one, other, count) => ends_past(one, count) || ends_past(other, count),
            IdRule::SquashGuest(start, _, count)
            | IdRule::SquashHost(start, _, count)
            | IdRule::ForbidGuest(start, count) => ends_past(start, count),
        }
    }

    /// The host's id for one of the guest's in the rule's range, where it is not forbidden.
    pub(crate) fn host_id(self, id: u32) -> Option<u32>
        requires held { IsTrue (holds (source ToHost self) id) }
        requires fits { is_past_end self ≡ false }
        ensures { result ≡ host_id self id }
    {
        match self {
            IdRule::Guest(first, target, _) | IdRule::Map(first, target, _) => {
                Some(target + (id - first))
            }
            IdRule::SquashGuest(_, target, _) => Some(target),
            IdRule::ForbidGuest(_, _) => None,
            IdRule::Host(_, _, _) | IdRule::SquashHost(_, _, _) => Some(id),
        }
    }

    /// The guest's id for one of the host's in the rule's range.
    pub(crate) fn guest_id(self, id: u32) -> u32
        requires held { IsTrue (holds (source ToGuest self) id) }
        requires fits { is_past_end self ≡ false }
        ensures { result ≡ guest_id self id }
    {
        match self {
            IdRule::Host(first, target, _) | IdRule::Map(target, first, _) => target + (id - first),
            IdRule::SquashHost(_, target, _) => target,
            IdRule::Guest(_, _, _) | IdRule::SquashGuest(_, _, _) | IdRule::ForbidGuest(_, _) => id,
        }
    }
}

fn ends_past(start: u32, count: u32) -> bool
    ensures { result ≡ is_past_end (ForbidGuest start count) }
{
    IdRange { start, count }.end() > 1 << 32
}
