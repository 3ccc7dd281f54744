use crate::orders::beside::NUMBERED_HEAD;
use std::alloc::{AllocError, Global};

/// A job of a script, as it stands in an order and in front of its steps.
#[derive(Clone, Copy)]
pub struct Job<'a> {
    pub place: &'a [u8],
    pub step: &'a [u8],
}

pub const FIRST: Job<'_> = Job {
    place: b" 1",
    step: b"step 1 ",
};

pub const SECOND: Job<'_> = Job {
    place: b" 2",
    step: b"step 2 ",
};

pub const THIRD: Job<'_> = Job {
    place: b" 3",
    step: b"step 3 ",
};

pub const FOURTH: Job<'_> = Job {
    place: b" 4",
    step: b"step 4 ",
};

const FIFTH: Job<'_> = Job {
    place: b" 5",
    step: b"step 5 ",
};

const SIXTH: Job<'_> = Job {
    place: b" 6",
    step: b"step 6 ",
};

/// Three jobs whose steps are put in every order.
#[derive(Clone, Copy)]
pub struct Whole<'a> {
    pub name: &'a str,
    /// The lines of the script up to the first of these steps, and how many steps come before.
    pub head: &'a str,
    pub begun: usize,
    pub jobs: [Job<'a>; 3],
    /// How many slots the guest has.
    pub slots: u64,
}

/// The lookups and the forget of which each order is run by itself, too.
pub const LOOKED_UP: Whole<'_> = Whole {
    name: "whole lookups of numbers that are there",
    head: NUMBERED_HEAD,
    begun: 30,
    jobs: [FOURTH, FIFTH, SIXTH],
    slots: 10,
};

/// The file has a number, with a count of one: both creates find the name there, and so their lookups the number,
/// unless it was forgotten before.
pub const THERE: Whole<'_> = Whole {
    name: "whole creates of a name that is there",
    head: "set guest_fd_limit 10\nmount 1 1 / 1\nfile /a 0o644 0 0 hi\njob 0 0 init 0\njob 0 0 lookup 1 a\n\
        job 0 0 create 1 a 0o644 0 0o2 0 - -\njob 0 0 create 1 a 0o644 0 0o2 0 - -\njob 0 0 forget 2 1\n\
        order 0 0 0 0 0 1 1 1 1 1 1 1 1 1 4",
    begun: 15,
    jobs: [SECOND, THIRD, FOURTH],
    slots: 10,
};

/// The same, and the guest forgets more than it was told of: what a create was given may be gone before it opens
/// that.
pub const TOO_MUCH: Whole<'_> = Whole {
    name: "whole creates of a name that is forgotten too much",
    head: "set guest_fd_limit 10\nmount 1 1 / 1\nfile /a 0o644 0 0 hi\njob 0 0 init 0\njob 0 0 lookup 1 a\n\
        job 0 0 create 1 a 0o644 0 0o2 0 - -\njob 0 0 create 1 a 0o644 0 0o2 0 - -\njob 0 0 forget 2 3\n\
        order 0 0 0 0 0 1 1 1 1 1 1 1 1 1 4",
    begun: 15,
    jobs: [SECOND, THIRD, FOURTH],
    slots: 10,
};

/// The same, and one slot is left for the two handles: one create gives its count back.
pub const ONE_SLOT: Whole<'_> = Whole {
    name: "whole creates with a slot for one of them",
    head: "set guest_fd_limit 3\nmount 1 1 / 1\nfile /a 0o644 0 0 hi\njob 0 0 init 0\njob 0 0 lookup 1 a\n\
        job 0 0 create 1 a 0o644 0 0o2 0 - -\njob 0 0 create 1 a 0o644 0 0o2 0 - -\njob 0 0 forget 2 1\n\
        order 0 0 0 0 0 1 1 1 1 1 1 1 1 1 4",
    begun: 15,
    jobs: [SECOND, THIRD, FOURTH],
    slots: 3,
};

/// There is no such name: either create may make the file, which the other finds.
pub const MADE: Whole<'_> = Whole {
    name: "whole creates of a new name",
    head: "set guest_fd_limit 10\nmount 1 1 / 1\njob 0 0 init 0\n\
        job 0 0 create 1 f 0o644 0 0o2 0 - -\njob 0 0 create 1 f 0o600 0 0o2 0 - -\njob 0 0 forget 2 1\n\
        order 0 0 0 0 0 3",
    begun: 6,
    jobs: [FIRST, SECOND, THIRD],
    slots: 10,
};

/// The same, the one with `O_EXCL` and under a guest's identity: it is refused where it comes second.
pub const EXCLUSIVE: Whole<'_> = Whole {
    name: "whole creates of a new name, one of them with O_EXCL",
    head: "set guest_fd_limit 10\nmount 1 1 / 1\njob 0 0 init 0\n\
        job 0 0 create 1 f 0o644 0 0o2 0 - -\njob 1000 1000 create 1 f 0o600 0 0o202 0 - -\njob 0 0 forget 2 1\n\
        order 0 0 0 0 0 3",
    begun: 6,
    jobs: [FIRST, SECOND, THIRD],
    slots: 10,
};

impl Whole<'_> {
    /// The script whose order goes on so; the rest follows job by job.
    pub fn script(&self, alloc: Global, prefix: &[u8]) -> Result<Vec<u8>, AllocError> {
        let mut text = self.head.as_bytes().to_vec(alloc)?;
        text.extend_from_slice(prefix)?;
        text.extend_from_slice(b"\nend\n")?;
        Ok(text)
    }
}
