use crate::orders::whole::{FIRST, FOURTH, SECOND, THIRD, Whole};

/// A name is moved beside lookups of it and of the name that it gets.
pub const RENAMED: Whole<'_> = Whole {
    name: "a rename and lookups of both names",
    head: "set guest_fd_limit 10\nmount 1 1 / 1\nfile /a 0o644 0 0 hi\njob 0 0 init 0\n\
        job 0 0 rename 1 a 1 b 0\njob 0 0 lookup 1 a\njob 0 0 lookup 1 b\norder 0 0 0 0 0",
    begun: 5,
    jobs: [FIRST, SECOND, THIRD],
    slots: 10,
};

/// Two names are exchanged beside lookups of both.
pub const EXCHANGED: Whole<'_> = Whole {
    name: "an exchange and lookups of both names",
    head: "set guest_fd_limit 10\nmount 1 1 / 1\nfile /a 0o644 0 0 hi\nfile /b 0o644 0 0 ho\njob 0 0 init 0\n\
        job 0 0 rename 1 a 1 b 2\njob 0 0 lookup 1 a\njob 0 0 lookup 1 b\norder 0 0 0 0 0",
    begun: 5,
    jobs: [FIRST, SECOND, THIRD],
    slots: 10,
};

/// A name is moved onto one whose file has a number, which is looked up and forgotten.
pub const REPLACED: Whole<'_> = Whole {
    name: "a rename onto a name that is looked up and forgotten",
    head: "set guest_fd_limit 10\nmount 1 1 / 1\nfile /a 0o644 0 0 hi\nfile /b 0o644 0 0 ho\njob 0 0 init 0\n\
        job 0 0 lookup 1 b\njob 0 0 rename 1 a 1 b 0\njob 0 0 lookup 1 b\njob 0 0 forget 2 1\n\
        order 0 0 0 0 0 1 1 1 1 1 1 1 1 1 4",
    begun: 15,
    jobs: [SECOND, THIRD, FOURTH],
    slots: 10,
};

/// A directory is moved onto an empty one, while a name in it is looked up, and forgotten.
pub const MOVED: Whole<'_> = Whole {
    name: "a rename of a directory that is looked in and forgotten",
    head: "set guest_fd_limit 10\nmount 1 1 / 1\ndir /d 0o755 0 0\nfile /d/x 0o644 0 0 hi\ndir /e 0o755 0 0\n\
        job 0 0 init 0\njob 0 0 lookup 1 d\njob 0 0 rename 1 d 1 e 0\njob 0 0 lookup 2 x\njob 0 0 forget 2 1\n\
        order 0 0 0 0 0 1 1 1 1 1 1 1 1 1 4",
    begun: 15,
    jobs: [SECOND, THIRD, FOURTH],
    slots: 10,
};

/// A name is taken from a file that has a number, which is looked up and forgotten.
pub const UNLINKED: Whole<'_> = Whole {
    name: "an unlink of a name that is looked up and forgotten",
    head: "set guest_fd_limit 10\nmount 1 1 / 1\nfile /a 0o644 0 0 hi\njob 0 0 init 0\njob 0 0 lookup 1 a\n\
        job 0 0 unlink 1 a\njob 0 0 lookup 1 a\njob 0 0 forget 2 1\norder 0 0 0 0 0 1 1 1 1 1 1 1 1 1 4",
    begun: 15,
    jobs: [SECOND, THIRD, FOURTH],
    slots: 10,
};
