use std::alloc::{AllocError, Global};

/// Two lookups beside each other, and a forget.
#[derive(Clone, Copy)]
pub struct Beside<'a> {
    pub name: &'a str,
    /// The lines of the script up to those of the order.
    pub head: &'a str,
    /// The jobs of the two and of the forget, as words.
    pub jobs: [&'a [u8]; 3],
    /// How many steps of the forget, two at most, are put among those of the two.
    pub forgotten: u32,
    /// How many steps of each of the two are put in every order, the sets of that many among both, and how many
    /// places there are.
    pub steps: u32,
    pub masks: u32,
    pub places: u32,
    /// How the reports may end, by a plain count.
    pub ends: &'a [&'a [u8]],
}

/// The lines of `NUMBERED`.
pub const NUMBERED_HEAD: &str =
    "set guest_fd_limit 10\nmount 1 1 / 1\nfile /a 0o644 0 0 hi\nfile /b 0o644 0 0 hi\njob 0 0 init 0\n\
    job 0 0 lookup 1 a\njob 0 0 lookup 1 a\njob 0 0 lookup 1 b\njob 0 0 lookup 1 a\njob 0 0 lookup 1 b\n\
    job 0 0 forget 2 1\norder 0 0 0 0 0 1 1 1 1 1 1 1 1 1 2 2 2 2 2 2 2 3 3 3 3 3 3 3 3 3";

/// Both names have a number, and `/a` has been looked up twice. So the forget leaves it its number, and the lookups
/// take seven steps each.
pub const NUMBERED: Beside<'_> = Beside {
    name: "numbers that are there",
    head: NUMBERED_HEAD,
    jobs: [b" 4", b" 5", b" 6"],
    forgotten: 2,
    steps: 7,
    masks: 1 << 14,
    places: 16,
    ends: &[
        b"\nanswer 6 NoReply\nlive 1 2\nlive 2 2\nlive 3 2\nslots 7\nobj / 1 1 1 16877 2 0 0 0 %-\n\
            obj /a 2 1 1 33188 1 0 0 0 hi\nobj /b 3 1 1 33188 1 0 0 0 hi\nend\n",
    ],
};

/// The file was looked up once. So a forget that comes before both claims ends its number, and the lookups give it
/// one new number.
pub const FORGOTTEN: Beside<'_> = Beside {
    name: "a number that is forgotten",
    head: "set guest_fd_limit 10\nmount 1 1 / 1\nfile /a 0o644 0 0 hi\nfile /b 0o644 0 0 hi\njob 0 0 init 0\n\
        job 0 0 lookup 1 a\njob 0 0 lookup 1 a\njob 0 0 lookup 1 a\njob 0 0 forget 2 1\n\
        order 0 0 0 0 0 1 1 1 1 1 1 1 1 1",
    jobs: [b" 2", b" 3", b" 4"],
    forgotten: 2,
    steps: 5,
    masks: 1 << 10,
    places: 12,
    ends: &[
        b"\nanswer 4 NoReply\nlive 1 2\nlive 2 2\nslots 8\nobj / 1 1 1 16877 2 0 0 0 %-\n\
            obj /a 2 1 1 33188 1 0 0 0 hi\nobj /b 3 1 1 33188 1 0 0 0 hi\nend\n",
        b"\nanswer 4 NoReply\nlive 1 2\nlive 3 2\nslots 8\nobj / 1 1 1 16877 2 0 0 0 %-\n\
            obj /a 2 1 1 33188 1 0 0 0 hi\nobj /b 3 1 1 33188 1 0 0 0 hi\nend\n",
    ],
};

/// Nothing has a number but the root. Each lookup may come first, and take the number that it drew.
pub const NEW: Beside<'_> = Beside {
    name: "a new number",
    head: "set guest_fd_limit 10\nmount 1 1 / 1\nfile /a 0o644 0 0 hi\nfile /b 0o644 0 0 hi\njob 0 0 init 0\n\
        job 0 0 lookup 1 a\njob 0 0 lookup 1 a\norder 0 0 0 0 0",
    jobs: [b" 1", b" 2", b""],
    forgotten: 0,
    steps: 9,
    masks: 1 << 18,
    places: 18,
    ends: &[
        b"\nlive 1 2\nlive 2 2\nslots 8\nobj / 1 1 1 16877 2 0 0 0 %-\n\
            obj /a 2 1 1 33188 1 0 0 0 hi\nobj /b 3 1 1 33188 1 0 0 0 hi\nend\n",
        b"\nlive 1 2\nlive 3 2\nslots 8\nobj / 1 1 1 16877 2 0 0 0 %-\n\
            obj /a 2 1 1 33188 1 0 0 0 hi\nobj /b 3 1 1 33188 1 0 0 0 hi\nend\n",
    ],
};

impl Beside<'_> {
    /// The script in which the two take their steps as the mask says, and the forget its own at these places.
    pub fn script(&self, alloc: Global, mask: u32, forget: &[u32]) -> Result<Vec<u8>, AllocError> {
        let mut text = self.head.as_bytes().to_vec(alloc)?;
        text.extend_from_slice(b"\norder")?;
        let mut left = mask;
        for place in 0..self.places {
            if forget.contains(&place) {
                text.extend_from_slice(self.jobs[2])?;
            } else {
                text.extend_from_slice(self.jobs[(left % 2) as usize])?;
                left /= 2;
            }
        }
        text.extend_from_slice(b"\nend\n")?;
        Ok(text)
    }
}
