use std::alloc::{AllocError, Global};

/// What the steps of a report gave and did not take back.
#[derive(Drop)]
pub struct Given {
    /// How often each small number.
    counts: [u64; 8],
    /// How many handles.
    handles: u64,
    /// The steps that put in a number or a handle, in their order.
    puts: Vec<u8>,
}

impl Given {
    /// By the steps of a report, but for the line at this place. The root is given twice.
    pub fn by_steps(
        alloc: Global,
        report: &[u8],
        left_out: Option<usize>,
    ) -> Result<Self, AllocError> {
        let mut given = Given {
            counts: [0, 2, 0, 0, 0, 0, 0, 0],
            handles: 0,
            puts: Vec::new(alloc),
        };
        for (place, line) in report.split(|byte| *byte == b'\n').enumerate() {
            if is_counted(line) && left_out != Some(place) {
                let words = words_of(alloc, line)?;
                given.heed(words.as_slice());
                if is_told(words.as_slice(), b"Inserted") {
                    given.puts.extend_from_slice(line)?;
                }
            }
        }
        Ok(given)
    }

    /// Appends what was put in, and the counts.
    pub fn write(&self, out: &mut Vec<u8>) -> Result<(), AllocError> {
        out.extend_from_slice(self.puts.as_slice())?;
        for count in self.counts.as_slice() {
            out.extend_from_slice(count.to_le_bytes().as_slice())?;
        }
        Ok(())
    }

    fn left(&self, number: u64) -> u64 {
        self.counts.get(number as usize).copied().unwrap_or(0)
    }

    fn give(&mut self, number: u64) {
        if let Some(count) = self.counts.get_mut(number as usize) {
            *count = count.saturating_add(1);
        }
    }

    /// So much of it, or what there is.
    fn take(&mut self, number: u64, much: u64) {
        if let Some(count) = self.counts.get_mut(number as usize) {
            *count = count.saturating_sub(much);
        }
    }

    /// What the words of a step give or take back.
    fn heed(&mut self, words: &[&[u8]]) {
        let last = words.len().saturating_sub(1);
        let number = number_at(words, 4);
        if is_at(words, 2, b"Claim") && is_told(words, b"Claimed")
            || is_at(words, 2, b"Insert") && is_told(words, b"Inserted")
            || is_at(words, 2, b"Insert") && is_told(words, b"Found")
        {
            self.give(number_at(words, last));
        } else if is_at(words, 2, b"Forget") && is_told(words, b"Done") {
            self.take(number, number_at(words, 5));
        } else if is_at(words, 2, b"GiveBack") && is_told(words, b"Done") {
            self.take(number, 1);
        } else if is_at(words, 2, b"InsertHandle") && is_told(words, b"Inserted") {
            self.handles = self.handles.saturating_add(1);
        }
    }

    fn all(&self) -> u64 {
        let mut all: u64 = 0;
        for count in self.counts.as_slice() {
            all = all.saturating_add(*count);
        }
        all
    }
}

// Whether it is a step of an event that may give, take back or put in.
fn is_counted(line: &[u8]) -> bool {
    let mut words = line.split(|byte| *byte == b' ').skip(2);
    match words.next() {
        Some(event) => {
            event == b"Claim".as_slice()
                || event.starts_with(b"Insert")
                || event == b"Forget".as_slice()
                || event == b"GiveBack".as_slice()
        }
        None => false,
    }
}

fn words_of(alloc: Global, line: &[u8]) -> Result<Vec<&[u8]>, AllocError> {
    line.split(|byte| *byte == b' ').collect(alloc)
}

fn is_at(words: &[&[u8]], place: usize, word: &[u8]) -> bool {
    match words.get(place) {
        Some(there) => *there == word,
        None => false,
    }
}

// Whether the reply, which has one field, is this.
fn is_told(words: &[&[u8]], word: &[u8]) -> bool {
    is_at(words, words.len().saturating_sub(2), word)
}

fn number_at(words: &[&[u8]], place: usize) -> u64 {
    let Some(word) = words.get(place) else {
        return 0;
    };
    let mut number: u64 = 0;
    for digit in *word {
        let value = u64::from(digit.saturating_sub(b'0'));
        number = number.saturating_mul(10).saturating_add(value);
    }
    number
}

/// Whether the live numbers and the handles of a report are those that its steps, but for the line at this place,
/// gave and did not take back, each number with its count, and all slots but theirs are left.
pub fn agrees(
    alloc: Global,
    report: &[u8],
    slots: u64,
    left_out: Option<usize>,
) -> Result<bool, AllocError> {
    let given = Given::by_steps(alloc, report, left_out)?;
    let mut counts: u64 = 0;
    let mut lives: u64 = 0;
    let mut handles: u64 = 0;
    let mut left: u64 = 0;
    for line in report.split(|byte| *byte == b'\n') {
        let words = words_of(alloc, line)?;
        let words = words.as_slice();
        if is_at(words, 0, b"live") {
            if given.left(number_at(words, 1)) != number_at(words, 2) {
                return Ok(false);
            }
            counts = counts.saturating_add(number_at(words, 2));
            lives = lives.saturating_add(1);
        } else if is_at(words, 0, b"handle") {
            handles = handles.saturating_add(1);
        } else if is_at(words, 0, b"slots") {
            left = number_at(words, 1);
        }
    }
    let held = lives.saturating_add(handles);
    Ok(counts == given.all() && handles == given.handles && left.saturating_add(held) == slots)
}

/// How many times a step was left out, and how often the report agreed for all that.
#[derive(Clone, Copy)]
pub struct LeftOut {
    pub steps: u64,
    pub agreeing: u64,
}

impl LeftOut {
    /// Leaves each step of this event out in turn.
    pub fn count(
        &mut self,
        alloc: Global,
        report: &[u8],
        slots: u64,
        event: &[u8],
    ) -> Result<(), AllocError> {
        for (place, line) in report.split(|byte| *byte == b'\n').enumerate() {
            let words = words_of(alloc, line)?;
            if is_at(words.as_slice(), 0, b"step") && is_at(words.as_slice(), 2, event) {
                self.steps = self.steps.saturating_add(1);
                if agrees(alloc, report, slots, Some(place))? {
                    self.agreeing = self.agreeing.saturating_add(1);
                }
            }
        }
        Ok(())
    }
}
