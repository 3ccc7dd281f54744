//! The cases of a text, line by line.

use crate::calls;
use crate::case::Case;
use crate::lines::{Line, begins_case, lines_of, push_line};
use handle_calls::Made;
use handle_values::Trouble;
use pt_host::{Fd, Host, HostOp, HostReply, HostValue};
use pt_script::{next_fault, next_identity, next_tree_line};
use pt_show::Text;
use pt_text::{Parts, push_text};
use pt_words::next_word;
use std::alloc::{AllocError, Global};

/// How a text ended.
#[derive(Clone, Copy)]
pub enum Ending {
    Good,
    /// By a bad line, which was told.
    Bad,
}

/// The case whose lines come, once there was a line.
#[derive(Drop)]
struct Subject {
    alloc: Global,
    case: Case,
    has_lines: bool,
}

fn is_of_tree(word: &[u8]) -> bool {
    matches!(
        word,
        b"mount" | b"dir" | b"file" | b"link" | b"spec" | b"hard" | b"xattr"
    )
}

/// A line `set seat`, whose words behind the first these are.
fn take_seat(case: &mut Case, words: &mut Parts<'_>) -> Result<(), Trouble> {
    match next_word(words)? {
        b"seat" => case.set_seat(next_identity(words)?),
        _ => Err(Trouble::Bad),
    }
}

/// Takes a line that stands before the calls, if it is one.
fn take_start(case: &mut Case, line: &Line<'_>) -> Result<bool, Trouble> {
    let mut words = Parts::words(line.text);
    let word = next_word(&mut words)?;
    if is_of_tree(word) {
        let told = next_tree_line(case.alloc, word, &mut words)?;
        case.take_tree_line(told, line.number)?;
        return Ok(true);
    }
    match word {
        b"set" => take_seat(case, &mut words)?,
        b"fault" => case.plan(next_fault(&mut words)?)?,
        _ => return Ok(false),
    }
    Ok(true)
}

/// The descriptors that are open at the end, and the tree.
fn push_end(made: &mut Made, alloc: Global, out: &mut Vec<u8>) -> Result<(), Trouble> {
    for number in 3..41 {
        let fd = Fd(number);
        if let HostReply::Ok(HostValue::Stat(stat)) = made
            .host
            .call(&mut made.seat, &HostOp::Stat { fd })
        {
            push_text(out, b"open")?;
            fd.write(out)?;
            stat.ids.write(out)?;
            push_text(out, b"\n")?;
        }
    }
    match made.host.listing(alloc) {
        Ok(listing) => push_text(out, listing.as_slice())?,
        Err(_) => return Err(Trouble::Memory),
    }
    Ok(())
}

impl Subject {
    fn new(alloc: Global) -> Self {
        Subject {
            alloc,
            case: Case::new(alloc),
            has_lines: false,
        }
    }

    /// Ends a case, unless no line of it was there.
    fn end_case(&mut self, out: &mut Vec<u8>) -> Result<(), Trouble> {
        if !self.has_lines {
            return Ok(());
        }
        push_end(&mut self.case.calls()?.made, self.alloc, out)
    }

    /// Ends the case, and begins the one that a line names.
    fn begin_case(&mut self, line: &[u8], out: &mut Vec<u8>) -> Result<(), Trouble> {
        self.end_case(out)?;
        self.case = Case::new(self.alloc);
        self.has_lines = true;
        Ok(push_line(out, line)?)
    }

    /// What a line does, and what it tells, which is put behind `out`. How many lines behind it were taken too.
    fn take(&mut self, line: &Line<'_>, out: &mut Vec<u8>) -> Result<usize, Trouble> {
        if begins_case(line.text) {
            self.begin_case(line.text, out)?;
            return Ok(0);
        }
        self.has_lines = true;
        if take_start(&mut self.case, line)? {
            return Ok(0);
        }
        calls::take(&mut self.case, line, out)
    }

    /// The number of the line that was bad, where this one could not be taken: lines of a tree are judged when it is
    /// made.
    fn bad_line(&mut self, why: Trouble, number: u64) -> Result<u64, AllocError> {
        match why {
            Trouble::At(earlier) => Ok(earlier),
            Trouble::Memory => Err(AllocError),
            Trouble::Bad => match self.case.calls() {
                Err(Trouble::At(earlier)) => Ok(earlier),
                Err(Trouble::Memory) => Err(AllocError),
                Ok(_) | Err(Trouble::Bad) => Ok(number),
            },
        }
    }

    /// What is told of a line that could not be taken.
    fn tell_bad(
        &mut self,
        why: Trouble,
        number: u64,
        out: &mut Vec<u8>,
    ) -> Result<Ending, AllocError> {
        let number = self.bad_line(why, number)?;
        push_text(out, b"bad line")?;
        number.write(out)?;
        push_text(out, b"\n")?;
        Ok(Ending::Bad)
    }
}

/// Takes these lines, and tells what comes of them.
fn take_lines(
    subject: &mut Subject,
    lines: &[&[u8]],
    out: &mut Vec<u8>,
) -> Result<Ending, AllocError> {
    let mut number: u64 = 0;
    let mut passed: usize = 0;
    for (place, text) in lines.iter().enumerate() {
        number = number.saturating_add(1);
        if passed > 0 {
            passed -= 1;
            continue;
        }
        let line = Line {
            alloc: subject.alloc,
            text: *text,
            behind: lines.get(place.saturating_add(1)..).unwrap_or(lines),
            number,
        };
        match subject.take(&line, out) {
            Ok(taken) => passed = taken,
            Err(why) => return subject.tell_bad(why, number, out),
        }
    }
    match subject.end_case(out) {
        Ok(()) => Ok(Ending::Good),
        Err(why) => subject.tell_bad(why, number, out),
    }
}

/// Takes the lines of a text, and tells what comes of them.
pub fn tell_cases(alloc: Global, text: &[u8], out: &mut Vec<u8>) -> Result<Ending, AllocError> {
    let lines = lines_of(alloc, text)?;
    let mut subject = Subject::new(alloc);
    take_lines(&mut subject, lines.as_slice(), out)
}
