use pt_text::read_number;
use std::alloc::{AllocError, Global};

/// The front of a line: a text that stands so many times, and what is behind it.
#[derive(Clone, Copy)]
struct Front<'a> {
    text: &'a [u8],
    times: u64,
    rest: &'a [u8],
}

// A run `N*B` and what is behind it.
fn first_run(line: &[u8]) -> Option<Front<'_>> {
    let place = line.iter().position(|b| *b == b'*')?;
    let times = read_number(&line[..place])?;
    let text = &line[place + 1..];
    let length = match text {
        [b'%', _, _, ..] => 3,
        [_, ..] => 1,
        [] => return None,
    };
    Some(Front {
        text: &text[..length],
        times,
        rest: &text[length..],
    })
}

fn first_part(line: &[u8]) -> Option<Front<'_>> {
    match line {
        [b'%', b'*', run @ ..] => first_run(run),
        [_, rest @ ..] => Some(Front {
            text: &line[..1],
            times: 1,
            rest,
        }),
        [] => Some(Front {
            text: line,
            times: 0,
            rest: line,
        }),
    }
}

/// The line with its runs `%*N*B` written out. None where one is none.
pub fn written_out(alloc: Global, line: &[u8]) -> Result<Option<Vec<u8>>, AllocError> {
    let mut out = Vec::new(alloc);
    let mut left = line;
    // each part takes a byte of the line at least
    for _ in 0..line.len() {
        let Some(front) = first_part(left) else {
            return Ok(None);
        };
        for _ in 0..front.times {
            out.extend_from_slice(front.text)?;
        }
        left = front.rest;
    }
    Ok(Some(out))
}
