use crate::events::case::Case;
use crate::events::many::answer_each;
use crate::trouble::Trouble;
use pt_session::{ByClass, one_limit};
use pt_show::Text;
use pt_text::{Parts, push_text};
use pt_words::{end, next_number, next_word};

// What stands behind the first word.
fn behind_word(text: &[u8]) -> Result<&[u8], Trouble> {
    match text.iter().position(|b| *b == b' ') {
        Some(place) => Ok(&text[place + 1..]),
        None => Err(Trouble::Bad),
    }
}

// A line `for FROM TO EVENT`, whose words behind the first one these are.
fn take_each(
    case: &mut Case,
    line: &[u8],
    words: &mut Parts<'_>,
    out: &mut Vec<u8>,
) -> Result<(), Trouble> {
    let from = next_number(words)?;
    let to = next_number(words)?;
    let event = behind_word(behind_word(behind_word(line)?)?)?;
    let replies = answer_each(case, from, to, event)?;
    push_text(out, line)?;
    push_text(out, b" =")?;
    replies.first.write(out)?;
    push_text(out, b" ..")?;
    replies.last.write(out)?;
    push_text(out, b" refused")?;
    replies.refused.write(out)?;
    push_text(out, b"\n")?;
    Ok(())
}

// The limits of a session's classes, which the words that are left are.
fn limits_of(words: &mut Parts<'_>) -> Result<ByClass, Trouble> {
    let mut limits = one_limit(next_number(words)?);
    for _ in 1..65 {
        if end(words).is_ok() {
            break;
        }
        if limits.try_push(next_number(words)?).is_err() {
            return Err(Trouble::Bad);
        }
    }
    end(words)?;
    Ok(limits)
}

/// What a line does to the case, and what it tells, which is put behind `out`.
pub fn take(case: &mut Case, line: &[u8], out: &mut Vec<u8>) -> Result<(), Trouble> {
    let mut words = Parts::words(line);
    match next_word(&mut words)? {
        b"session" => {
            let limits = limits_of(&mut words)?;
            case.begin(limits)?;
        }
        b"tables" => {
            end(&words)?;
            case.push_tables(out)?;
        }
        b"for" => take_each(case, line, &mut words, out)?,
        _ => {
            let reply = case.answer(line)?;
            push_text(out, line)?;
            push_text(out, b" =")?;
            reply.write(out)?;
            push_text(out, b"\n")?;
        }
    }
    Ok(())
}
