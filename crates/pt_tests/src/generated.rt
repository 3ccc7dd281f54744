use crate::streams::Drops;
use pt_run::{MemSink, MemSource, Status, run};
use pt_text::read_number;
use std::alloc::{AllocError, Global};
use std::test::Fail;

const ONE: &[u8] =
    b"jobs 1\nsteps 5\nok 1\nrefused 0\nnomem 0\nlive 1\nhandles 0\nslots 18446744073709551614\n";

/// The words of a line, which one space parts.
fn words_of(alloc: Global, line: &str) -> Result<Vec<String>, AllocError> {
    let mut words = Vec::new(alloc);
    for word in line.split(' ') {
        words.push(String::from_str(alloc, word)?)?;
    }
    Ok(words)
}

/// How the program ends with these words, and what it writes. Its source fails where it is asked.
fn run_of(alloc: Global, line: &str) -> Result<(Status, Vec<u8>), AllocError> {
    let words = words_of(alloc, line)?;
    let mut input = MemSource::new(Vec::new(alloc), vec![in alloc; 1]?);
    let mut output = MemSink::new(alloc, Vec::new(alloc));
    let status = run(alloc, words.as_slice(), &mut input, &mut output);
    Ok((status, output.as_slice().to_vec(alloc)?))
}

#[test]
fn one_generated_job_is_counted(rt: HostRuntime) -> Result<(), Fail> {
    for line in ["gen 1 7", "gen 1 0", "gen 1 18446744073709551615"] {
        let (status, written) = run_of(rt.alloc(), line)?;
        assert_eq!(rt; status, Status::Done);
        assert_eq!(rt; written.as_slice(), ONE);
    }
    Ok(())
}

#[test]
fn words_that_ask_for_nothing(rt: HostRuntime) -> Result<(), Fail> {
    for line in [
        "",
        "gen",
        "gen 1",
        "gen 1 7 7",
        "gen 0 7",
        "gen 10001 7",
        "gen 01 7",
        "gen +1 7",
        "gen -1 7",
        "gen 0o10 7",
        "gen  7",
        "gen 1 18446744073709551616",
        "gen 1 -1",
        "gen 1 +1",
        "gen 1 00",
        "script 1 7",
        "script script",
    ] {
        let (status, written) = run_of(rt.alloc(), line)?;
        assert_eq!(rt; status, Status::Usage, "{line}");
        assert_eq!(rt; written.is_empty(), true);
    }
    Ok(())
}

/// The number behind this name, at the front of one of these lines.
fn number_of(lines: &[u8], name: &[u8]) -> Option<u64> {
    for line in lines.split(|byte| *byte == b'\n') {
        if let Some(number) = line.strip_prefix(name) {
            return read_number(number);
        }
    }
    None
}

#[test]
fn ten_thousand_generated_jobs_are_counted(rt: HostRuntime) -> Result<(), Fail> {
    let (status, written) = run_of(rt.alloc(), "gen 10000 1")?;
    assert_eq!(rt; status, Status::Done);
    let lines = written.as_slice();
    assert_eq!(rt; number_of(lines, b"jobs "), Some(10_000));
    assert_eq!(rt; number_of(lines, b"nomem "), Some(0));
    let (ok, refused) = (number_of(lines, b"ok "), number_of(lines, b"refused "));
    let all = ok.unwrap_or(0).checked_add(refused.unwrap_or(0));
    assert_eq!(rt; all, Some(10_000));
    let (_, again) = run_of(rt.alloc(), "gen 10000 1")?;
    assert_eq!(rt; again.as_slice(), lines);
    Ok(())
}

#[test]
fn a_sink_that_fails_leaves_a_front_of_the_counts(rt: HostRuntime) -> Result<(), Fail> {
    let words = words_of(rt.alloc(), "gen 1 7")?;
    for (push, length, status) in [
        (1, 0, Status::WriteFault),
        (2, 20, Status::WriteFault),
        (3, 40, Status::WriteFault),
        (4, 60, Status::WriteFault),
        (5, 80, Status::WriteFault),
        (6, ONE.len(), Status::Done),
    ] {
        let mut input = MemSource::new(Vec::new(rt.alloc()), vec![in rt.alloc(); 1]?);
        let mut output = Drops::new(MemSink::new(rt.alloc(), vec![in rt.alloc(); push]?));
        assert_eq!(rt;
            run(rt.alloc(), words.as_slice(), &mut input, &mut output),
            status
        );
        assert_eq!(rt; output.as_slice(), &ONE[..length]);
    }
    Ok(())
}
