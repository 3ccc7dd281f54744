ghost use Rattle.std.specs.Prelude.{None};

use pt_run::{Failed, InputError, MemSink, MemSource, Sink, Source, Status, read_script, run};
use std::alloc::{AllocError, Global};
use std::test::Fail;

const SCRIPT: &[u8] = b"mount 1 1 / 1\nend\n";

const REPORT: &[u8] = b"slots 18446744073709551615\nobj / 1 1 1 16877 2 0 0 0 %-\nend\n";

fn script_word(alloc: Global) -> Result<Vec<String>, AllocError> {
    Ok(vec![in alloc; String::from_str(alloc, "script")?]?)
}

/// The script takes two readings: its bytes, and its end.
#[test]
fn a_source_that_fails_ends_the_run(rt: HostRuntime) -> Result<(), Fail> {
    let words = script_word(rt.alloc())?;
    for (pull, status) in [
        (1, Status::ReadFault),
        (2, Status::ReadFault),
        (3, Status::Done),
    ] {
        let failing = vec![in rt.alloc(); pull]?;
        let mut input = MemSource::new(SCRIPT.to_vec(rt.alloc())?, failing);
        let mut output = MemSink::new(rt.alloc(), Vec::new(rt.alloc()));
        assert_eq!(rt;
            run(rt.alloc(), words.as_slice(), &mut input, &mut output),
            status
        );
        assert_eq!(rt; output.as_slice().is_empty(), status != Status::Done);
    }
    Ok(())
}

/// A sink that takes twenty bytes at a time, and tells nothing of them: the test looks at the bytes.
#[derive(Drop)]
pub(crate) struct Drops {
    sink: MemSink,
}

impl Drops {
    pub fn new(sink: MemSink) -> Self {
        Drops { sink }
    }

    pub fn as_slice(&self) -> &[u8] {
        self.sink.as_slice()
    }
}

impl Sink for Drops {
    ghost written = { λ drops. None };

    ghost faults = { λ drops. drops.sink.faults };

    fn push(&mut self, piece: &[u8]) -> Result<usize, Failed> {
        if piece.len() > 20 {
            self.sink.push(&piece[..20])
        } else {
            self.sink.push(piece)
        }
    }
}

#[test]
fn a_sink_that_fails_leaves_a_front(rt: HostRuntime) -> Result<(), Fail> {
    let words = script_word(rt.alloc())?;
    for (push, length, status) in [
        (1, 0, Status::WriteFault),
        (2, 20, Status::WriteFault),
        (3, 40, Status::WriteFault),
        (4, 60, Status::Done),
    ] {
        let mut input = MemSource::new(SCRIPT.to_vec(rt.alloc())?, Vec::new(rt.alloc()));
        let failing = vec![in rt.alloc(); push]?;
        let mut output = Drops::new(MemSink::new(rt.alloc(), failing));
        assert_eq!(rt;
            run(rt.alloc(), words.as_slice(), &mut input, &mut output),
            status
        );
        assert_eq!(rt; output.as_slice(), &REPORT[..length]);
    }
    Ok(())
}

#[test]
fn streams_in_memory(rt: HostRuntime) -> Result<(), Fail> {
    let failing = [1].to_vec(rt.alloc())?;
    let mut source = MemSource::new(b"abc".to_vec(rt.alloc())?, failing);
    let mut buf = [0; 2];
    assert_eq!(rt; source.pull(&mut buf), Err(Failed));
    assert_eq!(rt; source.pull(&mut buf), Ok(2));
    assert_eq!(rt; buf, *b"ab");
    let rest = read_script(rt.alloc(), &mut source);
    assert!(rt; matches!(&rest, Ok(bytes) if bytes.as_slice() == b"c".as_slice()));
    let failing = [1].to_vec(rt.alloc())?;
    let mut source = MemSource::new(Vec::new(rt.alloc()), failing);
    let fault = read_script(rt.alloc(), &mut source);
    assert!(rt; matches!(&fault, Err(InputError::Fault)));
    let mut sink = MemSink::new(rt.alloc(), Vec::new(rt.alloc()));
    assert_eq!(rt; sink.push(b"ab"), Ok(2));
    assert_eq!(rt; sink.as_slice(), b"ab".as_slice());
    Ok(())
}
