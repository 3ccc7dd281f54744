use pt_run::{MemSink, MemSource, Status, run};
use std::alloc::{AllocError, Global};

/// The report of a script, or nothing where its run is not done.
pub fn report_of(alloc: Global, script: Vec<u8>) -> Result<Vec<u8>, AllocError> {
    let words = vec![in alloc; String::from_str(alloc, "script")?]?;
    let mut input = MemSource::new(script, Vec::new(alloc));
    let mut output = MemSink::new(alloc, Vec::new(alloc));
    match run(alloc, words.as_slice(), &mut input, &mut output) {
        Status::Done => output.as_slice().to_vec(alloc),
        _ => Ok(Vec::new(alloc)),
    }
}
