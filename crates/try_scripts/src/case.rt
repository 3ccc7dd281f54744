use std::alloc::{AllocError, Global};

/// A script, under the name that stands in its header.
#[derive(Drop)]
pub struct Case {
    pub name: Vec<u8>,
    pub script: Vec<u8>,
    /// The last line feed is no part of the script.
    pub is_cut: bool,
    /// Of the report only what stands behind the steps is shown.
    pub ends_alone: bool,
    /// A word of the header is none that is known.
    pub is_bad: bool,
}

impl Case {
    /// A header is a name and the words behind it, each behind a space.
    pub fn new(alloc: Global, header: &[u8]) -> Result<Self, AllocError> {
        let mut case = Case {
            name: Vec::new(alloc),
            script: Vec::new(alloc),
            is_cut: false,
            ends_alone: false,
            is_bad: false,
        };
        let header = header.strip_suffix(b"\n").unwrap_or(header);
        for (place, word) in header.split(|byte| *byte == b' ').enumerate() {
            if place == 0 {
                case.name.extend_from_slice(word)?;
            } else if word == b"cut".as_slice() {
                case.is_cut = true;
            } else if word == b"ends".as_slice() {
                case.ends_alone = true;
            } else {
                case.is_bad = true;
            }
        }
        Ok(case)
    }

    /// Appends a line of the script, with its line feed.
    pub fn push_line(&mut self, line: &[u8]) -> Result<(), AllocError> {
        self.script.extend_from_slice(line)
    }

    /// The bytes of the script.
    pub fn into_script(self) -> Vec<u8> {
        let mut script = self.script;
        if self.is_cut {
            script.pop();
        }
        script
    }
}
