//! What the trials of a group have in common.
use lh_types::memory::NoMemory;
use lh_types::text::put;
use std::alloc::Global;

/// A group of trials: its name, the words by which its texts are run, what stands before and behind each text, and the answer to each
/// line where each is a text by itself.
#[derive(Drop)]
pub struct Group {
    pub name: Vec<u8>,
    pub how: Vec<u8>,
    pub head: Vec<u8>,
    pub tail: Vec<u8>,
    pub each: Vec<u8>,
}

impl Group {
    /// A group without a name, of which nothing is known.
    pub fn new(alloc: Global) -> Group {
        Group {
            name: Vec::new(alloc),
            how: Vec::new(alloc),
            head: Vec::new(alloc),
            tail: Vec::new(alloc),
            each: Vec::new(alloc),
        }
    }

    /// A text with what stands before and behind it.
    pub fn whole(&self, alloc: Global, text: &[u8]) -> Result<Vec<u8>, NoMemory> {
        let mut whole = Vec::new(alloc);
        put(&mut whole, &self.head)?;
        put(&mut whole, text)?;
        put(&mut whole, &self.tail)?;
        Ok(whole)
    }
}

/// Puts a line at the end of a text.
pub fn put_line(to: &mut Vec<u8>, line: &[u8]) -> Result<(), NoMemory> {
    put(to, line)?;
    put(to, b"\n")
}
