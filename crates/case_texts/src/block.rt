//! A block: the lines behind one that begins it, up to a line that is a full stop.
use crate::escapes::put_line;
use crate::faults::Wrong;
use std::alloc::Global;

/// Lines that come so many times.
#[derive(Drop)]
struct Repeated {
    times: u64,
    lines: String,
}

/// The bytes of a block so far.
#[derive(Drop)]
pub struct Block {
    bytes: Vec<u8>,
    repeated: Option<Repeated>,
}

impl Block {
    /// A block without a line.
    pub fn new(alloc: Global) -> Block {
        Block {
            bytes: Vec::new(alloc),
            repeated: None,
        }
    }

    /// Its bytes.
    pub fn into_bytes(self) -> Vec<u8> {
        let Block { bytes, repeated: _ } = self;
        bytes
    }

    /// Takes a line. A line `\repeat N` begins lines that come N times, in each of which `\#` is the number of the repetition, from 0 on;
    /// `\done` ends them.
    pub fn take(&mut self, alloc: Global, line: &str) -> Result<(), Wrong> {
        if let Some(times) = line.strip_prefix("\\repeat ") {
            return self.begin(alloc, times);
        }
        if line == "\\done" {
            return self.repeat(alloc);
        }
        match &mut self.repeated {
            Some(repeated) => {
                repeated.lines.push_str(line)?;
                Ok(repeated.lines.push_str("\n")?)
            }
            None => put_line(&mut self.bytes, line, 0),
        }
    }

    fn begin(&mut self, alloc: Global, times: &str) -> Result<(), Wrong> {
        let Ok(times) = times.parse::<u64>() else {
            return Err(Wrong::Said("behind \\repeat stands a number"));
        };
        self.repeated = Some(Repeated {
            times,
            lines: String::new(alloc),
        });
        Ok(())
    }

    fn repeat(&mut self, alloc: Global) -> Result<(), Wrong> {
        let Some(repeated) = self.repeated.take() else {
            return Err(Wrong::Said("\\done stands behind \\repeat"));
        };
        if !repeated.lines.contains("\\#") {
            let mut once = Vec::new(alloc);
            put_lines(&mut once, repeated.lines.as_str(), 0)?;
            let all = once.as_slice().repeat(alloc, repeated.times as usize)?;
            self.bytes.extend_from_slice(&all)?;
            return Ok(());
        }
        for count in 0..repeated.times {
            put_lines(&mut self.bytes, repeated.lines.as_str(), count)?;
        }
        Ok(())
    }
}

/// Appends what lines stand for.
fn put_lines(bytes: &mut Vec<u8>, lines: &str, count: u64) -> Result<(), Wrong> {
    for line in lines.lines() {
        put_line(bytes, line, count)?;
    }
    Ok(())
}
