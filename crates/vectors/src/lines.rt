// Standard input, line by line, by blocks of it.
use say::front;
use std::io;
use std::io::{ErrorKind, Read};

// A line, of which its first bytes are kept: all of them, unless it is longer than that.
#[derive(Clone, Copy)]
pub(crate) struct Line {
    bytes: [u8; 256],
    length: usize,
}

impl Line {
    fn empty() -> Line {
        Line {
            bytes: [0; 256],
            length: 0,
        }
    }

    fn push(&mut self, byte: u8) {
        if let Some(place) = self.bytes.get_mut(self.length) {
            *place = byte;
        }
        self.length = self.length.saturating_add(1);
    }

    pub(crate) fn kept(&self) -> &[u8] {
        front(&self.bytes, self.length)
    }

    pub(crate) fn is_whole(&self) -> bool {
        self.length <= self.bytes.len()
    }
}

// An input, and the block that was read last: its bytes from `at` to before `end` are still to come.
#[derive(Drop)]
pub(crate) struct Lines<R: Read + Drop> {
    input: R,
    block: [u8; 65_536],
    at: usize,
    end: usize,
}

impl<R: Read + Drop> Lines<R> {
    pub(crate) fn new(input: R) -> Lines<R> {
        Lines {
            input,
            block: [0; 65_536],
            at: 0,
            end: 0,
        }
    }

    // Reads the next block. A read that a signal interrupted brought nothing, and is made again. A proved loop has to end: this one
    // and those below have more turns than any run uses up.
    fn refill(&mut self) -> io::Result<()> {
        self.at = 0;
        self.end = 0;
        for _ in 0..u64::MAX {
            match self.input.read(&mut self.block) {
                Ok(n) => {
                    self.end = n;
                    break;
                }
                Err(e) if e.kind() == ErrorKind::Interrupted => {}
                Err(e) => return Err(e),
            }
        }
        Ok(())
    }

    // None at the end of the input.
    fn next_byte(&mut self) -> io::Result<Option<u8>> {
        if self.end <= self.at {
            self.refill()?;
        }
        if self.end <= self.at {
            return Ok(None);
        }
        let byte = self.block.get(self.at).copied();
        self.at = self.at.saturating_add(1);
        Ok(byte)
    }

    // None at the end of the input, where a line with no line feed is one all the same.
    pub(crate) fn next(&mut self) -> io::Result<Option<Line>> {
        let mut line = Line::empty();
        for _ in 0..u64::MAX {
            match self.next_byte()? {
                Some(b'\n') => break,
                Some(byte) => line.push(byte),
                None if line.length == 0 => return Ok(None),
                None => break,
            }
        }
        Ok(Some(line))
    }
}
