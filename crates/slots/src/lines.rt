// Lines on a writer. Each is put together and then written at once, so that it goes out as soon as it is complete.
use std::fmt::{Display, Write as _};
use std::io::Write;
use std::{fmt, io};

// The line being put together: the first `len` of the bytes.
// kept: an array with a length, since a line in a String could fail for memory. What finds no room is left out; the longest line has 823 bytes
// of a packet in hexadecimal digits.
#[derive(Drop)]
struct Line {
    bytes: [u8; 2048],
    len: usize,
}

impl fmt::Write for Line {
    fn write_str(&mut self, s: &str) -> fmt::Result {
        self.len = print::append(&mut self.bytes, self.len, s.as_bytes());
        Ok(())
    }
}

#[derive(Drop)]
pub struct Lines<'a, W: Write> {
    out: &'a mut W,
    line: Line,
}

impl<'a, W: Write> Lines<'a, W> {
    pub fn new(out: &'a mut W) -> Lines<'a, W> {
        Lines {
            out,
            line: Line {
                bytes: [0; 2048],
                len: 0,
            },
        }
    }

    // Writes the line and its end.
    pub fn write(&mut self, line: impl Display + Drop) -> io::Result<()> {
        self.line.len = 0;
        writeln!(self.line, "{line}")?;
        let len = self.line.len.min(self.line.bytes.len());
        self.out.write_all(&self.line.bytes[..len])
    }
}
