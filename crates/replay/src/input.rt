// The lines of the input.
use std::error::Error;
use std::fmt;
use std::io::Read;

// Room for a line: six numbers of at most 20 digits and five spaces are 125, and its end is one more.
const LINE: usize = 128;

// Why there is no line.
#[derive(Clone, Copy, Debug, PartialEq, Eq)]
pub enum Fault {
    TooLong,
    Unreadable,
}

impl fmt::Display for Fault {
    fn fmt<W: fmt::Write>(&self, f: &mut fmt::Formatter<W>) -> fmt::Result {
        f.write_str(match self {
            Fault::TooLong => {
                "longer than any call is\n    expected six decimal numbers below 2^64"
            }
            Fault::Unreadable => {
                "the input can't be read; give the recorded calls as standard input, as in: replay <FILE"
            }
        })
    }
}

impl Error for Fault {}

// An input, and the line that was read last.
#[derive(Drop)]
pub struct Lines<'a, R> {
    source: R,
    // Lent, with the part from `at` to `end` not used yet: a BufReader or a Vec would need memory, and the program takes none.
    chunk: &'a mut [u8],
    at: usize,
    end: usize,
    line: [u8; LINE],
}

impl<'a, R: Read> Lines<'a, R> {
    pub fn new(source: R, chunk: &'a mut [u8]) -> Lines<'a, R> {
        Lines {
            source,
            chunk,
            at: 0,
            end: 0,
            line: [0; LINE],
        }
    }

    // The next line without its line end, or none at the input's end. The last one may lack its line end.
    pub fn next_line(&mut self) -> Result<Option<&[u8]>, Fault> {
        for n in 0..LINE {
            match self.next_byte()? {
                None if n == 0 => return Ok(None),
                None | Some(b'\n') => return Ok(Some(&self.line[..n])),
                Some(byte) => self.line[n] = byte,
            }
        }
        Err(Fault::TooLong)
    }

    // The next byte, or none at the input's end. Where the chunk is used up it is filled anew.
    fn next_byte(&mut self) -> Result<Option<u8>, Fault> {
        if self.at >= self.end {
            self.end = self.source.read(self.chunk).map_err(|_| Fault::Unreadable)?;
            self.at = 0;
        }
        let at = self.at;
        if at >= self.end {
            return Ok(None);
        }
        self.at += 1;
        Ok(self.chunk.get(at).copied())
    }
}
