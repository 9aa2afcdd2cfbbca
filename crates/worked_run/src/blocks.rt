// The blocks of the arena's one region, read off their headers. The walk is the program's own: it starts at the first block
// and stays inside the arena, whatever the bytes are.
ghost use Rattle.std.specs.Prelude.{◌-◌, length};
ghost use Rattle.std.specs.Iterator.{at_most};

use crate::threes::Threes;
use std::fmt;

const GRAIN: usize = 32;

// The bytes that a character of the bar stands for, and its characters.
const CELL: usize = 64;

const CELLS: usize = 52;

// An offset and a size.
#[derive(Clone, Copy, Debug, PartialEq, Eq)]
pub struct Span(pub usize, pub usize);

impl Span {
    fn covers(self, o: usize) -> bool {
        self.0 <= o && o - self.0 < self.1
    }
}

impl fmt::Display for Span {
    fn fmt<W: fmt::Write>(&self, f: &mut fmt::Formatter<W>) -> fmt::Result {
        let offset = Threes(self.0);
        let size = Threes(self.1);
        write!(f, "{offset}:{size}")
    }
}

// ---- the walk

#[derive(Clone, Copy, Debug, PartialEq, Eq)]
pub struct Block {
    pub span: Span,
    pub is_used: bool,
}

// The blocks from an offset on.
#[derive(Clone, Copy)]
pub struct Walk<'a> {
    arena: &'a [u8],
    at: usize,
}

impl<'a> Walk<'a> {
    pub fn new(arena: &'a [u8]) -> Walk<'a> {
        Walk { arena, at: 0 }
    }

    // Whether the byte at o lies in a block that is used. The walk goes on to that block and no further, so that an o that is
    // no smaller is found from there: from the first block on, the bars took half of a run.
    fn is_covered(&mut self, o: usize) -> bool {
        let Some(block) = self.find(|block| block.span.covers(o)) else {
            return false;
        };
        self.at = block.span.0;
        block.is_used
    }
}

impl<'a> Iterator for Walk<'a> {
    type Item = Block;

    ghost remaining = { λ walk. at_most (length walk.arena.now - walk.at) };

    // The block there, unless that is the sentinel or would reach beyond the arena. Bit 0 of its header's first word says
    // used, bit 1 sentinel.
    fn next(&mut self) -> Option<Block> {
        let offset = self.at;
        let word = word(self.arena, offset)?;
        let size = word - word % GRAIN;
        let end = offset.checked_add(size)?;
        if size == 0 || word / 2 % 2 == 1 || self.arena.len() < end {
            return None;
        }
        self.at = end;
        Some(Block {
            span: Span(offset, size),
            is_used: word % 2 == 1,
        })
    }
}

// The eight bytes at an offset as one number, where they all lie in the arena.
fn word(arena: &[u8], o: usize) -> Option<usize> {
    let bytes = arena.get(o..)?.first_chunk()?;
    Some(usize::from_le_bytes(*bytes))
}

// ---- as text

// The free blocks of an arena, each with a space behind it.
#[derive(Clone, Copy)]
pub struct Free<'a>(pub &'a [u8]);

impl<'a> Free<'a> {
    // Whether these are all.
    pub fn are(self, spans: &[Span]) -> bool {
        Walk::new(self.0)
            .filter(|block| !block.is_used)
            .map(|block| block.span)
            .eq(spans.iter().copied())
    }
}

impl fmt::Display for Free<'_> {
    fn fmt<W: fmt::Write>(&self, f: &mut fmt::Formatter<W>) -> fmt::Result {
        for block in Walk::new(self.0) {
            if !block.is_used {
                write!(f, "{} ", block.span)?;
            }
        }
        Ok(())
    }
}

// The blocks, each with a space behind it.
pub fn list<W: fmt::Write>(f: &mut fmt::Formatter<W>, spans: &[Span]) -> fmt::Result {
    for span in spans {
        write!(f, "{span} ")?;
    }
    Ok(())
}

// A character for each cell of the arena's first bytes.
#[derive(Clone, Copy)]
pub struct Bar<'a>(pub &'a [u8]);

impl fmt::Display for Bar<'_> {
    fn fmt<W: fmt::Write>(&self, f: &mut fmt::Formatter<W>) -> fmt::Result {
        let mut walk = Walk::new(self.0);
        for i in 0..CELLS {
            let o = CELL * i;
            let grains = (walk.is_covered(o), walk.is_covered(o + GRAIN));
            f.write_str(match grains {
                (true, true) => "#",
                (false, false) => ".",
                _ => "+",
            })?;
        }
        Ok(())
    }
}
