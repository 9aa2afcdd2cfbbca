// Makes the calls of docs/HEAP.md's worked run on the heap, and shows them: a line for each call, with its answer, the free
// blocks after it, and a bar. Answers and free blocks are compared with the document's, and a difference is said.
// Nothing but safety is proved of this program; it is there to see the proved calls run.
#![tactic(auto)]

mod blocks;
mod column;
mod rows;
mod threes;

use blocks::{Bar, Free};
use column::Column;
use heap::Heap;
use refusal::Refusal;
use rows::{Answer, ROWS, Row};
use std::{fmt, io};

// The arena's bytes, and the words of the tables that go with it: tables::lists_length(), tables::live_length(ARENA), and a
// count with two words for each region, of which there is one. Where one is too short, init refuses.
const ARENA: usize = 65536;

const LISTS: usize = 195;

const LIVE: usize = 65;

const REGIONS: usize = 3;

// How many answers, and how many lists of free blocks, are as they should be.
#[derive(Clone, Copy, Debug, PartialEq, Eq)]
struct Score {
    answers: usize,
    frees: usize,
}

fn main(rt: HostRuntime) -> io::Result<()> {
    let mut arena = [0u8; ARENA];
    let mut lists = [0u64; LISTS];
    let mut live = [0u64; LIVE];
    let mut regions = [0u64; REGIONS];
    heading(&rt)?;
    if let Err(refusal) = firmheap::init(&arena, &mut lists, &mut live, &mut regions) {
        return not_begun(&rt, refusal);
    }
    let heap = Heap {
        arena: &mut arena,
        lists: &mut lists,
        live: &mut live,
        regions: &mut regions,
    };
    let score = run(&rt, heap)?;
    ending(&rt, score)
}

// Without an empty heap there is nothing to show.
fn not_begun(rt: &impl Print, refusal: Refusal) -> io::Result<()> {
    println!(rt;
        "init refused with {}: a table is too short for this arena; make LISTS, LIVE and REGIONS of src/main.rt as long as crate tables says",
        u64::from(refusal)
    )
}

fn heading(rt: &impl Print) -> io::Result<()> {
    println!(rt;
        "The calls of docs/HEAP.md, in an arena of 65,536 bytes that is given as one region."
    )?;
    print!(rt;
        "A free block is shown as offset:size. The bar is the arena's first 3,328 bytes, 64 to a character: "
    )?;
    println!(rt; "# used, . free, + both.\n")?;
    print!(rt; "{:<24}{:<12}{:<33}", "call", "answer", "free blocks")?;
    println!(rt; "{:<16}{:<16}{:<16}{}", "0", "1,024", "2,048", "3,072")
}

fn ending(rt: &impl Print, score: Score) -> io::Result<()> {
    let calls = ROWS.len();
    let Score { answers, frees } = score;
    println!(rt)?;
    if answers != calls || frees != calls {
        print!(rt; "DIFFERENT. ")?;
    }
    println!(rt;
        "{calls} calls. Answers as in docs/HEAP.md: {answers}. Free blocks as in docs/HEAP.md: {frees}."
    )
}

// All rows, one after the other.
fn run(rt: &impl Print, mut heap: Heap) -> io::Result<Score> {
    let mut score = Score {
        answers: 0,
        frees: 0,
    };
    for row in ROWS {
        let answer = row.call.make(&mut heap);
        if answer == row.answer {
            score.answers += 1;
        }
        let free = Free(heap.arena);
        let is_right = free.are(row.free);
        if is_right {
            score.frees += 1;
        }
        let line = Line {
            row,
            answer,
            free,
            is_right,
        };
        println!(rt; "{line}")?;
    }
    Ok(score)
}

// A row's line: the call, its answer, the free blocks, the bar, and what should have been, where it was not.
#[derive(Clone, Copy)]
struct Line<'a> {
    row: Row,
    answer: Result<Answer, Refusal>,
    free: Free<'a>,
    is_right: bool,
}

impl fmt::Display for Line<'_> {
    fn fmt<W: fmt::Write>(&self, f: &mut fmt::Formatter<W>) -> fmt::Result {
        let Line {
            row,
            answer,
            free,
            is_right,
        } = *self;
        let call = Column(row.call);
        let said = Column(Said(answer));
        let listed = Column(free);
        let bar = Bar(free.0);
        write!(f, "{call:<24}{said:<12}{listed:<33}{bar}")?;
        if answer != row.answer {
            write!(f, "  <- DIFFERENT: docs/HEAP.md answers ")?;
            match row.answer {
                Ok(wanted) => write!(f, "{wanted}")?,
                Err(_) => write!(f, "refused")?,
            }
        }
        if !is_right {
            write!(f, "  <- DIFFERENT: free must be ")?;
            blocks::list(f, row.free)?;
        }
        Ok(())
    }
}

// What was answered.
#[derive(Clone, Copy)]
struct Said(Result<Answer, Refusal>);

impl fmt::Display for Said {
    fn fmt<W: fmt::Write>(&self, f: &mut fmt::Formatter<W>) -> fmt::Result {
        match self.0 {
            Ok(answer) => write!(f, "{answer}"),
            Err(refusal) => write!(f, "refused ({})", u64::from(refusal)),
        }
    }
}
