// Reads recorded calls from standard input, makes each on the heap, and compares the answer and the usable size with the
// recorded ones. data/answers/README.md says what a line is. The last line says whether all agreed; the exit status is
// 0 also where not, unless a write failed. Nothing but safety is proved of this program; it is there to hold the heap to the
// record.
#![tactic(auto)]

mod call;
mod input;
mod payload;
mod record;
mod report;

use heap::Heap;
use input::Lines;
use record::Record;
use report::Score;
use std::io;
use std::io::{Input, Read};

// A loop that is proved has to end, and nothing says that the input does. So this many lines are read at most.
const MOST: u64 = 1000000000;

// The arena's bytes, and the words of the tables that go with it: tables::lists_length(), tables::live_length(ARENA), and a
// count with two words for each of 32 regions. Where one is too short, init refuses.
const ARENA: usize = 1048576;

const LISTS: usize = 195;

const LIVE: usize = 1025;

const REGIONS: usize = 65;

// The bytes that are read at once.
const CHUNK: usize = 65536;

fn main(rt: HostRuntime) -> io::Result<()> {
    let mut arena = [0u8; ARENA];
    start(&rt, &mut arena)
}

// The tables are made, and the chunk, in a function of their own: in the one that makes the arena the prover would run out of
// stack.
fn start(rt: &(impl Input + Print), arena: &mut [u8; ARENA]) -> io::Result<()> {
    let mut lists = [0u64; LISTS];
    let mut live = [0u64; LIVE];
    let mut regions = [0u64; REGIONS];
    let mut chunk = [0u8; CHUNK];
    if let Err(refusal) = firmheap::init(arena, &mut lists, &mut live, &mut regions) {
        return report::not_begun(rt, refusal);
    }
    let lines = Lines::new(rt.reader(), &mut chunk);
    let heap = Heap {
        arena,
        lists: &mut lists,
        live: &mut live,
        regions: &mut regions,
    };
    replay(rt, lines, heap)
}

// All lines, up to the first that says no call.
fn replay<R: Read + Drop>(rt: &impl Print, mut lines: Lines<R>, mut heap: Heap) -> io::Result<()> {
    let mut agreed = 0;
    for made in 0..MOST {
        let score = Score { made, agreed };
        let line = match lines.next_line() {
            Ok(Some(line)) => line,
            Ok(None) => return report::finished(rt, score),
            Err(fault) => return report::unusable(rt, score, fault),
        };
        let record = match Record::parse(line) {
            Ok(record) => record,
            Err(wanted) => return report::malformed(rt, score, line, wanted),
        };
        let heard = record.call.make(&mut heap);
        if record.agrees(heard) {
            agreed += 1;
        } else if agreed == made {
            report::different(rt, score, line, record, heard)?;
        }
    }
    report::endless(rt, MOST)
}
