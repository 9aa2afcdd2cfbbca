// Runs rlsf's table of sizes (docs/CLASSES.md) through `map_floor` and `map_ceil`, then every size of a block, and
// compares with a plain computation in bytes: the class by doubling 32, the list in it by what is left over.
// Nothing but safety is proved of this program; it is there to see the proved functions run.
#![tactic(auto)]

mod row;

use row::Row;
use std::io;

const GRAIN: u64 = 32;

const LARGEST: u64 = 131040;

// The table of docs/CLASSES.md.
const TABLE: [Row; 13] = [
    Row {
        size: 32,
        list: 0,
        start: 0,
    },
    Row {
        size: 64,
        list: 16,
        start: 16,
    },
    Row {
        size: 96,
        list: 24,
        start: 24,
    },
    Row {
        size: 160,
        list: 36,
        start: 36,
    },
    Row {
        size: 544,
        list: 65,
        start: 65,
    },
    Row {
        size: 1024,
        list: 80,
        start: 80,
    },
    Row {
        size: 1056,
        list: 80,
        start: 81,
    },
    Row {
        size: 1088,
        list: 81,
        start: 81,
    },
    Row {
        size: 4128,
        list: 112,
        start: 113,
    },
    Row {
        size: 65504,
        list: 175,
        start: 176,
    },
    Row {
        size: 65536,
        list: 176,
        start: 176,
    },
    Row {
        size: 126976,
        list: 191,
        start: 191,
    },
    Row {
        size: 131040,
        list: 191,
        start: 192,
    },
];

fn main(rt: HostRuntime) -> io::Result<()> {
    println!(rt; "size: its list; where a search for it starts")?;
    for row in TABLE {
        println!(rt; "{}", Row::proved(row.size))?;
    }
    let right = TABLE
        .iter()
        .filter(|row| Row::proved(row.size) == **row)
        .count();
    println!(rt; "rows as in the table: {right} of {}", TABLE.len())?;
    sweep(&rt)
}

// Every size of a block, from one grain to the largest.
fn sweep(rt: &impl Print) -> io::Result<()> {
    let grains = 1..=LARGEST / GRAIN;
    let lists = grains
        .clone()?
        .filter(|s| Row::proved(GRAIN * *s).list == Row::plain(GRAIN * *s).list)
        .count();
    let starts = grains
        .clone()?
        .filter(|s| Row::proved(GRAIN * *s).start == Row::plain(GRAIN * *s).start)
        .count();
    println!(rt; "sizes from {GRAIN} to {LARGEST}: {}", grains.count())?;
    println!(rt; "lists as computed plainly: {lists}")?;
    println!(rt; "starts as computed plainly: {starts}")
}
