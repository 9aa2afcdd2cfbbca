// What the program says.
ghost use Rattle.std.specs.Prelude.{◌<◌};

use crate::call::{Answer, Call};
use crate::input::Fault;
use crate::record::{Record, Wanted};
use crate::{ARENA, REGIONS};
use refusal::Refusal;
use std::{fmt, io};

// How many calls were made, and how many of them agreed.
#[derive(Clone, Copy, Debug)]
pub struct Score {
    pub made: u64,
    pub agreed: u64,
    ghost bounded: { made < 1000000000 },
}

impl Score {
    // The number of the line behind those of the calls.
    fn next_line(self) -> u64 {
        self.made + 1
    }
}

impl fmt::Display for Score {
    fn fmt<W: fmt::Write>(&self, f: &mut fmt::Formatter<W>) -> fmt::Result {
        write!(f, "{} of {} calls agreed", self.agreed, self.made)
    }
}

// ---- of a line

// The call on which the heap and the record differ.
pub fn different(
    rt: &impl Print,
    score: Score,
    text: &[u8],
    record: Record,
    heard: Result<Answer, Refusal>,
) -> io::Result<()> {
    say_line(rt, score.next_line(), text)?;
    println!(rt;
        "    recorded: {}",
        record.answer.unwrap_or(Answer::REFUSED)
    )?;
    print!(rt; "    the heap: {}", heard.unwrap_or(Answer::REFUSED))?;
    if let Err(refusal) = heard {
        print!(rt; ", refused with {}", u64::from(refusal))?;
    }
    println!(rt)?;
    if let (Call::Give { .. }, Err(_)) = (record.call, heard) {
        println!(rt;
            "    the arena has {ARENA} bytes, with room for {} regions",
            (REGIONS - 1) / 2
        )?;
    }
    Ok(())
}

fn say_line(rt: &impl Print, line: u64, text: &[u8]) -> io::Result<()> {
    print!(rt; "line {line}: ")?;
    // The line's own bytes, which may be no text.
    rt.write_all(text)?;
    println!(rt)
}

// ---- of all

// The input ended.
pub fn finished(rt: &impl Print, score: Score) -> io::Result<()> {
    let Score { made, agreed } = score;
    if made == 0 {
        println!(rt; "FAILED: the input is empty, so no call was made")
    } else if agreed == made {
        println!(rt; "all {made} calls agreed")
    } else {
        println!(rt; "FAILED: {score}")
    }
}

// The next line is no call.
pub fn malformed(rt: &impl Print, score: Score, text: &[u8], wanted: Wanted) -> io::Result<()> {
    say_line(rt, score.next_line(), text)?;
    println!(rt; "    {wanted}")?;
    stopped(rt, score)
}

// There is no next line, and not for the input's end.
pub fn unusable(rt: &impl Print, score: Score, fault: Fault) -> io::Result<()> {
    println!(rt; "line {}: {fault}", score.next_line())?;
    stopped(rt, score)
}

fn stopped(rt: &impl Print, score: Score) -> io::Result<()> {
    println!(rt; "FAILED: stopped at that line; before it {score}")
}

pub fn endless(rt: &impl Print, made: u64) -> io::Result<()> {
    println!(rt;
        "FAILED: the input has more lines than {made}; cut it into shorter files, each from an empty heap on"
    )
}

// There is no empty heap to begin with.
pub fn not_begun(rt: &impl Print, refusal: Refusal) -> io::Result<()> {
    println!(rt;
        "init refused with {}: a table is too short for the arena; make LISTS, LIVE and REGIONS of src/main.rt as long as crate tables says",
        u64::from(refusal)
    )?;
    println!(rt; "FAILED: no call was made")
}
