// Why a call is refused. Callers in Rattle match on it; C, the record of calls and the scripts hear its number.

#![tactic(auto)]

ghost use Rattle.std.specs.Prelude.{◌≡◌};
ghost use Rattle.refusal.specs.Number.{number, Numbered};

use std::error::Error;
use std::fmt;

// Each with its number, from 1 on.
#[derive(Clone, Copy, Debug, PartialEq, Eq)]
pub enum Refusal {
    // 1: no list has a block for it
    NoList,
    // 2: a size or an alignment is out of range
    OutOfRange,
    // 3: no live payload is there
    NotLive,
    // 4: the region is not one that can be given
    Misplaced,
    // 5: the records contradict each other
    Damaged,
    // 6: a lent table is too short
    TooShort,
}

// A number that no refusal has.
#[derive(Clone, Copy, Debug, PartialEq, Eq)]
pub struct NoRefusal(pub u64);

impl From<Refusal> for u64 {
    ghost from_gives = { λ refusal n. n ≡ number refusal };

    fn from(refusal: Refusal) -> u64 {
        match refusal {
            Refusal::NoList => 1,
            Refusal::OutOfRange => 2,
            Refusal::NotLive => 3,
            Refusal::Misplaced => 4,
            Refusal::Damaged => 5,
            Refusal::TooShort => 6,
        }
    }
}

impl TryFrom<u64> for Refusal {
    type Error = NoRefusal;

    ghost try_from_gives = { Numbered };

    fn try_from(n: u64) -> Result<Self, NoRefusal> {
        match n {
            1 => Ok(Refusal::NoList),
            2 => Ok(Refusal::OutOfRange),
            3 => Ok(Refusal::NotLive),
            4 => Ok(Refusal::Misplaced),
            5 => Ok(Refusal::Damaged),
            6 => Ok(Refusal::TooShort),
            _ => Err(NoRefusal(n)),
        }
    }
}

impl fmt::Display for Refusal {
    fn fmt<W: fmt::Write>(&self, f: &mut fmt::Formatter<W>) -> fmt::Result {
        f.write_str(match self {
            Refusal::NoList => "no list has a block for it",
            Refusal::OutOfRange => "a size or an alignment is out of range",
            Refusal::NotLive => "no live payload is there",
            Refusal::Misplaced => "the region is not one that can be given",
            Refusal::Damaged => "the records contradict each other",
            Refusal::TooShort => "a table is too short",
        })
    }
}

impl fmt::Display for NoRefusal {
    fn fmt<W: fmt::Write>(&self, f: &mut fmt::Formatter<W>) -> fmt::Result {
        write!(f, "no refusal has number {}", self.0)
    }
}

impl Error for Refusal {}

impl Error for NoRefusal {}
