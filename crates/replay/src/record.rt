// A line as a recorded call: six decimal numbers with one space between, in one of four forms.
use crate::call::{Answer, Call};
use refusal::Refusal;
use std::error::Error;
use std::fmt;

#[derive(Clone, Copy, Debug, PartialEq, Eq)]
pub enum Kind {
    Region,
    Take,
    Return,
    Resize,
}

// What was expected of a line that is no call.
#[derive(Clone, Copy, Debug, PartialEq, Eq)]
pub enum Wanted {
    Number,
    Space,
    End,
    Kind,
    Region,
    Take,
    Return,
}

impl fmt::Display for Wanted {
    fn fmt<W: fmt::Write>(&self, f: &mut fmt::Formatter<W>) -> fmt::Result {
        f.write_str(match self {
            Wanted::Number => "expected six decimal numbers below 2^64",
            Wanted::Space => "expected six numbers with one space between",
            Wanted::End => "expected the line's end behind six numbers",
            Wanted::Kind => "expected a kind of call from 0 to 3 as the first number",
            Wanted::Region => {
                "expected a region: 0 start length mode answer 0, with mode 0 or 1"
            }
            Wanted::Take => "expected a take: 1 size alignment 0 answer usable",
            Wanted::Return => "expected a return: 2 offset alignment 0 0 0",
        })
    }
}

impl Error for Wanted {}

impl TryFrom<u64> for Kind {
    type Error = Wanted;

    fn try_from(n: u64) -> Result<Kind, Wanted> {
        match n {
            0 => Ok(Kind::Region),
            1 => Ok(Kind::Take),
            2 => Ok(Kind::Return),
            3 => Ok(Kind::Resize),
            _ => Err(Wanted::Kind),
        }
    }
}

// A call, and what it answered, or none where it was refused.
#[derive(Clone, Copy, Debug, PartialEq, Eq)]
pub struct Record {
    pub call: Call,
    pub answer: Option<Answer>,
}

impl Record {
    pub fn parse(line: &[u8]) -> Result<Record, Wanted> {
        let (kind, rest) = number(line)?;
        let (first, rest) = next_number(rest)?;
        let (second, rest) = next_number(rest)?;
        let (third, rest) = next_number(rest)?;
        let (answer, rest) = next_number(rest)?;
        let (usable, rest) = next_number(rest)?;
        if !rest.is_empty() {
            return Err(Wanted::End);
        }
        Record::try_from([kind, first, second, third, answer, usable])
    }

    // Whether this is what the heap answered.
    pub fn agrees(self, heard: Result<Answer, Refusal>) -> bool {
        match heard {
            Ok(answer) => self.answer == Some(answer),
            Err(refusal) => self.answer.is_none() && refusal == self.call.refusal(),
        }
    }
}

// The call, where its numbers are in the form of its kind. A resize has no number that must be 0.
impl TryFrom<[u64; 6]> for Record {
    type Error = Wanted;

    fn try_from(numbers: [u64; 6]) -> Result<Record, Wanted> {
        let [kind, first, second, third, number, usable] = numbers;
        let call = match (Kind::try_from(kind)?, third, number, usable) {
            (Kind::Region, 0 | 1, _, 0) => Call::Give {
                start: first as usize,
                length: second as usize,
                joins: third == 1,
            },
            (Kind::Region, ..) => return Err(Wanted::Region),
            (Kind::Take, 0, ..) => Call::Take {
                size: first as usize,
                align: second as usize,
            },
            (Kind::Take, ..) => return Err(Wanted::Take),
            (Kind::Return, 0, 0, 0) => Call::Return {
                payload: first as usize,
                align: second as usize,
            },
            (Kind::Return, ..) => return Err(Wanted::Return),
            (Kind::Resize, ..) => Call::Resize {
                payload: first as usize,
                size: second as usize,
                align: third as usize,
            },
        };
        let answer = Answer { number, usable };
        let answer = if answer == Answer::REFUSED {
            None
        } else {
            Some(answer)
        };
        Ok(Record { call, answer })
    }
}

// ---- numbers

// The number behind the next space, and what is behind it.
fn next_number(text: &[u8]) -> Result<(u64, &[u8]), Wanted> {
    number(text.strip_prefix(b" ").ok_or(Wanted::Space)?)
}

// The number at the front of the text, and what is behind it: in one pass, since each digit of the input goes through here.
fn number(text: &[u8]) -> Result<(u64, &[u8]), Wanted> {
    let mut n: u64 = 0;
    let mut rest = text;
    for byte in text {
        if !byte.is_ascii_digit() {
            break;
        }
        n = n
            .checked_mul(10)
            .and_then(|n| n.checked_add(u64::from(byte - b'0')))
            .ok_or(Wanted::Number)?;
        rest = rest.get(1..).unwrap_or_default();
    }
    let has_digits = rest.len() < text.len();
    if has_digits {
        Ok((n, rest))
    } else {
        Err(Wanted::Number)
    }
}
