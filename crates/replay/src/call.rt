// A call of the heap, and its answer.
use crate::payload;
use heap::Heap;
use refusal::Refusal;
use std::fmt;

#[derive(Clone, Copy, Debug, PartialEq, Eq)]
pub enum Call {
    // A region is given; one that joins begins exactly where another ended.
    Give {
        start: usize,
        length: usize,
        joins: bool,
    },
    Take {
        size: usize,
        align: usize,
    },
    Return {
        payload: usize,
        align: usize,
    },
    Resize {
        payload: usize,
        size: usize,
        align: usize,
    },
}

impl Call {
    // Makes the call. A return answers 0.
    pub fn make(self, heap: &mut Heap) -> Result<Answer, Refusal> {
        match self {
            Call::Give {
                start,
                length,
                joins: false,
            } => heap.insert_free_block(start, length).map(Answer::plain),
            Call::Give {
                start,
                length,
                joins: true,
            } => heap.append_free_block(start, length).map(Answer::plain),
            Call::Take { size, align } => {
                let payload = heap.allocate(size, align)?;
                Ok(Answer::placed(heap.arena, payload))
            }
            Call::Return { payload, align } => {
                heap.deallocate(payload, align)?;
                Ok(Answer::plain(0))
            }
            Call::Resize {
                payload,
                size,
                align,
            } => {
                let payload = heap.reallocate(payload, size, align)?;
                Ok(Answer::placed(heap.arena, payload))
            }
        }
    }

    // The refusal that a record has of this kind of call: of a region that is too small, of a take or a resize for which
    // there is no list.
    pub fn refusal(self) -> Refusal {
        match self {
            Call::Give { .. } => Refusal::Misplaced,
            _ => Refusal::NoList,
        }
    }
}

// What a call answered, and how many bytes of the payload can be used.
#[derive(Clone, Copy, Debug, PartialEq, Eq)]
pub struct Answer {
    pub number: u64,
    pub usable: u64,
}

impl Answer {
    // How a record writes the answer of a call that was refused.
    pub const REFUSED: Answer = Answer {
        number: u64::MAX,
        usable: 0,
    };

    // Of a call that placed no payload.
    fn plain(number: usize) -> Answer {
        Answer {
            number: number as u64,
            usable: 0,
        }
    }

    // Of a call that placed one. Where the headers say no block of it, its usable size is the largest number.
    fn placed(arena: &[u8], payload: usize) -> Answer {
        Answer {
            number: payload as u64,
            usable: payload::usable(arena, payload).map_or(u64::MAX, |n| n as u64),
        }
    }
}

impl fmt::Display for Answer {
    fn fmt<W: fmt::Write>(&self, f: &mut fmt::Formatter<W>) -> fmt::Result {
        write!(f, "answer {}, usable {}", self.number, self.usable)
    }
}
