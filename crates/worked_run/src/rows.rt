// The rows of the worked run of docs/HEAP.md: its calls, with the answers and the free blocks that it has.
use crate::blocks::Span;
use crate::threes::Threes;
use heap::Heap;
use refusal::Refusal;
use std::fmt;

// A payload has a name.
#[derive(Clone, Copy, Debug, PartialEq, Eq)]
pub enum Call {
    Give {
        start: usize,
        length: usize,
    },
    Take {
        name: char,
        size: usize,
        align: usize,
    },
    Return {
        name: char,
        payload: usize,
        align: usize,
    },
    Resize {
        name: char,
        payload: usize,
        size: usize,
        align: usize,
    },
}

impl Call {
    // Makes the call.
    pub fn make(self, heap: &mut Heap) -> Result<Answer, Refusal> {
        match self {
            Call::Give { start, length } => {
                heap.insert_free_block(start, length).map(Answer::Number)
            }
            Call::Take { size, align, .. } => heap.allocate(size, align).map(Answer::Number),
            Call::Return { payload, align, .. } => {
                heap.deallocate(payload, align).map(|()| Answer::Done)
            }
            Call::Resize {
                payload,
                size,
                align,
                ..
            } => heap.reallocate(payload, size, align).map(Answer::Number),
        }
    }
}

impl fmt::Display for Call {
    fn fmt<W: fmt::Write>(&self, f: &mut fmt::Formatter<W>) -> fmt::Result {
        match *self {
            Call::Give { start, length } => write!(f, "give {}, {}", Threes(start), Threes(length)),
            Call::Take { name, size, align } => {
                write!(f, "take {name} {}, align {}", Threes(size), Threes(align))
            }
            Call::Return { name, .. } => write!(f, "return {name}"),
            Call::Resize { name, size, .. } => write!(f, "resize {name} to {}", Threes(size)),
        }
    }
}

// What a call answers: a region's bytes or a payload's offset, or that a return is done.
#[derive(Clone, Copy, Debug, PartialEq, Eq)]
pub enum Answer {
    Number(usize),
    Done,
}

impl fmt::Display for Answer {
    fn fmt<W: fmt::Write>(&self, f: &mut fmt::Formatter<W>) -> fmt::Result {
        match *self {
            Answer::Number(n) => write!(f, "{}", Threes(n)),
            Answer::Done => f.write_str("done"),
        }
    }
}

// A call, its answer, and the free blocks after it.
#[derive(Clone, Copy, Debug)]
pub struct Row {
    pub call: Call,
    pub answer: Result<Answer, Refusal>,
    pub free: &'static [Span],
}

pub const ROWS: [Row; 19] = [
    Row {
        call: Call::Give {
            start: 0,
            length: 65536,
        },
        answer: Ok(Answer::Number(65536)),
        free: &[Span(0, 65504)],
    },
    Row {
        call: Call::Take {
            name: 'A',
            size: 100,
            align: 8,
        },
        answer: Ok(Answer::Number(16)),
        free: &[Span(128, 65376)],
    },
    Row {
        call: Call::Take {
            name: 'B',
            size: 1000,
            align: 8,
        },
        answer: Ok(Answer::Number(144)),
        free: &[Span(1152, 64352)],
    },
    Row {
        call: Call::Take {
            name: 'C',
            size: 24,
            align: 64,
        },
        answer: Ok(Answer::Number(1216)),
        free: &[Span(1248, 64256)],
    },
    Row {
        call: Call::Take {
            name: 'D',
            size: 0,
            align: 1,
        },
        answer: Ok(Answer::Number(1264)),
        free: &[Span(1280, 64224)],
    },
    Row {
        call: Call::Take {
            name: 'E',
            size: 2000,
            align: 16,
        },
        answer: Ok(Answer::Number(1296)),
        free: &[Span(3296, 62208)],
    },
    Row {
        call: Call::Return {
            name: 'B',
            payload: 144,
            align: 8,
        },
        answer: Ok(Answer::Done),
        free: &[Span(128, 1024), Span(3296, 62208)],
    },
    Row {
        call: Call::Take {
            name: 'F',
            size: 900,
            align: 8,
        },
        answer: Ok(Answer::Number(144)),
        free: &[Span(1056, 96), Span(3296, 62208)],
    },
    Row {
        call: Call::Return {
            name: 'A',
            payload: 16,
            align: 8,
        },
        answer: Ok(Answer::Done),
        free: &[Span(0, 128), Span(1056, 96), Span(3296, 62208)],
    },
    Row {
        call: Call::Return {
            name: 'F',
            payload: 144,
            align: 8,
        },
        answer: Ok(Answer::Done),
        free: &[Span(0, 1152), Span(3296, 62208)],
    },
    Row {
        call: Call::Take {
            name: 'J',
            size: 1008,
            align: 8,
        },
        answer: Ok(Answer::Number(16)),
        free: &[Span(1024, 128), Span(3296, 62208)],
    },
    Row {
        call: Call::Resize {
            name: 'E',
            payload: 1296,
            size: 3000,
            align: 16,
        },
        answer: Ok(Answer::Number(1296)),
        free: &[Span(1024, 128), Span(4320, 61184)],
    },
    Row {
        call: Call::Return {
            name: 'C',
            payload: 1216,
            align: 64,
        },
        answer: Ok(Answer::Done),
        free: &[Span(1024, 224), Span(4320, 61184)],
    },
    Row {
        call: Call::Resize {
            name: 'D',
            payload: 1264,
            size: 40,
            align: 1,
        },
        answer: Ok(Answer::Number(1040)),
        free: &[Span(1088, 192), Span(4320, 61184)],
    },
    Row {
        call: Call::Return {
            name: 'J',
            payload: 16,
            align: 8,
        },
        answer: Ok(Answer::Done),
        free: &[Span(0, 1024), Span(1088, 192), Span(4320, 61184)],
    },
    Row {
        call: Call::Resize {
            name: 'E',
            payload: 1296,
            size: 20000,
            align: 16,
        },
        answer: Ok(Answer::Number(1296)),
        free: &[Span(0, 1024), Span(1088, 192), Span(21312, 44192)],
    },
    Row {
        call: Call::Take {
            name: 'K',
            size: 65000,
            align: 8,
        },
        answer: Err(Refusal::NoList),
        free: &[Span(0, 1024), Span(1088, 192), Span(21312, 44192)],
    },
    Row {
        call: Call::Return {
            name: 'D',
            payload: 1040,
            align: 1,
        },
        answer: Ok(Answer::Done),
        free: &[Span(0, 1280), Span(21312, 44192)],
    },
    Row {
        call: Call::Return {
            name: 'E',
            payload: 1296,
            align: 16,
        },
        answer: Ok(Answer::Done),
        free: &[Span(0, 65504)],
    },
];
