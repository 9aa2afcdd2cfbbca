// A row of the table: a size, its list, and the list where a search for it starts.
ghost use Rattle.std.specs.Prelude.{◌≤◌};

use crate::GRAIN;
use std::fmt;

// From this one on there is no list.
const LISTS: u64 = 192;

#[derive(Clone, Copy, Debug, PartialEq, Eq)]
pub struct Row {
    pub size: u64,
    pub list: u64,
    pub start: u64,
    ghost in_range: { (32 ≤ size) × (size ≤ 131040) },
}

impl Row {
    // By the proved functions.
    pub fn proved(size: u64) -> Row
        requires { (32 ≤ size) × (size ≤ 131040) }
    {
        Row {
            size,
            list: class::map_floor(size / GRAIN),
            start: class::map_ceil(size / GRAIN),
        }
    }

    // By the words of docs/CLASSES.md.
    pub fn plain(size: u64) -> Row
        requires { (32 ≤ size) × (size ≤ 131040) }
    {
        let mut class = 0;
        let mut first = GRAIN;
        // No index is counted: the first size of a class is doubled, as the document says it.
        while first * 2 <= size {
            first *= 2;
            class += 1;
        }
        let sixteenths = (size - first) * 16;
        let list = 16 * class + sixteenths / first;
        let start = if sixteenths % first == 0 {
            list
        } else {
            list + 1
        };
        Row { size, list, start }
    }
}

#[derive(Clone, Copy)]
struct Place(u64);

impl fmt::Display for Place {
    fn fmt<W: fmt::Write>(&self, f: &mut fmt::Formatter<W>) -> fmt::Result {
        if LISTS <= self.0 {
            f.write_str("none")
        } else {
            write!(f, "{}, {}", self.0 / 16, self.0 % 16)
        }
    }
}

impl fmt::Display for Row {
    fn fmt<W: fmt::Write>(&self, f: &mut fmt::Formatter<W>) -> fmt::Result {
        let list = Place(self.list);
        let start = Place(self.start);
        write!(f, "{}: {list}; {start}", self.size)
    }
}
