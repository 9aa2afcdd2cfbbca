// A value in a column: `{:<24}` of it ends in spaces, as of a text. No text is stored, since the program takes no memory.
use std::fmt;
use std::fmt::Write;

#[derive(Clone, Copy)]
pub struct Column<T>(pub T);

impl<T: fmt::Display> fmt::Display for Column<T> {
    fn fmt<W: Write>(&self, f: &mut fmt::Formatter<W>) -> fmt::Result {
        let width = f.width().unwrap_or(0);
        let mut counted = Counted { out: f, count: 0 };
        write!(counted, "{}", &self.0)?;
        let count = counted.count;
        f.write_repeated(" ", width.saturating_sub(count))
    }
}

// A writer, and how many bytes it has passed on: as many as characters, since the columns have ASCII alone.
#[derive(Drop)]
struct Counted<'a, W> {
    out: &'a mut fmt::Formatter<W>,
    count: usize,
}

impl<W: Write> Write for Counted<'_, W> {
    fn write_str(&mut self, s: &str) -> fmt::Result {
        self.count = self.count.saturating_add(s.len());
        self.out.write_str(s)
    }
}
