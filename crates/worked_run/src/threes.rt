// A number with its digits in threes, as 65,536.
use std::fmt;

#[derive(Clone, Copy)]
pub struct Threes(pub usize);

impl fmt::Display for Threes {
    fn fmt<W: fmt::Write>(&self, f: &mut fmt::Formatter<W>) -> fmt::Result {
        let mut digits = itoa::Buffer::new();
        let digits = digits.format(self.0).as_bytes();
        for (i, digit) in digits.iter().enumerate() {
            if i > 0 && (digits.len() - i) % 3 == 0 {
                f.write_char(',')?;
            }
            f.write_char(char::from(*digit))?;
        }
        Ok(())
    }
}
