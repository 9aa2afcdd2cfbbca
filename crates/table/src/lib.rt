// Tables of numbers that the caller lends: one reader and one writer, under the names that their laws have, and one that
// writes a whole table, or the part of one that it is lent.

#![tactic(auto)]

ghost use Rattle.std.specs.Prelude.{◌≡◌, ◌<◌, length, replicate};
ghost use Rattle.table.specs.Table.{entry, enter};

// Entry number i of the table.
pub fn fetch(t: &[u64], i: usize) -> u64
    requires { i < length t.now }
    ensures { result ≡ entry t.now i }
{
    t[i]
}

// v as entry number i of the table.
pub fn store(t: &mut [u64], i: usize, v: u64)
    requires { i < length t.old }
    ensures { t.new ≡ enter t.old i v }
{
    t[i] = v;
}

// w as each entry of the table.
pub fn fill(t: &mut [u64], w: u64)
    ensures { t.new ≡ replicate (length t.old) w }
{
    t.fill(w);
}
