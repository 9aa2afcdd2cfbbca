// The list of a block, and where a search starts, for sizes counted in grains. A list has one number, 16 * fl + sl.
// Both functions shift 16 * s, which holds the four bits below the highest one whatever s is, so there is one shift,
// to the right, and no case. Neither knows how many lists there are: a caller compares the answer with its own number.

#![tactic(auto)]

ghost use Rattle.std.specs.Prelude.{◌≡◌, ◌<◌, ◌^◌};
ghost use Rattle.class.specs.Class.{log, list_of, start_of};

// The place of the highest set bit.
fn top_bit(x: u64) -> u64
    requires { 0 < x }
    ensures { result ≡ log x }
{
    u64::from(x.ilog2())
}

// The list of a free block of s grains: sixteenths of its class, rounded down.
pub fn map_floor(s: u64) -> u64
    requires { (0 < s) × (s < 2 ^ 60) }
    ensures { result ≡ list_of s }
{
    let f = top_bit(s);
    16 * f + ((16 * s) >> f) - 16
}

// The list where a search for s grains starts: the same, rounded up.
pub fn map_ceil(s: u64) -> u64
    requires { (0 < s) × (s < 2 ^ 59) }
    ensures { result ≡ start_of s }
{
    let f = top_bit(s);
    16 * f + ((16 * s + ((1 << f) - 1)) >> f) - 16
}
