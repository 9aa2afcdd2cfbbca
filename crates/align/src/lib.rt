// Alignments: the test for a power of two, and rounding up and down to a multiple of one.

#![tactic(auto)]

ghost use Rattle.std.specs.Prelude.{◌+◌, ◌<◌, ◌^◌};
ghost use Rattle.choice.specs.Says.{Says};
ghost use Rattle.align.specs.Align.{Power, Rounded, RoundedDown};

// Whether a is a power of two. The library's test counts the bits, which takes 3 instructions more in a return on aarch64.
pub fn is_power(a: u64) -> bool
    ensures { Says (Power a) result }
{
    a != 0 && 1 << a.trailing_zeros() == a
}

// The first multiple of a at or after x.
pub fn round_up(x: u64, a: u64) -> u64
    requires { (x + a < 2 ^ 64) × Power a }
    ensures { Rounded x a result }
{
    let t = a.trailing_zeros();
    ((x + (a - 1)) >> t) << t
}

// The last multiple of a at or before x.
pub fn round_down(x: u64, a: u64) -> u64
    requires { Power a }
    ensures { RoundedDown x a result }
{
    let t = a.trailing_zeros();
    (x >> t) << t
}
