// Payloads moved inside one slice, in half grains of 16 bytes. Source and target may overlap: the first ones go first, but
// upwards onto the source itself the last ones, so that each byte is read before it is written over.
//
// They go by grains of 32 bytes, each of which is read whole before it is written: the compiler makes of it two loads and two
// stores of 16 bytes, on x86-64 and aarch64. What is left is nothing or one half grain. The library's `copy_within` calls
// memmove, and the archive may call nothing.

#![tactic(auto)]

ghost use Rattle.std.specs.Prelude.{◌≡◌, ◌+◌, ◌*◌, ◌≤◌, ◌<◌, length};
ghost use Rattle.copy.specs.Moved.{moved, Moved, Ascends};

const GRAIN: usize = 32;

const HALF: usize = 16;

// The n half grains from half grain `from` on arrive at half grain `to`.
pub fn move_halves(a: &mut [u8], from: usize, to: usize, n: usize)
    requires { (16 * (from + n) ≤ length a.old) × (16 * (to + n) ≤ length a.old) }
    ensures { a.new ≡ moved a.old (16 * from) (16 * to) (16 * n) }
{
    // Three tests, since `||` and `else` cost a push, a store on the stack and two tests more.
    if to < from {
        move_ascending(a, HALF * from, HALF * to, n);
        return;
    }
    if from + n <= to {
        move_ascending(a, HALF * from, HALF * to, n);
        return;
    }
    if from < to {
        move_descending(a, HALF * from, HALF * to, n);
        return;
    }
}

// ---- the first ones first, downwards or to where none is read: n half grains, from byte `from` to byte `to`

fn move_ascending(a: &mut [u8], from: usize, to: usize, n: usize)
    requires { Ascends from to (16 * n) × (from + 16 * n ≤ length a.old) × (to + 16 * n ≤ length a.old) }
    ensures { Moved a.old from to (16 * n) a.new }
{
    let grains = n / 2;
    let end = GRAIN * grains;
    grains_ascending(a, from, to, grains);
    last_half(a, from + end, to + end, n % 2);
}

fn grains_ascending(a: &mut [u8], from: usize, to: usize, n: usize)
    requires { Ascends from to (32 * n) × (from + 32 * n ≤ length a.old) × (to + 32 * n ≤ length a.old) }
    ensures { Moved a.old from to (32 * n) a.new }
{
    for i in 0..n {
        move_grain(a, from + GRAIN * i, to + GRAIN * i);
    }
}

// ---- the last ones first, upwards

fn move_descending(a: &mut [u8], from: usize, to: usize, n: usize)
    requires { (from ≤ to) × (to + 16 * n ≤ length a.old) }
    ensures { Moved a.old from to (16 * n) a.new }
{
    let grains = n / 2;
    let end = GRAIN * grains;
    last_half(a, from + end, to + end, n % 2);
    grains_descending(a, from, to, grains);
}

fn grains_descending(a: &mut [u8], from: usize, to: usize, n: usize)
    requires { (from ≤ to) × (to + 32 * n ≤ length a.old) }
    ensures { Moved a.old from to (32 * n) a.new }
{
    for i in (0..n).rev() {
        move_grain(a, from + GRAIN * i, to + GRAIN * i);
    }
}

// ---- one

fn move_grain(a: &mut [u8], from: usize, to: usize)
    requires { (from + 32 ≤ length a.old) × (to + 32 ≤ length a.old) }
    ensures { Moved a.old from to 32 a.new }
{
    let v = word::get(a, from);
    let w = word::get(a, from + 8);
    let x = word::get(a, from + 16);
    let y = word::get(a, from + 24);
    word::put(a, to, v);
    word::put(a, to + 8, w);
    word::put(a, to + 16, x);
    word::put(a, to + 24, y);
}

// What whole grains leave: no half grain (n is 0) or one.
fn last_half(a: &mut [u8], from: usize, to: usize, n: usize)
    requires { (n < 2) × (from + 16 * n ≤ length a.old) × (to + 16 * n ≤ length a.old) }
    ensures { Moved a.old from to (16 * n) a.new }
{
    if n == 0 {
        return;
    }
    let v = word::get(a, from);
    let w = word::get(a, from + 8);
    word::put(a, to, v);
    word::put(a, to + 8, w);
}
