// Words of an arena: eight bytes at an offset, lowest first, as one number, and four bytes for machines of 32 bits.
//
// Each function is one load or one store. This was checked on the object code and is checked again by tools/word-code: it
// exports the four functions from a copy of this crate, builds the static library, and looks with objdump that each is one
// `mov` between memory and a register, and `ret`, after what an exported function does to a null pointer. A number is stored
// byte by byte: where the compiler may not call memcpy, the library's copy of a slice is a loop.

#![tactic(auto)]

ghost use Rattle.std.specs.Prelude.{◌≡◌, ◌+◌, ◌≤◌, ◌<◌, ◌%◌, length, set};
ghost use Rattle.word.specs.Number.{num, puts};
ghost use Rattle.word.specs.Spelled.{four, eight, four_put, eight_put};

// ---- four bytes

// The four bytes at i as one number.
pub fn get4(a: &[u8], i: usize) -> u64
    requires { i + 4 ≤ length a.now }
    ensures { result ≡ num 4 a.now i }
{
    get_four(a, i)
}

// Four and eight bytes are read in a line each, which one function for both would not be.
fn get_four(a: &[u8], i: usize) -> u64
    requires { i + 4 ≤ length a.now }
    ensures { result ≡ four a.now i }
{
    u64::from(u32::from_le_bytes(*a[i..i + 4].first_chunk().unwrap()))
}

// The four lowest bytes of v, put at i.
pub fn put4(a: &mut [u8], i: usize, v: u64)
    requires { i + 4 ≤ length a.old }
    ensures { a.new ≡ puts 4 a.old i v }
{
    put_four(a, i, v);
}

fn put_four(a: &mut [u8], i: usize, v: u64)
    requires { i + 4 ≤ length a.old }
    ensures { a.new ≡ four_put a.old i v }
{
    store(a, i, v);
    store(a, i + 1, v / 256);
    store(a, i + 2, v / 65536);
    store(a, i + 3, v / 16777216);
}

fn store(a: &mut [u8], i: usize, v: u64)
    requires { i < length a.old }
    ensures { a.new ≡ set a.old i (v % 256) }
{
    a[i] = (v % 256) as u8;
}

// ---- eight bytes

// The eight bytes at i as one number.
pub fn get(a: &[u8], i: usize) -> u64
    requires { i + 8 ≤ length a.now }
    ensures { result ≡ num 8 a.now i }
{
    get_eight(a, i)
}

fn get_eight(a: &[u8], i: usize) -> u64
    requires { i + 8 ≤ length a.now }
    ensures { result ≡ eight a.now i }
{
    u64::from_le_bytes(*a[i..i + 8].first_chunk().unwrap())
}

// v, put into the eight bytes at i.
pub fn put(a: &mut [u8], i: usize, v: u64)
    requires { i + 8 ≤ length a.old }
    ensures { a.new ≡ puts 8 a.old i v }
{
    put_eight(a, i, v);
}

fn put_eight(a: &mut [u8], i: usize, v: u64)
    requires { i + 8 ≤ length a.old }
    ensures { a.new ≡ eight_put a.old i v }
{
    put_four(a, i, v);
    put_four(a, i + 4, v / 4294967296);
}
