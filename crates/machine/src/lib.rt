// The machine: its numbers, words read and written, and the words of a guard.

#![tactic(auto)]

ghost use Rattle.std.specs.Prelude.{◌≡◌, ◌+◌, ◌/◌, ◌<◌, ◌≤◌, length};
ghost use Rattle.word.specs.Number.{num, puts};
ghost use Rattle.machine.specs.Machine.{word_bytes, words, grain, guard_next, guard_prev};

// ---- numbers

// The bytes of a word.
pub const WORD: usize = 8;

// The bytes of half a grain, and of a grain.
pub const HALF: usize = 2 * WORD;

pub const GRAIN: usize = 2 * HALF;

// The first-level classes, and the lists. `bits` has the last number too: it stands beside this crate, and its map has no
// classes.
pub const CLASSES: usize = 12;

pub const LISTS: usize = 16 * CLASSES;

// The grains of the longest piece, with its sentinel.
pub const PIECE: usize = 1 << CLASSES;

// The words of the map, a bit for each list. In the table of the lists the heads stand after them.
pub const MAP_WORDS: usize = (LISTS + 8 * WORD - 1) / (8 * WORD);

// How many values the count of a tag has.
pub const COUNTS: u16 = PIECE as u16;

// ---- words

// The word at byte i.
pub fn get(a: &[u8], i: usize) -> u64
    requires { i + word_bytes ≤ length a.now }
    ensures { result ≡ num word_bytes a.now i }
{
    word::get(a, i)
}

// v as the word at byte i.
pub fn put(a: &mut [u8], i: usize, v: u64)
    requires { i + word_bytes ≤ length a.old }
    ensures { a.new ≡ puts word_bytes a.old i v }
{
    word::put(a, i, v);
}

// ---- guards

// Bytes 0xA5, and bytes 0xC3.
const FIRST_PATTERN: u64 = 0xA5A5A5A5A5A5A5A5;

const SECOND_PATTERN: u64 = 0xC3C3C3C3C3C3C3C3;

// The first guard word of the used block at grain x. The two have the names of their definitions, and a line each.
pub fn guard_next(x: u64) -> u64
    requires { x < words / grain }
    ensures { result ≡ guard_next x }
{
    FIRST_PATTERN.wrapping_add(GRAIN as u64 * x)
}

// The second.
pub fn guard_prev(x: u64) -> u64
    requires { x < words / grain }
    ensures { result ≡ guard_prev x }
{
    SECOND_PATTERN.wrapping_add(GRAIN as u64 * x)
}
