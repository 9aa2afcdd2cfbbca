// The words of a header, as they stand in the arena, and what they say. A grain is 32 bytes, four words; word f of grain g
// is word number 4 * g + f of the arena. No crate above this one knows a byte of it.

#![tactic(auto)]

ghost use Rattle.std.specs.Prelude.{◌≡◌, ◌+◌, ◌*◌, ◌<◌};
ghost use Rattle.choice.specs.Says.{Says};
ghost use Rattle.word.specs.Word.{word_at, put_at};
ghost use Rattle.sound.specs.Checks.{word_of};
ghost use Rattle.slices.specs.Decode.{grains};
ghost use Rattle.slices.specs.Arena.{size_at, link_at};
ghost use Rattle.header.specs.Turned.{turned};
ghost use Rattle.header.specs.Told.{free_of, used_of, busy_of};

// The words of a header: how large the block is, and which block is before it in the arena. They are numbers and no enum, as they
// are added up to a word's place, and the definitions count them so.
pub const SIZE: usize = 0;

pub const BEFORE: usize = 1;

// The links of a free block in its list. Before a payload that stands at a grain, the last word of the grain before says
// which block is its own.
pub const NEXT: usize = 2;

pub const PREV: usize = 3;

// A link that leads nowhere. No Option: it is a word of the arena.
pub const NONE: u64 = 18446744073709551615;

// The sentinel's size word: one grain, used, the last of its piece.
pub const SENTINEL: u64 = 35;

// ---- words

// How many grains the arena has.
pub fn count(a: &[u8]) -> usize
    ensures { result ≡ grains 8 a.now }
{
    a.len() / 32
}

// Word f of the header at grain g.
pub fn field(a: &[u8], g: usize, f: usize) -> u64
    requires { (g < grains 8 a.now) × (f < 4) }
    ensures { result ≡ word_at 8 a.now (4 * g + f) }
{
    word::get(a, 8 * (4 * g + f))
}

// v as word f of the header at grain g.
pub fn put_field(a: &mut [u8], g: usize, f: usize, v: u64)
    requires { (g < grains 8 a.old) × (f < 4) }
    ensures { a.new ≡ put_at 8 a.old (4 * g + f) v }
{
    word::put(a, 8 * (4 * g + f), v);
}

// The grains that a word of bytes says; far more than any arena has, where it is between two grains.
pub fn grain_of(v: u64) -> usize
    ensures { result ≡ turned v }
{
    (v / 32 + v % 32 * 576460752303423488) as usize
}

// The bytes of g grains.
pub fn bytes_of(g: usize) -> u64
    requires { g < 576460752303423488 }
    ensures { result ≡ 32 * g }
{
    32 * g as u64
}

// ---- what they say

// The grains of the free block at g, where one is there.
pub fn free_at(a: &[u8], g: usize) -> Option<usize>
    requires { g < grains 8 a.now }
    ensures { result ≡ free_of (word_of (size_at 8 a.now g)) }
{
    let v = field(a, g, SIZE);
    if v == 0 {
        return None;
    }
    let free = grain_of(v);
    if count(a) - g <= free {
        return None;
    }
    Some(free)
}

// The grains of the used block at g, where one is there.
pub fn used_at(a: &[u8], g: usize) -> Option<usize>
    requires { g < grains 8 a.now }
    ensures { result ≡ used_of (word_of (size_at 8 a.now g)) }
{
    let word = field(a, g, SIZE);
    if word <= 1 {
        return None;
    }
    let used = grain_of(word - 1);
    if count(a) - g <= used {
        return None;
    }
    Some(used)
}

// Whether a used block or a sentinel is at g.
pub fn is_busy(a: &[u8], g: usize) -> bool
    requires { g < grains 8 a.now }
    ensures { result ≡ busy_of (word_of (size_at 8 a.now g)) }
{
    used_at(a, g).is_some() || field(a, g, SIZE) == SENTINEL
}

// Whether link f of grain g leads to grain y: one comparison of words.
#[tactic(auto, using(crate::specs::Turned::grains_few))]
pub fn leads(a: &[u8], g: usize, f: usize, y: usize) -> bool
    requires { (g < grains 8 a.now) × (f < 4) × (y < grains 8 a.now) }
    ensures { Says (link_at 8 a.now f 0 g ≡ y) result }
{
    field(a, g, f) == bytes_of(y)
}
