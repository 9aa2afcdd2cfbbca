// The lent slices, one word at a time: tags, links, heads and marks, as they stand there. Links and heads are grain numbers.
// A tag stands with its flags above its count, and is tested as it stands.

#![tactic(auto)]

ghost use Rattle.std.specs.Prelude.{◌≡◌, ◌+◌, ◌/◌, ◌%◌, ◌≤◌, ◌<◌, length};
ghost use Rattle.choice.specs.Says.{Says};
ghost use Rattle.table.specs.Table.{entry, enter};
ghost use Rattle.bits.specs.Map.{map_bit, mark_bit, unmark_bit};
ghost use Rattle.machine.specs.Machine.{piece, map_words, guard_next, guard_prev};
ghost use Rattle.machine.specs.Machine.{lists as list_count};
ghost use Rattle.tags.specs.Tag.{flags, START, FREE, free_tag, end_tag, start_tag, pad_tag, first_tag};
ghost use Rattle.tags.specs.Decode.{Busy};
ghost use Rattle.lent.specs.Slices.{grains, tag_of, tag_word, next_at, prev_at, put_next, put_prev, head_at, put_head};

use machine::{COUNTS, GRAIN, MAP_WORDS, WORD};

// ---- the arena

// How many grains the arena has.
pub fn grain_count(a: &[u8]) -> usize
    ensures { result ≡ grains a.now }
{
    a.len() / GRAIN
}

// The first word of grain x: the next block of its list, or a guard. The four functions that read and write the two words
// have the names of their definitions; one for both would need a third argument.
pub fn next(a: &[u8], x: usize) -> u64
    requires { x < grains a.now }
    ensures { result ≡ next_at a.now x }
{
    machine::get(a, GRAIN * x)
}

// The second: the previous block of its list, or a guard.
pub fn prev(a: &[u8], x: usize) -> u64
    requires { x < grains a.now }
    ensures { result ≡ prev_at a.now x }
{
    machine::get(a, GRAIN * x + WORD)
}

// v as the first word of grain x.
pub fn put_next(a: &mut [u8], x: usize, v: u64)
    requires { x < grains a.old }
    ensures { a.new ≡ put_next a.old x v }
{
    machine::put(a, GRAIN * x, v);
}

// v as the second.
pub fn put_prev(a: &mut [u8], x: usize, v: u64)
    requires { x < grains a.old }
    ensures { a.new ≡ put_prev a.old x v }
{
    machine::put(a, GRAIN * x + WORD, v);
}

// Whether the guard of the block at x stands.
pub fn is_guarded(a: &[u8], x: usize) -> bool
    requires { x < grains a.now }
    ensures { Says ((next_at a.now x ≡ guard_next x) × (prev_at a.now x ≡ guard_prev x)) result }
{
    next(a, x) == machine::guard_next(x as u64) && prev(a, x) == machine::guard_prev(x as u64)
}

// The guard of the block at x.
pub fn put_guard(a: &mut [u8], x: usize)
    requires { x < grains a.old }
    ensures { a.new ≡ put_prev (put_next a.old x (guard_next x)) x (guard_prev x) }
{
    put_next(a, x, machine::guard_next(x as u64));
    put_prev(a, x, machine::guard_prev(x as u64));
}

// ---- the lists

// The head of list k.
pub fn head(lists: &[u64], k: usize) -> u64
    requires { map_words + k < length lists.now }
    ensures { result ≡ head_at lists.now k }
{
    table::fetch(lists, MAP_WORDS + k)
}

// v as the head of list k.
pub fn put_head(lists: &mut [u64], k: usize, v: u64)
    requires { map_words + k < length lists.old }
    ensures { lists.new ≡ put_head lists.old k v }
{
    table::store(lists, MAP_WORDS + k, v);
}

// Whether list k is marked.
pub fn is_marked(lists: &[u64], k: usize) -> bool
    requires { (map_words ≤ length lists.now) × (k < list_count) }
    ensures { Says (map_bit lists.now k ≡ 1) result }
{
    bits::is_marked(lists, k)
}

// List k marked.
pub fn mark(lists: &mut [u64], k: usize)
    requires { (map_words ≤ length lists.old) × (k < list_count) }
    ensures { lists.new ≡ mark_bit lists.old k }
{
    bits::mark(lists, k);
}

// List k unmarked.
pub fn unmark(lists: &mut [u64], k: usize)
    requires { (map_words ≤ length lists.old) × (k < list_count) }
    ensures { lists.new ≡ unmark_bit lists.old k }
{
    bits::unmark(lists, k);
}

// ---- the tags

// The tag of grain x, as it stands.
pub fn tag(tags: &[u16], x: usize) -> u16
    requires { x < length tags.now }
    ensures { result ≡ entry tags.now x }
{
    tags[x]
}

// v as the tag of grain x.
pub fn put_tag(tags: &mut [u16], x: usize, v: u16)
    requires { x < length tags.old }
    ensures { tags.new ≡ enter tags.old x v }
{
    tags[x] = v;
}

// ---- what a tag says

// The flags, numbers and no enum, since a stored tag is their sum and its count: the first grain of a block; the first or
// last of a free one; a payload starts in this grain, or at the next.
pub const START: u16 = 8;

pub const FREE: u16 = 4;

pub const SMALL: u16 = 2;

pub const LARGE: u16 = 1;

// The same, as they stand above the count.
const STARTS: u16 = START * COUNTS;

const FREES: u16 = FREE * COUNTS;

const LARGES: u16 = LARGE * COUNTS;

const FREE_STARTS: u16 = (START + FREE) * COUNTS;

const SMALL_STARTS: u16 = (START + SMALL) * COUNTS;

const LARGE_STARTS: u16 = (START + LARGE) * COUNTS;

// Its count.
pub fn count(tag: u16) -> usize
    ensures { result ≡ tag_of tag / flags }
{
    usize::from(tag % COUNTS)
}

// Its flags.
pub fn flags_of(tag: u16) -> u16
    ensures { result ≡ tag_of tag % flags }
{
    tag / COUNTS
}

// Whether a free block starts here.
pub fn starts_free(tag: u16) -> bool
    ensures { Says ((tag_of tag % flags ≡ START + FREE) × (1 ≤ tag_of tag / flags)) result }
{
    FREE_STARTS < tag && tag < FREE_STARTS + COUNTS
}

// Whether a block starts here that is not free.
pub fn is_busy(tag: u16) -> bool
    ensures { Says (Busy (tag_of tag)) result }
{
    STARTS <= tag && tag < SMALL_STARTS + COUNTS
}

// Whether a free block starts or ends here.
pub fn has_free(tag: u16) -> bool
    ensures { Says (tag_of tag % START ≡ FREE) result }
{
    flags_of(tag) % START == FREE
}

// Whether it is one of s grains.
pub fn ends_free(tag: u16, s: usize) -> bool
    requires { s < piece }
    ensures { Says ((tag_of tag % START ≡ FREE) × (tag_of tag / flags ≡ s)) result }
{
    tag % STARTS == FREES + s as u16
}

// ---- tags made

// The first of a free block of s grains.
pub fn free_tag(s: usize) -> u16
    requires { s < piece }
    ensures { result ≡ tag_word (free_tag s) }
{
    FREE_STARTS + s as u16
}

// Its last.
pub fn end_tag(s: usize) -> u16
    requires { s < piece }
    ensures { result ≡ tag_word (end_tag s) }
{
    FREES + s as u16
}

// The first of a used block of s grains whose payload stands after d half grains.
pub fn first_tag(s: usize, d: usize) -> u16
    requires { s < piece }
    ensures { result ≡ tag_word (first_tag s d) }
{
    match d {
        1 => SMALL_STARTS + s as u16,
        2 => LARGE_STARTS + s as u16,
        _ => start_tag(s),
    }
}

// The first of a used block of s grains with more padding, and a sentinel's.
pub fn start_tag(s: usize) -> u16
    requires { s < piece }
    ensures { result ≡ tag_word (start_tag s) }
{
    STARTS + s as u16
}

// The last of p grains of padding.
pub fn pad_tag(p: usize) -> u16
    requires { p < piece }
    ensures { result ≡ tag_word (pad_tag p) }
{
    LARGES + p as u16
}
