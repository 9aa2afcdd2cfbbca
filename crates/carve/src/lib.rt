// What is written where a block is made: its size, the link to the block before in the block behind it, what is left of
// it, and the pad before a payload of the large kind. Nothing is checked here: the plan was.

#![tactic(auto)]

ghost use Rattle.std.specs.Prelude.{◌≡◌, ◌+◌, ◌-◌, ◌/◌, ◌≤◌, ◌<◌};
ghost use Rattle.sound.specs.Plans.{whole_writes, split_writes, pad_writes};
ghost use Rattle.slices.specs.Decode.{grains};
ghost use Rattle.free_list.specs.Lent.{Room, Leads, link};
ghost use Rattle.free_list.specs.Written.{Written};
ghost use Rattle.carve.specs.Made.{WrittenInArena, left_behind};

use header::{BEFORE, PREV, SIZE};

// The list of what is left of a block, and the head before which it is put.
#[derive(Clone, Copy, Debug, PartialEq, Eq)]
pub struct Rest {
    pub list: usize,
    pub head: u64,
}

// The block of t grains at x is in use.
#[tactic(auto, using(header::specs::Turned::grains_few, crate::specs::Made::put_grains))]
pub fn put_whole(a: &mut [u8], x: usize, t: usize)
    requires { x + t < grains 8 a.old }
    ensures { WrittenInArena a.old (whole_writes x t) a.new }
{
    header::put_field(a, x, SIZE, header::bytes_of(t) + 1);
    header::put_field(a, x + t, BEFORE, header::bytes_of(x));
}

// Of the t grains at x the first m are a block in use, and the others a free block.
#[tactic(auto, using(header::specs::Turned::grains_few, crate::specs::Made::put_grains))]
pub fn put_split(a: &mut [u8], x: usize, t: usize, m: usize)
    requires { (m ≤ t) × (x + t < grains 8 a.old) }
    ensures { WrittenInArena a.old (split_writes x t m) a.new }
{
    header::put_field(a, x, SIZE, header::bytes_of(m) + 1);
    header::put_field(a, x + m, SIZE, header::bytes_of(t - m));
    header::put_field(a, x + m, BEFORE, header::bytes_of(x));
    header::put_field(a, x + t, BEFORE, header::bytes_of(x + m));
}

// The pad of a payload at place d of the block at x, where it is of the large kind.
#[tactic(auto, using(header::specs::Turned::grains_few))]
pub fn put_pad(a: &mut [u8], x: usize, d: usize)
    requires { (0 < d) × (x + d / 2 < grains 8 a.old) }
    ensures { WrittenInArena a.old (pad_writes x d) a.new }
{
    if d % 2 != 0 {
        return;
    }
    header::put_field(a, x + d / 2 - 1, PREV, header::bytes_of(x));
}

// Of the t grains at x the first m are a block in use; the others, if any, a free block at the head of list q, before h.
#[tactic(auto, using(header::specs::Turned::grains_few))]
pub fn put_left(a: &mut [u8], lists: &mut [u64], x: usize, t: usize, m: usize, q: usize, h: u64)
    requires { (m ≤ t) × (x + t < grains 8 a.old) × ((m ≡ t → ⊥) → Room q lists.old × Leads a.old h) }
    ensures { Written a.old lists.old
        (left_behind x t m q (link a.old h))
        a.new lists.new }
{
    if m == t {
        put_whole(a, x, t);
        return;
    }
    free_list::push(a, lists, q, x + m, h);
    put_split(a, x, t, m);
}
