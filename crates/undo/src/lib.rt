// A take, undone: the words that it will write are saved before it, and put back where what is to come after it is refused.
// Then every slice is as before. More is saved than some takes write, so that no case of them is followed here.

#![tactic(auto)]

ghost use Rattle.std.specs.Prelude.{◌≡◌, ◌+◌, ◌/◌, ◌<◌, length};
ghost use Rattle.slices.specs.Decode.{grains};
ghost use Rattle.free_list.specs.Lent.{Room, Leads};
ghost use Rattle.occupy.specs.Taken.{Ready};
ghost use Rattle.undo.specs.Saved.{was_at, was_in, links_of, block_of, header_of, heads_of, saved_of, SavedTake, Inside};
ghost use Rattle.undo.specs.Undone.{links_back, block_back, header_back, heads_back, Undone};

use allocate::Plan;
use bits::MAP_WORDS;
use header::{BEFORE, NEXT, NONE, PREV, SIZE};

// A word that stood at a grain, or as an entry of a table.
#[derive(Clone, Copy)]
pub struct Was {
    pub at: usize,
    pub word: u64,
}

// The previous of the block behind in the list, and of the block that the rest is put before.
#[derive(Clone, Copy)]
pub struct Links {
    pub next: Was,
    pub head: Was,
}

// The block's size, the link to the block before in the block behind it, and the pad.
#[derive(Clone, Copy)]
pub struct Block {
    pub size: Was,
    pub before: Was,
    pub pad: Was,
}

// The header of the rest.
#[derive(Clone, Copy)]
pub struct Header {
    pub at: usize,
    pub size: u64,
    pub before: u64,
    pub next: u64,
    pub prev: u64,
}

// The map, and the heads of the block's list and of the rest's.
#[derive(Clone, Copy)]
pub struct Heads {
    pub first: u64,
    pub second: u64,
    pub third: u64,
    pub list: Was,
    pub rest: Was,
}

// All that a take writes to.
#[derive(Clone, Copy)]
pub struct Saved {
    pub links: Links,
    pub block: Block,
    pub rest: Header,
    pub heads: Heads,
    pub live: Was,
}

// ---- saved

// What the take with this plan will write to, as it is now. Where nothing is left of the block, as if the rest went to the
// block's own list, before none.
pub fn save_take(a: &[u8], lists: &[u64], live: &[u64], p: Plan) -> Saved
    requires { Ready a.now lists.now live.now p }
    ensures { SavedTake a.now lists.now live.now p result }
{
    // Two calls, since with the choice before one call a resize loads 293 words at most on x86-64, and 265 so.
    if p.keep == p.grains {
        return save(
            a,
            lists,
            live,
            Plan {
                rest_list: p.list,
                head: NONE,
                ..p
            },
        );
    }
    save(a, lists, live, p)
}

// The same, where the list and the head of the rest are some.
#[tactic(auto, using(header::specs::Turned::grains_few))]
fn save(a: &[u8], lists: &[u64], live: &[u64], p: Plan) -> Saved
    requires { Ready a.now lists.now live.now p × Room p.rest_list lists.now × Leads a.now p.head }
    ensures { result ≡ saved_of a.now lists.now live.now p }
{
    Saved {
        links: save_links(a, p.next, p.head, p.at),
        block: save_block(a, p.at, p.grains, p.place),
        rest: save_header(a, p.at + p.keep),
        heads: save_heads(lists, p.list, p.rest_list),
        live: was_in(live, (2 * p.at + p.place) / 64),
    }
}

// Where x and h lead, or at y where they are none.
#[tactic(auto, using(crate::specs::Saved::led_in))]
fn save_links(a: &[u8], x: u64, h: u64, y: usize) -> Links
    requires { Leads a.now x × Leads a.now h × (y < grains 8 a.now) }
    ensures { result ≡ links_of a.now x h y }
{
    Links {
        next: was_at(a, free_list::grain_or(x, y), PREV),
        head: was_at(a, free_list::grain_or(h, y), PREV),
    }
}

// Of the block of s grains at y, whose payload is at place d.
#[tactic(auto, using(header::specs::Turned::grains_few))]
fn save_block(a: &[u8], y: usize, s: usize, d: usize) -> Block
    requires { (y + s < grains 8 a.now) × (0 < d) × (y + d / 2 < grains 8 a.now) }
    ensures { result ≡ block_of a.now y s d }
{
    Block {
        size: was_at(a, y, SIZE),
        before: was_at(a, y + s, BEFORE),
        pad: was_at(a, y + (d - 1) / 2, PREV),
    }
}

fn save_header(a: &[u8], g: usize) -> Header
    requires { g < grains 8 a.now }
    ensures { result ≡ header_of a.now g }
{
    Header {
        at: g,
        size: header::field(a, g, SIZE),
        before: header::field(a, g, BEFORE),
        next: header::field(a, g, NEXT),
        prev: header::field(a, g, PREV),
    }
}

// Of the lists k and q.
fn save_heads(lists: &[u64], k: usize, q: usize) -> Heads
    requires { Room k lists.now × Room q lists.now }
    ensures { result ≡ heads_of lists.now k q }
{
    Heads {
        first: table::fetch(lists, 0),
        second: table::fetch(lists, 1),
        third: table::fetch(lists, 2),
        list: was_in(lists, MAP_WORDS + k),
        rest: was_in(lists, MAP_WORDS + q),
    }
}

// Word f of grain g.
fn was_at(a: &[u8], g: usize, f: usize) -> Was
    requires { (g < grains 8 a.now) × (f < 4) }
    ensures { result ≡ was_at a.now g f }
{
    Was {
        at: g,
        word: header::field(a, g, f),
    }
}

// Entry i of a table.
fn was_in(t: &[u64], i: usize) -> Was
    requires { i < length t.now }
    ensures { result ≡ was_in t.now i }
{
    Was {
        at: i,
        word: table::fetch(t, i),
    }
}

// ---- put back

// The slices are as they were when s was saved, if the take was all that was written since.
pub fn undo_take(a: &mut [u8], lists: &mut [u64], live: &mut [u64], s: Saved)
    requires { Inside a.old lists.old live.old s }
    ensures { Undone a.old lists.old live.old s a.new lists.new live.new }
{
    links_back(a, s.links);
    block_back(a, s.block);
    header_back(a, s.rest);
    heads_back(lists, s.heads);
    table::store(live, s.live.at, s.live.word);
}

#[tactic(auto, using(carve::specs::Made::put_grains))]
fn links_back(a: &mut [u8], s: Links)
    requires { (s.next.at < grains 8 a.old) × (s.head.at < grains 8 a.old) }
    ensures { a.new ≡ links_back a.old s }
{
    header::put_field(a, s.next.at, PREV, s.next.word);
    header::put_field(a, s.head.at, PREV, s.head.word);
}

#[tactic(auto, using(carve::specs::Made::put_grains))]
fn block_back(a: &mut [u8], s: Block)
    requires { (s.size.at < grains 8 a.old) × (s.before.at < grains 8 a.old) × (s.pad.at < grains 8 a.old) }
    ensures { a.new ≡ block_back a.old s }
{
    header::put_field(a, s.size.at, SIZE, s.size.word);
    header::put_field(a, s.before.at, BEFORE, s.before.word);
    header::put_field(a, s.pad.at, PREV, s.pad.word);
}

#[tactic(auto, using(carve::specs::Made::put_grains))]
fn header_back(a: &mut [u8], s: Header)
    requires { s.at < grains 8 a.old }
    ensures { a.new ≡ header_back a.old s }
{
    header::put_field(a, s.at, SIZE, s.size);
    header::put_field(a, s.at, BEFORE, s.before);
    header::put_field(a, s.at, NEXT, s.next);
    header::put_field(a, s.at, PREV, s.prev);
}

fn heads_back(lists: &mut [u64], s: Heads)
    requires { (2 < length lists.old) × (s.list.at < length lists.old) × (s.rest.at < length lists.old) }
    ensures { lists.new ≡ heads_back lists.old s }
{
    table::store(lists, 0, s.first);
    table::store(lists, 1, s.second);
    table::store(lists, 2, s.third);
    table::store(lists, s.list.at, s.list.word);
    table::store(lists, s.rest.at, s.rest.word);
}
