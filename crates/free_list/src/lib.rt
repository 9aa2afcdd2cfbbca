// The free lists, as they stand in the lent slices: the links in the arena, the map and the heads in the table of the
// lists. Links are words: the bytes of a grain, or none. What contradicts itself is found before anything is written.

#![tactic(auto)]

ghost use Rattle.std.specs.Prelude.{◌≡◌, ◌+◌, ◌*◌, ◌<◌, IfOk};
ghost use Rattle.choice.specs.Choice.{if_eq};
ghost use Rattle.choice.specs.Says.{Says};
ghost use Rattle.table.specs.Table.{entry};
ghost use Rattle.bits.specs.Map.{map_words};
ghost use Rattle.word.specs.Word.{word_at, put_at};
ghost use Rattle.sound.specs.Links.{unlink_writes, push_writes};
ghost use Rattle.slices.specs.Decode.{grains};
ghost use Rattle.header.specs.Turned.{turned};
ghost use Rattle.free_list.specs.Lent.{no_link, link, Leads, Room, Holds};
ghost use Rattle.free_list.specs.Back.{Back};
ghost use Rattle.free_list.specs.Place.{Placed};
ghost use Rattle.free_list.specs.Seen.{SeenEntry, SeenHead};
ghost use Rattle.free_list.specs.Written.{Written};
ghost use Rattle.free_list.specs.Moves.{join_next, join_prev, join_head};

use bits::MAP_WORDS;
use header::{NEXT, NONE, PREV};
use refusal::Refusal;

// The links of a block in its list.
#[derive(Clone, Copy)]
pub struct Entry {
    pub next: u64,
    pub prev: u64,
}

// ---- checks

// Block y of list k, where what is behind it and before it agrees.
pub fn see_entry(a: &[u8], lists: &[u64], k: usize, y: usize) -> Result<Entry, Refusal>
    requires { (y < grains 8 a.now) × Room k lists.now }
    ensures { SeenEntry a.now lists.now k y result × IfOk result (λ e. Holds a.now y e.next e.prev) }
{
    let next = header::field(a, y, NEXT);
    let prev = header::field(a, y, PREV);
    if !leads_back(a, PREV, next, y) {
        return Err(Refusal::Damaged);
    }
    if !bits::is_marked(lists, k) {
        return Err(Refusal::Damaged);
    }
    if !stands_behind(a, head_of(lists, k), y, prev) {
        return Err(Refusal::Damaged);
    }
    Ok(Entry { next, prev })
}

// The word of the head of list k, before which another block is to be put, where all that is beside it agrees.
pub fn see_head(a: &[u8], lists: &[u64], k: usize) -> Result<u64, Refusal>
    requires { Room k lists.now }
    ensures { SeenHead a.now lists.now k result }
{
    let word = head_of(lists, k);
    let marked = bits::is_marked(lists, k);
    if word == NONE {
        if marked {
            return Err(Refusal::Damaged);
        }
        return Ok(word);
    }
    if !marked {
        return Err(Refusal::Damaged);
    }
    let g = header::grain_of(word);
    if header::count(a) <= g {
        return Err(Refusal::Damaged);
    }
    if header::field(a, g, PREV) != NONE {
        return Err(Refusal::Damaged);
    }
    Ok(word)
}

// The word of the head of list k.
fn head_of(lists: &[u64], k: usize) -> u64
    requires { Room k lists.now }
    ensures { result ≡ entry lists.now (map_words + k) }
{
    table::fetch(lists, MAP_WORDS + k)
}

// Whether y stands behind p in a list whose head is h: behind nothing exactly where it is the head.
#[tactic(auto, using(header::specs::Turned::grains_few))]
fn stands_behind(a: &[u8], h: u64, y: usize, p: u64) -> bool
    requires { y < grains 8 a.now }
    ensures { Placed a.now h y p result }
{
    let word = header::bytes_of(y);
    if header::count(a) <= header::grain_of(h) {
        return false;
    }
    if (h == word) != (p == NONE) {
        return false;
    }
    leads_back(a, NEXT, p, y)
}

// Whether x is none, or leads to a grain whose link f leads to y.
#[tactic(auto, using(header::specs::Turned::grains_few))]
pub fn leads_back(a: &[u8], f: usize, x: u64, y: usize) -> bool
    requires { (f < 4) × (y < grains 8 a.now) }
    ensures { Says (Back a.now f x y) result }
{
    let own = header::field(a, y, f);
    let g = grain_or(x, y);
    if header::count(a) <= g {
        return false;
    }
    header::field(a, g, f) == if_none(x, own, header::bytes_of(y))
}

// ---- a link that may be none
//
// Whether it is can't be foretold, and a jump that the processor guesses wrong takes longer than a check. So a block stands
// for what a link that is none would lead to: it is read and compared, or written as it is.

// The grain that x leads to; y where it is none.
pub fn grain_or(x: u64, y: usize) -> usize
    ensures { result ≡ if_eq x no_link y (turned x) }
{
    if x == NONE {
        return y;
    }
    header::grain_of(x)
}

// v where x is none, else w.
fn if_none(x: u64, v: u64, w: u64) -> u64
    ensures { result ≡ if_eq x no_link v w }
{
    if x == NONE {
        return v;
    }
    w
}

// ---- writes

// A block of list k, with x behind it and p before it, is taken out of the list.
pub fn unlink(a: &mut [u8], lists: &mut [u64], k: usize, x: u64, p: u64)
    requires { Room k lists.old × Leads a.old x × Leads a.old p }
    ensures { Written a.old lists.old
        (unlink_writes k (link a.old x) (link a.old p))
        a.new lists.new }
{
    join_next(a, lists, k, x, p);
    join_prev(a, lists, k, x, p);
}

// The same, where that block is y: nothing hangs on whether a link is none.
pub fn unlink_at(a: &mut [u8], lists: &mut [u64], k: usize, x: u64, p: u64, y: usize)
    requires { Room k lists.old × Leads a.old x × Leads a.old p × (y < grains 8 a.old) × Holds a.old y x p }
    ensures { Written a.old lists.old
        (unlink_writes k (link a.old x) (link a.old p))
        a.new lists.new }
{
    lead(a, NEXT, p, x, y);
    let head = if_none(p, x, head_of(lists, k));
    table::store(lists, MAP_WORDS + k, head);
    lead(a, PREV, x, p, y);
    // None where both are: the list has no block any more.
    bits::unmark_where(lists, k, if_none(p, x, p), NONE);
}

// Link f of what w leads to is v. Where w is none nothing changes: that link of y is v already.
fn lead(a: &mut [u8], f: usize, w: u64, v: u64, y: usize)
    requires { (f < 4) × (y < grains 8 a.old) × Leads a.old w × (word_at 8 a.old (4 * y + f) ≡ v) }
    ensures { a.new ≡ if_eq w no_link a.old (put_at 8 a.old (4 * turned w + f) v) }
{
    header::put_field(a, grain_or(w, y), f, v);
}

// What is before the block, p or the head of list k, leads to x.
fn join_next(a: &mut [u8], lists: &mut [u64], k: usize, x: u64, p: u64)
    requires { Room k lists.old × Leads a.old x × Leads a.old p }
    ensures { Written a.old lists.old
        (join_next k (link a.old x) (link a.old p))
        a.new lists.new }
{
    if p == NONE {
        table::store(lists, MAP_WORDS + k, x);
        return;
    }
    header::put_field(a, header::grain_of(p), NEXT, x);
}

// What is behind it, x, leads back to p; where nothing is beside it, the list is not marked any more.
fn join_prev(a: &mut [u8], lists: &mut [u64], k: usize, x: u64, p: u64)
    requires { Room k lists.old × Leads a.old x × Leads a.old p }
    ensures { Written a.old lists.old
        (join_prev k (link a.old x) (link a.old p))
        a.new lists.new }
{
    if x != NONE {
        header::put_field(a, header::grain_of(x), PREV, p);
        return;
    }
    if p != NONE {
        return;
    }
    bits::unmark(lists, k);
}

// Block y is put at the head of list k, before h.
#[tactic(auto, using(header::specs::Turned::grains_few))]
pub fn push(a: &mut [u8], lists: &mut [u64], k: usize, y: usize, h: u64)
    requires { (y < grains 8 a.old) × Room k lists.old × Leads a.old h }
    ensures { Written a.old lists.old
        (push_writes k y (link a.old h))
        a.new lists.new }
{
    join_head(a, lists, k, y, h);
    put_entry(a, y, h);
    table::store(lists, MAP_WORDS + k, header::bytes_of(y));
}

// The old head h leads back to y; where there is none, the list is marked.
#[tactic(auto, using(header::specs::Turned::grains_few))]
fn join_head(a: &mut [u8], lists: &mut [u64], k: usize, y: usize, h: u64)
    requires { (y < grains 8 a.old) × Room k lists.old × Leads a.old h }
    ensures { Written a.old lists.old
        (join_head k y (link a.old h))
        a.new lists.new }
{
    if h == NONE {
        bits::mark(lists, k);
        return;
    }
    header::put_field(a, header::grain_of(h), PREV, header::bytes_of(y));
}

// Nothing before block y, and h behind it.
fn put_entry(a: &mut [u8], y: usize, h: u64)
    requires { y < grains 8 a.old }
    ensures { a.new ≡ put_at 8 (put_at 8 a.old (4 * y + 3) no_link) (4 * y + 2) h }
{
    header::put_field(a, y, PREV, NONE);
    header::put_field(a, y, NEXT, h);
}
