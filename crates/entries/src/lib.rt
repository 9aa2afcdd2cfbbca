// The free lists, as they stand in the lent slices: checks of a free block, of an entry and of a head, and the writes with
// which a block leaves a list or enters one. Links and heads are words of any value until they are checked.
//
// Whether a block is its list's first, last or only one can't be predicted, and a jump that is predicted wrongly takes longer
// than a check. So no jump depends on it: a value is chosen of two, or a block stands in for one that is missing.

#![tactic(auto)]

ghost use Rattle.std.specs.Prelude.{IfOk, ◌≡◌, List, ℕ, ◌+◌, ◌-◌, ◌≤◌, ◌<◌, length};
ghost use Rattle.choice.specs.Choice.{if_eq};
ghost use Rattle.choice.specs.Says.{Says};
ghost use Rattle.class.specs.Class.{list_of};
ghost use Rattle.bits.specs.Map.{map_bit};
ghost use Rattle.script.specs.Script.{run};
ghost use Rattle.machine.specs.Machine.{classes, piece, words, map_words};
ghost use Rattle.machine.specs.Machine.{lists as list_count};
ghost use Rattle.chains.specs.Links.{mark_left};
ghost use Rattle.chains.specs.Steps.{Step};
ghost use Rattle.plans.specs.Checks.{see_free, see_entry, see_head, see_rest, see_join};
ghost use Rattle.lent.specs.Slices.{grains, put_next, put_prev, head_at, put_head, put_mark};
ghost use Rattle.refusal.specs.Answered.{answered};
ghost use Rattle.entries.specs.Answers.{chosen, Long, Enough};
ghost use Rattle.entries.specs.Agrees.{Begins};
ghost use Rattle.entries.specs.Stepped.{Stepped, Leaves, Enters};

use machine::PIECE;
use refusal::Refusal;

// The arena and the tags of its grains, while they are only read.
#[derive(Clone, Copy)]
pub struct Tagged<'a> {
    pub arena: &'a [u8],
    pub tags: &'a [u16],
    pub ghost sized: { length arena.now < words },
    pub ghost covered: { grains arena.now < length tags.now },
}

// All lent slices, while they are only read: those, and the lists.
#[derive(Clone, Copy)]
pub struct Lent<'a> {
    pub tagged: Tagged<'a>,
    pub lists: &'a [u64],
    pub ghost listed: { map_words + list_count ≤ length lists.now },
}

// The arena and the lists, while blocks leave and enter lists.
#[derive(Drop)]
pub struct Links<'a> {
    pub arena: &'a mut [u8],
    pub lists: &'a mut [u64],
}

// ---- choices

// x if c holds, else y.
pub fn choose(c: bool, x: u64, y: u64) -> u64
    ensures { result ≡ chosen c x y }
{
    if c { x } else { y }
}

// The list of s grains.
pub fn list_of(s: usize) -> usize
    requires { (0 < s) × (s < piece) }
    ensures { (result ≡ list_of s) × (result < list_count) }
{
    class::map_floor(s as u64) as usize
}

// ---- the slices that are read, as values

impl<'a> Tagged<'a> {
    // An arena with a tag for each grain and for the end.
    pub fn new(arena: &'a [u8], tags: &'a [u16]) -> Tagged<'a>
        requires { grains arena.now < length tags.now }
        ensures { (result.arena.now ≡ arena.now) × (result.tags.now ≡ tags.now) }
    {
        Tagged { arena, tags }
    }
}

impl<'a> Lent<'a> {
    // All three, each long enough.
    pub fn new(arena: &'a [u8], lists: &'a [u64], tags: &'a [u16]) -> Lent<'a>
        requires { Enough arena.now lists.now tags.now }
        ensures { (result.tagged.arena.now ≡ arena.now) × (result.lists.now ≡ lists.now) × (result.tagged.tags.now ≡ tags.now) }
    {
        Lent {
            tagged: Tagged::new(arena, tags),
            lists,
        }
    }
}

// ---- checks

impl Tagged<'_> {
    ghost use Rattle.entries.specs.Lent.{tagged_memory, tagged_grains};

    // Whether a free block starts at x.
    pub fn begins_free(&self, x: u64) -> bool
        ensures { Says (Begins self.now.arena.now self.now.tags.now x) result }
    {
        x < lent::grain_count(self.arena) as u64
            && lent::starts_free(lent::tag(self.tags, x as usize))
    }

    // The free block at x: its last grain has the same size, and a block that is not free follows it. How many grains it has.
    pub fn see_free(&self, x: u64) -> Result<usize, Refusal>
        ensures seen { (l g : List ℕ) → run (tagged_memory self.now l g) (see_free (tagged_grains self.now) x) ≡ answered result }
        ensures counted { IfOk result (λ s. (0 < s) × (s < piece)) }
    {
        let n = lent::grain_count(self.arena);
        if n as u64 <= x {
            return Err(Refusal::Damaged);
        }
        let y = x as usize;
        let first = lent::tag(self.tags, y);
        if !lent::starts_free(first) {
            return Err(Refusal::Damaged);
        }
        let s = lent::count(first);
        if n <= y + s {
            return Err(Refusal::Damaged);
        }
        if !lent::ends_free(lent::tag(self.tags, y + s - 1), s) {
            return Err(Refusal::Damaged);
        }
        if !lent::is_busy(lent::tag(self.tags, y + s)) {
            return Err(Refusal::Damaged);
        }
        Ok(s)
    }
}

impl Lent<'_> {
    ghost use Rattle.entries.specs.Lent.{memory_in, grains_in};

    // The free block y stands in list k: its links lead to free blocks and back, and it is the head exactly if it is its own
    // previous.
    pub fn see_entry(&self, k: usize, y: usize) -> Result<(), Refusal>
        requires { (k < list_count) × (y < grains_in self.now) }
        ensures { (g : List ℕ) → run (memory_in self.now g) (see_entry (grains_in self.now) k y) ≡ answered result }
    {
        let own = y as u64;
        let next = lent::next(self.tagged.arena, y);
        let prev = lent::prev(self.tagged.arena, y);
        if !self.tagged.begins_free(next) {
            return Err(Refusal::Damaged);
        }
        if lent::prev(self.tagged.arena, next as usize) != choose(next == own, prev, own) {
            return Err(Refusal::Damaged);
        }
        if !self.tagged.begins_free(prev) {
            return Err(Refusal::Damaged);
        }
        if lent::next(self.tagged.arena, prev as usize) != choose(prev == own, next, own) {
            return Err(Refusal::Damaged);
        }
        if !lent::is_marked(self.lists, k) {
            return Err(Refusal::Damaged);
        }
        if choose(lent::head(self.lists, k) == own, 1, 0) != choose(prev == own, 1, 0) {
            return Err(Refusal::Damaged);
        }
        Ok(())
    }

    // A block can enter list k: it has no mark, or its head is a free block and its own previous. The grain y is read if there
    // is no head; it may be any.
    pub fn see_head(&self, k: usize, y: usize) -> Result<(), Refusal>
        requires { (k < list_count) × (y < grains_in self.now) }
        ensures { (g : List ℕ) → run (memory_in self.now g) (see_head (grains_in self.now) k) ≡ answered result }
    {
        let head = lent::head(self.lists, k);
        let marked = lent::is_marked(self.lists, k);
        let first = choose(marked, head, y as u64);
        let n = lent::grain_count(self.tagged.arena) as u64;
        if n <= first {
            return Err(Refusal::Damaged);
        }
        let free = lent::starts_free(lent::tag(self.tagged.tags, first as usize));
        let back = lent::prev(self.tagged.arena, first as usize);
        let own = lent::prev(self.tagged.arena, y);
        // n is no grain, so no link that is checked is n.
        if choose(free, back, n) != choose(marked, first, choose(free, own, n)) {
            return Err(Refusal::Damaged);
        }
        Ok(())
    }

    // There is a list for t grains, of which k are kept and the rest, if any, can enter its list. The grain y may be any.
    pub fn see_rest(&self, t: usize, k: usize, y: usize) -> Result<(), Refusal>
        requires { (0 < t) × (k ≤ t) × (y < grains_in self.now) }
        ensures { (g : List ℕ) → run (memory_in self.now g) (see_rest (grains_in self.now) classes t k) ≡ answered result }
    {
        if PIECE <= t {
            return Err(Refusal::Damaged);
        }
        if k == t {
            return Ok(());
        }
        self.see_head(list_of(t - k), y)
    }

    // There is a list for t grains, which a block can enter. The grain y may be any.
    pub fn see_join(&self, t: usize, y: usize) -> Result<(), Refusal>
        requires { (0 < t) × (y < grains_in self.now) }
        ensures { (g : List ℕ) → run (memory_in self.now g) (see_join (grains_in self.now) classes t) ≡ answered result }
    {
        if PIECE <= t {
            return Err(Refusal::Damaged);
        }
        self.see_head(list_of(t), y)
    }
}

// ---- writes

impl Links<'_> {
    ghost use Rattle.entries.specs.Lent.{SameLinks};

    // Block y leaves list k.
    pub fn leave(&mut self, k: usize, y: usize)
        requires { Long self.old.lists.now × (k < list_count) × (y < grains self.old.arena.now) × Leaves self.old.arena.now y }
        ensures stepped { Stepped (Step.leave k y) self.old.arena.now self.old.lists.now self.new.arena.now self.new.lists.now }
        ensures same { SameLinks self.old self.new }
    {
        let a = &mut *self.arena;
        let own = y as u64;
        let next = lent::next(a, y);
        let prev = lent::prev(a, y);
        join_links(a, own, next, prev);
        join_head(&mut *self.lists, k, own, next, prev);
    }

    // Block y enters list k.
    pub fn enter(&mut self, k: usize, y: usize)
        requires { Long self.old.lists.now × (k < list_count) × (y < grains self.old.arena.now) × Enters self.old.arena.now self.old.lists.now k }
        ensures stepped { Stepped (Step.enter k y) self.old.arena.now self.old.lists.now self.new.arena.now self.new.lists.now }
        ensures same { SameLinks self.old self.new }
    {
        let lists = &mut *self.lists;
        let own = y as u64;
        let head = lent::head(lists, k);
        let first = choose(lent::is_marked(lists, k), head, own);
        put_before(&mut *self.arena, y, first);
        lent::put_head(lists, k, own);
        lent::mark(lists, k);
    }
}

// The blocks x, after y, and p, before it, are linked with each other; with itself if y stands there.
fn join_links(a: &mut [u8], y: u64, x: u64, p: u64)
    requires { (x < grains a.old) × (p < grains a.old) }
    ensures { a.new ≡ put_prev (put_next a.old p (if_eq x y p x)) x (if_eq p y x p) }
{
    lent::put_next(a, p as usize, choose(x == y, p, x));
    lent::put_prev(a, x as usize, choose(p == y, x, p));
}

// The head of list k is x if y was the first, and it loses its mark if y was alone.
fn join_head(lists: &mut [u64], k: usize, y: u64, x: u64, p: u64)
    requires { Long lists.old × (k < list_count) }
    ensures { lists.new ≡ put_mark (put_head lists.old k (if_eq p y x (head_at lists.old k))) k
        (mark_left y x p (map_bit lists.old k)) }
{
    let head = lent::head(lists, k);
    lent::put_head(lists, k, choose(p == y, x, head));
    // The value is y exactly if both links are.
    bits::unmark_where(lists, k, choose(p == y, x, p), y);
}

// Block y is put before h, with nothing before it; h may be y.
fn put_before(a: &mut [u8], y: usize, h: u64)
    requires { (y < grains a.old) × (h < grains a.old) }
    ensures { a.new ≡ put_next (put_prev (put_prev a.old h y) y y) y h }
{
    let own = y as u64;
    lent::put_prev(a, h as usize, own);
    lent::put_prev(a, y, own);
    lent::put_next(a, y, h);
}
