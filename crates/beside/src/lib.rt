// The block of a live payload, and the free blocks beside a used one: each check is a script's, on the lent slices.

#![tactic(auto)]

ghost use Rattle.std.specs.Prelude.{◌≡◌, List, ℕ, ◌+◌, ◌/◌, ◌<◌};
ghost use Rattle.script.specs.Script.{run};
ghost use Rattle.machine.specs.Machine.{classes, piece};
ghost use Rattle.plans.specs.Checks.{see_guard, owned, owner_small, owner_wide, owner_large, see_owner, listed, free_after, see_after, free_before, see_before};
ghost use Rattle.lent.specs.Slices.{grains as grains_of, tag_of};
ghost use Rattle.refusal.specs.Answered.{answered};
ghost use Rattle.entries.specs.Answers.{held};
ghost use Rattle.entries.specs.Lent.{tagged_memory, tagged_grains, memory_in, grains_in};
ghost use Rattle.beside.specs.Answers.{owning};

use entries::{Lent, Tagged};
use lent::{FREE, LARGE, SMALL, START};
use machine::PIECE;
use refusal::Refusal;

// ---- the block of a live payload

// A block: the grain where it starts, and how many it has.
#[derive(Clone, Copy)]
pub struct Block {
    pub at: usize,
    pub grains: usize,
}

// The block of the live payload at q, which is counted in half grains.
pub fn see_owner(tagged: &Tagged, q: usize) -> Result<Block, Refusal>
    ensures { (l g : List ℕ) → run (tagged_memory tagged.now l g) (see_owner (tagged_grains tagged.now) q) ≡ owning result }
{
    if lent::grain_count(tagged.arena) <= q / 2 {
        return Err(Refusal::NotLive);
    }
    if q % 2 == 1 {
        return see_small(tagged, q / 2);
    }
    see_large(tagged, q / 2)
}

// The payload in the middle of grain x.
fn see_small(tagged: &Tagged, x: usize) -> Result<Block, Refusal>
    requires { x < tagged_grains tagged.now }
    ensures { (l g : List ℕ) → run (tagged_memory tagged.now l g) (owner_small (tagged_grains tagged.now) x) ≡ owning result }
{
    let tag = lent::tag(tagged.tags, x);
    if lent::flags_of(tag) != START + SMALL {
        return Err(Refusal::NotLive);
    }
    see_size(tagged.arena, x, lent::count(tag), 0)
}

// The payload at grain x.
fn see_large(tagged: &Tagged, x: usize) -> Result<Block, Refusal>
    requires { x < tagged_grains tagged.now }
    ensures { (l g : List ℕ) → run (tagged_memory tagged.now l g) (owner_large (tagged_grains tagged.now) x) ≡ owning result }
{
    if x == 0 {
        return Err(Refusal::NotLive);
    }
    let tag = lent::tag(tagged.tags, x - 1);
    if lent::flags_of(tag) == START + LARGE {
        return see_size(tagged.arena, x - 1, lent::count(tag), 1);
    }
    see_wide(tagged, x, tag)
}

// The payload at grain x, with more than one grain of padding before it; `tag` is that of the grain before.
fn see_wide(tagged: &Tagged, x: usize, tag: u16) -> Result<Block, Refusal>
    requires { x < tagged_grains tagged.now }
    ensures { (l g : List ℕ) → run (tagged_memory tagged.now l g) (owner_wide (tagged_grains tagged.now) x (tag_of tag)) ≡ owning result }
{
    if lent::flags_of(tag) != LARGE {
        return Err(Refusal::NotLive);
    }
    let p = lent::count(tag);
    if p < 2 {
        return Err(Refusal::Damaged);
    }
    if x < p {
        return Err(Refusal::Damaged);
    }
    let first = lent::tag(tagged.tags, x - p);
    if lent::flags_of(first) != START {
        return Err(Refusal::Damaged);
    }
    see_size(tagged.arena, x - p, lent::count(first), p)
}

// The block of s grains at x, of which the first p are padding: it ends before the arena does.
fn see_size(a: &[u8], x: usize, s: usize, p: usize) -> Result<Block, Refusal>
    requires { (x < grains_of a.now) × (s < piece) }
    ensures { (l t g : List ℕ) → run (held a.now l t g) (owned (grains_of a.now) x s p) ≡ owning result }
{
    if s < 1 {
        return Err(Refusal::Damaged);
    }
    if s < p {
        return Err(Refusal::Damaged);
    }
    if lent::grain_count(a) <= x + s {
        return Err(Refusal::Damaged);
    }
    Ok(Block { at: x, grains: s })
}

// The guard of the used block at x stands.
pub fn see_guard(a: &[u8], x: usize) -> Result<(), Refusal>
    requires { x < grains_of a.now }
    ensures { (l t g : List ℕ) → run (held a.now l t g) (see_guard x) ≡ answered result }
{
    if !lent::is_guarded(a, x) {
        return Err(Refusal::Damaged);
    }
    Ok(())
}

// ---- the free blocks beside a used one: how many grains they have, or none

// The free block after a used one, from y on.
pub fn see_after(heap: &Lent, y: usize) -> Result<usize, Refusal>
    ensures { (g : List ℕ) → run (memory_in heap.now g) (see_after (grains_in heap.now) classes y) ≡ answered result }
{
    if lent::grain_count(heap.tagged.arena) <= y {
        return Err(Refusal::Damaged);
    }
    let tag = lent::tag(heap.tagged.tags, y);
    if lent::flags_of(tag) == START + FREE {
        return free_after(heap, y);
    }
    if !lent::is_busy(tag) {
        return Err(Refusal::Damaged);
    }
    Ok(0)
}

// A free block starts at y.
fn free_after(heap: &Lent, y: usize) -> Result<usize, Refusal>
    requires { y < grains_in heap.now }
    ensures { (g : List ℕ) → run (memory_in heap.now g) (free_after (grains_in heap.now) classes y) ≡ answered result }
{
    let s = heap.tagged.see_free(y as u64)?;
    see_listed(heap, y, s)
}

// The free block before a used one, up to x.
pub fn see_before(heap: &Lent, x: usize) -> Result<usize, Refusal>
    requires { x < grains_in heap.now }
    ensures { (g : List ℕ) → run (memory_in heap.now g) (see_before (grains_in heap.now) classes x) ≡ answered result }
{
    if x == 0 {
        return Ok(0);
    }
    let tag = lent::tag(heap.tagged.tags, x - 1);
    if !lent::has_free(tag) {
        return Ok(0);
    }
    free_before(heap, x, lent::count(tag))
}

// A free block of s grains ends before x.
fn free_before(heap: &Lent, x: usize, s: usize) -> Result<usize, Refusal>
    requires { (x < grains_in heap.now) × (s < piece) }
    ensures { (g : List ℕ) → run (memory_in heap.now g) (free_before (grains_in heap.now) classes x s) ≡ answered result }
{
    if s < 1 {
        return Err(Refusal::Damaged);
    }
    if x < s {
        return Err(Refusal::Damaged);
    }
    if lent::tag(heap.tagged.tags, x - s) != lent::free_tag(s) {
        return Err(Refusal::Damaged);
    }
    see_listed(heap, x - s, s)
}

// The free block of s grains at y, in the list of its size.
fn see_listed(heap: &Lent, y: usize, s: usize) -> Result<usize, Refusal>
    requires { (y < grains_in heap.now) × (0 < s) }
    ensures { (g : List ℕ) → run (memory_in heap.now g) (listed (grains_in heap.now) classes y s) ≡ answered result }
{
    if PIECE <= s {
        return Err(Refusal::Damaged);
    }
    heap.see_entry(entries::list_of(s), y)?;
    Ok(s)
}
