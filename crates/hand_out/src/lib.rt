// A block is handed out: it is found by checks alone, and then taken. A search that is refused has written nothing.

#![tactic(auto)]

ghost use Rattle.std.specs.Prelude.{◌≡◌, List, ℕ, ◌+◌, ◌*◌, ◌≤◌, ◌<◌};
ghost use Rattle.choice.specs.Says.{Says};
ghost use Rattle.definition.specs.Calls.{place, keeps};
ghost use Rattle.script.specs.Script.{run};
ghost use Rattle.machine.specs.Machine.{classes, piece};
ghost use Rattle.plans.specs.Allocate.{allocate_deed, see_first, see_taken};
ghost use Rattle.lent.specs.Slices.{next_at};
ghost use Rattle.refusal.specs.Answered.{answered};
ghost use Rattle.entries.specs.Lent.{tagged_memory, tagged_grains, memory_in, grains_in, SameLinks};
ghost use Rattle.deeds.specs.Does.{Does};
ghost use Rattle.hand_out.specs.Answers.{taken_of, taking};
ghost use Rattle.hand_out.specs.First.{Firstly};
ghost use Rattle.hand_out.specs.Search.{cut};
ghost use Rattle.hand_out.specs.Take.{CanTake};

mod demand;

pub use demand::Demand;
use entries::{Lent, Links, Tagged};
use machine::PIECE;
use refusal::Refusal;

// What a search found: a list, its first block, and how many grains that has.
#[derive(Clone, Copy)]
pub struct Taking {
    pub list: usize,
    pub block: usize,
    pub grains: usize,
}

// ---- the search

// A block for what is asked. What is wanted, length and multiple together rounded up to grains, is written as a number and 1,
// for the compiler to see that it is not 0.
pub fn see_taken(heap: &Lent, asked: Demand) -> Result<Taking, Refusal>
    ensures { (g : List ℕ) → run (memory_in heap.now g)
        (see_taken (grains_in heap.now) classes asked.length asked.multiple) ≡ taking result }
{
    let wanted = (asked.length + asked.multiple - 1) / 2 + 1;
    if PIECE <= wanted {
        return Err(Refusal::NoList);
    }
    let Some(list) = bits::first_marked(heap.lists, class::map_ceil(wanted as u64) as usize) else {
        return Err(Refusal::NoList);
    };
    let block = lent::head(heap.lists, list);
    let grains = see_first(&heap.tagged, list, block)?;
    see_cut(
        heap,
        Taking {
            list,
            block: block as usize,
            grains,
        },
        asked,
    )
}

// The same, once the first block of the list was seen.
fn see_cut(heap: &Lent, found: Taking, asked: Demand) -> Result<Taking, Refusal>
    requires { (found.block < grains_in heap.now) × (0 < found.grains) × (keeps (place asked.multiple found.block) asked.length ≤ found.grains) }
    ensures { (g : List ℕ) → run (memory_in heap.now g)
        (cut (grains_in heap.now) asked.length asked.multiple found.list found.block found.grains) ≡ taking result }
{
    heap.see_rest(found.grains, asked.keep(found.block), found.block)?;
    Ok(found)
}

// The first block y of list k, and how many grains it has.
fn see_first(tagged: &Tagged, k: usize, y: u64) -> Result<usize, Refusal>
    ensures { (l g : List ℕ) → run (tagged_memory tagged.now l g) (see_first (tagged_grains tagged.now) k y) ≡ answered result }
{
    let s = tagged.see_free(y)?;
    if !stands_first(tagged, k, y as usize, s) {
        return Err(Refusal::Damaged);
    }
    Ok(s)
}

// Whether the free block y, of s grains, is of list k, and the first of it: it is its own previous, and that of its next.
fn stands_first(tagged: &Tagged, k: usize, y: usize, s: usize) -> bool
    requires { (y < tagged_grains tagged.now) × (0 < s) × (s < piece) }
    ensures { Says (Firstly tagged.now.arena.now tagged.now.tags.now k y s (next_at tagged.now.arena.now y)) result }
{
    let own = y as u64;
    if entries::list_of(s) != k {
        return false;
    }
    if lent::prev(tagged.arena, y) != own {
        return false;
    }
    let next = lent::next(tagged.arena, y);
    tagged.begins_free(next) && lent::prev(tagged.arena, next as usize) == own
}

// ---- the taking

// The block that was found leaves its list, its rest enters one, and it is guarded and tagged. The payload's place is
// answered, in half grains.
pub fn take(links: &mut Links, tags: &mut [u16], found: Taking, asked: Demand) -> usize
    requires { CanTake links.old.arena.now links.old.lists.now tags.old asked.length asked.multiple (taken_of found) }
    ensures placed { result ≡ 2 * found.block + place asked.multiple found.block }
    ensures does { Does (allocate_deed asked.length asked.multiple (taken_of found))
        links.old.arena.now links.old.lists.now tags.old
        links.new.arena.now links.new.lists.now tags.new }
    ensures same { SameLinks links.old links.new }
{
    let place = asked.place(found.block);
    let keep = asked.keep(found.block);
    links.leave(found.list, found.block);
    deeds::enter_rest(links, found.block, found.grains, keep);
    lent::put_guard(&mut *links.arena, found.block);
    stamps::allocate_tags(tags, found.block, found.grains, keep, place);
    2 * found.block + place
}
