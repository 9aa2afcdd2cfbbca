// A payload is returned: its block and the free blocks beside it are found by checks alone, and then they become one free
// block. A return that is refused has written nothing.

#![tactic(auto)]

ghost use Rattle.std.specs.Prelude.{◌≡◌, List, ℕ};
ghost use Rattle.script.specs.Script.{run};
ghost use Rattle.machine.specs.Machine.{classes};
ghost use Rattle.entries.specs.Lent.{memory_in, grains_in, SameLinks};
ghost use Rattle.deeds.specs.Does.{Does};
ghost use Rattle.take_back.specs.Returned.{freed_deed, see_returned};
ghost use Rattle.take_back.specs.Answers.{freed_of, returned};
ghost use Rattle.take_back.specs.Free.{CanFree};

use beside::Block;
use entries::{Lent, Links};
use refusal::Refusal;

// What the checks found: the payload's block, and how many grains are free before it and after it.
#[derive(Clone, Copy)]
pub struct Returned {
    pub block: Block,
    pub before: usize,
    pub after: usize,
}

// ---- the checks

// The payload at q is returned: its block, the block's guard, what is free beside it, and the list that all of it enters.
pub fn see_returned(heap: &Lent, q: usize) -> Result<Returned, Refusal>
    ensures { (g : List ℕ) → run (memory_in heap.now g) (see_returned (grains_in heap.now) classes q) ≡ returned result }
{
    let block = beside::see_owner(&heap.tagged, q)?;
    beside::see_guard(heap.tagged.arena, block.at)?;
    let after = beside::see_after(heap, block.at + block.grains)?;
    let before = beside::see_before(heap, block.at)?;
    heap.see_join(before + (block.grains + after), block.at)?;
    Ok(Returned {
        block,
        before,
        after,
    })
}

// ---- the writes

// The block of the payload at q and the free blocks beside it become one free block.
pub fn free(links: &mut Links, tags: &mut [u16], q: usize, found: Returned)
    requires { CanFree links.old.arena.now links.old.lists.now tags.old q (freed_of found) }
    ensures does { Does (freed_deed q (freed_of found))
        links.old.arena.now links.old.lists.now tags.old
        links.new.arena.now links.new.lists.now tags.new }
    ensures same { SameLinks links.old links.new }
{
    let Returned {
        block,
        before,
        after,
    } = found;
    deeds::leave_both(links, block.at, block.grains, before, after);
    links.enter(
        entries::list_of(before + (block.grains + after)),
        block.at - before,
    );
    stamps::deallocate_tags(
        tags,
        block.at,
        block.grains,
        q - 2 * block.at,
        before,
        after,
    );
}
