// A payload gets another size: in place, downwards into a free block before it, or elsewhere. Which of them is found by
// checks alone; a resize that is refused has written nothing.

#![tactic(auto)]

ghost use Rattle.std.specs.Prelude.{◌≡◌, List, ℕ, ◌+◌, ◌-◌, ◌*◌, ◌≤◌, ◌<◌};
ghost use Rattle.script.specs.Script.{run};
ghost use Rattle.machine.specs.Machine.{classes};
ghost use Rattle.plans.specs.Reallocate.{elsewhere_script, down_script, move_script};
ghost use Rattle.entries.specs.Lent.{memory_in, grains_in};
ghost use Rattle.resize.specs.Answers.{resized};
ghost use Rattle.resize.specs.Sees.{see_resized};

use beside::Block;
use entries::Lent;
use hand_out::{Demand, Taking};
use refusal::Refusal;

// What is to be done for a block, with so many free grains before it and after it.
#[derive(Clone, Copy)]
pub enum Resizing {
    // Nothing changes.
    Stay,
    // The block stretches or shrinks.
    Stretch {
        block: Block,
        after: usize,
    },
    // It moves down.
    Down {
        block: Block,
        before: usize,
        after: usize,
    },
    // It moves into the first block of a list.
    Elsewhere {
        block: Block,
        before: usize,
        after: usize,
        into: Taking,
    },
}

// The payload at q gets what is asked, at a multiple only if it moves. In place, if what is free after it is enough.
pub fn see_resized(heap: &Lent, q: usize, asked: Demand) -> Result<Resizing, Refusal>
    ensures { (g : List ℕ) → run (memory_in heap.now g)
        (see_resized (grains_in heap.now) q asked.length asked.multiple) ≡ resized q asked.length asked.multiple result }
{
    let block = beside::see_owner(&heap.tagged, q)?;
    beside::see_guard(heap.tagged.arena, block.at)?;
    let keep = request::keeps_of(q - 2 * block.at, asked.length);
    if keep == block.grains {
        return Ok(Resizing::Stay);
    }
    let after = beside::see_after(heap, block.at + block.grains)?;
    if keep <= block.grains + after {
        heap.see_rest(block.grains + after, keep, block.at)?;
        return Ok(Resizing::Stretch { block, after });
    }
    see_move(heap, block, after, asked)
}

// It must move, wherever the payload q stands in it.
fn see_move(heap: &Lent, block: Block, after: usize, asked: Demand) -> Result<Resizing, Refusal>
    requires { (0 < block.grains) × (block.at + block.grains + after < grains_in heap.now) }
    ensures { (q : ℕ) (g : List ℕ) → run (memory_in heap.now g)
        (move_script (grains_in heap.now) classes asked.length asked.multiple block.at block.grains (q - 2 * block.at) after)
        ≡ resized q asked.length asked.multiple result }
{
    let before = beside::see_before(heap, block.at)?;
    if before == 0 {
        return see_elsewhere(heap, block, 0, after, asked);
    }
    see_down(heap, block, before, after, asked)
}

// So many grains are free before it. Downwards, if they are enough with its own and those after it.
fn see_down(
    heap: &Lent,
    block: Block,
    before: usize,
    after: usize,
    asked: Demand,
) -> Result<Resizing, Refusal>
    requires { (0 < block.grains) × (block.at + block.grains + after < grains_in heap.now) × (before ≤ block.at) }
    ensures { (q : ℕ) (g : List ℕ) → run (memory_in heap.now g)
        (down_script (grains_in heap.now) classes asked.length asked.multiple block.at block.grains (q - 2 * block.at) before after)
        ≡ resized q asked.length asked.multiple result }
{
    let all = before + (block.grains + after);
    let keep = asked.keep(block.at - before);
    if keep <= all {
        heap.see_rest(all, keep, block.at)?;
        return Ok(Resizing::Down {
            block,
            before,
            after,
        });
    }
    see_elsewhere(heap, block, before, after, asked)
}

// Into another block, and the old one becomes free with its neighbours.
fn see_elsewhere(
    heap: &Lent,
    block: Block,
    before: usize,
    after: usize,
    asked: Demand,
) -> Result<Resizing, Refusal>
    requires { (0 < block.grains) × (block.at + block.grains + after < grains_in heap.now) × (before ≤ block.at) }
    ensures { (q : ℕ) (g : List ℕ) → run (memory_in heap.now g)
        (elsewhere_script (grains_in heap.now) classes asked.length asked.multiple block.at block.grains (q - 2 * block.at) before after)
        ≡ resized q asked.length asked.multiple result }
{
    let into = hand_out::see_taken(heap, asked)?;
    heap.see_join(before + (block.grains + after), block.at)?;
    Ok(Resizing::Elsewhere {
        block,
        before,
        after,
        into,
    })
}
