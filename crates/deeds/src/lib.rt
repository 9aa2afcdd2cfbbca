// The steps of a deed, made on the arena and the lists: neighbours leave their lists, and a rest enters one.

#![tactic(auto)]

ghost use Rattle.std.specs.Prelude.{◌≡◌, ◌+◌, ◌≤◌, ◌<◌};
ghost use Rattle.machine.specs.Machine.{piece, words};
ghost use Rattle.plans.specs.Allocate.{rest_steps};
ghost use Rattle.plans.specs.Deallocate.{leave_steps, beside_steps};
ghost use Rattle.entries.specs.Lent.{SameLinks};
ghost use Rattle.deeds.specs.Runs.{Runs, CanRun};

use entries::Links;

// A free neighbour of t grains at y leaves its list; 0 stands for none.
pub fn leave_beside(links: &mut Links, t: usize, y: usize)
    requires { CanRun (leave_steps t y) links.old.arena.now links.old.lists.now × (t < piece) }
    ensures runs { Runs (leave_steps t y) links.old.arena.now links.old.lists.now links.new.arena.now links.new.lists.now }
    ensures same { SameLinks links.old links.new }
{
    if t != 0 {
        links.leave(entries::list_of(t), y);
    }
}

// The neighbours of the block of s grains at x leave their lists: some grains before it, and some after it.
// The struct of a block stands in a crate above this one.
pub fn leave_both(links: &mut Links, x: usize, s: usize, before: usize, after: usize)
    requires { CanRun (beside_steps x s before after) links.old.arena.now links.old.lists.now × (before < piece) × (after < piece) × (before ≤ x) × (x + s < words) }
    ensures runs { Runs (beside_steps x s before after) links.old.arena.now links.old.lists.now links.new.arena.now links.new.lists.now }
    ensures same { SameLinks links.old links.new }
{
    leave_beside(links, after, x + s);
    leave_beside(links, before, x - before);
}

// Of t grains at x the first k are kept, and the rest, if any, enters its list.
pub fn enter_rest(links: &mut Links, x: usize, t: usize, k: usize)
    requires { CanRun (rest_steps x t k) links.old.arena.now links.old.lists.now × (k ≤ t) × (t < piece) }
    ensures runs { Runs (rest_steps x t k) links.old.arena.now links.old.lists.now links.new.arena.now links.new.lists.now }
    ensures same { SameLinks links.old links.new }
{
    if k != t {
        links.enter(entries::list_of(t - k), x + k);
    }
}
