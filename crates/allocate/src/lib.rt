// Taking a block: what a take found and will write, planned before anything is written. The arena, the map and the heads
// of the lists are lent. Links are words: the bytes of a grain, or none.

#![tactic(auto)]

ghost use Rattle.std.specs.Prelude.{◌≡◌, ◌+◌, ◌≤◌, ◌<◌};
ghost use Rattle.choice.specs.Says.{Says};
ghost use Rattle.choice.specs.Choice.{if_eq};
ghost use Rattle.class.specs.Class.{list_of};
ghost use Rattle.definition.specs.Calls.{wanted as wanted_of};
ghost use Rattle.slices.specs.Decode.{grains as grains_of};
ghost use Rattle.free_list.specs.Lent.{Long, Room};
ghost use Rattle.allocate.specs.Demand.{Demand};
ghost use Rattle.allocate.specs.First.{IsBounded, FirstSeen, SeenFirst};
ghost use Rattle.allocate.specs.Rest.{SeenRest};
ghost use Rattle.allocate.specs.Plan.{Cuts, Plans};

use bits::MAP_WORDS;
use carve::Rest;
use header::{BEFORE, NEXT, NONE, PREV};
use refusal::Refusal;

// The least size in grains that has no list.
const LARGE: usize = 4096;

// What a take found: the first block of a list, what is next in the list, the payload's place in the block and what the
// block keeps. Where it keeps less than it has, the rest goes to the head of its own list.
#[derive(Clone, Copy)]
pub struct Plan {
    pub list: usize,
    pub at: usize,
    pub grains: usize,
    pub next: u64,
    pub place: usize,
    pub keep: usize,
    pub rest_list: usize,
    pub head: u64,
}

// The first block of a list, where all that is beside it agrees, but for what is next, which is still to be asked.
#[derive(Clone, Copy)]
struct First {
    pub at: usize,
    pub grains: usize,
    pub next: u64,
}

// ---- the plan

// A payload of some half grains at a multiple of others. What is wanted, both together rounded up to grains, is written as a
// number and 1, for the compiler to see that it is not 0.
pub fn plan_take(a: &[u8], lists: &[u64], length: usize, multiple: usize) -> Result<Plan, Refusal>
    requires { Demand length multiple × Long lists.now }
    ensures { Plans a.now lists.now length multiple result }
{
    let wanted = (length + multiple - 1) / 2 + 1;
    if LARGE <= wanted {
        return Err(Refusal::NoList);
    }
    let Some(list) = bits::first_marked(lists, class::map_ceil(wanted as u64) as usize) else {
        return Err(Refusal::NoList);
    };
    let first = see_first(a, lists, list)?;
    cut(a, lists, list, first, length, multiple)
}

// The same, where the first block of the list was seen. Whether what is next leads back to it is asked last.
#[tactic(auto, using(header::specs::Turned::grains_few))]
fn cut(
    a: &[u8],
    lists: &[u64],
    list: usize,
    first: First,
    length: usize,
    multiple: usize,
) -> Result<Plan, Refusal>
    requires { Demand length multiple × Room list lists.now × FirstSeen a.now list first × (wanted_of length multiple ≤ first.grains) }
    ensures { Cuts a.now lists.now list first length multiple result }
{
    let First { at, grains, next } = first;
    let place = request::place_of(multiple, at);
    let keep = request::keeps_of(place, length);
    let rest = see_rest(a, lists, list, next, grains, keep)?;
    if !free_list::leads_back(a, PREV, next, at) {
        return Err(Refusal::Damaged);
    }
    Ok(Plan {
        list,
        at,
        grains,
        next,
        place,
        keep,
        rest_list: rest.list,
        head: rest.head,
    })
}

// ---- the first block of a list

// A free block of list k with nothing before it in the list, and a block in use behind it in the arena.
#[tactic(auto, using(header::specs::Turned::grains_few, crate::specs::First::free_inside))]
fn see_first(a: &[u8], lists: &[u64], k: usize) -> Result<First, Refusal>
    requires { Room k lists.now }
    ensures { SeenFirst a.now lists.now k result }
{
    let at = header::grain_of(table::fetch(lists, MAP_WORDS + k));
    if header::count(a) <= at {
        return Err(Refusal::Damaged);
    }
    let Some(grains) = header::free_at(a, at) else {
        return Err(Refusal::Damaged);
    };
    if class::map_floor(grains as u64) as usize != k {
        return Err(Refusal::Damaged);
    }
    let next = header::field(a, at, NEXT);
    if header::field(a, at, PREV) != NONE {
        return Err(Refusal::Damaged);
    }
    if !is_bounded(a, at, at + grains) {
        return Err(Refusal::Damaged);
    }
    Ok(First { at, grains, next })
}

// Whether a block in use is at z, behind the block at y.
fn is_bounded(a: &[u8], y: usize, z: usize) -> bool
    requires { (y < grains_of 8 a.now) × (z < grains_of 8 a.now) }
    ensures { Says (IsBounded a.now y z) result }
{
    header::is_busy(a, z) && header::leads(a, z, BEFORE, y)
}

// ---- the rest

// What is left of the first block of list k where it keeps some of its grains. Where nothing is, the numbers say nothing.
#[tactic(auto, using(header::specs::Turned::grains_few))]
fn see_rest(
    a: &[u8],
    lists: &[u64],
    k: usize,
    next: u64,
    grains: usize,
    keep: usize,
) -> Result<Rest, Refusal>
    requires { Room k lists.now × (list_of grains ≡ k) × (keep ≤ grains) × (grains < grains_of 8 a.now) }
    ensures { SeenRest a.now lists.now k next grains keep result }
{
    if keep == grains {
        return Ok(Rest { list: 0, head: 0 });
    }
    let list = class::map_floor((grains - keep) as u64) as usize;
    let head = free_list::see_head(a, lists, list)?;
    Ok(Rest {
        list,
        head: head_after(k, next, list, head),
    })
}

// The head h of list q, where next became the head of list k.
fn head_after(k: usize, next: u64, q: usize, h: u64) -> u64
    ensures { result ≡ if_eq q k next h }
{
    if q == k {
        return next;
    }
    h
}
