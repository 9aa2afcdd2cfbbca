// The third step of a resize: the payload moves down into the free block before it. The used block and its free neighbours
// are joined, the payload's place is counted anew from where they start, and what it doesn't need is left as a free block.
// The plan is read off the lent slices and checked before anything is written; the bytes are carried by the caller, after
// the neighbours left their lists and before the block is made.

#![tactic(auto)]

ghost use Rattle.std.specs.Prelude.{◌≡◌, ◌+◌, ◌*◌, ◌^◌, ◌≤◌, ◌<◌, length as length_of};
ghost use Rattle.align.specs.Align.{Power};
ghost use Rattle.slices.specs.Decode.{grains};
ghost use Rattle.free_list.specs.Lent.{Long};
ghost use Rattle.free_list.specs.Written.{Written, WrittenLive};
ghost use Rattle.neighbours.specs.Leaving.{Linked, Known, both_leaving};
ghost use Rattle.neighbours.specs.Within.{Behind};
ghost use Rattle.slide.specs.Shown.{down_writes, Makeable, SeenRest, Downs, Slides};

use bits::LISTS;
use carve::Rest;
use header::NONE;
use neighbours::Neighbour;
use refusal::Refusal;

// The neighbours leave, the one behind first; of the grains at the start of the one before some are kept for the payload at
// its place, and the rest, if any, goes to a list, before its head.
#[derive(Clone, Copy, Debug, PartialEq, Eq)]
pub struct Plan {
    pub at: usize,
    pub grains: usize,
    pub behind: Option<Neighbour>,
    pub before: Option<Neighbour>,
    pub place: usize,
    pub keep: usize,
    pub list: usize,
    pub head: u64,
}

// ---- the plan

// The used block of s grains at x, and what was seen behind it; its payload is to have other half grains at a multiple. There
// is no plan where it has to go elsewhere.
#[tactic(auto, using(header::specs::Turned::grains_few))]
pub fn plan_slide(
    a: &[u8],
    lists: &[u64],
    x: usize,
    s: usize,
    behind: Option<Neighbour>,
    length: usize,
    multiple: usize,
) -> Result<Option<Plan>, Refusal>
    requires { Behind a.now x s behind × Long lists.now × Power multiple × (length + multiple + 1 < 2 ^ 64) }
    ensures { Slides a.now lists.now x s behind length multiple result }
{
    let Some(f) = neighbours::see_before(a, lists, x)? else {
        return Ok(None);
    };
    let z = x - f.grains;
    let before = neighbours::second(behind, z, f);
    let place = request::place_of(multiple, z);
    let t = f.grains + (s + neighbours::grains_of(behind));
    plan_down(a, lists, z, t, behind, before, place, length)
}

// The same, where the joined block is of t grains at z, after both neighbours left, and the payload's place in it is known.
fn plan_down(
    a: &[u8],
    lists: &[u64],
    z: usize,
    t: usize,
    behind: Option<Neighbour>,
    before: Neighbour,
    place: usize,
    length: usize,
) -> Result<Option<Plan>, Refusal>
    requires { (z + t < grains 8 a.now) × Known a.now behind × Linked a.now before × Long lists.now × (0 < place) × (place + length + 1 < 2 ^ 64) }
    ensures { Downs a.now lists.now z t behind before place length result }
{
    let keep = request::keeps_of(place, length);
    if t < keep {
        return Ok(None);
    }
    let rest = see_rest(a, lists, t, keep, behind, Some(before))?;
    Ok(Some(Plan {
        at: z,
        grains: t,
        behind,
        before: Some(before),
        place,
        keep,
        list: rest.list,
        head: rest.head,
    }))
}

// What is left of t grains where some are kept, after both neighbours left.
#[tactic(auto, using(header::specs::Turned::grains_few))]
fn see_rest(
    a: &[u8],
    lists: &[u64],
    t: usize,
    keep: usize,
    behind: Option<Neighbour>,
    before: Option<Neighbour>,
) -> Result<Rest, Refusal>
    requires { (t < grains 8 a.now) × (keep ≤ t) × Known a.now behind × Known a.now before × Long lists.now }
    ensures { SeenRest a.now lists.now t keep behind before result }
{
    if keep == t {
        return Ok(Rest {
            list: 0,
            head: NONE,
        });
    }
    let list = class::map_floor((t - keep) as u64) as usize;
    if LISTS <= list {
        return Err(Refusal::Damaged);
    }
    let h = free_list::see_head(a, lists, list)?;
    let head = neighbours::head_after_both(behind, before, list, h);
    Ok(Rest { list, head })
}

// ---- what is written

// The neighbours leave their lists, those that are there: the bytes of the payload are carried after that. Where `plan_slide`
// has a plan, one is before.
pub fn apply_leaving(a: &mut [u8], lists: &mut [u64], p: Plan)
    requires { Known a.old p.behind × Known a.old p.before × Long lists.old }
    ensures { Written a.old lists.old (both_leaving a.old p.behind p.before)
        a.new lists.new }
{
    neighbours::leave_both(a, lists, p.behind, p.before);
}

// The block is made where the bytes are now; the payload that was at q is live there.
#[tactic(auto, using(header::specs::Turned::grains_few))]
pub fn apply_down(a: &mut [u8], lists: &mut [u64], live: &mut [u64], q: usize, p: Plan)
    requires { Makeable a.old p × Long lists.old × (q < 64 * length_of live.old) × (2 * p.at + p.place < 64 * length_of live.old) }
    ensures { WrittenLive a.old lists.old live.old (down_writes a.old q p)
        a.new lists.new live.new }
{
    carve::put_left(a, lists, p.at, p.grains, p.keep, p.list, p.head);
    carve::put_pad(a, p.at, p.place);
    bits::clear_table_bit(live, q);
    bits::set_table_bit(live, 2 * p.at + p.place);
}
