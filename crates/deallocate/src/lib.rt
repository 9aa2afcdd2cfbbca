// The return of a block: its plan, which is read off the lent slices and checked before anything is written. A free
// neighbour leaves its list, and the joined block goes to the head of the list of its size.

#![tactic(auto)]

ghost use Rattle.std.specs.Prelude.{◌≡◌, Ok, ◌+◌, ◌*◌, ◌≤◌, ◌<◌, length};
ghost use Rattle.sound.specs.Plans.{join_script};
ghost use Rattle.slices.specs.Decode.{grains};
ghost use Rattle.free_list.specs.Written.{WrittenLive};
ghost use Rattle.free_list.specs.Lent.{classes, Long};
ghost use Rattle.neighbours.specs.Leaving.{Known, both_leaving};
ghost use Rattle.neighbours.specs.Shown.{seen_of, SeenBefore};
ghost use Rattle.neighbours.specs.Within.{Behind};
ghost use Rattle.deallocate.specs.Shown.{back_writes, joined_writes, Able, AbleHere, Standing, Planned, BackPlanned, before_script, merge_script};
ghost use Rattle.deallocate.specs.Written.{freed};

use bits::LISTS;
use header::{BEFORE, SIZE};
use neighbours::Neighbour;
use refusal::Refusal;

// The joined block, the neighbours that leave, in this order, and the list to which it goes, with the head that it is put
// before.
#[derive(Clone, Copy, Debug, PartialEq, Eq)]
pub struct Plan {
    pub at: usize,
    pub grains: usize,
    pub behind: Option<Neighbour>,
    pub before: Option<Neighbour>,
    pub list: usize,
    pub head: u64,
}

// ---- the plan

// The payload at q, counted in half grains, is returned.
pub fn plan_back(a: &[u8], lists: &[u64], live: &[u64], q: usize) -> Result<Plan, Refusal>
    requires { (q < 64 * length live.now) × (q < 2 * grains 8 a.now) × Long lists.now }
    ensures { BackPlanned a.now lists.now live.now q result }
{
    let o = neighbours::see_owner(a, live, q)?;
    plan_merge(a, lists, o.at, o.grains)
}

// The used block of s grains at x is joined with its free neighbours. The one before it is seen first, as the words of both
// are then fetched at once. What follows is called in two branches, where nobody is before it and where a free block is, so
// that neither asks for it again.
fn plan_merge(a: &[u8], lists: &[u64], x: usize, s: usize) -> Result<Plan, Refusal>
    requires { (1 ≤ s) × (x + s < grains 8 a.now) × Long lists.now }
    ensures { Planned a.now lists.now (λ q. merge_script (grains 8 a.now) q x s) result }
{
    match neighbours::see_before(a, lists, x)? {
        None => plan_behind(a, lists, x, s, None),
        Some(f) => plan_behind(a, lists, x, s, Some(f)),
    }
}

// The same, where f was seen before it.
fn plan_behind(
    a: &[u8],
    lists: &[u64],
    x: usize,
    s: usize,
    f: Option<Neighbour>,
) -> Result<Plan, Refusal>
    requires { (1 ≤ s) × (x + s < grains 8 a.now) × Long lists.now × SeenBefore a.now lists.now x (Ok f) }
    ensures { Planned a.now lists.now (λ q. merge_script (grains 8 a.now) q x s) result }
{
    match neighbours::see_behind(a, lists, x + s)? {
        None => plan_both(a, lists, x, s, None, f),
        Some(e) => plan_both(a, lists, x, s, Some(e), f),
    }
}

// The same, where what stands behind it was seen, and f before it.
fn plan_both(
    a: &[u8],
    lists: &[u64],
    x: usize,
    s: usize,
    behind: Option<Neighbour>,
    f: Option<Neighbour>,
) -> Result<Plan, Refusal>
    requires { (1 ≤ s) × Behind a.now x s behind × Long lists.now × SeenBefore a.now lists.now x (Ok f) }
    ensures { Planned a.now lists.now
        (λ q. before_script (grains 8 a.now) q x s (seen_of a.now behind)) result }
{
    let t = s + neighbours::grains_of(behind);
    let Some(n) = f else {
        return plan_join(a, lists, x, t, behind, None);
    };
    let z = x - n.grains;
    let before = neighbours::second(behind, z, n);
    plan_join(a, lists, z, n.grains + t, behind, Some(before))
}

// The joined block of t grains at z goes to its list, after both neighbours left.
fn plan_join(
    a: &[u8],
    lists: &[u64],
    z: usize,
    t: usize,
    behind: Option<Neighbour>,
    before: Option<Neighbour>,
) -> Result<Plan, Refusal>
    requires { (1 ≤ t) × (z + t < grains 8 a.now) × Long lists.now × Known a.now behind × Known a.now before × Standing a.now z t behind before }
    ensures { Planned a.now lists.now
        (λ q. join_script (grains 8 a.now) classes q z t (both_leaving a.now behind before)) result }
{
    let list = class::map_floor(t as u64) as usize;
    if LISTS <= list {
        return Err(Refusal::Damaged);
    }
    let h = free_list::see_head(a, lists, list)?;
    let head = neighbours::head_after_both(behind, before, list, h);
    Ok(Plan {
        at: z,
        grains: t,
        behind,
        before,
        list,
        head,
    })
}

// ---- what is written

// What was planned for the payload at q, where nothing was written since: so the words of a neighbour are its links, and one
// that leaves alone does so without a jump. Where both leave, which is seldom, the jumps make the longest path shorter.
pub fn apply_now(a: &mut [u8], lists: &mut [u64], live: &mut [u64], q: usize, p: Plan)
    requires { AbleHere a.old p × Long lists.old × (q < 64 * length live.old) }
    ensures { WrittenLive a.old lists.old live.old (back_writes a.old q p)
        a.new lists.new live.new }
{
    match (p.behind, p.before) {
        (None, None) => put_joined(a, lists, live, q, p),
        (None, Some(f)) => {
            free_list::unlink_at(a, lists, f.list, f.next, f.prev, p.at);
            put_joined(a, lists, live, q, p)
        }
        (Some(e), None) => {
            let y = p.at + p.grains - e.grains;
            free_list::unlink_at(a, lists, e.list, e.next, e.prev, y);
            put_joined(a, lists, live, q, p)
        }
        (Some(_), Some(_)) => apply_later(a, lists, live, q, p),
    }
}

// The same, whatever was written since, such as a payload that was carried elsewhere: nothing is known of the words.
pub fn apply_later(a: &mut [u8], lists: &mut [u64], live: &mut [u64], q: usize, p: Plan)
    requires { Able a.old p × Long lists.old × (q < 64 * length live.old) }
    ensures { WrittenLive a.old lists.old live.old (back_writes a.old q p)
        a.new lists.new live.new }
{
    neighbours::leave_both(a, lists, p.behind, p.before);
    put_joined(a, lists, live, q, p);
}

// The joined block, whose neighbours left, goes to its list, and its payload at q is live no more.
fn put_joined(a: &mut [u8], lists: &mut [u64], live: &mut [u64], q: usize, p: Plan)
    requires { Able a.old p × Long lists.old × (q < 64 * length live.old) }
    ensures { WrittenLive a.old lists.old live.old (joined_writes a.old q p)
        a.new lists.new live.new }
{
    free_list::push(a, lists, p.list, p.at, p.head);
    put_free(a, p.at, p.grains);
    bits::clear_table_bit(live, q);
}

// A free block of t grains at z.
fn put_free(a: &mut [u8], z: usize, t: usize)
    requires { z + t < grains 8 a.old }
    ensures { a.new ≡ freed a.old z t }
{
    header::put_field(a, z, SIZE, header::bytes_of(t));
    header::put_field(a, z + t, BEFORE, header::bytes_of(z));
}
