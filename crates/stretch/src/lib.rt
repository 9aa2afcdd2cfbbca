// The first two steps of a resize, which leave the payload where it is: a used block keeps fewer grains than it has, or
// more. It swallows the free block behind it, and what it doesn't need is left as a free block. The plan is read off the
// lent slices and checked before anything is written.

#![tactic(auto)]

ghost use Rattle.std.specs.Prelude.{◌≡◌, ◌+◌, ◌<◌};
ghost use Rattle.sound.specs.Plans.{grow_script, stretch_script};
ghost use Rattle.slices.specs.Decode.{grains};
ghost use Rattle.free_list.specs.Lent.{classes, Long};
ghost use Rattle.free_list.specs.Written.{Written};
ghost use Rattle.neighbours.specs.Shown.{seen_of};
ghost use Rattle.neighbours.specs.Within.{Behind};
ghost use Rattle.stretch.specs.Shown.{stretch_writes, Able, Planned};

use bits::LISTS;
use header::NONE;
use neighbours::Neighbour;
use refusal::Refusal;

// What the block is to do: it keeps its size; it grows, or leaves some of its grains; or it is too small even with the free
// block behind it, if one is there.
#[derive(Clone, Copy, Debug, PartialEq, Eq)]
pub enum Plan {
    Same,
    Fitted(Fit),
    Short(Option<Neighbour>),
}

// The neighbour behind leaves its list; what is left of both, if any, goes to a list, before its head.
#[derive(Clone, Copy, Debug, PartialEq, Eq)]
pub struct Fit {
    pub behind: Option<Neighbour>,
    pub list: usize,
    pub head: u64,
}

// ---- the plan

// The used block of s grains at x is to keep others.
pub fn plan_stretch(
    a: &[u8],
    lists: &[u64],
    x: usize,
    s: usize,
    keep: usize,
) -> Result<Plan, Refusal>
    requires { (x + s < grains 8 a.now) × Long lists.now }
    ensures { Planned a.now lists.now
        (λ q p u d. grow_script (grains 8 a.now) classes q p u d x s) x s keep result }
{
    if keep == s {
        return Ok(Plan::Same);
    }
    let behind = neighbours::see_behind(a, lists, x + s)?;
    plan_fit(a, lists, x, s, keep, behind)
}

// The same, where what stands behind it was seen.
fn plan_fit(
    a: &[u8],
    lists: &[u64],
    x: usize,
    s: usize,
    keep: usize,
    behind: Option<Neighbour>,
) -> Result<Plan, Refusal>
    requires { Behind a.now x s behind × Long lists.now }
    ensures { Planned a.now lists.now
        (λ q p u d. stretch_script (grains 8 a.now) classes q p u d x s (seen_of a.now behind)) x s keep result }
{
    let t = s + neighbours::grains_of(behind);
    if t < keep {
        return Ok(Plan::Short(behind));
    }
    if keep == t {
        return Ok(Plan::Fitted(Fit {
            behind,
            list: 0,
            head: NONE,
        }));
    }
    let list = class::map_floor((t - keep) as u64) as usize;
    if LISTS <= list {
        return Err(Refusal::Damaged);
    }
    let h = free_list::see_head(a, lists, list)?;
    let head = neighbours::head_after(behind, list, h);
    Ok(Plan::Fitted(Fit { behind, list, head }))
}

// ---- what is written

// What was planned for the used block of s grains at x.
pub fn apply_stretch(a: &mut [u8], lists: &mut [u64], x: usize, s: usize, keep: usize, p: Fit)
    requires { Able a.old x s keep p × Long lists.old }
    ensures { Written a.old lists.old (stretch_writes a.old x s keep p)
        a.new lists.new }
{
    let t = s + neighbours::grains_of(p.behind);
    neighbours::leave(a, lists, p.behind);
    carve::put_left(a, lists, x, t, keep, p.list, p.head);
}
