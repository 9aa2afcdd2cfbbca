// The block of a live payload, and the blocks beside a used one: everything that must hang together before a call writes.
// Each check is a script's, carried out on the lent slices.

#![tactic(auto)]

ghost use Rattle.std.specs.Prelude.{◌≡◌, ◌+◌, ◌*◌, ◌%◌, ◌≤◌, ◌<◌, length};
ghost use Rattle.choice.specs.Choice.{if_eq};
ghost use Rattle.slices.specs.Decode.{grains};
ghost use Rattle.free_list.specs.Lent.{Long};
ghost use Rattle.free_list.specs.Written.{Written};
ghost use Rattle.neighbours.specs.Shown.{SeenOwner, SeenBlock, grains_of, SeenBehind, SeenBefore};
ghost use Rattle.neighbours.specs.Owner.{SeenEnd};
ghost use Rattle.neighbours.specs.Beside.{SeenListed};
ghost use Rattle.neighbours.specs.After.{headed, leaving_of};
ghost use Rattle.neighbours.specs.Leaving.{Known, both_leaving, headed_both, second_of};

use bits::LISTS;
use header::{BEFORE, NONE, PREV, SIZE};
use refusal::Refusal;

// ---- the block of a live payload

// A used block.
#[derive(Clone, Copy, Debug, PartialEq, Eq)]
pub struct Owner {
    pub at: usize,
    pub grains: usize,
}

// The used block whose live payload is at q, counted in half grains: half a grain before it, or as the word before it says.
pub fn see_owner(a: &[u8], live: &[u64], q: usize) -> Result<Owner, Refusal>
    requires { (q < 64 * length live.now) × (q < 2 * grains 8 a.now) }
    ensures { SeenOwner a.now live.now q result }
{
    if bits::table_bit(live, q) != 1 {
        return Err(Refusal::NotLive);
    }
    if q % 2 == 1 {
        let x = q / 2;
        let Some(s) = header::used_at(a, x) else {
            return Err(Refusal::Damaged);
        };
        return see_end(a, x, s);
    }
    let x = block_of(a, q)?;
    let Some(s) = header::used_at(a, x) else {
        return Err(Refusal::Damaged);
    };
    if 2 * (x + s) < q {
        return Err(Refusal::Damaged);
    }
    see_end(a, x, s)
}

// The used block of s grains at x, where what stands behind it leads back to it.
fn see_end(a: &[u8], x: usize, s: usize) -> Result<Owner, Refusal>
    requires { x + s < grains 8 a.now }
    ensures { SeenEnd a.now x s result }
{
    if !header::leads(a, x + s, BEFORE, x) {
        return Err(Refusal::Damaged);
    }
    Ok(Owner { at: x, grains: s })
}

// The grain of the block whose payload is at q, at a grain, as the word before it says: that word leads to a grain before q.
fn block_of(a: &[u8], q: usize) -> Result<usize, Refusal>
    requires { (q < 2 * grains 8 a.now) × (q % 2 ≡ 1 → ⊥) }
    ensures { SeenBlock a.now q result }
{
    let g = q / 2;
    if g == 0 {
        return Err(Refusal::Damaged);
    }
    let x = header::grain_of(header::field(a, g - 1, PREV));
    if g <= x {
        return Err(Refusal::Damaged);
    }
    Ok(x)
}

// ---- the blocks beside a used one

// A free block beside a used one, with its list, where it is before one block and behind another.
#[derive(Clone, Copy, Debug, PartialEq, Eq)]
pub struct Neighbour {
    pub grains: usize,
    pub list: usize,
    pub next: u64,
    pub prev: u64,
}

// What stands at y, behind a used block: a free block, or nobody.
pub fn see_behind(a: &[u8], lists: &[u64], y: usize) -> Result<Option<Neighbour>, Refusal>
    requires { (y < grains 8 a.now) × Long lists.now }
    ensures { SeenBehind a.now lists.now y result }
{
    let Some(t) = header::free_at(a, y) else {
        if header::is_busy(a, y) {
            return Ok(None);
        }
        return Err(Refusal::Damaged);
    };
    if !header::is_busy(a, y + t) {
        return Err(Refusal::Damaged);
    }
    if !header::leads(a, y + t, BEFORE, y) {
        return Err(Refusal::Damaged);
    }
    let e = see_listed(a, lists, t, y)?;
    Ok(Some(e))
}

// What stands before the block at x, a free block or nobody: the size word is that of a free block which reaches to x, or of
// a used one.
pub fn see_before(a: &[u8], lists: &[u64], x: usize) -> Result<Option<Neighbour>, Refusal>
    requires { (x < grains 8 a.now) × Long lists.now }
    ensures { SeenBefore a.now lists.now x result }
{
    let word = header::field(a, x, BEFORE);
    if word == NONE {
        return Ok(None);
    }
    let z = header::grain_of(word);
    if x <= z {
        return Err(Refusal::Damaged);
    }
    let t = x - z;
    let size = header::field(a, z, SIZE);
    let bytes = header::bytes_of(t);
    if size == bytes + 1 {
        return Ok(None);
    }
    if size != bytes {
        return Err(Refusal::Damaged);
    }
    let e = see_listed(a, lists, t, z)?;
    Ok(Some(e))
}

// The free block of t grains at y, in the list of its size.
fn see_listed(a: &[u8], lists: &[u64], t: usize, y: usize) -> Result<Neighbour, Refusal>
    requires { (y < grains 8 a.now) × Long lists.now × (1 ≤ t) × (t < grains 8 a.now) }
    ensures { SeenListed a.now lists.now t y result }
{
    let list = class::map_floor(t as u64) as usize;
    if LISTS <= list {
        return Err(Refusal::Damaged);
    }
    let e = free_list::see_entry(a, lists, list, y)?;
    Ok(Neighbour {
        grains: t,
        list,
        next: e.next,
        prev: e.prev,
    })
}

// The grains of a neighbour; nobody has none.
pub fn grains_of(e: Option<Neighbour>) -> usize
    ensures { result ≡ grains_of e }
{
    match e {
        Some(n) => n.grains,
        None => 0,
    }
}

// ---- a free neighbour leaves its list

// A neighbour leaves its list, if there is one.
pub fn leave(a: &mut [u8], lists: &mut [u64], e: Option<Neighbour>)
    requires { Known a.old e × Long lists.old }
    ensures { Written a.old lists.old (leaving_of a.old e)
        a.new lists.new }
{
    if let Some(n) = e {
        free_list::unlink(a, lists, n.list, n.next, n.prev);
    }
}

// Both neighbours of a block leave their lists, the one behind first.
pub fn leave_both(
    a: &mut [u8],
    lists: &mut [u64],
    behind: Option<Neighbour>,
    before: Option<Neighbour>,
)
    requires { Known a.old behind × Known a.old before × Long lists.old }
    ensures { Written a.old lists.old (both_leaving a.old behind before)
        a.new lists.new }
{
    leave(a, lists, behind);
    leave(a, lists, before);
}

// ---- what the leaving of a neighbour changes

// The link v of the grain z, after a neighbour left its list: its link b, where it led to z, was what led from z to it, and
// leads to w now.
fn after(b: u64, z: usize, w: u64, v: u64) -> u64
    requires { z < 576460752303423488 }
    ensures { result ≡ if_eq b (32 * z) w v }
{
    if b == header::bytes_of(z) {
        return w;
    }
    v
}

// The head h of list j, after a neighbour left its list.
pub fn head_after(e: Option<Neighbour>, j: usize, h: u64) -> u64
    ensures { result ≡ headed e j h }
{
    let Some(n) = e else {
        return h;
    };
    if n.prev != NONE {
        return h;
    }
    if n.list != j {
        return h;
    }
    n.next
}

// The head h of list j, after the neighbour behind left, and then the one before.
pub fn head_after_both(
    behind: Option<Neighbour>,
    before: Option<Neighbour>,
    j: usize,
    h: u64,
) -> u64
    ensures { result ≡ headed_both behind before j h }
{
    head_after(before, j, head_after(behind, j, h))
}

// The free block f at z, before a used one, as it leaves its list after the neighbour behind left.
pub fn second(behind: Option<Neighbour>, z: usize, f: Neighbour) -> Neighbour
    requires { z < 576460752303423488 }
    ensures { result ≡ second_of behind z f }
{
    let Some(e) = behind else {
        return f;
    };
    Neighbour {
        next: after(e.prev, z, e.next, f.next),
        prev: after(e.next, z, e.prev, f.prev),
        ..f
    }
}
