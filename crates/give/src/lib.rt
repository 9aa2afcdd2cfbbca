// Giving a region, as a whole: its plan, which is read off the lent slices and checked before anything is written, and the
// writes of a plan. Pieces are as long as a piece can be, but for the last one; what is left of one grain isn't used.

#![tactic(auto)]

ghost use Rattle.std.specs.Prelude.{◌≡◌, ◌+◌, ◌-◌, ◌*◌, ◌≤◌, ◌<◌, length};
ghost use Rattle.choice.specs.Says.{Says};
ghost use Rattle.class.specs.Class.{list_of};
ghost use Rattle.bits.specs.Map.{lists as list_count};
ghost use Rattle.slices.specs.Decode.{grains};
ghost use Rattle.free_list.specs.Lent.{Long};
ghost use Rattle.free_list.specs.Written.{Written};
ghost use Rattle.give.specs.Shown.{last_writes, given_writes, Able, LastAble, LayoutPlanned, RegionPlanned};
ghost use Rattle.give.specs.Joined.{Joined};
ghost use Rattle.give.specs.Last.{Row, SeenLast};
ghost use Rattle.give.specs.Given.{Given};

use bits::MAP_WORDS;
use header::NONE;
use refusal::Refusal;
use region::PIECE;

// The first grain; the pieces of full length with the head that the first of them is put before, of which there may be none;
// the last piece, if there is one; and how many grains all of them have.
#[derive(Clone, Copy, Debug, PartialEq, Eq)]
pub struct Plan {
    pub at: usize,
    pub full: usize,
    pub head: u64,
    pub last: Option<Last>,
    pub used: usize,
}

// The grains of a last piece, with the head that it is put before.
#[derive(Clone, Copy, Debug, PartialEq, Eq)]
pub struct Last {
    pub grains: usize,
    pub head: u64,
}

// ---- the plan

// len grains from g on are given; with `behind` 1 the region must begin where another ended.
pub fn plan_region(
    a: &[u8],
    lists: &[u64],
    regions: &[u64],
    behind: usize,
    g: usize,
    len: usize,
) -> Result<Plan, Refusal>
    requires { Long lists.now × (1 ≤ length regions.now) }
    ensures { RegionPlanned a.now lists.now regions.now behind g len result }
{
    region::admit(regions, behind, header::count(a), g, len)?;
    if len < PIECE {
        return plan_one(a, lists, g, len);
    }
    plan_row(a, lists, g, len)
}

// A region that is shorter than a piece can be: it is one piece.
fn plan_one(a: &[u8], lists: &[u64], g: usize, len: usize) -> Result<Plan, Refusal>
    requires { Long lists.now × (g + len ≤ grains 8 a.now) × (2 ≤ len) × (len < 4096) }
    ensures { LayoutPlanned a.now lists.now g len result }
{
    let head = free_list::see_head(a, lists, list_of(len))?;
    Ok(Plan {
        at: g,
        full: 0,
        head: NONE,
        last: Some(Last { grains: len, head }),
        used: len,
    })
}

// Any other: pieces of full length, and a last one if two grains or more are left.
fn plan_row(a: &[u8], lists: &[u64], g: usize, len: usize) -> Result<Plan, Refusal>
    requires { Long lists.now × (g + len ≤ grains 8 a.now) × (4096 ≤ len) }
    ensures { LayoutPlanned a.now lists.now g len result }
{
    let h = free_list::see_head(a, lists, list_of(PIECE))?;
    let full = len / PIECE;
    let rest = len % PIECE;
    if rest < 2 {
        return Ok(Plan {
            at: g,
            full,
            head: h,
            last: None,
            used: len - rest,
        });
    }
    let head = see_last(a, lists, g, full, h, rest)?;
    Ok(Plan {
        at: g,
        full,
        head: h,
        last: Some(Last { grains: rest, head }),
        used: len,
    })
}

// The list of the block of a piece of m grains, of which its sentinel has one.
fn list_of(m: usize) -> usize
    requires { (2 ≤ m) × (m ≤ 4096) }
    ensures { (result ≡ list_of (m - 1)) × (result < list_count) }
{
    class::map_floor(m as u64 - 1) as usize
}

// ---- the head that the last piece is put before

// The head of the list of a piece of m grains, as the pieces of full length from g on will leave it, which are put before h.
fn see_last(
    a: &[u8],
    lists: &[u64],
    g: usize,
    full: usize,
    h: u64,
    m: usize,
) -> Result<u64, Refusal>
    requires { Long lists.now × Row a.now lists.now g full h × (2 ≤ m) × (m ≤ 4096) }
    ensures { SeenLast a.now lists.now g full h (list_of (m - 1)) result }
{
    let k = list_of(m);
    let last = header::bytes_of(g + PIECE * (full - 1));
    if k == list_of(PIECE) {
        return Ok(last);
    }
    see_other(a, lists, g, full, h, k, last)
}

// The same of list k, which is another than theirs; `last` is the word of the last of them, which will have nothing before it.
fn see_other(
    a: &[u8],
    lists: &[u64],
    g: usize,
    full: usize,
    h: u64,
    k: usize,
    last: u64,
) -> Result<u64, Refusal>
    requires { Long lists.now × Row a.now lists.now g full h × (k < list_count) × (k ≡ list_of 4095 → ⊥) × (last ≡ 32 * (g + 4096 * (full - 1))) }
    ensures { SeenLast a.now lists.now g full h k result }
{
    let word = table::fetch(lists, MAP_WORDS + k);
    if word == last {
        if !bits::is_marked(lists, k) {
            return Err(Refusal::Damaged);
        }
        return Ok(word);
    }
    if is_joined(word, g, full, h) {
        return Err(Refusal::Damaged);
    }
    free_list::see_head(a, lists, k)
}

// Whether the word leads to the head h or to the start of a piece: all but the last piece will get another before them.
fn is_joined(word: u64, g: usize, full: usize, h: u64) -> bool
    requires { g + 4096 * full < 576460752303423488 }
    ensures { Says (Joined g full h word) result }
{
    if word == h {
        return word != NONE;
    }
    let y = header::grain_of(word);
    if y < g {
        return false;
    }
    if (y - g) % PIECE != 0 {
        return false;
    }
    (y - g) / PIECE < full
}

// ---- what is written

// What was planned.
pub fn apply_region(a: &mut [u8], lists: &mut [u64], regions: &mut [u64], p: Plan)
    requires { Able a.old lists.old regions.old p }
    ensures { Given a.old lists.old regions.old
        (given_writes a.old regions.old p)
        a.new lists.new regions.new }
{
    region::lay_full(a, lists, p.at, p.full, p.head);
    lay_last(a, lists, p.at + PIECE * p.full, p.last);
    region::enter_region(regions, p.at, p.at + p.used);
}

// The last piece at x, if there is one.
fn lay_last(a: &mut [u8], lists: &mut [u64], x: usize, last: Option<Last>)
    requires { LastAble a.old lists.old x last }
    ensures { Written a.old lists.old (last_writes a.old x last) a.new lists.new }
{
    if let Some(piece) = last {
        region::lay_piece(a, lists, x, piece.grains, piece.head);
    }
}
