// Giving a region, in parts: the table of the regions is looked through, so that nothing is given twice; the pieces are laid
// out; the region is entered in the table. Regions are counted in grains. An entry that can't be right is remembered, and not
// refused before it is known that no entry overlaps.

#![tactic(auto)]

ghost use Rattle.std.specs.Prelude.{◌≡◌, ◌+◌, ◌*◌, ◌≤◌, ◌<◌, length};
ghost use Rattle.choice.specs.Says.{Says};
ghost use Rattle.table.specs.Table.{entry};
ghost use Rattle.word.specs.Word.{put_at};
ghost use Rattle.slices.specs.Decode.{grains};
ghost use Rattle.sound.specs.RegionPlan.{piece_writes};
ghost use Rattle.free_list.specs.Lent.{link};
ghost use Rattle.free_list.specs.Written.{Written};
ghost use Rattle.region.specs.Piece.{Placeable};
ghost use Rattle.region.specs.Pieces.{full_writes, Layable};
ghost use Rattle.region.specs.Entered.{with_region};
ghost use Rattle.region.specs.Look.{Overlap, Wrong, LookedThrough};
ghost use Rattle.region.specs.Admit.{asked, Answered, AnsweredBeside};

use header::{BEFORE, NONE, SENTINEL, SIZE};
use refusal::Refusal;

// The grains of a piece that is as long as a piece can be.
pub const PIECE: usize = 4096;

// Where a new region may begin: anywhere, or only where another ended.
#[derive(Clone, Copy, Debug, PartialEq, Eq)]
pub enum Place {
    Anywhere,
    Behind,
}

// Its number, as `admit` takes it.
impl From<Place> for usize {
    ghost from_gives = { λ place n. n ≡ asked place };

    fn from(place: Place) -> usize {
        match place {
            Place::Anywhere => 0,
            Place::Behind => 1,
        }
    }
}

// What the table says of a new region that no entry overlaps.
#[derive(Clone, Copy, Debug, PartialEq, Eq)]
pub struct Findings {
    // an entry ends at its first grain
    pub meets: bool,
    // an entry can't be right
    pub wrong: bool,
}

// Whether len grains from g on can be given, in an arena of n. With `behind` 1 the region must begin where another ended.
pub fn admit(regions: &[u64], behind: usize, n: usize, g: usize, len: usize) -> Result<(), Refusal>
    requires { 1 ≤ length regions.now }
    ensures { Answered regions.now behind n g len result }
{
    let count = number(regions, 0);
    let most = (regions.len() - 1) / 2;
    if count == most {
        return Err(Refusal::TooShort);
    }
    if len < 2 {
        return Err(Refusal::Misplaced);
    }
    if n < g {
        return Err(Refusal::Misplaced);
    }
    if n - g < len {
        return Err(Refusal::Misplaced);
    }
    if most < count {
        return Err(Refusal::Damaged);
    }
    admit_beside(regions, behind, n, g, len)
}

// The same, where the region is inside the arena and the table has room for it: the other regions are looked at.
fn admit_beside(
    regions: &[u64],
    behind: usize,
    n: usize,
    g: usize,
    len: usize,
) -> Result<(), Refusal>
    requires { (2 * entry regions.now 0 + 1 ≤ length regions.now) × (g + len ≤ n) }
    ensures { AnsweredBeside regions.now behind n g len result }
{
    let found = look(regions, n, g, len, number(regions, 0))?;
    if usize::from(found.meets) < behind {
        return Err(Refusal::Misplaced);
    }
    if found.wrong {
        return Err(Refusal::Damaged);
    }
    Ok(())
}

// The first `count` entries of the table, for a new region of len grains from g on, in an arena of n: refused where one of
// them overlaps it.
pub fn look(
    regions: &[u64],
    n: usize,
    g: usize,
    len: usize,
    count: usize,
) -> Result<Findings, Refusal>
    requires { (2 * count + 1 ≤ length regions.now) × (g + len ≤ n) }
    ensures { LookedThrough regions.now n g len count result }
{
    let mut meets = false;
    let mut wrong = false;
    for i in 0..count {
        let first = number(regions, 2 * i + 1);
        let end = number(regions, 2 * i + 2);
        if overlaps(first, end, g, len) {
            return Err(Refusal::Misplaced);
        }
        meets |= end == g;
        wrong |= is_wrong(n, first, end);
    }
    Ok(Findings { meets, wrong })
}

// Number i of the table.
fn number(regions: &[u64], i: usize) -> usize
    requires { i < length regions.now }
    ensures { result ≡ entry regions.now i }
{
    table::fetch(regions, i) as usize
}

// Whether the region from first to end overlaps len grains from g on.
fn overlaps(first: usize, end: usize, g: usize, len: usize) -> bool
    requires { g + len < 18446744073709551616 }
    ensures { Says (Overlap first end g len) result }
{
    g < end && first < g + len
}

// Whether the region from first to end can't be one of an arena of n grains.
fn is_wrong(n: usize, first: usize, end: usize) -> bool
    ensures { Says (Wrong n first end) result }
{
    end < 2 || end - 2 < first || n < end
}

// ---- laying out

// A piece of m grains at x: a free block and its sentinel, before h in the block's list.
pub fn lay_piece(a: &mut [u8], lists: &mut [u64], x: usize, m: usize, h: u64)
    requires { Placeable a.old lists.old x m h }
    ensures { Written a.old lists.old (piece_writes x m (link a.old h)) a.new lists.new }
{
    let s = m - 1;
    put_header(a, x, header::bytes_of(s), NONE);
    put_header(a, x + s, SENTINEL, header::bytes_of(x));
    let k = class::map_floor(s as u64) as usize;
    free_list::push(a, lists, k, x, h);
}

// `count` pieces from g on that are as long as a piece can be, before h in their list.
pub fn lay_full(a: &mut [u8], lists: &mut [u64], g: usize, count: usize, h: u64)
    requires { Layable a.old lists.old g count h }
    ensures { Written a.old lists.old (full_writes g (link a.old h) count) a.new lists.new }
{
    let mut head = h;
    for i in 0..count {
        let x = g + PIECE * i;
        lay_piece(a, lists, x, PIECE, head);
        head = header::bytes_of(x);
    }
}

// The size and the block before, as words, of the header at g.
fn put_header(a: &mut [u8], g: usize, size: u64, before: u64)
    requires { g < grains 8 a.old }
    ensures { a.new ≡ put_at 8 (put_at 8 a.old (4 * g) size) (4 * g + 1) before }
{
    header::put_field(a, g, SIZE, size);
    header::put_field(a, g, BEFORE, before);
}

// The region from g to end as one more entry of the table.
pub fn enter_region(regions: &mut [u64], g: usize, end: usize)
    requires { 2 * entry regions.old 0 + 3 ≤ length regions.old }
    ensures { regions.new ≡ with_region regions.old g end }
{
    let r = number(regions, 0);
    table::store(regions, 2 * r + 1, g as u64);
    table::store(regions, 2 * r + 2, end as u64);
    table::store(regions, 0, r as u64 + 1);
}
