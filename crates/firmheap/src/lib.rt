// The heap's calls. The caller lends the arena and its tables; whatever is in them and whatever the numbers are, each call
// returns, stays inside the slices, and does its work or refuses; a refusal changes nothing. What is promised
// of each is one record, in crates/calls/specs/Promises.antt.

#![tactic(auto)]

ghost use Rattle.std.specs.Prelude.{◌≡◌, ◌+◌};
ghost use Rattle.bits.specs.Map.{map_words, lists as list_count};
ghost use Rattle.tables.specs.Length.{live_length};
ghost use Rattle.firmheap.specs.Replies.{taken, done};
ghost use Rattle.firmheap.specs.Contract.{Allocates, Deallocates, Reallocates, Initialises, Inserts, Appends};
ghost use Rattle.calls.specs.Bytes.{following};
ghost use Rattle.region.specs.Admit.{asked};
ghost use Rattle.firmheap.specs.Give.{Lays};

use refusal::Refusal;
use region::Place;

// The bytes of half a grain, in which payloads are counted, and of a grain.
const HALF: usize = 16;

const GRAIN: usize = 32;

// ---- how long the tables must be

// The words of the table of the lists.
pub fn lists_length() -> usize
    ensures { result ≡ map_words + list_count }
{
    tables::lists_length()
}

// The words of the live table, for an arena of so many bytes.
pub fn live_length(arena: usize) -> usize
    ensures { result ≡ live_length arena }
{
    tables::live_length(arena)
}

// ---- take

// A payload of `size` bytes at a multiple of `align`: its offset.
pub fn allocate(
    arena: &mut [u8],
    lists: &mut [u64],
    live: &mut [u64],
    size: usize,
    align: usize,
) -> Result<usize, Refusal>
    ensures { Allocates arena.old lists.old live.old size align (taken result)
        arena.new lists.new live.new }
{
    if !tables::long_enough(arena.len(), lists.len(), live.len()) {
        return Err(Refusal::TooShort);
    }
    let asked = request::request_of(size, align)?;
    let p = allocate::plan_take(arena, lists, asked.length, asked.multiple)?;
    occupy::apply_take(arena, lists, live, p);
    Ok(HALF * (2 * p.at + p.place))
}

// ---- return

// The payload at the offset `payload`, which was handed out with the alignment `align` or another that suits it.
pub fn deallocate(
    arena: &mut [u8],
    lists: &mut [u64],
    live: &mut [u64],
    payload: usize,
    align: usize,
) -> Result<(), Refusal>
    ensures { Deallocates arena.old lists.old live.old payload align (done result)
        arena.new lists.new live.new }
{
    if !tables::long_enough(arena.len(), lists.len(), live.len()) {
        return Err(Refusal::TooShort);
    }
    let q = request::payload_of(payload, align)?;
    if header::count(arena) <= q / 2 {
        return Err(Refusal::NotLive);
    }
    let p = deallocate::plan_back(arena, lists, live, q)?;
    deallocate::apply_now(arena, lists, live, q, p);
    Ok(())
}

// ---- resize

// The payload at the offset `payload`, which was handed out with the alignment `align` or another that suits it, is to have
// `size` bytes: where it is, or elsewhere with all bytes that it had and keeps. Refused, it is as it was.
pub fn reallocate(
    arena: &mut [u8],
    lists: &mut [u64],
    live: &mut [u64],
    payload: usize,
    size: usize,
    align: usize,
) -> Result<usize, Refusal>
    ensures { Reallocates arena.old lists.old live.old payload size align (taken result)
        arena.new lists.new live.new }
{
    if !tables::long_enough(arena.len(), lists.len(), live.len()) {
        return Err(Refusal::TooShort);
    }
    let asked = request::request_of(size, align)?;
    let q = request::payload_of(payload, align)?;
    if header::count(arena) <= q / 2 {
        return Err(Refusal::NotLive);
    }
    let at = reallocate::resize(arena, lists, live, q, asked.length, asked.multiple)?;
    Ok(HALF * at)
}

// ---- giving a region

// `len` bytes from the offset `start` on: the whole grains among them. The bytes used of them are counted from `start`.
pub fn insert_free_block(
    arena: &mut [u8],
    lists: &mut [u64],
    regions: &mut [u64],
    start: usize,
    len: usize,
) -> Result<usize, Refusal>
    ensures { Inserts arena.old lists.old regions.old start len (taken result)
        arena.new lists.new regions.new }
{
    let g = request::first_grain(start);
    let n = request::whole_grains(start, len);
    let s = lay(arena, lists, regions, Place::Anywhere, g, n)?;
    Ok(request::bytes_before(start) + GRAIN * s)
}

// `len` bytes from the offset `start` on, where another region ended.
pub fn append_free_block(
    arena: &mut [u8],
    lists: &mut [u64],
    regions: &mut [u64],
    start: usize,
    len: usize,
) -> Result<usize, Refusal>
    ensures { Appends arena.old lists.old regions.old start len (taken result)
        arena.new lists.new regions.new }
{
    let n = following_grains(start, len);
    let s = lay(arena, lists, regions, Place::Behind, start / GRAIN, n)?;
    Ok(GRAIN * s)
}

// The grains of `len` bytes that follow a region which ended at `start`: inside a grain none ends, and none follows.
fn following_grains(start: usize, len: usize) -> usize
    ensures { result ≡ following start len }
{
    if start % GRAIN == 0 {
        return len / GRAIN;
    }
    0
}

// `len` grains from grain g on: how many of them are used.
fn lay(
    arena: &mut [u8],
    lists: &mut [u64],
    regions: &mut [u64],
    place: Place,
    g: usize,
    len: usize,
) -> Result<usize, Refusal>
    ensures { Lays arena.old lists.old regions.old (asked place) g len (taken result)
        arena.new lists.new regions.new }
{
    if lists.len() < tables::lists_length() {
        return Err(Refusal::TooShort);
    }
    if regions.len() == 0 {
        return Err(Refusal::TooShort);
    }
    let p = give::plan_region(arena, lists, regions, usize::from(place), g, len)?;
    give::apply_region(arena, lists, regions, p);
    Ok(p.used)
}

// ---- an empty heap

// Makes the lent tables those of a heap to which nothing was given.
pub fn init(
    arena: &[u8],
    lists: &mut [u64],
    live: &mut [u64],
    regions: &mut [u64],
) -> Result<(), Refusal>
    ensures { Initialises arena.now lists.old live.old regions.old (done result)
        lists.new live.new regions.new }
{
    if !tables::long_enough(arena.len(), lists.len(), live.len()) {
        return Err(Refusal::TooShort);
    }
    if regions.len() < 1 {
        return Err(Refusal::TooShort);
    }
    tables::init(lists, live, regions);
    Ok(())
}
