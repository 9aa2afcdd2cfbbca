// Requests: what a caller gives in bytes, turned into half grains and grains, or refused where it is out of range.
// An alignment is a power of two, so no function divides by one: what is beyond a multiple is cut out by a mask.

#![tactic(auto)]

ghost use Rattle.std.specs.Prelude.{◌≡◌, ◌+◌, ◌-◌, ◌*◌, ◌<◌, ◌^◌};
ghost use Rattle.choice.specs.Says.{Says};
ghost use Rattle.align.specs.Align.{Power};
ghost use Rattle.definition.specs.Units.{multiple as multiple_of, first_grain, whole_grains};
ghost use Rattle.definition.specs.Calls.{grains, place, keeps};
ghost use Rattle.request.specs.Alignment.{Alignment};
ghost use Rattle.request.specs.Asked.{Asked};
ghost use Rattle.request.specs.Returned.{Returned};

use refusal::Refusal;

// The bytes of half a grain, and of a grain.
const HALF: usize = 16;

const GRAIN: usize = 32;

// The largest alignment.
const MOST: usize = 4096;

// The last multiple of a grain that 64 bits hold.
const END: usize = 18446744073709551584;

// A request in the heap's units: the payload's length and the multiple at which it stands in half grains, and what is
// looked for in grains.
#[derive(Clone, Copy)]
pub struct Request {
    pub length: usize,
    pub multiple: usize,
    pub wanted: usize,
}

// Whether an alignment may be asked for.
pub fn is_alignment(align: usize) -> bool
    ensures { Says (Alignment align) result }
{
    align <= MOST && align::is_power(align as u64)
}

// An alignment in half grains.
pub fn multiple_of(align: usize) -> usize
    ensures { result ≡ multiple_of 16 align }
{
    (align / HALF).max(1)
}

// Half grains rounded up to grains. With `div_ceil` the longest path of a take has 273 instructions on x86-64, and 268 so.
fn grains_of(halves: usize) -> usize
    requires { halves + 1 < 2 ^ 64 }
    ensures { result ≡ grains halves }
{
    (halves + 1) / 2
}

// A request of size bytes at a multiple of align. Refused where it is out of range.
pub fn request_of(size: usize, align: usize) -> Result<Request, Refusal>
    ensures { Asked size align result }
{
    if !is_alignment(align) {
        return Err(Refusal::OutOfRange);
    }
    let multiple = multiple_of(align);
    if END - HALF * multiple < size {
        return Err(Refusal::OutOfRange);
    }
    let length = (size + (HALF - 1)) / HALF;
    let wanted = grains_of(length + multiple);
    Ok(Request {
        length,
        multiple,
        wanted,
    })
}

// The place of a payload in a block that starts at grain y.
pub fn place_of(multiple: usize, y: usize) -> usize
    requires { Power multiple × (2 * y < 2 ^ 64) }
    ensures { result ≡ place multiple y }
{
    multiple - ((2 * y) & (multiple - 1))
}

// What a block keeps for p half grains behind place d.
pub fn keeps_of(d: usize, p: usize) -> usize
    requires { d + p + 1 < 2 ^ 64 }
    ensures { result ≡ keeps d p }
{
    grains_of(d + p)
}

// The number in half grains of a payload that stands at an offset in bytes, given back with an alignment. Out of range
// where the alignment doesn't suit the offset, and not live where no payload can be there.
pub fn payload_of(offset: usize, align: usize) -> Result<usize, Refusal>
    ensures { Returned offset align result }
{
    if !is_alignment(align) {
        return Err(Refusal::OutOfRange);
    }
    if offset & (align - 1) != 0 {
        return Err(Refusal::OutOfRange);
    }
    if GRAIN <= align {
        return Ok(offset / HALF);
    }
    if offset % GRAIN == 0 {
        return Err(Refusal::OutOfRange);
    }
    if offset % GRAIN == HALF {
        return Ok(offset / HALF);
    }
    Err(Refusal::NotLive)
}

// ---- regions

// The first grain that lies wholly behind an offset.
pub fn first_grain(start: usize) -> usize
    ensures { result ≡ first_grain 16 start }
{
    start.div_ceil(GRAIN)
}

// The bytes from an offset up to there.
pub fn bytes_before(start: usize) -> usize
    ensures { result ≡ 32 * first_grain 16 start - start }
{
    if start % GRAIN == 0 {
        return 0;
    }
    GRAIN - start % GRAIN
}

// The grains that lie wholly in `len` bytes from an offset on.
pub fn whole_grains(start: usize, len: usize) -> usize
    ensures { result ≡ whole_grains 16 start len }
{
    len.saturating_sub(bytes_before(start)) / GRAIN
}
