// The heap's calls as C hears them: each answer is one number. 1 to 6 are the refusals, and no granted answer of a call is
// one of them. There is a function for each call, since C has no methods. What is promised of each is what firmheap promises:
// specs/Answers.antt says how. Under C's names and in C's way the crate exports_c has them, which is the static library.
#![tactic(auto)]

ghost use Rattle.std.specs.Prelude.{◌≡◌, ◌+◌};
ghost use Rattle.bits.specs.Map.{map_words, lists as list_count};
ghost use Rattle.tables.specs.Length.{live_length};
ghost use Rattle.firmheap.specs.Replies.{taken};
ghost use Rattle.exports.specs.Answers.{number_of};
ghost use Rattle.exports.specs.Contract.{InitAnswers, InsertAnswers, AppendAnswers, AllocateAnswers, DeallocateAnswers, ReallocateAnswers};

use refusal::Refusal;

// ---- an answer as a number

// What was granted, or the number of a refusal.
fn number(answer: Result<usize, Refusal>) -> u64
    ensures { result ≡ number_of (taken answer) }
{
    match answer {
        Ok(x) => x as u64,
        Err(refusal) => u64::from(refusal),
    }
}

// ---- how long the tables must be

// The words of the table of the lists. Never refuses.
pub fn firmheap_lists_length() -> u64
    ensures { result ≡ map_words + list_count }
{
    firmheap::lists_length() as u64
}

// The words of the live table, for an arena of so many bytes. Never refuses.
pub fn firmheap_live_length(arena: usize) -> u64
    ensures { result ≡ live_length arena }
{
    firmheap::live_length(arena) as u64
}

// ---- an empty heap, and its regions

// 0, or a refusal.
pub fn firmheap_init(arena: &[u8], lists: &mut [u64], live: &mut [u64], regions: &mut [u64]) -> u64
    ensures { InitAnswers arena.now lists.old live.old regions.old result
        lists.new live.new regions.new }
{
    number(firmheap::init(arena, lists, live, regions).and(Ok(0)))
}

// The bytes used from `start` on, 64 or more, or a refusal.
pub fn firmheap_insert_free_block(
    arena: &mut [u8],
    lists: &mut [u64],
    regions: &mut [u64],
    start: usize,
    len: usize,
) -> u64
    ensures { InsertAnswers arena.old lists.old regions.old start len result
        arena.new lists.new regions.new }
{
    number(firmheap::insert_free_block(arena, lists, regions, start, len))
}

// The same of a region that begins where another ended.
pub fn firmheap_append_free_block(
    arena: &mut [u8],
    lists: &mut [u64],
    regions: &mut [u64],
    start: usize,
    len: usize,
) -> u64
    ensures { AppendAnswers arena.old lists.old regions.old start len result
        arena.new lists.new regions.new }
{
    number(firmheap::append_free_block(arena, lists, regions, start, len))
}

// ---- payloads

// The payload's offset, 16 or more, or a refusal.
pub fn firmheap_allocate(
    arena: &mut [u8],
    lists: &mut [u64],
    live: &mut [u64],
    size: usize,
    align: usize,
) -> u64
    ensures { AllocateAnswers arena.old lists.old live.old size align result
        arena.new lists.new live.new }
{
    number(firmheap::allocate(arena, lists, live, size, align))
}

// 0, or a refusal.
pub fn firmheap_deallocate(
    arena: &mut [u8],
    lists: &mut [u64],
    live: &mut [u64],
    payload: usize,
    align: usize,
) -> u64
    ensures { DeallocateAnswers arena.old lists.old live.old payload align result
        arena.new lists.new live.new }
{
    number(firmheap::deallocate(arena, lists, live, payload, align).and(Ok(0)))
}

// The payload's offset from now on, 16 or more, or a refusal.
pub fn firmheap_reallocate(
    arena: &mut [u8],
    lists: &mut [u64],
    live: &mut [u64],
    payload: usize,
    size: usize,
    align: usize,
) -> u64
    ensures { ReallocateAnswers arena.old lists.old live.old payload size align result
        arena.new lists.new live.new }
{
    number(firmheap::reallocate(arena, lists, live, payload, size, align))
}
