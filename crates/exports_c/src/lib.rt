// The heap's calls for C: each slice is a pointer and a length. Each is the call of the crate exports, under the same contract.
#![tactic(auto)]

ghost use Rattle.std.specs.Prelude.{◌≡◌, ◌+◌};
ghost use Rattle.bits.specs.Map.{map_words, lists as list_count};
ghost use Rattle.tables.specs.Length.{live_length};
ghost use Rattle.exports.specs.Contract.{InitAnswers, InsertAnswers, AppendAnswers, AllocateAnswers, DeallocateAnswers, ReallocateAnswers};

// ---- how long the tables must be

// The words of the table of the lists. Never refuses.
#[unsafe(no_mangle)]
pub extern "C" fn firmheap_lists_length() -> u64
    ensures { result ≡ map_words + list_count }
{
    exports::firmheap_lists_length()
}

// The words of the live table, for an arena of so many bytes. Never refuses.
#[unsafe(no_mangle)]
pub extern "C" fn firmheap_live_length(arena: usize) -> u64
    ensures { result ≡ live_length arena }
{
    exports::firmheap_live_length(arena)
}

// ---- an empty heap, and its regions

// 0, or a refusal.
#[unsafe(no_mangle)]
pub extern "C" fn firmheap_init(
    arena: &[u8],
    lists: &mut [u64],
    live: &mut [u64],
    regions: &mut [u64],
) -> u64
    ensures { InitAnswers arena.now lists.old live.old regions.old result
        lists.new live.new regions.new }
{
    exports::firmheap_init(arena, lists, live, regions)
}

// The bytes used from `start` on, 64 or more, or a refusal.
#[unsafe(no_mangle)]
pub extern "C" fn firmheap_insert_free_block(
    arena: &mut [u8],
    lists: &mut [u64],
    regions: &mut [u64],
    start: usize,
    len: usize,
) -> u64
    ensures { InsertAnswers arena.old lists.old regions.old start len result
        arena.new lists.new regions.new }
{
    exports::firmheap_insert_free_block(arena, lists, regions, start, len)
}

// The same of a region that begins where another ended.
#[unsafe(no_mangle)]
pub extern "C" fn firmheap_append_free_block(
    arena: &mut [u8],
    lists: &mut [u64],
    regions: &mut [u64],
    start: usize,
    len: usize,
) -> u64
    ensures { AppendAnswers arena.old lists.old regions.old start len result
        arena.new lists.new regions.new }
{
    exports::firmheap_append_free_block(arena, lists, regions, start, len)
}

// ---- payloads

// The payload's offset, 16 or more, or a refusal.
#[unsafe(no_mangle)]
pub extern "C" fn firmheap_allocate(
    arena: &mut [u8],
    lists: &mut [u64],
    live: &mut [u64],
    size: usize,
    align: usize,
) -> u64
    ensures { AllocateAnswers arena.old lists.old live.old size align result
        arena.new lists.new live.new }
{
    exports::firmheap_allocate(arena, lists, live, size, align)
}

// 0, or a refusal.
#[unsafe(no_mangle)]
pub extern "C" fn firmheap_deallocate(
    arena: &mut [u8],
    lists: &mut [u64],
    live: &mut [u64],
    payload: usize,
    align: usize,
) -> u64
    ensures { DeallocateAnswers arena.old lists.old live.old payload align result
        arena.new lists.new live.new }
{
    exports::firmheap_deallocate(arena, lists, live, payload, align)
}

// The payload's offset from now on, 16 or more, or a refusal.
#[unsafe(no_mangle)]
pub extern "C" fn firmheap_reallocate(
    arena: &mut [u8],
    lists: &mut [u64],
    live: &mut [u64],
    payload: usize,
    size: usize,
    align: usize,
) -> u64
    ensures { ReallocateAnswers arena.old lists.old live.old payload size align result
        arena.new lists.new live.new }
{
    exports::firmheap_reallocate(arena, lists, live, payload, size, align)
}
