// The tables that a caller lends: how long they must be, and the empty heap. The arena itself is left as it is: what was
// not given is never read.

#![tactic(auto)]

ghost use Rattle.std.specs.Prelude.{◌≡◌, ◌+◌, ◌≤◌, length};
ghost use Rattle.choice.specs.Says.{Says};
ghost use Rattle.bits.specs.Map.{map_words, lists as list_count};
ghost use Rattle.tables.specs.Length.{live_length, LongEnough};
ghost use Rattle.tables.specs.Initial.{empty_lists, Initial};

use bits::{LISTS, MAP_WORDS};
use header::NONE;

// The bytes of arena that a word of live bits stands for.
const LIVE_BYTES: usize = 1024;

// ---- how long they must be

// The entries of the table of the lists: the map, and a head for each list.
pub fn lists_length() -> usize
    ensures { result ≡ map_words + list_count }
{
    MAP_WORDS + LISTS
}

// The entries of the live table for an arena of so many bytes.
pub fn live_length(arena: usize) -> usize
    ensures { result ≡ live_length arena }
{
    arena / LIVE_BYTES + 1
}

// Whether tables of these lengths are long enough for an arena of so many bytes. Where they are not is refusal 6.
pub fn long_enough(arena: usize, lists: usize, live: usize) -> bool
    ensures { Says (LongEnough arena lists live) result }
{
    lists_length() <= lists && live_length(arena) <= live
}

// ---- the empty heap

// Makes the tables those of a heap to which nothing was given.
pub fn init(lists: &mut [u64], live: &mut [u64], regions: &mut [u64])
    requires { (map_words + list_count ≤ length lists.old) × (1 ≤ length regions.old) }
    ensures { Initial lists.old live.old regions.old lists.new live.new regions.new }
{
    empty_lists(lists);
    table::fill(live, 0);
    table::store(regions, 0, 0);
}

// No list is marked, and no head leads anywhere.
fn empty_lists(lists: &mut [u64])
    requires { map_words + list_count ≤ length lists.old }
    ensures { lists.new ≡ empty_lists lists.old }
{
    table::fill(&mut lists[..MAP_WORDS], 0);
    table::fill(&mut lists[MAP_WORDS..MAP_WORDS + LISTS], NONE);
}
