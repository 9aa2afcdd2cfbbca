// Bits: of a word, of a table of words of any length, and of the map of the lists.
// A search shifts or takes one word and counts the zeros below its lowest bit; there is no loop.

#![tactic(auto)]

ghost use Rattle.std.specs.Prelude.{◌≡◌, ◌+◌, ◌-◌, ◌*◌, ◌/◌, ◌%◌, ◌≤◌, ◌<◌, length};
ghost use Rattle.choice.specs.Choice.{if_eq};
ghost use Rattle.choice.specs.Says.{Says};
ghost use Rattle.bits.specs.Bit.{bit, set_bit, clear_bit};
ghost use Rattle.bits.specs.First.{first_set, Finds};
ghost use Rattle.bits.specs.TableBit.{table_bit, set_table_bit, clear_table_bit};
ghost use Rattle.bits.specs.Map.{map_words, lists, map_bit, mark_bit, unmark_bit};

// The bits of a word.
const BITS: usize = 64;

// The lists that the map has a bit for.
pub const LISTS: usize = 192;

// The words of the map. In the table of the lists the heads stand behind them.
pub const MAP_WORDS: usize = 3;

// ---- a word

// Whether bit i is set.
pub fn has_bit(m: u64, i: usize) -> bool
    requires { i < 64 }
    ensures { Says (bit m i ≡ 1) result }
{
    (m >> i) % 2 == 1
}

// The word with bit i set.
pub fn with_bit(m: u64, i: usize) -> u64
    requires { i < 64 }
    ensures { result ≡ set_bit m i }
{
    m | (1 << i)
}

// The word with bit i cleared.
pub fn without_bit(m: u64, i: usize) -> u64
    requires { i < 64 }
    ensures { result ≡ clear_bit m i }
{
    let b = 1 << i;
    (m | b) ^ b
}

// The place of the lowest bit set at or above i.
pub fn lowest_from(m: u64, i: usize) -> Option<usize>
    requires { i < 64 }
    ensures { Finds 64 result (first_set (bit m) (64 - i) i) }
{
    let rest = m >> i;
    if rest == 0 {
        return None;
    }
    Some(i + rest.trailing_zeros() as usize)
}

// ---- a table

// Bit k of the table.
pub fn table_bit(t: &[u64], k: usize) -> u64
    requires { k < 64 * length t.now }
    ensures { result ≡ table_bit t.now k }
{
    (table::fetch(t, k / BITS) >> (k % BITS)) % 2
}

// Bit k of the table set. It differs from the next one in what is done to the word, which has a function of its own.
pub fn set_table_bit(t: &mut [u64], k: usize)
    requires { k < 64 * length t.old }
    ensures { t.new ≡ set_table_bit t.old k }
{
    let set = with_bit(table::fetch(t, k / BITS), k % BITS);
    table::store(t, k / BITS, set);
}

// Bit k of the table cleared.
pub fn clear_table_bit(t: &mut [u64], k: usize)
    requires { k < 64 * length t.old }
    ensures { t.new ≡ clear_table_bit t.old k }
{
    let cleared = without_bit(table::fetch(t, k / BITS), k % BITS);
    table::store(t, k / BITS, cleared);
}

// ---- the map of the lists

// Whether list k is marked.
pub fn is_marked(t: &[u64], k: usize) -> bool
    requires { (map_words ≤ length t.now) × (k < lists) }
    ensures { Says (map_bit t.now k ≡ 1) result }
{
    table_bit(t, k) == 1
}

// List k marked.
pub fn mark(t: &mut [u64], k: usize)
    requires { (map_words ≤ length t.old) × (k < lists) }
    ensures { t.new ≡ mark_bit t.old k }
{
    set_table_bit(t, k);
}

// List k unmarked.
pub fn unmark(t: &mut [u64], k: usize)
    requires { (map_words ≤ length t.old) × (k < lists) }
    ensures { t.new ≡ unmark_bit t.old k }
{
    clear_table_bit(t, k);
}

// List k unmarked where w is n. Its word is stored in either case, so that no jump hangs on it.
pub fn unmark_where(t: &mut [u64], k: usize, w: u64, n: u64)
    requires { (map_words ≤ length t.old) × (k < lists) }
    ensures { t.new ≡ if_eq w n (unmark_bit t.old k) t.old }
{
    let m = table::fetch(t, k / BITS);
    table::store(t, k / BITS, without_where(m, k % BITS, w, n));
}

// The word with bit i cleared where w is n.
fn without_where(m: u64, i: usize, w: u64, n: u64) -> u64
    requires { i < 64 }
    ensures { result ≡ if_eq w n (clear_bit m i) m }
{
    if w == n {
        return without_bit(m, i);
    }
    m
}

// The first marked list at or after k.
pub fn first_marked(t: &[u64], k: usize) -> Option<usize>
    requires { (map_words ≤ length t.now) × (k ≤ lists) }
    ensures { Finds lists result (first_set (map_bit t.now) (lists - k) k) }
{
    if LISTS <= k {
        return None;
    }
    first_of_word(t, k).or_else(|| first_behind(t, k / BITS))
}

// The same in the map's word of list k alone.
fn first_of_word(t: &[u64], k: usize) -> Option<usize>
    requires { (map_words ≤ length t.now) × (k < lists) }
    ensures { Finds (64 * (k / 64 + 1)) result (first_set (map_bit t.now) (64 - k % 64) k) }
{
    let i = k / BITS;
    let b = lowest_from(table::fetch(t, i), k % BITS)?;
    Some(BITS * i + b)
}

// The same in the words behind the map's word i.
fn first_behind(t: &[u64], i: usize) -> Option<usize>
    requires { (map_words ≤ length t.now) × (i < map_words) }
    ensures { Finds lists result (first_set (map_bit t.now) (lists - 64 * (i + 1)) (64 * (i + 1))) }
{
    match i {
        0 => first_of_word(t, BITS).or_else(|| first_of_word(t, 2 * BITS)),
        1 => first_of_word(t, 2 * BITS),
        _ => None,
    }
}
