// The usable size of a payload, read off the headers by this program itself.

// The bytes of half a grain, of a grain, and of a word.
const HALF: usize = 16;

const GRAIN: usize = 32;

const WORD: usize = 8;

// The bytes from the payload's first to its block's end, where the headers say a block.
pub fn usable(arena: &[u8], payload: usize) -> Option<usize> {
    let block = block_of(arena, payload)?;
    let word = word(arena, block)?;
    let end = block.checked_add(word - word % GRAIN)?;
    if arena.len() < end {
        return None;
    }
    end.checked_sub(payload)
}

// Where the payload's block starts: half a grain before it, or where the word right before a payload of the large kind
// says.
fn block_of(arena: &[u8], payload: usize) -> Option<usize> {
    let before = payload.checked_sub(HALF)?;
    if payload % GRAIN == HALF {
        return Some(before);
    }
    word(arena, payload - WORD)
}

// The eight bytes at an offset as one number.
fn word(arena: &[u8], o: usize) -> Option<usize> {
    let bytes = arena.get(o..)?.first_chunk()?;
    Some(usize::from_le_bytes(*bytes))
}
