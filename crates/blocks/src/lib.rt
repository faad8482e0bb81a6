// The blocks that were opened (W-203), for refusal 4. They have numbers from 1 on, in the order in which they were
// opened; 0 is the whole text. Lent memory has a number of 8 bytes for each, its key: the block around it, and the
// length and the place of its own name in the text. A block is new where none before it has the same block around it
// and the same name. A filter of the blocks so far says of most that they are new, so that few are compared with all
// before them.
#![tactic(auto)]

ghost use Rattle.std.specs.Prelude.{◌≡◌, ◌-◌, ◌%◌, ◌<◌, ◌≤◌, length, get_or};
ghost use Rattle.bloom_filter.specs.Filter.{hash_of};
ghost use Rattle.blocks.specs.Opened.{key, block_in, opened_in, is_block, is_opened, Marks, Asks, Adds};

// The blocks of a text: how many there can be.
#[derive(Clone, Copy)]
pub struct Blocks;

impl Blocks {
    // A block takes at least 8 bytes of the text: its parentheses, the word and a byte of its name.
    pub const MAX: usize = (lexer::Text::MAX + 1) / 8;
}

// What each part of a key is below: no text has so many bytes.
const LIMIT: u64 = 65_536;

// The block around is lowest in a key. These are the weights of the other parts.
const LENGTH: u64 = LIMIT;

const PLACE: u64 = LENGTH * LIMIT;

// A block as one number. What is too great is cut; no block of a text is.
fn key_of(parent: usize, at: usize, len: usize) -> u64
    ensures { result ≡ key parent at len }
{
    parent as u64 % LIMIT + LENGTH * (len as u64 % LIMIT) + PLACE * (at as u64 % LIMIT)
}

// Whether a block is the one of a name inside a block.
fn is_block(text: &[u8], k: u64, parent: usize, name: &[u8]) -> bool
    ensures { result ≡ is_block parent name.now (block_in text.now k) }
{
    if (k % LIMIT) as usize != parent {
        return false;
    }
    let at = (k / PLACE) as usize;
    let len = (k / LENGTH % LIMIT) as usize;
    name == byte_slices::part(text, at, len)
}

// Whether one of the first count blocks is the one of a name inside a block.
fn is_opened(text: &[u8], keys: &[u64], count: usize, parent: usize, name: &[u8]) -> bool
    requires { count ≤ length keys.now }
    ensures { result ≡ is_opened parent name.now (opened_in text.now keys.now count) }
{
    keys[..count]
        .iter()
        .any(|key| is_block(text, *key, parent, name))
}

// The hash of a block: of the bytes of its name, and after them of the number of the block around it.
fn hash_of(parent: usize, name: &[u8]) -> usize
    ensures { (result ≡ hash_of parent name.now) × (result < 4294967296) }
{
    let mut hash: usize = 0;
    for byte in name {
        hash = bloom_filter::hash_step(hash, little_endian::wide(*byte));
    }
    bloom_filter::hash_step(hash, parent)
}

// Puts the marks of a block into the filter, and says whether all of them were there before. A filter of no words can
// rule no block out.
fn insert_in_filter(filter: &mut [u64], parent: usize, name: &[u8]) -> bool
    ensures { Marks filter.old filter.new (hash_of parent name.now) result }
{
    if filter.is_empty() {
        return true;
    }
    bloom_filter::insert(filter, hash_of(parent, name))
}

// The same as is_opened, where the filter covers these blocks; the filter gets the marks of the one that is asked
// for. Most that are new lack a mark, and then the walk over all that were opened is left out.
fn was_opened(
    text: &[u8],
    keys: &[u64],
    filter: &mut [u64],
    count: usize,
    parent: usize,
    name: &[u8],
) -> bool
    requires { count ≤ length keys.now }
    ensures { Asks filter.old filter.new (opened_in text.now keys.now count) parent name.now result }
{
    if !insert_in_filter(filter, parent, name) {
        return false;
    }
    is_opened(text, keys, count, parent, name)
}

// Adds a block to the count blocks that were opened before it: its name is the len bytes of the text from a place on,
// inside the block of a number. Where it was opened before, or where there is no room, the keys stay, and the answer
// is no. The answer is right where the filter covers the blocks before it; after a yes it covers this one too.
pub fn add(
    text: &[u8],
    keys: &mut [u64],
    filter: &mut [u64],
    count: usize,
    parent: usize,
    at: usize,
    len: usize,
) -> bool
    ensures { Adds text.now keys.old keys.new filter.old filter.new count parent at len result }
{
    if keys.len() <= count {
        return false;
    }
    let name = byte_slices::part(text, at, len);
    if was_opened(text, keys, filter, count, parent, name) {
        return false;
    }
    keys[count] = key_of(parent, at, len);
    true
}

// The number of the block around a block.
pub fn around(keys: &[u64], block: usize) -> usize
    ensures { 0 < block → block ≤ length keys.now → result ≡ get_or keys.now (block - 1) 0 % 65536 }
{
    if block == 0 {
        return 0;
    }
    if keys.len() < block {
        return 0;
    }
    (keys[block - 1] % LIMIT) as usize
}
