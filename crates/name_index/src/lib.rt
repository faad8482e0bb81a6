// The index of names after the room for the entries: its words, the chains and the links in them.
//
// The index is words of 8 bytes. The entry k has the words 2k and 2k + 1: the first eight bytes of its name, and its
// link. A link names the next entry of its chain, and a chain its first and its last, by the number of the entry's
// first word, 2k: that is where a try reads on.
#![tactic(auto)]

ghost use Rattle.std.specs.Prelude.{◌≡◌, ◌+◌, ◌<◌, ◌≤◌, length};
ghost use Rattle.name_index.specs.Index.{front_of, word_in, chain_in, chain_word, link_in, link_word, ChainFits, LinkFits, put_word, put_node, put_next, put_last, put_more, index_bytes};

// ---- the words of the index

// How many lengths a name can have: 0 to 64 bytes.
pub const LENGTHS: usize = lexer::Name::MAX + 1;

// How many entries the index has room for: more than the 2,016 that the maxima allow.
pub const ENTRIES: usize = 2048;

// After the words of the entries stand those of the chains, a chain for each family and length.
pub const CHAINS: usize = 2 * ENTRIES;

// After these the entries of each sort are counted, and in the last word all entries.
pub const COUNTS: usize = CHAINS + symbols::NameFamily::COUNT * LENGTHS;

pub const ALL: usize = COUNTS + policy::Sort::COUNT;

const WORD_BYTES: usize = 8;

// Where the chains start.
pub const CHAIN_BYTES: usize = symbols::NAME_BYTES + WORD_BYTES * CHAINS;

// The memory of symbols with an index: 188,648 bytes.
pub const SYMBOL_BYTES: usize = symbols::NAME_BYTES + WORD_BYTES * (ALL + 1);

// The number in a word of the index. It is read in two halves: whoever needs only the low one then reads no other.
pub fn word(symbols: &[u8], k: usize) -> usize
    requires { (k < 6445) × (index_bytes ≤ length symbols.now) }
    ensures { result ≡ word_in symbols.now k }
{
    let at = symbols::NAME_BYTES + WORD_BYTES * k;
    little_endian::get4(symbols, at) + little_endian::FOUR_ON * little_endian::get4(symbols, at + 4)
}

// Puts a number into a word of the index.
fn set_word(symbols: &mut [u8], k: usize, n: usize)
    requires { (k < 6445) × (index_bytes ≤ length symbols.old) }
    ensures { symbols.new ≡ put_word symbols.old k n }
{
    let at = symbols::NAME_BYTES + WORD_BYTES * k;
    little_endian::put8(symbols, at, n);
}

// ---- chains and links

// A chain: how many entries it has, and the first words of its first and its last entry.
#[derive(Clone, Copy)]
pub struct Chain {
    pub count: usize,
    pub first: usize,
    pub last: usize,
}

impl Chain {
    // What a count is below: more than there are entries.
    const COUNT_LIMIT: usize = 65_536;

    // The count is lowest in the word of a chain. These are the weights of the other parts.
    const FIRST: usize = Chain::COUNT_LIMIT;

    const LAST: usize = Chain::FIRST * CHAINS;
}

// The chain in a word. The numbers of words are cut to those of the words of entries.
pub fn chain_in(word: usize) -> Chain
    ensures { result ≡ chain_in word }
{
    Chain {
        count: word % Chain::COUNT_LIMIT,
        first: word / Chain::FIRST % CHAINS,
        last: word / Chain::LAST % CHAINS,
    }
}

// A chain as one word.
fn chain_word(chain: Chain) -> usize
    requires { ChainFits chain }
    ensures { result ≡ chain_word chain }
{
    chain.count + Chain::FIRST * chain.first + Chain::LAST * chain.last
}

// The link of an entry: the first word of the next entry of its chain, the entry's sort and number, and the place of
// its name.
#[derive(Clone, Copy)]
pub struct Link {
    pub next: usize,
    pub sort: usize,
    pub number: usize,
    pub place: usize,
}

impl Link {
    // How many numbers an entry's two bytes can tell.
    pub const NUMBERS: usize = 65_536;

    // The next is lowest in the word of a link. These are the weights of the other parts.
    const SORT: usize = CHAINS;

    const NUMBER: usize = Link::SORT * policy::Sort::COUNT;

    const PLACE: usize = Link::NUMBER * Link::NUMBERS;
}

// The link in a word. The number of a word is cut to those of the words of entries.
fn link_in(word: usize) -> Link
    ensures { result ≡ link_in word }
{
    Link {
        next: word % CHAINS,
        sort: word / Link::SORT % policy::Sort::COUNT,
        number: word / Link::NUMBER % Link::NUMBERS,
        place: word / Link::PLACE,
    }
}

// A link as one word.
pub fn link_word(link: Link) -> usize
    requires { LinkFits link }
    ensures { result ≡ link_word link }
{
    link.next + Link::SORT * link.sort + Link::NUMBER * link.number + Link::PLACE * link.place
}

// The link of the entry whose first word is at.
pub fn link_at(symbols: &[u8], at: usize) -> Link
    requires { (at < 4096) × (index_bytes ≤ length symbols.now) }
    ensures { (result ≡ link_in (word_in symbols.now (at + 1))) × LinkFits result }
{
    link_in(word(symbols, at + 1))
}

// ---- the first bytes of a name

// How many bytes of a name are in the first word of its entry: as many as a word has.
pub const FRONT: usize = WORD_BYTES;

// The first eight bytes of a name as one number, the lowest first; or all, where it has less.
pub fn front_of(name: &[u8]) -> usize
    ensures { result ≡ front_of name.now }
{
    let first = byte_slices::part(name, 0, FRONT);
    if first.len() < 4 {
        return little_endian::number(first);
    }
    little_endian::get4(first, 0) + little_endian::FOUR_ON * little_endian::number(&first[4..])
}

// ---- an entry more

// Puts the two words of an entry, from its first word on.
pub fn set_node(symbols: &mut [u8], at: usize, front: usize, link: usize)
    requires { (at < 4096) × (index_bytes ≤ length symbols.old) }
    ensures { symbols.new ≡ put_node symbols.old at front link }
{
    set_word(symbols, at, front);
    set_word(symbols, at + 1, link);
}

// Puts the entry whose first word is next after the entry whose first word is at.
fn set_next(symbols: &mut [u8], at: usize, next: usize)
    requires { (at < 4096) × (next < 4096) × (index_bytes ≤ length symbols.old) }
    ensures { symbols.new ≡ put_next symbols.old at next }
{
    let link = link_at(symbols, at);
    let linked = link_word(Link { next, ..link });
    set_word(symbols, at + 1, linked);
}

// Puts the entry whose first word is at to the end of the chain that is in a word.
pub fn set_last(symbols: &mut [u8], k: usize, at: usize)
    requires { (k < 6445) × (at < 4096) × (index_bytes ≤ length symbols.old) }
    ensures { symbols.new ≡ put_last symbols.old k at }
{
    let chain = chain_in(word(symbols, k));
    if chain.count == 0 {
        let begun = chain_word(Chain {
            count: 1,
            first: at,
            last: at,
        });
        set_word(symbols, k, begun);
        return;
    }
    set_next(symbols, chain.last, at);
    let longer = chain_word(Chain {
        count: chain.count + 1,
        last: at,
        ..chain
    });
    set_word(symbols, k, longer);
}

// Counts one more in a word. The count is cut as that of a chain is.
pub fn count_one(symbols: &mut [u8], k: usize)
    requires { (k < 6445) × (index_bytes ≤ length symbols.old) }
    ensures { symbols.new ≡ put_more symbols.old k }
{
    let count = word(symbols, k) % Chain::COUNT_LIMIT;
    set_word(symbols, k, count + 1);
}
