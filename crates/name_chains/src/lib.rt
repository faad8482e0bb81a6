// Names found by family and length. After the room for the entries the compiler's memory has an index (`name_index`):
// for each family and length a chain of its entries, in order of declaration. A try walks one chain and compares each
// name in it, up to the hit, and tells how many it compared. A finished table has no index: there a try walks all
// entries, and compares those of the family and length.
#![tactic(auto)]

ghost use Rattle.std.specs.Prelude.{◌≡◌, ◌+◌, ◌<◌, ◌≤◌, length};
ghost use Rattle.byte_slices.specs.Parts.{part};
ghost use Rattle.policy.specs.Encode.{name_entry};
ghost use Rattle.symbols.specs.Section.{entries_at};
ghost use Rattle.name_chains.specs.Compared.{TriedIn};
ghost use Rattle.name_chains.specs.Chains.{HasChain, Tries, Compares};
ghost use Rattle.name_index.specs.Index.{front_of, word_in, index_bytes};
ghost use Rattle.name_chains.specs.Entered.{EntryRoom, Entered, Cleared};

use name_index::{
    ALL, CHAIN_BYTES, CHAINS, COUNTS, Chain, ENTRIES, FRONT, LENGTHS, Link, SYMBOL_BYTES,
};
use policy::NameEntry;
use symbols::{Entry, NameFamily, Symbol};

// What a try found, and how many entries it compared byte by byte.
#[derive(Clone, Copy)]
pub struct Tried {
    pub found: Option<Symbol>,
    pub compared: usize,
}

// ---- a try

// The chain of a family and a length. Where there is none, or where the memory is too short for an index, it is that
// of the number 0, which has no entries.
fn chain_of(symbols: &[u8], family: usize, long: usize) -> Chain
    ensures { HasChain symbols.now family long result }
{
    if symbols.len() < SYMBOL_BYTES || NameFamily::COUNT <= family || LENGTHS <= long {
        return name_index::chain_in(0);
    }
    name_index::chain_in(name_index::word(symbols, CHAINS + LENGTHS * family + long))
}

// Whether the name of an entry, of the same length, is this one: by its first eight bytes, and where there are more,
// by all. The entry is told by its first word.
fn is_same(symbols: &[u8], at: usize, front: usize, name: &[u8]) -> bool
    requires { (at < 4096) × (index_bytes ≤ length symbols.now) × (front ≡ front_of name.now) }
    ensures { Compares symbols.now at name.now result }
{
    if name_index::word(symbols, at) != front {
        return false;
    }
    if name.len() <= FRONT {
        return true;
    }
    let link = name_index::link_at(symbols, at);
    symbols::same(name, 0, symbols, link.place, name.len())
}

// The first entry of a family with a name, by the chain of the family and the length. The others are those that were
// compared and have another name. A chain ends by its count, so that the walk ends whatever the memory holds.
pub fn find(symbols: &[u8], family: usize, name: &[u8]) -> Tried
    ensures { Tries symbols.now family name.now result }
{
    let front = name_index::front_of(name);
    let chain = chain_of(symbols, family, name.len());
    let mut at = chain.first;
    for others in 0..chain.count {
        if is_same(symbols, at, front, name) {
            let Link { sort, number, .. } = name_index::link_at(symbols, at);
            return Tried {
                found: Some(Symbol { sort, number }),
                compared: others + 1,
            };
        }
        at = name_index::link_at(symbols, at).next;
    }
    Tried {
        found: None,
        compared: chain.count,
    }
}

// The first entry of a family with a name, among the entries of a section, which has no index: the length is compared
// first, then the family, and only then the name.
pub fn find_in_section(table: &[u8], start: usize, end: usize, family: usize, name: &[u8]) -> Tried
    ensures { TriedIn family name.now (entries_at table.now start end) result }
{
    let long = name.len();
    let mut compared: usize = 0;
    let mut at = start;
    while let Entry::Named { sort, number, past } = symbols::next_entry(table, at, end) {
        let first = at + NameEntry::HEAD_BYTES;
        if past - first == long && symbols::family_of(sort, number) == family {
            compared += 1;
            if symbols::same(name, 0, table, first, long) {
                return Tried {
                    found: Some(Symbol { sort, number }),
                    compared,
                };
            }
        }
        at = past;
    }
    Tried {
        found: None,
        compared,
    }
}

// ---- an entry more

// How many entries of a sort were entered.
pub fn entered(symbols: &[u8], sort: usize) -> usize
    requires { (sort < 8) × (index_bytes ≤ length symbols.now) }
    ensures { result ≡ word_in symbols.now (6436 + sort) }
{
    name_index::word(symbols, COUNTS + sort)
}

// Writes an entry at the end of the symbols, and at the end of its chain; the place past it. A number of more than 2
// bytes is cut to 2, a family that there is not to one that there is, and the 2,049th entry takes the words of the
// first: the compiler has none of these.
pub fn enter(
    symbols: &mut [u8],
    end: usize,
    sort: usize,
    number: usize,
    text: &[u8],
    from: usize,
    len: usize,
) -> usize
    requires { EntryRoom (length symbols.old) end sort len }
    ensures { Entered symbols.old symbols.new end (name_entry sort number (part text.now from len)) result }
{
    let past = symbols::append(symbols, end, sort, number, text, from, len);
    let at = 2 * (name_index::word(symbols, ALL) % ENTRIES);
    let long = past - end - NameEntry::HEAD_BYTES;
    let family = symbols::family_of(sort, number) % NameFamily::COUNT;
    let front = name_index::front_of(byte_slices::part(text, from, len));
    let link = name_index::link_word(Link {
        next: 0,
        sort,
        number: number % Link::NUMBERS,
        place: end + NameEntry::HEAD_BYTES,
    });
    name_index::set_node(symbols, at, front, link);
    name_index::set_last(symbols, CHAINS + LENGTHS * family + long, at);
    name_index::count_one(symbols, COUNTS + sort);
    name_index::count_one(symbols, ALL);
    past
}

// Empties the index: no chain has an entry, and none is counted. What the words of entries hold does not matter then.
pub fn clear(symbols: &mut [u8])
    ensures { Cleared symbols.old symbols.new }
{
    bitset::clear_at(symbols, CHAIN_BYTES, SYMBOL_BYTES - CHAIN_BYTES);
}
