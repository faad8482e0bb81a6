// The symbol table, kept in the byte layout of body 1 of a table: an entry is its sort in 1 byte, its number in 2,
// its name's length in 1, and the name's bytes. The memory is the caller's; the same functions serve the compiler and
// finished tables. Parts that reach past the end of a slice are cut there, so that the searches ask nothing of their
// caller; what writes asks for room.
#![tactic(auto)]

ghost use Rattle.std.specs.Prelude.{◌≡◌, ◌+◌, ◌-◌, ◌*◌, ◌<◌, ◌≤◌, length};
ghost use Rattle.byte_slices.specs.Parts.{part};
ghost use Rattle.policy.specs.Basics as basics;
ghost use Rattle.policy.specs.Encode.{name_entry};
ghost use Rattle.policy.specs.Questions.{name_from};
ghost use Rattle.symbols.specs.Section.{EntryIs, entries_at};
ghost use Rattle.symbols.specs.Lookup.{family_number, most_of, reply_of};
ghost use Rattle.symbols.specs.Append.{Room, Appended};

use byte_slices::Span;
use policy::{NameEntry, Sort};

// What is at a place of a section: an entry, with the place past it; the section's end; or bytes that are no entry. (An
// Option would be no plainer: the check of a table tells the end from bytes that are no entry.)
#[derive(Clone, Copy)]
pub enum Entry {
    Named {
        sort: usize,
        number: usize,
        past: usize,
    },
    Done,
    Broken,
}

// What a name was declared as: its sort, and its number.
#[derive(Clone, Copy)]
pub struct Symbol {
    pub sort: usize,
    pub number: usize,
}

// The entry at a place of the section that ends at end. Neither lies past the end of the table.
fn entry_at(table: &[u8], at: usize, end: usize) -> Entry
    requires { (at ≤ end) × (end ≤ length table.now) }
    ensures { EntryIs table.now at end result }
{
    let name = at + NameEntry::HEAD_BYTES;
    if end < name {
        if at == end {
            return Entry::Done;
        }
        return Entry::Broken;
    }
    let past = name + little_endian::wide(table[at + NameEntry::LENGTH_AT]);
    if end < past {
        return Entry::Broken;
    }
    Entry::Named {
        sort: little_endian::wide(table[at]),
        number: little_endian::get2(table, at + NameEntry::NUMBER_AT),
        past,
    }
}

// The entry at a place of the section that ends at end.
pub fn next_entry(table: &[u8], at: usize, end: usize) -> Entry
    ensures { EntryIs table.now at end result }
{
    let last = end.min(table.len());
    if last < at {
        return Entry::Done;
    }
    entry_at(table, at, last)
}

// Whether the len bytes of a at i and of b at j are the same.
pub fn same(a: &[u8], i: usize, b: &[u8], j: usize, len: usize) -> bool
    ensures { result ≡ basics.same (part a.now i len) (part b.now j len) }
{
    byte_slices::part(a, i, len) == byte_slices::part(b, j, len)
}

// The families of names by number: users, roles and types as their sorts, then the classes, and after them the
// permissions of each class.
#[derive(Clone, Copy)]
pub struct NameFamily;

impl NameFamily {
    pub const CLASSES: usize = 3;

    // The permissions of class 0; those of the other classes follow.
    pub const FIRST_PERMISSIONS: usize = 4;

    pub const COUNT: usize = NameFamily::FIRST_PERMISSIONS + policy::Class::MAX;
}

// The number of the family that an entry's name belongs to.
pub fn family_of(sort: usize, number: usize) -> usize
    ensures { result ≡ family_number sort number }
{
    if sort < Sort::FIRST_ATTRIBUTE {
        return sort;
    }
    if sort < Sort::CLASS {
        return sort - Sort::FIRST_ATTRIBUTE;
    }
    if sort == Sort::CLASS {
        return NameFamily::CLASSES;
    }
    NameFamily::FIRST_PERMISSIONS + number / policy::Permission::MAX
}

// How many things of a sort, or classes, there may be.
pub fn most(sort: usize) -> usize
    ensures { result ≡ most_of sort }
{
    if sort == Sort::USER {
        return policy::User::MAX;
    }
    if sort == Sort::ROLE {
        return policy::Role::MAX;
    }
    if sort == Sort::TYPE {
        return policy::Type::MAX;
    }
    if sort < Sort::CLASS {
        return policy::Attribute::MAX;
    }
    policy::Class::MAX
}

// Writes an entry at the end of a section, with the len bytes of text from a place on as its name; the section's new
// end.
pub fn append(
    table: &mut [u8],
    end: usize,
    sort: usize,
    number: usize,
    text: &[u8],
    from: usize,
    len: usize,
) -> usize
    requires { Room (length table.old) end sort len }
    ensures { Appended table.old table.new end (name_entry sort number (part text.now from len)) result }
{
    let name = byte_slices::part(text, from, len);
    let long = name.len();
    table[end] = sort as u8;
    little_endian::put2(table, end + NameEntry::NUMBER_AT, number);
    table[end + NameEntry::LENGTH_AT] = long as u8;
    byte_slices::copy(table, end + NameEntry::HEAD_BYTES, name, 0, long);
    end + NameEntry::HEAD_BYTES + long
}

// Where the name of a sort and number is.
pub fn name_of(table: &[u8], start: usize, end: usize, sort: usize, number: usize) -> Option<Span>
    ensures { reply_of result ≡ name_from sort number start (entries_at table.now start end) }
{
    let last = end.min(table.len());
    let mut at = start.min(last);
    while let Entry::Named {
        sort: s,
        number: n,
        past,
    } = entry_at(table, at, last)
    {
        if s == sort && n == number {
            let name = at + NameEntry::HEAD_BYTES;
            return Some(Span {
                start: name,
                length: past - name,
            });
        }
        at = past;
    }
    None
}

// All names that the maxima allow, 2,016, and the longest entry of one, 68 bytes.
const NAMES: usize = policy::User::MAX
    + policy::Role::MAX
    + policy::Type::MAX
    + 3 * policy::Attribute::MAX
    + policy::Class::MAX * (1 + policy::Permission::MAX);

const ENTRY_BYTES: usize = NameEntry::HEAD_BYTES + lexer::Name::MAX;

// Room for all names.
pub const NAME_BYTES: usize = NAMES * ENTRY_BYTES;
