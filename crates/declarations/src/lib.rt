// Declarations of names and classes, put into the symbol table under their full names: faults 4 and 6. The form of a
// statement is known to be good where it is declared here, so that a row that should be of names is one.
#![tactic(auto)]

ghost use Rattle.std.specs.Prelude.{◌≡◌, [], ◌∷◌, ◌≤◌, ◌<◌, length, IfErr};
ghost use Rattle.lexer.specs.Forms.{frames_at};
ghost use Rattle.policy.specs.Encode.{name_entry, permission_entries};
ghost use Rattle.policy.specs.Words.{class_k};
ghost use Rattle.declarations.specs.SortCounts.{Counts, Stands};
ghost use Rattle.name_rows.specs.WordRows.{words_in};
ghost use Rattle.declarations.specs.NewEntries.{Enters};
ghost use Rattle.declarations.specs.Declares.{IsRefusal, DeclaresAt, DeclaresName, DeclaresPlain, DeclaresClass};
ghost use Rattle.name_index.specs.Index.{index_bytes};
ghost use Rattle.symbols.specs.Section.{name_bytes};

use policy::{Fault, NameEntry, Sort};
use symbols::Symbol;

// The memory of the symbols: their entries, after the room for them their chains, and after these the scope. With no
// names the chains are empty (`name_chains::clear`), and with no block open so is the scope (`scopes::start`).
pub const SYMBOL_BYTES: usize = scopes::SYMBOL_BYTES;

// How many entries of a sort there are.
pub fn count(symbols: &[u8], sort: usize) -> usize
    ensures { Counts symbols.now sort result }
{
    if symbols.len() < name_index::SYMBOL_BYTES {
        return 0;
    }
    if Sort::PERMISSION < sort {
        return 0;
    }
    name_chains::entered(symbols, sort)
}

// The number that a new name of a sort gets, which is how many the sort has; or fault 4, where the family has the name.
fn number_for(symbols: &[u8], sort: usize, name: &[u8]) -> Result<usize, Fault>
    ensures stands { Stands symbols.now sort name.now result }
    ensures refuses { IfErr result IsRefusal }
{
    let family = symbols::family_of(sort, 0);
    let tried = name_chains::find(symbols, family, name);
    let found = tried.found;
    match found {
        Some(_) => Err(Fault::DeclaredAgain),
        None => Ok(count(symbols, sort)),
    }
}

// Writes an entry at the end of the symbols, if there is room for it, and answers the place past it.
fn add(symbols: &mut [u8], end: usize, sort: usize, number: usize, name: &[u8]) -> Option<usize>
    requires { (sort < 8) × (index_bytes ≤ length symbols.old) }
    ensures { Enters symbols.old symbols.new end (name_entry sort number name.now ∷ []) result }
{
    let len = name.len();
    if lexer::Name::MAX < len {
        return None;
    }
    if symbols::NAME_BYTES < end {
        return None;
    }
    if symbols::NAME_BYTES - end < NameEntry::HEAD_BYTES + len {
        return None;
    }
    Some(name_chains::enter(symbols, end, sort, number, name, 0, len))
}

// A thing or an attribute by its full name.
fn add_name(symbols: &mut [u8], end: usize, sort: usize, name: &[u8]) -> Result<usize, Fault>
    requires { (sort < 6) × (index_bytes ≤ length symbols.old) }
    ensures declares { DeclaresPlain sort name.now symbols.old symbols.new end result }
    ensures refuses { IfErr result IsRefusal }
{
    let number = number_for(symbols, sort, name)?;
    if symbols::most(sort) <= number {
        return Err(Fault::MaximumPassed);
    }
    add(symbols, end, sort, number, name).ok_or(Fault::MaximumPassed)
}

// `(user U)` and the like, after the keyword, by the number of the sort: the new end of the symbols, or fault 4 or 6.
pub fn declare(
    text: &[u8],
    at: usize,
    sort: usize,
    symbols: &mut [u8; SYMBOL_BYTES],
    end: usize,
) -> Result<usize, Fault>
    ensures declares { DeclaresName text.now at sort symbols.old symbols.new end result }
    ensures refuses { IfErr result IsRefusal }
{
    if Sort::CLASS <= sort {
        return Err(Fault::MaximumPassed); // no caller declares a class or a permission so
    }
    let Some(word) = name_rows::word_at(text, at) else {
        return Err(Fault::MaximumPassed);
    };
    // Outside of blocks the name is its own full name, and nothing is copied.
    if !scopes::in_block(symbols) {
        return add_name(
            symbols,
            end,
            sort,
            byte_slices::part(text, word.start, word.length),
        );
    }
    let mut whole = [0u8; lexer::Name::MAX];
    let named = scopes::full_name(symbols, text, word.start, word.length, &mut whole);
    let Some(long) = named else {
        return Err(Fault::MaximumPassed);
    };
    add_name(symbols, end, sort, byte_slices::part(&whole, 0, long))
}

// Writes the entries of a class's permissions, the names in the row at a place, numbered from a first number on. The
// caller counts them before: a class with too many is refused with nothing written. Permissions take no block's name.
fn add_permissions(
    symbols: &mut [u8],
    end: usize,
    first: usize,
    text: &[u8],
    at: usize,
) -> Option<usize>
    requires { (first ≤ 1024) × (end ≤ name_bytes) × (index_bytes ≤ length symbols.old) × (length (words_in (frames_at text.now at).here) ≤ 32) }
    ensures { Enters symbols.old symbols.new end (permission_entries first (words_in (frames_at text.now at).here)) result }
{
    let mut i = at;
    let mut past = end;
    let mut place: usize = 0;
    while let Some(word) = name_rows::word_at(text, i) {
        let permission = byte_slices::part(text, word.start, word.length);
        past = add(symbols, past, Sort::PERMISSION, first + place, permission)?;
        place += 1;
        i = word.start + word.length;
    }
    Some(past)
}

// A class by its full name and the row of its permissions, none of which occurs twice. What may refuse it is tested
// before the first entry is written, so that a refused class leaves the symbols as they were; a class that passes has
// room for all of its entries.
fn add_class(
    symbols: &mut [u8],
    end: usize,
    name: &[u8],
    text: &[u8],
    row: usize,
) -> Result<usize, Fault>
    requires { index_bytes ≤ length symbols.old }
    ensures declares { DeclaresClass name.now (words_in (frames_at text.now row).here) symbols.old symbols.new end result }
    ensures refuses { IfErr result IsRefusal }
{
    let number = number_for(symbols, Sort::CLASS, name)?;
    if policy::Class::MAX <= number {
        return Err(Fault::MaximumPassed);
    }
    if policy::Permission::MAX < name_rows::count_names(text, row) {
        return Err(Fault::MaximumPassed);
    }
    let past = add(symbols, end, Sort::CLASS, number, name).ok_or(Fault::MaximumPassed)?;
    let first = number * policy::Permission::MAX;
    add_permissions(symbols, past, first, text, row).ok_or(Fault::MaximumPassed)
}

// `(class C (P ...))`, after the keyword. A permission that occurs twice is fault 4 also where the full name is too
// long.
pub fn declare_class(
    text: &[u8],
    at: usize,
    symbols: &mut [u8; SYMBOL_BYTES],
    end: usize,
) -> Result<usize, Fault>
    ensures declares { DeclaresAt text.now at class_k symbols.old symbols.new end result }
    ensures refuses { IfErr result IsRefusal }
{
    let Some(word) = name_rows::word_at(text, at) else {
        return Err(Fault::MaximumPassed);
    };
    let row = name_rows::inside(text, word.start + word.length);
    if name_rows::repeats(text, row) {
        return Err(Fault::DeclaredAgain);
    }
    // Outside of blocks the name is its own full name, and nothing is copied.
    if !scopes::in_block(symbols) {
        return add_class(
            symbols,
            end,
            byte_slices::part(text, word.start, word.length),
            text,
            row,
        );
    }
    let mut whole = [0u8; lexer::Name::MAX];
    let named = scopes::full_name(symbols, text, word.start, word.length, &mut whole);
    let Some(long) = named else {
        return Err(Fault::MaximumPassed);
    };
    add_class(symbols, end, byte_slices::part(&whole, 0, long), text, row)
}
