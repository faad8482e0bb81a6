// Names inside blocks (W-203). The memory of the symbols has, after the index, the full name of the innermost open
// block: the scope. What is declared gets that name and a dot in front. A use is tried as a full name in the
// innermost block, then in the blocks around it, and last at the whole-text level; the first hit of the family
// decides.
#![tactic(auto)]

ghost use Rattle.std.specs.Prelude.{◌≡◌, true, ◌+◌, ◌<◌, ◌≤◌, length};
ghost use Rattle.byte_slices.specs.Parts.{part};
ghost use Rattle.policy.specs.Names.{has_dot_in_front};
ghost use Rattle.name_chains.specs.Chains.{Tries};
ghost use Rattle.scopes.specs.Scope.{scope_length, scope_in, last_dot, within, InBlock, Composes, Names, TriedOnce, Resolves, Starts, EntersBlock, LeavesBlock, symbol_bytes};
ghost use Rattle.scopes.specs.Symbols.{Looks, LooksClass, LooksPermission};

use name_chains::Tried;
use symbols::{NameFamily, Symbol};

// The memory of the symbols with their index and the scope: a byte for its length, and its bytes.
pub const SYMBOL_BYTES: usize = name_index::SYMBOL_BYTES + 1 + lexer::Name::MAX;

// Where the length of the scope is; its bytes follow.
const SCOPE: usize = name_index::SYMBOL_BYTES;

// ---- the scope

// The length of the scope.
fn scope_length(symbols: &[u8]) -> usize
    requires { symbol_bytes ≤ length symbols.now }
    ensures { (result ≤ 64) × (scope_length symbols.now ≤ 64 → result ≡ scope_length symbols.now) }
{
    (symbols[SCOPE] as usize).min(lexer::Name::MAX)
}

// Where the last dot of the first n bytes of the scope is, or 0: block names have no dot.
fn last_dot(symbols: &[u8], n: usize) -> usize
    requires { (n ≤ 64) × (symbol_bytes ≤ length symbols.now) }
    ensures { (result ≡ last_dot (scope_in symbols.now n)) × (0 < n → result < n) × (result ≤ n) }
{
    let scope = byte_slices::part(symbols, SCOPE + 1, n);
    scope
        .iter()
        .rposition(|&byte| byte == lexer::Name::DOT)
        .unwrap_or(0)
}

// Whether a block is open. Memory that is too short for a scope counts as inside a block, so that nobody takes the
// short way of the whole-text level there.
pub fn in_block(symbols: &[u8]) -> bool
    ensures { InBlock symbols.now result }
{
    symbols.len() < SYMBOL_BYTES || symbols[SCOPE] != 0
}

// No block is open.
pub fn start(symbols: &mut [u8])
    requires { symbol_bytes ≤ length symbols.old }
    ensures { Starts symbols.old symbols.new }
{
    symbols[SCOPE] = 0;
}

// A name inside the block whose full name is the first n bytes of the scope, put together in lent memory: those
// bytes, a dot, and the name. With n = 0 it is the name alone. The length is answered, or nothing where the full name
// is longer than a name may be.
fn compose(symbols: &[u8], n: usize, name: &[u8], into: &mut [u8]) -> Option<usize>
    requires { (n ≤ 64) × (symbol_bytes ≤ length symbols.now) × (64 ≤ length into.old) }
    ensures { Composes (within (scope_in symbols.now n) name.now) into.old into.new result }
{
    let long = name.len();
    if n == 0 {
        if lexer::Name::MAX < long {
            return None;
        }
        byte_slices::copy(into, 0, name, 0, long);
        return Some(long);
    }
    if lexer::Name::MAX - n <= long {
        return None;
    }
    byte_slices::copy(into, 0, symbols, SCOPE + 1, n);
    into[n] = lexer::Name::DOT;
    byte_slices::copy(into, n + 1, name, 0, long);
    Some(n + 1 + long)
}

// The full name of what is declared under the len bytes of the text from a place on, in the blocks that are open: its
// length, or nothing where it is longer than a name may be.
pub fn full_name(
    symbols: &[u8],
    text: &[u8],
    from: usize,
    len: usize,
    into: &mut [u8],
) -> Option<usize>
    requires { (symbol_bytes ≤ length symbols.now) × (64 ≤ length into.old) }
    ensures { Names symbols.now (part text.now from len) into.old into.new result }
{
    compose(
        symbols,
        scope_length(symbols),
        byte_slices::part(text, from, len),
        into,
    )
}

// Opens a block whose name is the len bytes of the text from a place on. Where its full name would be too long,
// nothing changes, and the answer is no.
pub fn enter_block(symbols: &mut [u8], text: &[u8], from: usize, len: usize) -> bool
    requires { symbol_bytes ≤ length symbols.old }
    ensures { EntersBlock symbols.old symbols.new (part text.now from len) result }
{
    let mut whole = [0u8; lexer::Name::MAX];
    let Some(long) = full_name(symbols, text, from, len, &mut whole) else {
        return false;
    };
    byte_slices::copy(symbols, SCOPE + 1, &whole, 0, long);
    symbols[SCOPE] = long as u8;
    true
}

// Closes the innermost block.
pub fn leave_block(symbols: &mut [u8])
    requires { symbol_bytes ≤ length symbols.old }
    ensures { LeavesBlock symbols.old symbols.new }
{
    let n = scope_length(symbols);
    let cut_to = last_dot(symbols, n);
    symbols[SCOPE] = cut_to as u8;
}

// ---- uses

// One try: a use inside the block whose full name is the first n bytes of the scope. A longer name than there can be
// is not looked for.
fn try_in(symbols: &[u8], n: usize, family: usize, name: &[u8]) -> Tried
    requires { (n ≤ 64) × (symbol_bytes ≤ length symbols.now) }
    ensures { Tries symbols.now family (within (scope_in symbols.now n) name.now) result }
{
    let mut whole = [0u8; lexer::Name::MAX];
    let Some(long) = compose(symbols, n, name, &mut whole) else {
        return Tried {
            found: None,
            compared: 0,
        };
    };
    name_chains::find(symbols, family, &whole[..long])
}

// Whether a use has a dot in front.
fn has_dot_in_front(name: &[u8]) -> bool
    ensures { result ≡ has_dot_in_front name.now }
{
    name.len() != 0 && name[0] == lexer::Name::DOT
}

// What a use stands for in a family, and how many entries the try that decides compared.
pub fn find(symbols: &[u8], family: usize, name: &[u8]) -> Tried
    requires { symbol_bytes ≤ length symbols.now }
    ensures { Resolves symbols.now family name.now result }
{
    if has_dot_in_front(name) {
        return name_chains::find(symbols, family, &name[1..]);
    }
    let mut n = scope_length(symbols);
    while 0 < n {
        let tried = try_in(symbols, n, family, name);
        if tried.found.is_some() {
            return tried;
        }
        n = last_dot(symbols, n);
    }
    name_chains::find(symbols, family, name)
}

// Whether a use is tried once, as it stands: no block is open, and it has no dot in front.
fn is_plain(symbols: &[u8], name: &[u8]) -> bool
    ensures { TriedOnce symbols.now name.now result }
{
    !in_block(symbols) && !has_dot_in_front(name)
}

// What a use stands for by all of its tries; memory with no room for a scope has no symbols. The count is not asked.
fn resolve(symbols: &[u8], family: usize, name: &[u8]) -> Option<Symbol>
    ensures { Looks symbols.now family name.now result }
{
    if symbols.len() < SYMBOL_BYTES {
        return None;
    }
    find(symbols, family, name).found
}

// What a name stands for where it is used: a thing or an attribute of a family, or a class. Most uses are outside of
// blocks, where one try decides: it is made at once, with no walk outward around it.
pub fn lookup(symbols: &[u8], family: usize, name: &[u8]) -> Option<Symbol>
    ensures { Looks symbols.now family name.now result }
{
    if is_plain(symbols, name) {
        return name_chains::find(symbols, family, name).found;
    }
    resolve(symbols, family, name)
}

// The same for a class alone, by all of its tries: a statement names one class, and several things or attributes.
pub fn lookup_class(symbols: &[u8], name: &[u8]) -> Option<Symbol>
    ensures { LooksClass symbols.now name.now result }
{
    resolve(symbols, NameFamily::CLASSES, name)
}

// The same for a permission of a class, by the family of its class: permissions take no block's name.
pub fn lookup_permission(symbols: &[u8], family: usize, name: &[u8]) -> Option<Symbol>
    ensures { LooksPermission symbols.now family name.now result }
{
    name_chains::find(symbols, family, name).found
}
