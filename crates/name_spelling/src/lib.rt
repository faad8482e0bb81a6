// How a name of a table is spelt: which bytes and how many parts it has, and whether a part is a reserved word. One
// pass tests and hashes its bytes.
#![tactic(auto)]

ghost use Rattle.std.specs.Prelude.{◌≡◌, true, not, ◌&&◌, ◌≤◌, ◌<◌, ltb, length, get_or};
ghost use Rattle.lexer.specs.Class.{class_of, starts, goes_on, is_part};
ghost use Rattle.policy.specs.Words.{is_reserved};
ghost use Rattle.symbols.specs.Section.{between};
ghost use Rattle.name_spelling.specs.Spelling as spec;
ghost use Rattle.name_spelling.specs.Spelling.{may_be_reserved, hash_if, PartRead, more_spelled, spelled};

// A part that was read: the hash of the name up to its end, and the place after it.
#[derive(Clone, Copy)]
struct Part {
    hash: usize,
    end: usize,
}

// ---- reserved words

// A byte as a bit among 64: the bit of half its number, which few others share.
#[derive(Clone, Copy)]
struct Ending;

impl Ending {
    const ONE: u64 = 1 << 24;

    const TWO_OR_THREE: u64 = 1 << 25;

    const D: u64 = 1 << 50;

    const L_OR_M: u64 = 1 << 54;

    const P_OR_Q: u64 = 1 << 56;

    const R: u64 = 1 << 57;

    const T: u64 = 1 << 58;

    const Y: u64 = 1 << 60;

    // The last bytes of the reserved words of two bytes, and of three.
    const OF_TWO: u64 = Ending::ONE + Ending::TWO_OR_THREE + Ending::P_OR_Q + Ending::R;

    const OF_THREE: u64 = Ending::D + Ending::L_OR_M + Ending::P_OR_Q + Ending::R + Ending::T;
}

// The last bytes of the reserved words of a length.
fn endings(len: usize) -> u64
    ensures { result ≡ spec.endings len }
{
    match len {
        2 => Ending::OF_TWO,
        3 => Ending::OF_THREE,
        5 => Ending::Y,
        6 => Ending::P_OR_Q,
        _ => 0,
    }
}

// Whether a part of so many bytes that ends in a byte may be a reserved word.
fn may_be_reserved(len: usize, last: u8) -> bool
    ensures { result ≡ may_be_reserved len last }
{
    (endings(len) >> (last / 2 % 64)) % 2 == 1
}

// Whether the bytes from a place to before another have a reserved part.
fn is_reserved(table: &[u8], from: usize, past: usize) -> bool
    requires { from ≤ past }
    ensures { result ≡ is_reserved (between table.now from past) }
{
    words::has_reserved_part(byte_slices::part(table, from, past - from))
}

// The hash, unless the part from a place to before another is reserved. Few parts end like a reserved word of their
// length, so that few are compared.
fn unless_reserved(table: &[u8], from: usize, past: usize, hash: usize) -> Option<usize>
    requires { (from < past) × (past ≤ length table.now) × (is_part (between table.now from past) ≡ true) }
    ensures { result ≡ hash_if (not (is_reserved (between table.now from past))) hash }
{
    if !may_be_reserved(past - from, table[past - 1]) {
        return Some(hash);
    }
    if is_reserved(table, from, past) {
        return None;
    }
    Some(hash)
}

// ---- parts

// Whether a part goes on at a place before another.
fn goes_on(table: &[u8], at: usize, past: usize) -> bool
    requires { past ≤ length table.now }
    ensures { result ≡ (ltb at past && goes_on (class_of (get_or table.now at 0))) }
{
    if past <= at {
        return false;
    }
    lexer::is_in_part(table[at])
}

// Whether a part starts at a place before another.
fn starts_part(table: &[u8], at: usize, past: usize) -> bool
    requires { past ≤ length table.now }
    ensures { result ≡ (ltb at past && starts (class_of (get_or table.now at 0))) }
{
    if past <= at {
        return false;
    }
    lexer::starts_part(table[at])
}

// The part that starts at a place, with the hash of the name up to there.
fn read_part(table: &[u8], from: usize, past: usize, before: usize) -> Part
    requires { (from < past) × (past ≤ length table.now) × (before < 4294967296) }
    ensures { PartRead table.now from past before result }
{
    let mut hash = bloom_filter::hash_step(before, little_endian::wide(table[from]));
    let mut i = from + 1;
    while goes_on(table, i, past) {
        hash = bloom_filter::hash_step(hash, little_endian::wide(table[i]));
        i += 1;
    }
    Part { hash: hash, end: i }
}

// The hash of a name whose part from a place to before another does not end it: a dot is there, and after it so many
// parts at most. Few names have a dot. Since this function calls itself, the compiler keeps it apart from `spell`,
// which then is as quick as if there were no dots.
fn spell_more(
    table: &[u8],
    from: usize,
    dot: usize,
    past: usize,
    before: usize,
    left: usize,
) -> Option<usize>
    requires { (from < dot) × (dot < past) × (past ≤ length table.now) × (before < 4294967296) × (is_part (between table.now from dot) ≡ true) }
    ensures { result ≡ more_spelled table.now from dot past before left }
{
    if left == 0 {
        return None;
    }
    if !lexer::is_dot(table[dot]) {
        return None;
    }
    let start = dot + 1;
    if !starts_part(table, start, past) {
        return None;
    }
    let part = read_part(
        table,
        start,
        past,
        bloom_filter::hash_step(before, little_endian::wide(table[dot])),
    );
    let end = part.end;
    let hash = if end < past {
        spell_more(table, start, end, past, part.hash, left - 1)?
    } else {
        unless_reserved(table, start, past, part.hash)?
    };
    unless_reserved(table, from, dot, hash)
}

// The hash of the bytes from a place to before another if they are a good name of so many parts at most.
pub fn spell(table: &[u8], from: usize, past: usize, most_parts: usize) -> Option<usize>
    requires { (from ≤ past) × (past ≤ length table.now) × (0 < most_parts) }
    ensures { result ≡ spelled most_parts (between table.now from past) }
{
    if lexer::Name::MAX < past - from {
        return None;
    }
    if !starts_part(table, from, past) {
        return None;
    }
    let part = read_part(table, from, past, 0);
    let end = part.end;
    if end < past {
        return spell_more(table, from, end, past, part.hash, most_parts - 1);
    }
    unless_reserved(table, from, past, part.hash)
}
