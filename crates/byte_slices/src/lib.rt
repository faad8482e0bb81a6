// Slices of bytes: a byte, a part and a copy. Every function but `copy` answers for every place and every length;
// what is past the end is 0, or is left out.
#![tactic(auto)]

ghost use Rattle.std.specs.Prelude.{◌≡◌, ◌+◌, ◌-◌, ◌≤◌, min, length, get_or};
ghost use Rattle.byte_slices.specs.Parts as parts;
ghost use Rattle.byte_slices.specs.Parts.{put};

use std::ops::Range;

// Where bytes stand in a slice: the place of the first, and how many there are.
#[derive(Clone, Copy, PartialEq, Eq)]
pub struct Span {
    pub start: usize,
    pub length: usize,
}

// The byte at a place, and 0 past the end.
pub fn byte(set: &[u8], at: usize) -> u8
    ensures { result ≡ get_or set.now at 0 }
{
    set.get(at).copied().unwrap_or(0)
}

// Where the w bytes at offset o stand in a slice of len bytes, or as many of them as it has. With a sum that saturates
// this would be one line, but each question that is asked of a table would take a tenth longer.
pub fn range_of(o: usize, w: usize, len: usize) -> Range<usize>
    ensures start { result.start ≡ min o len }
    ensures end { result.end ≡ min (o + w) len }
{
    let start = o.min(len);
    start..start + w.min(len - start)
}

// The w bytes at offset o, or as many of them as the table has.
pub fn part(table: &[u8], o: usize, w: usize) -> &[u8]
    ensures { result.now ≡ parts.part table.now o w }
{
    &table[range_of(o, w, table.len())]
}

// Copies the len bytes of text from a place on to a place of the table. By a loop, since names are short, and since
// `copy_from_slice` is a call of `memmove`, which the library for C does not ask of its caller.
pub fn copy(table: &mut [u8], at: usize, text: &[u8], from: usize, len: usize)
    requires { (at + len ≤ length table.old) × (len ≤ length text.now - from) }
    ensures { table.new ≡ put table.old at (parts.part text.now from len) }
{
    for i in 0..len {
        table[at + i] = text[from + i];
    }
}
