// The lines that programs write of sets: the function, two of the numbers that it was given, and the answer, a set as
// its bytes in hexadecimal digits. And the two sets that the programs start from.
#![tactic(auto)]

use std::io;
use std::io::Write;

// What the sets are made of, as far as they reach.
const FIRST: [usize; 8] = [0, 7, 8, 63, 64, 100, 127, 511];

const SECOND: [usize; 8] = [0, 1, 7, 9, 64, 101, 127, 300];

// A line whose answer is a set.
pub fn line<W: Write>(out: &mut W, name: &[u8], a: usize, b: usize, set: &[u8]) -> io::Result<()> {
    out.write_all(name)?;
    write!(out, " {a} {b}: ")?;
    if set.is_empty() {
        return writeln!(out, "no bytes");
    }
    for byte in set {
        write!(out, "{byte:02x}")?;
    }
    writeln!(out)
}

// A line whose answer is yes or no.
pub fn yes_or_no<W: Write>(
    out: &mut W,
    name: &[u8],
    a: usize,
    b: usize,
    answer: bool,
) -> io::Result<()> {
    let word = if answer { "yes" } else { "no" };
    out.write_all(name)?;
    writeln!(out, " {a} {b}: {word}")
}

// A line whose answer is a number.
pub fn how_many<W: Write>(
    out: &mut W,
    name: &[u8],
    a: usize,
    b: usize,
    n: usize,
) -> io::Result<()> {
    out.write_all(name)?;
    writeln!(out, " {a} {b}: {n}")
}

// The set becomes the numbers of a list, as far as it reaches.
fn fill(set: &mut [u8], numbers: &[usize]) {
    bitset::clear(set);
    for n in numbers {
        bitset::insert(set, *n);
    }
}

pub fn first(set: &mut [u8]) {
    fill(set, &FIRST);
}

pub fn second(set: &mut [u8]) {
    fill(set, &SECOND);
}
