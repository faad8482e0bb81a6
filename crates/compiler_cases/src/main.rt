// Compiles the texts of a corpus on standard input, and writes a line for each: the answer, and a checksum of all the
// memory that was lent. A case is the length of the lent memory and that of the text, 4 bytes each, little endian,
// and then the text. Byte i of the memory holds (i * 7 + 3) mod 256 beforehand. The corpus ends with the input, or
// with a case that is cut short or longer than the memory here.
#![tactic(auto)]

ghost use Rattle.std.specs.Prelude.{◌≡◌, length};

use std::io;
use std::io::{Read, Write};

// The most memory that a case lends.
const LENT_MAX: usize = 262_144;

// The greatest length of a case's text: some more than a text may have.
const TEXT_MAX: usize = lexer::Text::MAX + 10;

// The greatest number of cases: more than a corpus of 1 MB can have.
const CASES: usize = 1_000_000;

// Fills the memory with what it holds beforehand.
fn prepare(memory: &mut [u8])
    ensures { length memory.new ≡ length memory.old }
{
    let mut next: u16 = 3;
    for byte in memory.iter_mut() {
        *byte = (next % 256) as u8;
        next = (next % 256) + 7;
    }
}

// Adler-32: two sums modulo 65,521, the second of the first.
fn checksum(memory: &[u8]) -> usize {
    let mut a: u32 = 1;
    let mut b: u32 = 0;
    for byte in memory {
        a = (a + u32::from(*byte)) % 65_521;
        b = (b + a) % 65_521;
    }
    65_536 * (b as usize) + a as usize
}

// Compiles the text in so much of the memory, and shows the answer.
fn show<W: Write>(out: &mut W, text: &[u8], memory: &mut [u8], lent: usize) -> io::Result<()>
    ensures { length memory.new ≡ length memory.old }
{
    if memory.len() < lent {
        return Ok(());
    }
    let table = &mut memory[..lent];
    prepare(table);
    let answer = compiler::compile(text, table);
    answer_show::show_compiling_and(out, answer, checksum(table))
}

// Reads a text of that length and compiles it in so much memory; answers whether there was one.
fn case<R: Read, W: Write>(
    input: &mut R,
    out: &mut W,
    texts: &mut [u8],
    len: usize,
    memory: &mut [u8],
    lent: usize,
) -> io::Result<bool>
    ensures { length memory.new ≡ length memory.old }
{
    if texts.len() < len {
        return Ok(false);
    }
    let text = &mut texts[..len];
    if !corpus::fill(input, text)? {
        return Ok(false);
    }
    show(out, text, memory, lent)?;
    Ok(true)
}

fn main(rt: HostRuntime) -> io::Result<()> {
    let mut input = rt.stdin();
    let mut out = rt.stdout();
    let mut texts = [0u8; TEXT_MAX];
    let mut memory = [0u8; LENT_MAX];
    for _ in 0..CASES {
        let Some(lent) = corpus::length(&mut input)? else {
            break;
        };
        let Some(len) = corpus::length(&mut input)? else {
            break;
        };
        if !case(&mut input, &mut out, &mut texts, len, &mut memory, lent)? {
            break;
        }
    }
    out.flush()
}
