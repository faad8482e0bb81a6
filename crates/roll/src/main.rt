// Reads a text from standard input and prints its roll. A text that fills the memory here is too long already, so
// what follows is not read.
#![tactic(auto)]

ghost use Rattle.std.specs.Prelude.{◌≤◌, length, IfOk};

use roll_text::{ROLL_BYTES, TABLE_BYTES};
use std::io;
use std::io::{Read, Write};

// One byte more than a text may have.
const TEXT_BYTES: usize = lexer::Text::MAX + 1;

// Reads until the memory is full or the input ends; answers how many bytes were read.
fn read_full<R: Read>(input: &mut R, memory: &mut [u8]) -> io::Result<usize>
    ensures { IfOk result (λ n. n ≤ length memory.new) }
{
    let mut done = 0;
    // a read that is not the last one moves at least a byte
    for _ in 0..memory.len() {
        let count = input.read(&mut memory[done..])?;
        if count == 0 {
            break;
        }
        done += count;
    }
    Ok(done)
}

// Writes the first bytes of the memory.
fn print<W: Write>(out: &mut W, memory: &[u8; ROLL_BYTES], end: usize) -> io::Result<()> {
    out.write_all(byte_slices::part(memory, 0, end))
}

fn main(rt: HostRuntime) -> io::Result<()> {
    let mut memory = [0u8; TEXT_BYTES];
    let mut table = [0u8; TABLE_BYTES];
    let mut roll = [0u8; ROLL_BYTES];
    let length = read_full(&mut rt.stdin(), &mut memory)?;
    let text = byte_slices::part(&memory, 0, length);
    let end = roll_text::write_roll(text, &mut table, &mut roll);
    print(&mut rt.stdout(), &roll, end)
}
