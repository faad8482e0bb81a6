// Reads the cases of a corpus from a reader, as standard input: numbers of 4 and 8 bytes, little endian, and bytes
// after their length.
#![tactic(auto)]

ghost use Rattle.std.specs.Prelude.{◌≡◌, length};

use std::io;
use std::io::{ErrorKind, Read, Write};

// The greatest number of cases: more than a corpus of 1 MB can have.
const CASES: usize = 1_000_000;

// The next number of 4 bytes, a length or a count; none where the input ends before it.
pub fn length<R: Read>(input: &mut R) -> io::Result<Option<usize>> {
    let mut bytes = [0u8; 4];
    let found = fill(input, &mut bytes)?;
    Ok(found.then_some(u32::from_le_bytes(bytes) as usize))
}

// The next number of 8 bytes; none where the input ends before it.
pub fn number<R: Read>(input: &mut R) -> io::Result<Option<usize>> {
    let mut bytes = [0u8; 8];
    let found = fill(input, &mut bytes)?;
    Ok(found.then_some(u64::from_le_bytes(bytes) as usize))
}

// Fills the memory with the next bytes; answers whether there were as many.
pub fn fill<R: Read>(input: &mut R, memory: &mut [u8]) -> io::Result<bool>
    ensures { length memory.new ≡ length memory.old }
{
    match input.read_exact(memory) {
        Ok(()) => Ok(true),
        // the input ended first, which is an answer and no fault
        Err(e) if e.kind() == ErrorKind::UnexpectedEof => Ok(false),
        Err(e) => Err(e),
    }
}

// Runs each case of a corpus: a length of 4 bytes and so many bytes, which are read into the memory, and what `run`
// reads after them. `run` answers whether the case was whole. The corpus ends with the input, or with a case that is
// cut short or longer than the memory.
pub fn each_case<R: Read, W: Write, F: FnMut(&mut R, &mut W, &[u8]) -> io::Result<bool>>(
    input: &mut R,
    out: &mut W,
    memory: &mut [u8],
    mut run: F,
) -> io::Result<()>
    requires { F.IsAlwaysCallable run }
    ensures { length memory.new ≡ length memory.old }
{
    for _ in 0..CASES {
        let Some(len) = length(input)? else {
            break;
        };
        if memory.len() < len {
            break;
        }
        let bytes = &mut memory[..len];
        if !fill(input, bytes)? {
            break;
        }
        if !run(input, out, bytes)? {
            break;
        }
    }
    out.flush()
}
