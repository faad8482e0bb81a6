// Asks of the tables of a corpus on standard input whether they are sound, and writes a line for each. A case is the
// length of a table, 4 bytes, little endian, and then the table. The corpus ends with the input, or with a case that
// is cut short or longer than the memory here.
#![tactic(auto)]

use std::io;
use std::io::Write;

// The greatest length of a case's table: more than the longest table has.
const CASE_MAX: usize = 262_144;

// Writes whether the table is sound.
fn show<W: Write>(out: &mut W, table: &[u8]) -> io::Result<()> {
    if soundness::sound(table) {
        out.write_all(b"sound\n")
    } else {
        out.write_all(b"unsound\n")
    }
}

fn main(rt: HostRuntime) -> io::Result<()> {
    let mut memory = [0u8; CASE_MAX];
    corpus::each_case(
        &mut rt.stdin(),
        &mut rt.stdout(),
        &mut memory,
        |_input, out, table| {
            show(out, table)?;
            Ok(true)
        },
    )
}
