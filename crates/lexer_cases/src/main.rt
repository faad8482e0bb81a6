// Scans the texts of a corpus on standard input, and writes what each scan says. A case is the length of a text, 4
// bytes, little endian, and then the text. The corpus ends with the input, or with a case that is cut short or longer
// than the memory here.
#![tactic(auto)]

use std::io;

// The greatest length of a case's text: one byte more than a text may have.
const CASE_MAX: usize = lexer::Text::MAX + 1;

fn main(rt: HostRuntime) -> io::Result<()> {
    let mut memory = [0u8; CASE_MAX];
    corpus::each_case(
        &mut rt.stdin(),
        &mut rt.stdout(),
        &mut memory,
        |_input, out, text| {
            lexer_show::show(out, text)?;
            Ok(true)
        },
    )
}
