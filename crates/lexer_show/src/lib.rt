// The line that a program writes of a scan: `clean`, or the refusal with its number, place and line.
#![tactic(auto)]

use lexer::{ScanFault, Text};
use policy::{Fault, Refusal};
use std::io;
use std::io::Write;

fn refused<W: Write>(out: &mut W, text: &[u8], fault: Fault, place: usize) -> io::Result<()> {
    let line = lines::line_of(text, place);
    let refusal = Refusal { fault, place, line };
    answer_show::show_refusal(out, refusal)
}

// Scans a text and writes what the scan says.
pub fn show<W: Write>(out: &mut W, text: &[u8]) -> io::Result<()> {
    let found = lexer::scan(text);
    match found {
        Ok(()) => out.write_all(b"clean\n"),
        Err(ScanFault::TooLong) => refused(out, text, Fault::TextTooLong, Text::MAX),
        Err(ScanFault::Wrong(place)) => refused(out, text, Fault::WrongByte, place),
    }
}
